//! Shifts of times, and the delays that stand for them.

ghost use Rattle.std.specs.Prelude.{◌≤◌, ◌^◌, ◌≤ℤ◌, IfSome, IfNone};
ghost use Rattle.sr_capture_script.specs.Shifts.{IsDelay, IsTooFar, AreDelays, AreTooFar};

use crate::choice::{Delays, MAX_DELAY};

/// How far a time is put off that is shifted so many milliseconds, where the least shift is that. None: too far.
fn delay_of(shift: i64, least: i64) -> Option<u64>
    requires { least ≤ℤ shift }
    ensures some { IfSome result (λ delay. IsDelay least shift delay × (delay ≤ 2 ^ 62)) }
    ensures none { IfNone result (IsTooFar least shift) }
{
    let apart = i128::from(shift) - i128::from(least);
    match u64::try_from(apart * 1_000_000) {
        Ok(delay) if delay <= MAX_DELAY => Some(delay),
        _ => None,
    }
}

/// The delays that stand for shifts in milliseconds: as much apart from one another, and the least is none. None where these
/// are more than 146 years apart.
pub fn delays_of(shift_a: i64, shift_b: i64, shift_c: i64) -> Option<Delays>
    ensures some { IfSome result (AreDelays shift_a shift_b shift_c) }
    ensures none { IfNone result (AreTooFar shift_a shift_b shift_c) }
{
    let least = shift_a.min(shift_b).min(shift_c);
    Some(Delays {
        a: delay_of(shift_a, least)?,
        b: delay_of(shift_b, least)?,
        c: delay_of(shift_c, least)?,
    })
}
