//! Shifts of times, as words and as delays.

ghost use Rattle.std.specs.Prelude.{◌≡◌, ◌+◌, ◌≤◌, ◌<◌, ◌^◌, ◌≤ℤ◌, IfSome, IfNone};
ghost use Rattle.sr_options.specs.Shifts.{IsPutOffBy, IsShiftedTooFar, ArePutOffBy, AreShiftedTooFar, AreSetBack, AreSetBackTooFar};

use crate::command_line::with_arg;
use crate::script_line::option;
use clap::{ArgMatches, Command};
use sr_capture_script::{Delays, MAX_DELAY};
use std::alloc::{AllocError, Global};

/// How the clocks of the recorders are put right.
#[derive(Clone, Copy, Debug, PartialEq, Eq)]
pub enum Shift {
    /// Nobody said: by the frames that both saw, where these are clear.
    Unasked,
    /// By the frames that both saw.
    Auto,
    /// By shifts that were given, or not at all.
    Given,
}

/// A command with the option that says how clocks are put right, if it was made.
pub(crate) fn with_clocks<'a>(
    alloc: Global,
    command: Result<Command<'a>, AllocError>,
) -> Result<Command<'a>, AllocError> {
    let shift = "How clocks are put right: auto, by the frames that both recorders saw, or none";
    let shift = option(alloc, "shift", "HOW", shift).value_parser(["auto", "none"].as_slice());
    with_arg(command, shift)
}

/// How the clocks of the recorders are put right. Shifts that are given stand, unless more is asked for.
pub(crate) fn shift_in(matches: &ArgMatches<'_>) -> Shift {
    match matches.get_str("shift") {
        Some("auto") => Shift::Auto,
        Some(_) => Shift::Given,
        None if matches.contains_id("shift-a") || matches.contains_id("shift-b") => Shift::Given,
        None => Shift::Unasked,
    }
}

/// A word without its unit, and the nanoseconds of that: milliseconds where it has none.
fn parted(word: &str) -> (&str, i64) {
    if let Some(front) = word.strip_suffix("ns") {
        (front, 1)
    } else if let Some(front) = word.strip_suffix("us") {
        (front, 1_000)
    } else if let Some(front) = word.strip_suffix("ms") {
        (front, 1_000_000)
    } else if let Some(front) = word.strip_suffix('s') {
        (front, 1_000_000_000)
    } else {
        (word, 1_000_000)
    }
}

/// What the digits behind a point come to, of a unit of so many nanoseconds. None: one is no digit, or stands for less than a
/// nanosecond.
fn fraction_of(digits: &str, unit: i64) -> Option<i64> {
    let mut unit = unit;
    let mut sum: i64 = 0;
    for digit in digits.bytes() {
        if !digit.is_ascii_digit() || unit % 10 != 0 {
            return None;
        }
        unit /= 10;
        sum = sum.checked_add(unit.checked_mul(i64::from(digit - b'0'))?)?;
    }
    Some(sum)
}

/// A number without sign, in nanoseconds of this unit. None: it is none, or more than 2^63 - 1 of them.
fn size_of(digits: &str, unit: i64) -> Option<i64> {
    let (whole, fraction) = match digits.split_once('.') {
        Some((_, "")) => return None,
        Some((whole, behind)) => (whole, fraction_of(behind, unit)?),
        None => (digits, 0),
    };
    let first = whole.as_bytes().first()?;
    if !first.is_ascii_digit() {
        return None;
    }
    let whole = whole.parse::<i64>().ok()?;
    whole.checked_mul(unit)?.checked_add(fraction)
}

/// A shift in nanoseconds: a number of milliseconds, or of the unit that stands behind it, `s`, `ms`, `us` or `ns`. None: it is none.
pub(crate) fn nanoseconds_of(word: &str) -> Option<i64> {
    let (front, unit) = parted(word);
    match front.strip_prefix('-') {
        Some(digits) => size_of(digits, unit)?.checked_neg(),
        None => size_of(front.strip_prefix('+').unwrap_or(front), unit),
    }
}

/// How far a time is put off whose shift is that, where the least shift is the other one. None: too far.
fn delay_of(shift: i64, least: i64) -> Option<u64>
    requires { least ≤ℤ shift }
    ensures some { IfSome result (λ delay. IsPutOffBy least shift delay × (delay ≤ 2 ^ 62)) }
    ensures none { IfNone result (IsShiftedTooFar least shift) }
{
    let apart = i128::from(shift) - i128::from(least);
    match u64::try_from(apart) {
        Ok(delay) if delay <= MAX_DELAY => Some(delay),
        _ => None,
    }
}

/// The delays that stand for shifts in nanoseconds: as much apart from one another, and the least is none. None: they are more than
/// 146 years apart.
pub(crate) fn delays_in(shift_a: i64, shift_b: i64, shift_c: i64) -> Option<Delays>
    ensures some { IfSome result (ArePutOffBy shift_a shift_b shift_c) }
    ensures none { IfNone result (AreShiftedTooFar shift_a shift_b shift_c) }
{
    let least = shift_a.min(shift_b).min(shift_c);
    Some(Delays {
        a: delay_of(shift_a, least)?,
        b: delay_of(shift_b, least)?,
        c: delay_of(shift_c, least)?,
    })
}

/// A delay that is longer by so many nanoseconds. None: it is too long.
fn longer_by(delay: u64, more: u128) -> Option<u64>
    requires { more ≤ 2 ^ 127 }
    ensures sum { IfSome result (λ own. own ≡ delay + more) }
    ensures small { IfSome result (λ own. own ≤ 2 ^ 62) }
    ensures none { IfNone result (2 ^ 62 < delay + more) }
{
    let sum = u128::from(delay) + more;
    if u128::from(MAX_DELAY) < sum {
        return None;
    }
    Some(sum as u64)
}

/// The delays by which the times of B are so many nanoseconds earlier, beside those of A and C, than by others: none is less than it was,
/// since times are put off alone. None: one would be more than 2^62 nanoseconds.
pub(crate) fn set_back(delays: Delays, ahead: i128) -> Option<Delays>
    ensures some { IfSome result (AreSetBack delays ahead) }
    ensures none { IfNone result (AreSetBackTooFar delays ahead) }
{
    let more = ahead.unsigned_abs();
    let Delays { a, b, c } = delays;
    if ahead < 0 {
        let b = longer_by(b, more)?;
        Some(Delays { a, b, c })
    } else {
        let a = longer_by(a, more)?;
        let c = longer_by(c, more)?;
        Some(Delays { a, b, c })
    }
}
