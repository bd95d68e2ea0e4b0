//! The line by which one clock is ahead of the other.

ghost use Rattle.std.specs.Prelude.{◌≡◌, ◌<◌, ◌≤◌, ◌^◌, pos, ◌-ℤ◌, ◌*ℤ◌, unsigned_abs, FitsSigned, IfOk, IfSome, IfNone};
ghost use Rattle.std.specs.Int.{w64, int_div_euclid};
ghost use Rattle.sr_clocks.specs.Lines.{bounded, drift_of, clamped_time, ahead_scaled, corrected_scaled, level, slope, IsLevel, IsSlope, IsClockLine};

use crate::median::{Middle, early, late, middle_of};
use crate::pair::Pair;
use crate::window::{final_time, initial_time};
use sr_frame::NoMemory;
use std::alloc::Global;

/// The nanoseconds of a second.
const SECOND: i128 = 1_000_000_000;

/// From how long a time on frames tell of a drift, in nanoseconds.
const LEAST_SPAN: u64 = 5_000_000_000;

/// How many frames of the first and of the last third of the time it takes.
const LEAST_OF_A_THIRD: usize = 3;

/// How far the second of two clocks is ahead of the first one, at each time.
#[derive(Clone, Copy, Debug, PartialEq, Eq)]
pub struct Line {
    /// A time by the second clock, in nanoseconds.
    pub at: u64,
    /// How far that clock was ahead then, in nanoseconds.
    pub ahead: i64,
    /// By how many nanoseconds a second it goes faster than the first one: a thousandth of a ppm.
    pub drift: i32,
}

/// A drift, in nanoseconds a second, or the most that a clock is taken to drift: 1000 ppm.
fn bounded(drift: i128) -> i32
    ensures { result ≡ bounded drift }
{
    if 1_000_000 < drift {
        1_000_000
    } else if drift < -1_000_000 {
        -1_000_000
    } else {
        drift as i32
    }
}

/// How fast a clock drifts that gains so much in such a time.
fn drift_of(rise: i128, run: u64) -> i32
    requires { unsigned_abs rise < 2 ^ 66 }
    ensures { result ≡ drift_of rise run }
{
    if run == 0 {
        return 0;
    }
    bounded((rise * SECOND).div_euclid(i128::from(run)))
}

/// How much a clock that drifts gains from one time to another.
fn gained(drift: i32, from: u64, to: u64) -> i128
    ensures gained { result ≡ drift *ℤ (pos to -ℤ pos from) }
    ensures small { unsigned_abs result ≤ 2 ^ 95 }
{
    let apart = i128::from(to) - i128::from(from);
    i128::from(drift) * apart
}

/// A number as a time.
fn clamped_time(number: i128) -> u64
    ensures { result ≡ clamped_time number }
{
    if number < 0 {
        return 0;
    }
    u64::try_from(number).unwrap_or(u64::MAX)
}

/// So many nanoseconds, in those of a second.
fn scaled(nanoseconds: i128) -> i128
    requires { unsigned_abs nanoseconds < 2 ^ 66 }
    ensures scaled { result ≡ nanoseconds *ℤ pos 1000000000 }
    ensures small { unsigned_abs result < 2 ^ 96 }
{
    nanoseconds * SECOND
}

/// The whole nanoseconds, rounded down.
fn whole(scaled: i128) -> i128
    ensures { result ≡ int_div_euclid scaled (pos 1000000000) }
{
    scaled.div_euclid(SECOND)
}

/// How far a clock is ahead at a time, in those of a second.
fn ahead_scaled(line: &Line, time: u64) -> i128
    ensures { result ≡ ahead_scaled line.now time }
{
    scaled(i128::from(line.ahead)) + gained(line.drift, line.at, time)
}

/// A time less how far the second clock was ahead at the line's own time.
fn apart(line: &Line, time: u64) -> i128
    ensures apart { result ≡ pos time -ℤ line.now.ahead }
    ensures small { unsigned_abs result < 2 ^ 66 }
{
    i128::from(time) - i128::from(line.ahead)
}

/// A time by the other clock, in those of a second.
fn corrected_scaled(line: &Line, time: u64) -> i128
    ensures { result ≡ corrected_scaled line.now time }
{
    let own = scaled(apart(line, time));
    own - gained(line.drift, line.at, time)
}

/// How far a clock is ahead, less so many nanoseconds. None: that takes more than 64 bits.
fn less(ahead: i64, nanoseconds: i128) -> Option<i64>
    ensures some { IfSome result (λ own. own ≡ ahead -ℤ nanoseconds) }
    ensures none { IfNone result (FitsSigned w64 (ahead -ℤ nanoseconds) → ⊥) }
{
    let own = i128::from(ahead).checked_sub(nanoseconds)?;
    i64::try_from(own).ok()
}

impl Line {
    ghost use Rattle.std.specs.Prelude.{◌≡◌, IfSome, IfNone};
    ghost use Rattle.sr_clocks.specs.Lines.{ahead_at, corrected};
    ghost use Rattle.sr_clocks.specs.Rests.{IsRest, HasNoRest};

    /// How far the second clock is ahead at a time of its own, in nanoseconds, rounded down.
    pub fn ahead_at(&self, time: u64) -> i128
        ensures { result ≡ ahead_at self.now time }
    {
        whole(ahead_scaled(self, time))
    }

    /// A time of the second clock by the first one, in nanoseconds.
    pub fn corrected(&self, time: u64) -> u64
        ensures { result ≡ corrected self.now time }
    {
        clamped_time(whole(corrected_scaled(self, time)))
    }

    /// What is left of it where the times of the second clock are put off by a delay and counted from a start, and those of the first one by
    /// so many nanoseconds more. None: that can't be told in 64 bits.
    pub fn rest(&self, ahead: i128, delay: u64, start: u64) -> Option<Line>
        ensures some { IfSome result (IsRest self.now ahead delay start) }
        ensures none { IfNone result (HasNoRest self.now ahead delay start) }
    {
        let at = self.at.checked_add(delay)?.checked_sub(start)?;
        let ahead = less(self.ahead, ahead)?;
        Some(Line {
            at,
            ahead,
            drift: self.drift,
        })
    }
}

/// The line of a clock that does not drift, by the middle of all frames.
fn level(middle: Middle) -> Line
    ensures { result ≡ level middle }
{
    Line {
        at: middle.time,
        ahead: middle.ahead,
        drift: 0,
    }
}

/// The line through two middles.
fn slope(from: Middle, to: Middle) -> Line
    ensures { result ≡ slope from to }
{
    let rise = i128::from(to.ahead) - i128::from(from.ahead);
    Line {
        at: from.time,
        ahead: from.ahead,
        drift: drift_of(rise, to.time.saturating_sub(from.time)),
    }
}

/// The line of a clock that does not drift, by the middle of frames.
fn level_of(alloc: Global, pairs: &[Pair]) -> Result<Line, NoMemory>
    ensures { IfOk result (λ line. IsLevel pairs.now line) }
{
    let middle = middle_of(alloc, pairs)?;
    Ok(level(middle))
}

/// The line through the middles of some frames and of others.
fn slope_of(alloc: Global, first: &[Pair], last: &[Pair]) -> Result<Line, NoMemory>
    ensures { IfOk result (λ line. IsSlope first.now last.now line) }
{
    let from = middle_of(alloc, first)?;
    let to = middle_of(alloc, last)?;
    Ok(slope(from, to))
}

/// The line by which these frames tell the second clock to be ahead.
pub(crate) fn line_of(alloc: Global, pairs: &[Pair]) -> Result<Line, NoMemory>
    ensures { IfOk result (λ line. IsClockLine pairs.now line) }
{
    let first = initial_time(pairs);
    let last = final_time(pairs);
    let span = last.saturating_sub(first);
    let third = span / 3;
    let first_third = early(alloc, pairs, first + third)?;
    let last_third = late(alloc, pairs, last.saturating_sub(third))?;
    if LEAST_SPAN <= span
        && LEAST_OF_A_THIRD <= first_third.len()
        && LEAST_OF_A_THIRD <= last_third.len()
    {
        slope_of(alloc, &first_third, &last_third)
    } else {
        level_of(alloc, pairs)
    }
}
