//! Windows of differences between two clocks, and how many frames each holds.

ghost use Rattle.std.specs.Prelude.{◌≡◌, pos, ◌+ℤ◌, ◌-ℤ◌, IfOk};
ghost use Rattle.sr_clocks.specs.Windows.{is_within, held, denser, densest, near, lies_apart, far, initial_time, final_time, window_width};

use crate::pair::Pair;
use sr_frame::NoMemory;
use std::alloc::Global;

/// The window that holds most of some frames, by its least difference.
#[derive(Clone, Copy, Debug, PartialEq, Eq)]
pub(crate) struct Dense {
    /// Its least difference.
    pub from: i64,
    /// How many frames it holds.
    pub held: usize,
}

/// Whether the difference of a frame lies from one to another.
fn is_within(low: i128, high: i128, pair: &Pair) -> bool
    ensures { result ≡ is_within low high pair.now }
{
    let ahead = i128::from(pair.ahead);
    !(ahead < low) && !(high < ahead)
}

/// How many frames a window holds, from its least difference on.
fn held(pairs: &[Pair], width: u64, from: i64) -> usize
    ensures { result ≡ held pairs.now width from }
{
    let low = i128::from(from);
    let high = low + i128::from(width);
    pairs
        .iter()
        .filter(|pair| is_within(low, high, pair))
        .count()
}

/// The denser one of a window and that which begins at a frame: the earlier one where they hold as many.
fn denser(best: Dense, pairs: &[Pair], width: u64, pair: &Pair) -> Dense
    ensures { result ≡ denser pairs.now width best pair.now }
{
    let held = held(pairs, width, pair.ahead);
    if best.held < held {
        Dense {
            from: pair.ahead,
            held,
        }
    } else {
        best
    }
}

/// The densest window of this width that begins at the difference of a frame: of as dense ones, that of the first frame. Of no frames
/// it holds none.
pub(crate) fn densest(pairs: &[Pair], width: u64) -> Dense
    ensures { result ≡ densest pairs.now width }
{
    let mut best = Dense { from: 0, held: 0 };
    for pair in pairs {
        best = denser(best, pairs, width, pair);
    }
    best
}

/// The frames that a window holds.
pub(crate) fn near(
    alloc: Global,
    pairs: &[Pair],
    width: u64,
    from: i64,
) -> Result<Vec<Pair>, NoMemory>
    ensures { IfOk result (λ held. held.items ≡ near pairs.now width from) }
{
    let low = i128::from(from);
    let high = low + i128::from(width);
    let mut held = Vec::new(alloc);
    for pair in pairs {
        if is_within(low, high, pair) {
            held.extend_from_slice(&[*pair])?;
        }
    }
    Ok(held)
}

/// The least difference that is not more than a window's width below it.
fn below(width: u64, from: i64) -> i128
    ensures { result ≡ from -ℤ pos width }
{
    i128::from(from) - i128::from(width)
}

/// The greatest difference that is not more than a window's width above it.
fn above(width: u64, from: i64) -> i128
    ensures { result ≡ (from +ℤ pos width) +ℤ pos width }
{
    i128::from(from) + i128::from(width) + i128::from(width)
}

/// Whether a frame lies more than the width of a window from it, to either side.
fn lies_apart(width: u64, from: i64, pair: &Pair) -> bool
    ensures { result ≡ lies_apart width from pair.now }
{
    !is_within(below(width, from), above(width, from), pair)
}

/// The frames that lie more than the width of a window from it, to either side.
pub(crate) fn far(
    alloc: Global,
    pairs: &[Pair],
    width: u64,
    from: i64,
) -> Result<Vec<Pair>, NoMemory>
    ensures { IfOk result (λ others. others.items ≡ far pairs.now width from) }
{
    let mut others = Vec::new(alloc);
    for pair in pairs {
        if lies_apart(width, from, pair) {
            others.extend_from_slice(&[*pair])?;
        }
    }
    Ok(others)
}

/// The earliest time of frames, and 2^64 - 1 where there is none.
pub(crate) fn initial_time(pairs: &[Pair]) -> u64
    ensures { result ≡ initial_time pairs.now }
{
    let mut first = u64::MAX;
    for pair in pairs {
        first = first.min(pair.time);
    }
    first
}

/// The latest time of frames, and 0 where there is none.
pub(crate) fn final_time(pairs: &[Pair]) -> u64
    ensures { result ≡ final_time pairs.now }
{
    let mut last = 0;
    for pair in pairs {
        last = last.max(pair.time);
    }
    last
}

/// How wide a window of the differences of frames is: 20 ms, in which copies of a frame come, and 200 ppm of their time, which clocks
/// drift.
pub(crate) fn window_width(pairs: &[Pair]) -> u64
    ensures { result ≡ window_width pairs.now }
{
    let span = final_time(pairs).saturating_sub(initial_time(pairs));
    20_000_000 + span / 5_000
}
