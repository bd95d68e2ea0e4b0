//! The median of numbers.

ghost use Rattle.std.specs.Prelude.{◌≡◌, ◌≤◌, IfOk, map};
ghost use Rattle.sr_clocks.specs.Lines.{IsMiddleTime, IsMiddleAhead, IsMiddle, early, late};

use crate::pair::Pair;
use sr_frame::NoMemory;
use std::alloc::Global;

/// The times of frames.
fn times(alloc: Global, pairs: &[Pair]) -> Result<Vec<u64>, NoMemory>
    ensures { IfOk result (λ times. times.items ≡ map (λ p. p.time) pairs.now) }
{
    Ok(pairs.iter().map(|pair| pair.time).collect(alloc)?)
}

/// The differences of frames.
fn differences(alloc: Global, pairs: &[Pair]) -> Result<Vec<i64>, NoMemory>
    ensures { IfOk result (λ all. all.items ≡ map (λ p. p.ahead) pairs.now) }
{
    Ok(pairs.iter().map(|pair| pair.ahead).collect(alloc)?)
}

/// The middle of frames: the medians of their times and of their differences.
#[derive(Clone, Copy, Debug, PartialEq, Eq)]
pub(crate) struct Middle {
    pub time: u64,
    pub ahead: i64,
}

/// The median of the times of frames: of an even number the later one in the middle. 0: there is no frame.
fn middle_time(alloc: Global, pairs: &[Pair]) -> Result<u64, NoMemory>
    ensures { IfOk result (λ time. IsMiddleTime pairs.now time) }
{
    let mut times = times(alloc, pairs)?;
    times.sort_unstable();
    Ok(times.get(times.len() / 2).copied().unwrap_or(0))
}

/// The median of the differences of frames: of an even number the greater one in the middle. 0: there is no frame.
fn middle_ahead(alloc: Global, pairs: &[Pair]) -> Result<i64, NoMemory>
    ensures { IfOk result (λ ahead. IsMiddleAhead pairs.now ahead) }
{
    let mut all = differences(alloc, pairs)?;
    all.sort_unstable();
    Ok(all.get(all.len() / 2).copied().unwrap_or(0))
}

/// The middle of frames.
pub(crate) fn middle_of(alloc: Global, pairs: &[Pair]) -> Result<Middle, NoMemory>
    ensures { IfOk result (λ middle. IsMiddle pairs.now middle) }
{
    let time = middle_time(alloc, pairs)?;
    let ahead = middle_ahead(alloc, pairs)?;
    Ok(Middle { time, ahead })
}

/// The frames that came up to a time.
pub(crate) fn early(alloc: Global, pairs: &[Pair], time: u64) -> Result<Vec<Pair>, NoMemory>
    ensures { IfOk result (λ all. all.items ≡ early pairs.now time) }
{
    Ok(
        pairs
            .iter()
            .filter(|pair| pair.time <= time)
            .copied()
            .collect(alloc)?,
    )
}

/// The frames that came from a time on.
pub(crate) fn late(alloc: Global, pairs: &[Pair], time: u64) -> Result<Vec<Pair>, NoMemory>
    ensures { IfOk result (λ all. all.items ≡ late pairs.now time) }
{
    Ok(
        pairs
            .iter()
            .filter(|pair| time <= pair.time)
            .copied()
            .collect(alloc)?,
    )
}
