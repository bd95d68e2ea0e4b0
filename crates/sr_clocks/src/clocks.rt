//! What the frames that both recorders saw tell of their clocks.

ghost use Rattle.std.specs.Prelude.{IfOk};
ghost use Rattle.sr_clocks.specs.Telling.{AreClocks};

use crate::line::{Line, line_of};
use crate::pair::Pair;
use crate::window::{densest, far, near, window_width};
use sr_frame::NoMemory;
use std::alloc::Global;

/// What the frames that both recorders saw tell of their clocks.
#[derive(Clone, Copy, Debug, PartialEq, Eq)]
pub enum Clocks {
    /// Both recorders saw no frame.
    Unknown,
    /// So many frames tell of one offset, and more than half as many of another one.
    Two(usize, usize),
    /// The second clock is ahead by this line, as so many frames tell.
    One(Line, usize),
}

/// What frames that both recorders saw tell of their clocks. The offset is where most of their differences lie: within 20 ms and 200 ppm
/// of their time. Where another window, apart from it, holds more than half as many, two offsets fit. Else the line is told by the
/// frames in the window: through the medians of the first and of the last third of their time, or level where that is less than 5 s
/// or less than three frames lie in one of the thirds.
///
/// # Errors
/// `NoMemory` where an allocation failed.
pub fn clocks_of(alloc: Global, pairs: &[Pair]) -> Result<Clocks, NoMemory>
    ensures { IfOk result (λ clocks. AreClocks pairs.now clocks) }
{
    let width = window_width(pairs);
    let best = densest(pairs, width);
    if best.held == 0 {
        return Ok(Clocks::Unknown);
    }
    let others = far(alloc, pairs, width, best.from)?;
    let second = densest(&others, width);
    if best.held / 2 < second.held {
        return Ok(Clocks::Two(best.held, second.held));
    }
    let own = near(alloc, pairs, width, best.from)?;
    let line = line_of(alloc, &own)?;
    Ok(Clocks::One(line, best.held))
}
