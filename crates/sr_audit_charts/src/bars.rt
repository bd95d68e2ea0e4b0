//! How many frames were lost by time, as bars that stand up or hang down.

use crate::histogram::Histogram;
use crate::paths::{Shape, draw_mark};
use crate::scales::level_of;
use crate::times::COLUMNS;
use std::io::{self, Write};

/// Where bars begin.
#[derive(Clone, Copy)]
pub enum Stand {
    /// They stand on a line so far below the top, in tenths of a pixel.
    On(u64),
    /// They hang from such a line.
    From(u64),
}

/// The least height of a bar, in tenths of a pixel, so that one lost frame is seen.
const LEAST_HEIGHT: u64 = 30;

/// How high the bar of a count is that grows with the logarithm of it, where that of the greatest count has a height.
fn height_of(count: u64, greatest: u64, height: u64) -> u64 {
    let level = level_of(count.saturating_add(1));
    let whole = level_of(greatest.saturating_add(1)).max(1);
    let own = level.saturating_mul(height) / whole;
    own.min(height).max(LEAST_HEIGHT)
}

/// The greatest of some counts.
pub fn greatest_of(counts: &Histogram) -> u32 {
    let mut greatest = 0;
    for at in 0..COLUMNS {
        greatest = counts.at(at).max(greatest);
    }
    greatest
}

/// Draws a bar for each column in which something was counted, as high as the logarithm of the count, where a count has a height.
///
/// # Errors
/// The writer fails.
pub fn draw_bars<W: Write>(
    writer: &mut W,
    counts: &Histogram,
    greatest: u64,
    height: u64,
    stand: Stand,
) -> io::Result<()> {
    for at in 0..COLUMNS {
        let count = u64::from(counts.at(at));
        if count > 0 {
            let height = height_of(count, greatest, height);
            let top = match stand {
                Stand::On(line) => line.saturating_sub(height),
                Stand::From(line) => line,
            };
            draw_mark(writer, at, at, Shape { top, height })?;
        }
    }
    Ok(())
}
