//! The skews of a source, drawn by columns: their ranges, their middle halves and their medians.

use crate::cards::Card;
use crate::paths::{Shape, draw_path};
use crate::ranges::Range;
use crate::scales::Scale;
use crate::times::COLUMNS;
use std::io::{self, Write};

/// Draws a range of skews as the box of a column, by so much higher than it is.
fn draw_range<W: Write>(
    writer: &mut W,
    scale: Scale,
    at: usize,
    range: Range,
    more: u64,
) -> io::Result<()> {
    let top = scale.depth_of(range.greatest);
    let height = scale.depth_of(range.least).saturating_sub(top);
    let height = height.saturating_add(more);
    draw_path(writer, at, 1, Shape { top, height })
}

/// Draws the ranges of skews of the columns.
///
/// # Errors
/// The writer fails.
pub fn draw_ranges<W: Write>(writer: &mut W, scale: Scale, card: &Card) -> io::Result<()> {
    for at in 0..COLUMNS {
        if let Some(range) = card.ranges.at(at) {
            draw_range(writer, scale, at, range, 20)?;
        }
    }
    Ok(())
}

/// The middle half of the skews of a column.
fn half_of(card: &Card, at: usize) -> Option<Range> {
    Some(Range {
        least: card.quarter_at(at, 1)?,
        greatest: card.quarter_at(at, 3)?,
    })
}

/// Draws the middle halves of the skews of the columns.
///
/// # Errors
/// The writer fails.
pub fn draw_halves<W: Write>(writer: &mut W, scale: Scale, card: &Card) -> io::Result<()> {
    for at in 0..COLUMNS {
        if let Some(range) = half_of(card, at) {
            draw_range(writer, scale, at, range, 20)?;
        }
    }
    Ok(())
}

/// Draws the medians of the skews of the columns.
///
/// # Errors
/// The writer fails.
pub fn draw_medians<W: Write>(writer: &mut W, scale: Scale, card: &Card) -> io::Result<()> {
    for at in 0..COLUMNS {
        if let Some(skew) = card.quarter_at(at, 2) {
            let own = Range {
                least: skew,
                greatest: skew,
            };
            draw_range(writer, scale, at, own, 15)?;
        }
    }
    Ok(())
}
