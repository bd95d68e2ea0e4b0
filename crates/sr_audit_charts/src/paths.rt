//! Paths of boxes: many columns in one element of a picture (SVG 1.1).

use crate::histogram::Histogram;
use crate::times::COLUMNS;
use std::io::{self, Write};

/// A box of a column: how far its upper side is below the top, and how high it is, in tenths of a pixel.
#[derive(Clone, Copy, Debug, PartialEq, Eq)]
pub struct Shape {
    /// How far its upper side is below the top.
    pub top: u64,
    /// How high it is.
    pub height: u64,
}

/// The least width of a mark, in columns, so that one lost frame is seen.
const LEAST_WIDTH: usize = 2;

/// Draws tenths of a pixel.
fn draw_tenths<W: Write>(writer: &mut W, tenths: u64) -> io::Result<()> {
    let whole = tenths / 10;
    let part = tenths % 10;
    if part == 0 {
        write!(writer, "{whole}")
    } else {
        write!(writer, "{whole}.{part}")
    }
}

/// Draws a box that begins so far from the left side and is so wide.
pub(crate) fn draw_box<W: Write>(
    writer: &mut W,
    left: u64,
    width: u64,
    shape: Shape,
) -> io::Result<()> {
    write!(writer, "M{left} ")?;
    draw_tenths(writer, shape.top)?;
    write!(writer, "h{width}v")?;
    draw_tenths(writer, shape.height)?;
    write!(writer, "h-{width}z")
}

/// Draws the box of a column, so many columns wide.
///
/// # Errors
/// The writer fails.
pub fn draw_path<W: Write>(
    writer: &mut W,
    at: usize,
    width: usize,
    shape: Shape,
) -> io::Result<()> {
    draw_box(writer, at as u64, width as u64, shape)
}

/// Draws a mark from a column up to another one.
pub(crate) fn draw_mark<W: Write>(
    writer: &mut W,
    first: usize,
    end: usize,
    shape: Shape,
) -> io::Result<()> {
    let width = end.saturating_sub(first).max(LEAST_WIDTH);
    draw_path(
        writer,
        first.min(COLUMNS.saturating_sub(width)),
        width,
        shape,
    )
}

/// Draws marks of the columns in which something was counted. Those of columns side by side are one box.
///
/// # Errors
/// The writer fails.
pub fn draw_lane<W: Write>(writer: &mut W, counts: &Histogram, shape: Shape) -> io::Result<()> {
    let mut start = None;
    for at in 0..COLUMNS {
        match start {
            None if counts.at(at) > 0 => start = Some(at),
            Some(first) if counts.at(at) == 0 => {
                draw_mark(writer, first, at, shape)?;
                start = None;
            }
            _ => {}
        }
    }
    if let Some(first) = start {
        draw_mark(writer, first, COLUMNS, shape)?;
    }
    Ok(())
}
