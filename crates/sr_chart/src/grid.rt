//! The columns and the rows of a chart, and its cut links.

use crate::chart::CutLink;
use crate::columns::{Columns, HEAD, LEFT, between, y_of};
use crate::elements::{CUT, Name, NamePlace, Spot, draw_name};
use crate::kinds::{Part, Row, Side};
use std::io::{self, Write};

/// The height at which the names of parts stand, and that of the numbers of nodes.
const PARTS: usize = HEAD - 24;

const NODES: usize = HEAD - 6;

/// Draws the name of a part, and the columns of its nodes.
pub(crate) fn draw_part<W: Write>(
    writer: &mut W,
    columns: &Columns,
    part: Part,
    bottom: usize,
) -> io::Result<()> {
    let (left, right) = columns.sides_of(part.first);
    let x = between(left, right, 5);
    let name = part.name;
    writeln!(
        writer,
        "<text x=\"{x}\" y=\"{PARTS}\" text-anchor=\"middle\">{name}</text>"
    )?;
    for node in part.first..part.first.saturating_add(part.count) {
        let x = columns.x_of(node);
        writeln!(
            writer,
            "<text x=\"{x}\" y=\"{NODES}\" text-anchor=\"middle\" font-weight=\"bold\">{node}</text>"
        )?;
        writeln!(
            writer,
            "<line x1=\"{x}\" y1=\"{HEAD}\" x2=\"{x}\" y2=\"{bottom}\" stroke=\"#999999\"/>"
        )?;
    }
    Ok(())
}

/// Draws the name of an event, and a line across.
pub(crate) fn draw_row<W: Write>(
    writer: &mut W,
    row: usize,
    event: &Row,
    width: usize,
) -> io::Result<()> {
    let y = y_of(row);
    let text = y.saturating_add(4);
    writeln!(
        writer,
        "<line x1=\"{LEFT}\" y1=\"{y}\" x2=\"{width}\" y2=\"{y}\" stroke=\"#eeeeee\"/>"
    )?;
    writeln!(
        writer,
        "<text x=\"12\" y=\"{text}\" font-size=\"11\">{event}</text>"
    )
}

/// Draws the strip of a cut link at a place.
fn draw_strip<W: Write>(writer: &mut W, x: usize, cut: &CutLink, bottom: usize) -> io::Result<()> {
    let top = y_of(cut.start);
    let end = match cut.end {
        Some(row) => y_of(row),
        None => bottom,
    };
    writeln!(
        writer,
        "<line x1=\"{x}\" y1=\"{top}\" x2=\"{x}\" y2=\"{end}\" stroke=\"{CUT}\" stroke-width=\"4\" stroke-dasharray=\"10 5\"/>"
    )
}

/// Draws a link while it is cut.
pub(crate) fn draw_cut<W: Write>(
    writer: &mut W,
    columns: &Columns,
    cut: &CutLink,
    bottom: usize,
) -> io::Result<()> {
    draw_strip(writer, columns.link_x(cut.place), cut, bottom)?;
    match columns.again_x(cut.place) {
        Some(x) => draw_strip(writer, x, cut, bottom),
        None => Ok(()),
    }
}

/// The place of a name on a side of a strip, above the row in which the strip begins.
fn beside(x: usize, side: Side, row: usize) -> NamePlace {
    let y = y_of(row).saturating_sub(6);
    match side {
        Side::Left => NamePlace {
            at: Spot {
                x: x.saturating_sub(6),
                y,
            },
            anchor: "end",
        },
        Side::Right => NamePlace {
            at: Spot {
                x: x.saturating_add(6),
                y,
            },
            anchor: "start",
        },
    }
}

/// Draws the name of a link where it is cut.
pub(crate) fn draw_cut_name<W: Write>(
    writer: &mut W,
    columns: &Columns,
    cut: &CutLink,
) -> io::Result<()> {
    let name = Name::CutLink(cut.link);
    let place = beside(columns.link_x(cut.place), cut.place.side, cut.start);
    draw_name(writer, place, name)?;
    match columns.again_x(cut.place) {
        Some(x) => draw_name(writer, beside(x, Side::Right, cut.start), name),
        None => Ok(()),
    }
}
