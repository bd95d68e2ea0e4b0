//! What stands above the rows of a chart.

use crate::arrows::dashes_of;
use crate::elements::{CUT, Pen, Spot, colour_of, draw_cross, draw_dot, draw_headed, draw_ring};
use crate::kinds::Outlet;
use std::io::{self, Write};

/// The place of the frame whose colour the legend has.
const SHOWN: usize = 0;

/// The heights of the two rows of the legend.
const FIRST: usize = 68;

const SECOND: usize = 92;

/// Draws the words of an entry of the legend.
fn draw_words<W: Write>(writer: &mut W, at: Spot, words: &str) -> io::Result<()> {
    let x = at.x.saturating_add(12);
    let y = at.y.saturating_add(4);
    writeln!(writer, "<text x=\"{x}\" y=\"{y}\">{words}</text>")
}

/// Draws the entry of the copies that go out at an outlet.
fn draw_outlet<W: Write>(writer: &mut W, x: usize, outlet: Outlet, words: &str) -> io::Result<()> {
    let from = Spot { x, y: FIRST };
    let to = Spot {
        x: x.saturating_add(44),
        y: FIRST,
    };
    let pen = Pen {
        frame: SHOWN,
        dashes: dashes_of(outlet),
    };
    draw_headed(writer, from, to, pen)?;
    draw_words(writer, to, words)
}

/// Draws how copies are drawn.
fn draw_copies<W: Write>(writer: &mut W) -> io::Result<()> {
    draw_outlet(writer, 20, Outlet::A, "copy put out at A")?;
    draw_outlet(writer, 210, Outlet::B, "at B")?;
    draw_outlet(writer, 330, Outlet::C, "at an interlink")?;
    let words = "1.2 is the second frame of node 1";
    draw_words(writer, Spot { x: 490, y: FIRST }, words)
}

/// Draws what stands at a column.
fn draw_marks<W: Write>(writer: &mut W) -> io::Result<()> {
    let sent = Spot { x: 30, y: SECOND };
    draw_ring(writer, sent, colour_of(SHOWN))?;
    draw_words(writer, sent, "node sends")?;
    let up = Spot { x: 150, y: SECOND };
    draw_dot(writer, up, colour_of(SHOWN))?;
    draw_words(writer, up, "handed up to the host")
}

/// Draws what is lost, and why.
fn draw_losses<W: Write>(writer: &mut W) -> io::Result<()> {
    let lost = Spot { x: 330, y: SECOND };
    draw_cross(writer, lost)?;
    draw_words(writer, lost, "copy lost")?;
    let x = 440;
    writeln!(
        writer,
        "<line x1=\"{x}\" y1=\"82\" x2=\"{x}\" y2=\"102\" stroke=\"{CUT}\" stroke-width=\"4\" stroke-dasharray=\"10 5\"/>"
    )?;
    draw_words(writer, Spot { x, y: SECOND }, "link is cut")
}

/// Draws the legend.
pub(crate) fn draw_legend<W: Write>(writer: &mut W) -> io::Result<()> {
    draw_copies(writer)?;
    draw_marks(writer)?;
    draw_losses(writer)
}
