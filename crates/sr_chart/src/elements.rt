//! The elements of a picture.

ghost use Rattle.std.specs.Prelude.{◌<◌};

use crate::kinds::Frame;
use std::fmt;
use std::io::{self, Write};

/// The colours of frames, by the palette of Okabe and Ito, which those see apart who see few colours.
const COLOURS: [&str; 5] = ["#0072b2", "#e69f00", "#009e73", "#cc79a7", "#56b4e9"];

/// The colour of cut links, of the same palette.
pub(crate) const CUT: &str = "#d55e00";

/// The colour of what is lost.
const LOST: &str = "#000000";

/// A place in the picture.
#[derive(Clone, Copy)]
pub(crate) struct Spot {
    pub(crate) x: usize,
    pub(crate) y: usize,
}

/// The colour of the frame at a place among those of the chart, as its place in the palette.
fn ink_of(frame: usize) -> usize
    ensures { result < 5 }
{
    frame % 5
}

/// The colour of the frame at a place among those of the chart.
pub(crate) fn colour_of(frame: usize) -> &'static str {
    COLOURS[ink_of(frame)]
}

/// How a line is drawn.
#[derive(Clone, Copy)]
pub(crate) struct Pen {
    /// The place of its frame, which has its colour.
    pub(crate) frame: usize,
    /// Its dashes, as an attribute.
    pub(crate) dashes: &'static str,
}

/// Defines the heads of arrows, one of each colour.
pub(crate) fn define_heads<W: Write>(writer: &mut W) -> io::Result<()> {
    writeln!(writer, "<defs>")?;
    for ink in 0..5usize {
        let colour = COLOURS[ink];
        writeln!(
            writer,
            "<marker id=\"head{ink}\" markerUnits=\"userSpaceOnUse\" markerWidth=\"13\" markerHeight=\"8\" refX=\"13\" refY=\"4\" orient=\"auto\"><path d=\"M0 0L13 4L0 8z\" fill=\"{colour}\"/></marker>"
        )?;
    }
    writeln!(writer, "</defs>")
}

/// Draws a line without a head.
pub(crate) fn draw_line<W: Write>(
    writer: &mut W,
    from: Spot,
    to: Spot,
    pen: Pen,
) -> io::Result<()> {
    let Spot { x: x1, y: y1 } = from;
    let Spot { x: x2, y: y2 } = to;
    let colour = colour_of(pen.frame);
    let dashes = pen.dashes;
    writeln!(
        writer,
        "<line x1=\"{x1}\" y1=\"{y1}\" x2=\"{x2}\" y2=\"{y2}\" stroke=\"{colour}\" stroke-width=\"1.5\"{dashes}/>"
    )
}

/// Draws a line with a head where it ends.
pub(crate) fn draw_headed<W: Write>(
    writer: &mut W,
    from: Spot,
    to: Spot,
    pen: Pen,
) -> io::Result<()> {
    let Spot { x: x1, y: y1 } = from;
    let Spot { x: x2, y: y2 } = to;
    let ink = ink_of(pen.frame);
    let colour = colour_of(pen.frame);
    let dashes = pen.dashes;
    writeln!(
        writer,
        "<line x1=\"{x1}\" y1=\"{y1}\" x2=\"{x2}\" y2=\"{y2}\" stroke=\"{colour}\" stroke-width=\"1.5\"{dashes} marker-end=\"url(#head{ink})\"/>"
    )
}

/// Draws the cross of a copy that is lost.
pub(crate) fn draw_cross<W: Write>(writer: &mut W, at: Spot) -> io::Result<()> {
    let left = at.x.saturating_sub(5);
    let right = at.x.saturating_add(5);
    let above = at.y.saturating_sub(5);
    let below = at.y.saturating_add(5);
    writeln!(
        writer,
        "<path d=\"M{left} {above}L{right} {below}M{left} {below}L{right} {above}\" stroke=\"{LOST}\" stroke-width=\"2.5\"/>"
    )
}

/// Draws the ring of a host that sends.
pub(crate) fn draw_ring<W: Write>(
    writer: &mut W,
    at: Spot,
    colour: &'static str,
) -> io::Result<()> {
    let Spot { x, y } = at;
    writeln!(
        writer,
        "<circle cx=\"{x}\" cy=\"{y}\" r=\"5\" fill=\"#ffffff\" stroke=\"{colour}\" stroke-width=\"2.5\"/>"
    )
}

/// Draws the dot of a frame that is handed up.
pub(crate) fn draw_dot<W: Write>(writer: &mut W, at: Spot, colour: &'static str) -> io::Result<()> {
    let Spot { x, y } = at;
    writeln!(
        writer,
        "<circle cx=\"{x}\" cy=\"{y}\" r=\"5\" fill=\"{colour}\" stroke=\"#000000\"/>"
    )
}

/// A small name.
#[derive(Clone, Copy)]
pub(crate) enum Name {
    /// That of a frame, at a copy of it.
    Frame(Frame),
    /// That of a link, where it is cut.
    CutLink(usize),
}

impl fmt::Display for Name {
    fn fmt<W: fmt::Write>(&self, f: &mut fmt::Formatter<W>) -> fmt::Result {
        match self {
            Name::Frame(frame) => write!(f, "{frame}"),
            Name::CutLink(link) => write!(f, "link {link} cut"),
        }
    }
}

/// Where a name stands.
#[derive(Clone, Copy)]
pub(crate) struct NamePlace {
    /// The place that it starts at, ends at, or has in its middle.
    pub(crate) at: Spot,
    /// Which of these, as the picture says it: `start`, `end` or `middle`.
    pub(crate) anchor: &'static str,
}

/// Draws a small name with a white edge, which keeps it apart from the lines behind it.
pub(crate) fn draw_name<W: Write>(writer: &mut W, place: NamePlace, name: Name) -> io::Result<()> {
    let Spot { x, y } = place.at;
    let anchor = place.anchor;
    write!(
        writer,
        "<g font-size=\"10\" text-anchor=\"{anchor}\"><text x=\"{x}\" y=\"{y}\" stroke=\"#ffffff\" stroke-width=\"3\">{name}</text>"
    )?;
    writeln!(writer, "<text x=\"{x}\" y=\"{y}\">{name}</text></g>")
}
