//! The copies of a chart, as arrows.

use crate::columns::{Columns, between, y_of};
use crate::elements::{Name, NamePlace, Pen, Spot, draw_cross, draw_headed, draw_line, draw_name};
use crate::kinds::{Arrow, Fate, Frame, Outlet, Path, Side};
use crate::labels::Told;
use std::io::{self, Write};

/// How far an arrow that is lost at once goes, and how far from its receiver it ends where the receiver's link is cut, in tenths
/// of a column.
const STUB: usize = 4;

const NEAR: usize = 2;

/// How far an arrow goes that is lost on its way or is in flight, in tenths.
const PART: usize = 4;

/// The dashes of a copy, by where it went out.
pub(crate) fn dashes_of(outlet: Outlet) -> &'static str {
    match outlet {
        Outlet::A => "",
        Outlet::B => " stroke-dasharray=\"7 3\"",
        Outlet::C => " stroke-dasharray=\"2 3\"",
    }
}

/// A line of an arrow.
#[derive(Clone, Copy)]
struct Line {
    from: Spot,
    to: Spot,
}

/// What stands at the end of an arrow.
#[derive(Clone, Copy)]
enum Tip {
    /// A head: it arrives.
    Head,
    /// A cross: it is lost.
    Cross,
    /// Nothing: it is in flight.
    Open,
}

/// An arrow over the picture: its line, and on a way round a ring the line on which it comes in again.
#[derive(Clone, Copy)]
struct Course {
    line: Line,
    again: Option<Line>,
    tip: Tip,
}

/// What stands at the end of a copy of which this became.
fn tip_of(fate: Fate) -> Tip {
    match fate {
        Fate::Arrived => Tip::Head,
        Fate::Flying => Tip::Open,
        Fate::Dropped | Fate::CutOff | Fate::StoppedFirst | Fate::StoppedLast => Tip::Cross,
    }
}

/// A place some tenths of a column beside another, towards a side.
fn beside(at: Spot, side: Side, step: usize, tenths: usize) -> Spot {
    let off = step.saturating_mul(tenths) / 10;
    let x = match side {
        Side::Left => at.x.saturating_sub(off),
        Side::Right => at.x.saturating_add(off),
    };
    Spot { x, y: at.y }
}

/// The other side.
fn other(side: Side) -> Side {
    match side {
        Side::Left => Side::Right,
        Side::Right => Side::Left,
    }
}

/// On which side of a place another stands.
fn side_of(from: Spot, to: Spot) -> Side {
    if to.x < from.x {
        Side::Left
    } else {
        Side::Right
    }
}

/// How far below its row a copy begins, so that those of two outlets stand apart.
fn below(outlet: Outlet) -> usize {
    match outlet {
        Outlet::A => 0,
        Outlet::B => 3,
        Outlet::C => 1,
    }
}

/// Where a copy ends that goes on this line from column to column.
fn straight_end(line: Line, fate: Fate, step: usize) -> Spot {
    let Line { from, to } = line;
    let side = side_of(from, to);
    match fate {
        Fate::Arrived => to,
        Fate::Dropped | Fate::CutOff | Fate::Flying => Spot {
            x: between(from.x, to.x, PART),
            y: to.y,
        },
        Fate::StoppedFirst => beside(from, side, step, STUB),
        Fate::StoppedLast => beside(to, other(side), step, NEAR),
    }
}

/// A copy that goes out on a side of its ring, between these two sides, and comes in on the other.
fn around(line: Line, fate: Fate, side: Side, sides: (usize, usize), step: usize) -> Course {
    let Line { from, to } = line;
    let (left, right) = sides;
    let (out, back) = match side {
        Side::Left => (left, right),
        Side::Right => (right, left),
    };
    let y = between(from.y, to.y, 5);
    let back = Spot { x: back, y };
    let (end, again) = match fate {
        Fate::Arrived => (Spot { x: out, y }, Some(Line { from: back, to })),
        Fate::Dropped | Fate::CutOff | Fate::Flying => (Spot { x: out, y: to.y }, None),
        Fate::StoppedFirst | Fate::StoppedLast => (beside(from, side, step, STUB), None),
    };
    Course {
        line: Line { from, to: end },
        again,
        tip: tip_of(fate),
    }
}

/// The way of a copy over the picture.
fn course_of(columns: &Columns, arrow: &Arrow) -> Course {
    let from = Spot {
        x: columns.x_of(arrow.from),
        y: y_of(arrow.start).saturating_add(below(arrow.outlet)),
    };
    let to = Spot {
        x: columns.x_of(arrow.to),
        y: y_of(arrow.end),
    };
    let line = Line { from, to };
    let step = columns.step();
    match arrow.path {
        Path::Straight => {
            let to = straight_end(line, arrow.fate, step);
            Course {
                line: Line { from, to },
                again: None,
                tip: tip_of(arrow.fate),
            }
        }
        Path::Around(side) => {
            let sides = columns.sides_of(arrow.from);
            around(line, arrow.fate, side, sides, step)
        }
    }
}

/// Draws a line that ends so.
fn draw_end<W: Write>(writer: &mut W, line: Line, tip: Tip, pen: Pen) -> io::Result<()> {
    let Line { from, to } = line;
    match tip {
        Tip::Head => draw_headed(writer, from, to, pen),
        Tip::Open => draw_line(writer, from, to, pen),
        Tip::Cross => {
            draw_line(writer, from, to, pen)?;
            draw_cross(writer, to)
        }
    }
}

/// Draws a copy, of this frame.
pub(crate) fn draw_arrow<W: Write>(
    writer: &mut W,
    columns: &Columns,
    arrow: &Arrow,
    frame: Frame,
) -> io::Result<()> {
    let pen = Pen {
        frame: arrow.frame,
        dashes: dashes_of(arrow.outlet),
    };
    let told = Told {
        arrow: *arrow,
        frame,
    };
    let Course { line, again, tip } = course_of(columns, arrow);
    writeln!(writer, "<g><title>{told}</title>")?;
    match again {
        Some(again) => {
            draw_line(writer, line.from, line.to, pen)?;
            draw_end(writer, again, tip, pen)?;
        }
        None => draw_end(writer, line, tip, pen)?,
    }
    writeln!(writer, "</g>")
}

/// Where the name of a copy stands of which this became: below its end, before the column at which it arrives; or below the middle of
/// its line where it is in flight, since others may be in flight to the same place.
fn name_place(course: Course, fate: Fate) -> NamePlace {
    let Line { from, to } = course.again.unwrap_or(course.line);
    match (fate, side_of(from, to)) {
        (Fate::Arrived, Side::Right) => NamePlace {
            at: Spot {
                x: to.x.saturating_sub(12),
                y: to.y.saturating_add(11),
            },
            anchor: "end",
        },
        (Fate::Arrived, Side::Left) => NamePlace {
            at: Spot {
                x: to.x.saturating_add(12),
                y: to.y.saturating_add(11),
            },
            anchor: "start",
        },
        (Fate::Flying, _) => NamePlace {
            at: Spot {
                x: between(from.x, to.x, 5),
                y: between(from.y, to.y, 5).saturating_add(11),
            },
            anchor: "middle",
        },
        (Fate::Dropped | Fate::CutOff | Fate::StoppedFirst | Fate::StoppedLast, _) => NamePlace {
            at: Spot {
                x: to.x,
                y: to.y.saturating_add(16),
            },
            anchor: "middle",
        },
    }
}

/// Draws the name of a copy, of this frame.
pub(crate) fn draw_arrow_name<W: Write>(
    writer: &mut W,
    columns: &Columns,
    arrow: &Arrow,
    frame: Frame,
) -> io::Result<()> {
    let place = name_place(course_of(columns, arrow), arrow.fate);
    draw_name(writer, place, Name::Frame(frame))
}
