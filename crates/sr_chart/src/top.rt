//! What a chart tells in words and numbers.

use crate::kinds::Shape;
use std::fmt;
use std::io::{self, Write};

/// What a chart tells in numbers.
#[derive(Clone, Copy)]
pub(crate) struct Tally {
    pub(crate) events: usize,
    pub(crate) copies: usize,
    pub(crate) arrived: usize,
    pub(crate) lost: usize,
    pub(crate) flying: usize,
    pub(crate) up: usize,
}

impl fmt::Display for Tally {
    fn fmt<W: fmt::Write>(&self, f: &mut fmt::Formatter<W>) -> fmt::Result {
        write!(
            f,
            "events {}, copies {}, arrived {}, lost {}, in flight {}, handed up {}",
            self.events, self.copies, self.arrived, self.lost, self.flying, self.up
        )
    }
}

/// What a chart is of, in words.
#[derive(Clone, Copy)]
struct Subject(Shape);

impl fmt::Display for Subject {
    fn fmt<W: fmt::Write>(&self, f: &mut fmt::Formatter<W>) -> fmt::Result {
        let Shape { name, left, right } = self.0;
        match right {
            Some(right) => write!(f, "{name} of {} and {} nodes", left.count, right.count),
            None => write!(f, "{name} of {} nodes", left.count),
        }
    }
}

/// Opens the picture, of this width and height.
fn open<W: Write>(writer: &mut W, size: (usize, usize)) -> io::Result<()> {
    let (width, height) = size;
    writeln!(
        writer,
        "<svg xmlns=\"http://www.w3.org/2000/svg\" version=\"1.1\" width=\"{width}\" height=\"{height}\" viewBox=\"0 0 {width} {height}\" font-family=\"sans-serif\" font-size=\"12\">"
    )
}

/// Opens the picture, and draws what it is of, also for readers who do not see it.
pub(crate) fn draw_top<W: Write>(
    writer: &mut W,
    shape: Shape,
    tally: Tally,
    size: (usize, usize),
) -> io::Result<()> {
    let subject = Subject(shape);
    open(writer, size)?;
    writeln!(writer, "<title>Run of {subject}</title>")?;
    writeln!(writer, "<desc>{tally}</desc>")?;
    writeln!(
        writer,
        "<rect width=\"100%\" height=\"100%\" fill=\"#ffffff\"/>"
    )?;
    writeln!(
        writer,
        "<text x=\"12\" y=\"24\" font-size=\"16\">Run of {subject}</text>"
    )?;
    writeln!(writer, "<text x=\"12\" y=\"44\">{tally}</text>")
}
