//! The words of a chart. They are of digits, letters, spaces and signs that stand for themselves in a picture.

use crate::kinds::{Arrow, Deed, Fate, Frame, Outlet, Row};
use std::fmt;

impl fmt::Display for Frame {
    fn fmt<W: fmt::Write>(&self, f: &mut fmt::Formatter<W>) -> fmt::Result {
        write!(f, "{}.{}", self.source, self.number)
    }
}

impl fmt::Display for Outlet {
    fn fmt<W: fmt::Write>(&self, f: &mut fmt::Formatter<W>) -> fmt::Result {
        f.write_str(match self {
            Outlet::A => "A",
            Outlet::B => "B",
            Outlet::C => "C",
        })
    }
}

impl fmt::Display for Deed {
    fn fmt<W: fmt::Write>(&self, f: &mut fmt::Formatter<W>) -> fmt::Result {
        match self {
            Deed::SendAll(node) => write!(f, "send {node} all"),
            Deed::Send(node, to) => write!(f, "send {node} {to}"),
            Deed::Carry(place) => write!(f, "carry {place}"),
            Deed::Drop(place) => write!(f, "drop {place}"),
            Deed::Repeat(place) => write!(f, "repeat {place}"),
            Deed::Cut(link) => write!(f, "cut {link}"),
            Deed::Mend(link) => write!(f, "mend {link}"),
            Deed::Tick(node, time) => write!(f, "tick {node} {time}"),
        }
    }
}

impl fmt::Display for Row {
    fn fmt<W: fmt::Write>(&self, f: &mut fmt::Formatter<W>) -> fmt::Result {
        match self.refusal {
            Some(name) => write!(f, "{}: {} refused, {}", self.line, self.deed, name),
            None => write!(f, "{}: {}", self.line, self.deed),
        }
    }
}

/// The words for what became of a copy.
pub(crate) fn words_of(fate: Fate) -> &'static str {
    match fate {
        Fate::Arrived => "arrives",
        Fate::Dropped => "is dropped",
        Fate::CutOff => "is lost as its link is cut",
        Fate::StoppedFirst | Fate::StoppedLast => "is put on a cut link and lost",
        Fate::Flying => "is in flight at the end",
    }
}

/// A copy in words, of this frame.
#[derive(Clone, Copy)]
pub(crate) struct Told {
    /// The copy.
    pub(crate) arrow: Arrow,
    /// Its frame.
    pub(crate) frame: Frame,
}

impl fmt::Display for Told {
    fn fmt<W: fmt::Write>(&self, f: &mut fmt::Formatter<W>) -> fmt::Result {
        let Told { arrow, frame } = self;
        let end = words_of(arrow.fate);
        write!(
            f,
            "frame {} from node {} at {} to node {} {}",
            frame, arrow.from, arrow.outlet, arrow.to, end
        )
    }
}
