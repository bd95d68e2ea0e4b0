//! When a capture begins and ends.

ghost use Rattle.std.specs.Prelude.{◌≡◌};
ghost use Rattle.sr_audit.specs.Edges.{is_beyond};
ghost use Rattle.sr_audit.specs.Spans.{span_with, spans_with};

use crate::side::Side;

/// The times of the first and the last packet of a capture, in nanoseconds.
#[derive(Clone, Copy, Debug, PartialEq, Eq)]
pub struct Span {
    /// That of the first packet.
    pub first: u64,
    /// That of the last one.
    pub last: u64,
}

/// The spans of both captures. None: a capture has no packet.
#[derive(Clone, Copy, Debug, PartialEq, Eq)]
pub struct Spans {
    /// That of the capture of side A.
    pub a: Option<Span>,
    /// That of the capture of side B.
    pub b: Option<Span>,
}

impl Span {
    /// The span of some packets and one more, whose time is not before theirs. None: of no packet.
    pub fn lengthened(span: Option<Span>, time: u64) -> Option<Span>
        ensures { result ≡ span_with time span }
    {
        let first = match span {
            Some(span) => span.first,
            None => time,
        };
        Some(Span { first, last: time })
    }
}

impl Spans {
    /// No packet came.
    pub const NONE: Spans = Spans { a: None, b: None };

    /// Takes the time of the next packet of a side.
    pub fn note(&mut self, side: Side, time: u64)
        ensures { self.new ≡ spans_with side time self.old }
    {
        match side {
            Side::A => self.a = Span::lengthened(self.a, time),
            Side::B => self.b = Span::lengthened(self.b, time),
        }
    }

    /// Whether a time is before the first packet of a side, or behind its last one.
    pub fn is_beyond(&self, side: Side, time: u64) -> bool
        ensures { result ≡ is_beyond self.now side time }
    {
        let span = match side {
            Side::A => self.a,
            Side::B => self.b,
        };
        match span {
            Some(span) => time < span.first || span.last < time,
            None => true,
        }
    }
}
