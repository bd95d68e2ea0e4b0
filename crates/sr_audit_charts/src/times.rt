//! The times of a picture, divided into columns.

ghost use Rattle.std.specs.Prelude.{◌≡◌, ◌<◌};
ghost use Rattle.sr_audit_charts.specs.Columns.{column_of, picture_start, picture_end, many_columns};

use sr_audit::{Span, Spans};

/// How many columns there are (choice of this project).
pub const COLUMNS: usize = 500;

/// The times that are divided, in nanoseconds.
#[derive(Clone, Copy, Debug, PartialEq, Eq)]
pub struct Times {
    /// That of the first packet.
    pub first: u64,
    /// That of the last one.
    pub last: u64,
}

impl Times {
    /// The column of a time. What lies outside is in the first or the last one.
    pub fn column_of(self, time: u64) -> usize
        ensures column { result ≡ column_of self.first self.last time }
        ensures few { result < many_columns }
    {
        let whole = u128::from(self.last.saturating_sub(self.first)) + 1;
        let part = u128::from(time.saturating_sub(self.first));
        let column = part * COLUMNS as u128 / whole;
        column.min(COLUMNS as u128 - 1) as usize
    }
}

/// The times of two captures together.
pub fn times_of(spans: Spans) -> Times
    ensures first { result.first ≡ picture_start spans }
    ensures last { result.last ≡ picture_end spans }
{
    let none = Span { first: 0, last: 0 };
    let (a, b) = match (spans.a, spans.b) {
        (Some(a), Some(b)) => (a, b),
        (Some(a), None) => (a, a),
        (None, Some(b)) => (b, b),
        (None, None) => (none, none),
    };
    Times {
        first: a.first.min(b.first),
        last: a.last.max(b.last),
    }
}
