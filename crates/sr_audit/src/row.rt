//! Frames in a row that came by one side alone.

ghost use Rattle.std.specs.Prelude.{◌≡◌};
ghost use Rattle.sr_dup_window.specs.Windows.{window_of};
ghost use Rattle.sr_audit.specs.Rows.{longer, row_with, row_at, row_ended, larger_row, rows_with, rows_begun, rows_kept, shown_row, kept_number};

use crate::moments::Moments;
use crate::numbers::{KEPT_NUMBERS, Numbers};
use crate::side::Side;
use crate::span::Spans;
use crate::tally::Came;
use sr_sequence::Seq;

/// How many frames have to come by one side alone at the end of a source's arrivals, for the source to be heard there alone (choice of
/// this project).
const LEAST_SIDED: u64 = 3;

/// Frames in a row, by their numbers, that came by one side alone while the capture of the other side ran.
#[derive(Clone, Copy, Debug, PartialEq, Eq)]
pub struct Row {
    /// The side by which they came.
    pub side: Side,
    /// How many they are. The count stays at 2^64 - 1.
    pub frames: u64,
    /// When the first copy of the first one came.
    pub since: u64,
    /// When the first copy of the last one came.
    pub until: u64,
}

/// The rows of a source.
#[derive(Clone, Copy, Debug, PartialEq, Eq)]
pub(crate) struct Rows {
    /// The one at the end of the numbers so far.
    pub at_end: Option<Row>,
    /// The longest one that ended, and of equal ones the first.
    pub closed: Option<Row>,
}

/// A row with a frame more that came by a side alone, first at this time.
fn longer(row: Option<Row>, side: Side, time: u64) -> Row
    ensures { result ≡ longer side time row }
{
    match row {
        Some(row) if row.side == side => Row {
            frames: row.frames.saturating_add(1),
            until: time,
            ..row
        },
        _ => Row {
            side,
            frames: 1,
            since: time,
            until: time,
        },
    }
}

/// A row with a number more, of which copies came by some sides, the first at this time.
fn row_with(row: Option<Row>, came: Came, time: u64, spans: &Spans) -> Option<Row>
    ensures { result ≡ row_with spans.now came.a came.b time row }
{
    match (came.a, came.b) {
        (true, true) => None,
        (true, false) if !spans.is_beyond(Side::B, time) => Some(longer(row, Side::A, time)),
        (false, true) if !spans.is_beyond(Side::A, time) => Some(longer(row, Side::B, time)),
        _ => row,
    }
}

/// A row, if it is by this side.
fn row_at(row: Option<Row>, side: Side) -> Option<Row>
    ensures { result ≡ row_at side row }
{
    match row {
        Some(row) if row.side == side => Some(row),
        _ => None,
    }
}

/// The row that a number ends, of which copies came by some sides, the first at this time.
fn row_ended(row: Option<Row>, came: Came, time: u64, spans: &Spans) -> Option<Row>
    ensures { result ≡ row_ended spans.now came.a came.b time row }
{
    match (came.a, came.b) {
        (true, true) => row,
        (true, false) if !spans.is_beyond(Side::B, time) => row_at(row, Side::B),
        (false, true) if !spans.is_beyond(Side::A, time) => row_at(row, Side::A),
        _ => None,
    }
}

/// Of two rows the one of more frames, and of equal ones the first.
fn larger_row(best: Option<Row>, row: Option<Row>) -> Option<Row>
    ensures { result ≡ larger_row best row }
{
    match (best, row) {
        (Some(best), Some(row)) if best.frames < row.frames => Some(row),
        (Some(best), _) => Some(best),
        (None, row) => row,
    }
}

impl Rows {
    /// No row.
    pub const NONE: Rows = Rows {
        at_end: None,
        closed: None,
    };

    /// The rows where a stretch begins.
    pub fn begun(self) -> Rows
        ensures { result ≡ rows_begun self }
    {
        Rows {
            at_end: None,
            ..self
        }
    }

    /// The rows with a number more, of which copies came by some sides, the first at this time.
    fn with(self, came: Came, time: u64, spans: &Spans) -> Rows
        ensures { result ≡ rows_with spans.now came.a came.b time self }
    {
        let ended = row_ended(self.at_end, came, time, spans);
        Rows {
            at_end: row_with(self.at_end, came, time, spans),
            closed: larger_row(self.closed, ended),
        }
    }
}

/// The number that lies so many steps above the least of the last 1024.
pub(crate) fn kept_number(greatest: Seq, steps: u16) -> Seq
    ensures { result.0 ≡ kept_number greatest.0 steps }
{
    Seq(
        greatest
            .0
            .wrapping_sub(KEPT_NUMBERS - 1)
            .wrapping_add(steps),
    )
}

/// Rows with so many numbers more of a stretch, from the least of the last 1024 on.
pub(crate) fn rows_over(
    numbers: &Numbers,
    moments: &Moments,
    spans: &Spans,
    first: Rows,
    count: u16,
) -> Rows
    ensures { result ≡ rows_kept spans.now (window_of numbers.now.seen) moments.now.times.items
        count first }
{
    let greatest = numbers.greatest();
    let mut rows = first;
    for steps in 0..count {
        let seq = kept_number(greatest, steps);
        rows = rows.with(numbers.came(seq), moments.at(seq), spans);
    }
    rows
}

/// A row, where it has enough frames to be shown.
pub(crate) fn shown_row(row: Option<Row>) -> Option<Row>
    ensures { result ≡ shown_row row }
{
    match row {
        Some(row) if LEAST_SIDED <= row.frames => Some(row),
        _ => None,
    }
}
