//! What is heard of the sources of an audit, and what of it was lost.

ghost use Rattle.std.specs.Prelude.{◌≡◌, [], ◌∷◌, ◌++◌, IfOk, OnOk};
ghost use Rattle.sr_verdict.specs.Heards.{AreHeard, only_at, lone_row, row_in, closed_in, lasting, row_when, row_mended, row_frames, rest_at};

use sr_audit::{Audit, Figures, Row, Side, Spans};
use sr_frame::{Mac, NoMemory};
use std::alloc::{AllocError, Global};

/// What is heard of a source.
#[derive(Clone, Copy, Debug, PartialEq, Eq)]
pub struct Heard {
    /// Its address.
    pub mac: Mac,
    /// Its figures.
    pub figures: Figures,
    /// The frames at the end of its arrivals that came by one side alone. None: it is heard by both, or by neither.
    pub sided: Option<Row>,
    /// The most frames in a row that came by one side alone before, until a frame came by both again or by the other one alone. None: it
    /// was not heard so.
    pub was_sided: Option<Row>,
}

/// When a ring is cut, as rows of sources tell.
#[derive(Clone, Copy, Debug, PartialEq, Eq)]
pub enum When {
    /// At last.
    AtLast,
    /// At this time, and it was mended.
    At(u64),
}

/// Takes what is heard of one source more.
fn note_heard(all: &mut Vec<Heard>, heard: Heard) -> Result<(), NoMemory>
    ensures { OnOk result (all.new.items ≡ all.old.items ++ heard ∷ []) }
{
    match all.push(heard) {
        Ok(()) => Ok(()),
        Err(refused) => Err(AllocError::from(refused).into()),
    }
}

/// What is heard of the sources of an audit, in their order.
pub(crate) fn heard_in(alloc: Global, audit: &Audit, spans: &Spans) -> Result<Vec<Heard>, NoMemory>
    ensures { IfOk result (λ heard. AreHeard spans.now audit.now.sources.entries heard.items) }
{
    let mut heard = Vec::new(alloc);
    for (mac, source) in audit.sources() {
        let own = Heard {
            mac,
            figures: source.figures(),
            sided: source.sided(spans),
            was_sided: source.was_sided(spans),
        };
        note_heard(&mut heard, own)?;
    }
    Ok(heard)
}

/// How many frames came by a side alone, while the capture of the other side ran.
fn only_at(side: Side, figures: &Figures) -> u64
    ensures { result ≡ only_at side figures.now }
{
    let only = figures.only();
    match side {
        Side::A => only.a,
        Side::B => only.b,
    }
}

/// A row, where the other side lost some frames of the source.
fn lone_row(figures: &Figures, row: Option<Row>) -> Option<Row>
    ensures { result ≡ lone_row figures.now row }
{
    match row {
        Some(row) if only_at(row.side, figures) > 0 => Some(row),
        _ => None,
    }
}

/// The frames at the end of the arrivals of a source that came by one side alone, where the other one lost some of them.
pub(crate) fn row_in(heard: &Heard) -> Option<Row>
    ensures { result ≡ row_in heard.now }
{
    lone_row(&heard.figures, heard.sided)
}

/// The most frames in a row that came by one side alone before, where the other one lost some of them.
pub(crate) fn closed_in(heard: &Heard) -> Option<Row>
    ensures { result ≡ closed_in heard.now }
{
    lone_row(&heard.figures, heard.was_sided)
}

/// A row, if it lasted at a time.
fn lasting(time: u64, row: Option<Row>) -> Option<Row>
    ensures { result ≡ lasting time row }
{
    match row {
        Some(row) if row.since <= time && time <= row.until => Some(row),
        _ => None,
    }
}

/// The row by which a source tells of a cut.
pub(crate) fn row_when(when: When, heard: &Heard) -> Option<Row>
    ensures { result ≡ row_when when heard.now }
{
    match when {
        When::AtLast => row_in(heard),
        When::At(time) => lasting(time, closed_in(heard)),
    }
}

/// The row by which a source tells of a cut that was mended, if there was one.
fn row_mended(mended: Option<u64>, heard: &Heard) -> Option<Row>
    ensures { result ≡ row_mended mended heard.now }
{
    match mended {
        Some(time) => row_when(When::At(time), heard),
        None => None,
    }
}

/// How many frames a row has by a side.
fn row_frames(side: Side, row: Option<Row>) -> u64
    ensures { result ≡ row_frames side row }
{
    match row {
        Some(row) if row.side == side => row.frames,
        _ => 0,
    }
}

/// How many frames of a source came by a side alone, besides those of its row at last, and of a cut that was mended at a time.
pub(crate) fn rest_at(mended: Option<u64>, side: Side, heard: &Heard) -> u64
    ensures { result ≡ rest_at mended side heard.now }
{
    only_at(side, &heard.figures)
        .saturating_sub(row_frames(side, row_in(heard)))
        .saturating_sub(row_frames(side, row_mended(mended, heard)))
}
