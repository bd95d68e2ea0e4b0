//! What sources share: the frames that one LAN lost of several, and the place at which a ring is cut.

ghost use Rattle.std.specs.Prelude.{◌≡◌};
ghost use Rattle.sr_verdict.specs.Shared.{no_share, share_with, share_by, one_at, cut_end, later, cut_from, cut_and, cut_with, cut_in};

use crate::heard::{Heard, When, rest_at, row_when};
use crate::names::Names;
use sr_audit::{Row, Side};

/// The frames of several sources that one LAN lost, besides those of sources that it does not bring any more.
#[derive(Clone, Copy, Debug, PartialEq, Eq)]
pub struct Share {
    /// How many frames it lost.
    pub frames: u64,
    /// How many frames of these sources the other LAN brought.
    pub brought: u64,
    /// How many sources these are.
    pub sources: u64,
    /// Which they are.
    pub names: Names,
}

impl Share {
    /// No frame.
    const NONE: Share = Share {
        frames: 0,
        brought: 0,
        sources: 0,
        names: Names::NONE,
    };
}

/// A cut of a ring. A count stays at 2^64 - 1.
#[derive(Clone, Copy, Debug, PartialEq, Eq)]
pub struct Cut {
    /// How many sources are heard by A alone meanwhile: they stand on its side of the cut.
    pub at_a: u64,
    /// How many are heard by B alone.
    pub at_b: u64,
    /// How many frames of all these came meanwhile.
    pub frames: u64,
    /// When the first of them came, in nanoseconds.
    pub since: u64,
    /// When the last of them came before the ring was mended. None: it is cut at last.
    pub until: Option<u64>,
}

/// What sources share, with one more.
fn share_with(mended: Option<u64>, side: Side, share: Share, heard: &Heard) -> Share
    ensures { result ≡ share_with mended side share heard.now }
{
    let rest = rest_at(mended, side, heard);
    if rest == 0 {
        return share;
    }
    let brought = heard.figures.tally.pairs.saturating_add(rest);
    Share {
        frames: share.frames.saturating_add(rest),
        brought: share.brought.saturating_add(brought),
        sources: share.sources.saturating_add(1),
        names: share.names.with(heard.mac),
    }
}

/// What the sources share that have frames by a side alone, besides those of a cut that was mended at a time.
pub(crate) fn share_by(mended: Option<u64>, side: Side, heard: &[Heard]) -> Share
    ensures { result ≡ share_by mended side heard.now }
{
    let mut share = Share::NONE;
    for own in heard {
        share = share_with(mended, side, share, own);
    }
    share
}

/// One, where two sides are the same.
fn one_at(side: Side, other: Side) -> u64
    ensures { result ≡ one_at side other }
{
    u64::from(side == other)
}

/// When a cut ended that a row tells of.
fn cut_end(when: When, row: Row) -> Option<u64>
    ensures { result ≡ cut_end when row }
{
    match when {
        When::AtLast => None,
        When::At(_) => Some(row.until),
    }
}

/// The later one of two ends, where there are any.
fn later(end: Option<u64>, other: Option<u64>) -> Option<u64>
    ensures { result ≡ later end other }
{
    match (end, other) {
        (Some(end), Some(other)) => Some(end.max(other)),
        (Some(end), None) => Some(end),
        (None, other) => other,
    }
}

/// The cut that the row of one source tells of.
fn cut_from(when: When, row: Row) -> Cut
    ensures { result ≡ cut_from when row }
{
    Cut {
        at_a: one_at(Side::A, row.side),
        at_b: one_at(Side::B, row.side),
        frames: row.frames,
        since: row.since,
        until: cut_end(when, row),
    }
}

/// The cut that the row of one source more tells of.
fn cut_and(when: When, cut: Option<Cut>, row: Row) -> Cut
    ensures { result ≡ cut_and when cut row }
{
    let own = cut_from(when, row);
    let Some(cut) = cut else {
        return own;
    };
    Cut {
        at_a: cut.at_a.saturating_add(own.at_a),
        at_b: cut.at_b.saturating_add(own.at_b),
        frames: cut.frames.saturating_add(own.frames),
        since: cut.since.min(own.since),
        until: later(cut.until, own.until),
    }
}

/// A cut, with what one source more tells.
fn cut_with(when: When, cut: Option<Cut>, heard: &Heard) -> Option<Cut>
    ensures { result ≡ cut_with when cut heard.now }
{
    match row_when(when, heard) {
        Some(row) => Some(cut_and(when, cut, row)),
        None => cut,
    }
}

/// The cut that the rows of sources tell of. None: each of them is heard by both sides then, or by neither.
pub(crate) fn cut_in(when: When, heard: &[Heard]) -> Option<Cut>
    ensures { result ≡ cut_in when heard.now }
{
    let mut cut = None;
    for own in heard {
        cut = cut_with(when, cut, own);
    }
    cut
}
