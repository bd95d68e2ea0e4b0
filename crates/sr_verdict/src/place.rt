//! Where a ring is cut.

ghost use Rattle.std.specs.Prelude.{◌≡◌};
ghost use Rattle.sr_verdict.specs.Places.{neighbour_of, is_nearer, nearer_of, with_neighbour, is_row_by, next_with, next_to_cut, cut_place};

use crate::heard::{Heard, When, row_when};
use sr_audit::{Row, Side};
use sr_frame::Mac;

/// A source next to the cut of a ring.
#[derive(Clone, Copy, Debug, PartialEq, Eq)]
pub struct Neighbour {
    /// Its address.
    pub mac: Mac,
    /// How much later its copies came by B than by A, in nanoseconds, in the mean.
    pub skew: i128,
}

/// Where a ring is cut: between these two sources, and between one of them and the recorder where there is no other one.
#[derive(Clone, Copy, Debug, PartialEq, Eq)]
pub struct Place {
    /// The source next to the cut among those that are heard by A alone. None: none of them has a place.
    pub at_a: Option<Neighbour>,
    /// The source next to it among those that are heard by B alone.
    pub at_b: Option<Neighbour>,
}

/// A source at its place in the ring. None: no frame of it came by both sides.
fn neighbour_of(heard: &Heard) -> Option<Neighbour>
    ensures { result ≡ neighbour_of heard.now }
{
    match heard.figures.skews.mean() {
        Some(skew) => Some(Neighbour {
            mac: heard.mac,
            skew,
        }),
        None => None,
    }
}

/// Whether the first of two sources that a side alone brings is nearer to the cut.
fn is_nearer(side: Side, first: Neighbour, second: Neighbour) -> bool
    ensures { result ≡ is_nearer side first second }
{
    match side {
        Side::A => first.skew < second.skew,
        Side::B => second.skew < first.skew,
    }
}

/// The nearest source so far, with one more.
fn nearer_of(side: Side, nearest: Option<Neighbour>, own: Neighbour) -> Neighbour
    ensures { result ≡ nearer_of side nearest own }
{
    match nearest {
        Some(nearest) if !is_nearer(side, own, nearest) => nearest,
        _ => own,
    }
}

/// The nearest source so far, with one more that may have a place.
fn with_neighbour(
    side: Side,
    nearest: Option<Neighbour>,
    own: Option<Neighbour>,
) -> Option<Neighbour>
    ensures { result ≡ with_neighbour side nearest own }
{
    match own {
        Some(own) => Some(nearer_of(side, nearest, own)),
        None => nearest,
    }
}

/// Whether a source is brought by a side alone.
fn is_row_by(side: Side, row: Option<Row>) -> bool
    ensures { result ≡ is_row_by side row }
{
    match row {
        Some(row) => row.side == side,
        None => false,
    }
}

/// The nearest source so far, with one more if it is brought by this side alone.
fn next_with(when: When, side: Side, nearest: Option<Neighbour>, heard: &Heard) -> Option<Neighbour>
    ensures { result ≡ next_with when side nearest heard.now }
{
    if is_row_by(side, row_when(when, heard)) {
        with_neighbour(side, nearest, neighbour_of(heard))
    } else {
        nearest
    }
}

/// The source next to the cut among those that a side alone brings.
fn next_to_cut(when: When, side: Side, heard: &[Heard]) -> Option<Neighbour>
    ensures { result ≡ next_to_cut when side heard.now }
{
    let mut nearest = None;
    for own in heard {
        nearest = next_with(when, side, nearest, own);
    }
    nearest
}

/// Where a ring is cut, by what is heard of its sources.
pub(crate) fn cut_place(when: When, heard: &[Heard]) -> Place
    ensures { result ≡ cut_place when heard.now }
{
    Place {
        at_a: next_to_cut(when, Side::A, heard),
        at_b: next_to_cut(when, Side::B, heard),
    }
}
