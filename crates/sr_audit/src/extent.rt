//! How far the numbers of stretches reach.

ghost use Rattle.std.specs.Prelude.{◌≡◌};
ghost use Rattle.sr_audit.specs.Shown.{bounded_sum};
ghost use Rattle.sr_audit.specs.Reaching.{sunk, lifted, is_under, tops_begun, tops_sunk, tops_lifted, top_at};
ghost use Rattle.sr_audit.specs.Reaching.{extent_begun, extent_ahead, extent_behind, extent_with};

use crate::look::{Look, Step};
use crate::side::Side;
use crate::tally::Sides;
use sr_sequence::Distance;

/// How far below the greatest number of a stretch the greatest one lies of which a copy came by each side. None: no copy came by it.
#[derive(Clone, Copy, Debug, PartialEq, Eq)]
pub(crate) struct Tops {
    a: Option<u64>,
    b: Option<u64>,
}

/// The greatest number of a side, once the greatest of all is some steps higher.
fn sunk(top: Option<u64>, steps: u64) -> Option<u64>
    ensures { result ≡ sunk steps top }
{
    match top {
        Some(below) => Some(below.saturating_add(steps)),
        None => None,
    }
}

/// The greatest number of a side, once a copy came there, so many steps below the greatest of all.
fn lifted(top: Option<u64>, steps: u64) -> Option<u64>
    ensures { result ≡ lifted steps top }
{
    match top {
        Some(below) => Some(below.min(steps)),
        None => Some(steps),
    }
}

/// Whether a greater number came by a side than one so many steps below the greatest of all.
fn is_under(top: Option<u64>, steps: u64) -> bool
    ensures { result ≡ is_under steps top }
{
    match top {
        Some(below) => below < steps,
        None => false,
    }
}

impl Tops {
    /// No copy came.
    const NONE: Tops = Tops { a: None, b: None };

    /// Those of a stretch of one copy.
    fn begun(side: Side) -> Tops
        ensures { result ≡ tops_begun side }
    {
        match side {
            Side::A => Tops {
                a: Some(0),
                b: None,
            },
            Side::B => Tops {
                a: None,
                b: Some(0),
            },
        }
    }

    /// Once the greatest number is some steps higher.
    fn sunk(self, steps: u64) -> Tops
        ensures { result ≡ tops_sunk steps self }
    {
        Tops {
            a: sunk(self.a, steps),
            b: sunk(self.b, steps),
        }
    }

    /// Once a copy came by a side, so many steps below the greatest number.
    fn lifted(self, side: Side, steps: u64) -> Tops
        ensures { result ≡ tops_lifted side steps self }
    {
        match side {
            Side::A => Tops {
                a: lifted(self.a, steps),
                b: self.b,
            },
            Side::B => Tops {
                a: self.a,
                b: lifted(self.b, steps),
            },
        }
    }

    /// That of a side.
    fn at(self, side: Side) -> Option<u64>
        ensures { result ≡ top_at side self }
    {
        match side {
            Side::A => self.a,
            Side::B => self.b,
        }
    }
}

/// How far the numbers of the current stretch reach, and the figures of all stretches.
#[derive(Clone, Copy, Debug, PartialEq, Eq)]
pub(crate) struct Extent {
    /// How far the least number of the current stretch lies below its greatest.
    depth: u64,
    tops: Tops,
    /// The lengths of all stretches together.
    pub lengths: u64,
    /// First copies behind a greater number of their side.
    pub order: Sides,
    /// Stretches that begin with a number more than 1023 ahead, of a source that was not silent.
    pub jumps: u64,
    /// Stretches that begin behind a silence.
    pub restarts: u64,
}

impl Extent {
    /// No arrival came.
    pub const NONE: Extent = Extent {
        depth: 0,
        tops: Tops::NONE,
        lengths: 0,
        order: Sides::NONE,
        jumps: 0,
        restarts: 0,
    };

    /// Takes an arrival that begins a stretch.
    fn begin(&mut self, side: Side)
        ensures { self.new ≡ extent_begun side self.old }
    {
        self.depth = 0;
        self.tops = Tops::begun(side);
        self.lengths = self.lengths.saturating_add(1);
    }

    /// Takes an arrival whose number lies so many steps ahead.
    fn go_ahead(&mut self, side: Side, steps: u64)
        ensures { self.new ≡ extent_ahead side steps self.old }
    {
        self.depth = self.depth.saturating_add(steps);
        self.tops = self.tops.sunk(steps).lifted(side, 0);
        self.lengths = self.lengths.saturating_add(steps);
    }

    /// Takes an arrival whose number is the greatest, or lies so many steps behind it.
    fn go_back(&mut self, side: Side, steps: u64, is_first: bool)
        ensures { self.new ≡ extent_behind side steps is_first self.old }
    {
        let deeper = steps.saturating_sub(self.depth);
        let is_late = is_first && is_under(self.tops.at(side), steps);
        self.depth = self.depth.max(steps);
        self.tops = self.tops.lifted(side, steps);
        self.lengths = self.lengths.saturating_add(deeper);
        self.order = self.order.more_at(side, is_late);
    }

    /// Takes the next arrival of the source.
    pub(crate) fn note(&mut self, side: Side, look: Look)
        ensures { self.new ≡ extent_with side look self.old }
    {
        match look.step {
            Step::First => self.begin(side),
            Step::Restart => {
                self.restarts = self.restarts.saturating_add(1);
                self.begin(side);
            }
            Step::Jump => {
                self.jumps = self.jumps.saturating_add(1);
                self.begin(side);
            }
            Step::On(Distance::Ahead(steps)) => self.go_ahead(side, u64::from(steps)),
            Step::On(Distance::Behind(steps)) => {
                self.go_back(side, u64::from(steps), !look.came.by(side));
            }
        }
    }
}
