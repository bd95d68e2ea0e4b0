//! The frames of a source in one LAN.

ghost use Rattle.std.specs.Prelude.{◌≡◌};
ghost use Rattle.sr_sources.specs.Lanes.{is_bare, first_or, tail_with};

use crate::glimpse::Glimpse;
use crate::rates::{Rates, one_more};
use crate::senders::{Turns, more_where};

/// The frames without a number behind the last one with one.
#[derive(Clone, Copy, Debug, PartialEq, Eq)]
pub struct Tail {
    /// How many. The count stays at 2^64 - 1.
    pub frames: u64,
    /// When the first of them came, in nanoseconds.
    pub since: Option<u64>,
}

/// The figures of the frames of a source in one LAN. A count stays at 2^64 - 1.
#[derive(Clone, Copy, Debug, PartialEq, Eq)]
pub struct Lane {
    /// How many came.
    pub frames: u64,
    /// How many have no number.
    pub bare: u64,
    /// How many have the other LAN's id.
    pub astray: u64,
    /// When the first came, in nanoseconds.
    pub first: Option<u64>,
    /// Those without a number behind the last one with one.
    pub tail: Tail,
    /// How many came in a second.
    pub rates: Rates,
    /// How their numbers go to and fro.
    pub turns: Turns,
}

/// Whether a frame has no number.
fn is_bare(x: Glimpse) -> bool
    ensures { result ≡ is_bare x }
{
    x.number.is_none()
}

/// When the first frame came, with one that came at this time.
fn first_or(first: Option<u64>, time: u64) -> u64
    ensures { result ≡ first_or first time }
{
    match first {
        Some(first) => first,
        None => time,
    }
}

impl Tail {
    ghost use Rattle.std.specs.Prelude.{◌≡◌};
    ghost use Rattle.sr_sources.specs.Lanes.{tail_with};

    /// No frame.
    const NONE: Tail = Tail {
        frames: 0,
        since: None,
    };

    /// With a frame more.
    fn with(self, x: Glimpse) -> Tail
        ensures { result ≡ tail_with x self }
    {
        if is_bare(x) {
            Tail {
                frames: one_more(self.frames),
                since: Some(first_or(self.since, x.time)),
            }
        } else {
            Tail::NONE
        }
    }
}

impl Lane {
    ghost use Rattle.std.specs.Prelude.{◌≡◌, List, [], ◌∷◌};
    ghost use Rattle.sr_sources.specs.declared.glimpse.Glimpse.{Glimpse};
    ghost use Rattle.sr_sources.specs.Lanes.{lane_of, lane_with};

    /// No frame came.
    pub fn new() -> Lane
        ensures { result ≡ lane_of [] }
    {
        Lane {
            frames: 0,
            bare: 0,
            astray: 0,
            first: None,
            tail: Tail::NONE,
            rates: Rates::NONE,
            turns: Turns::NONE,
        }
    }

    /// With a frame more: the figures of the frames that came, and of this one behind them.
    pub fn with(self, x: Glimpse) -> Lane
        ensures with_one { result ≡ lane_with x self }
        ensures figures { (xs : List Glimpse) → self ≡ lane_of xs → result ≡ lane_of (x ∷ xs) }
    {
        Lane {
            frames: one_more(self.frames),
            bare: more_where(is_bare(x), self.bare),
            astray: more_where(x.is_astray, self.astray),
            first: Some(first_or(self.first, x.time)),
            tail: self.tail.with(x),
            rates: self.rates.with(x.time),
            turns: self.turns.with(x),
        }
    }
}
