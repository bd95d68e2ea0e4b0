//! How many frames came by both sides, by one alone, and more than once.

ghost use Rattle.std.specs.Prelude.{◌≡◌};
ghost use Rattle.sr_audit.specs.Counting.{more_if, less_if, tally_with, more_at, less_at, has_come, came_before_at};

use crate::side::Side;

/// A count for each side.
#[derive(Clone, Copy, Debug, PartialEq, Eq)]
pub struct Sides {
    /// That of side A.
    pub a: u64,
    /// That of side B.
    pub b: u64,
}

impl Sides {
    /// Nothing was counted.
    pub const NONE: Sides = Sides { a: 0, b: 0 };

    /// The counts with one more at a side, where a test holds.
    pub(crate) fn more_at(self, side: Side, is_one: bool) -> Sides
        ensures { result ≡ more_at self side is_one }
    {
        Sides {
            a: more_if(self.a, side == Side::A && is_one),
            b: more_if(self.b, side == Side::B && is_one),
        }
    }

    /// The counts with one less at a side, where a test holds.
    pub(crate) fn less_at(self, side: Side, is_one: bool) -> Sides
        ensures { result ≡ less_at self side is_one }
    {
        Sides {
            a: less_if(self.a, side == Side::A && is_one),
            b: less_if(self.b, side == Side::B && is_one),
        }
    }
}

/// By which sides copies of a frame came.
#[derive(Clone, Copy, Debug, PartialEq, Eq)]
pub struct Came {
    /// Whether one came by side A.
    pub a: bool,
    /// Whether one came by side B.
    pub b: bool,
}

impl Came {
    /// No copy came.
    pub const NEITHER: Came = Came { a: false, b: false };

    /// Whether one came by either side.
    pub(crate) fn is_some(self) -> bool
        ensures { result ≡ has_come self }
    {
        self.a || self.b
    }

    /// Whether one came by a side.
    pub(crate) fn by(self, side: Side) -> bool
        ensures { result ≡ came_before_at self side }
    {
        match side {
            Side::A => self.a,
            Side::B => self.b,
        }
    }
}

/// How many copies and frames of a source came. A count stays at 2^64 - 1.
#[derive(Clone, Copy, Debug, PartialEq, Eq)]
pub struct Tally {
    /// How many copies came in.
    pub rx: Sides,
    /// How many frames came by both sides.
    pub pairs: u64,
    /// How many frames came by this side alone.
    pub alone: Sides,
    /// How many copies came behind an earlier one of their frame at the same side.
    pub repeats: Sides,
}

/// A count with one more, where a test holds.
fn more_if(count: u64, is_one: bool) -> u64
    ensures { result ≡ more_if count is_one }
{
    count.saturating_add(u64::from(is_one))
}

/// A count with one less, where a test holds.
fn less_if(count: u64, is_one: bool) -> u64
    ensures { result ≡ less_if count is_one }
{
    count.saturating_sub(u64::from(is_one))
}

impl Tally {
    /// The figures of no frame.
    pub const NONE: Tally = Tally {
        rx: Sides::NONE,
        pairs: 0,
        alone: Sides::NONE,
        repeats: Sides::NONE,
    };

    /// The figures with one copy more of a frame of which copies came before by some sides.
    pub(crate) fn with(self, side: Side, came: Came) -> Tally
        ensures { result ≡ tally_with self side came }
    {
        let at_a = side == Side::A;
        let at_b = side == Side::B;
        let is_new = !came.a && !came.b;
        let joins_a = at_b && came.a && !came.b;
        let joins_b = at_a && came.b && !came.a;
        Tally {
            rx: Sides {
                a: more_if(self.rx.a, at_a),
                b: more_if(self.rx.b, at_b),
            },
            pairs: more_if(self.pairs, joins_a || joins_b),
            alone: Sides {
                a: less_if(more_if(self.alone.a, at_a && is_new), joins_a),
                b: less_if(more_if(self.alone.b, at_b && is_new), joins_b),
            },
            repeats: Sides {
                a: more_if(self.repeats.a, at_a && came.a),
                b: more_if(self.repeats.b, at_b && came.b),
            },
        }
    }
}
