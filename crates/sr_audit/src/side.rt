//! The two ways of a redundant network.

ghost use Rattle.std.specs.Prelude.{◌≡◌};
ghost use Rattle.sr_audit.specs.Lanes.{side_lane, other_side};

use sr_dup_window::Lane;

/// One of the two ways by which copies of a frame come: a LAN of a PRP network, or a direction of an HSR ring.
#[derive(Clone, Copy, Debug, PartialEq, Eq)]
pub enum Side {
    /// LAN A.
    A,
    /// LAN B.
    B,
}

impl Side {
    /// The other side.
    pub fn other(self) -> Side
        ensures { result ≡ other_side self }
    {
        match self {
            Side::A => Side::B,
            Side::B => Side::A,
        }
    }

    /// The lane of a duplicate record on which a copy is noted that came in here.
    pub(crate) fn lane(self) -> Lane
        ensures { result ≡ side_lane self }
    {
        match self {
            Side::A => Lane::GotA,
            Side::B => Lane::GotB,
        }
    }
}
