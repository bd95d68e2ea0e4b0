//! The lanes of a duplicate record, and sets of them.
ghost use Rattle.std.specs.Prelude.{⊤, ◌≡◌, [], ◌∷◌, codes};
ghost use Rattle.sr_dup_window.specs.LaneSets.{index_of, has, only, union, difference, none, is_empty};

use bitflags::{Flag, Flags, bitflag_items};

/// On what a number can be noted (choice of this project): the four outlets that a frame can go to, and the two ring or
/// LAN ports that it can have come in by.
#[derive(Clone, Copy, PartialEq, Eq, Hash, Debug)]
pub enum Lane {
    /// Handed up to the host.
    H,
    /// Put out at port A.
    A,
    /// Put out at port B.
    B,
    /// Put out at port C, the interlink of a RedBox.
    C,
    /// Received at port A.
    GotA,
    /// Received at port B.
    GotB,
}

impl Lane {
    /// All six lanes, in order.
    pub const ALL: [Lane; 6] = [Lane::H, Lane::A, Lane::B, Lane::C, Lane::GotA, Lane::GotB];

    /// The place of the lane in the order.
    pub(crate) fn index(self) -> u32
        ensures { result ≡ index_of self }
    {
        match self {
            Lane::H => 0,
            Lane::A => 1,
            Lane::B => 2,
            Lane::C => 3,
            Lane::GotA => 4,
            Lane::GotB => 5,
        }
    }
}

/// A set of lanes. Two of its eight bits stand for no lane: all calls here pass over them.
#[derive(Clone, Copy, PartialEq, Eq, Hash, Debug)]
pub struct Lanes(u8);

bitflag_items! {
    impl Lanes: u8 {
        /// The lane `H` alone.
        const H = 1;
        /// The lane `A` alone.
        const A = 2;
        /// The lane `B` alone.
        const B = 4;
        /// The lane `C` alone.
        const C = 8;
        /// The lane `GotA` alone.
        const GOT_A = 16;
        /// The lane `GotB` alone.
        const GOT_B = 32;
    }
}

impl Flags for Lanes {
    type Bits = u8;

    ghost exact = { ⊤ };

    ghost table = { (codes "H", 1) ∷ (codes "A", 2) ∷ (codes "B", 4) ∷ (codes "C", 8)
        ∷ (codes "GOT_A", 16) ∷ (codes "GOT_B", 32) ∷ [] };

    ghost set_of = { λ lanes. lanes.0 };

    fn flags<'a>() -> &'a [Flag<Lanes>] {
        Lanes::FLAGS
    }

    fn bits(&self) -> u8 {
        self.0
    }

    fn from_bits_retain(bits: u8) -> Lanes {
        Lanes(bits)
    }
}

impl Lanes {
    /// No lane.
    pub const NONE: Lanes = Lanes(0);

    /// The bits that stand for lanes.
    const KNOWN: u8 = 63;

    /// The set of one lane.
    pub fn only(lane: Lane) -> Lanes
        ensures { result ≡ only lane }
    {
        match lane {
            Lane::H => Lanes::H,
            Lane::A => Lanes::A,
            Lane::B => Lanes::B,
            Lane::C => Lanes::C,
            Lane::GotA => Lanes::GOT_A,
            Lane::GotB => Lanes::GOT_B,
        }
    }

    /// Whether the lane is in the set.
    pub fn has(self, lane: Lane) -> bool
        ensures { result ≡ has self lane }
    {
        (self.0 >> lane.index()) & 1 == 1
    }

    /// Whether no lane is in the set.
    pub fn is_empty(self) -> bool
        ensures { result ≡ is_empty self }
    {
        self.0 & Lanes::KNOWN == 0
    }

    /// The lanes of either set.
    pub fn union(self, other: Lanes) -> Lanes
        ensures { result ≡ union self other }
    {
        Lanes((self.0 | other.0) & Lanes::KNOWN)
    }

    /// The lanes of this set that are not in the other.
    pub fn difference(self, other: Lanes) -> Lanes
        ensures { result ≡ difference self other }
    {
        Lanes(self.0 & !other.0 & Lanes::KNOWN)
    }
}
