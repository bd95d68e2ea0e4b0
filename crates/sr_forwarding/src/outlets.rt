//! Sets of outlets.

ghost use Rattle.std.specs.Prelude.{⊤, ◌≡◌, [], ◌∷◌, codes};
ghost use Rattle.sr_forwarding.specs.Outlets.{has, to, listed, ring};

use crate::port_list::PortList;
use bitflags::{Flag, Flags, bitflag_items};
use smallvec::SmallVec;
use sr_frame::Port;
use std::alloc::Global;

/// A set of outlets.
#[derive(Clone, Copy, Debug, PartialEq, Eq)]
pub struct Outlets(u8);

bitflag_items! {
    impl Outlets: u8 {
        const H = 1;
        const A = 2;
        const B = 4;
        const C = 8;
    }
}

impl Flags for Outlets {
    type Bits = u8;

    ghost exact = { ⊤ };

    ghost table = { (codes "H", 1) ∷ (codes "A", 2) ∷ (codes "B", 4) ∷ (codes "C", 8) ∷ [] };

    ghost set_of = { λ o. o.0 };

    fn flags<'a>() -> &'a [Flag<Outlets>] {
        Outlets::FLAGS
    }

    fn bits(&self) -> u8 {
        self.0
    }

    fn from_bits_retain(bits: u8) -> Outlets {
        Outlets(bits)
    }
}

impl Outlets {
    /// The set of no port.
    pub fn none() -> Outlets
        ensures { result ≡ to [] }
    {
        Outlets(0)
    }

    /// The set of this port alone.
    pub fn only(port: Port) -> Outlets
        ensures { result ≡ to (port ∷ []) }
    {
        match port {
            Port::H => Outlets::H,
            Port::A => Outlets::A,
            Port::B => Outlets::B,
            Port::C => Outlets::C,
        }
    }

    /// Whether the set has this port.
    pub fn has(self, port: Port) -> bool
        ensures { result ≡ has self port }
    {
        self.contains(Outlets::only(port))
    }

    /// The other ring port than this inlet, where it is A or B, and else no port.
    pub fn other_ring_port(inlet: Port) -> Outlets
        ensures { result ≡ to (ring inlet) }
    {
        match inlet {
            Port::A => Outlets::B,
            Port::B => Outlets::A,
            Port::H | Port::C => Outlets::none(),
        }
    }

    /// The ports of the set, in the order H, A, B, C. Does not allocate.
    pub fn ports(self, alloc: Global) -> PortList
        ensures { result ≡ listed self }
    {
        let mut ports: SmallVec<Port, 4> = SmallVec::new(alloc);
        for port in [Port::H, Port::A, Port::B, Port::C].iter() {
            if self.has(*port) {
                ports.push_reserved(*port);
            }
        }
        PortList::of(ports)
    }
}
