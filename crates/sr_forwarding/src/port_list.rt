//! Ports in an order.

ghost use Rattle.std.specs.Prelude.{◌≡◌, ◌≤◌, length};

use smallvec::SmallVec;
use sr_frame::Port;
use std::fmt;
use std::marker::Model;

/// How many ports a node has.
const PORT_COUNT: usize = 4;

/// At most four ports, in an order. Contracts see it as the list of them. It never allocates.
#[derive(Drop)]
pub struct PortList {
    ports: SmallVec<Port, PORT_COUNT>,
}

impl Model for PortList {
    ghost use Rattle.std.specs.Prelude.{List, ◌≤◌, length};
    ghost use Rattle.sr_frame.specs.declared.ports.Port.{Port as Outlet};

    ghost Value = { List Outlet };

    ghost view = { λ l. l.ports.items };

    ghost invariant = { λ l. length l.ports.items ≤ 4 };
}

impl fmt::Debug for PortList {
    fn fmt<W: fmt::Write>(&self, f: &mut fmt::Formatter<W>) -> fmt::Result {
        self.ports.fmt(f)
    }
}

impl PartialEq for PortList {
    ghost use Rattle.std.specs.Cmp.Lexicographic.{pointwise};
    ghost use Rattle.std.specs.Cmp.Rules.{comparing};
    ghost use Rattle.std.proofs.Common.{rules};
    ghost use Rattle.sr_forwarding.specs.Outlets.{bit_of};
    ghost use Rattle.std.specs.Prelude.{nat_eq};
    ghost use Rattle.std.specs.Ordering.{on};

    ghost eq = { pointwise (on bit_of nat_eq) };

    ghost laws = { Prim.search (comparing, rules) };

    fn eq(&self, other: &PortList) -> bool {
        self.ports == other.ports
    }
}

impl Eq for PortList {
    ghost use Rattle.std.specs.Cmp.Rules.{comparing};
    ghost use Rattle.std.proofs.Common.{rules};

    ghost laws = { Prim.search (comparing, rules) };
}

impl PortList {
    /// The list of these ports, which it keeps without a copy.
    pub fn of(ports: SmallVec<Port, 4>) -> PortList
        requires { length ports.items ≤ 4 }
        ensures { result ≡ ports.items }
    {
        PortList { ports }
    }

    /// The ports in their order.
    pub fn as_slice(&self) -> &[Port]
        ensures ports { result.now ≡ self.now }
        ensures few { length self.now ≤ 4 }
    {
        self.ports.as_slice()
    }

    /// A list of its own with these ports in this order.
    pub fn copy(&self) -> PortList
        ensures { result ≡ self.now }
    {
        let ports = SmallVec::from_slice(*self.ports.allocator(), self.ports.as_slice());
        PortList {
            ports: ports.unwrap(),
        }
    }

    /// The list that it keeps, given back without a copy.
    pub fn into_ports(self) -> SmallVec<Port, 4>
        ensures { result.items ≡ self }
    {
        let PortList { ports: list } = self;
        list
    }
}
