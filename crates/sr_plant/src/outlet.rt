//! The outlets of nodes, and where they lead.

ghost use Rattle.std.specs.Prelude.{◌≡◌, ◌≤◌, ◌<◌, IfSome, option_map};
ghost use Rattle.sr_plant.specs.Limits.{most_members};
ghost use Rattle.sr_plant.specs.Flights.{hop_of};
ghost use Rattle.sr_plant.specs.Puts.{hop_to, twin_hop_to, LeadsOnlyTo, LeadsWithin};
ghost use Rattle.sr_plant.specs.Topologies.{IsJoinedAs};

use crate::Topology;
use crate::hop::Hop;
use crate::ring_hops::{ring_hop, ring_neighbour};
use sr_frame::Port;

/// An outlet of a node of a network with so many nodes.
#[derive(Clone, Copy)]
pub(crate) struct Outlet {
    pub(crate) topology: Topology,
    pub(crate) nodes: usize,
    pub(crate) node: usize,
    pub(crate) port: Port,
}

impl Outlet {
    // The hop through one of two LANs to a node, if the outlet leads there.
    fn twin_hop(self, to: usize) -> Option<Hop>
        requires small { self.nodes ≤ most_members }
        requires node { self.node < self.nodes }
        requires to { to < self.nodes }
        ensures { option_map hop_of result
            ≡ twin_hop_to self.nodes self.node self.port to }
    {
        if to == self.node {
            return None;
        }
        match self.port {
            Port::A => Some(Hop {
                node: to,
                port: Port::A,
                first: self.node,
                second: Some(to),
            }),
            Port::B => Some(Hop {
                node: to,
                port: Port::B,
                first: self.nodes + self.node,
                second: Some(self.nodes + to),
            }),
            Port::H | Port::C => None,
        }
    }

    // The one node to which the outlet leads, where it is a port of a ring.
    fn neighbour(self) -> Option<usize>
        requires small { self.nodes ≤ most_members }
        requires node { self.node < self.nodes }
        requires joined { IsJoinedAs self.topology self.nodes }
        ensures inside { IfSome result (λ m. m < self.nodes) }
        ensures only { IfSome result (λ m.
            LeadsOnlyTo (hop_to self.topology self.nodes self.node self.port) m) }
    {
        match self.topology {
            Topology::Ring => ring_neighbour(self.nodes, self.node, self.port),
            Topology::TwinLan => None,
            Topology::RingLan(shape) => shape.neighbour(self.nodes, self.node, self.port),
            Topology::TwoRings(shape) => shape.neighbour(self.nodes, self.node, self.port),
        }
    }

    /// The nodes to which the outlet may lead: those from the first number on, before the second. Round a ring that is one
    /// node.
    pub(crate) fn reach(self) -> (usize, usize)
        requires small { self.nodes ≤ most_members }
        requires node { self.node < self.nodes }
        requires joined { IsJoinedAs self.topology self.nodes }
        ensures order { result.0 ≤ result.1 }
        ensures inside { result.1 ≤ self.nodes }
        ensures leads { LeadsWithin (hop_to self.topology self.nodes self.node self.port)
            result.0 result.1 self.nodes }
    {
        match self.neighbour() {
            Some(node) => (node, node + 1),
            None => (0, self.nodes),
        }
    }

    /// The hop to a node, if the outlet leads there.
    pub(crate) fn hop(self, to: usize) -> Option<Hop>
        requires small { self.nodes ≤ most_members }
        requires node { self.node < self.nodes }
        requires joined { IsJoinedAs self.topology self.nodes }
        requires to { to < self.nodes }
        ensures { option_map hop_of result
            ≡ hop_to self.topology self.nodes self.node self.port to }
    {
        match self.topology {
            Topology::Ring => ring_hop(self.nodes, self.node, self.port, to),
            Topology::TwinLan => self.twin_hop(to),
            Topology::RingLan(shape) => shape.hop(self.nodes, self.node, self.port, to),
            Topology::TwoRings(shape) => shape.hop(self.nodes, self.node, self.port, to),
        }
    }
}
