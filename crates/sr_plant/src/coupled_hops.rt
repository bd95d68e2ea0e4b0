//! The hops through coupled networks.

ghost use Rattle.std.specs.Prelude.{◌≡◌, ◌≤◌, ◌<◌, ◌-◌, ◌==◌, [], ◌∷◌, Some, None, IfSome, option_map, if◌then◌else◌};
ghost use Rattle.sr_plant.specs.Limits.{most_members};
ghost use Rattle.sr_plant.specs.Flights.{hop_of};
ghost use Rattle.sr_plant.specs.Puts.{ring_hop_to, ring_lan_hop_to, two_rings_hop_to, lan_hop_to, over_to, beyond_left, LeadsOnlyTo};
ghost use Rattle.sr_plant.specs.Topologies.{IsRingLan, AreTwoRings, joined_pair};

use crate::hop::Hop;
use crate::ring_hops::{ring_hop, ring_neighbour};
use crate::{Join, RingLanShape, TwoRingsShape};
use sr_frame::Port;

// Through a LAN behind a ring, from a node on its own link to a node at this port, if there is one.
fn lan_hop(ring: usize, port: Port, own: usize, first: usize, node: usize, to: usize) -> Option<Hop>
    requires first { first < 1000 }
    requires to { to < 1000 }
    ensures { option_map hop_of result ≡ lan_hop_to ring port own first node to }
{
    if to < ring || to == node {
        return None;
    }
    Some(Hop {
        node: to,
        port,
        first: own,
        second: Some(first + to),
    })
}

// To the interlink of a box, over two links.
fn box_hop(node: usize, first: usize, second: usize) -> Hop
    ensures { hop_of result ≡ record {
      to = record { node = node; port = Port.C };
      links = first ∷ second ∷ [];
    } }
{
    Hop {
        node,
        port: Port::C,
        first,
        second: Some(second),
    }
}

impl RingLanShape {
    // From the interlink of a box, through its LAN.
    fn hop_over(self, nodes: usize, node: usize, to: usize) -> Option<Hop>
        requires small { nodes ≤ most_members }
        requires joined { IsRingLan self nodes }
        requires to { to < nodes }
        ensures { option_map hop_of result
            ≡ ring_lan_hop_to self node Port.C to }
    {
        let (ring, lan) = (self.ring, self.lan);
        if node == self.box_a {
            lan_hop(ring, Port::A, ring + lan, 0, node, to)
        } else if node == self.box_b {
            lan_hop(ring, Port::B, ring + 2 * lan + 1, lan + 1, node, to)
        } else {
            None
        }
    }

    // From a node of the LANs into LAN A.
    fn hop_into_a(self, nodes: usize, node: usize, to: usize) -> Option<Hop>
        requires small { nodes ≤ most_members }
        requires joined { IsRingLan self nodes }
        requires node { self.ring ≤ node }
        requires to { to < nodes }
        ensures { option_map hop_of result
            ≡ ring_lan_hop_to self node Port.A to }
    {
        if to == self.box_a {
            return Some(box_hop(self.box_a, node, self.ring + self.lan));
        }
        lan_hop(self.ring, Port::A, node, 0, node, to)
    }

    // From a node of the LANs into LAN B.
    fn hop_into_b(self, nodes: usize, node: usize, to: usize) -> Option<Hop>
        requires small { nodes ≤ most_members }
        requires joined { IsRingLan self nodes }
        requires node { self.ring ≤ node }
        requires within { node < nodes }
        requires to { to < nodes }
        ensures { option_map hop_of result
            ≡ ring_lan_hop_to self node Port.B to }
    {
        let own = self.lan + 1 + node;
        if to == self.box_b {
            return Some(box_hop(self.box_b, own, self.ring + 2 * self.lan + 1));
        }
        lan_hop(self.ring, Port::B, own, self.lan + 1, node, to)
    }

    /// The one node to which a port of a node leads, where it leads round the ring.
    pub(crate) fn neighbour(self, nodes: usize, node: usize, port: Port) -> Option<usize>
        requires joined { IsRingLan self nodes }
        ensures inside { IfSome result (λ m. m < nodes) }
        ensures only { IfSome result (λ m. LeadsOnlyTo (ring_lan_hop_to self node port) m) }
    {
        if node < self.ring {
            ring_neighbour(self.ring, node, port)
        } else {
            None
        }
    }

    /// The hop from a port of a node to another node, if it leads there.
    pub(crate) fn hop(self, nodes: usize, node: usize, port: Port, to: usize) -> Option<Hop>
        requires small { nodes ≤ most_members }
        requires joined { IsRingLan self nodes }
        requires node { node < nodes }
        requires to { to < nodes }
        ensures { option_map hop_of result
            ≡ ring_lan_hop_to self node port to }
    {
        match port {
            Port::H => None,
            Port::C => self.hop_over(nodes, node, to),
            Port::A if node < self.ring => ring_hop(self.ring, node, Port::A, to),
            Port::B if node < self.ring => ring_hop(self.ring, node, Port::B, to),
            Port::A => self.hop_into_a(nodes, node, to),
            Port::B => self.hop_into_b(nodes, node, to),
        }
    }
}

impl Join {
    // Over the link of this number, from one of the two boxes to the other.
    fn hop(self, link: usize, node: usize, to: usize) -> Option<Hop>
        ensures { option_map hop_of result ≡ over_to link (joined_pair self ∷ []) node to }
    {
        if node == self.left {
            over_hop(link, self.right, to)
        } else if node == self.right {
            over_hop(link, self.left, to)
        } else {
            None
        }
    }
}

// Over a link between two boxes to this one, if it leads there.
fn over_hop(link: usize, other: usize, to: usize) -> Option<Hop>
    ensures { option_map hop_of result
        ≡ (if to == other then Some (record {
          to = record { node = other; port = Port.C };
          links = link ∷ [];
        }) else None) }
{
    if to != other {
        return None;
    }
    Some(Hop {
        node: other,
        port: Port::C,
        first: link,
        second: None,
    })
}

impl TwoRingsShape {
    // From the interlink of a box to the one that it is joined with.
    fn hop_over(self, nodes: usize, node: usize, to: usize) -> Option<Hop>
        requires small { nodes ≤ most_members }
        requires joined { AreTwoRings self nodes }
        ensures { option_map hop_of result
            ≡ two_rings_hop_to self node Port.C to }
    {
        let link = self.left + self.right;
        if self.first.has(node) {
            return self.first.hop(link, node, to);
        }
        match self.second {
            Some(second) => second.hop(link + 1, node, to),
            None => None,
        }
    }

    // Round the right ring.
    fn right_hop(self, nodes: usize, node: usize, port: Port, to: usize) -> Option<Hop>
        requires small { nodes ≤ most_members }
        requires joined { AreTwoRings self nodes }
        requires right { self.left ≤ node }
        requires node { node < nodes }
        ensures { option_map hop_of result
            ≡ beyond_left self.left
            (ring_hop_to self.right (node - self.left) port) to }
    {
        let left = self.left;
        if to < left {
            return None;
        }
        let hop = ring_hop(self.right, node - left, port, to - left)?;
        Some(Hop {
            node: left + hop.node,
            port: hop.port,
            first: left + hop.first,
            second: None,
        })
    }

    // The one node to which a port of a node of the right ring leads round that ring.
    fn right_neighbour(self, nodes: usize, node: usize, port: Port) -> Option<usize>
        requires small { nodes ≤ most_members }
        requires joined { AreTwoRings self nodes }
        requires right { self.left ≤ node }
        requires node { node < nodes }
        ensures inside { IfSome result (λ m. m < nodes) }
        ensures only { IfSome result (λ m. LeadsOnlyTo
            (beyond_left self.left (ring_hop_to self.right (node - self.left) port)) m) }
        ensures interlink { port ≡ Port.C → result ≡ None }
    {
        let neighbour = ring_neighbour(self.right, node - self.left, port)?;
        Some(self.left + neighbour)
    }

    /// The one node to which a port of a node leads, where it leads round one of the rings.
    pub(crate) fn neighbour(self, nodes: usize, node: usize, port: Port) -> Option<usize>
        requires small { nodes ≤ most_members }
        requires joined { AreTwoRings self nodes }
        requires node { node < nodes }
        ensures inside { IfSome result (λ m. m < nodes) }
        ensures only { IfSome result (λ m. LeadsOnlyTo (two_rings_hop_to self node port) m) }
    {
        if node < self.left {
            ring_neighbour(self.left, node, port)
        } else {
            self.right_neighbour(nodes, node, port)
        }
    }

    /// The hop from a port of a node to another node, if it leads there.
    pub(crate) fn hop(self, nodes: usize, node: usize, port: Port, to: usize) -> Option<Hop>
        requires small { nodes ≤ most_members }
        requires joined { AreTwoRings self nodes }
        requires node { node < nodes }
        ensures { option_map hop_of result
            ≡ two_rings_hop_to self node port to }
    {
        match port {
            Port::H => None,
            Port::C => self.hop_over(nodes, node, to),
            Port::A if node < self.left => ring_hop(self.left, node, Port::A, to),
            Port::B if node < self.left => ring_hop(self.left, node, Port::B, to),
            Port::A => self.right_hop(nodes, node, Port::A, to),
            Port::B => self.right_hop(nodes, node, Port::B, to),
        }
    }
}
