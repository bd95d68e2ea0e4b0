//! How many nodes a plant has.

ghost use Rattle.std.specs.Prelude.{◌≡◌, ◌<◌};
ghost use Rattle.sr_plant.specs.Building.{is_between, has_boxes, is_join, is_second_join, is_size};

use crate::{Join, RingLanShape, Topology, TwoRingsShape};

/// The fewest nodes of a ring, and of two LANs.
const FEWEST_NODES: usize = 2;

/// The most nodes of a ring, and of two LANs.
pub(crate) const MAX_NODES: usize = 16;

/// The fewest nodes of a ring with the boxes of two LANs.
const FEWEST_WITH_BOXES: usize = 3;

/// The most doubly attached nodes of these LANs.
const MAX_IN_LANS: usize = 14;

// Whether a number is not below the fewest and not above the most.
fn is_between(fewest: usize, most: usize, number: usize) -> bool
    ensures { result ≡ is_between fewest most number }
{
    fewest <= number && number <= most
}

impl RingLanShape {
    // Whether its boxes are two nodes of the ring.
    fn has_boxes(self) -> bool
        ensures { result ≡ has_boxes self }
    {
        self.box_a < self.ring && self.box_b < self.ring && self.box_a != self.box_b
    }

    // Whether so many nodes are joined so.
    fn is_size(self, nodes: usize) -> bool
        ensures { result ≡ is_size (Topology.RingLan self) nodes }
    {
        is_between(FEWEST_WITH_BOXES, MAX_NODES, self.ring)
            && is_between(1, MAX_IN_LANS, self.lan)
            && self.ring + self.lan == nodes
            && self.has_boxes()
    }
}

impl TwoRingsShape {
    // Whether a join leads from a node of the left ring to one of the right.
    fn is_join(self, join: Join) -> bool
        requires left { self.left < 1000 }
        requires right { self.right < 1000 }
        ensures { result ≡ is_join self join }
    {
        join.left < self.left && self.left <= join.right && join.right < self.left + self.right
    }

    // Whether the second join, if there is one, joins two other nodes.
    fn is_second_join(self) -> bool
        requires left { self.left < 1000 }
        requires right { self.right < 1000 }
        ensures { result ≡ is_second_join self self.second }
    {
        match self.second {
            Some(join) => {
                self.is_join(join) && join.left != self.first.left && join.right != self.first.right
            }
            None => true,
        }
    }

    // Whether so many nodes are joined so.
    fn is_size(self, nodes: usize) -> bool
        ensures { result ≡ is_size (Topology.TwoRings self) nodes }
    {
        is_between(FEWEST_NODES, MAX_NODES, self.left)
            && is_between(FEWEST_NODES, MAX_NODES, self.right)
            && self.left + self.right == nodes
            && self.is_join(self.first)
            && self.is_second_join()
    }
}

impl Topology {
    /// Whether so many nodes are joined so.
    pub(crate) fn is_size(self, nodes: usize) -> bool
        ensures { result ≡ is_size self nodes }
    {
        match self {
            Topology::Ring | Topology::TwinLan => is_between(FEWEST_NODES, MAX_NODES, nodes),
            Topology::RingLan(shape) => shape.is_size(nodes),
            Topology::TwoRings(shape) => shape.is_size(nodes),
        }
    }
}
