//! The shapes of coupled networks.

ghost use Rattle.std.specs.Prelude.{◌≡◌, ◌==◌, ◌||◌, length};
ghost use Rattle.sr_laws_plant.specs.TwoRings.{is_joined};
ghost use Rattle.sr_plant.specs.Topologies.{kind_in_ring, joins_of};

use sr_forwarding::{NetId, RoleKind};
use sr_prp_trailer::Lan;

/// A ring with two RedBoxes of one PRP network, one in each of its LANs, and doubly attached nodes of these LANs
/// (IEC 62439-3 clauses 4 and 5).
///
/// Nodes 0 to `ring` - 1 are those of the ring, and behind them come those of the LANs. Links 0 to `ring` - 1 are the
/// ring's, as in a ring alone. Then come those of LAN A, of its nodes in order and of its box, and then those of LAN B.
#[derive(Clone, Copy, Debug, PartialEq, Eq)]
pub struct RingLanShape {
    /// How many nodes the ring has.
    pub ring: usize,
    /// How many doubly attached nodes the LANs have.
    pub lan: usize,
    /// The node of the ring whose interlink is in LAN A.
    pub box_a: usize,
    /// The node of the ring whose interlink is in LAN B.
    pub box_b: usize,
    /// The PRP network at the ring.
    pub net: NetId,
}

/// Two RedBoxes, one in each of two rings, whose interlinks are joined.
#[derive(Clone, Copy, Debug, PartialEq, Eq)]
pub struct Join {
    /// The node of the left ring.
    pub left: usize,
    /// The node of the right ring.
    pub right: usize,
}

/// Two rings that one or two links between RedBoxes join (IEC 62439-3 clause 5).
///
/// Nodes and links of the left ring come first, as in a ring alone, and behind them those of the right ring. The last
/// links are those of the joins.
#[derive(Clone, Copy, Debug, PartialEq, Eq)]
pub struct TwoRingsShape {
    /// How many nodes the left ring has.
    pub left: usize,
    /// How many nodes the right ring has.
    pub right: usize,
    /// The first boxes of both.
    pub first: Join,
    /// The second boxes of both, if both have one.
    pub second: Option<Join>,
}

impl RingLanShape {
    /// The kind of a node of the ring.
    pub(crate) fn kind_in_ring(self, node: usize) -> RoleKind
        ensures { result ≡ kind_in_ring self node }
    {
        if node == self.box_a {
            RoleKind::Prp {
                lan: Lan::A,
                net: self.net,
            }
        } else if node == self.box_b {
            RoleKind::Prp {
                lan: Lan::B,
                net: self.net,
            }
        } else {
            RoleKind::Danh
        }
    }
}

impl Join {
    /// Whether a node is one of the two.
    pub(crate) fn has(self, node: usize) -> bool
        ensures { result ≡ (node == self.left || node == self.right) }
    {
        node == self.left || node == self.right
    }
}

impl TwoRingsShape {
    /// Whether a node is a box.
    pub(crate) fn is_box(self, node: usize) -> bool
        ensures { result ≡ is_joined (joins_of self) node }
    {
        match self.second {
            Some(second) => self.first.has(node) || second.has(node),
            None => self.first.has(node),
        }
    }

    /// How many links join the rings.
    pub(crate) fn joins(self) -> usize
        ensures { result ≡ length (joins_of self) }
    {
        match self.second {
            Some(_) => 2,
            None => 1,
        }
    }
}
