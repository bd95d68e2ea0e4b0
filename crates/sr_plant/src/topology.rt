//! How the nodes of a plant are joined.

ghost use Rattle.std.specs.Prelude.{◌≡◌, ◌≤◌};
ghost use Rattle.sr_forwarding.specs.PortFramings.{carried_as};
ghost use Rattle.sr_plant.specs.Topologies.{link_count, kind_of, framing_of, IsJoinedAs};
ghost use Rattle.sr_plant.specs.Limits.{most_members};

use crate::{RingLanShape, TwoRingsShape};
use sr_forwarding::{PortFraming, RoleKind, framing_at};
use sr_frame::Port;

/// How the nodes of a plant are joined.
#[derive(Clone, Copy, Debug, PartialEq, Eq)]
pub enum Topology {
    /// A ring of doubly attached nodes (IEC 62439-3 clause 5). Link i joins B of node i with A of the next, the last
    /// with node 0.
    Ring,
    /// Two LANs, A and B, of doubly attached nodes (IEC 62439-3 clause 4). Of n nodes link i is that of node i in LAN A,
    /// and link n + i that in LAN B.
    TwinLan,
    /// A ring with two RedBoxes of one PRP network, and doubly attached nodes of the LANs of this network.
    RingLan(RingLanShape),
    /// Two rings that are joined by RedBoxes.
    TwoRings(TwoRingsShape),
}

impl Topology {
    /// The kind of a node.
    pub fn kind_of(self, node: usize) -> RoleKind
        ensures { result ≡ kind_of self node }
    {
        match self {
            Topology::Ring => RoleKind::Danh,
            Topology::TwinLan => RoleKind::Danp,
            Topology::RingLan(shape) if node < shape.ring => shape.kind_in_ring(node),
            Topology::RingLan(_) => RoleKind::Danp,
            Topology::TwoRings(shape) if shape.is_box(node) => RoleKind::Hsr,
            Topology::TwoRings(_) => RoleKind::Danh,
        }
    }

    /// How a port of a node carries frames.
    pub(crate) fn framing_of(self, node: usize, port: Port) -> PortFraming
        ensures { carried_as result ≡ framing_of self node port }
    {
        framing_at(self.kind_of(node), port)
    }

    /// How many links join so many nodes.
    pub(crate) fn link_count(self, nodes: usize) -> usize
        requires small { nodes ≤ most_members }
        requires joined { IsJoinedAs self nodes }
        ensures { result ≡ link_count self nodes }
    {
        match self {
            Topology::Ring => nodes,
            Topology::TwinLan => nodes + nodes,
            Topology::RingLan(shape) => shape.ring + 2 * shape.lan + 2,
            Topology::TwoRings(shape) => shape.left + shape.right + shape.joins(),
        }
    }
}
