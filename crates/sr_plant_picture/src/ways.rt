//! Where the outlets of nodes lead.

use sr_chart::{Path, Side};
use sr_frame::Port;
use sr_plant::{Join, RingLanShape, Topology, TwoRingsShape};

/// The way of a copy.
#[derive(Clone, Copy)]
pub(crate) struct Way {
    /// The node that it leads to.
    pub(crate) to: usize,
    /// The port there.
    pub(crate) inlet: Port,
    /// The link that it goes over first.
    pub(crate) first: usize,
    /// The link that it goes over then, if it does.
    pub(crate) second: Option<usize>,
    /// How it is drawn.
    pub(crate) path: Path,
}

impl Way {
    /// Whether it goes over this link.
    pub(crate) fn is_on(&self, link: usize) -> bool {
        self.first == link || self.second == Some(link)
    }
}

/// The nodes of a ring: the first one, which is also the number of its link, and how many there are.
#[derive(Clone, Copy)]
struct Round {
    first: usize,
    count: usize,
}

impl Round {
    /// The way from an outlet of a node of the ring to another of its nodes, if the outlet leads there.
    fn way(self, node: usize, outlet: Port, to: usize) -> Option<Way> {
        let last = self.first.saturating_add(self.count).saturating_sub(1);
        let way = match outlet {
            Port::A if node == self.first => Way {
                to: last,
                inlet: Port::B,
                first: last,
                second: None,
                path: Path::Around(Side::Left),
            },
            Port::A => Way {
                to: node.saturating_sub(1),
                inlet: Port::B,
                first: node.saturating_sub(1),
                second: None,
                path: Path::Straight,
            },
            Port::B if node == last => Way {
                to: self.first,
                inlet: Port::A,
                first: last,
                second: None,
                path: Path::Around(Side::Right),
            },
            Port::B => Way {
                to: node.saturating_add(1),
                inlet: Port::A,
                first: node,
                second: None,
                path: Path::Straight,
            },
            Port::H | Port::C => return None,
        };
        if way.to == to { Some(way) } else { None }
    }
}

/// A way from column to column over two links.
fn lan_way(to: usize, inlet: Port, own: usize, theirs: usize) -> Option<Way> {
    Some(Way {
        to,
        inlet,
        first: own,
        second: Some(theirs),
        path: Path::Straight,
    })
}

/// The way through one of two LANs of so many nodes.
fn twin_way(nodes: usize, node: usize, outlet: Port, to: usize) -> Option<Way> {
    if to == node {
        return None;
    }
    match outlet {
        Port::A => lan_way(to, Port::A, node, to),
        Port::B => lan_way(
            to,
            Port::B,
            nodes.saturating_add(node),
            nodes.saturating_add(to),
        ),
        Port::H | Port::C => None,
    }
}

/// The way from the interlink of a box over the link of this number, where this join leads from there to a node.
fn join_way(join: Join, link: usize, node: usize, to: usize) -> Option<Way> {
    let is_over = (node == join.left && to == join.right)
        || (node == join.right && to == join.left);
    if !is_over {
        return None;
    }
    Some(Way {
        to,
        inlet: Port::C,
        first: link,
        second: None,
        path: Path::Straight,
    })
}

/// One of the two LANs behind a ring: the ring's box in it, and the links of the box and of the first of its nodes.
#[derive(Clone, Copy)]
struct Behind {
    port: Port,
    ring: usize,
    gateway: usize,
    gateway_link: usize,
    first_link: usize,
}

impl Behind {
    /// LAN A of a ring with two LANs.
    fn lan_a(shape: RingLanShape) -> Behind {
        Behind {
            port: Port::A,
            ring: shape.ring,
            gateway: shape.box_a,
            gateway_link: shape.ring.saturating_add(shape.lan),
            first_link: shape.ring,
        }
    }

    /// LAN B.
    fn lan_b(shape: RingLanShape) -> Behind {
        let first_link = shape.ring.saturating_add(shape.lan).saturating_add(1);
        Behind {
            port: Port::B,
            ring: shape.ring,
            gateway: shape.box_b,
            gateway_link: first_link.saturating_add(shape.lan),
            first_link,
        }
    }

    /// The link of a node in this LAN.
    fn link_of(self, node: usize) -> usize {
        self.first_link
            .saturating_add(node.saturating_sub(self.ring))
    }

    /// The way from a node of the LAN, or from its box, over this link to a node.
    fn way(self, node: usize, own: usize, to: usize) -> Option<Way> {
        if to == node {
            None
        } else if to == self.gateway {
            lan_way(to, Port::C, own, self.gateway_link)
        } else if to < self.ring {
            None
        } else {
            lan_way(to, self.port, own, self.link_of(to))
        }
    }

    /// The way from its box to a node.
    fn out(self, to: usize) -> Option<Way> {
        self.way(self.gateway, self.gateway_link, to)
    }
}

/// The way round a ring with two LANs, or through its LANs.
fn ring_lan_way(shape: RingLanShape, node: usize, outlet: Port, to: usize) -> Option<Way> {
    let round = Round {
        first: 0,
        count: shape.ring,
    };
    let (a, b) = (Behind::lan_a(shape), Behind::lan_b(shape));
    match outlet {
        Port::H => None,
        Port::A | Port::B if node < shape.ring => round.way(node, outlet, to),
        Port::A => a.way(node, a.link_of(node), to),
        Port::B => b.way(node, b.link_of(node), to),
        Port::C if node == shape.box_a => a.out(to),
        Port::C if node == shape.box_b => b.out(to),
        Port::C => None,
    }
}

/// The way round one of two rings, or from one to the other.
fn two_rings_way(shape: TwoRingsShape, node: usize, outlet: Port, to: usize) -> Option<Way> {
    let left = Round {
        first: 0,
        count: shape.left,
    };
    let right = Round {
        first: shape.left,
        count: shape.right,
    };
    let link = shape.left.saturating_add(shape.right);
    match outlet {
        Port::H => None,
        Port::A | Port::B if node < shape.left => left.way(node, outlet, to),
        Port::A | Port::B => right.way(node, outlet, to),
        Port::C => match (join_way(shape.first, link, node, to), shape.second) {
            (Some(way), _) => Some(way),
            (None, Some(second)) => join_way(second, link.saturating_add(1), node, to),
            (None, None) => None,
        },
    }
}

/// The way from an outlet of a node of a network with so many nodes to another node, if the outlet leads there.
pub(crate) fn way_from(
    topology: Topology,
    nodes: usize,
    node: usize,
    outlet: Port,
    to: usize,
) -> Option<Way> {
    match topology {
        Topology::Ring => {
            let round = Round {
                first: 0,
                count: nodes,
            };
            round.way(node, outlet, to)
        }
        Topology::TwinLan => twin_way(nodes, node, outlet, to),
        Topology::RingLan(shape) => ring_lan_way(shape, node, outlet, to),
        Topology::TwoRings(shape) => two_rings_way(shape, node, outlet, to),
    }
}
