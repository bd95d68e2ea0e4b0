//! Which columns a network has, and where its links are drawn.

use sr_chart::{LinkPlace, Part, Shape, Side};
use sr_plant::{Join, RingLanShape, Topology, TwoRingsShape};

/// The columns of a network of so many nodes.
pub(crate) fn shape_of(topology: Topology, nodes: usize) -> Shape {
    match topology {
        Topology::Ring => one_part("an HSR ring", "ring", nodes),
        Topology::TwinLan => one_part("two PRP LANs", "LAN A and LAN B", nodes),
        Topology::RingLan(shape) => Shape {
            name: "an HSR ring with two PRP LANs",
            left: Part {
                name: "ring; nodes 0 and 1 are RedBoxes",
                first: 0,
                count: shape.ring,
            },
            right: Some(Part {
                name: "LAN A and LAN B",
                first: shape.ring,
                count: shape.lan,
            }),
        },
        Topology::TwoRings(shape) => Shape {
            name: "two HSR rings",
            left: Part {
                name: "left ring",
                first: 0,
                count: shape.left,
            },
            right: Some(Part {
                name: "right ring",
                first: shape.left,
                count: shape.right,
            }),
        },
    }
}

/// The columns of a network of one part.
fn one_part(name: &'static str, part: &'static str, nodes: usize) -> Shape {
    Shape {
        name,
        left: Part {
            name: part,
            first: 0,
            count: nodes,
        },
        right: None,
    }
}

/// How many links a network of so many nodes has.
pub(crate) fn link_count(topology: Topology, nodes: usize) -> usize {
    match topology {
        Topology::Ring => nodes,
        Topology::TwinLan => nodes.saturating_mul(2),
        Topology::RingLan(shape) => shape
            .ring
            .saturating_add(shape.lan.saturating_mul(2))
            .saturating_add(2),
        Topology::TwoRings(shape) => {
            let joins = if shape.second.is_some() { 2 } else { 1 };
            shape.left.saturating_add(shape.right).saturating_add(joins)
        }
    }
}

/// Where a link is drawn: at one node, and at another if it ends at both.
#[derive(Clone, Copy)]
pub(crate) struct LinkPlaces {
    pub(crate) place: LinkPlace,
    pub(crate) other: Option<LinkPlace>,
}

/// A link of a ring, right of the node whose number it has.
fn ring_link(link: usize) -> LinkPlaces {
    LinkPlaces {
        place: LinkPlace {
            node: link,
            side: Side::Right,
            is_own: false,
        },
        other: None,
    }
}

/// The link of a node in a LAN.
fn lan_link(node: usize, side: Side) -> LinkPlaces {
    LinkPlaces {
        place: LinkPlace {
            node,
            side,
            is_own: true,
        },
        other: None,
    }
}

/// A link of the LANs behind a ring, counted from the first.
fn behind_link(shape: RingLanShape, link: usize) -> LinkPlaces {
    if link < shape.lan {
        lan_link(shape.ring.saturating_add(link), Side::Left)
    } else if link == shape.lan {
        lan_link(shape.box_a, Side::Right)
    } else {
        let link = link.saturating_sub(shape.lan).saturating_sub(1);
        if link < shape.lan {
            lan_link(shape.ring.saturating_add(link), Side::Right)
        } else {
            lan_link(shape.box_b, Side::Right)
        }
    }
}

/// A link between two boxes.
fn join_link(join: Join) -> LinkPlaces {
    LinkPlaces {
        place: LinkPlace {
            node: join.left,
            side: Side::Right,
            is_own: true,
        },
        other: Some(LinkPlace {
            node: join.right,
            side: Side::Right,
            is_own: true,
        }),
    }
}

/// A link of two rings.
fn two_rings_link(shape: TwoRingsShape, link: usize) -> LinkPlaces {
    let rings = shape.left.saturating_add(shape.right);
    match shape.second {
        _ if link < rings => ring_link(link),
        Some(second) if link > rings => join_link(second),
        _ => join_link(shape.first),
    }
}

/// Where a link of a network of so many nodes is drawn.
pub(crate) fn places_of(topology: Topology, nodes: usize, link: usize) -> LinkPlaces {
    match topology {
        Topology::Ring => ring_link(link),
        Topology::TwinLan if link < nodes => lan_link(link, Side::Left),
        Topology::TwinLan => lan_link(link.saturating_sub(nodes), Side::Right),
        Topology::RingLan(shape) if link < shape.ring => ring_link(link),
        Topology::RingLan(shape) => behind_link(shape, link.saturating_sub(shape.ring)),
        Topology::TwoRings(shape) => two_rings_link(shape, link),
    }
}
