//! Nodes that a coupled network is made of, and nodes that make none.

use super::frames::mac_of;
use super::makers::append;
use Is::{BoxA, BoxB, BoxOf2, InLans, InRing, RingBox};
use sr_forwarding::{Danh, Danp, NetId, Role};
use sr_frame::Mac;
use sr_node::Node;
use sr_plant::{Coupled, PlantFault};
use sr_prp_trailer::Lan;
use sr_redbox::{HsrBox, PrpBox};
use std::alloc::Global;

/// What a node is.
#[derive(Clone, Copy)]
enum Is {
    /// A doubly attached node of a ring.
    InRing,
    /// A doubly attached node of two LANs.
    InLans,
    /// The box of LAN A of network 1.
    BoxA,
    /// The box of LAN B of network 1.
    BoxB,
    /// The box of LAN B of network 2.
    BoxOf2,
    /// A box between two rings.
    RingBox,
}

/// Nodes of these kinds, and nodes of those behind them, the first of which has the address of this number.
type Nodes = (&'static [Is], &'static [Is], u8);

/// What the nodes are to make.
#[derive(Clone, Copy)]
enum Case {
    /// A ring with two LANs.
    RingLan(Nodes),
    /// Two rings.
    TwoRings(Nodes),
}

/// The number of the first node behind.
const BEHIND: u8 = 32;

fn node_over(alloc: Global, role: Box<dyn Role + Send>) -> Option<Node> {
    Node::new(alloc, role).ok()
}

fn danh(alloc: Global, mac: Mac) -> Option<Node> {
    match Box::new(alloc, Danh::new(mac)) {
        Ok(role) => node_over(alloc, role),
        Err(_) => None,
    }
}

fn danp(alloc: Global, mac: Mac) -> Option<Node> {
    match Box::new(alloc, Danp::new(mac)) {
        Ok(role) => node_over(alloc, role),
        Err(_) => None,
    }
}

fn prp_box(alloc: Global, mac: Mac, lan: Lan, net: NetId) -> Option<Node> {
    match Box::new(alloc, PrpBox::of(mac, lan, net)) {
        Ok(role) => node_over(alloc, role),
        Err(_) => None,
    }
}

fn ring_box(alloc: Global, mac: Mac) -> Option<Node> {
    match Box::new(alloc, HsrBox::new(mac)) {
        Ok(role) => node_over(alloc, role),
        Err(_) => None,
    }
}

// The node of this number. None where an allocation failed, here and below.
fn node_of(alloc: Global, is: Is, number: u8) -> Option<Node> {
    let mac = mac_of(number);
    match is {
        Is::InRing => danh(alloc, mac),
        Is::InLans => danp(alloc, mac),
        Is::BoxA => prp_box(alloc, mac, Lan::A, NetId::One),
        Is::BoxB => prp_box(alloc, mac, Lan::B, NetId::One),
        Is::BoxOf2 => prp_box(alloc, mac, Lan::B, NetId::Two),
        Is::RingBox => ring_box(alloc, mac),
    }
}

// Nodes of these kinds, the first of which has this number.
fn nodes_of(alloc: Global, kinds: &[Is], first: u8) -> Option<Vec<Node>> {
    let mut nodes = Vec::new(alloc);
    let mut number = first;
    for is in kinds {
        let node = node_of(alloc, *is, number)?;
        append(&mut nodes, node).ok()?;
        number = number.wrapping_add(1);
    }
    Some(nodes)
}

// Why they make no ring with two LANs, if so.
fn ring_lan_fault(alloc: Global, ring: Vec<Node>, lans: Vec<Node>) -> Option<PlantFault> {
    Coupled::ring_lan(alloc, ring, lans).err()
}

// Why they make no two rings, if so.
fn two_rings_fault(alloc: Global, left: Vec<Node>, right: Vec<Node>) -> Option<PlantFault> {
    Coupled::two_rings(alloc, left, right).err()
}

// Why these nodes do not make it, if so. None where an allocation failed.
fn fault_of(alloc: Global, case: Case) -> Option<Option<PlantFault>> {
    match case {
        Case::RingLan((ring, lans, from)) => {
            let ring = nodes_of(alloc, ring, 0)?;
            Some(ring_lan_fault(alloc, ring, nodes_of(alloc, lans, from)?))
        }
        Case::TwoRings((left, right, from)) => {
            let left = nodes_of(alloc, left, 0)?;
            Some(two_rings_fault(alloc, left, nodes_of(alloc, right, from)?))
        }
    }
}

// The place of the first case that comes to something else. Where an allocation failed, it comes again.
fn first_wrong(alloc: Global, cases: &[(Case, Option<PlantFault>)]) -> Option<usize> {
    for (place, (case, wanted)) in cases.iter().enumerate() {
        if fault_of(alloc, *case) != Some(*wanted) && fault_of(alloc, *case) != Some(*wanted) {
            return Some(place);
        }
    }
    None
}

/// Fourteen nodes of a ring behind two boxes.
const SIXTEEN: &[Is] = &[
    BoxA, InRing, InRing, InRing, InRing, InRing, InRing, InRing, InRing, InRing, InRing, InRing,
    InRing, InRing, InRing, BoxB,
];

/// One node more.
const SEVENTEEN: &[Is] = &[
    BoxA, InRing, InRing, InRing, InRing, InRing, InRing, InRing, InRing, InRing, InRing, InRing,
    InRing, InRing, InRing, InRing, BoxB,
];

const FOURTEEN_IN_LANS: &[Is] = &[InLans; 14];

const FIFTEEN_IN_LANS: &[Is] = &[InLans; 15];

const NONE: Option<PlantFault> = None;

const BAD: Option<PlantFault> = Some(PlantFault::BadPlant);

// A ring has a box of each LAN of one network, and 3 to 16 nodes; the LANs have 1 to 14 more.
const RING_LANS: &[(Case, Option<PlantFault>)] = &[
    (
        Case::RingLan((&[BoxA, BoxB, InRing], &[InLans], BEHIND)),
        NONE,
    ),
    (
        Case::RingLan((&[InRing, BoxB, BoxA], &[InLans, InLans], BEHIND)),
        NONE,
    ),
    (Case::RingLan((SIXTEEN, FOURTEEN_IN_LANS, BEHIND)), NONE),
    (Case::RingLan((&[BoxA, BoxB], &[InLans], BEHIND)), BAD),
    (Case::RingLan((SEVENTEEN, &[InLans], BEHIND)), BAD),
    (Case::RingLan((&[BoxA, BoxB, InRing], &[], BEHIND)), BAD),
    (
        Case::RingLan((&[BoxA, BoxB, InRing], FIFTEEN_IN_LANS, BEHIND)),
        BAD,
    ),
    (
        Case::RingLan((&[BoxA, InRing, InRing], &[InLans], BEHIND)),
        BAD,
    ),
    (
        Case::RingLan((&[BoxA, BoxA, InRing], &[InLans], BEHIND)),
        BAD,
    ),
    (
        Case::RingLan((&[BoxA, BoxOf2, InRing], &[InLans], BEHIND)),
        BAD,
    ),
    (Case::RingLan((&[BoxA, BoxB, BoxB], &[InLans], BEHIND)), BAD),
    (
        Case::RingLan((&[BoxA, BoxB, InLans], &[InLans], BEHIND)),
        BAD,
    ),
    (
        Case::RingLan((&[BoxA, BoxB, InRing], &[InRing], BEHIND)),
        BAD,
    ),
    // One address in both.
    (Case::RingLan((&[BoxA, BoxB, InRing], &[InLans], 2)), BAD),
];

// Each ring has 2 to 16 nodes, and both have as many boxes, one or two.
const TWO_RINGS: &[(Case, Option<PlantFault>)] = &[
    (
        Case::TwoRings((&[RingBox, InRing], &[InRing, RingBox], BEHIND)),
        NONE,
    ),
    (
        Case::TwoRings((&[RingBox, RingBox], &[RingBox, InRing, RingBox], BEHIND)),
        NONE,
    ),
    (
        Case::TwoRings((&[RingBox], &[RingBox, InRing], BEHIND)),
        BAD,
    ),
    (
        Case::TwoRings((&[RingBox, InRing], &[RingBox], BEHIND)),
        BAD,
    ),
    (
        Case::TwoRings((&[InRing, InRing], &[InRing, InRing], BEHIND)),
        BAD,
    ),
    (
        Case::TwoRings((&[RingBox, RingBox], &[RingBox, InRing], BEHIND)),
        BAD,
    ),
    (
        Case::TwoRings((&[RingBox, InRing], &[RingBox, RingBox], BEHIND)),
        BAD,
    ),
    (
        Case::TwoRings((
            &[RingBox, RingBox, RingBox],
            &[RingBox, RingBox, RingBox],
            BEHIND,
        )),
        BAD,
    ),
    (
        Case::TwoRings((&[RingBox, InLans], &[RingBox, InRing], BEHIND)),
        BAD,
    ),
    (
        Case::TwoRings((&[RingBox, InRing], &[RingBox, InRing], 1)),
        BAD,
    ),
];

#[test]
fn nodes_of_a_ring_with_two_lans(rt: HostRuntime) {
    assert_eq!(rt; first_wrong(rt.alloc(), RING_LANS), None);
}

#[test]
fn nodes_of_two_rings(rt: HostRuntime) {
    assert_eq!(rt; first_wrong(rt.alloc(), TWO_RINGS), None);
}
