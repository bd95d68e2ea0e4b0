//! A node that gets another role, and one that takes over what another has noted.

use super::calls::{Absorbed, absorb, arrive_of_many};
use super::frames::{OTHER, OWN, Sent, octets_of};
use super::makers::{danh, danp};
use super::steps::Outcome;
use sr_forwarding::{Danh, Danp, Role, RoleKind};
use sr_frame::{Mac, Port};
use sr_node::{MergeFault, Node, Settings};
use std::alloc::Global;

/// Whether the node hands a role of another address back.
fn hands_back(node: &mut Node, other: Box<dyn Role + Send>) -> bool {
    match node.replace_role(other) {
        Ok(_) => false,
        Err(given) => given.mac() == OTHER,
    }
}

/// The kind and the address of the role that the node hands out for this one.
fn handed_out(node: &mut Node, next: Box<dyn Role + Send>) -> Option<(RoleKind, Mac)> {
    match node.replace_role(next) {
        Ok(old) => Some((old.kind(), old.mac())),
        Err(_) => None,
    }
}

/// Whether the node takes this role of its address and of this kind, and hands out the one that it had.
fn takes_role(node: &mut Node, next: Box<dyn Role + Send>, kind: RoleKind) -> bool {
    let before = node.kind();
    handed_out(node, next) == Some((before, OWN)) && node.kind() == kind && node.mac() == OWN
}

fn refuses_danh(alloc: Global, node: &mut Node) -> bool {
    match Box::new(alloc, Danh::new(OTHER)) {
        Ok(other) => hands_back(node, other),
        Err(_) => false,
    }
}

fn takes_danh(alloc: Global, node: &mut Node) -> bool {
    match Box::new(alloc, Danh::new(OWN)) {
        Ok(next) => takes_role(node, next, RoleKind::Danh),
        Err(_) => false,
    }
}

fn refuses_danp(alloc: Global, node: &mut Node) -> bool {
    match Box::new(alloc, Danp::new(OTHER)) {
        Ok(other) => hands_back(node, other),
        Err(_) => false,
    }
}

fn takes_danp(alloc: Global, node: &mut Node) -> bool {
    match Box::new(alloc, Danp::new(OWN)) {
        Ok(next) => takes_role(node, next, RoleKind::Danp),
        Err(_) => false,
    }
}

fn becomes_once(alloc: Global, node: &mut Node, kind: RoleKind) -> bool {
    match kind {
        RoleKind::Danp => refuses_danp(alloc, node) && takes_danp(alloc, node),
        RoleKind::Danh => refuses_danh(alloc, node) && takes_danh(alloc, node),
        _ => false,
    }
}

/// Whether the node refuses a role of another address, and gets one of its own and of this kind. A failed allocation for
/// a box is met by another try.
pub fn becomes(alloc: Global, node: &mut Node, kind: RoleKind) -> bool {
    becomes_once(alloc, node, kind) || becomes_once(alloc, node, kind)
}

fn hears(node: &mut Node, sent: Sent, now: u64) -> bool {
    matches!(
        arrive_of_many(node, Port::A, &octets_of(sent), now),
        Outcome::Up | Outcome::UpAndB
    )
}

/// A new node that reads this frame. None where an allocation failed.
fn reader_of(alloc: Global, sent: Sent) -> Option<Node> {
    match sent {
        Sent::Tagged(..) => danh(alloc, Settings::PLAIN),
        _ => danp(alloc),
    }
}

// Whether the node hears the copy of a frame that it heard, if there is one, at port B, and sends it nowhere.
fn hears_copy(node: &mut Node, copy: Option<Sent>, now: u64) -> bool {
    match copy {
        Some(copy) => { arrive_of_many(node, Port::B, &octets_of(copy), now) == Outcome::Nowhere }
        None => true,
    }
}

/// What another node of the address heard: a frame at port A, and perhaps its copy at port B, at a time.
#[derive(Clone, Copy)]
pub struct Heard {
    pub sent: Sent,
    pub copy: Option<Sent>,
    pub now: u64,
}

/// Another node of the address, which heard this. None where an allocation failed.
fn hearer(alloc: Global, heard: Heard) -> Option<Node> {
    let Heard { sent, copy, now } = heard;
    let mut other = reader_of(alloc, sent)?;
    if hears(&mut other, sent, now) && hears_copy(&mut other, copy, now) {
        Some(other)
    } else {
        None
    }
}

// None where there is no other node.
fn absorbed_once(alloc: Global, node: &mut Node, heard: Heard) -> Option<Absorbed> {
    match hearer(alloc, heard) {
        Some(other) => Some(absorb(node, &other)),
        None => None,
    }
}

fn absorbed(alloc: Global, node: &mut Node, heard: Heard) -> Option<Absorbed> {
    match absorbed_once(alloc, node, heard) {
        Some(absorbed) => Some(absorbed),
        None => absorbed_once(alloc, node, heard),
    }
}

/// Whether taking over comes to this. A failed allocation for the other node is met by another try.
pub fn absorbs(alloc: Global, node: &mut Node, heard: Heard, wanted: Option<MergeFault>) -> bool {
    match (absorbed(alloc, node, heard), wanted) {
        (Some(Absorbed::Whole), None) => true,
        (Some(Absorbed::Refused(fault)), Some(wanted)) => fault == wanted,
        _ => false,
    }
}
