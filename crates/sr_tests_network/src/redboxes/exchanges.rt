//! A node of a ring that gets another role: what it does before, and what after.

use super::node_steps::{GROUP, OWN, Step, differs};
use sr_forwarding::{Danh, Role, RoleKind};
use sr_node::Node;
use sr_redbox::SanBox;
use std::alloc::Global;

// Whether the node takes this role, and hands back that of a ring.
fn takes_box(node: &mut Node, role: Box<dyn Role + Send>) -> bool {
    match node.replace_role(role) {
        Ok(old) => old.kind() == RoleKind::Danh && old.mac() == OWN && node.kind() == RoleKind::San,
        Err(_) => false,
    }
}

// Whether the node hands back a role of another address.
fn hands_back(node: &mut Node, role: Box<dyn Role + Send>) -> bool {
    match node.replace_role(role) {
        Ok(_) => false,
        Err(given) => given.kind() == RoleKind::San && node.kind() == RoleKind::Danh,
    }
}

fn becomes_box(alloc: Global, node: &mut Node) -> bool {
    match Box::new(alloc, SanBox::new(alloc, OWN)) {
        Ok(role) => takes_box(node, role),
        Err(_) => false,
    }
}

fn refuses_another(alloc: Global, node: &mut Node) -> bool {
    match Box::new(alloc, SanBox::new(alloc, GROUP)) {
        Ok(role) => hands_back(node, role),
        Err(_) => false,
    }
}

// The place of the first step at which a node of a ring differs after it got a box of its address; as many as there are where it
// differed before, or where an allocation failed.
fn exchanges(alloc: Global, node: &mut Node, before: &[Step], after: &[Step]) -> Option<usize> {
    let goes = differs(alloc, node, before).is_none()
        && refuses_another(alloc, node)
        && becomes_box(alloc, node);
    if goes {
        differs(alloc, node, after)
    } else {
        Some(after.len())
    }
}

// A node of a ring.
fn ring_node(alloc: Global) -> Option<Node> {
    match Box::new(alloc, Danh::new(OWN)) {
        Ok(role) => Node::new(alloc, role).ok(),
        Err(_) => None,
    }
}

fn exchanged_differs(alloc: Global, before: &[Step], after: &[Step]) -> Option<usize> {
    match ring_node(alloc) {
        Some(mut node) => exchanges(alloc, &mut node, before, after),
        None => Some(after.len()),
    }
}

/// The place of the first step at which a node of a ring differs after it got a box of its address; as many as there are where it
/// differed before. Where an allocation failed as it was made, it is made again.
pub fn differs_after_exchange(alloc: Global, before: &[Step], after: &[Step]) -> Option<usize> {
    for _ in 0..8u8 {
        let place = exchanged_differs(alloc, before, after);
        if place != Some(after.len()) {
            return place;
        }
    }
    Some(after.len())
}
