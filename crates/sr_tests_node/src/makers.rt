//! New nodes, and one that is resumed.

use super::frames::OWN;
use sr_dup_table::DupTable;
use sr_forwarding::{Danh, Danp, Role};
use sr_node::{Mode, Node, Settings};
use sr_slots::Keys;
use std::alloc::Global;

fn node_over(alloc: Global, role: Box<dyn Role + Send>, settings: Settings) -> Option<Node> {
    Node::with(alloc, role, settings).ok()
}

/// A new node of a PRP network. None where an allocation failed.
pub fn danp(alloc: Global) -> Option<Node> {
    match Box::new(alloc, Danp::new(OWN)) {
        Ok(role) => node_over(alloc, role, Settings::PLAIN),
        Err(_) => None,
    }
}

/// A new node of a ring. None where an allocation failed.
pub fn danh(alloc: Global, settings: Settings) -> Option<Node> {
    match Box::new(alloc, Danh::new(OWN)) {
        Ok(role) => node_over(alloc, role, settings),
        Err(_) => None,
    }
}

fn resumed_over(alloc: Global, role: Box<dyn Role + Send>, table: DupTable) -> Option<Node> {
    Node::resumed(alloc, role, Mode::H, table, Keys::FIXED).ok()
}

/// A node of a PRP network that is resumed with this table. None where an allocation failed.
pub fn resumed_danp(alloc: Global, table: DupTable) -> Option<Node> {
    match Box::new(alloc, Danp::new(OWN)) {
        Ok(role) => resumed_over(alloc, role, table),
        Err(_) => None,
    }
}
