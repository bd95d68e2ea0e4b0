//! What the table says of one node.
ghost use Rattle.std.specs.Prelude.{◌≡◌};
ghost use Rattle.sr_node_table.specs.Stating.{age_of, status_of, redbox_of};

use crate::node::{Announced, Node};
use sr_frame::Mac;

/// The age of what was never heard, and the greatest age, in milliseconds (choice of this project).
pub const GREATEST_AGE: u32 = 2147483647;

/// What is told of a node, in the words of the status of Linux net/hsr. Port A is the first interface, B the second.
#[derive(Clone, Copy, Debug, PartialEq, Eq)]
pub struct Status {
    /// The node's address.
    pub addr: Mac,
    /// How long ago it was heard at port A, in milliseconds: `GREATEST_AGE` where never.
    pub if1_age: u32,
    /// How long ago it was heard at port B, in milliseconds: `GREATEST_AGE` where never.
    pub if2_age: u32,
    /// The number of its last numbered frame at port A; 0 where there was none.
    pub if1_seq: u16,
    /// The number of its last numbered frame at port B; 0 where there was none.
    pub if2_seq: u16,
    /// The index of port A, 1.
    pub if1_ifindex: u32,
    /// The index of port B, 2.
    pub if2_ifindex: u32,
    /// The RedBox that it stands behind, as its last announcement said.
    pub redbox: Option<Mac>,
}

// How long ago a time was.
fn age_of(time: Option<u64>, now: u64) -> u32
    ensures { result ≡ age_of time now }
{
    match time {
        Some(time) => now.saturating_sub(time).min(GREATEST_AGE as u64) as u32,
        None => GREATEST_AGE,
    }
}

// The RedBox of an announcement.
fn redbox_of(announced: Option<Announced>) -> Option<Mac>
    ensures { result ≡ redbox_of announced }
{
    match announced {
        Some(announced) => announced.redbox,
        None => None,
    }
}

/// What is told of a node at this time.
pub(crate) fn status_of(mac: Mac, node: &Node, now: u64) -> Status
    ensures { result ≡ status_of mac node.now now }
{
    Status {
        addr: mac,
        if1_age: age_of(node.a.time, now),
        if2_age: age_of(node.b.time, now),
        if1_seq: node.a.seq,
        if2_seq: node.b.seq,
        if1_ifindex: 1,
        if2_ifindex: 2,
        redbox: redbox_of(node.announced),
    }
}
