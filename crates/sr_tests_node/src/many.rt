//! Steps that stand for many.

use super::calls::{arrive_of_many, tick};
use super::frames::{Sent, octets_of};
use super::steps::Outcome;
use sr_frame::Port;
use sr_node::Node;
use sr_sequence::Seq;
use std::alloc::Global;

fn goes_up(node: &mut Node, sent: Sent, now: u64) -> bool {
    arrive_of_many(node, Port::A, &octets_of(sent), now) == Outcome::Up
}

/// Whether each frame of one node goes up.
pub fn fills(node: &mut Node, count: u16, now: u64) -> bool {
    for seq in 0..count {
        if !goes_up(node, Sent::InA(seq), now) {
            return false;
        }
    }
    true
}

fn hears_source(node: &mut Node, number: u16) -> bool {
    goes_up(node, Sent::OfSource(number), 0) && node.take(Port::H).is_some()
}

/// Whether the frame of each source goes up, and is taken out.
pub fn hears_sources(node: &mut Node, count: u16) -> bool {
    for number in 0..count {
        if !hears_source(node, number) {
            return false;
        }
    }
    true
}

fn life_goes_out(alloc: Global, node: &mut Node, number: u16) -> bool {
    let wanted = Outcome::Ticked(0, Some(Seq(64511u16.wrapping_add(number))));
    tick(alloc, node, 2000 * u64::from(number)) == wanted
}

/// Whether each life check goes out.
pub fn lives(alloc: Global, node: &mut Node, count: u16) -> bool {
    for number in 0..count {
        if !life_goes_out(alloc, node, number) {
            return false;
        }
    }
    true
}
