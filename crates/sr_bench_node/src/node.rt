//! A doubly attached node of a PRP network at work.

use crate::works::{Outcome, Subject};
use sr_forwarding::{PrpFraming, Role};
use sr_frame::{Mac, Port};
use sr_node::{Event, Node};
use sr_prp_trailer::Lan;
use std::alloc::Global;

/// The address of the node.
pub const OWN: Mac = Mac([2, 0, 0, 0, 0, 1]);

/// The octets of a frame: addresses, type, 46 of payload, trailer.
const FRAME_LEN: usize = 66;

/// A node, and a frame to it.
#[derive(Drop)]
pub struct NodeAtWork {
    node: Node,
    octets: [u8; FRAME_LEN],
}

/// A frame to the node from a source whose last two octets are 0, with number 0 and the trailer of LAN A.
fn sample() -> [u8; FRAME_LEN] {
    let mut octets = [0; FRAME_LEN];
    octets[..14].copy_from_slice(&[2, 0, 0, 0, 0, 1, 2, 0, 0, 1, 0, 0, 8, 0]);
    octets[FRAME_LEN - 4..].copy_from_slice(&[0xa0, 52, 0x88, 0xfb]);
    octets
}

impl NodeAtWork {
    /// A new node in a role. None where an allocation fails.
    pub fn new(alloc: Global, role: Box<dyn Role + Send>) -> Option<NodeAtWork> {
        Some(NodeAtWork {
            node: Node::new(alloc, role).ok()?,
            octets: sample(),
        })
    }
}

impl Subject for NodeAtWork {
    fn arrive(&mut self, lan: Lan, source: u16, number: u16, now: u64) -> Outcome {
        let (port, mark) = match lan {
            Lan::A => (Port::A, 0xa0),
            Lan::B => (Port::B, 0xb0),
        };
        self.octets[10..12].copy_from_slice(&source.to_be_bytes());
        self.octets[FRAME_LEN - 6..FRAME_LEN - 4].copy_from_slice(&number.to_be_bytes());
        self.octets[FRAME_LEN - 4] = mark;
        let framing = PrpFraming { lan, net: 0 };
        if self.node.arrive(&framing, port, &self.octets, now).is_err() {
            return Outcome::Refused;
        }
        if self.node.front(Port::H).is_none() {
            return Outcome::Old;
        }
        self.node.drop_first(Port::H);
        Outcome::New
    }

    fn tick(&mut self, now: u64) {
        let _ = self.node.step(&Event::Tick { now });
    }
}
