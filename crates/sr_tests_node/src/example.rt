//! The example of docs/PROGRAM.md: the two copies of a frame come in by both LANs, and the host gets it once.

use super::frames::{OTHER, OWN, Sent, octets_of};
use sr_forwarding::{Danp, PrpFraming};
use sr_frame::{Mac, Port};
use sr_node::NodeOf;
use sr_prp_trailer::Lan;
use std::alloc::Global;

/// Whether a node of a PRP network takes two copies of a frame.
fn takes_copies(node: &mut NodeOf<Danp>, on_a: &[u8], on_b: &[u8]) -> bool {
    let lan_a = PrpFraming {
        lan: Lan::A,
        net: 0,
    };
    let lan_b = PrpFraming {
        lan: Lan::B,
        net: 0,
    };
    node.arrive(&lan_a, Port::A, on_a, 0).is_ok() && node.arrive(&lan_b, Port::B, on_b, 3).is_ok()
}

/// Whether the node hands up a frame of this source.
fn hands_up(node: &mut NodeOf<Danp>, src: Mac) -> bool {
    match node.take(Port::H) {
        Some(parcel) => parcel.plain().src == src,
        None => false,
    }
}

/// Whether a node of a PRP network hands up a frame that came in by both LANs once, from this source.
fn is_handed_up_once(alloc: Global, on_a: &[u8], on_b: &[u8], src: Mac) -> bool {
    match NodeOf::new(alloc, Danp::new(OWN)) {
        Ok(mut node) => takes_copies(&mut node, on_a, on_b)
            && hands_up(&mut node, src)
            && node.take(Port::H).is_none(),
        Err(_) => false,
    }
}

#[test]
fn a_frame_of_two_copies_goes_up_once(rt: HostRuntime) {
    let alloc = rt.alloc();
    let is_once = is_handed_up_once(
        alloc,
        &octets_of(Sent::InA(5)),
        &octets_of(Sent::InB(5)),
        OTHER,
    );
    assert!(rt; is_once);
}
