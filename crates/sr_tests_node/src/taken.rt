//! What is taken out of a node.

use super::frames::{Sent, life_check, octets_of, plain_form, untagged_form};
use super::steps::Taken;
use super::ways::goes_as;
use sr_forwarding::{Parcel, PortFraming, framing_at};
use sr_frame::Port;
use sr_node::Node;
use sr_sequence::Seq;
use std::alloc::Global;

// The number, the path, and whether the LAN was wrong.
fn is_marked(parcel: &Parcel, seq: u16, path: u8, wrong_lan: bool) -> bool {
    parcel.seq() == Some(Seq(seq)) && parcel.path() == path && parcel.wrong_lan() == wrong_lan
}

fn goes_plainly(alloc: Global, framing: PortFraming, parcel: &Parcel, sent: Sent) -> bool {
    goes_as(alloc, framing, parcel, plain_form(&octets_of(sent)))
}

fn goes_whole(alloc: Global, framing: PortFraming, parcel: &Parcel, sent: Sent) -> bool {
    goes_as(alloc, framing, parcel, &octets_of(sent))
}

fn goes_untagged(alloc: Global, framing: PortFraming, parcel: &Parcel, sent: Sent) -> bool {
    goes_as(
        alloc,
        framing,
        parcel,
        untagged_form(octets_of(sent)).as_slice(),
    )
}

// The life check names the LAN of the port.
fn goes_as_life_check(
    alloc: Global,
    framing: PortFraming,
    parcel: &Parcel,
    port: Port,
    seq: u16,
    life_seq: u16,
) -> bool {
    let lan = if port == Port::A { 0xa0 } else { 0xb0 };
    goes_as(
        alloc,
        framing,
        parcel,
        life_check(seq, life_seq, lan).as_slice(),
    )
}

fn is_as_wanted(
    alloc: Global,
    framing: PortFraming,
    port: Port,
    parcel: &Parcel,
    wanted: Taken,
) -> bool {
    match wanted {
        Taken::Nothing => false,
        Taken::Something => true,
        Taken::Plain(sent, seq, path, wrong_lan) => {
            goes_plainly(alloc, framing, parcel, sent) && is_marked(parcel, seq, path, wrong_lan)
        }
        Taken::Whole(sent) => goes_whole(alloc, framing, parcel, sent) && parcel.seq().is_none(),
        Taken::As(sent) => goes_whole(alloc, framing, parcel, sent),
        Taken::Untagged(sent) => goes_untagged(alloc, framing, parcel, sent),
        Taken::Life(seq, life_seq) => goes_as_life_check(
            alloc, framing, parcel, port, seq, life_seq,
        ),
    }
}

/// Whether what is taken out is as wanted, and was seen before.
pub fn takes(alloc: Global, node: &mut Node, port: Port, wanted: Taken) -> bool {
    let framing = framing_at(node.kind(), port);
    let seen = node.front(port).is_some();
    match node.take(port) {
        None => !seen && matches!(wanted, Taken::Nothing),
        Some(parcel) => seen && is_as_wanted(alloc, framing, port, &parcel, wanted),
    }
}
