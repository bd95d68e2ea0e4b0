//! Octets at the ports of nodes of each role.

use crate::digest::Digest;
use crate::scripts::settings_of;
use bitflags::Flags;
use sr_forwarding::{Danh, Danp, Framing, Outlets, Parcel, ReadFault, Role, RoleKind, framing_at};
use sr_frame::{Frame, FrameFault, Mac, Port};
use sr_node::{Answer, Event, Node, StepFault};
use sr_prp_trailer::Lan;
use sr_redbox::{HsrBox, PrpBox, SanBox};
use std::alloc::Global;

/// The node.
const OWN: Mac = Mac([2, 0, 0, 0, 0, 1]);

/// The most octets that an event has.
const MAX_OCTETS: usize = 1600;

/// How many parcels an outbox holds.
const MAX_WAITING: u16 = 256;

fn arrive(node: &mut Node, port: Port, octets: &[u8], now: u64) -> Result<Answer, StepFault> {
    node.arrive(&framing_at(node.kind(), port), port, octets, now)
}

/// A parcel as the port writes it.
fn encoded(alloc: Global, kind: RoleKind, port: Port, parcel: &Parcel) -> Result<Frame, ReadFault> {
    framing_at(kind, port).encode(alloc, parcel)
}

/// Puts an answer in.
fn put_answer(digest: &mut Digest, answer: &Answer) {
    match answer {
        Answer::Own => digest.put_octet(1),
        Answer::Passed(ports) => {
            for port in ports.as_slice() {
                digest.put_octet(0x10 | Outlets::only(*port).bits());
            }
        }
        Answer::Sent(seq) => digest.put_number(u64::from(seq.0)),
        Answer::Ticked {
            sources,
            nodes,
            proxies,
            life,
        } => {
            digest.put_number(*sources as u64);
            digest.put_number(*nodes as u64);
            digest.put_number(*proxies as u64);
            digest.put_octet(u8::from(life.is_some()));
        }
        Answer::Taken(_) => digest.put_octet(2),
    }
}

/// Puts in what a call came to. False where an allocation failed.
fn put_outcome(digest: &mut Digest, outcome: Result<Answer, StepFault>) -> bool {
    let fault = match outcome {
        Ok(answer) => {
            put_answer(digest, &answer);
            return true;
        }
        Err(fault) => fault,
    };
    match fault {
        StepFault::Reading(_) => digest.put_octet(3),
        StepFault::Untagged => digest.put_octet(4),
        StepFault::TableFull => digest.put_octet(5),
        StepFault::OutboxFull(_) => digest.put_octet(6),
        StepFault::NoMemory => return false,
    }
    true
}

/// Puts a parcel in, as it goes out. False where an allocation failed.
fn put_parcel(
    alloc: Global,
    kind: RoleKind,
    port: Port,
    parcel: &Parcel,
    digest: &mut Digest,
) -> bool {
    match encoded(alloc, kind, port, parcel) {
        Ok(frame) => {
            digest.put(frame.octets());
            true
        }
        Err(ReadFault::NoMemory) => false,
        Err(_) => {
            digest.put_octet(7);
            true
        }
    }
}

/// Takes out the first parcel that waits at an outlet. None: there is none; false where an allocation failed.
fn take_first(
    alloc: Global,
    node: &mut Node,
    kind: RoleKind,
    port: Port,
    digest: &mut Digest,
) -> Option<bool> {
    match node.take(port) {
        Some(parcel) => Some(put_parcel(alloc, kind, port, &parcel, digest)),
        None => None,
    }
}

/// Takes out what waits at an outlet. False where an allocation failed.
fn take_all(alloc: Global, node: &mut Node, port: Port, digest: &mut Digest) -> bool {
    let kind = node.kind();
    for _ in 0..MAX_WAITING {
        match take_first(alloc, node, kind, port, digest) {
            Some(true) => {}
            Some(false) => return false,
            None => return true,
        }
    }
    true
}

/// The host sends a frame. False where an allocation failed.
fn send(alloc: Global, node: &mut Node, octets: &[u8], now: u64, digest: &mut Digest) -> bool {
    match Frame::copy(alloc, octets) {
        Ok(frame) => put_outcome(digest, node.step(&Event::Send { frame, now })),
        Err(FrameFault::NoMemory) => false,
        Err(_) => {
            digest.put_octet(8);
            true
        }
    }
}

/// An event, or all that waits is taken out. False where an allocation failed.
fn happens(
    alloc: Global,
    node: &mut Node,
    kind: u8,
    octets: &[u8],
    now: u64,
    digest: &mut Digest,
) -> bool {
    match kind % 8 {
        0 | 1 => put_outcome(digest, arrive(node, Port::A, octets, now)),
        2 => put_outcome(digest, arrive(node, Port::B, octets, now)),
        3 => put_outcome(digest, arrive(node, Port::C, octets, now)),
        4 => send(alloc, node, octets, now, digest),
        5 => put_outcome(digest, node.step(&Event::Tick { now })),
        6 => take_all(alloc, node, Port::H, digest),
        _ => {
            take_all(alloc, node, Port::A, digest)
                && take_all(alloc, node, Port::B, digest)
                && take_all(alloc, node, Port::C, digest)
        }
    }
}

/// Puts in which nodes a node knows. False where an allocation failed.
fn put_nodes(node: &Node, digest: &mut Digest) -> bool {
    match node.nodes() {
        Ok(nodes) => {
            for mac in nodes.iter() {
                digest.put(mac.0.as_slice());
            }
            true
        }
        Err(_) => false,
    }
}

/// Puts in how many alarms a node keeps. False where an allocation failed.
fn put_alarms(node: &Node, digest: &mut Digest) -> bool {
    match node.alarms() {
        Ok(alarms) => {
            digest.put_number(alarms.len() as u64);
            true
        }
        Err(_) => false,
    }
}

/// Goes through events. Each has a kind, a time from the one before, and the number of its octets: one, one and two octets.
fn happen(alloc: Global, node: &mut Node, events: &[u8], begin: u64, digest: &mut Digest) -> bool {
    let mut now = begin;
    let mut rest = events;
    for _ in 0..events.len() {
        let [kind, step, low, high, behind @ ..] = rest else {
            return true;
        };
        now = now.saturating_add(u64::from(*step) << (*kind >> 5));
        let len = u16::from_le_bytes([*low, *high]) as usize % MAX_OCTETS;
        let (octets, behind) = behind.split_at(len.min(behind.len()));
        rest = behind;
        if !happens(alloc, node, *kind, octets, now, digest) {
            return false;
        }
    }
    true
}

/// When the events begin: at 0, or a minute and a half before the end of all time.
fn begin_of(choice: u8) -> u64 {
    if choice & 0x20 == 0 {
        0
    } else {
        u64::MAX - 90_000
    }
}

/// What comes of events at this node. None where an allocation failed.
fn come_of_events(alloc: Global, node: &mut Node, events: &[u8], begin: u64) -> Option<Digest> {
    let mut digest = Digest::new();
    if happen(alloc, node, events, begin, &mut digest)
        && put_nodes(node, &mut digest)
        && put_alarms(node, &mut digest)
    {
        Some(digest)
    } else {
        None
    }
}

/// What comes of events at a new node of this role. None where an allocation failed.
fn over(alloc: Global, role: Box<dyn Role + Send>, choice: u8, events: &[u8]) -> Option<Digest> {
    match Node::with(alloc, role, settings_of(choice)) {
        Ok(mut node) => come_of_events(alloc, &mut node, events, begin_of(choice)),
        Err(_) => None,
    }
}

fn at_danp(alloc: Global, choice: u8, events: &[u8]) -> Option<Digest> {
    match Box::new(alloc, Danp::new(OWN)) {
        Ok(role) => over(alloc, role, choice, events),
        Err(_) => None,
    }
}

fn at_danh(alloc: Global, choice: u8, events: &[u8]) -> Option<Digest> {
    match Box::new(alloc, Danh::new(OWN)) {
        Ok(role) => over(alloc, role, choice, events),
        Err(_) => None,
    }
}

fn at_san(alloc: Global, choice: u8, events: &[u8]) -> Option<Digest> {
    match Box::new(alloc, SanBox::new(alloc, OWN)) {
        Ok(role) => over(alloc, role, choice, events),
        Err(_) => None,
    }
}

fn at_prp(alloc: Global, choice: u8, events: &[u8]) -> Option<Digest> {
    match Box::new(alloc, PrpBox::new(OWN, Lan::A, 1)) {
        Ok(role) => over(alloc, role, choice, events),
        Err(_) => None,
    }
}

fn at_hsr(alloc: Global, choice: u8, events: &[u8]) -> Option<Digest> {
    match Box::new(alloc, HsrBox::new(OWN)) {
        Ok(role) => over(alloc, role, choice, events),
        Err(_) => None,
    }
}

/// What comes of events at a node: the first octet names the node. None where an allocation failed.
pub fn come_of(alloc: Global, octets: &[u8]) -> Option<Digest> {
    let [choice, events @ ..] = octets else {
        return Some(Digest::new());
    };
    match *choice % 5 {
        0 => at_danp(alloc, *choice, events),
        1 => at_danh(alloc, *choice, events),
        2 => at_san(alloc, *choice, events),
        3 => at_prp(alloc, *choice, events),
        _ => at_hsr(alloc, *choice, events),
    }
}
