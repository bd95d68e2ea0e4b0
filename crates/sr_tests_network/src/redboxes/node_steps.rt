//! One driver for all nodes: it makes a node over a box, takes it through a table of steps, and answers at which step it differs.

use bitflags::Flags;
use sr_forwarding::{Framing, Parcel, Port, Role, RoleKind, framing_at};
use sr_frame::{Frame, Mac};
use sr_node::{Answer, Event, Node, NodeImage, StepFault};
use sr_prp_trailer::Lan;
use sr_redbox::{HsrBox, PrpBox, SanBox};
use std::alloc::Global;

/// The node.
pub const OWN: Mac = Mac([2, 0, 0, 0, 0, 1]);

/// The role of a node; a box at a LAN is one of network 1.
#[derive(Clone, Copy)]
pub enum Kind {
    San,
    Prp(Lan),
    Hsr,
}

/// A frame with 46 zeros behind its type.
#[derive(Clone, Copy)]
pub enum Sent {
    /// Destination and source.
    Plain(Mac, Mac),
    /// With a tag: its path and number.
    Tagged(Mac, Mac, u8, u16),
    /// With a trailer: its number, and the octet with its LAN.
    Trailed(Mac, Mac, u16, u8),
}

/// A step of a node's life, and what it has to come to.
#[derive(Clone, Copy)]
pub enum Step {
    /// A frame comes in at a port and time, and goes to these outlets.
    In(Port, Sent, u64, &'static [Port]),
    /// What waits first at a port goes out as this frame.
    Out(Port, Sent),
    /// So many nodes without redundancy send a group frame at the interlink at time 0, and all that waits is taken out.
    Sans(u16),
    /// The host sends a frame to this destination, which goes out under this number.
    Send(Mac, u64, u16),
    /// Time passes, and so many are proxied no more.
    Tick(u64, usize),
    /// So many such nodes are proxied, in the order in which they sent.
    Proxies(u16),
    /// How many frames of the other LAN came in at a port.
    WrongLan(Port, u64),
}

/// All nodes.
pub const GROUP: Mac = Mac([0xff; 6]);

// A plain frame, and six zeros behind it.
fn plain(dst: Mac, src: Mac) -> [u8; 66] {
    let mut octets = [0u8; 66];
    octets[..6].copy_from_slice(&dst.0);
    octets[6..12].copy_from_slice(&src.0);
    octets[12] = 0x08;
    octets
}

fn tagged(dst: Mac, src: Mac, path: u8, seq: u16) -> [u8; 66] {
    let mut octets = plain(dst, src);
    let [high, low] = seq.to_be_bytes();
    octets[12..20].copy_from_slice(&[0x89, 0x2f, path << 4, 0x34, high, low, 0x08, 0]);
    octets
}

fn trailed(dst: Mac, src: Mac, seq: u16, lan: u8) -> [u8; 66] {
    let mut octets = plain(dst, src);
    let [high, low] = seq.to_be_bytes();
    octets[60..66].copy_from_slice(&[high, low, lan, 0x34, 0x88, 0xfb]);
    octets
}

// The octets of a frame, and how many they are.
fn octets_of(sent: Sent) -> ([u8; 66], usize) {
    match sent {
        Sent::Plain(dst, src) => (plain(dst, src), 60),
        Sent::Tagged(dst, src, path, seq) => (tagged(dst, src, path, seq), 66),
        Sent::Trailed(dst, src, seq, lan) => (trailed(dst, src, seq, lan), 66),
    }
}

fn read(node: &mut Node, port: Port, octets: &[u8], now: u64) -> Result<Answer, StepFault> {
    node.arrive(&framing_at(node.kind(), port), port, octets, now)
}

// The node as data, asked for again where an allocation fails.
fn image_of(node: &Node) -> Option<NodeImage> {
    match node.image() {
        Ok(image) => Some(image),
        Err(_) => node.image().ok(),
    }
}

// Whether this is the node as data.
fn is_image(node: &Node, before: &NodeImage) -> bool {
    match image_of(node) {
        Some(image) => image == *before,
        None => false,
    }
}

// Whether a node is as it was.
fn is_as(node: &Node, before: Option<NodeImage>) -> bool {
    match before {
        Some(before) => is_image(node, &before),
        None => false,
    }
}

// What an event has to come to.
#[derive(Clone, Copy)]
enum Wanted {
    Passed(&'static [Port]),
    Sent(u16),
    // So many are proxied no more.
    Ticked(usize),
}

// What it came to.
#[derive(Clone, Copy, PartialEq, Eq)]
enum Came {
    AsWanted,
    NoMemory,
    Otherwise,
}

fn came_of(call: Result<Answer, StepFault>, wanted: Wanted) -> Came {
    let is_wanted = match (call, wanted) {
        (Ok(Answer::Passed(came)), Wanted::Passed(ports)) => came.as_slice() == ports,
        (Ok(Answer::Sent(seq)), Wanted::Sent(number)) => seq.0 == number,
        (Ok(Answer::Ticked { proxies, .. }), Wanted::Ticked(count)) => proxies == count,
        (Err(StepFault::NoMemory), _) => return Came::NoMemory,
        _ => false,
    };
    if is_wanted {
        Came::AsWanted
    } else {
        Came::Otherwise
    }
}

// A failed allocation is to leave the node as it was.
fn settled(came: Came, is_same: bool) -> Came {
    match came {
        Came::NoMemory if !is_same => Came::Otherwise,
        came => came,
    }
}

// Octets come in. The images are compared each time, so that none is alive where the call's answers part.
fn read_whole(node: &mut Node, port: Port, octets: &[u8], now: u64, wanted: Wanted) -> Came {
    let before = image_of(node);
    let came = came_of(read(node, port, octets, now), wanted);
    settled(came, is_as(node, before))
}

// Octets come in; where an allocation fails, once more.
fn goes_to(node: &mut Node, port: Port, sent: Sent, now: u64, outlets: &'static [Port]) -> bool {
    let (octets, len) = octets_of(sent);
    let octets = &octets[..len.min(66)];
    let wanted = Wanted::Passed(outlets);
    let came = match read_whole(node, port, octets, now, wanted) {
        Came::NoMemory => read_whole(node, port, octets, now, wanted),
        came => came,
    };
    came == Came::AsWanted
}

// A frame of one of many sources goes to these outlets; the node is not compared.
fn goes_to_of_many(node: &mut Node, port: Port, sent: Sent, outlets: &'static [Port]) -> bool {
    let (octets, len) = octets_of(sent);
    let octets = &octets[..len.min(66)];
    let wanted = Wanted::Passed(outlets);
    let came = match came_of(read(node, port, octets, 0), wanted) {
        Came::NoMemory => came_of(read(node, port, octets, 0), wanted),
        came => came,
    };
    came == Came::AsWanted
}

// An event, with the images as above.
fn step_whole(node: &mut Node, event: &Event, wanted: Wanted) -> Came {
    let before = image_of(node);
    let came = came_of(node.step(event), wanted);
    settled(came, is_as(node, before))
}

// An event; where an allocation fails, once more.
fn happens(node: &mut Node, event: &Event, wanted: Wanted) -> bool {
    let came = match step_whole(node, event, wanted) {
        Came::NoMemory => step_whole(node, event, wanted),
        came => came,
    };
    came == Came::AsWanted
}

// A frame of these octets, asked for again where an allocation fails.
fn frame_of(alloc: Global, octets: &[u8]) -> Option<Frame> {
    match Frame::copy(alloc, octets) {
        Ok(frame) => Some(frame),
        Err(_) => Frame::copy(alloc, octets).ok(),
    }
}

fn frame_to(alloc: Global, dst: Mac) -> Option<Frame> {
    let (octets, len) = octets_of(Sent::Plain(dst, OWN));
    frame_of(alloc, &octets[..len.min(66)])
}

// The host sends.
fn sends(alloc: Global, node: &mut Node, dst: Mac, now: u64, number: u16) -> bool {
    match frame_to(alloc, dst) {
        Some(frame) => happens(node, &Event::Send { frame, now }, Wanted::Sent(number)),
        None => false,
    }
}

fn is_written(alloc: Global, kind: RoleKind, port: Port, parcel: &Parcel, octets: &[u8]) -> bool {
    for _ in 0..2u8 {
        let frame = framing_at(kind, port).encode(alloc, parcel);
        if let Ok(frame) = frame {
            return frame.octets() == octets;
        }
    }
    false
}

fn goes_out(alloc: Global, node: &mut Node, port: Port, sent: Sent) -> bool {
    let (octets, len) = octets_of(sent);
    let kind = node.kind();
    match node.take(port) {
        Some(parcel) => is_written(alloc, kind, port, &parcel, &octets[..len.min(66)]),
        None => false,
    }
}

// The address of a node without redundancy.
fn san(number: u16) -> Mac {
    let [high, low] = number.to_be_bytes();
    Mac([4, 0, 0, 0, high, low])
}

// Whether these are the addresses of so many of them, in order.
fn are_sans(addresses: &[(Mac, u64)], count: u16) -> bool {
    addresses
        .iter()
        .map(|entry| entry.0)
        .eq((0..count).map(san))
}

fn proxies(node: &Node, count: u16) -> bool {
    match image_of(node) {
        Some(image) => are_sans(image.role.proxied.addresses(), count),
        None => false,
    }
}

fn sans_send(node: &mut Node, count: u16) -> bool {
    (0..count).all(|number| {
        let sent = Sent::Plain(GROUP, san(number));
        goes_to_of_many(node, Port::C, sent, &[Port::H, Port::A, Port::B])
            && node.take(Port::H).is_some()
            && node.take(Port::A).is_some()
            && node.take(Port::B).is_some()
    })
}

fn holds(alloc: Global, node: &mut Node, step: Step) -> bool {
    match step {
        Step::In(port, sent, now, outlets) => goes_to(node, port, sent, now, outlets),
        Step::Out(port, sent) => goes_out(alloc, node, port, sent),
        Step::Sans(count) => sans_send(node, count),
        Step::Send(dst, now, number) => sends(alloc, node, dst, now, number),
        Step::Tick(now, count) => happens(node, &Event::Tick { now }, Wanted::Ticked(count)),
        Step::Proxies(count) => proxies(node, count),
        Step::WrongLan(port, count) => node.wrong_lan(port) == count,
    }
}

/// The place of the first step at which a node differs.
pub fn differs(alloc: Global, node: &mut Node, steps: &[Step]) -> Option<usize> {
    for (place, step) in steps.iter().enumerate() {
        if !holds(alloc, node, *step) {
            return Some(place);
        }
    }
    None
}

// The place of the first step at which a new node over this role differs; as many as there are where an allocation failed.
fn differs_over(alloc: Global, role: Box<dyn Role + Send>, steps: &[Step]) -> Option<usize> {
    match Node::new(alloc, role) {
        Ok(mut node) => differs(alloc, &mut node, steps),
        Err(_) => Some(steps.len()),
    }
}

fn san_differs(alloc: Global, steps: &[Step]) -> Option<usize> {
    match Box::new(alloc, SanBox::new(alloc, OWN)) {
        Ok(role) => differs_over(alloc, role, steps),
        Err(_) => Some(steps.len()),
    }
}

fn prp_differs(alloc: Global, lan: Lan, steps: &[Step]) -> Option<usize> {
    let role = PrpBox::new(OWN, lan, 1);
    match Box::new(alloc, role) {
        Ok(role) => differs_over(alloc, role, steps),
        Err(_) => Some(steps.len()),
    }
}

fn hsr_differs(alloc: Global, steps: &[Step]) -> Option<usize> {
    let role = HsrBox::new(OWN);
    match Box::new(alloc, role) {
        Ok(role) => differs_over(alloc, role, steps),
        Err(_) => Some(steps.len()),
    }
}

fn differs_at(alloc: Global, kind: Kind, steps: &[Step]) -> Option<usize> {
    match kind {
        Kind::San => san_differs(alloc, steps),
        Kind::Prp(lan) => prp_differs(alloc, lan, steps),
        Kind::Hsr => hsr_differs(alloc, steps),
    }
}

/// The place of the first step at which a new node differs. Where an allocation failed as it was made, it is made again.
pub fn first_wrong(alloc: Global, kind: Kind, steps: &[Step]) -> Option<usize> {
    for _ in 0..4u8 {
        let place = differs_at(alloc, kind, steps);
        if place != Some(steps.len()) {
            return place;
        }
    }
    Some(steps.len())
}
