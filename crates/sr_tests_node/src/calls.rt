//! The calls of a node that the steps make. Where an allocation fails, nothing may have changed, and the call is made again.
//!
//! What costs is an owned value that is alive over branches: so each function here has one at most, and answers a plain
//! value. Whatever may want memory twice is a function that answers None for want of it, and its caller asks again.

use super::steps::{Outcome, Told};
use super::ways::{decoded, ended, read};
use sr_forwarding::framing_at;
use sr_frame::{Frame, Mac, Port};
use sr_node::{Answer, Event, MergeFault, Node, NodeImage, StepFault};
use sr_node_table::{Alarm, Status};
use std::alloc::Global;

const NO_MEMORY: Outcome = Outcome::Refused(StepFault::NoMemory);

// Whether a node is as it was. None where an allocation failed.
fn is_still(node: &Node, before: &NodeImage) -> Option<bool> {
    match node.image() {
        Ok(image) => Some(image == *before),
        Err(_) => None,
    }
}

/// Whether a node is as it was. A failed allocation for its image is met by another try.
fn is_as(node: &Node, before: &NodeImage) -> bool {
    match is_still(node, before) {
        Some(is_same) => is_same,
        None => is_still(node, before) == Some(true),
    }
}

// The outcome, where a refusal left the node as it was.
fn unchanged_or(node: &Node, before: &NodeImage, outcome: Outcome) -> Outcome {
    if matches!(outcome, Outcome::Refused(_)) && !is_as(node, before) {
        Outcome::Changed
    } else {
        outcome
    }
}

fn read_from(node: &mut Node, before: &NodeImage, port: Port, octets: &[u8], now: u64) -> Outcome {
    let outcome = read(node, port, octets, now);
    unchanged_or(node, before, outcome)
}

// None where an allocation for the image failed.
fn read_beside(node: &mut Node, port: Port, octets: &[u8], now: u64) -> Option<Outcome> {
    match node.image() {
        Ok(before) => Some(read_from(node, &before, port, octets, now)),
        Err(_) => None,
    }
}

/// Octets come in, and a refusal leaves the node as it was.
fn read_whole(node: &mut Node, port: Port, octets: &[u8], now: u64) -> Outcome {
    match read_beside(node, port, octets, now) {
        Some(outcome) => outcome,
        None => read_beside(node, port, octets, now).unwrap_or(Outcome::Changed),
    }
}

/// Octets come in.
pub fn arrive(node: &mut Node, port: Port, octets: &[u8], now: u64) -> Outcome {
    match read_whole(node, port, octets, now) {
        NO_MEMORY => read_whole(node, port, octets, now),
        outcome => outcome,
    }
}

/// Octets come in, of many: the node is not compared.
pub fn arrive_of_many(node: &mut Node, port: Port, octets: &[u8], now: u64) -> Outcome {
    match read(node, port, octets, now) {
        NO_MEMORY => read(node, port, octets, now),
        outcome => outcome,
    }
}

fn step_from(node: &mut Node, before: &NodeImage, event: &Event) -> Outcome {
    let outcome = ended(node.step(event));
    unchanged_or(node, before, outcome)
}

// None where an allocation for the image failed.
fn step_beside(node: &mut Node, event: &Event) -> Option<Outcome> {
    match node.image() {
        Ok(before) => Some(step_from(node, &before, event)),
        Err(_) => None,
    }
}

/// An event, and a refusal leaves the node as it was.
fn step_whole(node: &mut Node, event: &Event) -> Outcome {
    match step_beside(node, event) {
        Some(outcome) => outcome,
        None => step_beside(node, event).unwrap_or(Outcome::Changed),
    }
}

fn step_again(node: &mut Node, event: &Event) -> Outcome {
    match step_whole(node, event) {
        NO_MEMORY => step_whole(node, event),
        outcome => outcome,
    }
}

fn agreed(checked: Result<(), StepFault>, outcome: Outcome) -> Outcome {
    match (checked, outcome) {
        (Ok(()), Outcome::Refused(_)) => Outcome::Other,
        (Ok(()), outcome) => outcome,
        (Err(fault), Outcome::Refused(same)) if fault == same => outcome,
        (Err(_), _) => Outcome::Other,
    }
}

/// An event, which `check` refuses as `step` does.
fn happens(node: &mut Node, event: &Event) -> Outcome {
    let checked = node.check(event);
    let outcome = step_again(node, event);
    agreed(checked, outcome)
}

/// What taking over came to.
#[derive(Clone, Copy, PartialEq, Eq)]
pub enum Absorbed {
    Whole,
    Refused(MergeFault),
    /// It was refused, and the node is another than it was.
    Changed,
}

fn absorb_from(node: &mut Node, before: &NodeImage, other: &Node) -> Absorbed {
    match node.absorb(other) {
        Ok(()) => Absorbed::Whole,
        Err(fault) if is_as(node, before) => Absorbed::Refused(fault),
        Err(_) => Absorbed::Changed,
    }
}

// None where an allocation for the image failed.
fn absorb_beside(node: &mut Node, other: &Node) -> Option<Absorbed> {
    match node.image() {
        Ok(before) => Some(absorb_from(node, &before, other)),
        Err(_) => None,
    }
}

/// Taking over, and a refusal leaves the node as it was.
fn absorb_whole(node: &mut Node, other: &Node) -> Absorbed {
    match absorb_beside(node, other) {
        Some(absorbed) => absorbed,
        None => absorb_beside(node, other).unwrap_or(Absorbed::Changed),
    }
}

/// Taking over.
pub fn absorb(node: &mut Node, other: &Node) -> Absorbed {
    match absorb_whole(node, other) {
        Absorbed::Refused(MergeFault::NoMemory) => absorb_whole(node, other),
        absorbed => absorbed,
    }
}

fn clone_happens_once(alloc: Global, node: &mut Node, event: &Event) -> Option<Outcome> {
    match event.try_clone(alloc) {
        Ok(clone) => Some(happens(node, &clone)),
        Err(_) => None,
    }
}

/// A clone of the event happens. A failed allocation for it is met by another try.
fn clone_happens(alloc: Global, node: &mut Node, event: &Event) -> Outcome {
    match clone_happens_once(alloc, node, event) {
        Some(outcome) => outcome,
        None => clone_happens_once(alloc, node, event).unwrap_or(Outcome::Other),
    }
}

fn hand_once(
    alloc: Global,
    node: &mut Node,
    port: Port,
    octets: &[u8],
    now: u64,
) -> Option<Outcome> {
    match decoded(alloc, framing_at(node.kind(), port), octets) {
        Some(parcel) => Some(clone_happens(alloc, node, &Event::Arrive { port, parcel, now })),
        None => None,
    }
}

fn clone_ticks(alloc: Global, node: &mut Node, event: &Event) -> Outcome {
    match event.try_clone(alloc) {
        Ok(clone) => happens(node, &clone),
        Err(_) => Outcome::Other,
    }
}

/// What comes of time that passes, told by a clone of the event, which takes no memory.
pub fn tick(alloc: Global, node: &mut Node, now: u64) -> Outcome {
    clone_ticks(alloc, node, &Event::Tick { now })
}

/// Octets are decoded, and come in as an event. A failed allocation for the parcel is met by another try.
pub fn hand(alloc: Global, node: &mut Node, port: Port, octets: &[u8], now: u64) -> Outcome {
    match hand_once(alloc, node, port, octets, now) {
        Some(outcome) => outcome,
        None => hand_once(alloc, node, port, octets, now).unwrap_or(Outcome::Other),
    }
}

/// A frame of zeros behind its addresses, as long as a frame may be.
fn zeros_between(dst: Mac, src: Mac) -> [u8; 1524] {
    let mut octets = [0u8; 1524];
    octets[..6].copy_from_slice(&dst.0);
    octets[6..12].copy_from_slice(&src.0);
    octets[12] = 0x08;
    octets
}

fn send_once(alloc: Global, node: &mut Node, octets: &[u8], now: u64) -> Option<Outcome> {
    match Frame::copy(alloc, octets) {
        Ok(frame) => Some(clone_happens(alloc, node, &Event::Send { frame, now })),
        Err(_) => None,
    }
}

/// The host sends. A failed allocation for the frame itself is met by another try.
pub fn send(alloc: Global, node: &mut Node, dst: Mac, src: Mac, len: usize, now: u64) -> Outcome {
    let octets = zeros_between(dst, src);
    let sent = &octets[..len.min(1524)];
    match send_once(alloc, node, sent, now) {
        Some(outcome) => outcome,
        None => send_once(alloc, node, sent, now).unwrap_or(Outcome::Other),
    }
}

/// What comes of a frame of zeros of this length.
pub fn arrive_zeros(
    node: &mut Node,
    port: Port,
    len: usize,
    first_of_kind: u8,
    now: u64,
) -> Outcome {
    let mut octets = [0u8; 1525];
    octets[12] = first_of_kind;
    arrive(node, port, &octets[..len.min(1525)], now)
}

fn knows_now(node: &Node, wanted: &[Mac]) -> Option<bool> {
    match node.nodes() {
        Ok(nodes) => Some(nodes.as_slice() == wanted),
        Err(_) => None,
    }
}

/// Whether these nodes are known, in this order. A failed allocation is met by another try.
pub fn knows(node: &Node, wanted: &[Mac]) -> bool {
    match knows_now(node, wanted) {
        Some(is_so) => is_so,
        None => knows_now(node, wanted) == Some(true),
    }
}

fn alarmed_now(node: &Node, wanted: &[Alarm]) -> Option<bool> {
    match node.alarms() {
        Ok(alarms) => Some(alarms.as_slice() == wanted),
        Err(_) => None,
    }
}

/// Whether these alarms are kept, in this order. A failed allocation is met by another try.
pub fn alarmed(node: &Node, wanted: &[Alarm]) -> bool {
    match alarmed_now(node, wanted) {
        Some(is_so) => is_so,
        None => alarmed_now(node, wanted) == Some(true),
    }
}

/// What is told of a node: the ages and the numbers at A and B, and the RedBox.
pub fn told_of(node: &Node, mac: Mac) -> Option<Told> {
    let Status {
        if1_age,
        if2_age,
        if1_seq,
        if2_seq,
        redbox,
        ..
    } = node.status(mac)?;
    Some(Told(if1_age, if2_age, if1_seq, if2_seq, redbox))
}

/// What a take by an event gave.
#[derive(Clone, Copy, PartialEq, Eq)]
enum Given {
    Parcel,
    Nothing,
    Other,
}

fn given_by(node: &mut Node, event: &Event) -> Given {
    match node.step(event) {
        Ok(Answer::Taken(Some(_))) => Given::Parcel,
        Ok(Answer::Taken(None)) => Given::Nothing,
        _ => Given::Other,
    }
}

fn given_by_event(alloc: Global, node: &mut Node, event: &Event) -> Given {
    match event.try_clone(alloc) {
        Ok(clone) => given_by(node, &clone),
        Err(_) => Given::Other,
    }
}

/// Whether a take that is handed over as a clone of an event, which takes no memory, gives what is seen.
pub fn takes_by_event(alloc: Global, node: &mut Node, port: Port) -> bool {
    let waiting = node.waiting(port);
    match given_by_event(alloc, node, &Event::Take { port }) {
        Given::Parcel => waiting.checked_sub(1) == Some(node.waiting(port)),
        Given::Nothing => waiting == 0,
        Given::Other => false,
    }
}
