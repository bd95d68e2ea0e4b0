//! What is taken, and how often it was.

use crate::ways::Entered;
use sr_forwarding::{Framing, Parcel, PrpFraming, ReadFault};
use sr_frame::{Frame, Port};
use sr_node::Event;
use sr_ports::Segment;
use sr_prp_trailer::Lan;
use std::alloc::Global;
use std::sync::ledger::Ledger;

/// The octets of a frame: addresses, type, 46 of payload, trailer.
const FRAME_LEN: usize = 66;

/// The last two octets of the first other node's address; those of the node are 1.
const FIRST_OTHER: u16 = 2;

/// What is taken each time.
#[derive(Clone, Copy, Debug)]
pub enum Work {
    /// A frame comes in, and the host takes it out.
    Frame,
    /// The host sends a frame, and each LAN takes it out.
    Send,
    /// Time passes. No life check is sent but the first time.
    Tick,
    /// A parcel is asked for where none waits.
    Take,
}

/// What is entered before a journal is closed.
#[derive(Clone, Copy, Debug)]
pub enum Before {
    /// So many ticks.
    Ticks(u32),
    /// A frame of each of so many nodes, and that the host takes it out.
    Nodes(u32),
}

/// The work of this name.
pub fn work_of(name: &str) -> Option<Work> {
    match name {
        "frame" => Some(Work::Frame),
        "send" => Some(Work::Send),
        "tick" => Some(Work::Tick),
        "take" => Some(Work::Take),
        _ => None,
    }
}

/// What takes events.
pub trait Subject {
    /// Takes an event. Whether it was answered.
    fn take(&mut self, event: &Event) -> bool;
}

/// The frame of another node to the node under this number, from LAN A.
fn parcel_of(alloc: Global, source: u16, number: u16) -> Result<Parcel, ReadFault> {
    let mut octets = [0; FRAME_LEN];
    let [front, last] = source.to_be_bytes();
    octets[..14].copy_from_slice(&[2, 0, 0, 0, 0, 1, 2, 0, 0, 0, front, last, 8, 0]);
    let [high, low] = number.to_be_bytes();
    octets[FRAME_LEN - 6..].copy_from_slice(&[high, low, 0xa0, 52, 0x88, 0xfb]);
    let framing = PrpFraming {
        lan: Lan::A,
        net: 0,
    };
    framing.decode(alloc, &octets)
}

/// A frame of the node to another one, without a trailer.
fn frame_of(alloc: Global) -> Option<Frame> {
    let mut octets = [0; FRAME_LEN - 6];
    octets[..14].copy_from_slice(&[2, 0, 0, 0, 0, 2, 2, 0, 0, 0, 0, 1, 8, 0]);
    Frame::copy(alloc, &octets).ok()
}

/// The frame of another node comes in under this number. None where an allocation failed.
fn arrival_of(alloc: Global, source: u16, number: u16) -> Option<Event> {
    Some(Event::Arrive {
        port: Port::A,
        parcel: parcel_of(alloc, source, number).ok()?,
        now: 0,
    })
}

/// The first event of this work. None where an allocation failed.
fn event_of(alloc: Global, work: Work, number: u16) -> Option<Event> {
    match work {
        Work::Frame => arrival_of(alloc, FIRST_OTHER, number),
        Work::Send => Some(Event::Send {
            frame: frame_of(alloc)?,
            now: 0,
        }),
        Work::Tick => Some(Event::Tick { now: 0 }),
        Work::Take => Some(Event::Take { port: Port::C }),
    }
}

/// Takes out what waits at a port. How many events were answered.
fn taken<S: Subject>(subject: &mut S, port: Port) -> u64 {
    u64::from(subject.take(&Event::Take { port }))
}

/// Does a work once more. How many events were answered.
fn once<S: Subject>(subject: &mut S, work: Work, event: &Event) -> u64 {
    let first = u64::from(subject.take(event));
    match work {
        Work::Frame => first.saturating_add(taken(subject, Port::H)),
        Work::Send => {
            let second = taken(subject, Port::A);
            first
                .saturating_add(second)
                .saturating_add(taken(subject, Port::B))
        }
        Work::Tick | Work::Take => first,
    }
}

/// Has a subject do this work so many times. How many events were answered, or None where an allocation beside them failed.
pub fn done<S: Subject>(alloc: Global, subject: &mut S, work: Work, times: u32) -> Option<u64> {
    let mut count: u64 = 0;
    for time in 0..times {
        let event = event_of(alloc, work, (time % 65536) as u16)?;
        count = count.saturating_add(once(subject, work, &event));
    }
    Some(count)
}

/// Closes the journal so many times. None where an allocation failed.
fn segments_of<L: Ledger>(
    alloc: Global,
    subject: &mut Entered<L>,
    times: u32,
) -> Option<Vec<Segment>> {
    let mut segments = Vec::new(alloc);
    for _ in 0..times {
        let segment = subject.rotate().ok()?;
        segments.reserve(1).ok()?;
        segments.push_reserved(segment);
    }
    Some(segments)
}

/// Has a subject take a frame of each of so many nodes. How many events were answered.
fn heard<S: Subject>(alloc: Global, subject: &mut S, nodes: u32) -> Option<u64> {
    let mut count: u64 = 0;
    for node in 0..nodes {
        let event = arrival_of(alloc, FIRST_OTHER + (node % 65000) as u16, 0)?;
        count = count.saturating_add(once(subject, Work::Frame, &event));
    }
    Some(count)
}

/// Has a subject enter this and then close its journal so many times. How many events were answered.
pub fn rotated<L: Ledger>(
    alloc: Global,
    subject: &mut Entered<L>,
    before: Before,
    times: u32,
) -> Option<u64> {
    let count = match before {
        Before::Ticks(ticks) => done(alloc, subject, Work::Tick, ticks)?,
        Before::Nodes(nodes) => heard(alloc, subject, nodes)?,
    };
    drop(segments_of(alloc, subject, times)?);
    Some(count)
}
