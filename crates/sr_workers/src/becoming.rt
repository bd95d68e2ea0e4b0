//! What a turn of a feed becomes.

ghost use Rattle.std.specs.Prelude.{◌≡◌, IfOk};
ghost use Rattle.sr_workers.specs.Turns.{Becomes, BecomesFrame, IsReadAt, IsSentAs};

use crate::Turn;
use sr_forwarding::{Framing, ReadFault};
use sr_frame::{Frame, FrameFault, NoMemory, Port};
use sr_node::Event;
use sr_ports::Worker;
use std::alloc::Global;

/// What a turn becomes.
#[derive(Debug, Drop)]
pub(crate) enum Becoming {
    /// An event.
    Event(Event),
    /// A frame of which no event comes.
    Unread,
    /// Nothing was handed out.
    Nothing,
}

// The arrival of octets at a port.
fn arrival<G: Framing>(
    alloc: Global,
    framing: &G,
    port: Port,
    octets: &[u8],
    now: u64,
) -> Result<Becoming, NoMemory>
    ensures { IfOk result (λ b. IsReadAt (G.meaning framing.now) port octets.now now b) }
{
    match framing.decode(alloc, octets) {
        Ok(parcel) => Ok(Becoming::Event(Event::Arrive { port, parcel, now })),
        Err(ReadFault::NoMemory) => Err(NoMemory),
        Err(_) => Ok(Becoming::Unread),
    }
}

// The host's frame.
fn sending(alloc: Global, octets: &[u8], now: u64) -> Result<Becoming, NoMemory>
    ensures { IfOk result (λ b. IsSentAs octets.now now b) }
{
    match Frame::copy(alloc, octets) {
        Ok(frame) => Ok(Becoming::Event(Event::Send { frame, now })),
        Err(FrameFault::NoMemory) => Err(NoMemory),
        Err(_) => Ok(Becoming::Unread),
    }
}

// What becomes of a frame from a worker's feed: an arrival at the worker's port, a send of the host, or unread for the Ager.
fn frame_event<G: Framing>(
    alloc: Global,
    framing: &G,
    worker: Worker,
    octets: &[u8],
    now: u64,
) -> Result<Becoming, NoMemory>
    ensures { IfOk result (λ b. BecomesFrame worker (G.meaning framing.now) octets.now now b) }
{
    match worker {
        Worker::A => arrival(alloc, framing, Port::A, octets, now),
        Worker::B => arrival(alloc, framing, Port::B, octets, now),
        Worker::C => arrival(alloc, framing, Port::C, octets, now),
        Worker::Ager => Ok(Becoming::Unread),
        Worker::Host => sending(alloc, octets, now),
    }
}

/// What a turn becomes. NoMemory: an allocation failed.
pub(crate) fn event_of<G: Framing>(
    alloc: Global,
    framing: &G,
    worker: Worker,
    turn: Turn,
    octets: &[u8],
) -> Result<Becoming, NoMemory>
    ensures { IfOk result (λ b. Becomes worker (G.meaning framing.now) turn octets.now b) }
{
    match turn {
        Turn::Frame(now) => frame_event(alloc, framing, worker, octets, now),
        Turn::Tick(now) => Ok(Becoming::Event(Event::Tick { now })),
        Turn::Idle => Ok(Becoming::Nothing),
        Turn::End => Ok(Becoming::Nothing),
    }
}
