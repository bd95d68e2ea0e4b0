//! A worker at work, and what it brings to its node.

ghost use Rattle.std.specs.Prelude.{◌+◌, ◌<◌, ◌^◌, IfOk};
ghost use Rattle.sr_workers.specs.Posts.{BringsTurn, EntersEvent, HasFrameRoom};

use crate::becoming::{Becoming, event_of};
use crate::fault::stop_of;
use crate::{Enters, Feed, Turn, WorkerFault};
use sr_forwarding::{Framing, Parcel};
use sr_frame::{MAX_FRAME_LEN, NoMemory};
use sr_node::Event;
use sr_ports::Log;
use std::alloc::Global;
use std::sync::Wait;

/// What of a worker changes as it works.
#[derive(Drop)]
pub(crate) struct Post<E: Drop, F: Drop> {
    pub seat: E,
    pub feed: F,
    pub log: Log,
    /// How much its feed handed out of which no event was entered.
    pub unread: u64,
    /// The parcel that it took out last, where its feed failed to take it.
    pub held: Option<Parcel>,
}

/// The lists for octets that a worker keeps for all its turns.
#[derive(Drop)]
pub(crate) struct Lists {
    /// What the feed hands out.
    pub incoming: Vec<u8>,
    /// What the feed is given.
    pub outgoing: Vec<u8>,
    /// The octets of a parcel that the feed fails to take.
    pub spare: Vec<u8>,
}

impl Lists {
    /// Lists with room for a frame each, but for those of the feed.
    pub(crate) fn new(alloc: Global) -> Result<Lists, NoMemory>
        ensures { IfOk result (λ l. HasFrameRoom l) }
    {
        let outgoing = Vec::with_capacity(alloc, MAX_FRAME_LEN)?;
        let spare = Vec::with_capacity(alloc, MAX_FRAME_LEN)?;
        Ok(Lists {
            incoming: Vec::new(alloc),
            outgoing,
            spare,
        })
    }
}

// Enters the event and writes it down. False where the node refuses it.
fn enter_logged<E: Enters, F: Feed, W: Wait>(
    rt: &W,
    post: &mut Post<E, F>,
    event: Event,
) -> Result<bool, WorkerFault>
    ensures { EntersEvent E.Enters event post.old result post.new }
{
    if let Err(refused) = post.log.reserve() {
        return Err(refused.into());
    }
    match post.seat.enter(rt, &event) {
        Ok(answer) => {
            post.log.push(event, answer);
            Ok(true)
        }
        Err(fault) => match stop_of(fault) {
            Some(fault) => Err(fault),
            None => Ok(false),
        },
    }
}

/// Enters what a turn of the feed becomes. A frame that is not read is counted, and so is an event that the node refuses.
pub(crate) fn bring<E: Enters, F: Feed, G: Framing, W: Wait>(
    rt: &W,
    alloc: Global,
    framing: &G,
    post: &mut Post<E, F>,
    turn: Turn,
    octets: &[u8],
) -> Result<(), WorkerFault>
    requires { post.old.unread + 1 < 2 ^ 64 }
    ensures { BringsTurn E.Enters (G.meaning framing.now) turn octets.now post.old result post.new }
{
    let worker = post.seat.worker();
    let event = match event_of(alloc, framing, worker, turn, octets) {
        Ok(Becoming::Event(event)) => event,
        Ok(Becoming::Unread) => {
            post.unread += 1;
            return Ok(());
        }
        Ok(Becoming::Nothing) => return Ok(()),
        Err(refused) => return Err(refused.into()),
    };
    match enter_logged(rt, post, event) {
        Ok(true) => Ok(()),
        Ok(false) => {
            post.unread += 1;
            Ok(())
        }
        Err(fault) => Err(fault),
    }
}
