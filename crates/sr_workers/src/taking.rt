//! What a worker takes out of its node.

ghost use Rattle.std.specs.Prelude.{◌≡◌, ◌≤◌, ◌<◌, ◌++◌, ◌∷◌, [], None, vec_len, vec_capacity};
ghost use Rattle.sr_workers.specs.Posts.{CanTakeOut, PutsOut, TakesParcels, none_by};
ghost use Rattle.sr_workers.specs.Work.{ServesPort};

use crate::fault::stop_of;
use crate::post::{Lists, Post};
use crate::{Enters, Feed, FeedFault, WorkerFault};
use sr_forwarding::{Framing, Parcel, want_of_memory_is_no_fault_of_a_parcel};
use sr_frame::{MAX_FRAME_LEN, Port};
use sr_node::{Answer, Event};
use sr_ports::Log;
use std::mem;
use std::sync::Wait;

// Gives a parcel to the feed as the framing writes it. One that the framing can't write is lost.
fn put_out<F: Feed, G: Framing, W: Wait>(
    rt: &W,
    framing: &G,
    feed: &mut F,
    outgoing: &mut Vec<u8>,
    parcel: &Parcel,
) -> Result<(), FeedFault>
    requires { MAX_FRAME_LEN ≤ vec_capacity outgoing.old }
    ensures room { MAX_FRAME_LEN ≤ vec_capacity outgoing.new }
    ensures put { PutsOut F.Feed (G.meaning framing.now) parcel.now feed.old result feed.new }
{
    want_of_memory_is_no_fault_of_a_parcel();
    outgoing.clear();
    match framing.write(outgoing, &parcel.view()) {
        Ok(()) => match feed.give(rt, outgoing) {
            Ok(_) => Ok(()),
            Err(fault) => Err(fault),
        },
        Err(_) => Ok(()),
    }
}

// A copy of a parcel in the spare list, which has room for it.
fn copy_of(parcel: &Parcel, spare: &mut Vec<u8>) -> Parcel
    requires { MAX_FRAME_LEN ≤ vec_capacity spare.old }
    ensures { result ≡ parcel.now }
{
    let alloc = *spare.allocator();
    let list = mem::replace(spare, Vec::new(alloc));
    // What the octets show of their length.
    let _ = parcel.octets();
    let Ok(copy) = parcel.view().to_parcel_in(list) else {
        unreachable!()
    };
    copy
}

// Writes down that nothing waited at the port.
// speed: D-ports-nothing-taken
#[inline(always)]
fn log_nothing(log: &mut Log, port: Port)
    requires { vec_len log.old.pairs < vec_capacity log.old.pairs }
    ensures worker { log.new.worker ≡ log.old.worker }
    ensures pairs { log.new.pairs.items
        ≡ log.old.pairs.items ++ (Event.Take port, Answer.Taken None) ∷ [] }
{
    log.push(Event::Take { port }, Answer::Taken(None));
}

// Takes the next parcel that waits at the port, and gives it to the feed. False where none waits. One that the feed fails to take is
// held.
fn take_one<E: Enters, F: Feed, G: Framing, W: Wait>(
    rt: &W,
    framing: &G,
    port: Port,
    post: &mut Post<E, F>,
    lists: &mut Lists,
) -> Result<bool, WorkerFault>
    requires serves { ServesPort (E.whose post.old.seat) port }
    requires ready { CanTakeOut post.old lists.old }
    ensures { TakesParcels E.Enters F.Feed (G.meaning framing.now) (none_by result) post.old result
        post.new lists.new }
{
    if let Err(refused) = post.log.reserve() {
        return Err(refused.into());
    }
    let answer = match post.seat.enter(rt, &Event::Take { port }) {
        Ok(answer) => answer,
        Err(refused) => {
            let Some(fault) = stop_of(refused) else {
                unreachable!()
            };
            return Err(fault);
        }
    };
    match answer {
        Answer::Taken(Some(parcel)) => {
            match put_out(rt, framing, &mut post.feed, &mut lists.outgoing, &parcel) {
                Ok(()) => {
                    post.log
                        .push(Event::Take { port }, Answer::Taken(Some(parcel)));
                    Ok(true)
                }
                Err(failed) => {
                    let copy = copy_of(&parcel, &mut lists.spare);
                    post.log
                        .push(Event::Take { port }, Answer::Taken(Some(parcel)));
                    post.held = Some(copy);
                    Err(failed.into())
                }
            }
        }
        Answer::Taken(None) => {
            log_nothing(&mut post.log, port);
            Ok(false)
        }
        _ => unreachable!(),
    }
}

/// Takes and gives until nothing waits at the port.
pub(crate) fn drain<E: Enters, F: Feed, G: Framing, W: Wait>(
    rt: &W,
    framing: &G,
    port: Port,
    post: &mut Post<E, F>,
    lists: &mut Lists,
) -> Result<(), WorkerFault>
    requires serves { ServesPort (E.whose post.old.seat) port }
    requires ready { CanTakeOut post.old lists.old }
    ensures { TakesParcels E.Enters F.Feed (G.meaning framing.now) 1 post.old result post.new
        lists.new }
{
    for _ in rt.forever() {
        match take_one(rt, framing, port, post, lists) {
            Ok(true) => {}
            Ok(false) => return Ok(()),
            Err(fault) => return Err(fault),
        }
    }
    unreachable!()
}
