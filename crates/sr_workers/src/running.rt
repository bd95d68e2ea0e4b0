//! One worker.

ghost use Rattle.std.specs.Prelude.{◌≡◌, ◌+◌, ◌<◌, ◌^◌, [], None, MatchBool, MatchOption};
ghost use Rattle.sr_ports.specs.declared.worker.Worker.TheVariants.{Ager};
ghost use Rattle.sr_workers.specs.declared.feed.Turn.TheVariants.{End};
ghost use Rattle.sr_workers.specs.Calls.{Called};
ghost use Rattle.sr_workers.specs.Told.{turns_in};
ghost use Rattle.sr_workers.specs.Posts.{CanTakeOut, HandsBack, MakesTurn, MakesTurns};
ghost use Rattle.sr_workers.specs.Work.{ServesPort, nones_of};
ghost use Rattle.sr_workers.specs.Worked.{Worked, worker_begun, ended};

use crate::post::{Lists, Post, bring};
use crate::taking::drain;
use crate::{Enters, Feed, Kit, Turn, WorkerEnd, WorkerFault};
use sr_forwarding::Framing;
use sr_frame::Port;
use sr_ports::{Log, Worker};
use std::alloc::Global;
use std::sync::Wait;

// The port that a worker serves.
fn port_of(worker: Worker) -> Option<Port>
    ensures port { MatchOption result (worker ≡ Ager) (λ p. ServesPort worker p) }
    ensures once { MatchOption result (nones_of worker 1 ≡ 0) (λ p. nones_of worker 1 ≡ 1) }
{
    match worker {
        Worker::A => Some(Port::A),
        Worker::B => Some(Port::B),
        Worker::C => Some(Port::C),
        Worker::Ager => None,
        Worker::Host => Some(Port::H),
    }
}

// Whether a turn is the feed's end.
fn is_last(turn: Turn) -> bool
    ensures { MatchBool result (turn ≡ End) (turns_in turn ≡ 1) }
{
    match turn {
        Turn::End => true,
        Turn::Frame(_) | Turn::Tick(_) | Turn::Idle => false,
    }
}

// One turn: what the feed hands out is entered, and what waits at the port is given to it. False at the feed's end.
fn one_turn<E: Enters, F: Feed, G: Framing, W: Wait>(
    rt: &W,
    alloc: Global,
    framing: &G,
    post: &mut Post<E, F>,
    lists: &mut Lists,
) -> Result<bool, WorkerFault>
    requires unread { post.old.unread + 1 < 2 ^ 64 }
    requires ready { CanTakeOut post.old lists.old }
    ensures { MakesTurn E.Enters F.Feed (G.meaning framing.now) post.old result post.new lists.new }
{
    let turn = match post.feed.next(rt, &mut lists.incoming) {
        Ok(turn) => turn,
        Err(failed) => return Err(failed.into()),
    };
    if is_last(turn) {
        return Ok(false);
    }
    match bring(rt, alloc, framing, post, turn, &lists.incoming) {
        Ok(()) => {}
        Err(fault) => return Err(fault),
    }
    match port_of(post.seat.worker()) {
        None => Ok(true),
        Some(port) => match drain(rt, framing, port, post, lists) {
            Ok(()) => Ok(true),
            Err(fault) => Err(fault),
        },
    }
}

// So many turns, or fewer where the feed ends or a fault comes.
fn make_turns<E: Enters, F: Feed, G: Framing, W: Wait>(
    rt: &W,
    alloc: Global,
    framing: &G,
    post: &mut Post<E, F>,
    turns: u64,
) -> Result<(), WorkerFault>
    requires unread { post.old.unread ≡ 0 }
    requires held { post.old.held ≡ None }
    ensures { MakesTurns E.Enters F.Feed (G.meaning framing.now) turns post.old result post.new }
{
    let mut lists = match Lists::new(alloc) {
        Ok(lists) => lists,
        Err(refused) => return Err(refused.into()),
    };
    for _turn in 0..turns {
        match one_turn(rt, alloc, framing, post, &mut lists) {
            Ok(true) => {}
            Ok(false) => return Ok(()),
            Err(fault) => return Err(fault),
        }
    }
    Ok(())
}

// What a worker hands back.
fn ended_as<E: Enters, F: Feed>(post: Post<E, F>, fault: Option<WorkerFault>) -> (E, WorkerEnd<F>)
    ensures { HandsBack post fault result.0 result.1 }
{
    let Post {
        seat,
        feed,
        log,
        unread,
        held,
    } = post;
    let end = WorkerEnd {
        feed,
        log,
        unread,
        fault,
        held,
    };
    (seat, end)
}

/// A worker, for so many turns.
///
/// A turn is one `next` of its feed and the event that comes of it: for the host what it sends, else an arrival at the worker's
/// port. Then it takes out what waits at the port, until nothing does, and gives each frame to the feed; the Ager takes nothing
/// out. A frame that the framing does not read is counted as unread, and so is one whose event the node refuses, and each frame
/// of the Ager's feed. A parcel that the framing can't write is lost. The worker ends at the feed's end, after so many turns, or
/// by a fault. No frame is read or written while the node's lock is held.
pub fn run_worker<E: Enters, F: Feed, G: Framing, W: Wait>(
    rt: &W,
    alloc: Global,
    kit: Kit<E, F, G>,
    turns: u64,
) -> (E, WorkerEnd<F>)
    ensures whose { E.whose result.0 ≡ E.whose kit.pass }
    ensures log { result.1.log.worker ≡ E.whose kit.pass }
    ensures name { F.name result.1.feed ≡ F.name kit.feed }
    ensures worked { Worked
        (worker_begun (E.whose kit.pass) (G.meaning kit.framing) turns (E.count kit.pass)
        (F.tells kit.feed) (F.handed kit.feed) (F.asked kit.feed) (F.given kit.feed)
        (F.losses kit.feed) (F.failed kit.feed))
        (ended F.handed F.asked F.given F.losses F.failed F.ended (E.count result.0) result.1) }
    ensures called { Called E.enters (F.tells kit.feed) (E.whose kit.pass) (G.meaning kit.framing)
        result.1.fault kit.pass result.0 (F.handed kit.feed) (F.handed result.1.feed)
        [] result.1.log.pairs.items 0 result.1.unread }
{
    let Kit {
        pass: seat,
        feed,
        framing,
    } = kit;
    let log = Log::new(alloc, seat.worker());
    let mut post = Post {
        seat,
        feed,
        log,
        unread: 0,
        held: None,
    };
    match make_turns(rt, alloc, &framing, &mut post, turns) {
        Ok(()) => ended_as(post, None),
        Err(fault) => ended_as(post, Some(fault)),
    }
}
