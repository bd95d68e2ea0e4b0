//! Runs of threaded networks, and what is looked for in them.

use crate::host::Host;
use sr_forwarding::{OwnRole, Port, PortFraming, Routing, framing_at};
use sr_frame::{Frame, Mac};
use sr_lines::Line;
use sr_node::{Answer, Event, NodeOf};
use sr_plant_script::{Member, MemberRouting};
use sr_ports::{Log, Settlement, Worker};
use sr_sequence::Seq;
use sr_threaded::{NetworkFault, NodeEnd, NodeKit, run_ring, run_twin};
use sr_threaded_script::ThreadedNet;
use std::alloc::Global;
use std::process::Abort;
use std::sync::atomic::{AtomicU64, Ordering};
use std::sync::{Arc, Wait};
use std::test::*;
use std::thread::Threads;

/// A step of a test.
#[derive(Clone, Copy)]
pub(super) enum Step {
    /// A network of so many nodes settles, and hands up what its first node sends at most once at each other; in one of so many runs
    /// all others hand it up. The first run has so many turns. Each further one has twice as many as the one before, up to 40,000,
    /// since on a busy machine the workers of a port may have made all their turns before the frame is sent.
    All(ThreadedNet, u8, u64, u32),
    /// A network of so many nodes and turns settles.
    Each(ThreadedNet, u8, u64),
    /// A network of so many nodes is refused.
    Refused(ThreadedNet, u8),
}

/// How the hosts of the first two nodes wait for each other in their first turn, and whether one did in vain.
#[derive(Drop)]
pub(super) struct Meeting {
    // How often a host looks; a host that never looks does not wait.
    looks: u64,
    // How many hosts were asked.
    asked: Arc<AtomicU64>,
    // How many waited in vain.
    missed: Arc<AtomicU64>,
}

const GROUP_FRAME: [u8; 15] = [
    0xff, 0xff, 0xff, 0xff, 0xff, 0xff, 2, 0, 0, 0, 0, 0, 0x88, 0xb5, 1,
];

// So many turns are not doubled.
const MANY_TURNS: u64 = 40_000;

// How often a host looks whether the other was asked.
const LOOKS: u64 = 100_000_000;

// What a run shows.
#[derive(Clone, Copy)]
struct Seen {
    well: bool,
    all: bool,
}

/// A meeting at which hosts look so often.
pub(super) fn meeting_of(alloc: Global, looks: u64) -> Option<Meeting> {
    let asked = Arc::new(alloc, AtomicU64::new(0)).ok()?;
    let missed = Arc::new(alloc, AtomicU64::new(0)).ok()?;
    Some(Meeting {
        looks,
        asked,
        missed,
    })
}

fn host_of(alloc: Global, number: u8, meeting: &Meeting) -> Option<Host> {
    let asked = Arc::try_clone(&meeting.asked).ok()?;
    let missed = Arc::try_clone(&meeting.missed).ok()?;
    let frame = if number == 0 {
        Some(Frame::copy(alloc, &GROUP_FRAME).ok()?)
    } else {
        None
    };
    Some(Host {
        frame,
        asked,
        until: 2,
        looks: if number < 2 { meeting.looks } else { 0 },
        missed,
        begun: false,
        given: 0,
    })
}

// Where frames go at a node.
fn routing_of(net: ThreadedNet) -> MemberRouting {
    match net {
        ThreadedNet::Ring => MemberRouting::Danh,
        ThreadedNet::TwinLan => MemberRouting::Danp,
    }
}

fn kit_of(
    alloc: Global,
    net: ThreadedNet,
    number: u8,
    meeting: &Meeting,
) -> Option<NodeKit<Member, PortFraming, Host>> {
    let feed = host_of(alloc, number, meeting)?;
    let routing = routing_of(net);
    let kind = routing.kind();
    let role = OwnRole::of(Mac([2, 0, 0, 0, 0, number]), routing);
    match NodeOf::new(alloc, role) {
        Ok(node) => Some(NodeKit {
            node,
            a: framing_at(kind, Port::A),
            b: framing_at(kind, Port::B),
            host: framing_at(kind, Port::H),
            feed,
        }),
        Err(_) => None,
    }
}

/// What so many nodes begin with, of which the first sends a frame. None where an allocation failed.
pub(super) fn kits_of(
    alloc: Global,
    net: ThreadedNet,
    count: u8,
    meeting: &Meeting,
) -> Option<Vec<NodeKit<Member, PortFraming, Host>>> {
    let mut kits = Vec::new(alloc);
    for number in 0..count {
        match kit_of(alloc, net, number, meeting) {
            Some(kit) => kits.push(kit).ok()?,
            None => return None,
        }
    }
    Some(kits)
}

// How many frames the host of a node was given.
fn given_to(end: &NodeEnd<Host>) -> u64 {
    match end.ends.last() {
        Some(last) => match &last.line {
            Line::Host(host) => host.given,
            _ => 9,
        },
        None => 9,
    }
}

fn is_first_send(pair: &(Event, Answer)) -> bool {
    match &pair.1 {
        Answer::Sent(number) => *number == Seq(64511),
        _ => false,
    }
}

fn has_sent(logs: &[Log]) -> bool {
    for log in logs {
        for pair in log.pairs.as_slice() {
            if log.worker == Worker::Host && is_first_send(pair) {
                return true;
            }
        }
    }
    false
}

fn are_long(logs: &[Log], turns: u64) -> bool {
    for log in logs {
        if (log.pairs.len() as u64) < turns {
            return false;
        }
    }
    logs.len() == 3
}

fn are_whole(end: &NodeEnd<Host>) -> bool {
    for one in end.ends.as_slice() {
        if one.fault.is_some() || one.held.is_some() || one.unread > 0 {
            return false;
        }
    }
    end.ends.len() == 3
}

// Whether all is well with a node's end.
fn is_well(end: &NodeEnd<Host>, number: usize, turns: u64) -> bool {
    let most = if number == 0 { 0 } else { 1 };
    let sends = number == 0 && turns > 0;
    end.settlement == Settlement::Settled
        && are_long(end.logs.as_slice(), turns)
        && are_whole(end)
        && has_sent(end.logs.as_slice()) == sends
        && given_to(end) <= most
        && end.lost == 0
}

fn look(ends: &[NodeEnd<Host>], turns: u64) -> Seen {
    let mut well = true;
    let mut all = true;
    for (number, end) in ends.iter().enumerate() {
        well = well && is_well(end, number, turns);
        all = all && (number == 0 || given_to(end) == 1);
    }
    Seen { well, all }
}

fn look_at(
    ran: Result<Vec<NodeEnd<Host>>, NetworkFault>,
    turns: u64,
) -> Result<Seen, NetworkFault> {
    match ran {
        Ok(ends) => {
            let seen = look(ends.as_slice(), turns);
            drop(ends);
            Ok(seen)
        }
        Err(fault) => Err(fault),
    }
}

/// Runs what nodes begin with for so many turns.
pub(super) fn run_kits<W: Threads + Wait + Sync>(
    rt: &W,
    alloc: Global,
    net: ThreadedNet,
    kits: Vec<NodeKit<Member, PortFraming, Host>>,
    turns: u64,
) -> Result<Vec<NodeEnd<Host>>, NetworkFault> {
    match net {
        ThreadedNet::Ring => run_ring(rt, alloc, kits, turns),
        ThreadedNet::TwinLan => run_twin(rt, alloc, kits, turns),
    }
}

// Runs a network. None where an allocation failed in the making, or where a host waited in vain.
fn run<W: Threads + Wait + Sync>(
    rt: &W,
    alloc: Global,
    net: ThreadedNet,
    count: u8,
    turns: u64,
) -> Option<Result<Seen, NetworkFault>> {
    let meeting = meeting_of(alloc, LOOKS)?;
    match kits_of(alloc, net, count, &meeting) {
        Some(kits) => {
            let seen = look_at(run_kits(rt, alloc, net, kits, turns), turns);
            if meeting.missed.load(Ordering::SeqCst) > 0 {
                return None;
            }
            Some(seen)
        }
        None => None,
    }
}

// How many turns the next run has.
fn more_turns(turns: u64) -> u64 {
    if turns < MANY_TURNS {
        turns.saturating_mul(2)
    } else {
        turns
    }
}

// A run in whose making an allocation failed, or in which a host waited in vain, counts as one that did not hand it up.
fn all_hand_up<W: Threads + Wait + Sync>(
    rt: &W,
    alloc: Global,
    net: ThreadedNet,
    count: u8,
    turns: u64,
    runs: u32,
) -> bool {
    let mut turns = turns;
    for _ in 0..runs {
        match run(rt, alloc, net, count, turns) {
            Some(Ok(seen)) => {
                if !seen.well {
                    return false;
                }
                if seen.all {
                    return true;
                }
            }
            Some(Err(_)) => return false,
            None => {}
        }
        turns = more_turns(turns);
    }
    false
}

fn holds<W: Threads + Wait + Sync>(rt: &W, alloc: Global, step: Step) -> bool {
    match step {
        Step::All(net, count, turns, runs) => { all_hand_up(rt, alloc, net, count, turns, runs) }
        Step::Each(net, count, turns) => match run(rt, alloc, net, count, turns) {
            Some(Ok(seen)) => seen.well,
            _ => false,
        },
        Step::Refused(net, count) => match run(rt, alloc, net, count, 1) {
            Some(Err(fault)) => fault == NetworkFault::Size,
            _ => false,
        },
    }
}

// The place of the first step that does not hold.
fn first_wrong<W: Threads + Wait + Sync>(rt: &W, alloc: Global, steps: &[Step]) -> Option<usize> {
    for (place, step) in steps.iter().enumerate() {
        if !holds(rt, alloc, *step) {
            return Some(place);
        }
    }
    None
}

/// Goes through the steps, and fails at the first that does not hold.
pub(super) fn expect_steps<W: Threads + Wait + Sync + Abort + AllocGlobal>(rt: &W, steps: &[Step]) {
    let wrong = first_wrong(rt, rt.alloc(), steps);
    assert_eq!(rt; wrong, None);
}
