//! Networks of which an allocation fails: one that came to nothing is made anew, and one that ran settles.

use super::networks::{kits_of, meeting_of, run_kits};
use crate::host::Host;
use sr_ports::Settlement;
use sr_threaded::{LineEnd, NetworkFault, NodeEnd};
use sr_threaded_script::ThreadedNet;
use sr_workers::WorkerFault;
use std::alloc::Global;
use std::process::Abort;
use std::sync::Wait;
use std::test::*;
use std::thread::Threads;

// How many turns each worker makes.
const TURNS: u64 = 20;

// Whether workers stopped for a failed allocation alone, if at all: their own, or that of a line, which is a fault of the feed.
fn are_whole_but_for_memory(ends: &[LineEnd<Host>]) -> bool {
    for end in ends {
        match end.fault {
            None | Some(WorkerFault::NoMemory | WorkerFault::FeedFault) => {}
            Some(WorkerFault::JournalFull) => return false,
        }
    }
    ends.len() == 3
}

// Whether all nodes settle, of which workers may have stopped for a failed allocation.
fn all_settle(ends: &[NodeEnd<Host>]) -> bool {
    for end in ends {
        let settled = end.settlement == Settlement::Settled;
        if !settled || !are_whole_but_for_memory(end.ends.as_slice()) {
            return false;
        }
    }
    ends.len() == 2
}

// Runs two nodes, of which the first sends a frame and no host waits. Whether they settle; None where memory, or a thread, was
// refused and there is no network.
fn run_two<W: Threads + Wait + Sync>(rt: &W, alloc: Global, net: ThreadedNet) -> Option<bool> {
    let meeting = meeting_of(alloc, 0)?;
    match kits_of(alloc, net, 2, &meeting) {
        Some(kits) => match run_kits(rt, alloc, net, kits, TURNS) {
            Ok(ends) => {
                let settle = all_settle(ends.as_slice());
                drop(ends);
                Some(settle)
            }
            Err(NetworkFault::Size) => Some(false),
            Err(NetworkFault::NoMemory | NetworkFault::NoThread) => None,
        },
        None => None,
    }
}

// Runs two nodes, anew where that came to nothing, and fails where they do not settle.
fn expect_settled<W: Threads + Wait + Sync + Abort + AllocGlobal>(rt: &W, net: ThreadedNet) {
    let settle = match run_two(rt, rt.alloc(), net) {
        None => run_two(rt, rt.alloc(), net),
        some => some,
    };
    assert_eq!(rt; settle, Some(true));
}

#[test]
fn a_ring_is_run_anew_where_an_allocation_failed(rt: HostRuntime) {
    expect_settled(&rt, ThreadedNet::Ring);
}

#[test]
fn two_lans_are_run_anew_where_an_allocation_failed(rt: HostRuntime) {
    expect_settled(&rt, ThreadedNet::TwinLan);
}
