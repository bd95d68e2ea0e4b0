//! Rings, run by threads.

ghost use Rattle.std.specs.Prelude.{◌≡◌, ◌<◌, ◌↔◌, ◌⊎◌, map, vec_len, IfOk, IsErrOf};
ghost use Rattle.sr_node.specs.States.{state_of};
ghost use Rattle.sr_threaded.specs.Joined.{AreUnused, ring_wires_of};
ghost use Rattle.sr_threaded.specs.Ran.{AreJudgedInRing, RanInRing, WiredInRing, ring_starts, starts_at};

use crate::judging::judge_ring;
use crate::lists::join_all;
use crate::network::{FEWEST_NODES, MAX_NODES, run_wired, wired};
use crate::node::Wired;
use crate::settling::judged_ends;
use crate::wiring::ring_wires;
use crate::{NetworkFault, NodeEnd, NodeKit};
use sr_forwarding::{Framing, Role};
use sr_frame::NoMemory;
use sr_lines::{Cable, Ends, Line};
use sr_workers::Feed;
use std::alloc::Global;
use std::sync::Wait;
use std::thread::Threads;

// A node of a ring at its wires.
fn in_ring<N: Role, G: Framing, F: Feed>(
    alloc: Global,
    kit: NodeKit<N, G, F>,
    at: (Ends, Ends),
    turns: u64,
) -> Wired<N, G, F>
    ensures starts { AreUnused at → starts_at F.Feed (state_of N.meaning result.node)
        (G.meaning result.a) (G.meaning result.b) (G.meaning result.host) result.turns
        result.at_a result.at_b result.at_host
        ≡ ring_starts F.Feed (state_of N.meaning kit.node) (G.meaning kit.a) (G.meaning kit.b)
        (G.meaning kit.host) turns kit.feed (ring_wires_of at) }
{
    let (at_a, at_b) = at;
    let at_a = Line::Ring(Cable::new(alloc, at_a));
    let at_b = Line::Ring(Cable::new(alloc, at_b));
    wired(alloc, kit, at_a, at_b, turns)
}

// The nodes of a ring at their wires.
fn all_in_ring<N: Role, G: Framing, F: Feed>(
    alloc: Global,
    kits: Vec<NodeKit<N, G, F>>,
    turns: u64,
) -> Result<Vec<Wired<N, G, F>>, NoMemory>
    requires { 0 < vec_len kits }
    ensures len { IfOk result (λ v. vec_len v ≡ vec_len kits) }
    ensures wired { IfOk result (λ v. WiredInRing
        (map (λ k. ring_starts F.Feed (state_of N.meaning k.node) (G.meaning k.a) (G.meaning k.b)
        (G.meaning k.host) turns k.feed) kits.items)
        (map (λ w. starts_at F.Feed (state_of N.meaning w.node) (G.meaning w.a) (G.meaning w.b)
        (G.meaning w.host) w.turns w.at_a w.at_b w.at_host) v.items)) }
{
    let ends = match ring_wires(alloc, kits.len()) {
        Ok(ends) => ends,
        Err(refused) => {
            drop(kits);
            return Err(refused);
        }
    };
    let join = |kit: NodeKit<N, G, F>, at: (Ends, Ends)| -> Wired<N, G, F>
        ensures { AreUnused at → starts_at F.Feed (state_of N.meaning result.node)
            (G.meaning result.a) (G.meaning result.b) (G.meaning result.host) result.turns
            result.at_a result.at_b result.at_host
            ≡ ring_starts F.Feed (state_of N.meaning kit.node) (G.meaning kit.a)
            (G.meaning kit.b) (G.meaning kit.host) turns kit.feed (ring_wires_of at) }
    { in_ring(alloc, kit, at, turns) };
    join_all(alloc, kits, ends, &join)
}

// The ends of a ring's nodes, of which each settles by its wires too.
fn judged<F: Feed>(alloc: Global, ends: Vec<NodeEnd<F>>) -> Result<Vec<NodeEnd<F>>, NoMemory>
    ensures len { IfOk result (λ v. vec_len v ≡ vec_len ends) }
    ensures judged { IfOk result (λ v. AreJudgedInRing ends.items v.items) }
{
    let judgements = match judge_ring(alloc, &ends) {
        Ok(judgements) => judgements,
        Err(refused) => {
            drop(ends);
            return Err(refused);
        }
    };
    judged_ends(alloc, ends, judgements)
}

/// Runs a ring: each node has three workers, each on a thread of its own, for so many turns, and wires join B of each node to A
/// of the next. Answers the nodes' ends in the order of the kits.
///
/// The settlement of a node is `Torn(0)` exactly where its history does not open with the node of its kit. Else it is that of its
/// logs, and where these settle and the wires of a port disagree, that port's worker disagrees, A before B.
///
/// `Size` exactly where the kits are fewer than 2 or more than 16. `NoMemory` and `NoThread` come once the threads that began
/// have ended; the kits are dropped then.
pub fn run_ring<N: Role + Send, G: Framing + Send, F: Feed + Send, W: Threads + Wait + Sync>(
    rt: &W,
    alloc: Global,
    kits: Vec<NodeKit<N, G, F>>,
    turns: u64,
) -> Result<Vec<NodeEnd<F>>, NetworkFault>
    ensures size { IsErrOf result NetworkFault.Size
        ↔ ((vec_len kits < 2) ⊎ (16 < vec_len kits)) }

    // As many ends as kits.
    ensures count { IfOk result (λ v. vec_len v ≡ vec_len kits) }

    // Wires join B of each node to A of the next, each worker did what a worker does, at its wires or at its host's feed, and each
    // node's settlement says whether its history opens with the node of its kit, and how its logs and its wires stand to it.
    ensures ran { IfOk result (λ v. RanInRing F.Feed
        (map (λ k. ring_starts F.Feed (state_of N.meaning k.node) (G.meaning k.a) (G.meaning k.b)
        (G.meaning k.host) turns k.feed) kits.items) v.items) }
{
    if kits.len() < FEWEST_NODES || kits.len() > MAX_NODES {
        return Err(NetworkFault::Size);
    }
    let nodes = match all_in_ring(alloc, kits, turns) {
        Ok(nodes) => nodes,
        Err(fault) => return Err(fault.into()),
    };
    match run_wired(rt, alloc, nodes) {
        Ok(ends) => match judged(alloc, ends) {
            Ok(all) => Ok(all),
            Err(refused) => Err(refused.into()),
        },
        Err(fault) => Err(fault),
    }
}
