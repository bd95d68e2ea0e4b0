//! Nodes at their wires, run by threads.

ghost use Rattle.std.specs.Prelude.{◌≡◌, map, vec_len, IfOk, IsErrOf};
ghost use Rattle.sr_lines.specs.declared.line.Line.TheVariants.{Host};
ghost use Rattle.sr_node.specs.States.{state_of};
ghost use Rattle.sr_threaded.specs.Ran.{AllRan, NodeRan, starts_at};

use crate::fault::of_crew;
use crate::lists::all_of;
use crate::node::{Wired, run_branded};
use crate::{NetworkFault, NodeEnd, NodeKit};
use sr_forwarding::{Framing, Role};
use sr_frame::NoMemory;
use sr_lines::Line;
use sr_workers::{CrewFault, Feed};
use std::alloc::Global;
use std::sync::Wait;
use std::thread;
use std::thread::Threads;

/// The fewest nodes of a network.
pub(crate) const FEWEST_NODES: usize = 2;

/// The most nodes of a network.
pub(crate) const MAX_NODES: usize = 16;

/// A node at its wires.
pub(crate) fn wired<N: Role, G: Framing, F: Feed>(
    alloc: Global,
    kit: NodeKit<N, G, F>,
    at_a: Line<F>,
    at_b: Line<F>,
    turns: u64,
) -> Wired<N, G, F>
    ensures starts { starts_at F.Feed (state_of N.meaning result.node) (G.meaning result.a)
        (G.meaning result.b) (G.meaning result.host) result.turns result.at_a result.at_b
        result.at_host
        ≡ starts_at F.Feed (state_of N.meaning kit.node) (G.meaning kit.a) (G.meaning kit.b)
        (G.meaning kit.host) turns at_a at_b (Host kit.feed) }
{
    let NodeKit {
        node,
        a,
        b,
        host,
        feed,
    } = kit;
    Wired {
        node,
        a,
        b,
        host,
        at_a,
        at_b,
        at_host: Line::Host(feed),
        turns,
        alloc,
    }
}

/// Runs nodes at their wires, each on a thread of its own.
pub(crate) fn run_wired<
    N: Role + Send,
    G: Framing + Send,
    F: Feed + Send,
    W: Threads + Wait + Sync,
>(rt: &W, alloc: Global, nodes: Vec<Wired<N, G, F>>) -> Result<Vec<NodeEnd<F>>, NetworkFault>
    ensures size { IsErrOf result NetworkFault.Size → ⊥ }
    ensures len { IfOk result (λ v. vec_len v ≡ vec_len nodes) }
    ensures ran { IfOk result (λ v. AllRan F.Feed
        (map (λ w. starts_at F.Feed (state_of N.meaning w.node) (G.meaning w.a) (G.meaning w.b)
        (G.meaning w.host) w.turns w.at_a w.at_b w.at_host) nodes.items) v.items) }
{
    let work = |wired: Wired<N, G, F>| -> Result<NodeEnd<F>, CrewFault>
        ensures { IfOk result (λ e. NodeRan F.Feed (starts_at F.Feed
            (state_of N.meaning wired.node) (G.meaning wired.a) (G.meaning wired.b)
            (G.meaning wired.host) wired.turns wired.at_a wired.at_b wired.at_host)
            e.settlement e) }
    { run_branded(rt, wired) };
    match thread::map_vec(rt, nodes, &work) {
        Ok(outcomes) => match all_of(alloc, outcomes) {
            Ok(ends) => Ok(ends),
            Err(fault) => Err(of_crew(fault)),
        },
        Err(refused) => Err(NoMemory::from(refused).into()),
    }
}
