//! One node of a threaded network.

ghost use Rattle.std.specs.Prelude.{◌≡◌, ◌<◌, ◌∷◌, [], ℕ, IfOk, map, vec_len, slice_index_or};
ghost use Rattle.sr_node.specs.NodeImages.{image_state};
ghost use Rattle.sr_node.specs.States.{state_of};
ghost use Rattle.sr_threaded.specs.Ran.{ArePartsOf, IsSettlementFrom, NodeRan, line_start, start_with, starts_at};

use crate::lists::{both_of, split_all};
use crate::losses::lost_in_all;
use crate::settling::settlement_from;
use crate::{LineEnd, NodeEnd};
use sr_forwarding::{Framing, Role};
use sr_frame::NoMemory;
use sr_lines::Line;
use sr_node::{NodeImage, NodeOf};
use sr_ports::{Kept, Log, Pass, Passes, Segment, SharedNode, rotate};
use sr_workers::{CrewFault, Feed, Kit, WorkerEnd, run_workers};
use std::alloc::Global;
use std::marker::Brand;
use std::sync::Wait;
use std::sync::ledger::{Blank, Ledger};
use std::thread::Threads;

/// A node at its wires.
#[derive(Drop)]
pub(crate) struct Wired<N: Role, G: Framing, F: Feed> {
    pub(crate) node: NodeOf<N>,
    pub(crate) a: G,
    pub(crate) b: G,
    pub(crate) host: G,
    pub(crate) at_a: Line<F>,
    pub(crate) at_b: Line<F>,
    pub(crate) at_host: Line<F>,
    pub(crate) turns: u64,
    pub(crate) alloc: Global,
}

// What a worker has beside its pass.
#[derive(Drop)]
struct Gear<G: Framing, F: Feed> {
    framing: G,
    line: Line<F>,
}

fn kit_of<L: Ledger, G: Framing, F: Feed>(
    pass: Pass<L>,
    gear: Gear<G, F>,
) -> Kit<Pass<L>, Line<F>, G>
    ensures pass { result.pass ≡ pass }
    ensures line { result.feed ≡ gear.line }
    ensures framing { result.framing ≡ gear.framing }
{
    let Gear { framing, line } = gear;
    Kit {
        pass,
        feed: line,
        framing,
    }
}

// The kits of the workers at A, at B and of the host.
fn kits_of<L: Ledger, G: Framing, F: Feed>(
    alloc: Global,
    passes: Passes<L>,
    a: Gear<G, F>,
    b: Gear<G, F>,
    host: Gear<G, F>,
) -> Result<Vec<Kit<Pass<L>, Line<F>, G>>, NoMemory>
    ensures len { IfOk result (λ kits. vec_len kits ≡ 3) }
    ensures starts { IfOk result (λ kits. (turns : ℕ)
        → map (λ k. line_start F.Feed k.pass.worker (G.meaning k.framing) turns k.pass.count k.feed)
        kits.items
        ≡ line_start F.Feed passes.a.worker (G.meaning a.framing) turns passes.a.count a.line
        ∷ line_start F.Feed passes.b.worker (G.meaning b.framing) turns passes.b.count b.line
        ∷ line_start F.Feed passes.host.worker (G.meaning host.framing) turns passes.host.count
        host.line ∷ []) }
{
    let mut kits = Vec::with_capacity(alloc, 3)?;
    kits.push_reserved(kit_of(passes.a, a));
    kits.push_reserved(kit_of(passes.b, b));
    kits.push_reserved(kit_of(passes.host, host));
    Ok(kits)
}

// The log of a worker, and what it ended with beside.
fn parts_of<L: Ledger, F: Feed>(done: (Pass<L>, WorkerEnd<Line<F>>)) -> (Log, LineEnd<F>)
    ensures { ArePartsOf done.1 result.0 result.1 }
{
    let (pass, end) = done;
    drop(pass);
    let WorkerEnd {
        feed,
        log,
        unread,
        fault,
        held,
    } = end;
    let beside = LineEnd {
        line: feed,
        unread,
        fault,
        held,
    };
    (log, beside)
}

// What a node ends with that was given so.
fn end_of<F: Feed>(
    given: &NodeImage,
    segment: Segment,
    logs: Vec<Log>,
    ends: Vec<LineEnd<F>>,
) -> NodeEnd<F>
    ensures segment { result.segment ≡ segment }
    ensures logs { result.logs ≡ logs }
    ensures ends { result.ends ≡ ends }
    ensures settles { IsSettlementFrom (image_state given.now) result.segment result.logs.items
        result.settlement }
{
    let settlement = settlement_from(given, &segment, logs.as_slice());
    let lost = lost_in_all(ends.as_slice());
    NodeEnd {
        segment,
        logs,
        ends,
        settlement,
        lost,
    }
}

// What a node ends with that was given so, of its history and of its workers' ends.
fn closed<L: Ledger, F: Feed>(
    alloc: Global,
    given: &NodeImage,
    segment: Segment,
    ends: Vec<(Pass<L>, WorkerEnd<Line<F>>)>,
) -> Result<NodeEnd<F>, CrewFault>
    ensures segment { IfOk result (λ e. e.segment ≡ segment) }
    ensures logs { IfOk result (λ e. vec_len e.logs ≡ vec_len ends) }
    ensures ends { IfOk result (λ e. vec_len e.ends ≡ vec_len ends) }
    ensures each { IfOk result (λ e. (i : ℕ) (d : _) (l : _) (x : _) → i < vec_len ends
        → ArePartsOf (slice_index_or ends.items i d).1 (slice_index_or e.logs.items i l)
        (slice_index_or e.ends.items i x)) }
    ensures settles { IfOk result (λ e.
        IsSettlementFrom (image_state given.now) e.segment e.logs.items e.settlement) }
{
    let split = |done: (Pass<L>, WorkerEnd<Line<F>>)| -> (Log, LineEnd<F>)
        ensures { ArePartsOf done.1 result.0 result.1 }
    { parts_of(done) };
    match split_all(alloc, ends, &split) {
        Ok((logs, ends)) => Ok(end_of(given, segment, logs, ends)),
        Err(refused) => {
            drop(segment);
            Err(refused.into())
        }
    }
}

// The history of a node whose workers have ended.
fn history_of<N: Role, L: Ledger>(kept: Kept<N, L>) -> Result<Segment, NoMemory>
    ensures opening { IfOk result (λ s. s.opening ≡ kept.opening) }
    ensures entries { IfOk result (λ s. s.entries ≡ kept.journal) }
    ensures closing { IfOk result (λ s. image_state s.closing ≡ state_of N.meaning kept.node) }
{
    let mut kept = kept;
    let segment = rotate(&mut kept);
    drop(kept);
    segment
}

// The workers of a node that was given so, and what it ends with.
fn work<
    N: Role + Send,
    L: Ledger + Send + Sync,
    G: Framing + Send,
    F: Feed + Send,
    W: Threads + Wait + Sync,
>(
    rt: &W,
    alloc: Global,
    given: &NodeImage,
    shared: SharedNode<N, L>,
    kits: Vec<Kit<Pass<L>, Line<F>, G>>,
    turns: u64,
) -> Result<NodeEnd<F>, CrewFault>
    requires { vec_len kits ≡ 3 }
    ensures { IfOk result (λ e. NodeRan F.Feed (start_with (image_state given.now)
        (map (λ k. line_start F.Feed k.pass.worker (G.meaning k.framing) turns k.pass.count k.feed)
        kits.items)) e.settlement e) }
{
    let crew = run_workers(rt, alloc, &shared, kits, turns);
    let history = history_of(shared.into_kept());
    match both_of(crew, history) {
        Ok((ends, segment)) => closed(alloc, given, segment, ends),
        Err(fault) => Err(fault),
    }
}

// One node, which was given so, under its lock, with three workers.
fn run_node<
    N: Role + Send,
    L: Ledger + Send + Sync,
    G: Framing + Send,
    F: Feed + Send,
    W: Threads + Wait + Sync,
>(rt: &W, given: &NodeImage, wired: Wired<N, G, F>, blank: Blank) -> Result<NodeEnd<F>, CrewFault>
    requires name { blank.name ≡ L.name }
    requires parts { blank.parts ≡ L.parts }
    requires five { L.parts ≡ 5 }
    ensures { IfOk result (λ e. NodeRan F.Feed (starts_at F.Feed (image_state given.now)
        (G.meaning wired.a) (G.meaning wired.b) (G.meaning wired.host) wired.turns wired.at_a
        wired.at_b wired.at_host) e.settlement e) }
{
    let Wired {
        node,
        a,
        b,
        host,
        at_a,
        at_b,
        at_host,
        turns,
        alloc,
    } = wired;
    let a = Gear {
        framing: a,
        line: at_a,
    };
    let b = Gear {
        framing: b,
        line: at_b,
    };
    let host = Gear {
        framing: host,
        line: at_host,
    };
    match SharedNode::<N, L>::new(alloc, node, blank) {
        Ok((shared, passes)) => match kits_of(alloc, passes, a, b, host) {
            Ok(kits) => work(rt, alloc, given, shared, kits, turns),
            Err(refused) => {
                drop(shared);
                Err(refused.into())
            }
        },
        Err(refused) => {
            drop((a, b, host));
            Err(refused.into())
        }
    }
}

/// One node under its lock, with three workers on a thread each, until they have ended. What lies under a lock is seen by no clause, so
/// the node's image is taken before, and its history is torn at 0 where it opens with another.
pub(crate) fn run_branded<
    N: Role + Send,
    G: Framing + Send,
    F: Feed + Send,
    W: Threads + Wait + Sync,
>(rt: &W, wired: Wired<N, G, F>) -> Result<NodeEnd<F>, CrewFault>
    ensures { IfOk result (λ e. NodeRan F.Feed (starts_at F.Feed (state_of N.meaning wired.node)
        (G.meaning wired.a) (G.meaning wired.b) (G.meaning wired.host) wired.turns wired.at_a
        wired.at_b wired.at_host) e.settlement e) }
{
    match wired.node.image() {
        Ok(given) => {
            let ended = run_node::<N, Brand, G, F, W>(rt, &given, wired, Blank::new(5));
            // By `drop`, so that no proof goes through the drop code of an image.
            drop(given);
            ended
        }
        Err(refused) => {
            drop(wired);
            Err(refused.into())
        }
    }
}
