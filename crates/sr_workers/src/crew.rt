//! Two to five workers, each on a thread of its own.

ghost use Rattle.std.specs.Prelude.{◌≡◌, ◌≤◌, ◌<◌, ℕ, IfOk, IfErr, vec_len, slice_index_or};
ghost use Rattle.sr_ports.specs.Stamps.{stamp};
ghost use Rattle.sr_workers.specs.Worked.{EndedAs};
ghost use Rattle.sr_workers.specs.Crews.{IsStartOf};

use crate::{CrewFault, Feed, Kit, Seat, WorkerEnd, run_worker};
use sr_forwarding::{Framing, Role};
use sr_frame::NoMemory;
use sr_ports::{Pass, SharedNode, Worker};
use std::alloc::Global;
use std::snapshot::Snapshot;
use std::sync::Wait;
use std::sync::ledger::Ledger;
use std::thread;
use std::thread::{Promise, PromisedHandle, Scope, Threads};

/// What a worker began with. It promises that the worker ended as `run_worker` says.
#[derive(Drop)]
pub struct Begun<F: Feed, G: Framing> {
    worker: Worker,
    count: u64,
    turns: u64,
    feed: Snapshot<F>,
    framing: Snapshot<G>,
}

impl<L: Ledger, F: Feed, G: Framing> Promise<(Pass<L>, WorkerEnd<F>)> for Begun<F, G> {
    ghost use Rattle.sr_ports.specs.Stamps.{stamp};
    ghost use Rattle.sr_workers.specs.Worked.{EndedAs};

    ghost kept_by = { λ b d. EndedAs F.name F.tells F.handed F.asked F.given F.losses F.failed
        F.ended (G.meaning b.framing.value) b.turns (stamp b.worker b.count) b.feed.value d.0 d.1 };
}

// Starts one worker. `NoThread` where no thread can be started.
fn start<
    's,
    E: 's,
    R: Role + Send + 's,
    L: Ledger + Send + Sync + 's,
    F: Feed + Send + 's,
    G: Framing + Send + 's,
    W: Wait + Sync + 's,
>(
    scope: &Scope<'s, E>,
    rt: &'s W,
    alloc: Global,
    shared: &'s SharedNode<R, L>,
    kit: Kit<Pass<L>, F, G>,
    turns: u64,
) -> Result<PromisedHandle<(Pass<L>, WorkerEnd<F>), Begun<F, G>>, CrewFault>
    ensures start { IfOk result (λ h. IsStartOf turns kit h.promise) }
    ensures err { IfErr result (λ f. f ≡ CrewFault.NoThread) }
{
    let promise = Begun {
        worker: kit.pass.worker(),
        count: kit.pass.count(),
        turns,
        feed: Snapshot::of(&kit.feed),
        framing: Snapshot::of(&kit.framing),
    };
    let work = move || -> (Pass<L>, WorkerEnd<F>)
        ensures { EndedAs F.name F.tells F.handed F.asked F.given F.losses F.failed F.ended
            (G.meaning kit.framing) turns kit.pass kit.feed result.0 result.1 }
    { work_at(rt, alloc, shared, kit, turns) };
    match scope.spawn_with(promise, work) {
        Ok(handle) => Ok(handle),
        Err(_) => Err(CrewFault::NoThread),
    }
}

// One worker at a node that threads share.
fn work_at<R: Role, L: Ledger, F: Feed, G: Framing, W: Wait>(
    rt: &W,
    alloc: Global,
    shared: &SharedNode<R, L>,
    kit: Kit<Pass<L>, F, G>,
    turns: u64,
) -> (Pass<L>, WorkerEnd<F>)
    ensures { EndedAs F.name F.tells F.handed F.asked F.given F.losses F.failed F.ended
        (G.meaning kit.framing) turns kit.pass kit.feed result.0 result.1 }
{
    let Kit {
        pass,
        feed,
        framing,
    } = kit;
    let kit = Kit {
        pass: Seat::new(shared, pass),
        feed,
        framing,
    };
    let (seat, end) = run_worker(rt, alloc, kit, turns);
    (seat.pass, end)
}

// The threads of workers that began.
type Handles<L, F, G> = Vec<PromisedHandle<(Pass<L>, WorkerEnd<F>), Begun<F, G>>>;

// Waits for threads and drops what they hand back, which is never dropped of a thread that nobody joins. Hands back why.
fn end_all<T: Drop, P: Promise<T>, W: Threads>(
    rt: &W,
    handles: Vec<PromisedHandle<T, P>>,
    why: CrewFault,
) -> CrewFault
    ensures { result ≡ why }
{
    for handle in handles {
        drop(handle.join(rt));
    }
    why
}

// Starts them all. Where one can't be started, those that began are handed back.
fn start_all<
    's,
    E: 's,
    R: Role + Send + 's,
    L: Ledger + Send + Sync + 's,
    F: Feed + Send + 's,
    G: Framing + Send + 's,
    W: Threads + Wait + Sync + 's,
>(
    scope: &Scope<'s, E>,
    rt: &'s W,
    alloc: Global,
    shared: &'s SharedNode<R, L>,
    kits: Vec<Kit<Pass<L>, F, G>>,
    turns: u64,
) -> Result<Handles<L, F, G>, (CrewFault, Handles<L, F, G>)>
    ensures len { IfOk result (λ hs. vec_len hs ≡ vec_len kits) }
    ensures each { IfOk result (λ hs. (i : ℕ) (k : _) (h : _) → i < vec_len kits
        → IsStartOf turns (slice_index_or kits.items i k) (slice_index_or hs.items i h).promise) }
{
    let mut handles = Vec::new(alloc);
    let mut number: usize = 0;
    for kit in kits {
        if let Err(refused) = handles.reserve(1) {
            return Err((NoMemory::from(refused).into(), handles));
        }
        match start(scope, rt, alloc, shared, kit, turns) {
            Ok(handle) => handles.push_reserved(handle),
            Err(fault) => return Err((fault, handles)),
        }
        number += 1;
    }
    Ok(handles)
}

/// Two to five workers at a node, each on a thread of its own, until all have ended. Each ends as `run_worker` says; the passes
/// and ends come in the order of the kits.
///
/// `NoMemory` and `NoThread` come once those that began have ended. Then the kits are dropped, and what the workers handed back.
pub fn run_workers<
    R: Role + Send,
    L: Ledger + Send + Sync,
    F: Feed + Send,
    G: Framing + Send,
    W: Threads + Wait + Sync,
>(
    rt: &W,
    alloc: Global,
    shared: &SharedNode<R, L>,
    kits: Vec<Kit<Pass<L>, F, G>>,
    turns: u64,
) -> Result<Vec<(Pass<L>, WorkerEnd<F>)>, CrewFault>
    requires two { 2 ≤ vec_len kits }
    requires five { vec_len kits ≤ 5 }
    ensures len { IfOk result (λ v. vec_len v ≡ vec_len kits) }
    ensures each { IfOk result (λ v. (i : ℕ) (k : _) (d : _) → i < vec_len kits
        → let kit = slice_index_or kits.items i k in let done = slice_index_or v.items i d in
        EndedAs F.name F.tells F.handed F.asked F.given F.losses F.failed F.ended
        (G.meaning kit.framing) turns kit.pass kit.feed done.0 done.1) }
{
    thread::scope(
        thread::scope_env(),
        rt,
        |scope| -> Result<Vec<(Pass<L>, WorkerEnd<F>)>, CrewFault>
            ensures { IfOk result (λ v. (vec_len v ≡ vec_len kits)
                × ((i : ℕ) (k : _) (d : _) → i < vec_len kits
                → let kit = slice_index_or kits.items i k in
                let done = slice_index_or v.items i d in
                EndedAs F.name F.tells F.handed F.asked F.given F.losses F.failed F.ended
                (G.meaning kit.framing) turns kit.pass kit.feed done.0 done.1)) }
        {
            let handles = match start_all::<_, R, L, F, G, W>(
                scope, rt, alloc, shared, kits, turns,
            ) {
                Ok(handles) => handles,
                Err((fault, begun)) => return Err(end_all(rt, begun, fault)),
            };
            match thread::join_promised(rt, handles) {
                Ok(all) => Ok(all),
                Err(refused) => Err(end_all(rt, refused.value, CrewFault::NoMemory)),
            }
        },
    )
}
