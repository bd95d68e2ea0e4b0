//! Journals are closed from a thread of its own while workers run, and their segments settle.

ghost use Rattle.std.specs.Prelude.{◌≡◌, IfSome, vec_len};

use super::runs::OWN;
use sr_forwarding::{Danp, PlainFraming, Role};
use sr_node::NodeOf;
use sr_ports::{Kept, Log, Pass, Passes, Segment, Settlement, SharedNode, rotate, settle_all};
use sr_workers::{Feed, FeedFault, Given, Kit, Turn, WorkerEnd, run_workers};
use std::alloc::Global;
use std::marker::Brand;
use std::sync::atomic::{AtomicU64, Ordering};
use std::sync::ledger::{Blank, Ledger};
use std::sync::{Arc, Wait};
use std::thread;
use std::thread::{Threads, join};

// How many journals are closed while the workers run.
const CLOSED: u64 = 10;

// How often it is looked whether a journal has begun.
const LOOKS: u64 = 5_000_000;

// So many turns are enough for all.
const ENOUGH: u64 = 1_000_000_000;

/// A feed that hands out a time a turn until all journals are closed.
#[derive(Drop)]
struct Till {
    closed: Arc<AtomicU64>,
}

impl Feed for Till {
    ghost use Rattle.std.specs.Prelude.{[], false, true};

    ghost Name = { Unit {0} };

    ghost name = { λ _. tt };

    ghost tells = { λ _. false };

    ghost handed = { λ _. [] };

    ghost asked = { λ _. 0 };

    ghost given = { λ _. [] };

    ghost losses = { λ _. 0 };

    ghost ended = { λ _. true };

    ghost failed = { λ _. 0 };

    fn next<W: Wait>(&mut self, _rt: &W, _into: &mut Vec<u8>) -> Result<Turn, FeedFault> {
        if self.closed.load(Ordering::SeqCst) >= CLOSED {
            return Ok(Turn::End);
        }
        thread::yield_now();
        Ok(Turn::Tick(0))
    }

    fn give<W: Wait>(&mut self, _rt: &W, _octets: &[u8]) -> Result<Given, FeedFault> {
        Ok(Given::Put)
    }

    fn failures(&self) -> u64 {
        0
    }
}

// What comes of it all.
#[derive(Clone, Copy, PartialEq, Eq)]
struct Shown {
    settlement: Settlement,
    segments: usize,
    // Whether each journal that was closed beside the workers had entries.
    is_each_begun: bool,
    // Whether the passes count as many entries as the segments have.
    is_counted: bool,
}

// Ten segments of journals that were closed beside the workers, and the last.
const ROTATED: Option<Shown> = Some(Shown {
    settlement: Settlement::Settled,
    segments: 11,
    is_each_begun: true,
    is_counted: true,
});

// Whether a journal that has entries was closed.
fn has_closed<R: Role, L: Ledger, W: Wait>(
    rt: &W,
    shared: &SharedNode<R, L>,
    segments: &mut Vec<Segment>,
) -> bool {
    let mut kept = shared.kept.lock(rt);
    if kept.journal.is_empty() || segments.reserve(1).is_err() {
        return false;
    }
    match rotate(&mut *kept) {
        Ok(segment) => {
            segments.push_reserved(segment);
            true
        }
        Err(_) => false,
    }
}

// Closes the next journal once it has entries. An allocation that fails is met by another try.
fn close_next<R: Role, L: Ledger, W: Wait>(
    rt: &W,
    shared: &SharedNode<R, L>,
    segments: &mut Vec<Segment>,
) -> bool {
    for _look in 0..LOOKS {
        if has_closed(rt, shared, segments) {
            return true;
        }
        thread::yield_now();
    }
    false
}

// Closes ten journals while the workers run. Where one has no entries the workers have ended.
fn rotates<R: Role, L: Ledger, W: Wait>(
    rt: &W,
    shared: &SharedNode<R, L>,
    segments: Vec<Segment>,
    closed: &AtomicU64,
) -> Vec<Segment> {
    let mut segments = segments;
    let mut goes_on = true;
    for _ in 0..CLOSED {
        goes_on = goes_on && close_next(rt, shared, &mut segments);
        closed.fetch_add(1, Ordering::SeqCst);
    }
    segments
}

// The kit of a worker.
fn kit_of<L: Ledger>(pass: Pass<L>, closed: Arc<AtomicU64>) -> Kit<Pass<L>, Till, PlainFraming> {
    Kit {
        pass,
        feed: Till { closed },
        framing: PlainFraming,
    }
}

// The kits of A and of the Ager. None where an allocation failed, here and below.
fn kits_of<L: Ledger>(
    alloc: Global,
    passes: Passes<L>,
    closed: &Arc<AtomicU64>,
) -> Option<Vec<Kit<Pass<L>, Till, PlainFraming>>>
    ensures { IfSome result (λ kits. vec_len kits ≡ 2) }
{
    let seen = Arc::try_clone(closed).ok()?;
    let also = Arc::try_clone(closed).ok()?;
    let Ok(mut kits) = Vec::with_capacity(alloc, 2) else {
        return None;
    };
    kits.push_reserved(kit_of(passes.a, seen));
    kits.push_reserved(kit_of(passes.ager, also));
    Some(kits)
}

// What the workers of A and of the Ager ended with.
type Ends<L> = Vec<(Pass<L>, WorkerEnd<Till>)>;

// Both workers, and beside them a thread that closes journals.
fn worked<R: Role + Send, L: Ledger + Send + Sync, W: Threads + Wait + Sync>(
    rt: &W,
    alloc: Global,
    shared: &SharedNode<R, L>,
    kits: Vec<Kit<Pass<L>, Till, PlainFraming>>,
    closed: &AtomicU64,
) -> (Option<Ends<L>>, Vec<Segment>)
    requires { vec_len kits ≡ 2 }
{
    join(
        rt,
        || -> Option<Ends<L>>
            requires { vec_len kits ≡ 2 }
        { run_workers(rt, alloc, shared, kits, ENOUGH).ok() },
        || rotates(rt, shared, Vec::new(alloc), closed),
    )
}

// The logs of both, and how many events were entered with their passes.
fn logged<L: Ledger>(ends: Ends<L>, logs: &mut Vec<Log>) -> Option<u64> {
    let mut count = 0u64;
    for (pass, end) in ends {
        count = count.saturating_add(pass.count());
        logs.push(end.log).ok()?;
    }
    Some(count)
}

// Whether the journal was closed.
fn close<R: Role, L: Ledger>(kept: &mut Kept<R, L>, segments: &mut Vec<Segment>) -> bool {
    match rotate(kept) {
        Ok(segment) => segments.push(segment).is_ok(),
        Err(_) => false,
    }
}

// Whether the last journal was closed too.
fn close_last<R: Role, L: Ledger, W: Wait>(
    rt: &W,
    shared: &SharedNode<R, L>,
    segments: &mut Vec<Segment>,
) -> bool {
    let mut kept = shared.kept.lock(rt);
    close(&mut *kept, segments)
}

// How many entries segments have, and whether each but the last has some.
fn counted(segments: &[Segment]) -> (u64, bool) {
    let mut count = 0u64;
    let mut is_each_begun = true;
    for (place, segment) in segments.iter().enumerate() {
        count = count.saturating_add(segment.entries.len() as u64);
        let is_last = place.saturating_add(1) == segments.len();
        is_each_begun = is_each_begun && (is_last || !segment.entries.is_empty());
    }
    (count, is_each_begun)
}

// Nothing where the last journal was not closed, or logs are missing.
fn shown_of(
    segments: &[Segment],
    logs: &[Log],
    entries: Option<u64>,
    is_closed: bool,
) -> Option<Shown> {
    let entries = entries?;
    let (count, is_each_begun) = counted(segments);
    match is_closed {
        true => Some(Shown {
            settlement: settle_all(segments, logs),
            segments: segments.len(),
            is_each_begun,
            is_counted: count == entries,
        }),
        false => None,
    }
}

// The logs of both, where they ended.
fn logged_if<L: Ledger>(ends: Option<Ends<L>>, logs: &mut Vec<Log>) -> Option<u64> {
    match ends {
        Some(ends) => logged(ends, logs),
        None => None,
    }
}

// The end of it: the last journal is closed, and all settle.
fn ended<R: Role, L: Ledger, W: Wait>(
    rt: &W,
    alloc: Global,
    shared: &SharedNode<R, L>,
    segments: &mut Vec<Segment>,
    ends: Option<Ends<L>>,
) -> Option<Shown> {
    let is_closed = close_last(rt, shared, segments);
    let mut logs = Vec::new(alloc);
    let entries = logged_if(ends, &mut logs);
    shown_of(segments.as_slice(), logs.as_slice(), entries, is_closed)
}

// Both workers run, and the end of it.
fn run<R: Role + Send, L: Ledger + Send + Sync, W: Threads + Wait + Sync>(
    rt: &W,
    alloc: Global,
    shared: &SharedNode<R, L>,
    kits: Vec<Kit<Pass<L>, Till, PlainFraming>>,
    closed: &AtomicU64,
) -> Option<Shown>
    requires { vec_len kits ≡ 2 }
{
    let (ends, segments) = worked(rt, alloc, shared, kits, closed);
    let mut segments = segments;
    ended(rt, alloc, shared, &mut segments, ends)
}

// The whole story at a shared node.
fn told<R: Role + Send, L: Ledger + Send + Sync, W: Threads + Wait + Sync>(
    rt: &W,
    alloc: Global,
    shared: &SharedNode<R, L>,
    passes: Passes<L>,
    closed: &Arc<AtomicU64>,
) -> Option<Shown> {
    match kits_of(alloc, passes, closed) {
        Some(kits) => run(rt, alloc, shared, kits, closed),
        None => None,
    }
}

fn rotated<R: Role + Send, L: Ledger + Send + Sync, W: Threads + Wait + Sync>(
    rt: &W,
    alloc: Global,
    node: NodeOf<R>,
    closed: &Arc<AtomicU64>,
    blank: Blank,
) -> Option<Shown>
    requires name { blank.name ≡ L.name }
    requires parts { blank.parts ≡ L.parts }
    requires five { L.parts ≡ 5 }
{
    match SharedNode::<R, L>::new(alloc, node, blank) {
        Ok((shared, passes)) => told(rt, alloc, &shared, passes, closed),
        Err(_) => None,
    }
}

fn rotated_danp<W: Threads + Wait + Sync>(rt: &W, alloc: Global) -> Option<Shown> {
    let closed = Arc::new(alloc, AtomicU64::new(0)).ok()?;
    match NodeOf::new(alloc, Danp::new(OWN)) {
        Ok(node) => rotated::<Danp, Brand, W>(rt, alloc, node, &closed, Blank::new(5)),
        Err(_) => None,
    }
}

// An allocation that fails is met by another try.
#[test]
fn journals_that_are_closed_while_workers_run_settle(rt: HostRuntime) {
    let alloc = rt.alloc();
    assert!(&rt; rotated_danp(&rt, alloc) == ROTATED || rotated_danp(&rt, alloc) == ROTATED);
}
