//! Runs of three workers at a node of a PRP network, by tables.

ghost use Rattle.std.specs.Prelude.{◌≡◌, vec_len};

use super::boxes::ran_boxed;
use super::gate::Carriage;
use super::gear::{Gears, flags_of, gears_of, kits_of};
use super::hand::Hand;
use super::judging::{is_cut_short, is_outcome, is_sound};
use super::marks::{Mark, Report, Shown, first_arrival, marks_of};
use super::steps::{Run, Step, run_of};
use sr_forwarding::{Danp, Framing, Role};
use sr_frame::{Mac, Port};
use sr_node::NodeOf;
use sr_ports::{Log, Pass, SharedNode, settle};
use sr_workers::{Kit, run_workers};
use std::alloc::Global;
use std::marker::Brand;
use std::process::Abort;
use std::sync::Wait;
use std::sync::atomic::Ordering;
use std::sync::ledger::{Blank, Ledger};
use std::thread::Threads;

/// The node.
pub(super) const OWN: Mac = Mac([2, 0, 0, 0, 0, 1]);

// None where an allocation failed.
fn worked<R: Role + Send, L: Ledger + Send + Sync, C: Framing + Send, W: Threads + Wait + Sync>(
    rt: &W,
    alloc: Global,
    shared: &SharedNode<R, L>,
    kits: Vec<Kit<Pass<L>, Hand, C>>,
    turns: u64,
    logs: &mut Vec<Log>,
) -> Option<[Mark; 3]>
    requires { vec_len kits ≡ 3 }
{
    match run_workers(rt, alloc, shared, kits, turns) {
        Ok(ends) => marks_of(ends, logs),
        Err(_) => None,
    }
}

// None where an allocation failed.
fn settled<R: Role + Send, L: Ledger + Send + Sync, C: Framing + Send, W: Threads + Wait + Sync>(
    rt: &W,
    alloc: Global,
    shared: SharedNode<R, L>,
    kits: Vec<Kit<Pass<L>, Hand, C>>,
    turns: u64,
) -> Option<Shown>
    requires { vec_len kits ≡ 3 }
{
    let mut logs = Vec::new(alloc);
    let marks = worked(rt, alloc, &shared, kits, turns, &mut logs)?;
    let kept = shared.into_kept();
    let settlement = settle(kept.journal.as_slice(), logs.as_slice());
    let first = first_arrival(kept.journal.as_slice());
    let waiting = [
        kept.node.waiting(Port::A),
        kept.node.waiting(Port::B),
        kept.node.waiting(Port::H),
    ];
    drop(kept);
    Some(Shown {
        marks,
        settlement,
        first,
        waiting,
    })
}

/// None where an allocation failed.
pub(super) fn ran<
    R: Role + Send,
    L: Ledger + Send + Sync,
    C: Framing + Send,
    W: Threads + Wait + Sync,
>(
    rt: &W,
    alloc: Global,
    node: NodeOf<R>,
    gears: Gears<C>,
    turns: u64,
    blank: Blank,
) -> Option<Shown>
    requires name { blank.name ≡ L.name }
    requires parts { blank.parts ≡ L.parts }
    requires five { L.parts ≡ 5 }
{
    let Gears { a, b, host } = gears;
    match SharedNode::<R, L>::new(alloc, node, blank) {
        Ok((shared, passes)) => match kits_of(alloc, passes, a, b, host) {
            Some(kits) => settled(rt, alloc, shared, kits, turns),
            None => None,
        },
        Err(_) => None,
    }
}

// None where an allocation failed.
fn ran_danp<W: Threads + Wait + Sync>(
    rt: &W,
    alloc: Global,
    gears: Gears<Carriage>,
    turns: u64,
) -> Option<Shown> {
    match NodeOf::new(alloc, Danp::new(OWN)) {
        Ok(node) => {
            ran::<Danp, Brand, Carriage, W>(rt, alloc, node, gears, turns, Blank::new(5))
        }
        Err(_) => None,
    }
}

// None where an allocation failed.
fn reported<W: Threads + Wait + Sync>(rt: &W, alloc: Global, run: &Run) -> Option<Report> {
    let flags = flags_of(alloc).ok()?;
    let gears = gears_of(run, &flags).ok()?;
    let shown = match run.boxed {
        false => ran_danp(rt, alloc, gears, run.turns)?,
        true => ran_boxed(rt, alloc, gears, run.turns)?,
    };
    Some(Report {
        shown,
        missed: flags.missed.load(Ordering::SeqCst),
    })
}

// Whether the run, made anew, comes to what is wanted.
fn goes_anew<W: Threads + Wait + Sync>(rt: &W, alloc: Global, run: &Run) -> bool {
    match reported(rt, alloc, run) {
        Some(report) => is_sound(&report) && is_outcome(&report.shown, run.outcome),
        None => false,
    }
}

// Where an allocation fails, before the workers begin or in one of them, the run is made anew.
fn goes<W: Threads + Wait + Sync>(rt: &W, alloc: Global, step: Step) -> bool {
    let run = run_of(step);
    match reported(rt, alloc, &run) {
        Some(report) => {
            is_sound(&report)
                && match is_cut_short(&report, &run) {
                    true => goes_anew(rt, alloc, &run),
                    false => is_outcome(&report.shown, run.outcome),
                }
        }
        None => goes_anew(rt, alloc, &run),
    }
}

// The place of the first step that differs.
fn first_wrong<W: Threads + Wait + Sync>(rt: &W, alloc: Global, steps: &[Step]) -> Option<usize> {
    for (place, step) in steps.iter().enumerate() {
        if !goes(rt, alloc, *step) {
            return Some(place);
        }
    }
    None
}

/// Fails the test at the place of the first step that comes to something else.
pub fn expect_steps<W: Threads + Wait + Sync + Abort + AllocGlobal>(rt: &W, steps: &[Step]) {
    let wrong = first_wrong(rt, rt.alloc(), steps);
    assert_eq!(rt; wrong, None);
}
