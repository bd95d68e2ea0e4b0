//! The feed over memory, and single workers at its two ends.

ghost use Rattle.std.specs.Prelude.{◌≡◌};

mod coming;
mod steps;

use super::runs::OWN;
use coming::{Came, came_of};
use sr_forwarding::{Danp, Framing, PlainFraming, PrpFraming, Role};
use sr_frame::Frame;
use sr_node::{Event, NodeOf};
use sr_ports::{Log, Pass, Passes, Settlement, SharedNode, Worker, enter, settle};
use sr_prp_trailer::Lan;
use sr_workers::{Kit, Line, Script, Seat, run_worker};
use std::alloc::Global;
use std::marker::Brand;
use std::process::Abort;
use std::sync::Wait;
use std::sync::ledger::{Blank, Ledger};
use steps::{Counts, STEPS, Say, Step, Who};

// The host's frame.
const OCTETS: [u8; 60] = [
    2, 0, 0, 0, 0, 2, 2, 0, 0, 0, 0, 1, 8, 0, 0, 0, 0, 0, 0, 0, 0, 0, 0, 0, 0, 0, 0, 0, 0, 0, 0, 0,
    0, 0, 0, 0, 0, 0, 0, 0, 0, 0, 0, 0, 0, 0, 0, 0, 0, 0, 0, 0, 0, 0, 0, 0, 0, 0, 0, 0,
];

// None where an allocation failed, here and below.
fn line_of(alloc: Global, say: Say) -> Option<Line> {
    match say {
        Say::Frame(now) => Some(Line::Frame(Frame::copy(alloc, &OCTETS).ok()?, now)),
        Say::Tick(now) => Some(Line::Tick(now)),
        Say::Idle => Some(Line::Idle),
    }
}

fn lines_of(alloc: Global, script: &[Say]) -> Option<Vec<Line>> {
    let mut lines = Vec::new(alloc);
    for say in script {
        let line = line_of(alloc, *say)?;
        lines.push(line).ok()?;
    }
    Some(lines)
}

// The host's frame as an event. None where an allocation failed, here and below.
fn sending(alloc: Global) -> Option<Event> {
    let frame = Frame::copy(alloc, &OCTETS).ok()?;
    Some(Event::Send { frame, now: 0 })
}

// The host sends a frame, and writes that down.
fn sent<R: Role, L: Ledger, W: Wait>(
    rt: &W,
    alloc: Global,
    shared: &SharedNode<R, L>,
    pass: &mut Pass<L>,
    log: &mut Log,
) -> Option<()> {
    let event = sending(alloc)?;
    log.reserve().ok()?;
    let answer = {
        let mut kept = shared.kept.lock(rt);
        enter(&mut *kept, pass, &event).ok()?
    };
    log.push(event, answer);
    Some(())
}

fn all_sent<R: Role, L: Ledger, W: Wait>(
    rt: &W,
    alloc: Global,
    shared: &SharedNode<R, L>,
    pass: &mut Pass<L>,
    log: &mut Log,
    sends: u64,
) -> Option<()> {
    for _ in 0..sends {
        sent(rt, alloc, shared, pass, log)?;
    }
    Some(())
}

// What comes of a worker at the node, whose log settles with the other one's.
fn worked<R: Role, L: Ledger, G: Framing, W: Wait>(
    rt: &W,
    alloc: Global,
    shared: SharedNode<R, L>,
    kit: Kit<Pass<L>, Script, G>,
    turns: u64,
    other: Log,
) -> Came {
    let Ok(mut logs) = Vec::with_capacity(alloc, 2) else {
        return Came::Short;
    };
    let (came, log) = ended(rt, alloc, &shared, kit, turns);
    logs.push_reserved(log);
    if other.pairs.len() > 0 {
        logs.push_reserved(other);
    }
    let kept = shared.into_kept();
    let settlement = settle(kept.journal.as_slice(), logs.as_slice());
    drop(kept);
    match settlement {
        Settlement::Settled => came,
        _ => Came::Wrong,
    }
}

// What comes of a worker, and its log.
fn ended<R: Role, L: Ledger, G: Framing, W: Wait>(
    rt: &W,
    alloc: Global,
    shared: &SharedNode<R, L>,
    kit: Kit<Pass<L>, Script, G>,
    turns: u64,
) -> (Came, Log) {
    let Kit {
        pass,
        feed,
        framing,
    } = kit;
    let kit = kit_of(Seat::new(shared, pass), feed, framing);
    let (_, end) = run_worker(rt, alloc, kit, turns);
    (came_of(&end), end.log)
}

fn kit_of<P: Drop, G: Framing>(pass: P, feed: Script, framing: G) -> Kit<P, Script, G> {
    Kit {
        pass,
        feed,
        framing,
    }
}

// The worker of the step begins at a node at which the host has sent.
fn begun<R: Role, L: Ledger, W: Wait>(
    rt: &W,
    alloc: Global,
    shared: SharedNode<R, L>,
    passes: Passes<L>,
    feed: Script,
    step: &Step,
) -> Came {
    let Passes {
        a,
        ager,
        mut host,
        ..
    } = passes;
    let mut log = Log::new(alloc, Worker::Host);
    if all_sent(rt, alloc, &shared, &mut host, &mut log, step.sends).is_none() {
        return Came::Short;
    }
    match step.who {
        Who::A => {
            let framing = PrpFraming {
                lan: Lan::A,
                net: 0,
            };
            worked(rt, alloc, shared, kit_of(a, feed, framing), step.turns, log)
        }
        Who::Ager => {
            let kit = kit_of(ager, feed, PlainFraming);
            worked(rt, alloc, shared, kit, step.turns, log)
        }
        Who::Host => {
            let kit = kit_of(host, feed, PlainFraming);
            worked(rt, alloc, shared, kit, step.turns, log)
        }
    }
}

fn ran<R: Role, L: Ledger, W: Wait>(
    rt: &W,
    alloc: Global,
    node: NodeOf<R>,
    step: &Step,
    blank: Blank,
) -> Came
    requires name { blank.name ≡ L.name }
    requires parts { blank.parts ≡ L.parts }
    requires five { L.parts ≡ 5 }
{
    let Some(lines) = lines_of(alloc, step.script) else {
        return Came::Short;
    };
    match SharedNode::<R, L>::new(alloc, node, blank) {
        Ok((shared, passes)) => begun(rt, alloc, shared, passes, Script::new(alloc, lines), step),
        Err(_) => Came::Short,
    }
}

fn ran_danp<W: Wait>(rt: &W, alloc: Global, step: &Step) -> Came {
    match NodeOf::new(alloc, Danp::new(OWN)) {
        Ok(node) => ran::<Danp, Brand, W>(rt, alloc, node, step, Blank::new(5)),
        Err(_) => Came::Short,
    }
}

fn is_wanted(came: Came, wanted: Counts) -> bool {
    match came {
        Came::Whole(counts) => counts == wanted,
        _ => false,
    }
}

// Where an allocation fails the worker is begun anew.
fn goes<W: Wait>(rt: &W, alloc: Global, step: &Step) -> bool {
    match ran_danp(rt, alloc, step) {
        Came::Short => is_wanted(ran_danp(rt, alloc, step), step.wanted),
        came => is_wanted(came, step.wanted),
    }
}

// The place of the first step that differs.
fn first_wrong<W: Wait>(rt: &W, alloc: Global, steps: &[Step]) -> Option<usize> {
    for (place, step) in steps.iter().enumerate() {
        if !goes(rt, alloc, step) {
            return Some(place);
        }
    }
    None
}

fn expect_steps<W: Wait + Abort + AllocGlobal>(rt: &W, steps: &[Step]) {
    let wrong = first_wrong(rt, rt.alloc(), steps);
    assert_eq!(rt; wrong, None);
}

#[test]
fn a_worker_enters_what_its_script_says(rt: HostRuntime) {
    expect_steps(&rt, STEPS);
}
