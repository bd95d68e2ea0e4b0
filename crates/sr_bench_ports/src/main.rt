//! Work to be measured from outside. `sr_bench_ports alone|copied|entered|locked frame|send|tick|take TIMES` has a node take
//! events of one kind so many times. `sr_bench_ports rotated TICKS TIMES` enters so many ticks, and then closes the journal so many
//! times; `sr_bench_ports full NODES TIMES` enters a frame of each of so many nodes before. What comes before the work is the same for
//! any number of times, so two runs tell what one time costs.
#![tactic(auto)]

ghost use Rattle.std.specs.Prelude.{◌≡◌};

mod events;
mod ways;

use events::{Before, Subject, Work, done, rotated, work_of};
use sr_forwarding::Danp;
use sr_frame::Mac;
use sr_node::NodeOf;
use sr_ports::{Kept, SharedNode};
use std::alloc::Global;
use std::marker::Brand;
use std::process::ExitCode;
use std::rt::Env;
use std::sync::Wait;
use std::sync::ledger::{Blank, Ledger};
use ways::{Alone, Copied, Entered, Locked};

/// The address of the node.
const OWN: Mac = Mac([2, 0, 0, 0, 0, 1]);

/// The exit status where the command line names no work, or an allocation failed before it.
const FAILED: u8 = 1;

fn main(rt: HostRuntime) -> ExitCode {
    match start(&rt) {
        Some(count) => {
            let _ = println!(rt; "{count} events");
            ExitCode::SUCCESS
        }
        None => ExitCode::from(FAILED),
    }
}

/// What is done.
#[derive(Clone, Copy, Debug)]
enum Plan {
    /// The node takes this work alone.
    Alone(Work),
    /// So, with copies.
    Copied(Work),
    /// It is entered in a journal.
    Entered(Work),
    /// It is entered under a lock.
    Locked(Work),
    /// This is entered, and the journal is closed.
    Rotated(Before),
}

/// The plan of these words.
fn plan_of(way: &str, work: &str) -> Option<Plan> {
    match way {
        "alone" => Some(Plan::Alone(work_of(work)?)),
        "copied" => Some(Plan::Copied(work_of(work)?)),
        "entered" => Some(Plan::Entered(work_of(work)?)),
        "locked" => Some(Plan::Locked(work_of(work)?)),
        "rotated" => Some(Plan::Rotated(Before::Ticks(work.parse().ok()?))),
        "full" => Some(Plan::Rotated(Before::Nodes(work.parse().ok()?))),
        _ => None,
    }
}

/// The plan of the command line, and how often it is done.
fn asked<R: AllocGlobal + Env>(rt: &R) -> Option<(Plan, u32)> {
    let args = std::env::args(rt).ok()?;
    let words = args.collect::<Vec<String>>(rt.alloc()).ok()?;
    let [_, way, work, times] = words.as_slice() else {
        return None;
    };
    Some((plan_of(way, work)?, times.parse().ok()?))
}

/// Does what the command line says. None where it says nothing that is known, or an allocation fails.
fn start<R: AllocGlobal + Env + Wait>(rt: &R) -> Option<u64> {
    let (plan, times) = asked(rt)?;
    match NodeOf::new(rt.alloc(), Danp::new(OWN)) {
        Ok(node) => has_done(rt, rt.alloc(), node, plan, times),
        Err(_) => None,
    }
}

/// Has a node do this so many times.
fn has_done<R: Wait>(
    rt: &R,
    alloc: Global,
    node: NodeOf<Danp>,
    plan: Plan,
    times: u32,
) -> Option<u64> {
    match plan {
        Plan::Alone(work) => run_owned(alloc, Alone { node }, work, times),
        Plan::Copied(work) => run_owned(alloc, Copied { alloc, node }, work, times),
        Plan::Entered(work) => enters::<Brand>(alloc, node, Blank::new(5), work, times),
        Plan::Locked(work) => {
            enters_under_lock::<Brand, R>(rt, alloc, node, Blank::new(5), work, times)
        }
        Plan::Rotated(before) => rotates::<Brand>(alloc, node, Blank::new(5), before, times),
    }
}

/// Has a subject do this work, and lets it go.
fn run_owned<S: Subject + Drop>(alloc: Global, subject: S, work: Work, times: u32) -> Option<u64> {
    let mut subject = subject;
    done(alloc, &mut subject, work, times)
}

/// The node gets a journal.
fn enters<L: Ledger>(
    alloc: Global,
    node: NodeOf<Danp>,
    blank: Blank,
    work: Work,
    times: u32,
) -> Option<u64>
    requires name { blank.name ≡ L.name }
    requires parts { blank.parts ≡ L.parts }
    requires five { L.parts ≡ 5 }
{
    match Kept::<Danp, L>::new(alloc, node, blank) {
        Ok((kept, passes)) => run_owned(alloc, Entered { kept, passes }, work, times),
        Err(_) => None,
    }
}

/// The node gets a journal under a lock.
fn enters_under_lock<L: Ledger, R: Wait>(
    rt: &R,
    alloc: Global,
    node: NodeOf<Danp>,
    blank: Blank,
    work: Work,
    times: u32,
) -> Option<u64>
    requires name { blank.name ≡ L.name }
    requires parts { blank.parts ≡ L.parts }
    requires five { L.parts ≡ 5 }
{
    match SharedNode::<Danp, L>::new(alloc, node, blank) {
        Ok((shared, passes)) => run_owned(alloc, Locked { rt, shared, passes }, work, times),
        Err(_) => None,
    }
}

/// The node gets a journal in which this is entered, and which is closed so many times.
fn rotates<L: Ledger>(
    alloc: Global,
    node: NodeOf<Danp>,
    blank: Blank,
    before: Before,
    times: u32,
) -> Option<u64>
    requires name { blank.name ≡ L.name }
    requires parts { blank.parts ≡ L.parts }
    requires five { L.parts ≡ 5 }
{
    match Kept::<Danp, L>::new(alloc, node, blank) {
        Ok((kept, passes)) => {
            let mut subject = Entered { kept, passes };
            let count = rotated(alloc, &mut subject, before, times);
            drop(subject);
            count
        }
        Err(_) => None,
    }
}
