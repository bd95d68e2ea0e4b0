//! One driver: a node of a PRP network with its journal, on one thread, is taken through a table of steps.
//! No test holds a node, an event or a log itself, which would make its proof long.

ghost use Rattle.std.specs.Prelude.{◌≡◌};

use super::closing::{closes, exchanges, forgets};
use super::entering::{NO_MEMORY, enter_beside, event_of, ticks};
use super::frames::OWN;
use sr_forwarding::{Danp, Role};
use sr_frame::{NoMemory, Port};
use sr_node::NodeOf;
use sr_ports::{
    EnterFault, Kept, Log, Pass, Passes, Segment, Settlement, Worker, settle, settle_all,
};
use sr_prp_trailer::Lan;
use std::alloc::Global;
use std::marker::Brand;
use std::process::Abort;
use std::sync::ledger::{Blank, Ledger};

/// What is entered.
#[derive(Clone, Copy)]
pub enum Act {
    /// The other node's frame for the node comes in from this LAN, under this number.
    In(Lan, u16),
    /// Time passes.
    Tick(u64),
    /// A parcel is asked for.
    Take(Port),
}

/// What it comes to.
#[derive(Clone, Copy, PartialEq, Eq)]
pub enum Outcome {
    /// The frame went to the host alone.
    Up,
    /// Time passed, and no life check went out.
    Ticked,
    /// Time passed, and a life check went out under this number.
    Lived(u16),
    /// The other node's frame was taken out without its trailer, under this number.
    TookFrame(u16),
    /// A life check was taken out under this number.
    TookLife(u16),
    /// No parcel waited.
    Nothing,
    /// It was refused, and all is as it was.
    Refused(EnterFault),
    /// It was refused, and something is another than it was.
    Changed,
    /// None of these.
    Other,
}

/// A step, and what it has to come to.
#[derive(Clone, Copy)]
pub enum Step {
    /// A worker enters an event, and writes it down.
    Enter(Worker, Act, Outcome),
    /// The worker of port A enters so many frames, under the numbers from 0 on, and each goes up.
    Fill(u16),
    /// The ager enters so many ticks of time 0 that send no life check, and writes none of them down.
    Ticks(u32),
    /// The journal is closed as a segment.
    Rotate,
    /// How many entries the journal has, and how many closed journals have.
    Holds(usize, u64),
    /// The worker's log loses the pair at this place.
    Forget(Worker, usize),
    /// The first and the last segment are exchanged.
    Exchange,
    /// What the journal and the logs settle to.
    Settles(Settlement),
    /// What the closed segments and the logs settle to.
    SettlesAll(Settlement),
}

// What lies under a lock, and what workers have.
#[derive(Drop)]
struct Desk<R: Role, L: Ledger> {
    kept: Kept<R, L>,
    passes: Passes<L>,
    logs: Vec<Log>,
    segments: Vec<Segment>,
}

fn pass_of<L: Ledger>(passes: &mut Passes<L>, worker: Worker) -> &mut Pass<L> {
    match worker {
        Worker::A => &mut passes.a,
        Worker::B => &mut passes.b,
        Worker::C => &mut passes.c,
        Worker::Ager => &mut passes.ager,
        Worker::Host => &mut passes.host,
    }
}

fn log_place(worker: Worker) -> usize {
    match worker {
        Worker::A => 0,
        Worker::B => 1,
        Worker::C => 2,
        Worker::Ager => 3,
        Worker::Host => 4,
    }
}

// None where an allocation beside the call failed.
fn tried<R: Role, L: Ledger>(
    alloc: Global,
    desk: &mut Desk<R, L>,
    worker: Worker,
    act: Act,
) -> Option<Outcome> {
    let log = desk.logs.get_mut(log_place(worker))?;
    let pass = pass_of(&mut desk.passes, worker);
    let event = event_of(alloc, act).ok()?;
    enter_beside(&mut desk.kept, pass, log, event)
}

// An allocation that fails is met by another try.
fn entered<R: Role, L: Ledger>(
    alloc: Global,
    desk: &mut Desk<R, L>,
    worker: Worker,
    act: Act,
) -> Outcome {
    match tried(alloc, desk, worker, act) {
        None | Some(NO_MEMORY) => tried(alloc, desk, worker, act).unwrap_or(Outcome::Other),
        Some(outcome) => outcome,
    }
}

fn fills<R: Role, L: Ledger>(alloc: Global, desk: &mut Desk<R, L>, count: u16) -> bool {
    for seq in 0..count {
        if entered(alloc, desk, Worker::A, Act::In(Lan::A, seq)) != Outcome::Up {
            return false;
        }
    }
    true
}

fn forgets_of(logs: &mut Vec<Log>, worker: Worker, place: usize) -> bool {
    match logs.get_mut(log_place(worker)) {
        Some(log) => forgets(log, place),
        None => false,
    }
}

fn settled<R: Role, L: Ledger>(kept: &Kept<R, L>, logs: &[Log]) -> Settlement {
    settle(kept.journal.as_slice(), logs)
}

fn goes<R: Role, L: Ledger>(alloc: Global, desk: &mut Desk<R, L>, step: Step) -> bool {
    match step {
        Step::Enter(worker, act, wanted) => entered(alloc, desk, worker, act) == wanted,
        Step::Fill(count) => fills(alloc, desk, count),
        Step::Ticks(count) => ticks(&mut desk.kept, &mut desk.passes.ager, count),
        Step::Rotate => closes(&mut desk.kept, &mut desk.segments),
        Step::Holds(entries, closed) => {
            (desk.kept.journal.len(), desk.kept.closed) == (entries, closed)
        }
        Step::Forget(worker, place) => forgets_of(&mut desk.logs, worker, place),
        Step::Exchange => exchanges(&mut desk.segments),
        Step::Settles(wanted) => settled(&desk.kept, desk.logs.as_slice()) == wanted,
        Step::SettlesAll(wanted) => {
            settle_all(desk.segments.as_slice(), desk.logs.as_slice()) == wanted
        }
    }
}

// The place of the first step that differs.
fn first_wrong<R: Role, L: Ledger>(
    alloc: Global,
    desk: &mut Desk<R, L>,
    steps: &[Step],
) -> Option<usize> {
    for (place, step) in steps.iter().enumerate() {
        if !goes(alloc, desk, *step) {
            return Some(place);
        }
    }
    None
}

// A log for each worker.
fn add_logs(alloc: Global, logs: &mut Vec<Log>) -> Result<(), NoMemory> {
    for worker in [Worker::A, Worker::B, Worker::C, Worker::Ager, Worker::Host] {
        logs.reserve(1)?;
        logs.push_reserved(Log::new(alloc, worker));
    }
    Ok(())
}

// The number of steps where an allocation for the logs failed.
fn wrong_at<R: Role, L: Ledger>(
    alloc: Global,
    desk: &mut Desk<R, L>,
    steps: &[Step],
) -> Option<usize> {
    match add_logs(alloc, &mut desk.logs) {
        Ok(()) => first_wrong(alloc, desk, steps),
        Err(_) => Some(steps.len()),
    }
}

fn opened<R: Role, L: Ledger>(
    alloc: Global,
    node: NodeOf<R>,
    blank: Blank,
) -> Result<Desk<R, L>, NoMemory>
    requires name { blank.name ≡ L.name }
    requires parts { blank.parts ≡ L.parts }
    requires five { L.parts ≡ 5 }
{
    match Kept::new(alloc, node, blank) {
        Ok((kept, passes)) => Ok(Desk {
            kept,
            passes,
            logs: Vec::new(alloc),
            segments: Vec::new(alloc),
        }),
        Err(refused) => Err(refused),
    }
}

// So where the allocation for the node failed.
fn wrong_of<R: Role, L: Ledger>(
    alloc: Global,
    node: NodeOf<R>,
    blank: Blank,
    steps: &[Step],
) -> Option<usize>
    requires name { blank.name ≡ L.name }
    requires parts { blank.parts ≡ L.parts }
    requires five { L.parts ≡ 5 }
{
    match opened::<R, L>(alloc, node, blank) {
        Ok(mut desk) => {
            let wrong = wrong_at(alloc, &mut desk, steps);
            drop(desk);
            wrong
        }
        Err(_) => Some(steps.len()),
    }
}

fn wrong_danp(alloc: Global, steps: &[Step]) -> Option<usize> {
    match NodeOf::new(alloc, Danp::new(OWN)) {
        Ok(node) => wrong_of::<Danp, Brand>(alloc, node, Blank::new(5), steps),
        Err(_) => Some(steps.len()),
    }
}

// Where an allocation fails as the node is made, it is made again.
fn wrong(alloc: Global, steps: &[Step]) -> Option<usize> {
    let wrong = wrong_danp(alloc, steps);
    if wrong == Some(steps.len()) {
        wrong_danp(alloc, steps)
    } else {
        wrong
    }
}

/// Fails the test at the place of the first step at which a new node of a PRP network differs.
pub fn expect_steps<R: Abort + AllocGlobal>(rt: &R, steps: &[Step]) {
    let wrong = wrong(rt.alloc(), steps);
    assert_eq!(rt; wrong, None);
}
