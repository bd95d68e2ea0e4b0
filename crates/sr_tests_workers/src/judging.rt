//! Whether a run came to what is wanted.

ghost use Rattle.std.specs.Prelude.{◌<◌};

use super::hand::Halt;
use super::marks::{Mark, Report, Shown};
use super::steps::{Outcome, Run};
use sr_ports::{Settlement, Worker};
use sr_workers::WorkerFault;

/// The place of a worker among A, B and the host.
pub(super) fn place_of(worker: Worker) -> usize
    ensures { result < 3 }
{
    match worker {
        Worker::A => 0,
        Worker::B => 1,
        _ => 2,
    }
}

// A worker has the fault of its feed, just where that failed, and holds a parcel there alone.
fn is_fair(mark: Mark) -> bool {
    match mark.fault {
        Some(WorkerFault::FeedFault) => mark.failed,
        Some(WorkerFault::NoMemory) | None => !mark.failed && !mark.held,
        Some(WorkerFault::JournalFull) => false,
    }
}

// Whether an allocation of this worker failed, or of its feed, which does not stop otherwise.
fn is_short(mark: Mark, halt: Halt) -> bool {
    match mark.fault {
        Some(WorkerFault::NoMemory) => true,
        Some(WorkerFault::FeedFault) => halt == Halt::Never,
        _ => false,
    }
}

// What went to a port was given to its feed, waits there, or is held: then the feed was asked to take it, and failed.
fn is_all_there(went: usize, mark: Mark, waiting: usize) -> bool {
    went == mark.taken.saturating_add(waiting) && mark.taken as u64 == mark.given
}

// What was handed up went to the host, and what the host sent to both LANs.
fn is_nothing_lost(shown: &Shown) -> bool {
    let [a, b, host] = shown.marks;
    let [at_a, at_b, at_host] = shown.waiting;
    is_all_there(a.ups.saturating_add(b.ups), host, at_host)
        && is_all_there(host.sent, a, at_a)
        && is_all_there(host.sent, b, at_b)
}

// All frames were handed up.
fn is_answered(shown: &Shown) -> bool {
    let [a, b, host] = shown.marks;
    is_whole(shown)
        && (a.ups, b.ups, host.sent) == (1, 1, 1)
        && (a.unread, b.unread, host.unread) == (0, 0, 0)
}

fn has_fault_at(shown: &Shown, worker: Worker) -> bool {
    let mut is_so = true;
    for other in [Worker::A, Worker::B, Worker::Host] {
        let has_fault = shown.marks[place_of(other)].fault.is_some();
        is_so = is_so && has_fault == (other == worker);
    }
    is_so
}

fn is_whole(shown: &Shown) -> bool {
    let [a, b, host] = shown.marks;
    a.fault.is_none() && b.fault.is_none() && host.fault.is_none()
}

/// Whether a run came to this.
pub(super) fn is_outcome(shown: &Shown, outcome: Outcome) -> bool {
    match outcome {
        Outcome::First(worker) => is_answered(shown) && shown.first == Some(worker),
        Outcome::Answered => is_answered(shown),
        Outcome::Whole => is_whole(shown),
        Outcome::Flooded(frames, sends) => is_flooded(shown, frames, sends),
        Outcome::Stops(worker, nones) => {
            let mark = shown.marks[place_of(worker)];
            has_fault_at(shown, worker) && mark.nones == nones && !mark.held
        }
        Outcome::Holds(worker) => {
            let mark = shown.marks[place_of(worker)];
            has_fault_at(shown, worker) && mark.held && mark.held_last
        }
    }
}

// Each frame of a port is handed up or counted as unread, some are, and each frame of the host went out at both ports.
fn is_flooded(shown: &Shown, frames: u64, sends: u64) -> bool {
    let [a, b, host] = shown.marks;
    is_whole(shown)
        && (a.ups as u64).saturating_add(a.unread) == frames
        && (b.ups as u64).saturating_add(b.unread) == frames
        && a.unread > 0
        && b.unread > 0
        && host.sent as u64 == sends
        && host.unread == 0
        && (a.given, b.given) == (sends, sends)
}

/// What holds of each run, whatever allocation fails.
pub(super) fn is_sound(report: &Report) -> bool {
    let shown = &report.shown;
    let [a, b, host] = shown.marks;
    shown.settlement == Settlement::Settled
        && report.missed == 0
        && is_fair(a)
        && is_fair(b)
        && is_fair(host)
        && is_nothing_lost(shown)
}

/// Whether an allocation of a worker or of its feed failed.
pub(super) fn is_cut_short(report: &Report, run: &Run) -> bool {
    let [a, b, host] = report.shown.marks;
    let [halt_a, halt_b, halt_host] = run.halts;
    is_short(a, halt_a) || is_short(b, halt_b) || is_short(host, halt_host)
}
