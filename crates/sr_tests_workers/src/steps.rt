//! What a run of three workers is, and what it comes to.

use super::hand::Halt;
use super::judging::place_of;
use sr_ports::Worker;

/// A run of the workers of A, B and the host, each of whose feeds has one frame.
#[derive(Clone, Copy)]
pub enum Step {
    /// The first worker's framing waits as it reads until the host was given a frame, so the second worker's frame arrives first.
    Gate(Worker, Worker),
    /// So with role and framings in boxes.
    GateInBoxes(Worker, Worker),
    /// The first worker's framing waits as it writes until frames were given to others. The second worker's framing waits as it
    /// reads until that has begun, so its frame arrives while the first one writes.
    WriteGate(Worker, Worker),
    /// So with role and framings in boxes.
    WriteGateInBoxes(Worker, Worker),
    /// No feed waits for a frame, and each hands out all that it has.
    Free,
    /// So with role and framings in boxes.
    FreeInBoxes,
    /// A and B bring so many frames each, all of other nodes. The host sends so many.
    Flood(u64, u64),
    /// Each for so many turns, and no feed waits for a frame.
    Turns(u64),
    /// The feed of one stops. How many frames the feeds of A, B and the host wait for, and what comes of it.
    Halts(Worker, Halt, [u64; 3], Outcome),
}

/// Whose framing waits.
#[derive(Clone, Copy)]
pub(super) enum Hold {
    /// Nobody's.
    No,
    /// This worker's, as it reads.
    Reads(Worker),
    /// The first worker's, as it writes; the second one's, as it reads, until the first one writes.
    Writes(Worker, Worker),
}

/// The run of a step.
#[derive(Clone, Copy)]
pub(super) struct Run {
    pub hold: Hold,
    pub boxed: bool,
    pub turns: u64,
    pub halts: [Halt; 3],
    pub wanted: [u64; 3],
    /// How many frames a port and the host hand out.
    pub frames: [u64; 2],
    pub outcome: Outcome,
}

/// What a run comes to. Each settles, no gate is missed, a worker has a fault just where its feed failed, and each parcel was given
/// to a feed, is held, or waits at the node.
#[derive(Clone, Copy)]
pub enum Outcome {
    /// All frames are handed up and counted nowhere as unread, and the first arrival is this worker's.
    First(Worker),
    /// All frames are handed up and counted nowhere as unread.
    Answered,
    /// No worker has a fault.
    Whole,
    /// No worker has a fault, each frame of a port is handed up or counted as unread, and so many frames of the host go out at both.
    Flooded(u64, u64),
    /// This worker alone has a fault, and found nothing to take so often.
    Stops(Worker, usize),
    /// This worker alone has a fault, and holds the parcel that it took out last.
    Holds(Worker),
}

// So many turns are enough for all.
const ENOUGH: u64 = 1_000_000_000;

/// The run of this step.
pub(super) fn run_of(step: Step) -> Run {
    let mut run = Run {
        hold: Hold::No,
        boxed: false,
        turns: ENOUGH,
        halts: [Halt::Never; 3],
        wanted: [1, 1, 2],
        frames: [1, 1],
        outcome: Outcome::Whole,
    };
    match step {
        Step::Gate(worker, other) => {
            run.hold = Hold::Reads(worker);
            run.outcome = Outcome::First(other);
        }
        Step::GateInBoxes(worker, other) => {
            run.hold = Hold::Reads(worker);
            run.boxed = true;
            run.outcome = Outcome::First(other);
        }
        Step::WriteGate(worker, other) => {
            run.hold = Hold::Writes(worker, other);
            run.outcome = Outcome::Answered;
        }
        Step::WriteGateInBoxes(worker, other) => {
            run.hold = Hold::Writes(worker, other);
            run.boxed = true;
            run.outcome = Outcome::Answered;
        }
        Step::Free => {
            run.wanted = [0; 3];
            run.outcome = Outcome::Answered;
        }
        Step::Flood(frames, sends) => {
            run.frames = [frames, sends];
            run.wanted = [sends, sends, 0];
            run.outcome = Outcome::Flooded(frames, sends);
        }
        Step::FreeInBoxes => {
            run.boxed = true;
            run.wanted = [0; 3];
            run.outcome = Outcome::Answered;
        }
        Step::Turns(turns) => {
            run.turns = turns;
            run.wanted = [0; 3];
        }
        Step::Halts(worker, halt, wanted, outcome) => {
            run.halts[place_of(worker)] = halt;
            run.wanted = wanted;
            run.outcome = outcome;
        }
    }
    run
}
