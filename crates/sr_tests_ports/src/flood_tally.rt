//! What came of the frames of a flood, counted.

use sr_frame::Port;
use sr_node::StepFault;
use sr_ports::EnterFault;

/// What came of the frames of a flood.
#[derive(Clone, Copy)]
pub struct Tally {
    /// Frames that were let in.
    pub entered: u64,
    table_full: u64,
    host_full: u64,
    // Other refusals, a failed allocation apart.
    other: u64,
    /// Parcels that were taken out.
    pub taken: u64,
}

/// Nothing came in yet.
pub const NOTHING: Tally = Tally {
    entered: 0,
    table_full: 0,
    host_full: 0,
    other: 0,
    taken: 0,
};

fn more(count: &mut u64) {
    *count = count.saturating_add(1);
}

impl Tally {
    /// Whether the flood was one: frames were refused, for want of a place in the table and of one at the host alone.
    pub fn is_flood(&self) -> bool {
        self.table_full > 0 && self.host_full > 0 && self.other == 0
    }

    /// Counts what came of a frame.
    pub fn note(&mut self, outcome: Result<bool, EnterFault>) {
        match outcome {
            Ok(true) => more(&mut self.taken),
            Ok(false) => more(&mut self.entered),
            Err(EnterFault::Step(StepFault::TableFull)) => more(&mut self.table_full),
            Err(EnterFault::Step(StepFault::OutboxFull(Port::H))) => more(&mut self.host_full),
            Err(EnterFault::Step(StepFault::NoMemory)) => {}
            Err(_) => more(&mut self.other),
        }
    }
}
