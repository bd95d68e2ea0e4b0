//! What a run counts of the lines of its script.

ghost use Rattle.std.specs.Prelude.{◌≡◌};
ghost use Rattle.sr_script.specs.Counts.{one_more, no_counts, taken_at, refused_at};

use sr_frame::Port;
use sr_node::{PerPort, StepFault};

/// What is counted of the frames that come in. Each count stays at its greatest value.
#[derive(Clone, Copy, Debug)]
pub struct Counts {
    /// How many came in at each port.
    pub frames: PerPort<u64>,
    /// How many of these were refused.
    pub refused: PerPort<u64>,
    /// How many of these for a table of sources that was full.
    pub left_out: u64,
}

/// No frame at any port.
const NO_FRAMES: PerPort<u64> = PerPort {
    h: 0,
    a: 0,
    b: 0,
    c: 0,
};

/// Counts one more at a port.
fn count_at(counts: &mut PerPort<u64>, port: Port)
    ensures { counts.new ≡ one_more counts.old port }
{
    match port {
        Port::H => counts.h = counts.h.saturating_add(1),
        Port::A => counts.a = counts.a.saturating_add(1),
        Port::B => counts.b = counts.b.saturating_add(1),
        Port::C => counts.c = counts.c.saturating_add(1),
    }
}

impl Counts {
    /// Nothing is counted yet.
    pub(crate) fn none() -> Counts
        ensures { result ≡ no_counts }
    {
        Counts {
            frames: NO_FRAMES,
            refused: NO_FRAMES,
            left_out: 0,
        }
    }

    /// Counts a frame that came in at a port and was taken.
    pub(crate) fn count_taken(&mut self, port: Port)
        ensures { self.new ≡ taken_at self.old port }
    {
        count_at(&mut self.frames, port);
    }

    /// Counts a frame that came in at a port and was refused.
    pub(crate) fn count_refused(&mut self, port: Port, fault: StepFault)
        ensures { self.new ≡ refused_at self.old port fault }
    {
        count_at(&mut self.frames, port);
        count_at(&mut self.refused, port);
        if let StepFault::TableFull = fault {
            self.left_out = self.left_out.saturating_add(1);
        }
    }
}
