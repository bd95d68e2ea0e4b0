//! What is counted at the ports of a node.

ghost use Rattle.std.specs.Prelude.{◌≡◌};
ghost use Rattle.sr_endpoint.specs.Counting.{after_arrival, after_reception, after_refusal, after_taken, no_traffic, one_more_at};

use sr_forwarding::Outlets;
use sr_frame::Port;
use sr_node::{PerPort, StepFault};

/// What is counted at the ports of a node, those of the host too. Each count stays at its greatest value.
#[derive(Clone, Copy, Debug)]
pub struct Counters {
    /// Frames that came in, those that were refused too. At the host's port: frames that the host sent.
    pub received: PerPort<u64>,
    /// Of these: frames with the node's address as their source, which came back to it (lreCntOwnRx of the LRE-MIB). None at the
    /// host's port.
    pub own: PerPort<u64>,
    /// Of these: octets that are no frame that the port takes, or that the host may send.
    pub unread: PerPort<u64>,
    /// Of these: frames without the tag that the port asks for.
    pub untagged: PerPort<u64>,
    /// Of these: frames of a further source, where the table of sources was full.
    pub table_full: PerPort<u64>,
    /// Of these: frames that would have gone to an outbox that was full.
    pub outbox_full: PerPort<u64>,
    /// Of these: frames for which an allocation failed.
    pub no_memory: PerPort<u64>,
    /// Frames that were taken out.
    pub sent: PerPort<u64>,
}

/// Nothing at any port.
const NONE: PerPort<u64> = PerPort {
    h: 0,
    a: 0,
    b: 0,
    c: 0,
};

/// Counts one more at a port.
fn count_at(counts: &mut PerPort<u64>, port: Port)
    ensures { counts.new ≡ one_more_at counts.old port }
{
    match port {
        Port::H => counts.h = counts.h.saturating_add(1),
        Port::A => counts.a = counts.a.saturating_add(1),
        Port::B => counts.b = counts.b.saturating_add(1),
        Port::C => counts.c = counts.c.saturating_add(1),
    }
}

impl Counters {
    /// Nothing is counted yet.
    pub(crate) fn none() -> Counters
        ensures { result ≡ no_traffic }
    {
        Counters {
            received: NONE,
            own: NONE,
            unread: NONE,
            untagged: NONE,
            table_full: NONE,
            outbox_full: NONE,
            no_memory: NONE,
            sent: NONE,
        }
    }

    /// Counts why a frame that came in at a port was refused.
    fn count_refusal(&mut self, port: Port, fault: StepFault)
        ensures { self.new ≡ after_refusal self.old port fault }
    {
        match fault {
            StepFault::Reading(_) => count_at(&mut self.unread, port),
            StepFault::Untagged => count_at(&mut self.untagged, port),
            StepFault::TableFull => count_at(&mut self.table_full, port),
            StepFault::OutboxFull(_) => count_at(&mut self.outbox_full, port),
            StepFault::NoMemory => count_at(&mut self.no_memory, port),
        }
    }

    /// Counts a frame that came in at a port, and why it was refused where it was.
    pub(crate) fn count_arrival<T>(&mut self, port: Port, outcome: &Result<T, StepFault>)
        ensures { self.new ≡ after_arrival self.old port outcome.now }
    {
        count_at(&mut self.received, port);
        if let Err(fault) = outcome {
            self.count_refusal(port, *fault);
        }
    }

    /// Counts octets that came in at a port, and what came of them: the outlets that got the frame, none where it is the node's own, or
    /// why they were refused.
    pub(crate) fn count_reception(
        &mut self,
        port: Port,
        outcome: &Result<Option<Outlets>, StepFault>,
    )
        ensures { self.new ≡ after_reception self.old port outcome.now }
    {
        self.count_arrival(port, outcome);
        if let Ok(None) = outcome {
            count_at(&mut self.own, port);
        }
    }

    /// Counts a frame that was taken out at a port.
    pub(crate) fn count_taken(&mut self, port: Port)
        ensures { self.new ≡ after_taken self.old port }
    {
        count_at(&mut self.sent, port);
    }
}
