//! What a table of nodes raises alarms of.
ghost use Rattle.std.specs.Prelude.{◌≡◌, IfOk};

use circular_buffer::HeapCircularBuffer;
use sr_frame::{Mac, NoMemory, Port};
use std::alloc::Global;

/// What went wrong, with which node, and when, in milliseconds.
#[derive(Clone, Copy, Debug, PartialEq, Eq)]
pub enum Alarm {
    /// A node is heard, but not at this port: a LAN, or the ring in this direction, is broken.
    RingError { mac: Mac, port: Port, at: u64 },
    /// A node was silent so long that it is forgotten.
    NodeDown { mac: Mac, at: u64 },
}

/// A copy of the alarms in their order, in a buffer of its own of the same capacity. NoMemory: an allocation failed.
pub(crate) fn copy_of(
    alarms: &HeapCircularBuffer<Alarm>,
    alloc: Global,
) -> Result<HeapCircularBuffer<Alarm>, NoMemory>
    ensures { IfOk result (λ own. own ≡ alarms.now) }
{
    let mut own = HeapCircularBuffer::with_capacity(alloc, alarms.capacity())?;
    for alarm in alarms.iter() {
        own.push_back(*alarm);
    }
    Ok(own)
}
