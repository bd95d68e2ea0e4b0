//! What a node tells of others, and what was counted at its ports.

ghost use Rattle.std.specs.Prelude.{◌≡◌, slice_get};
ghost use Rattle.sr_node_table.specs.Stating.{status_at};
ghost use Rattle.sr_endpoint.specs.Endpoints.{state_by};
ghost use Rattle.sr_endpoint.specs.Telling.{status_listed};
ghost use Rattle.sr_c.specs.Calls.{AtNode, TellsOrNoMemory};
ghost use Rattle.sr_c.specs.Codes.{closed, port_of};
ghost use Rattle.sr_c.specs.Entries.{TellsAlarm, TellsCounters, TellsStatus};

use crate::codes::{CLOSED, NO_MEMORY, port_of};
use crate::entries::{
    AlarmEntry, CountersEntry, NodeEntry, tell_alarm, tell_counters, tell_status,
};
use crate::handle::Handle;
use sr_frame::Mac;

/// Puts what was counted at a port into an entry.
#[unsafe(no_mangle)]
pub extern "C" fn seamless_counters(node: &mut Handle, port: u32, entry: &mut CountersEntry) -> u32
    ensures { AtNode node.old.value node.new.value ((result ≡ closed) × (entry.new ≡ entry.old))
        (λ e f. TellsCounters (port_of port) e result entry.old entry.new × (f ≡ e)) }
{
    if !node.is_open() {
        return CLOSED;
    }
    tell_counters(node.as_mut(), port_of(port), entry)
}

/// Puts what is told of the node of this index into an entry, in the order of first hearing.
#[unsafe(no_mangle)]
pub extern "C" fn seamless_node_at(node: &mut Handle, index: usize, entry: &mut NodeEntry) -> u32
    ensures { AtNode node.old.value node.new.value ((result ≡ closed) × (entry.new ≡ entry.old))
        (λ e f. TellsOrNoMemory (TellsStatus (status_listed (state_by e).core index)) result
        entry.old entry.new × (f ≡ e)) }
{
    if !node.is_open() {
        return CLOSED;
    }
    match node.as_mut().status_at(index) {
        Ok(told) => tell_status(told, entry),
        Err(_) => NO_MEMORY,
    }
}

/// Puts what is told of the node with this address into an entry.
#[unsafe(no_mangle)]
pub extern "C" fn seamless_node_of(node: &mut Handle, mac: &[u8; 6], entry: &mut NodeEntry) -> u32
    ensures { AtNode node.old.value node.new.value ((result ≡ closed) × (entry.new ≡ entry.old))
        (λ e f. TellsStatus (status_at (state_by e).core.nodes (record { 0 = mac.now })
        (state_by e).core.time) result entry.old entry.new × (f ≡ e)) }
{
    if !node.is_open() {
        return CLOSED;
    }
    tell_status(node.as_mut().status_of(Mac(*mac)), entry)
}

/// Puts the alarm of this index into an entry, the oldest first.
#[unsafe(no_mangle)]
pub extern "C" fn seamless_alarm_at(node: &mut Handle, index: usize, entry: &mut AlarmEntry) -> u32
    ensures { AtNode node.old.value node.new.value ((result ≡ closed) × (entry.new ≡ entry.old))
        (λ e f. TellsOrNoMemory (TellsAlarm (slice_get (state_by e).core.nodes.alarms index))
        result entry.old entry.new × (f ≡ e)) }
{
    if !node.is_open() {
        return CLOSED;
    }
    match node.as_mut().alarm_at(index) {
        Ok(told) => tell_alarm(told, entry),
        Err(_) => NO_MEMORY,
    }
}
