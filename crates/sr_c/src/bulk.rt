//! What a node tells in lists: of others, of alarms, of addresses that it stands for, and its record of duplicates.

ghost use Rattle.std.specs.Prelude.{◌≡◌, IfOk, OnErr, OnOk, map, slice_get};
ghost use Rattle.sr_forwarding.specs.Proxies.{recent_of};
ghost use Rattle.sr_endpoint.specs.AlarmLogs.{Looks, after_look, missed_from};
ghost use Rattle.sr_endpoint.specs.Endpoints.{state_by};
ghost use Rattle.sr_endpoint.specs.Telling.{all_statuses};
ghost use Rattle.sr_c.specs.Calls.{AbsorbsAs, AtNode, TellsOrNoMemory};
ghost use Rattle.sr_c.specs.Codes.{closed, no_memory};
ghost use Rattle.sr_c.specs.Entries.{TellsProxied, alarm_entry, node_entry, proxied_entry};
ghost use Rattle.sr_c.specs.Lists.{PutsList, PutsListOrNoMemory, TellsAlarmsSince, WritesSnapshot, kept_entries};

use crate::codes::{CLOSED, NO_MEMORY, taken_over_code};
use crate::entries::{AlarmEntry, CursorEntry, NodeEntry, ProxiedEntry, tell_proxied};
use crate::handle::Handle;
use crate::lists::{alarm_entries, node_entries, proxied_entries, put_front, put_whole};
use sr_endpoint::Endpoint;
use sr_frame::NoMemory;
use std::alloc::Global;

// Puts a list at the front of an array, as far as there is room, and its length into a count.
fn list<T: Copy>(told: Result<Vec<T>, NoMemory>, entries: &mut [T], count: &mut usize) -> u32
    ensures told { IfOk told (λ told.
        PutsList told.items result entries.old entries.new count.new) }
    ensures err { OnErr told ((result ≡ no_memory) × (entries.new ≡ entries.old)
        × (count.new ≡ count.old)) }
{
    let Ok(told) = told else {
        return NO_MEMORY;
    };
    put_front(&told, entries);
    *count = told.len();
    0
}

// What is told of all nodes.
fn nodes_of(alloc: Global, endpoint: &Endpoint) -> Result<Vec<NodeEntry>, NoMemory>
    ensures { IfOk result (λ told. told.items
        ≡ map node_entry (all_statuses (state_by endpoint.now).core)) }
{
    let told = endpoint.statuses()?;
    node_entries(alloc, &told)
}

// The alarms that are kept.
fn alarms_of(alloc: Global, endpoint: &Endpoint) -> Result<Vec<AlarmEntry>, NoMemory>
    ensures { IfOk result (λ told. told.items
        ≡ map alarm_entry (state_by endpoint.now).core.nodes.alarms) }
{
    let told = endpoint.alarms()?;
    alarm_entries(alloc, &told)
}

// The addresses that the node stands for.
fn proxied_of(alloc: Global, endpoint: &Endpoint) -> Result<Vec<ProxiedEntry>, NoMemory>
    ensures { IfOk result (λ told. told.items ≡ map proxied_entry
        (recent_of (state_by endpoint.now).role.proxied (state_by endpoint.now).core.time)) }
{
    let told = endpoint.proxied()?;
    proxied_entries(alloc, &told)
}

// Puts the snapshot of a node into a buffer, where there is room for it, and its length into a count.
fn write_snapshot(endpoint: &Endpoint, buffer: &mut [u8], count: &mut usize) -> u32
    ensures { WritesSnapshot endpoint.now result buffer.old buffer.new count.old count.new }
{
    let Ok(octets) = endpoint.snapshot() else {
        return NO_MEMORY;
    };
    put_whole(&octets, buffer);
    *count = octets.len();
    0
}

// The alarms from a number on that are kept, as entries, and how many are not kept any more.
fn alarms_since(
    alloc: Global,
    endpoint: &mut Endpoint,
    number: u64,
) -> Result<(Vec<AlarmEntry>, u64), NoMemory>
    ensures told { IfOk result (λ since. since.0.items ≡ kept_entries endpoint.new.log number) }
    ensures missed { IfOk result (λ since. since.1 ≡ missed_from endpoint.new.log number) }
    ensures looked { OnOk result (endpoint.new.log ≡ after_look endpoint.old.log
        (state_by endpoint.old).core.nodes.alarms) }
    ensures left { OnErr result (Looks (state_by endpoint.old).core.nodes.alarms
        endpoint.old.log endpoint.new.log) }
    ensures same { (state_by endpoint.new ≡ state_by endpoint.old)
        × (endpoint.new.counters ≡ endpoint.old.counters) }
{
    endpoint.look_at_alarms()?;
    let log = endpoint.alarm_log();
    let told = alarm_entries(alloc, log.kept_from(number))?;
    Ok((told, log.missed_from(number)))
}

// Tells the alarms from a cursor's number on, as far as there is room, and moves the cursor on.
fn tell_since(
    alloc: Global,
    endpoint: &mut Endpoint,
    cursor: &mut CursorEntry,
    entries: &mut [AlarmEntry],
) -> u32
    ensures tells { TellsAlarmsSince endpoint.old endpoint.new result cursor.old cursor.new
        entries.old entries.new }
    ensures same { (state_by endpoint.new ≡ state_by endpoint.old)
        × (endpoint.new.counters ≡ endpoint.old.counters) }
{
    let Ok((told, missed)) = alarms_since(alloc, endpoint, cursor.number) else {
        return NO_MEMORY;
    };
    put_front(&told, entries);
    let count = told.len().min(entries.len()) as u64;
    *cursor = CursorEntry {
        number: cursor.number.saturating_add(missed).saturating_add(count),
        missed,
        count,
    };
    0
}

/// Puts what is told of the other nodes into an array, in the order of first hearing, as far as there is room, and how many they are into
/// a count.
#[unsafe(no_mangle)]
pub extern "C" fn seamless_nodes(
    alloc: Global,
    node: &mut Handle,
    entries: &mut [NodeEntry],
    count: &mut usize,
) -> u32
    ensures { AtNode node.old.value node.new.value
        ((result ≡ closed) × (entries.new ≡ entries.old) × (count.new ≡ count.old))
        (λ e f. PutsListOrNoMemory (map node_entry (all_statuses (state_by e).core)) result
        entries.old entries.new count.old count.new × (f ≡ e)) }
{
    if !node.is_open() {
        return CLOSED;
    }
    list(nodes_of(alloc, node.as_mut()), entries, count)
}

/// Puts the alarms that are kept into an array, the oldest first, as far as there is room, and how many they are into a count.
#[unsafe(no_mangle)]
pub extern "C" fn seamless_alarms(
    alloc: Global,
    node: &mut Handle,
    entries: &mut [AlarmEntry],
    count: &mut usize,
) -> u32
    ensures { AtNode node.old.value node.new.value
        ((result ≡ closed) × (entries.new ≡ entries.old) × (count.new ≡ count.old))
        (λ e f. PutsListOrNoMemory (map alarm_entry (state_by e).core.nodes.alarms) result
        entries.old entries.new count.old count.new × (f ≡ e)) }
{
    if !node.is_open() {
        return CLOSED;
    }
    list(alarms_of(alloc, node.as_mut()), entries, count)
}

/// Puts the alarms from a cursor's number on into an array, the oldest first, as far as there is room, and moves the cursor behind them.
#[unsafe(no_mangle)]
pub extern "C" fn seamless_alarms_since(
    alloc: Global,
    node: &mut Handle,
    cursor: &mut CursorEntry,
    entries: &mut [AlarmEntry],
) -> u32
    ensures { AtNode node.old.value node.new.value
        ((result ≡ closed) × (entries.new ≡ entries.old) × (cursor.new ≡ cursor.old))
        (λ e f. TellsAlarmsSince e f result cursor.old cursor.new entries.old entries.new
        × (state_by f ≡ state_by e) × (f.counters ≡ e.counters)) }
{
    if !node.is_open() {
        return CLOSED;
    }
    tell_since(alloc, node.as_mut(), cursor, entries)
}

/// Puts the addresses that the node stands for beside its own into an array, in the order of first hearing, as far as there is room, and
/// how many they are into a count.
#[unsafe(no_mangle)]
pub extern "C" fn seamless_proxied(
    alloc: Global,
    node: &mut Handle,
    entries: &mut [ProxiedEntry],
    count: &mut usize,
) -> u32
    ensures { AtNode node.old.value node.new.value
        ((result ≡ closed) × (entries.new ≡ entries.old) × (count.new ≡ count.old))
        (λ e f. PutsListOrNoMemory (map proxied_entry (recent_of (state_by e).role.proxied
        (state_by e).core.time)) result entries.old entries.new count.old count.new × (f ≡ e)) }
{
    if !node.is_open() {
        return CLOSED;
    }
    list(proxied_of(alloc, node.as_mut()), entries, count)
}

/// Puts the address of this index, of those that the node stands for beside its own, into an entry.
#[unsafe(no_mangle)]
pub extern "C" fn seamless_proxied_at(
    node: &mut Handle,
    index: usize,
    entry: &mut ProxiedEntry,
) -> u32
    ensures { AtNode node.old.value node.new.value ((result ≡ closed) × (entry.new ≡ entry.old))
        (λ e f. TellsOrNoMemory (TellsProxied (slice_get (recent_of (state_by e).role.proxied
        (state_by e).core.time) index)) result entry.old entry.new × (f ≡ e)) }
{
    if !node.is_open() {
        return CLOSED;
    }
    match node.as_mut().proxied_at(index) {
        Ok(told) => tell_proxied(told, entry),
        Err(_) => NO_MEMORY,
    }
}

/// Puts what the node has noted of each source into a buffer as octets, where there is room for them, and how many they are into a count.
#[unsafe(no_mangle)]
pub extern "C" fn seamless_snapshot(node: &mut Handle, buffer: &mut [u8], count: &mut usize) -> u32
    ensures { AtNode node.old.value node.new.value
        ((result ≡ closed) × (buffer.new ≡ buffer.old) × (count.new ≡ count.old))
        (λ e f. WritesSnapshot e result buffer.old buffer.new count.old count.new × (f ≡ e)) }
{
    if !node.is_open() {
        return CLOSED;
    }
    write_snapshot(node.as_mut(), buffer, count)
}

/// Takes over what the snapshot of another node says.
#[unsafe(no_mangle)]
pub extern "C" fn seamless_absorb(node: &mut Handle, octets: &[u8]) -> u32
    ensures { AtNode node.old.value node.new.value (result ≡ closed)
        (AbsorbsAs octets.now result) }
{
    if !node.is_open() {
        return CLOSED;
    }
    taken_over_code(node.as_mut().absorb(octets))
}
