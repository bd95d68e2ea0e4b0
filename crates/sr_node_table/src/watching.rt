//! What a prune looks at: which ports are late, which nodes are gone.
ghost use Rattle.std.specs.Prelude.{◌≡◌, ◌+◌, ◌≤◌, ◌<◌, ◌++◌, [], None, true, is_some, length, if◌then◌else◌};
ghost use Rattle.std.specs.List.{cons_option};
ghost use Rattle.std.specs.Map.{lookup};
ghost use Rattle.circular_buffer.specs.Buffer.{buffer, keep_last};
ghost use Rattle.sr_frame.specs.Addresses.{mac_eq};
ghost use Rattle.sr_node_table.specs.Nodes.{down_of, downs_at};
ghost use Rattle.sr_node_table.specs.Watching.{is_behind, late_port, was_late, alarm_of, alarms_at, found_late, late_at};

use crate::alarm::Alarm;
use crate::late::LatePorts;
use crate::node::{Node, is_live};
use crate::table::{MAX_NODES, NODE_FORGET_TIME};
use circular_buffer::HeapCircularBuffer;
use sr_aged_slots::{Aged, AgedSlots};
use sr_frame::{Mac, Port};

/// A port can be late only where its node was heard less than this ago, in milliseconds (choice of this project).
pub const HEARD_LATELY: u64 = 4500;

/// A port is late where it is more than this behind the other, in milliseconds (choice of this project).
pub const MAX_BEHIND: u64 = 3000;

// Whether a port was never heard, or is far behind the other.
fn is_behind(time: Option<u64>, other: Option<u64>) -> bool
    ensures { result ≡ is_behind time other }
{
    match (time, other) {
        (None, _) => true,
        (Some(_), None) => false,
        (Some(time), Some(other)) => other.saturating_sub(time) > MAX_BEHIND,
    }
}

// The port of a node that is late.
fn late_port(entry: &Aged<Node>, now: u64) -> Option<Port>
    ensures { result ≡ late_port now entry.now }
{
    if now.saturating_sub(entry.time) >= HEARD_LATELY {
        return None;
    }
    let (a, b) = (entry.value.a.time, entry.value.b.time);
    if is_behind(a, b) {
        Some(Port::A)
    } else if is_behind(b, a) {
        Some(Port::B)
    } else {
        None
    }
}

// Whether this port was found late.
fn was_late(before: Option<Port>, port: Port) -> bool
    ensures { result ≡ was_late before port }
{
    before == Some(port)
}

// Which port of a node was found late before, where one is late now, and the index at which to look for the next. For any other
// node it is not looked up.
fn late_before(
    before: &LatePorts,
    index: usize,
    late: Option<Port>,
    mac: Mac,
) -> (Option<Port>, usize)
    ensures { result.0
        ≡ (if is_some late then lookup (mac_eq mac) before.now.ports else None) }
{
    match late {
        Some(port) => before.port_near(index, mac, port),
        None => (None, index),
    }
}

// The alarm of a node that is forgotten.
fn down_of(mac: Mac, entry: &Aged<Node>, now: u64) -> Option<Alarm>
    ensures { result ≡ down_of mac entry.now now }
{
    if is_live(entry, now) {
        None
    } else {
        Some(Alarm::NodeDown { mac, at: now })
    }
}

// The alarm of one node: it is down, or a port of it is late that was not late before.
fn alarm_of(
    before: Option<Port>,
    late: Option<Port>,
    mac: Mac,
    entry: &Aged<Node>,
    now: u64,
) -> Option<Alarm>
    ensures { result ≡ alarm_of before late mac entry.now now }
{
    if let Some(down) = down_of(mac, entry, now) {
        return Some(down);
    }
    let port = late?;
    if was_late(before, port) {
        return None;
    }
    Some(Alarm::RingError { mac, port, at: now })
}

// Raises an alarm, if there is one. Where as many are kept as may be, the oldest goes.
fn raise(alarms: &mut HeapCircularBuffer<Alarm>, alarm: Option<Alarm>)
    ensures { alarms.new ≡ buffer (keep_last alarms.old.capacity
        (alarms.old.items ++ cons_option alarm [])) alarms.old.capacity }
{
    let _room = alarms.capacity();
    if let Some(alarm) = alarm {
        alarms.push_back(alarm);
    }
}

// Keeps a port that is late, if there is one.
fn find(found: &mut LatePorts, mac: Mac, late: Option<Port>)
    requires absent { lookup (mac_eq mac) found.old.ports ≡ None }
    requires room { 0 < found.old.room }
    ensures ports { found.new.ports ≡ found.old.ports ++ cons_option (found_late mac late) [] }
    ensures room { length found.old.ports + found.old.room
        ≤ length found.new.ports + found.new.room }
{
    if let Some(port) = late {
        found.add(mac, port);
    }
}

/// Whether a prune finds the same ports late as the previous one, in the same order, and raises no alarm.
pub fn finds_same(
    nodes: &AgedSlots<Node, NODE_FORGET_TIME, MAX_NODES>,
    before: &LatePorts,
    now: u64,
) -> bool
    ensures ports { result ≡ true → late_at now nodes.now.entries ≡ before.now.ports }
    ensures alarms { result ≡ true → alarms_at before.now.ports now nodes.now.entries ≡ [] }
{
    let most = before.len();
    let mut found = 0;
    for (mac, entry) in nodes.iter() {
        if !is_live(entry, now) {
            return false;
        }
        if let Some(port) = late_port(entry, now) {
            if !before.is_at(found, mac, port) {
                return false;
            }
            found += 1;
        }
    }
    found == most
}

/// Raises the alarms of a prune, entry by entry, and finds the late ports.
pub fn watch(
    nodes: &AgedSlots<Node, NODE_FORGET_TIME, MAX_NODES>,
    before: &LatePorts,
    found: &mut LatePorts,
    alarms: &mut HeapCircularBuffer<Alarm>,
    now: u64,
)
    requires none { found.old.ports ≡ [] }
    requires room { length nodes.now.entries ≤ found.old.room }
    ensures alarms { alarms.new
        ≡ buffer (keep_last alarms.old.capacity (alarms.old.items
        ++ alarms_at before.now.ports now nodes.now.entries)) alarms.old.capacity }
    ensures ports { found.new.ports ≡ late_at now nodes.now.entries }
    ensures room { found.old.room ≤ length found.new.ports + found.new.room }
{
    // The length says that no two addresses are equal.
    let _nodes = nodes.len();
    let _room = alarms.capacity();
    let mut index = 0;
    for (mac, entry) in nodes.iter() {
        let late = late_port(entry, now);
        let (port, next) = late_before(before, index, late, mac);
        index = next;
        raise(alarms, alarm_of(port, late, mac, entry, now));
        find(found, mac, late);
    }
}

/// Raises the alarms of the nodes that are forgotten.
pub fn raise_downs(
    nodes: &AgedSlots<Node, NODE_FORGET_TIME, MAX_NODES>,
    alarms: &mut HeapCircularBuffer<Alarm>,
    now: u64,
)
    ensures { alarms.new ≡ buffer (keep_last alarms.old.capacity
        (alarms.old.items ++ downs_at now nodes.now.entries)) alarms.old.capacity }
{
    let _room = alarms.capacity();
    for (mac, entry) in nodes.iter() {
        raise(alarms, down_of(mac, entry, now));
    }
}
