//! What a C program is told, in structs of numbers.

ghost use Rattle.std.specs.Prelude.{◌≡◌};
ghost use Rattle.sr_c.specs.Entries.{TellsAlarm, TellsCounters, TellsProxied, TellsStatus, alarm_entry, node_entry, octets_or_zeros, proxied_entry};

use crate::codes::{ARGUMENT, port_number};
use sr_endpoint::Endpoint;
use sr_frame::{Mac, Port};
use sr_node_table::{Alarm, Status};

/// What is told of a node.
#[repr(C)]
#[derive(Clone, Copy, Drop)]
pub struct NodeEntry {
    /// Its address.
    pub mac: [u8; 6],
    /// The RedBox that it stands behind.
    pub redbox: [u8; 6],
    /// 1 where it stands behind a RedBox, and else 0.
    pub has_redbox: u8,
    /// How long ago it was heard at port A, in milliseconds.
    pub age_a: u32,
    /// How long ago it was heard at port B, in milliseconds.
    pub age_b: u32,
    /// The number of its last numbered frame at port A.
    pub seq_a: u16,
    /// The number of its last numbered frame at port B.
    pub seq_b: u16,
}

/// An alarm.
#[repr(C)]
#[derive(Clone, Copy, Drop)]
pub struct AlarmEntry {
    /// The node that it is of.
    pub mac: [u8; 6],
    /// 1: it is not heard at a port. 2: it is not heard.
    pub kind: u8,
    /// The port, where the kind is 1.
    pub port: u8,
    /// When, in milliseconds.
    pub at: u64,
}

/// What was counted at a port.
#[repr(C)]
#[derive(Clone, Copy, Drop)]
pub struct CountersEntry {
    /// Frames that came in, those that were refused too.
    pub received: u64,
    /// Frames that were taken out.
    pub sent: u64,
    /// Frames that came in with the other LAN's trailer.
    pub wrong_lan: u64,
    /// Refused: octets that are no frame for this port.
    pub unread: u64,
    /// Refused: a frame without the tag that the port asks for.
    pub untagged: u64,
    /// Refused: the table of sources was full.
    pub table_full: u64,
    /// Refused: an outbox was full.
    pub outbox_full: u64,
    /// Refused: an allocation failed.
    pub no_memory: u64,
    /// Frames that came in with the node's address as their source.
    pub own: u64,
}

/// An address that a RedBox stands for.
#[repr(C)]
#[derive(Clone, Copy, Drop)]
pub struct ProxiedEntry {
    /// The address.
    pub mac: [u8; 6],
    /// When it was last heard at the interlink, in milliseconds.
    pub at: u64,
}

/// Where a program stands that asks for alarms again and again.
#[repr(C)]
#[derive(Clone, Copy, Drop)]
pub struct CursorEntry {
    /// The number of the next alarm that it wants.
    pub number: u64,
    /// How many of those that it wanted are not kept any more.
    pub missed: u64,
    /// How many it was told.
    pub count: u64,
}

// The octets of an address that may be missing: zeros then.
fn octets_of(mac: Option<Mac>) -> [u8; 6]
    ensures { result ≡ octets_or_zeros mac }
{
    match mac {
        Some(mac) => mac.0,
        None => [0; 6],
    }
}

/// What is told of a node.
pub(crate) fn node_entry(status: &Status) -> NodeEntry
    ensures { result ≡ node_entry status.now }
{
    let Mac(mac) = status.addr;
    NodeEntry {
        mac,
        redbox: octets_of(status.redbox),
        has_redbox: u8::from(status.redbox.is_some()),
        age_a: status.if1_age,
        age_b: status.if2_age,
        seq_a: status.if1_seq,
        seq_b: status.if2_seq,
    }
}

/// An alarm.
pub(crate) fn alarm_entry(alarm: &Alarm) -> AlarmEntry
    ensures { result ≡ alarm_entry alarm.now }
{
    let (kind, mac, port, at) = match alarm {
        Alarm::RingError { mac, port, at } => (1, mac.0, port_number(*port), *at),
        Alarm::NodeDown { mac, at } => (2, mac.0, 0, *at),
    };
    AlarmEntry {
        mac,
        kind,
        port,
        at,
    }
}

/// Puts what is told of a node into an entry.
pub(crate) fn tell_status(told: Option<Status>, entry: &mut NodeEntry) -> u32
    ensures { TellsStatus told result entry.old entry.new }
{
    let Some(status) = told else {
        return ARGUMENT;
    };
    *entry = node_entry(&status);
    0
}

/// Puts an alarm into an entry.
pub(crate) fn tell_alarm(told: Option<Alarm>, entry: &mut AlarmEntry) -> u32
    ensures { TellsAlarm told result entry.old entry.new }
{
    let Some(alarm) = told else {
        return ARGUMENT;
    };
    *entry = alarm_entry(&alarm);
    0
}

/// An address that a RedBox stands for.
pub(crate) fn proxied_entry(proxied: &(Mac, u64)) -> ProxiedEntry
    ensures { result ≡ proxied_entry proxied.now }
{
    let (address, at) = *proxied;
    let Mac(mac) = address;
    ProxiedEntry { mac, at }
}

/// Puts an address into an entry.
pub(crate) fn tell_proxied(told: Option<(Mac, u64)>, entry: &mut ProxiedEntry) -> u32
    ensures { TellsProxied told result entry.old entry.new }
{
    let Some(proxied) = told else {
        return ARGUMENT;
    };
    *entry = proxied_entry(&proxied);
    0
}

/// Puts what was counted at a port into an entry.
pub(crate) fn tell_counters(
    endpoint: &Endpoint,
    port: Option<Port>,
    entry: &mut CountersEntry,
) -> u32
    ensures { TellsCounters port endpoint.now result entry.old entry.new }
{
    let Some(port) = port else {
        return ARGUMENT;
    };
    let counters = endpoint.counters();
    *entry = CountersEntry {
        received: *counters.received.at(port),
        sent: *counters.sent.at(port),
        wrong_lan: endpoint.wrong_lan(port),
        unread: *counters.unread.at(port),
        untagged: *counters.untagged.at(port),
        table_full: *counters.table_full.at(port),
        outbox_full: *counters.outbox_full.at(port),
        no_memory: *counters.no_memory.at(port),
        own: *counters.own.at(port),
    };
    0
}
