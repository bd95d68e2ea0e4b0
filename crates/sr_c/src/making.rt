//! How a node is made of what a C program says.

ghost use Rattle.std.specs.Prelude.{◌≡◌, IfErr, IfOk};
ghost use Rattle.sr_endpoint.specs.AlarmLogs.{no_alarms};
ghost use Rattle.sr_endpoint.specs.Counting.{no_traffic};
ghost use Rattle.sr_endpoint.specs.Endpoints.{new_state, state_by};
ghost use Rattle.sr_endpoint.specs.Snapshots.{JoinsSnapshot, RefusesSnapshot};
ghost use Rattle.sr_c.specs.Setups.{has_key, kind_by, lan_by, mode_by, net_by, prp_kind, setup_by, width_by};

use sr_dup_table::{DupFault, Width};
use sr_endpoint::{Endpoint, Setup};
use sr_forwarding::{NetId, RoleKind};
use sr_frame::{Mac, NoMemory};
use sr_node::{Mode, Settings};
use sr_prp_trailer::Lan;
use sr_slots::Keys;
use std::alloc::Global;

/// What a C program says of a new node.
#[repr(C)]
#[derive(Clone, Copy, Drop)]
pub struct SetupEntry {
    /// Its address.
    pub mac: [u8; 6],
    /// Its role: 0 DANP, 1 DANH, 2 RedBox for SANs, 3 RedBox for a LAN, 4 RedBox for a ring.
    pub role: u8,
    /// Its mode: 0 H, 1 X.
    pub mode: u8,
    /// How many numbers of a source it remembers: 0 for 1024, 1 for 2048.
    pub width: u8,
    /// For role 3: the LAN, 0 for A and 1 for B.
    pub lan: u8,
    /// For role 3: the number of the network, 1 to 6.
    pub net: u8,
    /// 0 for the octets of `key`, 1 for a key that anyone can know.
    pub fixed_key: u8,
    /// 32 octets of the system's source of randomness.
    pub key: [u8; 32],
}

fn lan_of(number: u8) -> Option<Lan>
    ensures { result ≡ lan_by number }
{
    match number {
        0 => Some(Lan::A),
        1 => Some(Lan::B),
        _ => None,
    }
}

fn mode_of(number: u8) -> Option<Mode>
    ensures { result ≡ mode_by number }
{
    match number {
        0 => Some(Mode::H),
        1 => Some(Mode::X),
        _ => None,
    }
}

fn width_of(number: u8) -> Option<Width>
    ensures { result ≡ width_by number }
{
    match number {
        0 => Some(Width::Narrow),
        1 => Some(Width::Wide),
        _ => None,
    }
}

fn net_of(number: u8) -> Option<NetId>
    ensures { result ≡ net_by number }
{
    match number {
        1 => Some(NetId::One),
        2 => Some(NetId::Two),
        3 => Some(NetId::Three),
        4 => Some(NetId::Four),
        5 => Some(NetId::Five),
        6 => Some(NetId::Six),
        _ => None,
    }
}

fn prp_kind(lan: Option<Lan>, net: Option<NetId>) -> Option<RoleKind>
    ensures { result ≡ prp_kind lan net }
{
    match (lan, net) {
        (Some(lan), Some(net)) => Some(RoleKind::Prp { lan, net }),
        _ => None,
    }
}

fn kind_of(entry: &SetupEntry) -> Option<RoleKind>
    ensures { result ≡ kind_by entry.now }
{
    match entry.role {
        0 => Some(RoleKind::Danp),
        1 => Some(RoleKind::Danh),
        2 => Some(RoleKind::San),
        3 => prp_kind(lan_of(entry.lan), net_of(entry.net)),
        4 => Some(RoleKind::Hsr),
        _ => None,
    }
}

// Whether the entry has a key: octets that are not all 0, or the one that anyone can know, which is asked for by name.
fn has_key(entry: &SetupEntry) -> bool
    ensures { result ≡ has_key entry.now }
{
    match entry.fixed_key {
        0 => entry.key != [0; 32],
        1 => true,
        _ => false,
    }
}

/// The setup that the numbers of an entry stand for. None where one stands for nothing, and where there is no key.
pub(crate) fn setup_of(entry: &SetupEntry) -> Option<Setup>
    ensures { result ≡ setup_by entry.now }
{
    if !has_key(entry) {
        return None;
    }
    match (kind_of(entry), mode_of(entry.mode), width_of(entry.width)) {
        (Some(kind), Some(mode), Some(width)) => Some(Setup {
            kind,
            mac: Mac(entry.mac),
            settings: Settings { mode, width },
        }),
        _ => None,
    }
}

/// The keys of an entry: those of its octets, or the ones that anyone can know where it asks for them by name.
pub(crate) fn entry_keys(entry: &SetupEntry) -> Keys {
    if entry.fixed_key == 1 {
        return Keys::FIXED;
    }
    Keys::of(entry.key)
}

/// A new node in a box.
pub(crate) fn endpoint_of(
    alloc: Global,
    setup: &Setup,
    keys: Keys,
) -> Result<Box<Endpoint>, NoMemory>
    ensures begun { IfOk result (λ e. state_by e.value ≡ new_state setup.now) }
    ensures uncounted { IfOk result (λ e. (e.value.counters ≡ no_traffic)
        × (e.value.log ≡ no_alarms)) }
{
    boxed(alloc, Endpoint::new(alloc, setup, keys)?)
}

/// A node that goes on with what a snapshot says, in a box.
pub(crate) fn resumed_of(
    alloc: Global,
    setup: &Setup,
    keys: Keys,
    octets: &[u8],
) -> Result<Box<Endpoint>, DupFault>
    ensures resumed { IfOk result (λ e.
        JoinsSnapshot (new_state setup.now) octets.now (state_by e.value)) }
    ensures refused { IfErr result (λ fault.
        RefusesSnapshot (new_state setup.now) octets.now fault) }
    ensures uncounted { IfOk result (λ e. (e.value.counters ≡ no_traffic)
        × (e.value.log ≡ no_alarms)) }
{
    let endpoint = Endpoint::resumed(alloc, setup, keys, octets)?;
    Ok(boxed(alloc, endpoint)?)
}

/// A node in a box.
pub(crate) fn boxed(alloc: Global, endpoint: Endpoint) -> Result<Box<Endpoint>, NoMemory>
    ensures { IfOk result (λ e. e.value ≡ endpoint) }
{
    match Box::new(alloc, endpoint) {
        Ok(boxed) => Ok(boxed),
        Err(_) => Err(NoMemory),
    }
}
