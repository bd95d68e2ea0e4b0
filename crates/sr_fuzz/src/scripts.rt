//! Scripts at nodes of each role.

use crate::digest::Digest;
use crate::sink::Sink;
use sr_dup_table::Width;
use sr_forwarding::{NetId, RoleKind};
use sr_frame::Mac;
use sr_node::{Mode, Settings};
use sr_prp_trailer::Lan;
use sr_script::{Setup, run, run_status, run_tally};
use sr_session::{Fault, FaultKind};
use sr_slots::Keys;
use std::alloc::Global;

/// The role that an octet names.
fn role_of(choice: u8) -> RoleKind {
    match choice % 6 {
        0 => RoleKind::Danp,
        1 => RoleKind::Danh,
        2 => RoleKind::San,
        3 => RoleKind::Prp {
            lan: Lan::A,
            net: NetId::One,
        },
        4 => RoleKind::Prp {
            lan: Lan::B,
            net: NetId::Six,
        },
        _ => RoleKind::Hsr,
    }
}

/// The settings that an octet names.
pub fn settings_of(choice: u8) -> Settings {
    let mode = if choice & 0x40 == 0 { Mode::H } else { Mode::X };
    let width = if choice & 0x80 == 0 {
        Width::Narrow
    } else {
        Width::Wide
    };
    Settings { mode, width }
}

/// The node that an octet names, with the address 02:00:00:00:00:01.
fn with(choice: u8) -> Setup {
    Setup {
        role: role_of(choice),
        mac: Mac([2, 0, 0, 0, 0, 1]),
        settings: settings_of(choice),
        keys: Keys::FIXED,
    }
}

/// How a run ended. None where an allocation failed.
fn end_of(outcome: Result<(), Fault>) -> Option<(u64, u8)> {
    let Err(fault) = outcome else {
        return Some((0, 0));
    };
    let word = match fault.kind {
        FaultKind::Line => 1,
        FaultKind::Long => 2,
        FaultKind::Read => 3,
        FaultKind::Write => 4,
        FaultKind::Memory => return None,
    };
    Some((fault.line, word))
}

/// Runs a script, and tells its frames, its status, or its status with counts.
fn run_as(alloc: Global, choice: u8, script: &[u8], sink: &mut Sink) -> Result<(), Fault> {
    let setup = with(choice);
    let mut reader = script;
    match choice & 0x30 {
        0x10 => run_status(alloc, &setup, &mut reader, sink),
        0x20 => run_tally(alloc, &setup, &mut reader, sink),
        _ => run(alloc, &setup, &mut reader, sink),
    }
}

/// What a run wrote, and how it ended. None where an allocation failed.
pub fn digest_of(sink: Sink, outcome: Result<(), Fault>) -> Option<Digest> {
    let (line, word) = end_of(outcome)?;
    let mut digest = sink.digest;
    digest.put_number(line);
    digest.put_octet(word);
    Some(digest)
}

/// What comes of a script: its first octet names the node and what is told. None where an allocation failed.
pub fn come_of(alloc: Global, octets: &[u8]) -> Option<Digest> {
    let [choice, script @ ..] = octets else {
        return Some(Digest::new());
    };
    let mut sink = Sink::new();
    let outcome = run_as(alloc, *choice, script, &mut sink);
    digest_of(sink, outcome)
}
