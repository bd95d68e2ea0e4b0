//! Captures in octets, and how they are read.

use crate::digest::Digest;
use crate::sink::Sink;
use sr_capture::Reason;
use sr_capture_script::{Choice, Delays, Inlet, Interfaces, Options, ScriptFault};
use sr_pcapng::Wanted;

/// One capture or two.
#[derive(Clone, Copy)]
pub struct Files<'a> {
    /// That of A.
    pub first: &'a [u8],
    /// That of B, if there is one.
    pub second: Option<&'a [u8]>,
}

/// One capture, or two where the octet says so. Before two stands the length of the first, two octets.
pub fn files_of(choice: u8, octets: &[u8]) -> Files<'_> {
    match octets {
        [low, high, files @ ..] if choice & 1 != 0 => {
            let len = u16::from_le_bytes([*low, *high]) as usize;
            let (first, second) = files.split_at(len.min(files.len()));
            Files {
                first,
                second: Some(second),
            }
        }
        _ => Files {
            first: octets,
            second: None,
        },
    }
}

/// Which interface an octet names: the only one, or one by its number.
fn wanted_of(choice: u8) -> Wanted {
    if choice & 4 == 0 {
        Wanted::Only
    } else {
        Wanted::Number(u32::from(choice >> 5))
    }
}

/// All packets, read as an octet says: with ticks, of which interface, and with which check sequence.
pub fn options_of(choice: u8) -> Options {
    let wanted = wanted_of(choice);
    let tick = if choice & 2 == 0 { None } else { Some(1000) };
    Options {
        choice: Choice {
            from: 0,
            to: None,
            tick,
        },
        check_len: (choice & 0x18) >> 1,
        delays: Delays { a: 0, b: 0, c: 0 },
        interfaces: Interfaces {
            a: wanted,
            b: wanted,
            c: wanted,
        },
    }
}

/// Whether an allocation failed.
fn is_lack(reason: Reason) -> bool {
    match reason {
        Reason::NoMemory => true,
        _ => false,
    }
}

/// An octet for an inlet.
fn number_of(inlet: Inlet) -> u8 {
    match inlet {
        Inlet::A => 1,
        Inlet::B => 2,
        Inlet::C => 3,
    }
}

/// How a pass over captures ended: at which inlet and octet. None where an allocation failed.
fn end_of(outcome: Result<(), ScriptFault>) -> Option<(u8, u64)> {
    match outcome {
        Ok(()) => Some((0, 0)),
        Err(ScriptFault::NoMemory) => None,
        Err(ScriptFault::File(inlet, fault)) => {
            if is_lack(fault.reason) {
                return None;
            }
            Some((number_of(inlet), fault.at))
        }
        Err(ScriptFault::Write) => Some((4, 0)),
        Err(ScriptFault::Endless) => Some((5, 0)),
    }
}

/// What was written of captures, and how that ended. None where an allocation failed.
pub fn digest_of(sink: Sink, outcome: Result<(), ScriptFault>) -> Option<Digest> {
    let (place, at) = end_of(outcome)?;
    let mut digest = sink.digest;
    digest.put_octet(place);
    digest.put_number(at);
    Some(digest)
}
