//! The runs. Each function keeps to itself what it owns, and answers whether all was as it had to be, or None where an
//! allocation failed.

use super::failing::{Broken, Interrupted, Narrow, Recorder, Sparse, Stuck, Unflushed};
use crate::answers::{Ending, are_answers, is_ended};
use sr_forwarding::RoleKind;
use sr_frame::Mac;
use sr_node::Settings;
use sr_script::{Setup, run, run_status};
use sr_session::{Fault, FaultKind};
use sr_slots::Keys;
use std::alloc::Global;
use std::io::{BufRead, BufReader, ErrorKind, Read, Write};

/// The node of a run.
#[derive(Clone, Copy)]
pub enum At {
    Danp,
    Danh,
    San,
}

/// What a run tells of its node.
#[derive(Clone, Copy)]
pub enum Told {
    Frames,
    Status,
}

/// The run that tells this.
fn run_as<R: BufRead, W: Write>(
    told: Told,
    alloc: Global,
    setup: &Setup,
    reader: &mut R,
    writer: &mut W,
) -> Result<(), Fault> {
    match told {
        Told::Frames => run(alloc, setup, reader, writer),
        Told::Status => run_status(alloc, setup, reader, writer),
    }
}

/// A node of this role with the address 02:00:00:00:00:01.
fn node_of(at: At) -> Setup {
    Setup {
        role: match at {
            At::Danp => RoleKind::Danp,
            At::Danh => RoleKind::Danh,
            At::San => RoleKind::San,
        },
        mac: Mac([2, 0, 0, 0, 0, 1]),
        settings: Settings::PLAIN,
        keys: Keys::FIXED,
    }
}

/// A doubly attached node of a PRP network with that address.
fn danp() -> Setup {
    node_of(At::Danp)
}

/// So many times these octets. None where an allocation failed.
fn repeated(alloc: Global, count: usize, octets: &[u8]) -> Option<Vec<u8>> {
    let mut script = Vec::new(alloc);
    for _ in 0..count {
        script.extend_from_slice(octets).ok()?;
    }
    Some(script)
}

/// Whether a run over this reader writes this and ends so.
fn is_read<R: Read + Drop>(
    alloc: Global,
    reader: R,
    wanted: &[u8],
    ending: Ending,
) -> Option<bool> {
    let Ok(mut reader) = BufReader::new(alloc, reader) else {
        return None;
    };
    let mut written: Vec<u8> = Vec::new(alloc);
    let outcome = run(alloc, &danp(), &mut reader, &mut written);
    Some(is_ended(outcome, ending)? && written.as_slice() == wanted)
}

/// Whether a run over a reader that fails behind these octets writes so much, and ends at this line.
pub fn is_broken(
    alloc: Global,
    octets: &[u8],
    kind: ErrorKind,
    wanted: &[u8],
    line: u64,
) -> Option<bool> {
    is_read(
        alloc,
        Broken { octets, kind },
        wanted,
        Some((line, FaultKind::Read)),
    )
}

/// Whether a run over a reader that gives these octets one by one writes this and ends so.
pub fn is_sparse(alloc: Global, octets: &[u8], wanted: &[u8], ending: Ending) -> Option<bool> {
    is_read(alloc, Sparse { octets }, wanted, ending)
}

/// What a run with this writer ends in, and whether it is so. None where an allocation failed.
fn is_written<W: Write>(
    told: Told,
    alloc: Global,
    script: &[u8],
    writer: &mut W,
    ending: Ending,
) -> Option<bool> {
    let mut reader = script;
    is_ended(run_as(told, alloc, &danp(), &mut reader, writer), ending)
}

/// Whether a run with a writer that takes so many octets ends so.
pub fn is_narrow(
    told: Told,
    alloc: Global,
    script: &[u8],
    room: usize,
    ending: Ending,
) -> Option<bool> {
    is_written(told, alloc, script, &mut Narrow { room }, ending)
}

/// Whether a run with a writer that takes so many octets fails, and leaves so many octets to be read.
pub fn leaves(alloc: Global, script: &[u8], room: usize, left: usize) -> Option<bool> {
    let mut reader = script;
    let outcome = run(alloc, &danp(), &mut reader, &mut Narrow { room });
    Some(!is_ended(outcome, None)? && reader.len() == left)
}

/// Whether a run with a writer that can not be flushed ends so.
pub fn is_unflushed(told: Told, alloc: Global, script: &[u8], ending: Ending) -> Option<bool> {
    is_written(told, alloc, script, &mut Unflushed, ending)
}

/// Whether a run of so many times these octets, with a writer that is interrupted again and again, ends well.
pub fn is_interrupted(told: Told, alloc: Global, count: usize, octets: &[u8]) -> Option<bool> {
    let script = repeated(alloc, count, octets)?;
    is_written(
        told,
        alloc,
        &script,
        &mut Interrupted { is_next: true },
        None,
    )
}

/// Whether a run with a writer that takes nothing ends so.
pub fn is_stuck(told: Told, alloc: Global, script: &[u8], ending: Ending) -> Option<bool> {
    is_written(told, alloc, script, &mut Stuck, ending)
}

/// Whether a run of so many times these octets makes these calls of its writer.
pub fn is_recorded(
    told: Told,
    alloc: Global,
    count: usize,
    octets: &[u8],
    calls: &[u8],
) -> Option<bool> {
    let script = repeated(alloc, count, octets)?;
    let mut writer = Recorder::new();
    Some(is_written(told, alloc, &script, &mut writer, None)? && writer.kept(calls))
}

fn runs_again(
    told: Told,
    alloc: Global,
    setup: &Setup,
    script: &[u8],
    answers: &[&[u8]],
    written: &mut Vec<u8>,
) -> bool {
    written.clear();
    let mut reader = script;
    run_as(told, alloc, setup, &mut reader, written).is_ok()
        && are_answers(written, answers, answers.len())
}

/// Whether a run writes these answers, one to each line, and behind them what is told at the end. Where an allocation fails, it
/// ends at the line at work with the lines before it answered, and the next run is whole. What the test itself needs comes first.
pub fn is_taken_up(
    told: Told,
    alloc: Global,
    at: At,
    script: &[u8],
    answers: &[&[u8]],
) -> Option<bool> {
    let setup = node_of(at);
    let mut written: Vec<u8> = Vec::new(alloc);
    written.reserve(1000).ok()?;
    let mut reader = script;
    match run_as(told, alloc, &setup, &mut reader, &mut written) {
        Ok(()) => Some(are_answers(&written, answers, answers.len())),
        Err(
            Fault {
                line,
                kind: FaultKind::Memory,
            },
        ) => {
            let before = (line.clamp(1, 6) - 1) as usize;
            Some(
                are_answers(&written, answers, before)
                    && runs_again(told, alloc, &setup, script, answers, &mut written),
            )
        }
        Err(_) => Some(false),
    }
}
