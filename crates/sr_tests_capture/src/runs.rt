//! The runs. Each function keeps to itself what it owns, and answers whether all was as it had to be, or None where an
//! allocation failed.

use super::failing::{Broken, Impatient, Narrow};
use super::texts::{Text, joined};
use sr_capture::{CaptureFault, Reason};
use sr_capture_script::{Choice, Delays, Inlet, Interfaces, Options, ScriptFault, script};
use sr_pcapng::Wanted;
use std::alloc::Global;
use std::io::BufReader;

/// No interface is named.
const ANY: Interfaces = Interfaces {
    a: Wanted::Only,
    b: Wanted::Only,
    c: Wanted::Only,
};

/// Everything, with no ticks.
pub const ALL: Options = Options {
    choice: Choice {
        from: 0,
        to: None,
        tick: None,
    },
    check_len: 0,
    delays: Delays { a: 0, b: 0, c: 0 },
    interfaces: ANY,
};

/// How a run has to end: with the fault of a file, or well.
pub type Ending = Option<(Inlet, u64, Reason)>;

/// Where a packet ends in a file, and its line.
pub type Ends = &'static [(usize, &'static [u8])];

/// Whether a script that is written to a list ends so. None where an allocation failed, to the list too.
pub fn is_ended(outcome: Result<(), ScriptFault>, ending: Ending) -> Option<bool> {
    match outcome {
        Ok(()) => Some(ending.is_none()),
        Err(ScriptFault::NoMemory) => None,
        Err(ScriptFault::Write) => None,
        Err(
            ScriptFault::File(
                _,
                CaptureFault {
                    reason: Reason::NoMemory,
                    ..
                },
            ),
        ) => None,
        Err(ScriptFault::File(inlet, CaptureFault { at, reason })) => {
            Some(ending == Some((inlet, at, reason)))
        }
        Err(_) => Some(false),
    }
}

/// Whether the script of this file at A is this text, and ends so.
pub fn is_script(alloc: Global, file: Text, wanted: Text, ending: Ending) -> Option<bool> {
    let octets = joined(alloc, file)?;
    let wanted = joined(alloc, wanted)?;
    let mut written: Vec<u8> = Vec::new(alloc);
    let outcome = script(
        alloc,
        Some(octets.as_slice()),
        None,
        None,
        &ALL,
        &mut written,
    );
    Some(is_ended(outcome, ending)? && written.as_slice() == wanted.as_slice())
}

/// Whether the text begins with the lines of the packets that end by so many octets, and what stands behind them is this.
pub fn are_lines(text: &[u8], ends: Ends, len: usize, last: &[u8]) -> bool {
    let mut rest = text;
    for (end, line) in ends {
        if *end <= len {
            match rest.strip_prefix(*line) {
                Some(behind) => rest = behind,
                None => return false,
            }
        }
    }
    rest == last
}

/// Whether the text is none, or the lines up to one of these packets.
fn are_some_lines(text: &[u8], ends: Ends) -> bool {
    for (end, _) in ends {
        if are_lines(text, ends, *end, &[]) {
            return true;
        }
    }
    text.is_empty()
}

/// The fault of the first octets of a file: so many.
fn fault_of(ends: Ends, len: usize) -> Ending {
    if len < 4 {
        return Some((Inlet::A, 0, Reason::Unknown));
    }
    if len < 24 {
        return Some((Inlet::A, 0, Reason::Short));
    }
    let mut begin = 24;
    for (end, _) in ends {
        if *end <= len {
            begin = *end;
        }
    }
    if begin == len {
        None
    } else {
        Some((Inlet::A, begin as u64, Reason::Unfinished))
    }
}

/// Whether a file that ends behind so many octets gives the lines of its whole packets, and ends so.
fn is_prefix(alloc: Global, octets: &[u8], ends: Ends, ending: Ending) -> Option<bool> {
    let mut written: Vec<u8> = Vec::new(alloc);
    let outcome = script(alloc, Some(octets), None, None, &ALL, &mut written);
    let is_right = is_ended(outcome, ending)?;
    let whole: &[u8] = written.as_slice();
    let text = match ending {
        Some(_) => whole,
        None => &whole[..whole.len().saturating_sub(COUNTS_LEN)],
    };
    Some(is_right && are_lines(text, ends, octets.len(), &[]))
}

/// The length of a line `# A 2 packets, 1 cut, 0 long, 0 empty`.
const COUNTS_LEN: usize = 38;

/// Whether each front of a file gives the lines of the packets that it has, and ends within the next one.
pub fn are_prefixes(alloc: Global, file: Text, ends: Ends) -> Option<bool> {
    let octets = joined(alloc, file)?;
    for len in 1..octets.len() {
        if !is_prefix(alloc, &octets[..len], ends, fault_of(ends, len))? {
            return Some(false);
        }
    }
    Some(true)
}

/// The fault of the first octets of a file of blocks that end there: so many.
fn block_fault_of(blocks: &[usize], len: usize) -> Ending {
    let mut begin = 0;
    for end in blocks {
        if *end <= len {
            begin = *end;
        }
    }
    if begin == len {
        None
    } else {
        Some((Inlet::A, begin as u64, Reason::Unfinished))
    }
}

/// Whether each front of a file of blocks gives the lines of the packets that it has, and ends within the next block.
pub fn are_fronts(alloc: Global, file: Text, blocks: &'static [usize], ends: Ends) -> Option<bool> {
    let octets = joined(alloc, file)?;
    for len in 1..octets.len() {
        if !is_prefix(alloc, &octets[..len], ends, block_fault_of(blocks, len))? {
            return Some(false);
        }
    }
    Some(true)
}

/// Whether a reader that fails behind these octets gives the lines of the packets in them, and the fault is there.
fn is_broken(alloc: Global, octets: &[u8], ends: Ends) -> Option<bool> {
    let Ok(reader) = BufReader::new(alloc, Broken { octets }) else {
        return None;
    };
    let mut written: Vec<u8> = Vec::new(alloc);
    let outcome = script(alloc, Some(reader), None, None, &ALL, &mut written);
    let ending = Some((Inlet::A, octets.len() as u64, Reason::Read));
    Some(is_ended(outcome, ending)? && are_lines(written.as_slice(), ends, octets.len(), &[]))
}

/// Whether this is so behind each octet of a file.
pub fn are_broken(alloc: Global, file: Text, ends: Ends) -> Option<bool> {
    let octets = joined(alloc, file)?;
    for len in 0..octets.len() {
        if !is_broken(alloc, &octets[..len], ends)? {
            return Some(false);
        }
    }
    is_broken(alloc, &octets, ends)
}

/// Whether a writer that takes so many octets fails.
pub fn is_narrow(alloc: Global, file: Text, room: usize, fails: bool) -> Option<bool> {
    let octets = joined(alloc, file)?;
    let outcome = script(
        alloc,
        Some(octets.as_slice()),
        None,
        None,
        &ALL,
        &mut Narrow { room },
    );
    match outcome {
        Err(ScriptFault::Write) => Some(fails),
        other => Some(is_ended(other, None)? && !fails),
    }
}

/// Whether a reader that is asked at most so often, and has 65536 octets at hand, gives this script.
pub fn is_patient(alloc: Global, file: Text, calls: usize, wanted: Text) -> Option<bool> {
    let octets = joined(alloc, file)?;
    let wanted = joined(alloc, wanted)?;
    let reader = Impatient {
        octets: &octets,
        calls,
    };
    let mut written: Vec<u8> = Vec::new(alloc);
    let outcome = script(alloc, Some(reader), None, None, &ALL, &mut written);
    Some(is_ended(outcome, None)? && written.as_slice() == wanted.as_slice())
}

/// The next of numbers without order.
fn next(number: u32) -> u32 {
    let one = number ^ (number << 13);
    let two = one ^ (one >> 17);
    two ^ (two << 5)
}

/// Whether a file of which some octets were changed gives a script, or a fault at one of its octets.
fn is_endured(alloc: Global, octets: &[u8]) -> Option<bool> {
    let mut written: Vec<u8> = Vec::new(alloc);
    match script(alloc, Some(octets), None, None, &ALL, &mut written) {
        Ok(()) => Some(true),
        Err(ScriptFault::NoMemory) => None,
        Err(ScriptFault::Write) => None,
        Err(
            ScriptFault::File(
                Inlet::A,
                CaptureFault {
                    reason: Reason::NoMemory,
                    ..
                },
            ),
        ) => None,
        Err(ScriptFault::File(Inlet::A, fault)) => Some(fault.at <= octets.len() as u64),
        Err(_) => Some(false),
    }
}

/// Whether this is so for many changes.
pub fn are_endured(alloc: Global, file: Text, count: u32) -> Option<bool> {
    let mut octets = joined(alloc, file)?;
    let mut number = 1;
    for _ in 0..count {
        number = next(number);
        let len = octets.len();
        if let Some(octet) = octets.get_mut(number as usize % len.max(1)) {
            *octet = (number >> 24) as u8;
        }
        if !is_endured(alloc, &octets)? {
            return Some(false);
        }
    }
    Some(true)
}

fn runs_again(
    alloc: Global,
    octets: &[u8],
    ends: Ends,
    last: &[u8],
    written: &mut Vec<u8>,
) -> bool {
    written.clear();
    script(alloc, Some(octets), None, None, &ALL, written).is_ok()
        && are_lines(written.as_slice(), ends, octets.len(), last)
}

/// Whether a file gives these lines, and these behind them. Where an allocation fails, some of them are written, and the
/// next run is whole. What the test itself needs comes first.
pub fn is_taken_up(alloc: Global, file: Text, ends: Ends, last: &'static [u8]) -> Option<bool> {
    let octets = joined(alloc, file)?;
    let mut written: Vec<u8> = Vec::new(alloc);
    written.reserve(400).ok()?;
    let outcome = script(
        alloc,
        Some(octets.as_slice()),
        None,
        None,
        &ALL,
        &mut written,
    );
    match is_ended(outcome, None) {
        Some(is_right) => {
            Some(is_right && are_lines(written.as_slice(), ends, octets.len(), last))
        }
        None => {
            Some(
                are_some_lines(written.as_slice(), ends)
                    && runs_again(alloc, &octets, ends, last, &mut written),
            )
        }
    }
}

/// Whether this is the text of a reason.
pub fn is_told(alloc: Global, reason: Reason, text: &'static [u8]) -> Option<bool> {
    let told = format!(in alloc; "{reason}").ok()?;
    Some(told.as_bytes() == text)
}
