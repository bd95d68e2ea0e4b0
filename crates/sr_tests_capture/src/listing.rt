//! Files with several interfaces that are Ethernet, which end, or can not be read on, while these are listed.

use super::failing::Broken;
use super::runs::{ALL, Ending, Ends, are_lines, is_ended};
use super::texts::{Text, joined};
use sr_capture::{Listed, Reason};
use sr_capture_script::{Inlet, script};
use std::alloc::Global;
use std::io::{BufRead, BufReader};

/// Where the description of an interface ends in a file, and the list from there on; the first is the second interface that
/// is Ethernet.
pub type Lists = &'static [(usize, u64)];

/// The fault of the first octets of a file: so many. None where they have no second interface that is Ethernet.
fn listed_of(begin: u64, lists: Lists, len: usize) -> Ending {
    let mut ending = None;
    for (end, listed) in lists {
        if *end <= len {
            ending = Some((Inlet::A, begin, Reason::Several(Listed(*listed))));
        }
    }
    ending
}

/// Whether what can be read gives the lines of the packets in it, and ends so.
fn is_run<R: BufRead + Drop>(
    alloc: Global,
    reader: R,
    ends: Ends,
    len: usize,
    ending: Ending,
) -> Option<bool> {
    let mut written: Vec<u8> = Vec::new(alloc);
    let outcome = script(alloc, Some(reader), None, None, &ALL, &mut written);
    Some(is_ended(outcome, ending)? && are_lines(written.as_slice(), ends, len, &[]))
}

/// Whether the script of a reader that fails behind these octets ends with the fault that lists their Ethernet interfaces, or with
/// `Read` where they have fewer than two.
fn is_broken(alloc: Global, octets: &[u8], ends: Ends, begin: u64, lists: Lists) -> Option<bool> {
    let len = octets.len();
    let ending = match listed_of(begin, lists, len) {
        None => Some((Inlet::A, len as u64, Reason::Read)),
        listed => listed,
    };
    let Ok(reader) = BufReader::new(alloc, Broken { octets }) else {
        return None;
    };
    is_run(alloc, reader, ends, len, ending)
}

/// Whether a file that ends behind these octets lists what stands in them.
fn is_front(alloc: Global, octets: &[u8], ends: Ends, begin: u64, lists: Lists) -> Option<bool> {
    match listed_of(begin, lists, octets.len()) {
        None => Some(true),
        ending => is_run(alloc, octets, ends, octets.len(), ending),
    }
}

/// Whether both are so.
fn is_listed(alloc: Global, octets: &[u8], ends: Ends, begin: u64, lists: Lists) -> Option<bool> {
    Some(
        is_broken(alloc, octets, ends, begin, lists)?
            && is_front(alloc, octets, ends, begin, lists)?,
    )
}

/// Whether this is so behind each octet of a file.
pub fn are_listed(alloc: Global, file: Text, ends: Ends, begin: u64, lists: Lists) -> Option<bool> {
    let octets = joined(alloc, file)?;
    for len in 0..octets.len() {
        if !is_listed(alloc, &octets[..len], ends, begin, lists)? {
            return Some(false);
        }
    }
    is_listed(alloc, &octets, ends, begin, lists)
}
