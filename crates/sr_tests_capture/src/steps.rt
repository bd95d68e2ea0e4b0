//! One driver for all tests: it makes the runs of a table, and answers at which one it differs.

use super::listing::{Lists, are_listed};
use super::runs::{
    Ending, Ends, are_broken, are_endured, are_fronts, are_prefixes, is_narrow, is_patient,
    is_script, is_taken_up, is_told,
};
use super::texts::Text;
use super::written::{Given, is_unwritten, is_written};
use sr_capture::Reason;
use sr_pcapng::Names;
use std::alloc::Global;
use std::process::Abort;

/// A run, and what has to come of it.
#[derive(Clone, Copy)]
pub enum Step {
    /// A file at A, its script, and how the run ends.
    File(Text, Text, Ending),
    /// Each front of a file, with these packets.
    Prefixes(Text, Ends),
    /// Each front of a file of blocks that end there, with these packets.
    Fronts(Text, &'static [usize], Ends),
    /// A file that can be read up to each of its octets.
    Broken(Text, Ends),
    /// A file, its packets, where the second interface that is Ethernet begins, and what is listed from where on: it ends, or
    /// can be read, up to each of its octets.
    Listed(Text, Ends, u64, Lists),
    /// The writer takes so many octets, and whether it then fails.
    Narrow(Text, usize, bool),
    /// A file whose reader fails when it is asked for octets more often than this, and its script.
    Patient(Text, usize, Text),
    /// A file in which octets are changed, one after the other, so many times.
    Endured(Text, u32),
    /// A file with these packets, and the last line of its script. An allocation may fail once.
    TakenUp(Text, Ends, &'static [u8]),
    /// A reason, and its text.
    Told(Reason, &'static [u8]),
    /// A file of these packets, and its octets.
    Written(Names, &'static [Given], Text),
    /// The writer takes so many octets, which are too few for these packets.
    Unwritten(&'static [Given], usize),
}

/// Whether a run comes to what it has to. None where an allocation failed.
fn comes(alloc: Global, step: Step) -> Option<bool> {
    match step {
        Step::File(file, wanted, ending) => is_script(alloc, file, wanted, ending),
        Step::Prefixes(file, ends) => are_prefixes(alloc, file, ends),
        Step::Fronts(file, blocks, ends) => are_fronts(alloc, file, blocks, ends),
        Step::Broken(file, ends) => are_broken(alloc, file, ends),
        Step::Listed(file, ends, begin, lists) => are_listed(alloc, file, ends, begin, lists),
        Step::Narrow(file, room, fails) => is_narrow(alloc, file, room, fails),
        Step::Patient(file, calls, wanted) => is_patient(alloc, file, calls, wanted),
        Step::Endured(file, count) => are_endured(alloc, file, count),
        Step::TakenUp(file, ends, last) => is_taken_up(alloc, file, ends, last),
        Step::Told(reason, text) => is_told(alloc, reason, text),
        Step::Written(names, packets, wanted) => is_written(alloc, names, packets, wanted),
        Step::Unwritten(packets, room) => Some(is_unwritten(packets, room)),
    }
}

/// The place of the first step that differs, or None. Where an allocation fails, the step is gone again.
fn first_wrong(alloc: Global, steps: &[Step]) -> Option<usize> {
    for (place, step) in steps.iter().enumerate() {
        let is_right = match comes(alloc, *step) {
            None => comes(alloc, *step),
            other => other,
        };
        if is_right != Some(true) {
            return Some(place);
        }
    }
    None
}

/// Fails the test at the place of the first step that differs.
pub fn expect_steps<R: Abort + AllocGlobal>(rt: &R, steps: &[Step]) {
    assert_eq!(rt; first_wrong(rt.alloc(), steps), None);
}
