//! One driver for all tests: it makes the runs of a table, and answers at which one it differs.

use super::runs::{
    At, Told, is_broken, is_interrupted, is_narrow, is_recorded, is_sparse, is_stuck, is_taken_up,
    is_unflushed, leaves,
};
use crate::answers::Ending;
use std::alloc::Global;
use std::io::ErrorKind;
use std::process::Abort;

/// A run, and what has to come of it.
#[derive(Clone, Copy)]
pub enum Step {
    /// The reader gives these octets and then fails so: what is written, and at which line the run ends.
    Broken(&'static [u8], ErrorKind, &'static [u8], u64),
    /// The reader gives these octets one by one: what is written, and how the run ends.
    Sparse(&'static [u8], &'static [u8], Ending),
    /// The writer takes so many octets and then fails.
    Narrow(Told, &'static [u8], usize, Ending),
    /// The writer takes so many octets and then fails, and so many octets are left to be read.
    Left(&'static [u8], usize, usize),
    /// The writer takes all, and does not pass it on.
    Unflushed(Told, &'static [u8], Ending),
    /// A script of so many times these octets: the writer is interrupted again and again, and the run ends well.
    Interrupted(Told, usize, &'static [u8]),
    /// The writer takes nothing.
    Stuck(Told, &'static [u8], Ending),
    /// A script of so many times these octets, and the calls of its writer.
    Recorded(Told, usize, &'static [u8], &'static [u8]),
    /// A script at a node, and the answers to each of its lines. An allocation may fail once.
    TakenUp(At, &'static [u8], &'static [&'static [u8]]),
    /// A script at a node, the answers to each of its lines, and the status behind them. An allocation may fail once.
    StatusTakenUp(At, &'static [u8], &'static [&'static [u8]]),
}

/// Whether a run comes to what it has to. None where an allocation failed.
fn comes(alloc: Global, step: Step) -> Option<bool> {
    match step {
        Step::Recorded(told, count, octets, calls) => is_recorded(
            told, alloc, count, octets, calls,
        ),
        Step::Broken(octets, kind, wanted, line) => is_broken(alloc, octets, kind, wanted, line),
        Step::Sparse(octets, wanted, ending) => is_sparse(alloc, octets, wanted, ending),
        Step::Narrow(told, script, room, ending) => is_narrow(told, alloc, script, room, ending),
        Step::Left(script, room, left) => leaves(alloc, script, room, left),
        Step::Unflushed(told, script, ending) => is_unflushed(told, alloc, script, ending),
        Step::Interrupted(told, count, octets) => is_interrupted(told, alloc, count, octets),
        Step::Stuck(told, script, ending) => is_stuck(told, alloc, script, ending),
        Step::TakenUp(at, script, answers) => {
            is_taken_up(Told::Frames, alloc, at, script, answers)
        }
        Step::StatusTakenUp(at, script, answers) => {
            is_taken_up(Told::Status, alloc, at, script, answers)
        }
    }
}

/// The place of the first step that differs, or None. Where an allocation fails, the step is gone again.
fn first_wrong(alloc: Global, steps: &[Step]) -> Option<usize> {
    for (place, step) in steps.iter().enumerate() {
        let is_right = match comes(alloc, *step) {
            None => comes(alloc, *step),
            other => other,
        };
        if is_right != Some(true) {
            return Some(place);
        }
    }
    None
}

/// Fails the test at the place of the first step that differs.
pub fn expect_steps<R: Abort + AllocGlobal>(rt: &R, steps: &[Step]) {
    assert_eq!(rt; first_wrong(rt.alloc(), steps), None);
}
