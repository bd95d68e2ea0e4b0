//! One driver for all tests: it makes the runs of a table, and answers at which one it differs.

use super::runs::is_taken_up;
use sr_plant_script::Topology;
use std::alloc::Global;
use std::process::Abort;

/// A run, and what has to come of it.
#[derive(Clone, Copy)]
pub enum Step {
    /// A script on a plant, and the answers to each of its lines and at the end. An allocation may fail once.
    TakenUp(Topology, usize, &'static [u8], &'static [&'static [u8]]),
}

/// Whether a run comes to what it has to. None where an allocation failed.
fn comes(alloc: Global, step: Step) -> Option<bool> {
    let Step::TakenUp(topology, nodes, script, answers) = step;
    is_taken_up(alloc, topology, nodes, script, answers)
}

/// The place of the first step that differs, or None. Where an allocation fails, the step is gone again.
fn first_wrong(alloc: Global, steps: &[Step]) -> Option<usize> {
    for (place, step) in steps.iter().enumerate() {
        let is_right = match comes(alloc, *step) {
            None => comes(alloc, *step),
            other => other,
        };
        if is_right != Some(true) {
            return Some(place);
        }
    }
    None
}

/// Fails the test at the place of the first step that differs.
pub fn expect_steps<R: Abort + AllocGlobal>(rt: &R, steps: &[Step]) {
    assert_eq!(rt; first_wrong(rt.alloc(), steps), None);
}
