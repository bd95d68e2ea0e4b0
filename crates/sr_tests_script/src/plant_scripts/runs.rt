//! The runs. Each function keeps to itself what it owns, and answers whether all was as it had to be, or None where an
//! allocation failed.

use crate::answers::are_answers;
use sr_node::Settings;
use sr_plant_script::{PlantSetup, Topology, run_plant};
use sr_session::{Fault, FaultKind};
use std::alloc::Global;

/// So many nodes of a plant. None where there is no such plant.
fn setup_of(topology: Topology, nodes: usize) -> Option<PlantSetup> {
    if nodes < 2 || nodes > 16 {
        return None;
    }
    match topology {
        Topology::Ring => Some(PlantSetup::ring(nodes, Settings::PLAIN)),
        Topology::TwinLan => Some(PlantSetup::twin_lan(nodes, Settings::PLAIN)),
        Topology::RingLan(_) | Topology::TwoRings(_) => None,
    }
}

fn runs_again(
    alloc: Global,
    setup: &PlantSetup,
    script: &[u8],
    answers: &[&[u8]],
    written: &mut Vec<u8>,
) -> bool {
    written.clear();
    let mut reader = script;
    run_plant(alloc, setup, &mut reader, written).is_ok()
        && are_answers(written, answers, answers.len())
}

/// Whether a run writes these answers, one to each line and one at the end. Where an allocation fails, it ends at the line
/// at work with the lines before it answered, and the next run is whole. What the test itself needs comes first.
pub fn is_taken_up(
    alloc: Global,
    topology: Topology,
    nodes: usize,
    script: &[u8],
    answers: &[&[u8]],
) -> Option<bool> {
    let setup = setup_of(topology, nodes)?;
    let mut written: Vec<u8> = Vec::new(alloc);
    written.reserve(1000).ok()?;
    let mut reader = script;
    match run_plant(alloc, &setup, &mut reader, &mut written) {
        Ok(()) => Some(are_answers(&written, answers, answers.len())),
        Err(
            Fault {
                line,
                kind: FaultKind::Memory,
            },
        ) => {
            let before = (line.clamp(1, 20) - 1) as usize;
            Some(
                are_answers(&written, answers, before)
                    && runs_again(alloc, &setup, script, answers, &mut written),
            )
        }
        Err(_) => Some(false),
    }
}
