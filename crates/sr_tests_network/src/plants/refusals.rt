//! Nodes of which no plant is made.

use super::frames::mac_of;
use super::makers::{append, danhs, danps, new_lans, new_ring};
use sr_forwarding::Danh;
use sr_frame::NoMemory;
use sr_node::{Event, NodeOf};
use sr_plant::PlantFault;
use std::alloc::Global;

/// What a plant is to be made of.
#[derive(Clone, Copy)]
enum Case {
    /// A ring of so many nodes.
    Ring(u8),
    /// Two LANs of so many nodes.
    TwinLan(u8),
    /// A ring of nodes of which two have one address.
    SameAddress,
    /// A ring of nodes in one of which life checks wait.
    Waiting,
    /// A ring of nodes of two LANs.
    RingOfDanps,
    /// Two LANs of nodes of a ring.
    TwinLanOfDanhs,
}

// Three nodes, and another with the address of one of them.
fn with_same_address(alloc: Global) -> Result<Vec<NodeOf<Danh>>, NoMemory> {
    let mut nodes = danhs(alloc, 3)?;
    append(&mut nodes, NodeOf::new(alloc, Danh::new(mac_of(1)))?)?;
    Ok(nodes)
}

// Three nodes, and life checks wait in the last.
fn with_waiting(alloc: Global) -> Result<Vec<NodeOf<Danh>>, NoMemory> {
    let mut nodes = danhs(alloc, 3)?;
    let waits = match nodes.last_mut() {
        Some(node) => node.step(&Event::Tick { now: 0 }).is_ok(),
        None => false,
    };
    if waits { Ok(nodes) } else { Err(NoMemory) }
}

// Why no plant is made of them.
fn fault_of(alloc: Global, case: Case) -> Option<PlantFault> {
    match case {
        Case::Ring(count) => new_ring(alloc, danhs(alloc, count)).err(),
        Case::TwinLan(count) => new_lans(alloc, danps(alloc, count)).err(),
        Case::SameAddress => new_ring(alloc, with_same_address(alloc)).err(),
        Case::Waiting => new_ring(alloc, with_waiting(alloc)).err(),
        Case::RingOfDanps => new_ring(alloc, danps(alloc, 3)).err(),
        Case::TwinLanOfDanhs => new_lans(alloc, danhs(alloc, 3)).err(),
    }
}

// The place of the first case that comes to something else. Where an allocation fails, it comes again.
fn first_wrong(alloc: Global, cases: &[(Case, Option<PlantFault>)]) -> Option<usize> {
    for (place, (case, wanted)) in cases.iter().enumerate() {
        let first = fault_of(alloc, *case);
        let fault = if first == Some(PlantFault::NoMemory) {
            fault_of(alloc, *case)
        } else {
            first
        };
        if fault != *wanted {
            return Some(place);
        }
    }
    None
}

// Each with why no plant is made of it.
const CASES: &[(Case, Option<PlantFault>)] = &[
    (Case::Ring(0), Some(PlantFault::BadPlant)),
    (Case::Ring(1), Some(PlantFault::BadPlant)),
    (Case::Ring(2), None),
    (Case::Ring(16), None),
    (Case::Ring(17), Some(PlantFault::BadPlant)),
    (Case::TwinLan(1), Some(PlantFault::BadPlant)),
    (Case::TwinLan(2), None),
    (Case::TwinLan(16), None),
    (Case::TwinLan(17), Some(PlantFault::BadPlant)),
    (Case::SameAddress, Some(PlantFault::BadPlant)),
    (Case::Waiting, Some(PlantFault::BadPlant)),
    (Case::RingOfDanps, Some(PlantFault::BadPlant)),
    (Case::TwinLanOfDanhs, Some(PlantFault::BadPlant)),
];

#[test]
fn nodes_that_make_no_plant(rt: HostRuntime) {
    assert_eq!(rt; first_wrong(rt.alloc(), CASES), None);
}
