//! The nodes that the tests join, and the plants that are made of them.

ghost use Rattle.std.specs.Prelude.{IfOk};
ghost use Rattle.sr_plant.specs.Images.{plant_state};
ghost use Rattle.sr_plant.specs.Plants.{IsInOrder};

use super::frames::{mac_of, of_source};
use sr_forwarding::{Danh, Danp, HsrFraming, Role};
use sr_frame::{NoMemory, Port};
use sr_node::{NodeOf, Settings};
use sr_plant::{PlantFault, PlantOf, RingOf, TwinLanOf};
use std::alloc::Global;

/// How a node of a ring reads what comes in at A.
const RING_A: HsrFraming = HsrFraming { path: 0 };

/// How many sources a node knows at most.
const MAX_SOURCES: u16 = 1024;

/// One node more.
pub fn append<R: Role>(nodes: &mut Vec<NodeOf<R>>, node: NodeOf<R>) -> Result<(), NoMemory> {
    nodes.reserve(1)?;
    nodes.push_reserved(node);
    Ok(())
}

/// So many nodes of a ring.
pub fn danhs(alloc: Global, count: u8) -> Result<Vec<NodeOf<Danh>>, NoMemory> {
    let mut nodes = Vec::new(alloc);
    for node in 0..count {
        append(&mut nodes, NodeOf::new(alloc, Danh::new(mac_of(node)))?)?;
    }
    Ok(nodes)
}

/// So many nodes of a ring, of which those with an odd number have other settings than a plain node's.
pub fn danhs_of_both(
    alloc: Global,
    count: u8,
    odd: Settings,
) -> Result<Vec<NodeOf<Danh>>, NoMemory> {
    let mut nodes = Vec::new(alloc);
    for node in 0..count {
        let settings = if node % 2 == 0 { Settings::PLAIN } else { odd };
        let role = Danh::new(mac_of(node));
        append(&mut nodes, NodeOf::with(alloc, role, settings)?)?;
    }
    Ok(nodes)
}

/// So many nodes of two LANs.
pub fn danps(alloc: Global, count: u8) -> Result<Vec<NodeOf<Danp>>, NoMemory> {
    let mut nodes = Vec::new(alloc);
    for node in 0..count {
        append(&mut nodes, NodeOf::new(alloc, Danp::new(mac_of(node)))?)?;
    }
    Ok(nodes)
}

// Whether a node hears as many sources as it can know, and lets their frames go.
fn hears_sources(node: &mut NodeOf<Danh>) -> bool {
    (0..MAX_SOURCES).all(|number| {
        let octets = of_source(number);
        let heard = node.arrive(&RING_A, Port::A, &octets, 0).is_ok()
            || node.arrive(&RING_A, Port::A, &octets, 0).is_ok();
        heard && node.take(Port::B).is_some()
    })
}

/// So many nodes of a ring, of which node 1 has no room for another source.
pub fn danhs_of_which_one_is_crowded(
    alloc: Global,
    count: u8,
) -> Result<Vec<NodeOf<Danh>>, NoMemory> {
    let mut nodes = danhs(alloc, count)?;
    let heard = match nodes.get_mut(1) {
        Some(node) => hears_sources(node),
        None => false,
    };
    if heard { Ok(nodes) } else { Err(NoMemory) }
}

/// A ring of these nodes.
pub fn new_ring<R: Role>(
    alloc: Global,
    nodes: Result<Vec<NodeOf<R>>, NoMemory>,
) -> Result<PlantOf<R>, PlantFault>
    ensures { IfOk result (λ p. IsInOrder (plant_state R.meaning p)) }
{
    Ok(RingOf::new(alloc, nodes?)?.into_plant())
}

/// Two LANs of these nodes.
pub fn new_lans<R: Role>(
    alloc: Global,
    nodes: Result<Vec<NodeOf<R>>, NoMemory>,
) -> Result<PlantOf<R>, PlantFault>
    ensures { IfOk result (λ p. IsInOrder (plant_state R.meaning p)) }
{
    Ok(TwinLanOf::new(alloc, nodes?)?.into_plant())
}
