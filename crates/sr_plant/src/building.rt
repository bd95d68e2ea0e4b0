//! Of which nodes a plant is made, and how it begins.

ghost use Rattle.std.specs.Prelude.{◌≡◌, ◌<◌, map, length, replicate, [], IfOk};
ghost use Rattle.sr_node.specs.States.{state_of};
ghost use Rattle.sr_plant.specs.Images.{plant_state, states_of};
ghost use Rattle.sr_plant.specs.Building.{is_lan, is_fit, are_fit, has_address, are_apart, are_apart_from, is_plant, are_few, is_plant_of_both, MakesPlant};

use crate::size::MAX_NODES;
use crate::{PlantFault, PlantOf, Topology, Traffic};
use sr_forwarding::{Parcel, Role};
use sr_frame::{Mac, NoMemory, Port};
use sr_node::NodeOf;
use sr_prp_trailer::Lan;
use std::alloc::Global;

/// Whether the two LANs are the same.
pub(crate) fn is_lan(lan: Lan, other: Lan) -> bool
    ensures { result ≡ is_lan lan other }
{
    matches!((lan, other), (Lan::A, Lan::A) | (Lan::B, Lan::B))
}

// Whether a node is of the kind that the topology has at this place, and no frame waits in it.
fn is_fit<R: Role>(topology: Topology, place: usize, node: &NodeOf<R>) -> bool
    ensures { result ≡ is_fit topology place (state_of R.meaning node.now) }
{
    node.kind() == topology.kind_of(place)
        && node.waiting(Port::H) == 0
        && node.waiting(Port::A) == 0
        && node.waiting(Port::B) == 0
        && node.waiting(Port::C) == 0
}

// Whether these nodes fit the topology, from this place on.
fn are_fit<R: Role>(topology: Topology, first: usize, nodes: &[NodeOf<R>]) -> bool
    requires { first < 1000 }
    ensures { result ≡ are_fit topology first (states_of R.meaning nodes.now) }
{
    for (place, node) in nodes.iter().enumerate() {
        if !is_fit(topology, first + place, node) {
            return false;
        }
    }
    true
}

// Whether a node has this address.
fn has_address<R: Role>(mac: Mac, nodes: &[NodeOf<R>]) -> bool
    ensures { result ≡ has_address mac (states_of R.meaning nodes.now) }
{
    for node in nodes {
        if node.mac() == mac {
            return true;
        }
    }
    false
}

// Whether no two nodes have one address.
fn are_apart<R: Role>(nodes: &[NodeOf<R>]) -> bool
    ensures { result ≡ are_apart (states_of R.meaning nodes.now) }
{
    let mut rest = nodes;
    while let [first, others @ ..] = rest {
        if has_address(first.mac(), others) {
            return false;
        }
        rest = others;
    }
    true
}

// Whether no node of the first list has the address of one of the second.
fn are_apart_from<R: Role>(nodes: &[NodeOf<R>], others: &[NodeOf<R>]) -> bool
    ensures { result ≡ are_apart_from
        (states_of R.meaning nodes.now) (states_of R.meaning others.now) }
{
    for node in nodes {
        if has_address(node.mac(), others) {
            return false;
        }
    }
    true
}

// Whether a plant of this topology is made of these nodes.
fn is_plant<R: Role>(topology: Topology, nodes: &[NodeOf<R>]) -> bool
    ensures { result ≡ is_plant topology (states_of R.meaning nodes.now) }
{
    topology.is_size(nodes.len()) && are_fit(topology, 0, nodes) && are_apart(nodes)
}

/// Whether neither list has more nodes than a ring may have.
pub(crate) fn are_few<R: Role>(nodes: &[NodeOf<R>], behind: &[NodeOf<R>]) -> bool
    ensures { result ≡ are_few (states_of R.meaning nodes.now) (states_of R.meaning behind.now) }
{
    nodes.len() <= MAX_NODES && behind.len() <= MAX_NODES
}

/// Whether a plant of this topology is made of the nodes of the first list and then those of the second.
pub(crate) fn is_plant_of_both<R: Role>(
    topology: Topology,
    nodes: &[NodeOf<R>],
    behind: &[NodeOf<R>],
) -> bool
    requires nodes { length nodes.now < 1000 }
    requires behind { length behind.now < 1000 }
    ensures { result ≡ is_plant_of_both topology
        (states_of R.meaning nodes.now) (states_of R.meaning behind.now) }
{
    topology.is_size(nodes.len() + behind.len())
        && are_fit(topology, 0, nodes)
        && are_fit(topology, nodes.len(), behind)
        && are_apart(nodes)
        && are_apart(behind)
        && are_apart_from(nodes, behind)
}

// An empty list for each host.
fn hosts(alloc: Global, count: usize) -> Result<Vec<Vec<Parcel>>, NoMemory>
    ensures { IfOk result (λ h. map (λ x. x.items) h.items ≡ replicate count []) }
{
    let mut hosts = Vec::with_capacity(alloc, count)?;
    for _ in 0..count {
        hosts.push_reserved(Vec::new(alloc));
    }
    Ok(hosts)
}

impl<R: Role> PlantOf<R> {
    /// A new plant of these nodes: as many as the topology joins, each with an address of its own, of the kind that the
    /// topology has at its place, and with no frame waiting. `BadPlant` exactly where the nodes are not like that.
    /// `NoMemory` where an allocation fails.
    pub fn new(
        alloc: Global,
        topology: Topology,
        nodes: Vec<NodeOf<R>>,
    ) -> Result<PlantOf<R>, PlantFault>
        ensures { MakesPlant result (plant_state R.meaning) topology
            (states_of R.meaning nodes.items) }
    {
        if !is_plant(topology, &nodes) {
            return Err(PlantFault::BadPlant);
        }
        let traffic = Traffic::new(alloc, topology.link_count(nodes.len()))?;
        let handed = hosts(alloc, nodes.len())?;
        Ok(PlantOf {
            topology,
            nodes,
            traffic,
            handed,
        })
    }
}
