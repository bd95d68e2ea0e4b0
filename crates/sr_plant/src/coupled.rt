//! Coupled networks: a ring with two LANs, and two rings.

ghost use Rattle.std.specs.Prelude.{◌≡◌, ◌≤◌, ◌<◌, ◌++◌, ◌&&◌, nat_le, map, length, slice_get, slice_index_or, []};
ghost use Rattle.sr_plant.specs.Images.{plant_state, states_of};
ghost use Rattle.sr_plant.specs.Building.{MakesPlant};
ghost use Rattle.sr_plant.specs.Plants.{IsInOrder};
ghost use Rattle.sr_plant.specs.Steps.{PlantTakes};
ghost use Rattle.sr_plant.specs.Coupled.{is_sought, box_place, network_in, network_of, second_of, ring_lan_of, two_rings_of};

use crate::building::{are_few, is_lan, is_plant_of_both};
use crate::{Join, PlantEvent, PlantFault, PlantOf, RingLanShape, Topology, TwoRingsShape};
use sr_forwarding::{NetId, Parcel, Role, RoleKind};
use sr_node::NodeOf;
use sr_prp_trailer::Lan;
use std::alloc::Global;

/// Which kind of RedBox is sought.
#[derive(Clone, Copy)]
pub(crate) enum Sought {
    /// A RedBox whose interlink is in this LAN of a PRP network.
    LanBox(Lan),
    /// A RedBox between two rings.
    RingBox,
}

// Whether a node of this kind is the box that is sought.
fn is_sought(sought: Sought, kind: RoleKind) -> bool
    ensures { result ≡ is_sought sought kind }
{
    match sought {
        Sought::LanBox(lan) => match kind {
            RoleKind::Prp { lan: to, .. } => is_lan(lan, to),
            _ => false,
        },
        Sought::RingBox => matches!(kind, RoleKind::Hsr),
    }
}

// Whether the node at a place is a box that is sought, and the place is not before `from`.
fn is_found(sought: Sought, from: usize, place: usize, kind: RoleKind) -> bool
    ensures { result ≡ (nat_le from place && is_sought sought kind) }
{
    from <= place && is_sought(sought, kind)
}

// The place of the first box that is sought, at `from` or behind it. The count of nodes where there is none.
fn box_place<R: Role>(sought: Sought, from: usize, nodes: &[NodeOf<R>]) -> usize
    ensures place { result ≡ box_place sought from 0 (states_of R.meaning nodes.now) }
    ensures within { result ≤ length nodes.now }
{
    for (place, node) in nodes.iter().enumerate() {
        if is_found(sought, from, place, node.kind()) {
            return place;
        }
    }
    nodes.len()
}

// The network of a box, and network 1 at any other node.
fn network_of(kind: RoleKind) -> NetId
    ensures { result ≡ network_of kind }
{
    match kind {
        RoleKind::Prp { net, .. } => net,
        _ => NetId::One,
    }
}

// The network of the node at this place, and network 1 where there is no such node.
fn network_in<R: Role>(nodes: &[NodeOf<R>], place: usize) -> NetId
    ensures { result ≡ network_in (slice_get (states_of R.meaning nodes.now) place) }
{
    match nodes.get(place) {
        Some(node) => network_of(node.kind()),
        None => NetId::One,
    }
}

// The topology that joins a ring and the nodes of two LANs.
fn ring_lan_of<R: Role>(ring: &[NodeOf<R>], lan: &[NodeOf<R>]) -> Topology
    ensures { result
        ≡ ring_lan_of (states_of R.meaning ring.now) (states_of R.meaning lan.now) }
{
    let box_a = box_place(Sought::LanBox(Lan::A), 0, ring);
    Topology::RingLan(RingLanShape {
        ring: ring.len(),
        lan: lan.len(),
        box_a,
        box_b: box_place(Sought::LanBox(Lan::B), 0, ring),
        net: network_in(ring, box_a),
    })
}

// The join of the second boxes of two rings of so many nodes, where both rings have a second box.
fn second_of(left: usize, right: usize, left_box: usize, right_box: usize) -> Option<Join>
    requires left { left < 1000 }
    requires right { right < 1000 }
    ensures { result ≡ second_of left right left_box right_box }
{
    if left_box < left && right_box < right {
        Some(Join {
            left: left_box,
            right: left + right_box,
        })
    } else {
        None
    }
}

// The topology that joins two rings.
fn two_rings_of<R: Role>(left: &[NodeOf<R>], right: &[NodeOf<R>]) -> Topology
    requires left { length left.now < 1000 }
    requires right { length right.now < 1000 }
    ensures { result
        ≡ two_rings_of (states_of R.meaning left.now) (states_of R.meaning right.now) }
{
    let first_left = box_place(Sought::RingBox, 0, left);
    let first_right = box_place(Sought::RingBox, 0, right);
    let second_left = box_place(Sought::RingBox, first_left + 1, left);
    let second_right = box_place(Sought::RingBox, first_right + 1, right);
    Topology::TwoRings(TwoRingsShape {
        left: left.len(),
        right: right.len(),
        first: Join {
            left: first_left,
            right: left.len() + first_right,
        },
        second: second_of(left.len(), right.len(), second_left, second_right),
    })
}

/// A coupled network of nodes over this role: a ring with the two LANs of a PRP network, or two rings (IEC 62439-3
/// clauses 4 and 5).
#[derive(Drop)]
pub struct CoupledOf<R: Drop> {
    /// The nodes, and what is between them.
    pub(crate) plant: PlantOf<R>,
}

/// A coupled network of nodes over any role.
pub type Coupled = CoupledOf<Box<dyn Role + Send>>;

// A network of this topology, of the nodes of the first list and then those of the second.
fn plant_of_both<R: Role>(
    alloc: Global,
    topology: Topology,
    first: Vec<NodeOf<R>>,
    behind: Vec<NodeOf<R>>,
) -> Result<CoupledOf<R>, PlantFault>
    requires first { length first.items < 1000 }
    requires behind { length behind.items < 1000 }
    ensures { MakesPlant result (λ made. plant_state R.meaning made.plant) topology
        (states_of R.meaning first.items ++ states_of R.meaning behind.items) }
{
    if !is_plant_of_both(topology, &first, &behind) {
        return Err(PlantFault::BadPlant);
    }
    let (mut nodes, mut rest) = (first, behind);
    nodes.append(&mut rest)?;
    let plant = PlantOf::new(alloc, topology, nodes)?;
    Ok(CoupledOf { plant })
}

impl<R: Role> CoupledOf<R> {
    /// The coupled network as a plant, the type of networks of any topology.
    pub fn into_plant(self) -> PlantOf<R>
        ensures { result ≡ self.plant }
    {
        let CoupledOf { plant } = self;
        plant
    }

    /// Takes an event whole, or refuses it and changes nothing. It refuses as `PlantOf::apply` does.
    pub fn apply(&mut self, event: &PlantEvent) -> Result<(), PlantFault>
        requires { IsInOrder (plant_state R.meaning self.old.plant) }
        ensures { PlantTakes (plant_state R.meaning self.old.plant) event.now
            result (plant_state R.meaning self.new.plant) }
    {
        self.plant.apply(event)
    }

    /// What a node handed up to its host, oldest first.
    pub fn handed(&self, node: usize) -> &[Parcel]
        requires { node < length self.now.plant.handed.items }
        ensures { result.now
            ≡ slice_index_or (map (λ h. h.items) self.now.plant.handed.items) node [] }
    {
        self.plant.handed(node)
    }

    /// How many copies are in flight.
    pub fn in_flight(&self) -> usize
        ensures { result ≡ length self.now.plant.traffic.flight.copies }
    {
        self.plant.in_flight()
    }

    /// A new ring with two LANs behind it. The ring has 3 to 16 nodes: two boxes of the kind `Prp`, of one network, the one
    /// with LAN A and the other with LAN B, and else nodes of the kind `Danh`. The LANs have 1 to 14 nodes of the kind
    /// `Danp`. Each node has an address of its own, and no frame waiting. `BadPlant` exactly where the nodes are not like
    /// that. `NoMemory` where an allocation fails.
    pub fn ring_lan(
        alloc: Global,
        ring: Vec<NodeOf<R>>,
        lan: Vec<NodeOf<R>>,
    ) -> Result<CoupledOf<R>, PlantFault>
        ensures { MakesPlant result (λ made. plant_state R.meaning made.plant)
            (ring_lan_of (states_of R.meaning ring.items) (states_of R.meaning lan.items))
            (states_of R.meaning ring.items ++ states_of R.meaning lan.items) }
    {
        if !are_few(&ring, &lan) {
            return Err(PlantFault::BadPlant);
        }
        let topology = ring_lan_of(&ring, &lan);
        plant_of_both(alloc, topology, ring, lan)
    }

    /// Two new rings that are joined. Each has 2 to 16 nodes, and both have as many boxes of the kind `Hsr`, one or two, and
    /// else nodes of the kind `Danh`. The first boxes of both are joined, and the second ones. Each node has an address of
    /// its own, and no frame waiting. `BadPlant` exactly where the nodes are not like that. `NoMemory` where an allocation
    /// fails.
    pub fn two_rings(
        alloc: Global,
        left: Vec<NodeOf<R>>,
        right: Vec<NodeOf<R>>,
    ) -> Result<CoupledOf<R>, PlantFault>
        ensures { MakesPlant result (λ made. plant_state R.meaning made.plant)
            (two_rings_of (states_of R.meaning left.items) (states_of R.meaning right.items))
            (states_of R.meaning left.items ++ states_of R.meaning right.items) }
    {
        if !are_few(&left, &right) {
            return Err(PlantFault::BadPlant);
        }
        let topology = two_rings_of(&left, &right);
        plant_of_both(alloc, topology, left, right)
    }
}
