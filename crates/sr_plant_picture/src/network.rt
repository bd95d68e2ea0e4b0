//! The plant of a script whose run is drawn.

ghost use Rattle.std.specs.Prelude.{◌≡◌, ◌≤◌, ◌<◌, map, length, slice_get, slice_set, slice_index_or, option_map, [], None, IfSome, IfOk, IfErr, OnOk, OnErr};
ghost use Rattle.sr_node.specs.Images.{node_state};
ghost use Rattle.sr_forwarding.specs.RoleImages.{role_of};
ghost use Rattle.sr_plant.specs.Limits.{most_members};
ghost use Rattle.sr_plant.specs.Topologies.{IsJoinedAs};
ghost use Rattle.sr_plant.specs.Plants.{Plant};
ghost use Rattle.sr_plant.specs.Steps.{PlantStep, PlantRefuses, plant_refusal};
ghost use Rattle.sr_plant_script.specs.Members.{new_nodes, routed_as, start_of};
ghost use Rattle.sr_plant_script.specs.Happenings.{host_of};

use sr_forwarding::{OwnRole, Parcel};
use sr_frame::NoMemory;
use sr_node::{NodeOf, Settings};
use sr_plant::{PlantEvent, PlantFault, PlantOf, Topology};
use sr_plant_script::{Member, MemberRouting, PlantSetup, mac_of};
use std::alloc::Global;
use std::marker::Model;

/// A plant of doubly attached nodes, as it is between its events. Clauses see it as data.
#[derive(Drop)]
pub(crate) struct Network {
    plant: PlantOf<Member>,
}

impl Model for Network {
    ghost use Rattle.std.specs.Prelude.{map};
    ghost use Rattle.sr_node.specs.Images.{node_state};
    ghost use Rattle.sr_forwarding.specs.RoleImages.{role_of};
    ghost use Rattle.sr_plant_script.specs.Members.{routed_as};
    ghost use Rattle.sr_plant.specs.Plants.{Plant, plant_of, IsInOrder};

    ghost Value = { Plant };

    ghost view = { λ n. plant_of n.plant.topology
        (map (λ m. node_state (role_of (routed_as m.role.routing) m.role.mac) m.core)
        n.plant.nodes.items)
        n.plant.traffic (map (λ h. h.items) n.plant.handed.items) };

    ghost invariant = { λ n. IsInOrder (plant_of n.plant.topology
        (map (λ m. node_state (role_of (routed_as m.role.routing) m.role.mac) m.core)
        n.plant.nodes.items)
        n.plant.traffic (map (λ h. h.items) n.plant.handed.items)) };
}

// The first nodes of a plant, so many.
fn new_nodes(
    alloc: Global,
    topology: Topology,
    settings: Settings,
    count: usize,
) -> Result<Vec<NodeOf<Member>>, NoMemory>
    requires few { count ≤ most_members }
    requires joined { IsJoinedAs topology count }
    ensures { IfOk result (λ ns.
        map (λ m. node_state (role_of (routed_as m.role.routing) m.role.mac) m.core) ns.items
        ≡ new_nodes topology settings count) }
{
    let mut nodes = Vec::with_capacity(alloc, count)?;
    for number in 0..count {
        let routing = MemberRouting::of(topology.kind_of(number));
        let role = OwnRole::of(mac_of(number), routing);
        nodes.push_reserved(NodeOf::with(alloc, role, settings)?);
    }
    Ok(nodes)
}

impl Network {
    /// A new one. `NoMemory`: an allocation failed.
    pub(crate) fn new(alloc: Global, setup: &PlantSetup) -> Result<Network, PlantFault>
        ensures made { IfOk result (λ n. n ≡ start_of setup.now) }
        ensures lack { IfErr result (λ fault. fault ≡ PlantFault.NoMemory) }
    {
        let nodes = new_nodes(alloc, setup.topology, setup.settings, setup.nodes)?;
        let plant = PlantOf::new(alloc, setup.topology, nodes)?;
        Ok(Network { plant })
    }

    /// How many nodes it has.
    pub(crate) fn node_count(&self) -> usize
        ensures count { result ≡ length self.now.nodes }
        ensures few { result ≤ most_members }
    {
        self.plant.node_count()
    }

    /// The node to which the copy at a place leads.
    pub(crate) fn receiver(&self, place: usize) -> Option<usize>
        ensures { result ≡ option_map (λ c. c.hop.to.node) (slice_get self.now.flight place) }
    {
        self.plant.receiver(place)
    }

    /// How many copies are in flight.
    pub(crate) fn in_flight(&self) -> usize
        ensures { result ≡ length self.now.flight }
    {
        self.plant.in_flight()
    }

    /// How many hosts there are, one at each node.
    pub(crate) fn host_count(&self) -> usize
        ensures { result ≡ length self.now.handed }
    {
        self.plant.all_handed().len()
    }

    /// What a node handed up to its host.
    pub(crate) fn handed_of(&self, node: usize) -> &[Parcel]
        requires { node < length self.now.handed }
        ensures { result.now ≡ slice_index_or self.now.handed node [] }
    {
        self.plant.handed(node)
    }

    /// The node whose host may be handed something at an event, if there is one.
    pub(crate) fn host_of(&self, event: &PlantEvent) -> Option<usize>
        ensures host { result ≡ host_of self.now event.now }
        ensures inside { plant_refusal self.now event.now ≡ None
            → IfSome result (λ i. i < length self.now.handed) }
    {
        match event {
            PlantEvent::Send { node, .. } | PlantEvent::Tick { node, .. } => Some(*node),
            PlantEvent::Carry(place) => self.plant.receiver(*place),
            PlantEvent::Drop(_)
            | PlantEvent::Repeat(_)
            | PlantEvent::Cut(_)
            | PlantEvent::Mend(_) => None,
        }
    }

    /// An event happens whole, or is refused and changes nothing.
    pub(crate) fn apply(&mut self, event: &PlantEvent) -> Result<(), PlantFault>
        ensures step { OnOk result (PlantStep self.old event.now self.new) }
        ensures ok { OnOk result (plant_refusal self.old event.now ≡ None) }
        ensures err { IfErr result (λ f. PlantRefuses self.old event.now f) }
        ensures same { OnErr result (self.new ≡ self.old) }
    {
        self.plant.apply(event)
    }

    /// What a node handed up is let go.
    pub(crate) fn let_go_of(&mut self, node: usize)
        requires { node < length self.old.handed }
        ensures { self.new ≡ record self.old { handed = slice_set self.old.handed node [] } }
    {
        self.plant.drop_handed_of(node);
    }
}
