//! Rings of doubly attached nodes.

ghost use Rattle.std.specs.Prelude.{◌≡◌, ◌<◌, map, length, slice_index_or, []};
ghost use Rattle.sr_plant.specs.Images.{plant_state, states_of};
ghost use Rattle.sr_plant.specs.Building.{MakesPlant};
ghost use Rattle.sr_plant.specs.Plants.{IsInOrder};
ghost use Rattle.sr_plant.specs.Steps.{PlantTakes};

use crate::{PlantEvent, PlantFault, PlantOf, Topology};
use sr_forwarding::{Parcel, Role};
use sr_node::NodeOf;
use std::alloc::Global;

/// A ring of doubly attached nodes over this role (IEC 62439-3 clause 5).
#[derive(Drop)]
pub struct RingOf<R: Drop> {
    /// The nodes, and what is between them.
    pub(crate) plant: PlantOf<R>,
}

/// A ring of doubly attached nodes over any role.
pub type Ring = RingOf<Box<dyn Role + Send>>;

impl<R: Role> RingOf<R> {
    /// The ring as a plant, the type of networks of any topology.
    pub fn into_plant(self) -> PlantOf<R>
        ensures { result ≡ self.plant }
    {
        let RingOf { plant } = self;
        plant
    }

    /// Takes an event whole, or refuses it and changes nothing. It refuses as `PlantOf::apply` does.
    pub fn apply(&mut self, event: &PlantEvent) -> Result<(), PlantFault>
        requires { IsInOrder (plant_state R.meaning self.old.plant) }
        ensures { PlantTakes (plant_state R.meaning self.old.plant) event.now
            result (plant_state R.meaning self.new.plant) }
    {
        self.plant.apply(event)
    }

    /// What a node handed up to its host, oldest first.
    pub fn handed(&self, node: usize) -> &[Parcel]
        requires { node < length self.now.plant.handed.items }
        ensures { result.now
            ≡ slice_index_or (map (λ h. h.items) self.now.plant.handed.items) node [] }
    {
        self.plant.handed(node)
    }

    /// How many copies are in flight.
    pub fn in_flight(&self) -> usize
        ensures { result ≡ length self.now.plant.traffic.flight.copies }
    {
        self.plant.in_flight()
    }

    /// A new ring of these nodes: 2 to 16 of the kind `Danh`, each with an address of its own, and with no frame waiting.
    /// `BadPlant` exactly where the nodes are not like that. `NoMemory` where an allocation fails.
    pub fn new(alloc: Global, nodes: Vec<NodeOf<R>>) -> Result<RingOf<R>, PlantFault>
        ensures { MakesPlant result (λ made. plant_state R.meaning made.plant) Topology.Ring
            (states_of R.meaning nodes.items) }
    {
        let plant = PlantOf::new(alloc, Topology::Ring, nodes)?;
        Ok(RingOf { plant })
    }
}
