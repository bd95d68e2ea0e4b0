//! A network as a value: its nodes, and what is between them.

ghost use Rattle.std.specs.Prelude.{◌≡◌, ◌<◌, map, length, slice_get, slice_set, slice_index_or, option_map, []};

use crate::{Topology, Traffic};
use sr_forwarding::{Parcel, Role};
use sr_node::NodeOf;

/// A plant whose nodes have this role.
#[derive(Drop)]
pub struct PlantOf<R: Drop> {
    /// How they are joined.
    pub(crate) topology: Topology,
    /// The nodes.
    pub(crate) nodes: Vec<NodeOf<R>>,
    /// What is between them.
    pub(crate) traffic: Traffic,
    /// What each node handed up to its host, oldest first.
    pub(crate) handed: Vec<Vec<Parcel>>,
}

/// A plant of nodes over any role.
pub type Plant = PlantOf<Box<dyn Role + Send>>;

impl<R: Role> PlantOf<R> {
    /// How many nodes it has.
    pub fn node_count(&self) -> usize
        ensures { result ≡ length self.now.nodes.items }
    {
        self.nodes.len()
    }

    /// What each node handed up to its host, oldest first, in the order of the nodes.
    pub fn all_handed(&self) -> &[Vec<Parcel>]
        ensures { result.now ≡ self.now.handed.items }
    {
        self.handed.as_slice()
    }

    /// Drops what a node handed up. Everything else stays.
    pub fn drop_handed_of(&mut self, node: usize)
        requires { node < length self.old.handed.items }
        ensures handed { map (λ h. h.items) self.new.handed.items
            ≡ slice_set (map (λ h. h.items) self.old.handed.items) node [] }
        ensures topology { self.new.topology ≡ self.old.topology }
        ensures nodes { self.new.nodes ≡ self.old.nodes }
        ensures traffic { self.new.traffic ≡ self.old.traffic }
    {
        self.handed[node].clear();
    }

    /// What a node handed up to its host, oldest first.
    pub fn handed(&self, node: usize) -> &[Parcel]
        requires { node < length self.now.handed.items }
        ensures { result.now ≡ slice_index_or (map (λ h. h.items) self.now.handed.items) node [] }
    {
        self.handed[node].as_slice()
    }

    /// The node to which the copy at a place leads. `None` where there is no copy.
    pub fn receiver(&self, place: usize) -> Option<usize>
        ensures { result
            ≡ option_map (λ c. c.hop.to.node) (slice_get self.now.traffic.flight.copies place) }
    {
        self.traffic.receiver(place)
    }

    /// How many copies are in flight.
    pub fn in_flight(&self) -> usize
        ensures { result ≡ length self.now.traffic.flight.copies }
    {
        self.traffic.len()
    }
}
