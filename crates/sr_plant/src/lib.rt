//! Whole networks as values: rings, two LANs, a ring with two LANs, two rings, of nodes and the copies of frames between
//! them.
#![tactic(auto)]

mod arriving;
mod building;
mod coupled;
mod coupled_hops;
mod event;
mod events;
mod fault;
mod flight;
mod hop;
mod node_step;
mod outlet;
mod plant;
mod ring;
mod ring_hops;
mod shapes;
mod size;
mod topology;
mod traffic;
mod twin_lan;

pub use coupled::{Coupled, CoupledOf};
pub use event::PlantEvent;
pub use fault::PlantFault;
pub use plant::{Plant, PlantOf};
pub use ring::{Ring, RingOf};
pub use shapes::{Join, RingLanShape, TwoRingsShape};
pub use topology::Topology;
pub use traffic::Traffic;
pub use twin_lan::{TwinLan, TwinLanOf};
