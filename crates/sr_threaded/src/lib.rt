//! Networks of nodes on threads: each node has three workers, each on a thread of its own, and wires join them.
#![tactic(auto)]

mod fault;
mod judging;
mod kit;
mod lists;
mod losses;
mod network;
mod node;
mod ring;
mod settling;
mod sources;
mod twin;
mod wiring;

pub use fault::NetworkFault;
pub use judging::Judgement;
pub use kit::{LineEnd, NodeEnd, NodeKit};
pub use ring::run_ring;
pub use twin::run_twin;
