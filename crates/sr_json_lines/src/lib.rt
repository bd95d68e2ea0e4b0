//! The lines that a run prints, as JSON: a writer that takes lines and writes an object for each, and one that takes the lines of a
//! status and writes one object for all. And the objects of faults and hints.
#![tactic(auto)]

mod elements;
mod events;
mod faults;
mod lack;
mod objects;
mod pieces;
mod station;
mod status;
mod writer;

pub use elements::{
    append_left_out, append_node_down, append_node_element, append_port, append_refusal,
    append_ring_error,
};
pub use events::append_line_object;
pub use faults::{ToldFault, fault_object, hint_object};
pub use objects::append_object;
pub use station::{append_end, append_network, append_no_network, append_nodes, append_station};
pub use status::JsonStatus;
pub use writer::JsonLines;
