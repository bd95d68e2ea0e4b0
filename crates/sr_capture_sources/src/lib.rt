//! The sources in captures: what their frames tell of them, and supervision, and their lines.
#![tactic(auto)]

mod lines;
mod sighting;

pub use lines::print_nodes;
pub use sighting::{Told, sources_beside};
