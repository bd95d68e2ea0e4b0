//! The numbers that one source has lately used, lane by lane.
#![tactic(auto)]

mod bins;
mod lane_sets;
pub mod laws;
mod record;
mod rows;

pub use lane_sets::{Lane, Lanes};
pub use record::{Apart, Record};
