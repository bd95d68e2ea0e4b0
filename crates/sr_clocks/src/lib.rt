//! How far one of two clocks is ahead of the other, and how fast it drifts, told by frames that both recorders saw.
#![tactic(auto)]

mod clocks;
mod laws;
mod line;
mod median;
mod pair;
mod sightings;
mod window;

pub use clocks::{Clocks, clocks_of};
pub use laws::{rests_put_times_right, told_times_keep_their_order};
pub use line::Line;
pub use pair::Pair;
pub use sightings::{BINS, Sighting, Sightings, pairs_of};
