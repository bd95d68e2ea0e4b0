//! Scripts of rings, of twin networks and of coupled ones, drawn: the run of a network as a sequence chart.
#![tactic(auto)]

mod flights;
mod layout;
mod network;
mod picturing;
mod receivers;
mod running;
mod watching;
mod ways;

pub use running::run_picture;
