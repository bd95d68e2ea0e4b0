//! Values by address that are forgotten when their address is silent, and of which there are only so many.
#![tactic(auto)]

mod aged;
mod table;

pub use aged::Aged;
pub use table::AgedSlots;
