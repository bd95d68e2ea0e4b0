//! What a worker of a threaded network is fed by: its host's feed, or wires.
#![tactic(auto)]

mod cable;
mod counts;
mod ends;
mod lan;
mod line;

pub use cable::Cable;
pub use ends::Ends;
pub use lan::Lan;
pub use line::Line;
