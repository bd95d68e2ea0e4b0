//! One capture as it comes: its packets in one pass over any reader, and what each is in a redundant network.
#![tactic(auto)]

mod capture;
mod counts;
mod kind;

pub use capture::Intake;
pub use counts::PacketCounts;
pub use kind::{Kind, Network, Numbered, kind_of, mirrored};
