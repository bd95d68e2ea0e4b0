//! One capture file, pcap or pcapng: which of them it is, what stands before its packets, and its next packet.
#![tactic(auto)]

mod format;
mod front;

pub use format::{Format, dropped_of, front_len, take_next};
pub use front::{Reading, take_front};
