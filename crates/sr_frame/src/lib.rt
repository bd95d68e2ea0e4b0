//! Ethernet frames without check sequence: their fields, and the octets that spell them.
#![tactic(auto)]

mod fault;
mod fields;
mod laws;
mod learn_outcome;
mod owned;
mod ports;
mod reading;
mod showing;
mod writing;

pub use fault::{FrameFault, NoMemory};
pub use fields::{
    FrameView, HEADER_LEN, MAX_FRAME_LEN, MIN_PAYLOAD_LEN, Mac, VLAN_ETHERTYPE, VLAN_TAG_LEN,
};
pub use laws::{fields_are_unique, frames_have_frame_length};
pub use learn_outcome::LearnOutcome;
pub use owned::Frame;
pub use ports::Port;
pub use reading::view;
pub use writing::append;
