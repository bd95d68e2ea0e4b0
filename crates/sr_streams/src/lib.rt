//! Streams of messages of substations: what GOOSE and sampled values say of themselves, and which of their messages are missing.
#![tactic(auto)]

mod elements;
mod message;
mod numbers;
mod reading;
mod spot;
mod sums;
mod table;

pub use elements::MAX_NAME_LEN;
pub use message::{Counter, Message};
pub use numbers::{Arrival, Numbers};
pub use reading::{GOOSE_ETHERTYPE, SV_ETHERTYPE, read};
pub use sums::Kind;
pub use table::{MAX_STREAMS, Stream, Streams};
