//! Supervision frames, by which redundancy nodes tell of themselves.
#![tactic(auto)]

mod fault;
mod laws;
mod message;
mod reading;
mod tlv;
mod writing;

pub use fault::SupFault;
pub use laws::supervisions_are_unique;
pub use message::{Life, Supervision};
pub use reading::{PRP_ETHERTYPE, SUPERVISION, is_supervision, read};
pub use writing::write;
