//! The HSR tag: type 0x892F, path and size, and sequence number, before the type that a ring frame has without it.
#![tactic(auto)]

mod fault;
mod laws;
mod reading;
mod tag;
mod writing;

pub use fault::{TagFault, UntagFault};
pub use laws::{spellings_are_unique, tags_are_unique};
pub use reading::{read, untagged, untagged_view};
pub use tag::{HSR_ETHERTYPE, HsrTag, TAG_LEN};
pub use writing::{append_tagged, tagged};
