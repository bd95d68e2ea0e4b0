//! The redundancy control trailer of PRP: the last six octets of a payload (IEC 62439-3, clause 4).
//!
//! Sequence number (16 bits), LAN id (4 bits, 0xA or 0xB) and size (12 bits), suffix 0x88FB. The size counts
//! what stands behind the addresses, the VLAN tag and the type, the trailer included.
#![tactic(auto)]

mod fault;
mod laws;
mod reading;
mod trailer;
mod writing;

pub use fault::StripFault;
pub use laws::trailers_are_unique;
pub use reading::{parted, read, stripped};
pub use trailer::{Lan, TRAILER_LEN, Trailer};
pub use writing::{append_trailed, appended};
