//! Octets as hexadecimal digits, read and written sixteen octets at a time, and what is shorter by the kit.
#![tactic(auto)]

mod reading;
mod vectors;
mod writing;

pub use reading::{are_digits, read_front, read_hex};
pub use writing::{append_hex, write_hex};
