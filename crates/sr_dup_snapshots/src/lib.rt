//! Snapshots of tables of duplicate records: their octets, version 1 of a narrow table and version 2 of a wide one.
#![tactic(auto)]

mod fields;
mod laws;
mod reading;
mod record;
mod tables;
mod writing;

pub use laws::{readings_are_one, snapshots_are_unique, snapshots_tell};
pub use tables::Snapshots;
