//! Duplicate records by source: who was heard lately, and with which numbers.
#![tactic(auto)]

mod entry;
mod equality;
mod fault;
pub mod join_laws;
mod laws;
mod merging;
mod same;
mod table;
mod table_of;
mod width;

pub use fault::{DupFault, TableFull};
pub use laws::{ageing_keeps_answers, equal_where_the_sources_are};
pub use same::same_is_an_equivalence;
pub use table::{DupTable, NarrowTable, Parts, WideTable};
pub use table_of::{ENTRY_FORGET_TIME, Look, MAX_SOURCES, TableOf};
pub use width::Width;
