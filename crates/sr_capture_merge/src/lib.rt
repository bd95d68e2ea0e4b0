//! Two captures of a redundant network, written as one in which each frame stands once.
#![tactic(auto)]

mod counts;
mod laws;
mod merging;
mod output;
mod plan;
mod reading;

pub use counts::Counts;
pub use laws::merged_files_are_read;
pub use merging::merge;
pub use plan::{Plan, Scope, Spelling};
