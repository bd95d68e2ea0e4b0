//! Scripts of events at a node, read line by line from any reader, answered line by line to any writer.
#![tactic(auto)]

mod answering;
mod count_lines;
mod counts;
mod node_session;
mod printing;
mod reading;
mod runs;
mod setups;
mod status;
mod status_lines;
mod tallies;
mod tallying;
mod unprinted;

pub use answering::{append_refusal, name_of};
pub use counts::Counts;
pub use reading::Command;
pub use runs::{run, run_leaving, run_status, run_tally};
pub use setups::{Report, Setup};
