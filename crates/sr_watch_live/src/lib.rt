//! A watch over two captures that grow: a thread reads each, and what came is told at each interval.
#![tactic(auto)]

mod clock;
mod files;
mod job;
mod lane;
mod live;
mod message;
mod outlet;
mod plan;
mod reader;
mod reporting;
mod running;
mod telling;

pub use job::Job;
pub use message::End;
pub use plan::{LanPlan, Plan};
pub use running::{Outcome, WatchFault, run_watch};
pub use telling::Telling;
