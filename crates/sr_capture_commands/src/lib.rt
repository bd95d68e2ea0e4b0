//! The commands over captures: `audit`, `merge`, `script` and `watch`.
#![tactic(auto)]

mod audit;
mod clocks;
mod dated;
mod meanings;
mod merge;
mod script;
mod watch;

pub use audit::run_audit;
pub use merge::run_merge;
pub use script::run_script;
pub use watch::run_watch;
