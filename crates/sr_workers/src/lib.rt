//! The workers of a node that threads share: each enters what its feed hands out, and gives it what waits at its port.
#![tactic(auto)]

mod becoming;
mod crew;
mod entering;
mod fault;
mod feed;
mod kit;
mod post;
mod running;
mod script;
mod taking;

pub use crew::{Begun, run_workers};
pub use entering::{Enters, Seat};
pub use fault::{CrewFault, FeedFault, WorkerFault};
pub use feed::{Feed, Given, Turn};
pub use kit::{Kit, WorkerEnd};
pub use running::run_worker;
pub use script::{Line, Script};
