//! Scripts of lines, read from any reader, obeyed by any session, answered to any writer.
#![tactic(auto)]

mod fault;
mod fronts;
mod lines;
mod running;
mod session;
mod waiting;

pub use fault::{Fault, FaultKind, NOT_BEGUN};
pub use lines::MAX_LINE;
pub use running::{run_session, run_session_leaving};
pub use session::Session;
pub use waiting::write_out;
