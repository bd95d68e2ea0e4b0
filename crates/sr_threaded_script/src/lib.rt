//! Scripts of rings and twin networks whose nodes run on threads: what each host is to send, and what comes of it.
#![tactic(auto)]

mod fault;
mod host;
mod network;
mod printing;
mod reading;
mod running;
mod session;
mod setup;

pub use fault::ThreadedFault;
pub use host::Host;
pub use reading::is_threaded_line;
pub use running::run_threaded;
pub use setup::{ThreadedNet, ThreadedSetup};
