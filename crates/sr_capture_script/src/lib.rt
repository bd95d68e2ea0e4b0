//! Scripts from captures: the packets of up to three files, merged by time, a line for each.
#![tactic(auto)]

mod captures;
mod choice;
mod fault;
mod flaws;
mod lines;
mod merge;
mod packets;
mod passing;
mod scripting;
mod shifts;
mod source;
mod ticks;

pub use captures::{Captures, Front};
pub use choice::{Choice, Delays, Inlet, Interfaces, MAX_DELAY, Options};
pub use fault::ScriptFault;
pub use passing::{Pass, Place, pass_over, start_of};
pub use scripting::script;
pub use shifts::delays_of;
