//! Scripts of rings, of twin networks and of coupled ones: what happens to a plant, line by line, and what its hosts are
//! handed.
#![tactic(auto)]

mod answering;
mod command;
mod laws;
mod members;
mod network;
mod obeying;
mod printing;
mod reading;
mod refusing;
mod running;
mod sending;
mod served;
mod setup;

pub use command::{Command, Receiver, Verb};
pub use laws::setups_make_plants;
pub use members::{Member, MemberRouting, mac_of};
pub use reading::command_of;
pub use refusing::tell_refusal;
pub use running::run_plant;
pub use sending::{send_refusal, sent_frame};
pub use setup::{Joins, PlantSetup};
pub use sr_plant::Topology;
