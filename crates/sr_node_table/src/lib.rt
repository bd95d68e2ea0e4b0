//! The nodes that a node hears, what it says of them, and the alarms that they raise.
#![tactic(auto)]

mod alarm;
mod equality;
mod late;
mod laws;
mod node;
mod status;
mod table;
mod watching;

pub use alarm::Alarm;
pub use laws::{equal_where_the_tables_are, status_is_of_hearings};
pub use node::{Announced, AtPort, Node, Told};
pub use status::{GREATEST_AGE, Status};
pub use table::{MAX_ALARMS, MAX_NODES, NODE_FORGET_TIME, NodeTable, Ready};
pub use watching::{HEARD_LATELY, MAX_BEHIND};
