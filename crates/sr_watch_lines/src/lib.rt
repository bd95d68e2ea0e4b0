//! What a watch says, as octets: lines of words, objects of JSON, and metrics.
#![tactic(auto)]

mod alarms;
mod families;
mod metrics;
mod report;
mod rows;
mod shown;
mod sides;
mod skews;
mod whole;

pub use alarms::{Raised, print_alarm};
pub use metrics::{Metrics, print_metrics};
pub use report::{Packets, Told, print_report};
pub use rows::Format;
