//! A node whose role is chosen when it is made, without a box: what a program that names no types of roles holds.
#![tactic(auto)]

mod alarm_log;
mod any_role;
mod counters;
mod endpoint;
mod giving;
mod keeping;
mod proxied;
mod setup;
mod telling;

pub use alarm_log::AlarmLog;
pub use any_role::AnyRole;
pub use counters::Counters;
pub use endpoint::Endpoint;
pub use setup::Setup;
