//! Laws over whole scripts of nodes and of networks.
#![tactic(auto)]

mod laws;

pub use laws::{
    node_scripts_are_runs, plant_scripts_are_runs, scripts_print_each_frame_once,
    status_scripts_are_runs, statuses_tell_what_was_heard,
};
