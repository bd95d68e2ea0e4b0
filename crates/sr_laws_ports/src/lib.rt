//! Laws over histories of nodes that threads share, and over what workers at such a node wrote down.
#![tactic(auto)]

mod laws;

pub use laws::{
    histories_are_runs, segments_are_runs, what_was_entered_goes_out_once,
    what_workers_took_out_goes_out_once,
};
