//! What a table of nodes keeps, and which alarms it raises, over whole runs.
#![tactic(auto)]

mod laws;

pub use laws::{
    a_full_table_is_worked_out, alarms_are_of_what_was_heard,
    hearings_are_kept_where_there_is_room, nodes_are_those_that_are_heard, two_runs_are_worked_out,
};
