//! What a table of duplicate records answers over whole runs.
#![tactic(auto)]

mod laws;

pub use laws::{
    copies_over_the_end_are_steady, each_pair_is_new_after_a_start, each_pair_is_new_once,
    late_copies_are_steady, starts_are_steady, tables_can_start, what_a_record_lacks_is_new,
};
