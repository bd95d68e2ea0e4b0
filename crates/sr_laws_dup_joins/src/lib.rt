//! What tables of duplicate records know that came about by any tree of arrivals, ageings and merges.
#![tactic(auto)]

mod laws;

pub use laws::{a_standby_is_steady, answers_by_the_union, tables_agree, tables_stand};
