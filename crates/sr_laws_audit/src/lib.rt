//! What the figures of an audit say of a node that takes the same copies, of each number of a source, and of a network in which nothing
//! is lost; and what all lines of a listing come to.
#![tactic(auto)]

mod calls;
mod laws;
#[cfg(test)]
mod tests;

pub use calls::list_source;
pub use laws::{
    audits_count_each_number, each_break_is_told, each_number_is_listed_once, each_number_is_told,
    figures_are_by_arrivals, lists_are_as_long_as_figures_say, records_have_no_loss,
    records_have_no_repeat, records_lack_no_number, ring_frames_meet_the_premises,
    ring_records_lack_no_number, steady_audits_count_what_goes_up, tests_are_by_arrivals,
    three_frames_meet_the_premises, what_is_lost_is_told, whole_audits_tell_no_fault,
    worked_lines_are_told,
};
