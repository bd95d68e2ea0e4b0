//! What the audit of captures says of a network in which nothing is lost, and of frames that no recorder has, and how a check ends.
#![tactic(auto)]

mod laws;

pub use laws::{
    checks_are_by_arrivals, counters_count_each_number, edges_are_wide_enough,
    false_ends_are_refused, flows_are_by_arrivals, inner_spans_leave_out, mirrors_tell_no_fault,
    no_limits_leave_each_fault, pairs_beyond_a_limit_are_told, recorders_tell_no_fault,
    reports_count_each_number, sight_is_by_arrivals, two_readings_tell_no_fault,
    verdicts_are_of_the_run, verdicts_end_as_judged, verdicts_end_by_limits,
    worked_limits_end_checks,
};
