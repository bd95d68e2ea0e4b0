//! Journals of real nodes, worked out octet for octet: the premises of the laws of journals and of logs can be met.
#![tactic(auto)]

mod laws;

pub use laws::{
    a_journal_of_two_workers_meets_the_premises, two_journals_of_two_workers_meet_the_premises,
};
