//! Runs of networks of real nodes, worked out octet for octet: the premises of the laws of networks can be met.
#![tactic(auto)]

mod laws;

pub use laws::{
    a_cut_lan_of_two_meets_the_premises, a_cut_ring_of_two_meets_the_premises,
    a_cut_ring_with_lans_meets_the_premises, two_cut_rings_meet_the_premises,
};
