//! Laws over all runs of coupled networks of real nodes: a ring with two LANs, and two rings.
#![tactic(auto)]

mod laws;

pub use laws::{
    an_unbroken_coupled_network_hands_up_each_once, coupled_networks_hand_up_no_send_twice,
    no_frame_goes_back_into_a_lan, ring_lans_hand_up_the_ideal, two_rings_hand_up_the_ideal,
};
