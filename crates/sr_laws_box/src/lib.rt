//! Nodes and frames between a ring and what RedBoxes join to it, as members and frames of the laws of networks.
#![tactic(auto)]

mod laws;

pub use laws::{
    danhs_are_members, danps_are_members, frames_cross_from_lan_to_ring,
    frames_cross_from_ring_to_lan, hsr_boxes_are_members, new_frames_are_read_in_lans,
    new_frames_are_read_in_rings, padding_is_done_once, prp_boxes_are_members,
    tagged_frames_stay_as_they_are,
};
