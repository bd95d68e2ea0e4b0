//! RedBoxes: the roles of nodes between a ring and what is no part of it.
#![tactic(auto)]

mod hsr_box;
mod laws;
mod prp_box;
mod ring_boxes;
mod san_box;

pub use hsr_box::{HsrBox, HsrRouting};
pub use laws::no_frame_goes_back_into_its_network;
pub use prp_box::{PrpBox, PrpRouting};
pub use san_box::SanBox;
