//! Laws over what is printed of networks whose nodes run on threads.
#![tactic(auto)]

mod laws;

pub use laws::each_up_line_went_out_once;
