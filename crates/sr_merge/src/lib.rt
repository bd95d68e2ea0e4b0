//! Two captures of a redundant network as one in which each frame stands once: its first copy, at its time.
#![tactic(auto)]

mod came;
mod laws;
mod merge;
mod packet;
mod queue;
mod waiting;

pub use came::{Came, FrameId};
pub use laws::{
    all_is_written_at_the_end, copies_in_time_count, each_frame_is_kept_once,
    each_frame_is_written_once, what_is_due_is_written, what_is_met_has_a_copy,
    what_is_new_is_written,
};
pub use merge::{Due, Merge};
pub use packet::Packet;
pub use waiting::{COPY_TIME, Verdict, Waiting};
