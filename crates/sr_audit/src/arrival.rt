//! A copy of a frame, as it came in.

use crate::side::Side;
use sr_sequence::Seq;

/// A copy of a numbered frame of one source, as it came in.
#[derive(Clone, Copy, Debug, PartialEq, Eq)]
pub struct Arrival {
    /// Where it came in.
    pub side: Side,
    /// The number that its source gave the frame.
    pub seq: Seq,
    /// When it came in, in nanoseconds. No time goes back.
    pub time: u64,
}
