//! What a frame that comes in comes to, found out once and lent to its growths and its changes.

use crate::observations::Observations;
use sr_dup_window::Lanes;
use sr_forwarding::{Header, Outlets};
use sr_frame::Port;
use sr_sequence::Seq;
use sr_slots::Hint;

/// A frame of another node, before the table of sources is asked.
#[derive(Clone, Copy)]
pub(crate) struct Arrival<'a> {
    /// Where it came in.
    pub(crate) inlet: Port,
    /// What routes read of it, as it goes on.
    pub(crate) header: &'a Header,
    /// Where the role wants it.
    pub(crate) wanted: Outlets,
    /// The lanes on which it is noted.
    pub(crate) lanes: Lanes,
    /// The number that the node's next frame takes after it.
    pub(crate) next: Seq,
    /// The moment.
    pub(crate) moment: u64,
}

/// A frame that passes.
#[derive(Clone, Copy)]
pub(crate) struct Passing<'a> {
    /// The frame.
    pub(crate) arrival: Arrival<'a>,
    /// The wanted outlets for which no copy was noted: it goes there.
    pub(crate) outlets: Outlets,
    /// Where the record of its source was found.
    pub(crate) hint: Option<Hint>,
    /// What it makes known of other nodes.
    pub(crate) observations: Observations,
}
