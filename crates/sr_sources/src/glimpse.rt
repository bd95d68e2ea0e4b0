//! What is seen of a frame.

use sr_sequence::Seq;

/// What is seen of a frame of a source.
#[derive(Clone, Copy, Debug, PartialEq, Eq)]
pub struct Glimpse {
    /// When it came, in nanoseconds.
    pub time: u64,
    /// Its number. None: it has neither a trailer nor a tag.
    pub number: Option<Seq>,
    /// Whether its trailer names the other LAN.
    pub is_astray: bool,
}
