//! A packet that is taken.

use crate::came::Came;

/// A packet, of which the octets that are written lie in two pieces: what carries the number of its frame stood between or behind them.
#[derive(Clone, Copy, Debug)]
pub struct Packet<'a> {
    /// Where and when it came in.
    pub came: Came,
    /// Its number in its capture.
    pub number: u64,
    /// Whether its trailer names the other LAN.
    pub is_astray: bool,
    /// The octets that are written of it, up to a place.
    pub front: &'a [u8],
    /// Those behind the place.
    pub back: &'a [u8],
}
