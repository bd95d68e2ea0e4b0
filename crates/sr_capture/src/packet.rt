//! A packet of a capture.

ghost use Rattle.std.specs.Prelude.{◌<◌, ◌^◌};

use std::alloc::Global;

/// The most octets of a packet that are kept: those of the longest frame.
pub const MAX_KEPT: usize = 1524;

/// Whether a capture has the whole of a packet.
#[derive(Clone, Copy, Debug, PartialEq, Eq)]
pub enum Extent {
    /// It has all octets.
    Whole,
    /// It has the first ones alone: the rest was cut off by the snap length.
    Cut,
}

/// What the head of a packet says.
#[derive(Clone, Copy)]
pub(crate) struct Head {
    /// When it was captured, in nanoseconds since 1970.
    pub time: u64,
    /// How many octets were captured.
    pub held: u32,
    /// Whether these are all.
    pub extent: Extent,
    pub ghost early: { time < 2 ^ 63 },
}

/// A packet of a capture. One value serves for one packet after another.
#[derive(Debug, Drop)]
pub struct Packet {
    /// When it was captured, in nanoseconds since 1970.
    pub time: u64,
    /// How much of it the capture has.
    pub extent: Extent,
    /// How many octets the capture has of it, without a check sequence.
    pub len: u64,
    /// These octets, where they are at most 1524.
    pub octets: Vec<u8>,
    /// How many octets of the file it took.
    pub size: u64,
    pub ghost early: { time < 2 ^ 63 },
}

impl Packet {
    /// A packet without octets.
    pub fn new(alloc: Global) -> Packet {
        Packet {
            time: 0,
            extent: Extent::Whole,
            len: 0,
            octets: Vec::new(alloc),
            size: 0,
        }
    }
}
