//! The events of a plant.

use sr_frame::Frame;

/// An event of a plant. Nodes, links, and the copies in flight are counted from 0; the copies are in the order in which
/// they were put out.
#[derive(Debug, Drop)]
pub enum PlantEvent {
    /// The host of a node sends a frame, at the plant's time.
    Send {
        /// The node.
        node: usize,
        /// The frame, without tag and trailer.
        frame: Frame,
    },
    /// The copy at this place comes to its receiver, at the plant's time.
    Carry(usize),
    /// The copy at this place is lost.
    Drop(usize),
    /// The copy at this place is doubled; the double goes last.
    Repeat(usize),
    /// A link is cut: what is on it is lost, and so is what is put on it until it is mended.
    Cut(usize),
    /// A link is mended.
    Mend(usize),
    /// Time passes for a node.
    Tick {
        /// The node.
        node: usize,
        /// The time in milliseconds, which the plant's becomes.
        now: u64,
    },
}
