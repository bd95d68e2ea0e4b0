//! The two recorders.

/// One of the two recorders, of which each has the packets of one way of a redundant network.
#[derive(Clone, Copy, Debug, PartialEq, Eq)]
pub enum Recorder {
    /// That of LAN A.
    A,
    /// That of LAN B.
    B,
}
