//! The ports of a node.

/// A port of a node: an inlet where frames come in, an outlet where they go out.
#[derive(Clone, Copy, Debug, Default, PartialEq, Eq, PartialOrd, Ord, Hash)]
pub enum Port {
    /// The host behind the node.
    #[default]
    H,
    /// The first of the two redundant ports: LAN A of a PRP network, or one direction of an HSR ring.
    A,
    /// The second of the two redundant ports: LAN B, or the other direction of the ring.
    B,
    /// The interlink of a RedBox.
    C,
}
