//! What a line of a script of a plant asks for, as a value.

/// Whom a frame is for.
#[derive(Clone, Copy, Debug)]
pub enum Receiver {
    /// All nodes.
    All,
    /// The node of this number.
    Node(usize),
}

/// What is done to the copy at a place, or to a link.
#[derive(Clone, Copy, Debug)]
pub enum Verb {
    /// The copy comes to its receiver.
    Carry,
    /// The copy is lost.
    Drop,
    /// The copy is doubled.
    Repeat,
    /// The link is cut.
    Cut,
    /// The link is mended.
    Mend,
}

/// What a line asks for. The octets that it names are kept beside it.
#[derive(Clone, Copy, Debug)]
pub enum Command {
    /// Nothing: the line is empty or begins with `#`.
    Skip,
    /// The host of the node of this number sends its octets there.
    Send(usize, Receiver),
    /// This is done at the place, or to the link, of this number.
    On(Verb, usize),
    /// Time passes for the node of this number, up to this time in milliseconds.
    Tick(usize, u64),
    /// All copies are carried, first in first out.
    Flow,
}
