//! What a chart shows, as values.

/// Columns that belong together: those of a ring, or of the nodes of two LANs.
#[derive(Clone, Copy, Debug)]
pub struct Part {
    /// What is written above them.
    pub name: &'static str,
    /// The first of its nodes.
    pub first: usize,
    /// How many it has.
    pub count: usize,
}

/// The columns of a chart, from left to right.
#[derive(Clone, Copy, Debug)]
pub struct Shape {
    /// What the network is, as words of a title.
    pub name: &'static str,
    /// The nodes on the left, or all.
    pub left: Part,
    /// The nodes on the right, if they are apart.
    pub right: Option<Part>,
}

/// A frame that a node sent.
#[derive(Clone, Copy, Debug)]
pub struct Frame {
    /// The node.
    pub source: usize,
    /// Its place among the frames of the node, from 1.
    pub number: u64,
}

/// Where a copy went out.
#[derive(Clone, Copy, Debug)]
pub enum Outlet {
    /// At port A.
    A,
    /// At port B.
    B,
    /// At the interlink of a RedBox.
    C,
}

/// A side of a column.
#[derive(Clone, Copy, Debug, PartialEq, Eq)]
pub enum Side {
    /// The left one.
    Left,
    /// The right one.
    Right,
}

/// Which way an arrow goes.
#[derive(Clone, Copy, Debug)]
pub enum Path {
    /// From column to column.
    Straight,
    /// Out on this side of a ring, and in again on its other side.
    Around(Side),
}

/// What became of a copy.
#[derive(Clone, Copy, Debug, PartialEq, Eq)]
pub enum Fate {
    /// It came to its receiver.
    Arrived,
    /// A line of the script lost it.
    Dropped,
    /// It was on a link as that was cut.
    CutOff,
    /// The link behind its outlet was cut.
    StoppedFirst,
    /// The link before its receiver was cut.
    StoppedLast,
    /// It is in flight where the chart ends.
    Flying,
}

/// A copy, from where it was put out to where it ended.
#[derive(Clone, Copy, Debug)]
pub struct Arrow {
    /// The place of its frame among those of the chart.
    pub frame: usize,
    /// Where it went out.
    pub outlet: Outlet,
    /// The node that put it out.
    pub from: usize,
    /// The node that it leads to.
    pub to: usize,
    /// The row in which it was put out.
    pub start: usize,
    /// The row in which it ended.
    pub end: usize,
    /// Which way it goes.
    pub path: Path,
    /// What became of it.
    pub fate: Fate,
}

/// What an event was.
#[derive(Clone, Copy, Debug)]
pub enum Deed {
    /// The host of a node sent to all.
    SendAll(usize),
    /// The host of a node sent to another node.
    Send(usize, usize),
    /// The copy at a place was carried.
    Carry(usize),
    /// The copy at a place was lost.
    Drop(usize),
    /// The copy at a place was doubled.
    Repeat(usize),
    /// A link was cut.
    Cut(usize),
    /// A link was mended.
    Mend(usize),
    /// Time passed for a node, up to this time in milliseconds.
    Tick(usize, u64),
}

/// An event.
#[derive(Clone, Copy, Debug)]
pub struct Row {
    /// The line of the script that asks for it.
    pub line: u64,
    /// What it was.
    pub deed: Deed,
    /// What it was refused with, if it was.
    pub refusal: Option<&'static str>,
}

/// Where a link is drawn: beside the column of a node.
#[derive(Clone, Copy, Debug)]
pub struct LinkPlace {
    /// The node.
    pub node: usize,
    /// On which side.
    pub side: Side,
    /// Whether it ends at that node alone, as a link of a LAN and an interlink do. Else it goes on to the next column.
    pub is_own: bool,
}
