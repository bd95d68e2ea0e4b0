//! What a node of a threaded network begins with, and what it ends with.

ghost use Rattle.std.specs.Prelude.{◌≡◌};
ghost use Rattle.sr_threaded.specs.Losses.{lost_from};

use sr_forwarding::{Framing, Parcel, Role};
use sr_lines::Line;
use sr_node::NodeOf;
use sr_ports::{Log, Segment, Settlement};
use sr_workers::{Feed, WorkerFault};

/// What a node of a threaded network begins with. The nodes of a network have addresses of their own.
#[derive(Drop)]
pub struct NodeKit<N: Role, G: Framing, F: Feed> {
    /// The node.
    pub node: NodeOf<N>,
    /// How port A carries frames.
    pub a: G,
    /// How port B does.
    pub b: G,
    /// How the host's port does.
    pub host: G,
    /// Where the host's frames come from, and where they go.
    pub feed: F,
}

/// What a worker ends with, beside its log.
#[derive(Drop)]
pub struct LineEnd<F: Feed> {
    /// Its line.
    pub line: Line<F>,
    /// How many frames and times its line handed out of which no event was entered.
    pub unread: u64,
    /// Why it stopped before its end, if it did.
    pub fault: Option<WorkerFault>,
    /// The parcel that it took out last, where its line failed to take it.
    pub held: Option<Parcel>,
}

/// What a node of a threaded network ends with.
#[derive(Drop)]
pub struct NodeEnd<F: Feed> {
    /// Its history, which one thread could have made.
    pub segment: Segment,
    /// What its workers wrote down: that of A, of B and of the host.
    pub logs: Vec<Log>,
    /// What they ended with beside, in the same order.
    pub ends: Vec<LineEnd<F>>,
    /// How the logs stand to the history, which is torn at 0 where it opens with another node than was given, and the wires to
    /// their other ends.
    pub settlement: Settlement,
    /// How many frames were lost that it was to send, on full wires or where an allocation failed, up to the greatest number.
    pub lost: u64,
    pub ghost counts: { lost ≡ lost_from 0 ends.items },
}
