//! What a worker begins with, and what it ends with.

use crate::WorkerFault;
use sr_forwarding::Parcel;
use sr_ports::Log;

/// What a worker begins with.
#[derive(Drop)]
pub struct Kit<P: Drop, F: Drop, G: Drop> {
    /// Its right to enter events: its pass, or its way to the node.
    pub pass: P,
    /// Where its frames come from, and where they go.
    pub feed: F,
    /// How its port carries frames.
    pub framing: G,
}

/// What a worker ends with, beside its pass.
#[derive(Drop)]
pub struct WorkerEnd<F: Drop> {
    /// Its feed.
    pub feed: F,
    /// What it entered, with the answers.
    pub log: Log,
    /// How many frames and times its feed handed out of which no event was entered.
    pub unread: u64,
    /// Why it stopped before its end, if it did.
    pub fault: Option<WorkerFault>,
    /// The parcel that it took out last, where its feed failed to take it.
    pub held: Option<Parcel>,
}
