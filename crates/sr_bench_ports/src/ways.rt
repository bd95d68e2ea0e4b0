//! The ways in which an event comes to a node.

use crate::events::Subject;
use sr_forwarding::{Danp, Parcel};
use sr_frame::NoMemory;
use sr_node::{Event, NodeOf};
use sr_ports::{Kept, Passes, Segment, SharedNode, enter, rotate};
use std::alloc::Global;
use std::sync::Wait;
use std::sync::ledger::Ledger;

/// The node alone.
#[derive(Drop)]
pub struct Alone {
    pub node: NodeOf<Danp>,
}

/// The node, with copies of the event and of the parcel that it takes out, which are let go at once.
#[derive(Drop)]
pub struct Copied {
    pub alloc: Global,
    pub node: NodeOf<Danp>,
}

/// The node with a journal.
#[derive(Drop)]
pub struct Entered<L: Ledger> {
    pub kept: Kept<Danp, L>,
    pub passes: Passes<L>,
}

/// The node with a journal under a lock.
#[derive(Drop)]
pub struct Locked<'a, L: Ledger, R: Wait> {
    pub rt: &'a R,
    pub shared: SharedNode<Danp, L>,
    pub passes: Passes<L>,
}

impl Subject for Alone {
    fn take(&mut self, event: &Event) -> bool {
        self.node.step(event).is_ok()
    }
}

/// The copy of an event that a journal keeps. It is not inlined: the compiler leaves out what is written and never read.
#[inline(never)]
fn event_copy(alloc: Global, event: &Event) -> Result<Event, NoMemory> {
    event.try_clone(alloc)
}

/// The copy that a journal keeps of a parcel that is taken out.
#[inline(never)]
fn parcel_copy(alloc: Global, parcel: &Parcel) -> Result<Parcel, NoMemory> {
    parcel.try_clone(alloc)
}

/// Copies what a journal keeps of this event and of its answer.
fn copies(alloc: Global, node: &NodeOf<Danp>, event: &Event) -> Result<(), NoMemory> {
    drop(event_copy(alloc, event)?);
    if let Event::Take { port } = event {
        if let Some(parcel) = node.front(*port) {
            drop(parcel_copy(alloc, parcel)?);
        }
    }
    Ok(())
}

impl Subject for Copied {
    fn take(&mut self, event: &Event) -> bool {
        copies(self.alloc, &self.node, event).is_ok() && self.node.step(event).is_ok()
    }
}

impl<L: Ledger> Subject for Entered<L> {
    fn take(&mut self, event: &Event) -> bool {
        enter(&mut self.kept, &mut self.passes.host, event).is_ok()
    }
}

impl<L: Ledger> Entered<L> {
    /// Closes the journal as a segment.
    pub fn rotate(&mut self) -> Result<Segment, NoMemory> {
        rotate(&mut self.kept)
    }
}

impl<'a, L: Ledger, R: Wait> Subject for Locked<'a, L, R> {
    fn take(&mut self, event: &Event) -> bool {
        let mut kept = self.shared.kept.lock(self.rt);
        enter(&mut *kept, &mut self.passes.host, event).is_ok()
    }
}
