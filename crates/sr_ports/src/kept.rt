//! What lies under the lock.

ghost use Rattle.std.specs.Prelude.{◌≡◌, ◌+◌, ◌<◌, ◌^◌, vec_len};
ghost use Rattle.sr_node.specs.States.{state_of};
ghost use Rattle.sr_node.specs.NodeImages.{image_state};
ghost use Rattle.sr_ports.specs.Histories.{Steps};

use crate::Entry;
use sr_forwarding::Role;
use sr_node::{NodeImage, NodeOf};
use std::sync::Mutex;
use std::sync::ledger::{Book, Ledger};

/// A node with its journal, which one thread could have made: from the opening, its entries lead to the node as it is. The
/// entries of all journals that were closed, and of this one, are as many as the book says.
#[derive(Drop)]
pub struct Kept<R: Role, L: Ledger> {
    /// The node.
    pub node: NodeOf<R>,
    /// What was entered since the opening, the oldest first.
    pub journal: Vec<Entry>,
    /// The node at the opening.
    pub opening: NodeImage,
    /// How many entries closed journals have.
    pub closed: u64,
    /// How many entries there are in all.
    pub book: Book<L>,
    pub ghost legal: { ∥ Steps (image_state opening) journal.items
        (state_of R.meaning node) ∥₁ },
    pub ghost counted: { closed + vec_len journal ≡ book.total },
    pub ghost fits: { book.total < 2 ^ 64 },
}

/// A node that threads share. Whoever locks it calls `enter` on what the guard lends.
#[derive(Drop)]
pub struct SharedNode<R: Role, L: Ledger> {
    /// The lock, and what lies under it.
    pub kept: Mutex<Kept<R, L>>,
}
