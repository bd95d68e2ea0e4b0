//! A node comes under its lock, and out of it; the counts of its workers are compared.

ghost use Rattle.std.specs.Prelude.{◌≡◌, ◌+◌, [], IfOk, vec_len};
ghost use Rattle.sr_node.specs.States.{state_of};
ghost use Rattle.sr_node.specs.NodeImages.{image_state};
ghost use Rattle.sr_ports.specs.Histories.{Steps};
ghost use Rattle.sr_ports.specs.Stamps.{stamp};

use crate::owned::beside;
use crate::{Kept, Pass, Passes, SharedNode, Worker};
use sr_forwarding::Role;
use sr_frame::NoMemory;
use sr_node::NodeOf;
use std::alloc::Global;
use std::sync::Mutex;
use std::sync::ledger::{Blank, Ledger, Share};

// The five passes, of the whole share of a new book.
fn passes_of<L: Ledger>(whole: Share<L>) -> Passes<L>
    requires parts { whole.parts ≡ 5 }
    requires amount { whole.amount ≡ 0 }
    ensures a { result.a ≡ stamp Worker.A 0 }
    ensures b { result.b ≡ stamp Worker.B 0 }
    ensures c { result.c ≡ stamp Worker.C 0 }
    ensures ager { result.ager ≡ stamp Worker.Ager 0 }
    ensures host { result.host ≡ stamp Worker.Host 0 }
{
    let mut rest = whole;
    let b = Pass::new(Worker::B, rest.split_off(1, 0));
    let c = Pass::new(Worker::C, rest.split_off(1, 0));
    let ager = Pass::new(Worker::Ager, rest.split_off(1, 0));
    let host = Pass::new(Worker::Host, rest.split_off(1, 0));
    let a = Pass::new(Worker::A, rest);
    Passes {
        a,
        b,
        c,
        ager,
        host,
    }
}

// The share of the five passes together.
fn share_of<L: Ledger>(passes: Passes<L>) -> Share<L>
    ensures parts { result.parts ≡ 5 }
    ensures amount { result.amount ≡ passes.a.count + passes.b.count + passes.c.count
        + passes.ager.count + passes.host.count }
{
    let Passes {
        a,
        b,
        c,
        ager,
        host,
    } = passes;
    let mut all = a.into_share();
    all.merge(b.into_share());
    all.merge(c.into_share());
    all.merge(ager.into_share());
    all.merge(host.into_share());
    all
}

impl<R: Role, L: Ledger> Kept<R, L> {
    /// A node with an empty journal that opens with the node as it is, and the passes of its workers. NoMemory: an
    /// allocation failed.
    pub fn new(
        alloc: Global,
        node: NodeOf<R>,
        blank: Blank,
    ) -> Result<(Kept<R, L>, Passes<L>), NoMemory>
        requires name { blank.name ≡ L.name }
        requires parts { blank.parts ≡ L.parts }
        requires five { L.parts ≡ 5 }
        ensures node { IfOk result (λ r. r.0.node ≡ node) }
        ensures opening { IfOk result (λ r. image_state r.0.opening ≡ state_of R.meaning node) }
        ensures journal { IfOk result (λ r. r.0.journal.items ≡ []) }
        ensures closed { IfOk result (λ r. r.0.closed ≡ 0) }
        ensures a { IfOk result (λ r. r.1.a ≡ stamp Worker.A 0) }
        ensures b { IfOk result (λ r. r.1.b ≡ stamp Worker.B 0) }
        ensures c { IfOk result (λ r. r.1.c ≡ stamp Worker.C 0) }
        ensures ager { IfOk result (λ r. r.1.ager ≡ stamp Worker.Ager 0) }
        ensures host { IfOk result (λ r. r.1.host ≡ stamp Worker.Host 0) }
    {
        let (opening, node) = beside(node.image(), node)?;
        let (book, whole) = blank.open::<L>();
        let passes = passes_of(whole);
        let kept = Kept {
            node,
            journal: Vec::new(alloc),
            opening,
            closed: 0,
            book,
        };
        Ok((kept, passes))
    }

    /// The sum of the five counts, which is the number of entries of all journals.
    pub fn audit(&mut self, passes: Passes<L>) -> u64
        requires five { L.parts ≡ 5 }
        ensures counts { result ≡ passes.a.count + passes.b.count + passes.c.count
            + passes.ager.count + passes.host.count }
        ensures entries { result ≡ self.old.closed + vec_len self.old.journal }
        ensures node { self.new.node ≡ self.old.node }
        ensures journal { self.new.journal ≡ self.old.journal }
        ensures opening { self.new.opening ≡ self.old.opening }
        ensures closed { self.new.closed ≡ self.old.closed }
        ensures book { self.new.book.total ≡ self.old.book.total }
    {
        let mut all = share_of(passes);
        self.book.audit(&mut all);
        self.closed + self.journal.len() as u64
    }
}

impl<R: Role, L: Ledger> SharedNode<R, L> {
    /// A node under its lock as it is, with an empty journal that opens with it, and the passes of its workers. NoMemory: an
    /// allocation failed.
    ///
    /// The clauses speak of the passes alone: a lock shows nothing of what lies under it, since another thread may have it. What
    /// is put there is what `Kept::new` gives, whose clauses say all of it.
    pub fn new(
        alloc: Global,
        node: NodeOf<R>,
        blank: Blank,
    ) -> Result<(SharedNode<R, L>, Passes<L>), NoMemory>
        requires name { blank.name ≡ L.name }
        requires parts { blank.parts ≡ L.parts }
        requires five { L.parts ≡ 5 }
        ensures a { IfOk result (λ r. r.1.a ≡ stamp Worker.A 0) }
        ensures b { IfOk result (λ r. r.1.b ≡ stamp Worker.B 0) }
        ensures c { IfOk result (λ r. r.1.c ≡ stamp Worker.C 0) }
        ensures ager { IfOk result (λ r. r.1.ager ≡ stamp Worker.Ager 0) }
        ensures host { IfOk result (λ r. r.1.host ≡ stamp Worker.Host 0) }
    {
        let (kept, passes) = Kept::new(alloc, node, blank)?;
        let shared = SharedNode {
            kept: Mutex::new(kept),
        };
        Ok((shared, passes))
    }

    /// Takes what lies under the lock out of it: a history that one thread could have made, from the opening to the node as it
    /// is, and as many entries as the book says. It is what the last thread left there, which no clause can say of a lock.
    pub fn into_kept(self) -> Kept<R, L>
        ensures legal { ∥ Steps (image_state result.opening) result.journal.items
            (state_of R.meaning result.node) ∥₁ }
        ensures counted { result.closed + vec_len result.journal ≡ result.book.total }
    {
        self.kept.into_inner()
    }
}
