//! One event under the lock, and a note of it where it is refused.

ghost use Rattle.std.specs.Prelude.{◌≡◌};
ghost use Rattle.sr_node.specs.States.{state_of};
ghost use Rattle.sr_ports.specs.Entering.{EntersUnder, locked};
ghost use Rattle.sr_ports.specs.Refusals.{CountsOnce, none_refused, refused_again};

use crate::{EnterFault, Kept, Pass, enter};
use sr_forwarding::Role;
use sr_node::{Answer, Event};
use std::marker::Model;
use std::sync::ledger::Ledger;

/// How many events a worker was refused, up to the greatest number, and why the last of them was. `enter_noted` alone notes one.
#[derive(Drop)]
pub struct Refusals {
    count: u64,
    last: Option<EnterFault>,
}

impl Model for Refusals {
    ghost use Rattle.sr_ports.specs.Refusals.{Refused, refused};

    ghost Value = { Refused };

    ghost view = { λ r. refused r.count r.last };
}

impl Refusals {
    /// That nothing was refused yet.
    pub fn new() -> Refusals
        ensures { result ≡ none_refused }
    {
        Refusals {
            count: 0,
            last: None,
        }
    }

    // One more, for this reason.
    #[cold]
    #[inline(never)]
    fn note(&mut self, why: EnterFault)
        ensures { self.new ≡ refused_again self.old why }
    {
        self.count = self.count.saturating_add(1);
        self.last = Some(why);
    }
}

/// Enters an event as `enter` does. A refusal, which changes nothing under the lock and nothing of the pass, is noted.
// speed: D-ports-nothing-taken
#[inline(always)]
pub fn enter_noted<R: Role, L: Ledger>(
    kept: &mut Kept<R, L>,
    pass: &mut Pass<L>,
    refusals: &mut Refusals,
    event: &Event,
) -> Result<Answer, EnterFault>
    ensures enters { EntersUnder
        (locked (state_of R.meaning kept.old.node) kept.old.journal.items kept.old.book.total)
        pass.old.worker event.now result
        (locked (state_of R.meaning kept.new.node) kept.new.journal.items kept.new.book.total) }
    ensures counts { CountsOnce pass.old refusals.old result pass.new refusals.new }
    ensures opening { kept.new.opening ≡ kept.old.opening }
    ensures closed { kept.new.closed ≡ kept.old.closed }
{
    let result = enter(kept, pass, event);
    if let Err(fault) = &result {
        refusals.note(*fault);
    }
    result
}
