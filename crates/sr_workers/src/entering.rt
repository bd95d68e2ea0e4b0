//! What a worker enters its events by.

ghost use Rattle.std.specs.Prelude.{◌≡◌, ◌+◌, ◌≢◌, ℕ, None, IfOk, IfErr, OnErr};
ghost use Rattle.std.specs.declared.result.Result.{Result};
ghost use Rattle.sr_node.specs.declared.event.Event.{Event};
ghost use Rattle.sr_node.specs.declared.event.Answer.{Answer};
ghost use Rattle.sr_node.specs.Answers.{IsAnswerOf};
ghost use Rattle.sr_ports.specs.Refusals.{none_refused};
ghost use Rattle.sr_ports.specs.declared.fault.EnterFault.{EnterFault};
ghost use Rattle.sr_ports.specs.declared.worker.Worker.{Worker};
ghost use Rattle.sr_workers.specs.Entering.{IsRefusalOf};

use sr_forwarding::Role;
use sr_node::{Answer, Event, a_take_alone_is_answered_taken};
use sr_ports::{EnterFault, Pass, Refusals, SharedNode, Worker, enter_noted};
use std::sync::Wait;
use std::sync::ledger::Ledger;

/// A worker's way to a node: a lock that lies over it, and the worker's pass.
pub trait Enters: Drop {
    /// Whose it is.
    ghost whose: { Self → Worker };

    /// How many events were entered.
    ghost count: { Self → ℕ };

    /// That an event led from one state to another, with this answer or refusal. Whoever enters events by any such way knows this of
    /// none but those that it entered.
    ghost enters: { Self → Event → Result Answer EnterFault → Self → Type 0 };

    /// Whose it is.
    fn worker(&self) -> Worker
        ensures { result ≡ whose self.now };

    /// Enters an event whole, as one step of the node, or refuses it. A Take is refused for a full journal or for a
    /// failed allocation alone.
    fn enter<W: Wait>(&mut self, rt: &W, event: &Event) -> Result<Answer, EnterFault>
        ensures enters { enters self.old event.now result self.new }
        ensures whose { whose self.new ≡ whose self.old }
        ensures count { IfOk result (λ a. count self.new ≡ count self.old + 1) }
        ensures answer { IfOk result (λ a. IsAnswerOf event.now a) }
        ensures refusal { IfErr result (λ f. IsRefusalOf event.now f) }
        ensures err { OnErr result (count self.new ≡ count self.old) };
}

/// A worker's place at a node that threads share.
#[derive(Drop)]
pub struct Seat<'s, R: Role, L: Ledger> {
    /// The node.
    pub shared: &'s SharedNode<R, L>,
    /// The worker's pass.
    pub pass: Pass<L>,
    /// What the worker was refused here.
    pub refusals: Refusals,
}

impl<'s, R: Role, L: Ledger> Seat<'s, R, L> {
    /// A place at the node, where nothing was refused yet.
    pub fn new(shared: &'s SharedNode<R, L>, pass: Pass<L>) -> Seat<'s, R, L>
        ensures pass { result.pass ≡ pass }
        ensures refusals { result.refusals ≡ none_refused }
    {
        Seat {
            shared,
            pass,
            refusals: Refusals::new(),
        }
    }
}

impl<R: Role, L: Ledger> Enters for Seat<'_, R, L> {
    ghost use Rattle.sr_workers.specs.Entering.{EntersWith};

    ghost whose = { λ s. s.pass.worker };

    ghost count = { λ s. s.pass.count };

    ghost enters = { λ s e r t. EntersWith s.pass s.refusals e r t.pass t.refusals };

    fn worker(&self) -> Worker {
        self.pass.worker()
    }

    // speed: D-ports-nothing-taken
    #[inline(always)]
    fn enter<W: Wait>(&mut self, rt: &W, event: &Event) -> Result<Answer, EnterFault> {
        a_take_alone_is_answered_taken();
        let mut kept = self.shared.kept.lock(rt);
        enter_noted(&mut *kept, &mut self.pass, &mut self.refusals, event)
    }
}
