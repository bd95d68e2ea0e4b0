//! A wire and its two passes.

ghost use Rattle.std.specs.Prelude.{◌≡◌, ◌∷◌, ◌++◌, [], List, ℕ, IfOk, MatchResult, MatchOption};
ghost use Rattle.sr_wires.specs.Shown.{wire_end};
ghost use Rattle.sr_wires.specs.Wired.{IsWire, WasFull, WasEmpty};

use crate::rule::{Both, End, Puts, Queue, Takes, Whole};
use sr_frame::{Frame, NoMemory};
use std::alloc::Global;
use std::marker::Model;
use std::sync::Wait;

/// The most frames that wait on a wire.
const MAX_WAITING: usize = 256;

/// Frames on their way from one thread to another, at most 256. A contract sees which wire it is.
#[derive(Drop)]
pub struct Wire {
    queue: Queue,
}

impl Model for Wire {
    ghost use Rattle.std.specs.Prelude.{◌≡◌};
    ghost use Rattle.atomic_table.specs.Seated.{TableId, table_id_coded};
    ghost use Rattle.crossbeam_queue.specs.Passes.{ruled_capacity};
    ghost use Rattle.sr_wires.specs.Limits.{most_waiting};

    ghost Value = { TableId };

    ghost coded = { table_id_coded };

    ghost view = { λ w. w.queue.table.shared.table_id };

    ghost invariant = { λ w. ruled_capacity w.queue ≡ most_waiting };
}

/// The right to send on a wire. A contract sees all that was sent.
#[derive(Drop)]
pub struct SendPass {
    end: End,
}

impl Model for SendPass {
    ghost use Rattle.std.specs.Prelude.{◌≡◌, true, []};
    ghost use Rattle.crossbeam_queue.specs.Passes.{view as known};
    ghost use Rattle.sr_wires.specs.Shown.{WireEnd, wire_end, wire_end_code};

    ghost Value = { WireEnd };

    ghost coded = { wire_end_code };

    ghost view = { λ p. wire_end p.end.table_id (known p.end).sent (known p.end).seen_taken };

    ghost invariant = { λ p. (p.end.me.1 ≡ []) × ((known p.end).sends ≡ true) };
}

/// The right to take from a wire. A contract sees all that was taken.
#[derive(Drop)]
pub struct TakePass {
    end: End,
}

impl Model for TakePass {
    ghost use Rattle.std.specs.Prelude.{◌≡◌, true, []};
    ghost use Rattle.crossbeam_queue.specs.Passes.{view as known};
    ghost use Rattle.sr_wires.specs.Shown.{WireEnd, wire_end, wire_end_code};

    ghost Value = { WireEnd };

    ghost coded = { wire_end_code };

    ghost view = { λ p. wire_end p.end.table_id (known p.end).taken (known p.end).seen_sent };

    ghost invariant = { λ p. (p.end.me.1 ≡ []) × ((known p.end).takes ≡ true) };
}

impl Wire {
    /// An empty wire, and its two passes. NoMemory: an allocation failed.
    pub fn new(alloc: Global) -> Result<(Wire, SendPass, TakePass), NoMemory>
        ensures send { IfOk result (λ r. r.1 ≡ wire_end r.0 [] []) }
        ensures take { IfOk result (λ r. r.2 ≡ wire_end r.0 [] []) }
    {
        let (queue, mut end) = Queue::ruled(alloc, MAX_WAITING)?;
        let taker = queue.another::<Both>(&mut end);
        Ok((Wire { queue }, SendPass { end }, TakePass { end: taker }))
    }

    /// Sends the frame, or hands it back where 256 waited.
    pub fn put<W: Wait>(&self, rt: &W, pass: &mut SendPass, frame: Frame) -> Result<(), Frame>
        requires { pass.old.wire ≡ self.now }
        ensures wire { pass.new.wire ≡ self.now }
        ensures put { MatchResult result
            (λ _. pass.new.frames ≡ pass.old.frames ++ frame ∷ [])
            (λ back. (back ≡ frame) × (pass.new.frames ≡ pass.old.frames)
            × WasFull pass.old.frames pass.old.seen) }
        ensures seen { pass.new.seen ≡ pass.old.seen }
    {
        self.queue.push_as::<Puts, W>(rt, &mut pass.end, frame)
    }

    /// Takes the next frame, or none where none waited.
    pub fn take<W: Wait>(&self, rt: &W, pass: &mut TakePass) -> Option<Frame>
        requires { pass.old.wire ≡ self.now }
        ensures wire { pass.new.wire ≡ self.now }
        ensures take { MatchOption result
            ((pass.new.frames ≡ pass.old.frames) × WasEmpty pass.old.frames pass.old.seen)
            (λ f. pass.new.frames ≡ pass.old.frames ++ f ∷ []) }
        ensures seen { pass.new.seen ≡ pass.old.seen }
    {
        self.queue.pop_as::<Takes, W>(rt, &mut pass.end)
    }

    /// With both passes in hand, what was sent is what was taken, and then what waits.
    pub fn compare(&self, send: SendPass, take: TakePass) -> (SendPass, TakePass)
        requires send { send.wire ≡ self.now }
        requires take { take.wire ≡ self.now }
        ensures send { result.0 ≡ wire_end self.now send.frames take.frames }
        ensures take { result.1 ≡ wire_end self.now take.frames send.frames }
        ensures wire { (waiting : List (List ℕ)) × IsWire send.frames take.frames waiting }
    {
        let SendPass { mut end } = send;
        let TakePass { end: other } = take;
        self.queue.absorb::<Both>(&mut end, other);
        self.queue.learn_as::<Whole>(&mut end);
        let taker = self.queue.another::<Both>(&mut end);
        (SendPass { end }, TakePass { end: taker })
    }
}
