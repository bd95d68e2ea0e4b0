//! The rule of a wire: what was sent is what was taken, and then what waits.

use crossbeam_queue::protocol::{Join, Lesson, Outcome, Protocol, Split};
use crossbeam_queue::{Pass, RuledArrayQueue};
use sr_frame::Frame;
use std::collections::LinkedList;

/// What a pass may do, what it has sent and what it has taken. No value of it is made.
pub struct Rights {
    /// It may send.
    pub sends: bool,
    /// It may take.
    pub takes: bool,
    /// What it has sent.
    pub sent: LinkedList<Frame>,
    /// What it has taken.
    pub taken: LinkedList<Frame>,
    /// What it has seen to be sent.
    pub seen_sent: LinkedList<Frame>,
    /// What it has seen to be taken.
    pub seen_taken: LinkedList<Frame>,
}

/// What waits is what was sent and not taken.
pub struct InOrder;

impl Protocol<Frame, Rights> for InOrder {
    ghost use Rattle.std.specs.Prelude.{true, []};
    ghost use Rattle.sr_wires.specs.Wired.{rights, Wired};

    ghost holds = { Wired };

    ghost first = { rights true true [] [] [] [] };
}

/// The two rights, in two passes or in one.
pub struct Both;

impl Split<Rights> for Both {
    ghost use Rattle.std.specs.Prelude.{true, false, []};
    ghost use Rattle.sr_wires.specs.Wired.{rights};

    ghost left = { λ v. rights true false v.sent [] [] v.taken };

    ghost right = { λ v. rights false true [] v.taken v.sent [] };
}

impl Join<Rights> for Both {
    ghost use Rattle.std.specs.Prelude.{true, false, []};
    ghost use Rattle.sr_wires.specs.Wired.{rights};

    ghost both = { λ v w. rights true true v.sent w.taken w.seen_sent v.seen_taken };

    ghost spent = { rights false false [] [] [] [] };
}

/// One more was sent, or the wire was full.
pub struct Puts;

impl Outcome<Frame, Rights> for Puts {
    ghost use Rattle.std.specs.Prelude.{◌≡◌, ◌∷◌, [], ◌++◌};
    ghost use Rattle.sr_wires.specs.Wired.{rights};

    ghost then = { λ v x w. w ≡ rights v.sends v.takes (v.sent ++ x ∷ []) v.taken
        v.seen_sent v.seen_taken };
}

impl Lesson<Frame, Rights> for Puts {
    ghost use Rattle.std.specs.Prelude.{◌≡◌, ◌≤◌, ◌++◌, List, ℕ, length};

    ghost fact = { λ v waiting. (rest : List (List ℕ)) × (v.sent ≡ v.seen_taken ++ rest)
        × (length waiting ≤ length rest) };
}

/// One more was taken, or the wire was empty.
pub struct Takes;

impl Outcome<Frame, Rights> for Takes {
    ghost use Rattle.std.specs.Prelude.{◌≡◌, ◌∷◌, [], ◌++◌};
    ghost use Rattle.sr_wires.specs.Wired.{rights};

    ghost then = { λ v x w. w ≡ rights v.sends v.takes v.sent (v.taken ++ x ∷ [])
        v.seen_sent v.seen_taken };
}

impl Lesson<Frame, Rights> for Takes {
    ghost use Rattle.std.specs.Prelude.{◌++◌};
    ghost use Rattle.sr_wires.specs.Wired.{BeginsWithFrames};

    ghost fact = { λ v waiting. BeginsWithFrames (v.taken ++ waiting) v.seen_sent };
}

/// Who has both rights knows what was sent and what was taken.
pub struct Whole;

impl Lesson<Frame, Rights> for Whole {
    ghost use Rattle.sr_wires.specs.Wired.{IsWire};

    ghost fact = { λ v waiting. IsWire v.sent v.taken waiting };
}

/// The queue of a wire.
pub type Queue = RuledArrayQueue<Frame, Rights, InOrder>;

/// A pass of the queue.
pub type End = Pass<Frame, Rights>;
