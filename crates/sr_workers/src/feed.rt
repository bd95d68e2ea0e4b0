//! Where a worker's frames come from, and where they go.

ghost use Rattle.std.specs.Prelude.{◌≡◌, ◌<◌, ◌≤◌, ◌+◌, ◌++◌, ℕ, List, Bool, true, ⊤, IfOk, OnErr};
ghost use Rattle.sr_workers.specs.declared.feed.Given.{Given};
ghost use Rattle.sr_workers.specs.declared.feed.Turn.{Turn};
ghost use Rattle.sr_workers.specs.Told.{Told, told_of, turns_in, put_of, lost_after, IsLastTurn};

use crate::FeedFault;
use std::sync::Wait;

/// What a feed answers when it is asked for more.
#[derive(Clone, Copy, Debug, PartialEq, Eq)]
pub enum Turn {
    /// A frame, at this time. Its octets are in the list.
    Frame(u64),
    /// A time.
    Tick(u64),
    /// Nothing now.
    Idle,
    /// Nothing any more.
    End,
}

/// What became of a frame that a feed was given.
#[derive(Clone, Copy, Debug, PartialEq, Eq)]
pub enum Given {
    /// It goes on.
    Put,
    /// It is lost: there was no room for it.
    Lost,
}

/// Where a worker's frames come from, and where they go.
pub trait Feed: Drop {
    /// The type of what of it stays as it is.
    ghost Name: { Type 0 };

    /// What of it stays as it is, as which wires it has.
    ghost name: { Self → Name };

    /// Whether it tells what it handed out and what was put.
    ghost tells: { Self → Bool };

    /// The frames and times that it handed out, in order.
    ghost handed: { Self → List Told };

    /// The frames that were put, in order: those that it was given but for the lost ones.
    ghost given: { Self → List (List ℕ) };

    /// How many turns it answered before its end.
    ghost asked: { Self → ℕ };

    /// How many of the frames that it was given were lost, up to the greatest number of 64 bits.
    ghost losses: { Self → ℕ };

    /// It has answered `End`.
    ghost ended: { Self → Bool };

    /// How often it failed.
    ghost failed: { Self → ℕ };

    /// What it says of a turn that it answered, and of what that handed out, from one state to another, beside what every feed says:
    /// nothing more, unless it says otherwise.
    ghost hands: { Self → Turn → List ℕ → Self → Type 0 } = { λ _ _ _ _. ⊤ };

    /// What it says so of a frame that it was given, and of its answer.
    ghost takes: { Self → List ℕ → Given → Self → Type 0 } = { λ _ _ _ _. ⊤ };

    /// What comes next.
    fn next<W: Wait>(&mut self, rt: &W, into: &mut Vec<u8>) -> Result<Turn, FeedFault>
        ensures hands { IfOk result (λ t. hands self.old t into.new.items self.new) }
        ensures name { name self.new ≡ name self.old }
        ensures tells { tells self.new ≡ tells self.old }
        ensures handed { tells self.old ≡ true → IfOk result (λ t.
            handed self.new ≡ handed self.old ++ told_of t into.new.items) }
        ensures unhanded { tells self.old ≡ true
            → OnErr result (handed self.new ≡ handed self.old) }
        ensures asked { tells self.old ≡ true → IfOk result (λ t.
            asked self.new ≡ asked self.old + turns_in t) }
        ensures unasked { tells self.old ≡ true
            → OnErr result (asked self.new ≡ asked self.old) }
        ensures given { tells self.old ≡ true → given self.new ≡ given self.old }
        ensures losses { losses self.new ≡ losses self.old }
        ensures ended { IfOk result (λ t. IsLastTurn t → ended self.new ≡ true) }
        ensures failed { OnErr result (failed self.old < failed self.new) }
        ensures counted { failed self.old ≤ failed self.new };

    /// Takes a frame.
    fn give<W: Wait>(&mut self, rt: &W, octets: &[u8]) -> Result<Given, FeedFault>
        ensures takes { IfOk result (λ g. takes self.old octets.now g self.new) }
        ensures name { name self.new ≡ name self.old }
        ensures tells { tells self.new ≡ tells self.old }
        ensures given { tells self.old ≡ true → IfOk result (λ g.
            given self.new ≡ given self.old ++ put_of g octets.now) }
        ensures ungiven { tells self.old ≡ true
            → OnErr result (given self.new ≡ given self.old) }
        ensures handed { tells self.old ≡ true → handed self.new ≡ handed self.old }
        ensures asked { tells self.old ≡ true → asked self.new ≡ asked self.old }
        ensures losses { IfOk result (λ g. losses self.new ≡ lost_after (losses self.old) g) }
        ensures unlost { OnErr result (losses self.new ≡ losses self.old) }
        ensures ended { ended self.new ≡ ended self.old }
        ensures failed { OnErr result (failed self.old < failed self.new) }
        ensures counted { failed self.old ≤ failed self.new };

    /// How often it failed.
    fn failures(&self) -> u64
        ensures { result ≡ failed self.now };
}
