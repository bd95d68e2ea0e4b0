//! Going over the packets of captures.

ghost use Rattle.std.specs.Prelude.{◌≡◌, [], List, ℕ, Option, OnOk, IfErr, IfSome, IfNone};
ghost use Rattle.sr_capture_script.specs.declared.choice.Inlet.TheVariants.{A as AtA, B as AtB, C as AtC};
ghost use Rattle.sr_capture_script.specs.Items.{Item};
ghost use Rattle.sr_capture_script.specs.Merging.{feed_of};
ghost use Rattle.sr_capture_script.specs.Passing.{Handed, given_at, is_wanted_at, IsHandedAs, IsItemAt, TakesIf, TakesWanted, EndsFor};
ghost use Rattle.sr_capture_script.specs.SourceViews.{IsFed};

use crate::captures::{Captures, Front};
use crate::choice::{Choice, Inlet};
use crate::fault::ScriptFault;
use sr_capture::Packet;
use std::io::BufRead;

/// Where and when a packet came in.
#[derive(Clone, Copy, Debug)]
pub struct Place {
    /// The inlet of its file.
    pub inlet: Inlet,
    /// Its number in the file, from 1 on.
    pub number: u64,
    /// Its time, in nanoseconds from the earliest packet on.
    pub time: u64,
}

/// What is done with each packet that is wanted.
pub trait Pass {
    ghost use Rattle.sr_capture_script.specs.declared.fault.ScriptFault.{ScriptFault};

    /// It took one packet more.
    ghost takes: { Self → Handed → Self → Type 0 };

    /// It may end early for this fault.
    ghost refuses: { ScriptFault → Type 0 };

    /// Takes the next packet.
    ///
    /// # Errors
    /// What ends the pass early.
    fn take(&mut self, place: Place, packet: &Packet) -> Result<(), ScriptFault>
        ensures taken { OnOk result ((x : Handed) → IsHandedAs place packet.now x
            → takes self.old x self.new) }
        ensures refused { IfErr result (λ fault. refuses fault) };
}

/// The time from which times are counted: that of the first packet, and 0 where there is none.
pub fn start_of(first: Option<Front>) -> u64
    ensures first { IfSome first (λ front. front.moment ≡ result) }
    ensures none { IfNone first (result ≡ 0) }
{
    match first {
        Some(front) => front.moment,
        None => 0,
    }
}

/// Gives a pass the packet that is due, if it is wanted.
fn hand<P: Pass>(
    choice: &Choice,
    start: u64,
    front: Front,
    packet: &Packet,
    pass: &mut P,
) -> Result<(), ScriptFault>
    ensures taken { OnOk result ((item : Item) → IsItemAt front packet.now item
        → TakesIf P.takes (is_wanted_at choice.now start item) (given_at start item)
        pass.old pass.new) }
    ensures refused { IfErr result (λ fault. P.refuses fault) }
{
    let time = front.moment.saturating_sub(start);
    if !choice.covers(time) {
        return Ok(());
    }
    let place = Place {
        inlet: front.inlet,
        number: front.number,
        time,
    };
    pass.take(place, packet)
}

/// Gives a pass the packets that are wanted, in the order of their times. Times are counted from the earliest packet.
///
/// # Errors
/// The fault of a file, those of the pass, or `Endless` behind 2^64 - 1 packets.
pub fn pass_over<R: BufRead + Drop, P: Pass>(
    captures: &mut Captures<R>,
    choice: &Choice,
    pass: &mut P,
) -> Result<(), ScriptFault>
    // The pass takes each packet of all captures that is wanted, once, in order of time.
    ensures takes { OnOk result ((start_a start_b start_c : Option (List ℕ))
        → IsFed R.remaining AtA start_a captures.old.a []
        → IsFed R.remaining AtB start_b captures.old.b []
        → IsFed R.remaining AtC start_c captures.old.c []
        → TakesWanted P.takes choice.now (feed_of captures.old.a start_a)
        (feed_of captures.old.b start_b) (feed_of captures.old.c start_c) pass.old pass.new) }

    // What ends it early is a fault of a file, behind all of its packets that came, that there are too many packets, or
    // a fault of the pass.
    ensures ends { IfErr result (λ fault. (start_a start_b start_c : Option (List ℕ))
        → IsFed R.remaining AtA start_a captures.old.a []
        → IsFed R.remaining AtB start_b captures.old.b []
        → IsFed R.remaining AtC start_c captures.old.c []
        → EndsFor P.refuses (feed_of captures.old.a start_a)
        (feed_of captures.old.b start_b) (feed_of captures.old.c start_c) fault) }
{
    let mut next = captures.front();
    let start = start_of(next);
    'packets: for _ in 0..u64::MAX {
        let Some(front) = next else {
            return Ok(());
        };
        hand(choice, start, front, captures.packet(front.inlet), pass)?;
        captures.advance(front.inlet)?;
        next = captures.front();
    }
    Err(ScriptFault::Endless)
}
