//! Times of B by the clock of A.

ghost use Rattle.std.specs.Prelude.{◌≡◌, [], List, ℕ, Option, IfOk, IfErr};
ghost use Rattle.sr_capture.specs.declared.packet.Packet.{Packet};
ghost use Rattle.sr_capture_script.specs.declared.choice.Inlet.TheVariants.{A as AtA, B as AtB, C as AtC};
ghost use Rattle.sr_capture_script.specs.Merging.{feed_of};
ghost use Rattle.sr_capture_script.specs.Passing.{Handed, IsHandedAs, EndsFor};
ghost use Rattle.sr_capture_script.specs.SourceViews.{IsFed};
ghost use Rattle.sr_capture_audit.specs.Timing.{time_by, put_right, TakesAllTimed};

use sr_capture::Packet;
use sr_capture_script::{Captures, Choice, Inlet, Pass, Place, ScriptFault, pass_over};
use sr_clocks::Line;
use std::io::BufRead;

/// A pass to which packets of B come at the times of A's clock.
#[derive(Drop)]
pub(crate) struct Timed<P> {
    /// By how much times of B differ. None: they are taken as they are.
    pub clock: Option<Line>,
    pub pass: P,
}

/// A time at an inlet, that of B by the clock of A.
fn time_by(clock: Option<Line>, inlet: Inlet, time: u64) -> u64
    ensures { result ≡ time_by clock inlet time }
{
    match (clock, inlet) {
        (Some(clock), Inlet::B) => clock.corrected(time),
        _ => time,
    }
}

/// Where a packet came in, and when by the clock of A.
pub(crate) fn put_right(clock: Option<Line>, place: Place) -> Place
    ensures { (shown : Packet) (x : Handed) → IsHandedAs place shown x
        → IsHandedAs result shown (put_right clock x) }
{
    Place {
        time: time_by(clock, place.inlet, place.time),
        ..place
    }
}

impl<P: Pass> Pass for Timed<P> {
    ghost use Rattle.sr_capture_audit.specs.Timing.{TakesTimed};

    ghost takes = { λ old x new. TakesTimed P.takes x old new };

    ghost refuses = { λ fault. P.refuses fault };

    fn take(&mut self, place: Place, packet: &Packet) -> Result<(), ScriptFault> {
        self.pass.take(put_right(self.clock, place), packet)
    }
}

/// A pass, once it took the packets that are wanted. It is generic in the pass, so that no proof goes through the drop code of what one
/// gathers: over the `?` the checker would go through it twice.
///
/// # Errors
/// The fault of a file, those of the pass, or `Endless` behind 2^64 - 1 packets.
pub(crate) fn pass_after<R: BufRead + Drop, P: Pass + Drop>(
    captures: &mut Captures<R>,
    choice: &Choice,
    timed: Timed<P>,
) -> Result<P, ScriptFault>
    ensures takes { IfOk result (λ pass. (start_a start_b start_c : Option (List ℕ))
        → IsFed R.remaining AtA start_a captures.old.a []
        → IsFed R.remaining AtB start_b captures.old.b []
        → IsFed R.remaining AtC start_c captures.old.c []
        → TakesAllTimed P.takes timed.clock choice.now (feed_of captures.old.a start_a)
        (feed_of captures.old.b start_b) (feed_of captures.old.c start_c) timed.pass pass) }
    ensures ends { IfErr result (λ fault. (start_a start_b start_c : Option (List ℕ))
        → IsFed R.remaining AtA start_a captures.old.a []
        → IsFed R.remaining AtB start_b captures.old.b []
        → IsFed R.remaining AtC start_c captures.old.c []
        → EndsFor P.refuses (feed_of captures.old.a start_a) (feed_of captures.old.b start_b)
        (feed_of captures.old.c start_c) fault) }
{
    let mut timed = timed;
    pass_over(captures, choice, &mut timed)?;
    Ok(timed.pass)
}
