//! When the captures begin and end.

ghost use Rattle.std.specs.Prelude.{[], List, ℕ, Option, IfOk, IfErr};
ghost use Rattle.sr_capture.specs.Records.{Captured, Shows};
ghost use Rattle.sr_capture_script.specs.declared.choice.Inlet.TheVariants.{A as AtA, B as AtB, C as AtC};
ghost use Rattle.sr_capture_script.specs.Merging.{feed_of};
ghost use Rattle.sr_capture_script.specs.Passing.{Handed, IsHandedAs, TakesWanted, EndsFor};
ghost use Rattle.sr_capture_script.specs.SourceViews.{IsFed};
ghost use Rattle.sr_capture_audit.specs.Spanning.{IsSideOf, SpansMore, AreSpansOfAll};
ghost use Rattle.sr_capture_audit.specs.Timing.{put_right};

use crate::kind::{Kind, kind_of};
use crate::network::{Network, Subject, Tap};
use crate::timing::put_right;
use sr_audit::{Side, Spans};
use sr_capture::Packet;
use sr_capture_script::{Captures, Choice, Pass, Place, ScriptFault, pass_over};
use std::io::BufRead;

/// The spans of the packets so far.
#[derive(Drop)]
struct Spanning {
    subject: Subject,
    spans: Spans,
}

/// The side of a packet: that of its capture, or at a mirror port that of a frame with a number.
fn side_of(network: Network, tap: Tap, packet: &Packet) -> Option<Side>
    ensures { (captured : Captured) → Shows packet.now captured
        → IsSideOf tap network captured result }
{
    match tap {
        Tap::Side(side) => Some(side),
        Tap::Mirror => match kind_of(network, Tap::Mirror, packet) {
            Kind::Numbered(numbered) => Some(numbered.side),
            _ => None,
        },
    }
}

impl Spanning {
    /// Notes a packet, at its time by the clock of A.
    fn note(&mut self, place: Place, packet: &Packet)
        ensures { (x : Handed) → IsHandedAs place packet.now x
            → SpansMore (put_right self.old.subject.clock x) self.old self.new }
    {
        let place = put_right(self.subject.clock, place);
        let Some(tap) = self.subject.tap_at(place.inlet) else {
            return;
        };
        let Some(side) = side_of(self.subject.network, tap, packet) else {
            return;
        };
        self.spans.note(side, place.time);
    }
}

/// The spans of the packets so far, beside another pass.
#[derive(Drop)]
struct Beside<P> {
    spanning: Spanning,
    other: P,
}

impl<P: Pass> Pass for Beside<P> {
    ghost use Rattle.sr_capture_audit.specs.Spanning.{SpansBeside};

    ghost takes = { λ old x new. SpansBeside P.takes x old new };

    ghost refuses = { λ fault. P.refuses fault };

    fn take(&mut self, place: Place, packet: &Packet) -> Result<(), ScriptFault> {
        self.spanning.note(place, packet);
        self.other.take(place, packet)
    }
}

/// The times of the first and the last packet of each side, of those that are wanted, by one reading with another pass. At a mirror port
/// these are frames with a number. The other pass takes the packets at their own times.
///
/// # Errors
/// The fault of a file, those of the other pass, or `Endless` behind 2^64 - 1 packets.
pub fn spans_beside<R: BufRead + Drop, P: Pass + Drop>(
    captures: &mut Captures<R>,
    choice: &Choice,
    subject: Subject,
    other: P,
) -> Result<(Spans, P), ScriptFault>
    // The spans are those of all packets of all captures that are wanted.
    ensures spans { IfOk result (λ told. (start_a start_b start_c : Option (List ℕ))
        → IsFed R.remaining AtA start_a captures.old.a []
        → IsFed R.remaining AtB start_b captures.old.b []
        → IsFed R.remaining AtC start_c captures.old.c []
        → AreSpansOfAll choice.now subject (feed_of captures.old.a start_a)
        (feed_of captures.old.b start_b) (feed_of captures.old.c start_c) told.0) }

    // The other pass takes each of these packets once, in order of time.
    ensures takes { IfOk result (λ told. (start_a start_b start_c : Option (List ℕ))
        → IsFed R.remaining AtA start_a captures.old.a []
        → IsFed R.remaining AtB start_b captures.old.b []
        → IsFed R.remaining AtC start_c captures.old.c []
        → TakesWanted P.takes choice.now (feed_of captures.old.a start_a)
        (feed_of captures.old.b start_b) (feed_of captures.old.c start_c) other told.1) }

    // What ends it early is a fault of a file, behind all of its packets that came, more packets than are counted, or a fault of
    // the other pass.
    ensures ends { IfErr result (λ fault. (start_a start_b start_c : Option (List ℕ))
        → IsFed R.remaining AtA start_a captures.old.a []
        → IsFed R.remaining AtB start_b captures.old.b []
        → IsFed R.remaining AtC start_c captures.old.c []
        → EndsFor P.refuses (feed_of captures.old.a start_a)
        (feed_of captures.old.b start_b) (feed_of captures.old.c start_c) fault) }
{
    let mut pass = Beside {
        spanning: Spanning {
            subject,
            spans: Spans::NONE,
        },
        other,
    };
    pass_over(captures, choice, &mut pass)?;
    Ok((pass.spanning.spans, pass.other))
}
