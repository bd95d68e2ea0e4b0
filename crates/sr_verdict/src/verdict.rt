//! What is told of a network.

ghost use Rattle.std.specs.Prelude.{◌≡◌, true, false};
ghost use Rattle.std.specs.List.{list_any};
ghost use Rattle.sr_verdict.specs.Verdicts.{is_a_fault, reason_in, block_status};

use crate::names::Names;
use crate::place::Place;
use crate::shared::{Cut, Share};
use crate::why::Why;
use sr_audit::{Row, Side, Sides};
use sr_frame::Mac;
use sr_sources::{Second, Tail};

/// The exit status of a check that finds no fault.
pub(crate) const SOUND: u8 = 0;

/// That of one that finds a fault.
pub(crate) const FAULTY: u8 = 3;

/// That of one that has nothing to judge.
const UNJUDGED: u8 = 4;

/// What is told of a network. A count stays at 2^64 - 1.
#[derive(Clone, Copy, Debug, PartialEq, Eq)]
pub enum Verdict {
    /// Nothing can be judged, for this reason.
    Unjudged(Why),
    /// Fault: of so many numbers of a source, or of a RedBox's counter, no frame came by either LAN.
    BothLost(Mac, u64),
    /// Fault: the numbers of a source are those of two senders, since this time.
    TwoSenders(Mac, u64),
    /// Fault: a ring is cut, or was and is mended, at this place.
    CutRing(Cut, Place),
    /// Fault: a source of a PRP network is heard by one LAN alone since then.
    DeadPort(Mac, Row),
    /// Fault: so many copies by each LAN, of these sources, have the id of the other one.
    Crossed(Sides, Names),
    /// Fault: a source had frames with a number in a LAN, or at a mirror port, and since then has some without.
    LostRedundancy(Mac, Option<Side>, Tail),
    /// Fault: a LAN lost frames that came by the other one, which lost so many.
    Loss(Side, Share, u64),
    /// Fault: so many copies by a LAN, of these sources, have the id of the other one.
    WrongLan(Option<Side>, u64, Names),
    /// Fault: so many frames of a LAN, or of a mirror port, end as one with a trailer, and the trailer is none.
    Misfit(Option<Side>, u64),
    /// Fault: so many copies of a source came behind an earlier one by the same LAN.
    Repeated(Mac, Sides),
    /// Fault: the copies of so many frames of a source came 400 ms apart or more.
    Late(Mac, u64),
    /// Fault: the copies of a frame of a source came so many nanoseconds apart at most, which is more than so many microseconds.
    Skew(Mac, i128, u64),
    /// Notice: `BothLost`, within the limit of the user.
    BothLostWithin(Mac, u64),
    /// Notice: `Loss`, within the limit of the user.
    LossWithin(Side, Share, u64),
    /// Notice: the recorder of a LAN, or of a mirror port, dropped so many packets.
    RecorderDropped(Option<Side>, u64),
    /// Notice: the numbers of a source began anew, so many times.
    Restart(Mac, u64),
    /// Notice: a source has many frames in a second, so many at most, which is not what it has in most of them.
    Babbling(Mac, Second),
    /// Notice: so many numbers of a source may have gone past no recorder.
    Unseen(Mac, u64),
    /// Notice: a source has so many frames in one LAN alone, or at a mirror port, and none of them has a number.
    San(Mac, Option<Side>, u64),
    /// Notice: the clock of B was put right, which was so many nanoseconds ahead.
    Clock(i128),
}

impl Verdict {
    ghost use Rattle.std.specs.Prelude.{◌≡◌};
    ghost use Rattle.sr_verdict.specs.Verdicts.{is_a_fault};

    /// Whether it is a fault.
    pub(crate) fn is_a_fault(&self) -> bool
        ensures { result ≡ is_a_fault self.now }
    {
        match *self {
            Verdict::BothLost(_, _)
            | Verdict::TwoSenders(_, _)
            | Verdict::CutRing(_, _)
            | Verdict::DeadPort(_, _)
            | Verdict::Crossed(_, _)
            | Verdict::LostRedundancy(_, _, _)
            | Verdict::Loss(_, _, _)
            | Verdict::WrongLan(_, _, _)
            | Verdict::Misfit(_, _)
            | Verdict::Repeated(_, _)
            | Verdict::Late(_, _)
            | Verdict::Skew(_, _, _) => true,
            Verdict::Unjudged(_)
            | Verdict::BothLostWithin(_, _)
            | Verdict::LossWithin(_, _, _)
            | Verdict::RecorderDropped(_, _)
            | Verdict::Restart(_, _)
            | Verdict::Babbling(_, _)
            | Verdict::Unseen(_, _)
            | Verdict::San(_, _, _)
            | Verdict::Clock(_) => false,
        }
    }
}

/// Why nothing can be judged. None: the figures judge.
pub fn reason_in(verdicts: &[Verdict]) -> Option<Why>
    ensures { result ≡ reason_in verdicts.now }
{
    match verdicts.first() {
        Some(Verdict::Unjudged(why)) => Some(*why),
        _ => None,
    }
}

/// Whether one is a fault.
pub(crate) fn has_fault(verdicts: &[Verdict]) -> bool
    ensures { result ≡ list_any is_a_fault verdicts.now }
{
    verdicts.iter().any(|verdict| verdict.is_a_fault())
}

/// The exit status of a check: 0 where none is a fault, 3 where one is, 4 where there is nothing to judge.
pub fn status_of(verdicts: &[Verdict]) -> u8
    ensures { result ≡ block_status verdicts.now }
{
    if reason_in(verdicts).is_some() {
        UNJUDGED
    } else if has_fault(verdicts) {
        FAULTY
    } else {
        SOUND
    }
}
