//! What captures say of a network as a whole.

ghost use Rattle.std.specs.Prelude.{◌≡◌};
ghost use Rattle.sr_capture_audit.specs.Judging.{has_cut_many, are_cut, have_both_ways, check_status};

use crate::counts::{Counts, SideCounts};
use crate::network::letter_of;
use sr_audit::Side;
use std::fmt;

/// The exit status of a check that finds no fault.
const SOUND: u8 = 0;

/// That of one that finds a fault.
const FAULTY: u8 = 3;

/// That of one that has nothing to judge.
const UNJUDGED: u8 = 4;

/// Why nothing can be judged of a network by its captures.
#[derive(Clone, Copy, Debug, PartialEq, Eq)]
pub enum Reason {
    /// No frame of a side has a number.
    Unnumbered(Side),
    /// More than half of the numbered frames of each side have the trailer of the other LAN.
    Swapped,
    /// No frame came by both sides.
    Unpaired,
    /// The recorder cut more than one packet in ten.
    Cut,
    /// Each capture of a ring has frames of both ways, as one that goes by a port in and out.
    BothWays,
    /// Two offsets of the recorders' clocks fit: so many frames tell of the one, and so many of the other.
    TwoOffsets(usize, usize),
    /// No frame was seen by both recorders, so that nothing tells of their clocks.
    NoOffset,
}

impl fmt::Display for Reason {
    fn fmt<W: fmt::Write>(&self, f: &mut fmt::Formatter<W>) -> fmt::Result {
        match *self {
            Reason::Unnumbered(side) => {
                write!(f, "no frame of {} has a number", letter_of(side))
            }
            Reason::Swapped => write!(f, "the captures seem to be swapped"),
            Reason::Unpaired => write!(f, "no frame came by both A and B"),
            Reason::Cut => write!(f, "more than one packet in ten was cut by the recorder"),
            Reason::BothWays => write!(
                f,
                "A and B each have frames of both ways of the ring: were those that go out recorded too?"
            ),
            Reason::TwoOffsets(most, others) => write!(
                f,
                "two offsets of the clocks fit, by {most} frames and by {others}: --shift-b?"
            ),
            Reason::NoOffset => write!(f, "no frame of both A and B tells of their clocks"),
        }
    }
}

/// What captures say of a network as a whole.
#[derive(Clone, Copy, Debug, PartialEq, Eq)]
pub enum Judgement {
    /// No figure tells of a fault.
    Sound,
    /// A figure tells of a fault.
    Faulty,
    /// Nothing can be judged.
    Unjudged(Reason),
}

impl Judgement {
    /// The exit status of a check: 0 of a sound network, 3 of one with faults, 4 where there is nothing to judge.
    pub fn status(self) -> u8
        ensures { result ≡ check_status self }
    {
        match self {
            Judgement::Sound => SOUND,
            Judgement::Faulty => FAULTY,
            Judgement::Unjudged(_) => UNJUDGED,
        }
    }
}

/// Whether the recorder cut more than one packet in ten.
fn has_cut_many(counts: &SideCounts) -> bool
    ensures { result ≡ has_cut_many counts.now }
{
    counts.packets / 10 < counts.cut
}

impl Counts {
    /// Of one capture of a ring, audited as that of a mirror port: whether it has frames of both ways, each more than one in twenty.
    pub fn have_both_ways(&self) -> bool
        ensures { result ≡ have_both_ways self.now }
    {
        let (a, b) = (u128::from(self.a.numbered), u128::from(self.b.numbered));
        let part = (a + b) / 20;
        part < a && part < b
    }

    /// Whether a recorder cut more than one packet in ten.
    pub(crate) fn are_cut(&self) -> bool
        ensures { result ≡ are_cut self.now }
    {
        has_cut_many(&self.a) || has_cut_many(&self.b) || has_cut_many(&self.neither)
    }
}
