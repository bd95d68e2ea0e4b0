//! What looks wrong in the captures as a whole.

ghost use Rattle.std.specs.Prelude.{◌≡◌};
ghost use Rattle.sr_capture_audit.specs.Hints.{ring_hint, hint_of, is_swapped, are_swapped};

use crate::counts::{Counts, SideCounts};
use crate::network::Network;
use std::fmt;

/// What looks wrong in the capture of a side.
#[derive(Clone, Copy, Debug, PartialEq, Eq)]
pub enum Hint {
    /// No trailer stands in so many packets, but in so many one stands four octets before the end.
    Checked(u64, u64),
    /// So many packets have HSR tags.
    Tagged(u64),
    /// No HSR tag stands in so many packets.
    Untagged(u64),
    /// The recorder cut so many packets.
    Cut(u64),
}

impl fmt::Display for Hint {
    fn fmt<W: fmt::Write>(&self, f: &mut fmt::Formatter<W>) -> fmt::Result {
        match *self {
            Hint::Checked(packets, checked) => write!(
                f,
                "no PRP trailer in {packets} packets; in {checked} one stands four octets before the end: --fcs 4?"
            ),
            Hint::Tagged(tagged) => write!(f, "HSR tags in {tagged} packets: --network hsr?"),
            Hint::Untagged(packets) => {
                write!(f, "no HSR tag in {packets} packets: --network prp?")
            }
            Hint::Cut(cut) => write!(
                f,
                "{cut} packets were cut by the recorder: trailers stand at the end"
            ),
        }
    }
}

/// What looks wrong in the capture of a port of a ring, if something does.
fn ring_hint(counts: &SideCounts) -> Option<Hint>
    ensures { result ≡ ring_hint counts.now }
{
    if counts.numbered == 0 && counts.plain > 0 {
        Some(Hint::Untagged(counts.packets))
    } else {
        None
    }
}

/// What looks wrong in the capture of a side, if something does.
pub fn hint_of(network: Network, counts: &SideCounts) -> Option<Hint>
    ensures { result ≡ hint_of network counts.now }
{
    if network == Network::Hsr {
        return ring_hint(counts);
    }
    if counts.numbered == 0 && counts.tagged > 0 {
        return Some(Hint::Tagged(counts.tagged));
    }
    if counts.numbered == 0 && counts.checked > 0 {
        return Some(Hint::Checked(counts.packets, counts.checked));
    }
    if counts.cut > 0 {
        return Some(Hint::Cut(counts.cut));
    }
    None
}

/// Whether more than half of the numbered frames of a side have the trailer of the other LAN.
fn is_swapped(counts: &SideCounts) -> bool
    ensures { result ≡ is_swapped counts.now }
{
    counts.numbered > 0 && counts.wrong_lan > counts.numbered / 2
}

impl Counts {
    /// Whether more than half of the numbered frames of each side have the trailer of the other LAN.
    pub fn are_swapped(&self) -> bool
        ensures { result ≡ are_swapped self.now }
    {
        is_swapped(&self.a) && is_swapped(&self.b)
    }
}
