//! Why packets are not used, how many are not, and how many have times that go back.

ghost use Rattle.std.specs.Prelude.{◌≡◌};
ghost use Rattle.sr_capture_script.specs.Flaws.{flaw_by, counted, goes_back, name_of, with_back};

use sr_capture::{Extent, MAX_KEPT, Packet};

/// Why a packet is not used.
#[derive(Clone, Copy)]
pub(crate) enum Flaw {
    /// The snap length cut it.
    Cut,
    /// It is longer than a frame can be.
    Long,
    /// It has no octets.
    Empty,
}

/// How many packets of a file are not used, for each reason, and how many have a time before that of one ahead of them.
#[derive(Clone, Copy)]
pub(crate) struct FlawCounts {
    pub cut: u64,
    pub long: u64,
    pub empty: u64,
    pub back: u64,
}

/// The word for a reason.
pub(crate) fn name_of(flaw: Flaw) -> &'static str
    ensures { result.now ≡ name_of flaw }
{
    match flaw {
        Flaw::Cut => "cut",
        Flaw::Long => "long",
        Flaw::Empty => "empty",
    }
}

/// Why a packet is not used. None where it is.
pub(crate) fn flaw_of(packet: &Packet) -> Option<Flaw>
    ensures { result ≡ flaw_by packet.now.extent packet.now.len }
{
    match packet.extent {
        Extent::Cut => Some(Flaw::Cut),
        Extent::Whole => {
            if packet.len > MAX_KEPT as u64 {
                Some(Flaw::Long)
            } else if packet.len == 0 {
                Some(Flaw::Empty)
            } else {
                None
            }
        }
    }
}

/// Whether the time of a packet goes back behind the latest moment, where its own moment is that. A packet without a time has 0.
pub(crate) fn goes_back(time: u64, moment: u64, latest: u64) -> bool
    ensures { result ≡ goes_back time moment latest }
{
    time > 0 && moment < latest
}

/// The counts with one more whose time goes back, if it does.
pub(crate) fn with_back(counts: FlawCounts, is_back: bool) -> FlawCounts
    ensures { result ≡ with_back is_back counts }
{
    if !is_back {
        return counts;
    }
    FlawCounts {
        back: counts.back.saturating_add(1),
        ..counts
    }
}

/// The counts with one packet more.
pub(crate) fn counted(counts: FlawCounts, flaw: Option<Flaw>) -> FlawCounts
    ensures { result ≡ counted counts flaw }
{
    match flaw {
        None => counts,
        Some(Flaw::Cut) => FlawCounts {
            cut: counts.cut.saturating_add(1),
            ..counts
        },
        Some(Flaw::Long) => FlawCounts {
            long: counts.long.saturating_add(1),
            ..counts
        },
        Some(Flaw::Empty) => FlawCounts {
            empty: counts.empty.saturating_add(1),
            ..counts
        },
    }
}
