//! How many packets of each kind a capture has.

ghost use Rattle.std.specs.Prelude.{◌≡◌, ◌+◌, ◌≤◌, length, true};
ghost use Rattle.sr_frame.specs.Frame.{least_len};
ghost use Rattle.sr_capture_audit.specs.Counting.{seen_side, with_one};
ghost use Rattle.sr_capture_audit.specs.Faults.{is_faulty, have_faults};
ghost use Rattle.sr_capture_audit.specs.Kinds.{is_checked, is_tagged};

use crate::kind::{Kind, ends_as_trailer};
use crate::network::Tap;
use sr_audit::Side;
use sr_frame::HEADER_LEN;

/// How many packets of each kind came in.
#[derive(Clone, Copy, Debug, PartialEq, Eq)]
pub struct SideCounts {
    /// All packets.
    pub packets: u64,
    /// Frames with a number.
    pub numbered: u64,
    /// Frames without a number.
    pub plain: u64,
    /// Frames that end as one with a trailer, whose trailer is none.
    pub misfit: u64,
    /// Numbered frames whose trailer names the other LAN.
    pub wrong_lan: u64,
    /// Packets that the recorder cut.
    pub cut: u64,
    /// Packets that are longer than a frame.
    pub long: u64,
    /// Packets without octets.
    pub empty: u64,
    /// Frames without a number that have the end of a trailer four octets before their own.
    pub checked: u64,
    /// Frames without a number that have the type of an HSR tag.
    pub tagged: u64,
}

/// The octets end as a trailer does, four octets before their end.
fn is_checked(octets: &[u8]) -> bool
    ensures { result ≡ is_checked octets.now }
{
    match octets.split_last_chunk::<4>() {
        Some((front, _)) => ends_as_trailer(front),
        None => false,
    }
}

/// Where the type stands: behind the addresses, or behind a VLAN tag if there is one.
fn type_at(octets: &[u8]) -> usize
    requires { HEADER_LEN ≤ length octets.now }
    ensures { result + 2 ≡ least_len octets.now }
{
    if octets[12] == 0x81 && octets[13] == 0x00 {
        16
    } else {
        12
    }
}

/// The octets have the type of an HSR tag, behind a VLAN tag if any.
fn is_tagged(octets: &[u8]) -> bool
    ensures { result ≡ is_tagged octets.now }
{
    if octets.len() < HEADER_LEN {
        return false;
    }
    match octets.get(type_at(octets)..) {
        Some(behind) => behind.starts_with(&[0x89, 0x2F]),
        None => false,
    }
}

/// The side of a packet. None: it came by a mirror port, and has no number that names one.
fn side_of(tap: Tap, kind: Kind) -> Option<Side>
    ensures { result ≡ seen_side tap kind }
{
    match (tap, kind) {
        (_, Kind::Numbered(numbered)) => Some(numbered.side),
        (Tap::Side(side), _) => Some(side),
        (Tap::Mirror, _) => None,
    }
}

/// A count with one more.
fn more(count: &mut u64)
    ensures { count.new ≡ with_one true count.old }
{
    *count = count.saturating_add(1);
}

impl SideCounts {
    ghost use Rattle.std.specs.Prelude.{◌≡◌, true};
    ghost use Rattle.sr_capture_audit.specs.Counting.{with_one, with_kind};
    ghost use Rattle.sr_capture_audit.specs.Kinds.{is_checked, is_tagged};

    /// No packet came.
    pub const NONE: SideCounts = SideCounts {
        packets: 0,
        numbered: 0,
        plain: 0,
        misfit: 0,
        wrong_lan: 0,
        cut: 0,
        long: 0,
        empty: 0,
        checked: 0,
        tagged: 0,
    };

    /// Counts a frame without a number.
    fn note_plain(&mut self, octets: &[u8])
        ensures { self.new ≡ record self.old {
          plain = with_one true self.old.plain;
          checked = with_one (is_checked octets.now) self.old.checked;
          tagged = with_one (is_tagged octets.now) self.old.tagged;
        } }
    {
        more(&mut self.plain);
        if is_checked(octets) {
            more(&mut self.checked);
        }
        if is_tagged(octets) {
            more(&mut self.tagged);
        }
    }

    /// Counts a packet.
    fn note(&mut self, kind: Kind, octets: &[u8])
        ensures { self.new ≡ with_kind kind octets.now self.old }
    {
        more(&mut self.packets);
        match kind {
            Kind::Numbered(numbered) => {
                more(&mut self.numbered);
                if numbered.is_astray {
                    more(&mut self.wrong_lan);
                }
            }
            Kind::Plain => self.note_plain(octets),
            Kind::Misfit => more(&mut self.misfit),
            Kind::Cut => more(&mut self.cut),
            Kind::Long => more(&mut self.long),
            Kind::Empty => more(&mut self.empty),
        }
    }
}

/// Whether a trailer names the other LAN, or is none.
fn is_faulty(counts: &SideCounts) -> bool
    ensures { result ≡ is_faulty counts.now }
{
    counts.wrong_lan > 0 || counts.misfit > 0
}

/// How many packets of each kind the captures have.
#[derive(Clone, Copy, Debug, PartialEq, Eq)]
pub struct Counts {
    /// Those of side A.
    pub a: SideCounts,
    /// Those of side B.
    pub b: SideCounts,
    /// Those of a mirror port that name no side, having no number.
    pub neither: SideCounts,
}

impl Counts {
    ghost use Rattle.std.specs.Prelude.{◌≡◌, List, []};
    ghost use Rattle.std.specs.List.{All};
    ghost use Rattle.sr_capture_script.specs.Passing.{Handed};
    ghost use Rattle.sr_capture_audit.specs.declared.network.Ports.TheVariants.{Mirror as AtMirror};
    ghost use Rattle.sr_capture_audit.specs.declared.network.Subject.{Subject};
    ghost use Rattle.sr_capture_audit.specs.Auditing.{AreSeen};
    ghost use Rattle.sr_capture_audit.specs.Counting.{Seen, side_figures, all_figures, CountsOne, IsMirrored};

    /// No packet came.
    pub const NONE: Counts = Counts {
        a: SideCounts::NONE,
        b: SideCounts::NONE,
        neither: SideCounts::NONE,
    };

    /// Counts a packet of a capture.
    pub(crate) fn note(&mut self, tap: Tap, kind: Kind, octets: &[u8])
        ensures { CountsOne tap kind octets.now self.old self.new }
    {
        match side_of(tap, kind) {
            Some(Side::A) => self.a.note(kind, octets),
            Some(Side::B) => self.b.note(kind, octets),
            None => self.neither.note(kind, octets),
        }
    }

    /// Those of a mirror port as a whole.
    pub fn of_mirror(&self) -> SideCounts
        ensures mirrored { (xs : List Seen) → All IsMirrored xs → self.now ≡ all_figures xs
            → result ≡ side_figures xs }
        ensures audited { (subject : Subject) (xs : List Handed) (seen : List Seen)
            → subject.ports ≡ AtMirror → AreSeen subject xs seen
            → self.now ≡ all_figures seen → result ≡ side_figures seen }
    {
        SideCounts {
            packets: self
                .neither
                .packets
                .saturating_add(self.a.packets)
                .saturating_add(self.b.packets),
            numbered: self.a.numbered.saturating_add(self.b.numbered),
            ..self.neither
        }
    }

    /// Whether a trailer names the other LAN, or is none.
    pub(crate) fn have_faults(&self) -> bool
        ensures { result ≡ have_faults self.now }
    {
        is_faulty(&self.a) || is_faulty(&self.b) || is_faulty(&self.neither)
    }
}
