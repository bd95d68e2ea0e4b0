//! How many packets of each kind came.

ghost use Rattle.std.specs.Prelude.{◌≡◌};
ghost use Rattle.sr_intake.specs.Counting.{count_more, counted_with, changed};

use crate::kind::Kind;

/// How many packets of each kind came. A count stays at 2^64 - 1.
#[derive(Clone, Copy, Debug, PartialEq, Eq)]
pub struct PacketCounts {
    /// All packets.
    pub packets: u64,
    /// Frames with a number.
    pub numbered: u64,
    /// Frames without a number.
    pub plain: u64,
    /// Frames that end as one with a trailer, whose trailer is none.
    pub misfit: u64,
    /// Numbered frames whose trailer names the other LAN.
    pub wrong_lan: u64,
    /// Packets that the recorder cut.
    pub cut: u64,
    /// Packets that are longer than a frame.
    pub long: u64,
    /// Packets without octets.
    pub empty: u64,
}

/// A count with one more.
fn more(count: &mut u64)
    ensures { count.new ≡ count_more count.old }
{
    *count = count.saturating_add(1);
}

impl PacketCounts {
    ghost use Rattle.std.specs.Prelude.{◌≡◌};
    ghost use Rattle.sr_intake.specs.Counting.{counted_with, changed};

    /// No packet came.
    pub const NONE: PacketCounts = PacketCounts {
        packets: 0,
        numbered: 0,
        plain: 0,
        misfit: 0,
        wrong_lan: 0,
        cut: 0,
        long: 0,
        empty: 0,
    };

    /// Counts a packet.
    pub fn note(&mut self, kind: Kind)
        ensures { self.new ≡ counted_with kind self.old }
    {
        more(&mut self.packets);
        match kind {
            Kind::Numbered(numbered) => {
                more(&mut self.numbered);
                if numbered.is_astray {
                    more(&mut self.wrong_lan);
                }
            }
            Kind::Plain => more(&mut self.plain),
            Kind::Misfit => more(&mut self.misfit),
            Kind::Cut => more(&mut self.cut),
            Kind::Long => more(&mut self.long),
            Kind::Empty => more(&mut self.empty),
        }
    }

    /// How many more they are than earlier ones.
    pub fn since(&self, told: &PacketCounts) -> PacketCounts
        ensures { result ≡ changed self.now told.now }
    {
        PacketCounts {
            packets: self.packets.saturating_sub(told.packets),
            numbered: self.numbered.saturating_sub(told.numbered),
            plain: self.plain.saturating_sub(told.plain),
            misfit: self.misfit.saturating_sub(told.misfit),
            wrong_lan: self.wrong_lan.saturating_sub(told.wrong_lan),
            cut: self.cut.saturating_sub(told.cut),
            long: self.long.saturating_sub(told.long),
            empty: self.empty.saturating_sub(told.empty),
        }
    }
}
