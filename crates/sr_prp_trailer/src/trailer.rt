//! What a trailer says.

ghost use Rattle.std.specs.Prelude.{◌≡◌, ◌<◌};
ghost use Rattle.sr_prp_trailer.specs.Trailed.{lan_id, trailer_octets};

use sr_sequence::Seq;

/// The octets of a trailer.
pub const TRAILER_LEN: usize = 6;

/// The last two octets of a trailer.
pub(crate) const SUFFIX: u16 = 0x88FB;

/// The LAN id of LAN A.
pub(crate) const LAN_A_ID: u16 = 0xA;

/// The LAN id of LAN B.
pub(crate) const LAN_B_ID: u16 = 0xB;

/// One of the two networks of a PRP network.
#[derive(Clone, Copy, Debug, PartialEq, Eq, Hash)]
pub enum Lan {
    /// LAN A, with the id 0xA.
    A,
    /// LAN B, with the id 0xB.
    B,
}

impl Lan {
    // The id of the network.
    fn id(self) -> u16
        ensures { result ≡ lan_id self }
    {
        match self {
            Lan::A => LAN_A_ID,
            Lan::B => LAN_B_ID,
        }
    }
}

/// What a trailer says.
#[derive(Clone, Copy, Debug, PartialEq, Eq)]
pub struct Trailer {
    /// The number that both copies of a frame carry.
    pub seq: Seq,
    /// The network that the copy was sent into.
    pub lan: Lan,
    /// How many octets stand behind the type, those of the trailer included: below 4096.
    pub size: u16,
}

impl Trailer {
    /// The octets of the trailer: its number, its network and size, the suffix.
    // speed: D-script-in-place
    #[inline(always)]
    pub fn octets(self) -> [u8; TRAILER_LEN]
        requires { self.size < 4096 }
        ensures { result ≡ trailer_octets self }
    {
        let [seq_high, seq_low] = self.seq.0.to_be_bytes();
        let [size_high, size_low] = (self.lan.id() * 4096 + self.size).to_be_bytes();
        let [suffix_high, suffix_low] = SUFFIX.to_be_bytes();
        [
            seq_high,
            seq_low,
            size_high,
            size_low,
            suffix_high,
            suffix_low,
        ]
    }
}
