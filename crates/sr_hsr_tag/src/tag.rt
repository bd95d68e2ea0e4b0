//! What a tag says.

ghost use Rattle.std.specs.Prelude.{◌≡◌, ◌<◌};
ghost use Rattle.sr_hsr_tag.specs.Tagged.{tag_octets};

use sr_sequence::Seq;

/// The type of a frame with an HSR tag (IEC 62439-3, clause 5).
pub const HSR_ETHERTYPE: u16 = 0x892F;

/// The octets of a tag: its type, path and size, and number.
pub const TAG_LEN: usize = 6;

/// An HSR tag, as IEC 62439-3 clause 5 lays it out.
#[derive(Clone, Copy, Debug, PartialEq, Eq)]
pub struct HsrTag {
    /// Four bits: the ring port that the frame was written at, or the network and LAN that a RedBox took it from.
    pub path: u8,
    /// Twelve bits: how many octets stand behind the type 0x892F, up to the frame's end. A reader takes any value.
    pub size: u16,
    /// The sender's number of the frame.
    pub seq: Seq,
    /// The type of the frame without the tag.
    pub inner: u16,
}

impl HsrTag {
    /// What stands behind the type of a tagged frame: path and size, number, inner type.
    // speed: D-script-in-place
    #[inline(always)]
    pub fn octets(self) -> [u8; TAG_LEN]
        requires path { self.path < 16 }
        requires size { self.size < 4096 }
        ensures { result ≡ tag_octets self }
    {
        let [word_high, word_low] = (u16::from(self.path) * 4096 + self.size).to_be_bytes();
        let [seq_high, seq_low] = self.seq.0.to_be_bytes();
        let [inner_high, inner_low] = self.inner.to_be_bytes();
        [
            word_high, word_low, seq_high, seq_low, inner_high, inner_low,
        ]
    }
}
