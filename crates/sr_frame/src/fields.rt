//! Addresses, and the fields of a frame.

ghost use Rattle.std.specs.Prelude.{◌≡◌, ◌/◌, ◌%◌, IsTrue, ◌↔◌, length, slice_index, take, drop};
ghost use Rattle.std.specs.Int.{w16, w32, from_le_bytes, to_le_bytes};
ghost use Rattle.sr_frame.specs.Frame.{Fields, IsLegal};

/// The most octets of a frame: 1518 of Ethernet, and 6 of a tag or trailer (IEC 62439-3, choice of this project).
pub const MAX_FRAME_LEN: usize = 1524;

/// The octets of both addresses and the type.
pub const HEADER_LEN: usize = 14;

/// The octets of a VLAN tag.
pub const VLAN_TAG_LEN: usize = 4;

/// The fewest octets of payload that a writer leaves: a shorter payload is padded with zeros.
pub const MIN_PAYLOAD_LEN: usize = 46;

/// The type that marks a VLAN tag.
pub const VLAN_ETHERTYPE: u16 = 0x8100;

/// A hardware address: its six octets in the order in which a frame carries them.
///
/// Addresses are ordered octet by octet, and shown as six pairs of lower case digits joined by colons.
#[derive(Clone, Copy, Debug, PartialOrd, Ord)]
pub struct Mac(pub [u8; 6]);

// The first four octets as a number.
fn front(octets: [u8; 6]) -> u32
    ensures value { result ≡ from_le_bytes w32 (take 4 octets) }
    ensures spelled { to_le_bytes w32 result ≡ take 4 octets }
{
    u32::from_le_bytes([octets[0], octets[1], octets[2], octets[3]])
}

// The last two octets as a number.
fn back(octets: [u8; 6]) -> u16
    ensures value { result ≡ from_le_bytes w16 (drop 4 octets) }
    ensures spelled { to_le_bytes w16 result ≡ drop 4 octets }
{
    u16::from_le_bytes([octets[4], octets[5]])
}

impl PartialEq for Mac {
    ghost use Rattle.std.specs.Cmp.Rules.{comparing};
    ghost use Rattle.std.proofs.Common.{rules};
    ghost use Rattle.sr_frame.specs.Addresses.{mac_eq};

    ghost eq = { mac_eq };

    ghost laws = { Prim.search (comparing, rules) };

    // As two numbers: a walk over the octets would ask six questions.
    // speed: D-frame-compare-addresses
    #[inline(always)]
    fn eq(&self, other: &Mac) -> bool {
        (front(self.0) == front(other.0)) & (back(self.0) == back(other.0))
    }
}

impl Eq for Mac {
    ghost use Rattle.std.specs.Cmp.Rules.{comparing};
    ghost use Rattle.std.proofs.Common.{rules};

    ghost laws = { Prim.search (comparing, rules) };
}

impl std::hash::Hash for Mac {
    ghost use Rattle.std.specs.Prelude.{◌∷◌, []};

    ghost hash_input = { λ mac. mac.0 ∷ [] };

    ghost use Rattle.std.specs.Cmp.Rules.{comparing, hashing};
    ghost use Rattle.std.proofs.Common.{rules};

    ghost respects_eq = { Prim.search (comparing, hashing, rules) };

    fn hash<H: std::hash::Hasher>(&self, state: &mut H) {
        state.write(&self.0);
    }
}

impl Mac {
    /// Whether this is a group address: the lowest bit of its first octet is set.
    pub fn is_group(self) -> bool
        ensures { IsTrue result ↔ (slice_index self.0 0 % 2 ≡ 1) }
    {
        self.0[0] % 2 == 1
    }
}

/// The fields of a legal frame, which borrow its payload.
#[derive(Clone, Copy, Debug)]
pub struct FrameView<'a> {
    /// The destination.
    pub dst: Mac,
    /// The source.
    pub src: Mac,
    /// The control octets of the VLAN tag, where there is one.
    pub vlan: Option<u16>,
    /// The type, after the VLAN tag where there is one.
    pub ethertype: u16,
    /// What follows the type.
    pub payload: &'a [u8],
    pub ghost legal: { IsLegal (record {
      dst = dst.0;
      src = src.0;
      vlan = vlan;
      ethertype = ethertype;
      payload = payload.now;
    }) },
}

impl FrameView<'_> {
    ghost use Rattle.sr_frame.specs.Frame.{spelling, least_len};
    ghost use Rattle.sr_frame.specs.View.{fields_of};

    /// How many octets stand before the payload: 14, or 18 with a VLAN tag.
    pub fn header_len(&self) -> usize
        ensures { result ≡ least_len (spelling (fields_of self.now)) }
    {
        match self.vlan {
            Some(_) => HEADER_LEN + VLAN_TAG_LEN,
            None => HEADER_LEN,
        }
    }

    /// How many octets the whole frame has.
    pub fn frame_len(&self) -> usize
        ensures { result ≡ length (spelling (fields_of self.now)) }
    {
        self.header_len() + self.payload.len()
    }
}
