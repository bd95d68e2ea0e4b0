//! A frame as it goes out with a trailer or a tag, in two pieces, so that it need not be copied.

ghost use Rattle.std.specs.Prelude.{◌≡◌, ◌<◌, ◌≤◌, ◌++◌, ◌+◌, ◌-◌, ◌*◌, ℕ, length, IfSome};
ghost use Rattle.std.specs.Int.{w16, to_be_bytes};
ghost use Rattle.sr_frame.specs.Frame.{HasFrameLength, least_len, padded};
ghost use Rattle.sr_hsr_tag.specs.Tagged.{IsTagged, octets_behind_type};
ghost use Rattle.sr_prp_trailer.specs.Trailed.{IsTrailed};
ghost use Rattle.sr_forwarding.specs.Encoding.{IsWritten};
ghost use Rattle.sr_forwarding.specs.Framings.{Tagged, Trailed};

use crate::{Form, HsrFraming, Parcel, PrpFraming};
use sr_frame::{HEADER_LEN, MAX_FRAME_LEN, MIN_PAYLOAD_LEN, VLAN_ETHERTYPE, VLAN_TAG_LEN};
use sr_hsr_tag::{HSR_ETHERTYPE, HsrTag, TAG_LEN};
use sr_prp_trailer::{Lan, TRAILER_LEN, Trailer};
use sr_sequence::Seq;

/// How many octets of a frame stand before its payload.
// speed: D-script-in-place
#[inline(always)]
fn header_len(octets: &[u8]) -> usize
    requires { HasFrameLength octets.now }
    ensures { result ≡ least_len octets.now }
{
    let [high, low] = VLAN_ETHERTYPE.to_be_bytes();
    if octets[12] == high && octets[13] == low {
        HEADER_LEN + VLAN_TAG_LEN
    } else {
        HEADER_LEN
    }
}

/// A frame with a trailer behind it. Its last two octets are a part of the second piece, so that this has eight octets. None where
/// zeros stand before the trailer, or the frame is too long for one.
// speed: D-script-in-place
#[inline(always)]
fn with_trailer(octets: &[u8], seq: Seq, lan: Lan) -> Option<(&[u8], [u8; 8])>
    requires { HasFrameLength octets.now }
    ensures trailed { IfSome result (λ pieces. (size : ℕ)
        × IsTrailed (pieces.0.now ++ pieces.1) (padded octets.now) (record {
          seq = seq;
          lan = lan;
          size = size;
        })) }
    ensures size { IfSome result (λ pieces. length pieces.0.now + 8 ≤ 1524) }
{
    let payload_len = octets.len() - header_len(octets);
    if payload_len < MIN_PAYLOAD_LEN || octets.len() + TRAILER_LEN > MAX_FRAME_LEN {
        return None;
    }
    let (front, last) = octets.split_last_chunk::<2>()?;
    let [before_last, last] = *last;
    let trailer = Trailer {
        seq,
        lan,
        size: (payload_len + TRAILER_LEN) as u16,
    };
    let [a, b, c, d, e, f] = trailer.octets();
    Some((front, [before_last, last, a, b, c, d, e, f]))
}

/// What stands before the type of a frame without a VLAN tag once it has a tag.
// speed: D-script-in-place
#[inline(always)]
fn tagged_front(addresses: &[u8; 12], tag: HsrTag) -> [u8; 18]
    requires path { tag.path < 16 }
    requires size { tag.size < 4096 }
    ensures { result ≡ addresses.now ++ (to_be_bytes w16 0x892F
        ++ (to_be_bytes w16 (tag.path * 4096 + tag.size) ++ to_be_bytes w16 tag.seq.0)) }
{
    let [type_high, type_low] = HSR_ETHERTYPE.to_be_bytes();
    let [size_high, size_low, seq_high, seq_low, ..] = tag.octets();
    let mut front = [0; 18];
    front[..12].copy_from_slice(addresses);
    front[12..].copy_from_slice(&[type_high, type_low, size_high, size_low, seq_high, seq_low]);
    front
}

/// A frame with a tag before its type. None where zeros stand behind it, it is too long for a tag, or it has a VLAN tag.
// speed: D-script-in-place
#[inline(always)]
fn with_tag(octets: &[u8], seq: Seq, path: u8) -> Option<([u8; 18], &[u8])>
    requires frame { HasFrameLength octets.now }
    requires path { path < 16 }
    ensures tagged { IfSome result (λ pieces. let whole = pieces.0 ++ pieces.1.now in (inner : ℕ)
        × IsTagged whole (padded octets.now) (record {
          path = path;
          size = octets_behind_type whole;
          seq = seq;
          inner = inner;
        }) × (least_len whole ≡ least_len (padded octets.now))) }
    ensures size { IfSome result (λ pieces. length pieces.1.now + 18 ≤ 1524) }
{
    let payload_len = octets.len() - header_len(octets);
    if payload_len + HEADER_LEN != octets.len()
        || payload_len < MIN_PAYLOAD_LEN
        || octets.len() + TAG_LEN > MAX_FRAME_LEN
    {
        return None;
    }
    let (addresses, behind) = octets.split_first_chunk::<12>()?;
    let (inner, _) = behind.split_first_chunk::<2>()?;
    let tag = HsrTag {
        path,
        size: (payload_len + TAG_LEN) as u16,
        seq,
        inner: u16::from_be_bytes(*inner),
    };
    Some((tagged_front(addresses, tag), behind))
}

/// What a plain parcel goes out as in a LAN, in two pieces: the octets up to the last two of the frame, and these with the trailer.
/// Does not allocate. None for a parcel that has a tag or a trailer, has no number, is padded first, or is too long: its framing
/// writes it (`Framing::write`).
// speed: D-script-in-place
#[inline(always)]
pub fn trailed_pieces(parcel: &Parcel, framing: PrpFraming) -> Option<(&[u8], [u8; 8])>
    ensures written { IfSome result (λ pieces. IsWritten (Trailed framing.lan framing.net)
        parcel.now.form parcel.now (pieces.0.now ++ pieces.1)) }
    ensures size { IfSome result (λ pieces. length pieces.0.now + 8 ≤ 1524) }
{
    match parcel.form() {
        Form::Plain => with_trailer(parcel.octets(), parcel.seq()?, framing.lan),
        Form::Hsr | Form::Prp => None,
    }
}

/// What a plain parcel goes out as in a ring, in two pieces: the octets up to the tag's number, and those from the frame's type on.
/// Does not allocate. None for a parcel that has a tag or a trailer, has no number, is padded first, is too long, or has a VLAN tag:
/// its framing writes it (`Framing::write`).
// speed: D-script-in-place
#[inline(always)]
pub fn tagged_pieces(parcel: &Parcel, framing: HsrFraming) -> Option<([u8; 18], &[u8])>
    ensures written { IfSome result (λ pieces. IsWritten (Tagged framing.path) parcel.now.form
        parcel.now (pieces.0 ++ pieces.1.now)) }
    ensures size { IfSome result (λ pieces. length pieces.1.now + 18 ≤ 1524) }
{
    match parcel.form() {
        Form::Plain => with_tag(parcel.octets(), parcel.seq()?, framing.path),
        Form::Hsr | Form::Prp => None,
    }
}
