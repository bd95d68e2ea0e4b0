//! Reading a trailer.

ghost use Rattle.std.specs.Prelude.{◌≡◌, ◌≢◌, ◌<◌, ◌≤◌, ◌^◌, IfSome, IfNone, IfOk, IsSomeAnd, IsErrOf, MatchResult, ◌↔◌, List, ℕ};
ghost use Rattle.sr_frame.specs.Frame.{spelling};
ghost use Rattle.sr_frame.specs.View.{fields_of};
ghost use Rattle.sr_prp_trailer.specs.Trailed.{IsTrailed, trailer_octets, lan_id};
ghost use Rattle.sr_prp_trailer.specs.declared.trailer.Trailer.{Trailer};
ghost use Rattle.sr_prp_trailer.specs.declared.trailer.Lan.{Lan};

use crate::fault::StripFault;
use crate::trailer::{LAN_A_ID, LAN_B_ID, Lan, SUFFIX, Trailer};
use sr_frame::{Frame, FrameView, append};
use sr_sequence::Seq;
use std::alloc::Global;

/// The network with this id.
fn lan_of(id: u16) -> Option<Lan>
    ensures some { IfSome result (λ lan. lan_id lan ≡ id) }
    ensures none { IfNone result ((lan : Lan) → lan_id lan ≢ id) }
{
    match id {
        LAN_A_ID => Some(Lan::A),
        LAN_B_ID => Some(Lan::B),
        _ => None,
    }
}

/// The trailer that six octets spell, with this size.
fn trailer_of(last: &[u8; 6], size: usize) -> Option<Trailer>
    ensures found { IfSome result (λ t.
        (last.now ≡ trailer_octets t) × (t.size ≡ size) × (t.seq.0 < 2 ^ 16)) }
    ensures only { (t : Trailer) → t.seq.0 < 2 ^ 16 → t.size ≡ size → size < 4096
        → last.now ≡ trailer_octets t → result ≡ Some t }
{
    let [
        seq_high,
        seq_low,
        lan_high,
        lan_low,
        suffix_high,
        suffix_low,
    ] = *last;
    if u16::from_be_bytes([suffix_high, suffix_low]) != SUFFIX {
        return None;
    }
    let word = u16::from_be_bytes([lan_high, lan_low]);
    let lan = lan_of(word / 4096)?;
    if usize::from(word % 4096) != size {
        return None;
    }
    let seq = Seq(u16::from_be_bytes([seq_high, seq_low]));
    Some(Trailer {
        seq,
        lan,
        size: word % 4096,
    })
}

/// The frame before the trailer, and the trailer, where the last octets are one. Takes no memory.
///
/// Padding before the trailer belongs to the frame. Six octets with another suffix, size or LAN id are no
/// trailer; padding behind a trailer hides it. Of two trailers the last one is read.
pub fn parted<'a>(frame: &FrameView<'a>) -> Option<(FrameView<'a>, Trailer)>
    ensures found { IfSome result (λ r.
        IsTrailed (spelling (fields_of frame.now)) (spelling (fields_of r.0)) r.1) }
    ensures only { (plain : List ℕ) (t : Trailer)
        → IsTrailed (spelling (fields_of frame.now)) plain t
        → IsSomeAnd result (λ r. (spelling (fields_of r.0) ≡ plain) × (r.1 ≡ t)) }
{
    let (front, last) = frame.payload.split_last_chunk::<6>()?;
    let trailer = trailer_of(last, frame.payload.len())?;
    let plain = FrameView {
        dst: frame.dst,
        src: frame.src,
        vlan: frame.vlan,
        ethertype: frame.ethertype,
        payload: front,
    };
    Some((plain, trailer))
}

/// The trailer of a frame, where its last octets are one. Takes no memory.
pub fn read(frame: &FrameView<'_>) -> Option<Trailer>
    ensures found { IfSome result (λ t.
        (plain : List ℕ) × IsTrailed (spelling (fields_of frame.now)) plain t) }
    ensures only { (plain : List ℕ) (t : Trailer)
        → IsTrailed (spelling (fields_of frame.now)) plain t → result ≡ Some t }
{
    let (_, trailer) = parted(frame)?;
    Some(trailer)
}

/// The frame before the trailer, in one list of octets that is copied once.
///
/// `NoTrailer` exactly where [`read`] finds none; `NoMemory` where the allocation failed.
pub fn stripped(alloc: Global, frame: &FrameView<'_>) -> Result<Frame, StripFault>
    ensures found { IfOk result (λ plain.
        (t : Trailer) × IsTrailed (spelling (fields_of frame.now)) plain t) }
    ensures only { (plain : List ℕ) (t : Trailer)
        → IsTrailed (spelling (fields_of frame.now)) plain t
        → MatchResult result (λ own. own ≡ plain) (λ e. e ≡ StripFault.NoMemory) }
    ensures no_trailer { IsErrOf result StripFault.NoTrailer
        ↔ ((plain : List ℕ) (t : Trailer)
        → IsTrailed (spelling (fields_of frame.now)) plain t → ⊥) }
{
    let Some((plain, _)) = parted(frame) else {
        return Err(StripFault::NoTrailer);
    };
    let mut octets = Vec::with_capacity(alloc, plain.frame_len())?;
    append(&mut octets, &plain)?;
    Ok(Frame::of(octets))
}
