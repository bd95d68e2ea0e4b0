//! Reading a tag, and taking it out.

ghost use Rattle.std.specs.Prelude.{◌≡◌, ◌≢◌, ◌↔◌, ◌+◌, ◌<◌, ◌≤◌, ◌++◌, List, ℕ, length, IsNone, IfSome, IfOk, IsOkAnd, IsErrOf, MatchResult};
ghost use Rattle.std.specs.Int.{w16, to_be_bytes};
ghost use Rattle.sr_frame.specs.Frame.{HasFrameLength, head_of, least_len, spelling};
ghost use Rattle.sr_frame.specs.View.{fields_of};
ghost use Rattle.sr_hsr_tag.specs.Tagged.{IsTag, IsTagged, tag_octets, with_type};
ghost use Rattle.sr_hsr_tag.specs.declared.tag.HsrTag.{HsrTag};

use crate::fault::{TagFault, UntagFault};
use crate::tag::{HSR_ETHERTYPE, HsrTag};
use crate::writing::frame_of;
use sr_frame::{Frame, FrameView, VLAN_ETHERTYPE};
use sr_sequence::Seq;
use std::alloc::Global;

/// The tag that six octets spell.
fn tag_of(octets: &[u8; 6]) -> HsrTag
    ensures spelled { octets.now ≡ tag_octets result }
    ensures fits { IsTag result }
{
    let [
        word_high,
        word_low,
        seq_high,
        seq_low,
        inner_high,
        inner_low,
    ] = *octets;
    let word = u16::from_be_bytes([word_high, word_low]);
    HsrTag {
        path: (word / 4096) as u8,
        size: word % 4096,
        seq: Seq(u16::from_be_bytes([seq_high, seq_low])),
        inner: u16::from_be_bytes([inner_high, inner_low]),
    }
}

/// The tag, and the octets behind it.
fn parted<'a>(frame: &FrameView<'a>) -> Result<(HsrTag, &'a [u8]), TagFault>
    ensures found { IfOk result (λ r. IsTagged (spelling (fields_of frame.now))
        (with_type (fields_of frame.now) r.0.inner r.1.now) r.0) }
    ensures only { (plain : List ℕ) (t : HsrTag) → IsTagged (spelling (fields_of frame.now)) plain t
        → IsOkAnd result (λ r.
        (r.0 ≡ t) × (with_type (fields_of frame.now) r.0.inner r.1.now ≡ plain)) }
    ensures shorter { IfOk result (λ r. length r.1.now + 6 ≡ length frame.now.payload.now) }
    ensures not_tagged { IsErrOf result TagFault.NotTagged ↔ (frame.now.ethertype ≢ HSR_ETHERTYPE) }
    ensures truncated { IsErrOf result TagFault.Truncated
        ↔ (frame.now.ethertype ≡ HSR_ETHERTYPE) × (length frame.now.payload.now < 6) }
{
    if frame.ethertype != HSR_ETHERTYPE {
        return Err(TagFault::NotTagged);
    }
    let Some((front, rest)) = frame.payload.split_first_chunk::<6>() else {
        return Err(TagFault::Truncated);
    };
    Ok((tag_of(front), rest))
}

/// A VLAN tag's control and the type behind it.
fn control_and_ethertype(octets: &[u8]) -> Option<(u16, u16, &[u8])>
    ensures short { IsNone result ↔ (length octets.now < 4) }
    ensures front { IfSome result (λ r.
        octets.now ≡ to_be_bytes w16 r.0 ++ to_be_bytes w16 r.1 ++ r.2.now) }
{
    let (front, rest) = octets.split_first_chunk::<4>()?;
    let [control_high, control_low, ethertype_high, ethertype_low] = *front;
    let control = u16::from_be_bytes([control_high, control_low]);
    let ethertype = u16::from_be_bytes([ethertype_high, ethertype_low]);
    Some((control, ethertype, rest))
}

/// The frame with another type and payload. A type that marks a VLAN tag takes the tag from the payload.
fn retyped<'a>(frame: &FrameView<'a>, ethertype: u16, payload: &'a [u8]) -> Option<FrameView<'a>>
    requires { length payload.now ≤ length frame.now.payload.now }
    ensures found { IfSome result (λ v.
        spelling (fields_of v) ≡ with_type (fields_of frame.now) ethertype payload.now) }
    ensures short { IsNone result
        ↔ (let plain = with_type (fields_of frame.now) ethertype payload.now in length plain
        < least_len plain) }
{
    let FrameView { dst, src, vlan, .. } = *frame;
    if ethertype != VLAN_ETHERTYPE || vlan.is_some() {
        return Some(FrameView {
            dst,
            src,
            vlan,
            ethertype,
            payload,
        });
    }
    let (control, ethertype, payload) = control_and_ethertype(payload)?;
    Some(FrameView {
        dst,
        src,
        vlan: Some(control),
        ethertype,
        payload,
    })
}

/// The tag of a frame. Takes no memory.
///
/// Any size is taken. `NotTagged` where the type is not 0x892F, `Truncated` where fewer than six octets stand
/// behind it.
pub fn read(frame: &FrameView<'_>) -> Result<HsrTag, TagFault>
    // What is read is spelled so, and what is spelled so is read.
    ensures found { IfOk result (λ t.
        (plain : List ℕ) × IsTagged (spelling (fields_of frame.now)) plain t) }
    ensures only { (plain : List ℕ) (t : HsrTag) → IsTagged (spelling (fields_of frame.now)) plain t
        → result ≡ Ok t }

    // Each fault exactly where it is due.
    ensures not_tagged { IsErrOf result TagFault.NotTagged ↔ (frame.now.ethertype ≢ HSR_ETHERTYPE) }
    ensures truncated { IsErrOf result TagFault.Truncated
        ↔ (frame.now.ethertype ≡ HSR_ETHERTYPE) × (length frame.now.payload.now < 6) }
{
    let (tag, _) = parted(frame)?;
    Ok(tag)
}

/// The frame without its tag, which borrows the tagged frame's payload, and the tag. Takes no memory.
///
/// The inner type is its type, and padding stays. `NotTagged` and `Truncated` where [`read`] answers them;
/// `TooShort` where the inner type is that of a VLAN tag, no VLAN tag stands before the HSR tag, and too little
/// stands behind it.
pub fn untagged_view<'a>(frame: &FrameView<'a>) -> Result<(FrameView<'a>, HsrTag), UntagFault>
    // What is read is spelled so, and what is spelled so is read, where it is a frame without the tag too.
    ensures found { IfOk result (λ r.
        IsTagged (spelling (fields_of frame.now)) (spelling (fields_of r.0)) r.1) }
    ensures only { (plain : List ℕ) (t : HsrTag) → IsTagged (spelling (fields_of frame.now)) plain t
        → HasFrameLength plain
        → IsOkAnd result (λ r. (spelling (fields_of r.0) ≡ plain) × (r.1 ≡ t)) }

    // Each fault exactly where it is due.
    ensures not_tagged { IsErrOf result UntagFault.NotTagged
        ↔ (frame.now.ethertype ≢ HSR_ETHERTYPE) }
    ensures truncated { IsErrOf result UntagFault.Truncated
        ↔ (frame.now.ethertype ≡ HSR_ETHERTYPE) × (length frame.now.payload.now < 6) }
    ensures too_short { IsErrOf result UntagFault.TooShort
        ↔ ((plain : List ℕ) × (t : HsrTag) × IsTagged (spelling (fields_of frame.now)) plain t
        × (length plain < least_len plain)) }
    ensures no_memory { result ≢ Err UntagFault.NoMemory }
{
    let (tag, rest) = parted(frame)?;
    let Some(plain) = retyped(frame, tag.inner, rest) else {
        return Err(UntagFault::TooShort);
    };
    Ok((plain, tag))
}

/// The frame without its tag, with octets of its own that are copied once.
///
/// Its faults are those of [`untagged_view`], and `NoMemory` where the allocation failed.
pub fn untagged(alloc: Global, frame: &FrameView<'_>) -> Result<Frame, UntagFault>
    ensures found { IfOk result (λ own.
        (t : HsrTag) × IsTagged (spelling (fields_of frame.now)) own t) }
    ensures only { (plain : List ℕ) (t : HsrTag) → IsTagged (spelling (fields_of frame.now)) plain t
        → HasFrameLength plain
        → MatchResult result (λ own. own ≡ plain) (λ e. e ≡ UntagFault.NoMemory) }
    ensures not_tagged { IsErrOf result UntagFault.NotTagged
        ↔ (frame.now.ethertype ≢ HSR_ETHERTYPE) }
    ensures truncated { IsErrOf result UntagFault.Truncated
        ↔ (frame.now.ethertype ≡ HSR_ETHERTYPE) × (length frame.now.payload.now < 6) }
    ensures too_short { IsErrOf result UntagFault.TooShort
        ↔ ((plain : List ℕ) × (t : HsrTag) × IsTagged (spelling (fields_of frame.now)) plain t
        × (length plain < least_len plain)) }
{
    let (plain, _) = untagged_view(frame)?;
    let own = frame_of(alloc, &plain)?;
    Ok(own)
}
