//! Writing a tag.

ghost use Rattle.std.specs.Prelude.{◌≡◌, ◌≢◌, ◌↔◌, ◌+◌, ◌-◌, ◌<◌, ◌≤◌, ◌++◌, List, ℕ, length, vec_len, vec_capacity, IfOk, OnOk, OnErr, IsErrOf};
ghost use Rattle.std.specs.Int.{w16, to_be_bytes};
ghost use Rattle.sr_frame.specs.Frame.{spelling, head_of, least_len, padded};
ghost use Rattle.sr_frame.specs.View.{fields_of};
ghost use Rattle.sr_hsr_tag.specs.Tagged.{IsTag, IsTagged, tag_octets, octets_behind_type};

use crate::tag::{HSR_ETHERTYPE, HsrTag, TAG_LEN};
use sr_frame::{Frame, FrameFault, FrameView, MAX_FRAME_LEN, MIN_PAYLOAD_LEN, NoMemory, append};
use sr_sequence::Seq;
use std::alloc::Global;

/// The frame with octets of its own.
pub(crate) fn frame_of(alloc: Global, frame: &FrameView<'_>) -> Result<Frame, NoMemory>
    ensures { IfOk result (λ own. own ≡ spelling (fields_of frame.now)) }
{
    let mut octets = Vec::with_capacity(alloc, frame.frame_len())?;
    append(&mut octets, frame)?;
    Ok(Frame::of(octets))
}

/// Appends addresses, the VLAN tag, and the type of a tagged frame to a list that has room for them.
fn put_head(out: &mut Vec<u8>, frame: &FrameView<'_>)
    requires { vec_len out.old + least_len (spelling (fields_of frame.now)) ≤ vec_capacity out.old }
    ensures items { out.new.items ≡ out.old.items
        ++ (head_of (fields_of frame.now) ++ to_be_bytes w16 0x892F) }
    ensures capacity { vec_capacity out.old ≤ vec_capacity out.new }
{
    let head = FrameView {
        dst: frame.dst,
        src: frame.src,
        vlan: frame.vlan,
        ethertype: HSR_ETHERTYPE,
        payload: &[],
    };
    append(out, &head).unwrap();
}

/// Appends what stands behind that type, up to the payload, to a list that has room for it.
fn put_tag(out: &mut Vec<u8>, tag: HsrTag)
    requires path { tag.path < 16 }
    requires size { tag.size < 4096 }
    requires room { vec_len out.old + TAG_LEN ≤ vec_capacity out.old }
    ensures items { out.new.items ≡ out.old.items ++ tag_octets tag }
    ensures capacity { vec_capacity out.old ≤ vec_capacity out.new }
{
    out.extend_from_slice(&tag.octets()).unwrap();
}

/// Appends the frame, with the tag in it, to a list that has room for both.
fn put_tagged(out: &mut Vec<u8>, frame: &FrameView<'_>, tag: HsrTag)
    requires path { tag.path < 16 }
    requires size { tag.size < 4096 }
    requires room { vec_len out.old + length (spelling (fields_of frame.now)) + TAG_LEN
        ≤ vec_capacity out.old }
    ensures items { out.new.items ≡ out.old.items
        ++ (head_of (fields_of frame.now) ++ to_be_bytes w16 0x892F
        ++ (tag_octets tag ++ frame.now.payload.now)) }
    ensures capacity { vec_capacity out.old ≤ vec_capacity out.new }
{
    put_head(out, frame);
    put_tag(out, tag);
    out.extend_from_slice(frame.payload).unwrap();
}

/// Appends the frame to a list, with a tag before its type. A list with room for them takes no memory.
///
/// A payload of fewer than 46 octets is padded with zeros, so that the tagged frame has 66 octets, or 70 with a
/// VLAN tag. The tag stands where the frame's type does, behind a VLAN tag; its size counts the octets behind the type 0x892F to the end. `TooLong` where more than 1524
/// octets would come of it; `NoMemory` where the allocation failed: the list then stays as it was.
pub fn append_tagged(
    out: &mut Vec<u8>,
    frame: &FrameView<'_>,
    path: u8,
    seq: Seq,
) -> Result<(), FrameFault>
    requires { path < 16 }
    ensures ok { OnOk result ((own : List ℕ) × (out.new.items ≡ out.old.items ++ own)
        × (let plain = padded (spelling (fields_of frame.now)) in
        IsTagged own plain (record {
          path = path;
          size = octets_behind_type own;
          seq = seq;
          inner = frame.now.ethertype;
        }) × (least_len own ≡ least_len plain))) }
    ensures err { OnErr result (out.new.items ≡ out.old.items) }
    ensures long { IsErrOf result FrameFault.TooLong
        ↔ (MAX_FRAME_LEN < length (padded (spelling (fields_of frame.now))) + 6) }
    ensures not_short { result ≢ Err FrameFault.TooShort }
    ensures room { vec_len out.old + MAX_FRAME_LEN ≤ vec_capacity out.old
        → result ≢ Err FrameFault.NoMemory }
    ensures capacity { vec_capacity out.old ≤ vec_capacity out.new }
{
    let payload_len = frame.payload.len().max(MIN_PAYLOAD_LEN);
    // Behind the tag's type stand its other four octets and the inner type, which are as many.
    let size = payload_len + TAG_LEN;
    let len = frame.header_len() + size;
    if len > MAX_FRAME_LEN {
        return Err(FrameFault::TooLong);
    }
    let tag = HsrTag {
        path,
        size: size as u16,
        seq,
        inner: frame.ethertype,
    };
    let end = out.len() + len;
    out.reserve(len)?;
    put_tagged(out, frame, tag);
    out.resize(end, 0).unwrap();
    Ok(())
}

/// The frame with a tag before its type, in one list of octets that is copied once.
///
/// Its octets and its faults are those of [`append_tagged`].
pub fn tagged(alloc: Global, frame: &FrameView<'_>, path: u8, seq: Seq) -> Result<Frame, FrameFault>
    requires { path < 16 }
    ensures ok { IfOk result (λ own. let plain = padded (spelling (fields_of frame.now)) in
        IsTagged own plain (record {
          path = path;
          size = octets_behind_type own;
          seq = seq;
          inner = frame.now.ethertype;
        }) × (least_len own ≡ least_len plain)) }
    ensures long { IsErrOf result FrameFault.TooLong
        ↔ (MAX_FRAME_LEN < length (padded (spelling (fields_of frame.now))) + 6) }
    ensures not_short { result ≢ Err FrameFault.TooShort }
{
    let mut octets = Vec::new(alloc);
    append_tagged(&mut octets, frame, path, seq)?;
    Ok(Frame::of(octets))
}
