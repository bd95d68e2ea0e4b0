//! Writing a trailer.

ghost use Rattle.std.specs.Prelude.{◌≡◌, ◌≢◌, ◌↔◌, ◌+◌, ◌-◌, ◌<◌, ◌≤◌, ◌++◌, List, ℕ, length, vec_len, vec_capacity, IfOk, OnOk, OnErr, IsErrOf};
ghost use Rattle.sr_frame.specs.Frame.{spelling, least_len, padded};
ghost use Rattle.sr_frame.specs.View.{fields_of};
ghost use Rattle.sr_prp_trailer.specs.Trailed.{IsTrailed, trailer_octets};

use crate::trailer::{Lan, TRAILER_LEN, Trailer};
use sr_frame::{Frame, FrameFault, FrameView, MAX_FRAME_LEN, MIN_PAYLOAD_LEN, append};
use sr_sequence::Seq;
use std::alloc::Global;

/// Appends a trailer to a list that has room for it.
fn put_trailer(out: &mut Vec<u8>, trailer: Trailer)
    requires small { trailer.size < 4096 }
    requires room { vec_len out.old + TRAILER_LEN ≤ vec_capacity out.old }
    ensures items { out.new.items ≡ out.old.items ++ trailer_octets trailer }
    ensures capacity { vec_capacity out.old ≤ vec_capacity out.new }
{
    out.extend_from_slice(&trailer.octets()).unwrap();
}

/// Appends the frame's octets, padded to `len`, to a list that has room for them.
fn put_padded(out: &mut Vec<u8>, frame: &FrameView<'_>, len: usize)
    requires len { len ≡ length (padded (spelling (fields_of frame.now))) }
    requires room { vec_len out.old + len ≤ vec_capacity out.old }
    ensures items { out.new.items ≡ out.old.items ++ padded (spelling (fields_of frame.now)) }
    ensures capacity { vec_capacity out.old ≤ vec_capacity out.new }
{
    let end = out.len() + len;
    append(out, frame).unwrap();
    out.resize(end, 0).unwrap();
}

/// Appends the frame to a list, and a trailer behind it. A list with room for them takes no memory.
///
/// A payload of fewer than 46 octets is padded with zeros first, so that the frame has 60 octets before the
/// trailer, or 64 with a VLAN tag. `TooLong` where more than 1524 octets would come of it; `NoMemory` where
/// the allocation failed: the list then stays as it was.
pub fn append_trailed(
    out: &mut Vec<u8>,
    frame: &FrameView<'_>,
    seq: Seq,
    lan: Lan,
) -> Result<(), FrameFault>
    ensures ok { OnOk result ((own : List ℕ) × (out.new.items ≡ out.old.items ++ own)
        × (let plain = padded (spelling (fields_of frame.now)) in
        IsTrailed own plain (record {
          seq = seq;
          lan = lan;
          size = length own - least_len plain;
        }))) }
    ensures err { OnErr result (out.new.items ≡ out.old.items) }
    ensures long { IsErrOf result FrameFault.TooLong
        ↔ (MAX_FRAME_LEN < length (padded (spelling (fields_of frame.now))) + TRAILER_LEN) }
    ensures not_short { result ≢ Err FrameFault.TooShort }
    ensures room { vec_len out.old + MAX_FRAME_LEN ≤ vec_capacity out.old
        → result ≢ Err FrameFault.NoMemory }
    ensures capacity { vec_capacity out.old ≤ vec_capacity out.new }
{
    let payload_len = frame.payload.len().max(MIN_PAYLOAD_LEN);
    let len = frame.header_len() + payload_len;
    if len + TRAILER_LEN > MAX_FRAME_LEN {
        return Err(FrameFault::TooLong);
    }
    let size = (payload_len + TRAILER_LEN) as u16;
    out.reserve(len + TRAILER_LEN)?;
    put_padded(out, frame, len);
    put_trailer(out, Trailer { seq, lan, size });
    Ok(())
}

/// The frame with a trailer behind it, in one list of octets that is copied once.
///
/// Its octets and its faults are those of [`append_trailed`].
pub fn appended(
    alloc: Global,
    frame: &FrameView<'_>,
    seq: Seq,
    lan: Lan,
) -> Result<Frame, FrameFault>
    ensures ok { IfOk result (λ own. let plain = padded (spelling (fields_of frame.now)) in
        IsTrailed own plain (record {
          seq = seq;
          lan = lan;
          size = length own - least_len plain;
        })) }
    ensures long { IsErrOf result FrameFault.TooLong
        ↔ (MAX_FRAME_LEN < length (padded (spelling (fields_of frame.now))) + TRAILER_LEN) }
    ensures not_short { result ≢ Err FrameFault.TooShort }
{
    let mut octets = Vec::new(alloc);
    append_trailed(&mut octets, frame, seq, lan)?;
    Ok(Frame::of(octets))
}
