//! Ports of an HSR ring: frames have a tag (IEC 62439-3 clause 5).

ghost use Rattle.std.specs.Prelude.{◌≡◌, ◌≢◌, ◌+◌, ◌<◌, ◌≤◌, vec_len, vec_capacity, None, IfOk, OnOk, IfErr, OnErr};
ghost use Rattle.sr_frame.specs.Frame.{IsFrame};
ghost use Rattle.sr_frame.specs.View.{fields_of};
ghost use Rattle.sr_forwarding.specs.Decoding.{IsTaggedParcel, IsUntagged};
ghost use Rattle.sr_forwarding.specs.Encoding.{Grows, IsTaggedAnew, number_fault, or_no_memory};

use crate::framing::{append_as_it_is, whole_frame};
use crate::{Form, Framing, ParcelView, ReadFault};
use sr_frame::{FrameFault, FrameView, MAX_FRAME_LEN};
use sr_hsr_tag::{UntagFault, append_tagged, untagged_view};

/// A port of an HSR ring: each frame has a tag.
#[derive(Clone, Copy, Debug)]
pub struct HsrFraming {
    /// The path of the frames that are written from a plain form: below 16.
    pub path: u8,
    ghost fits: { path < 16 },
}

// A frame with a tag, read in place.
// speed: D-node-inlined
#[inline(always)]
fn read_tagged<'a>(octets: &'a [u8], frame: &FrameView<'a>) -> Result<ParcelView<'a>, ReadFault>
    requires { IsFrame octets.now (fields_of frame.now) }
    ensures ok { IfOk result (λ p. IsTaggedParcel octets.entry.now p) }
    ensures err { IfErr result (λ e. IsUntagged octets.entry.now e) }
{
    match untagged_view(frame) {
        Ok((_plain, tag)) => Ok(ParcelView::of_parts(
            Form::Hsr,
            octets,
            Some(tag.seq),
            tag.path,
            false,
        )),
        Err(UntagFault::NotTagged) => Err(ReadFault::Untagged),
        Err(UntagFault::Truncated) => Err(ReadFault::Truncated),
        Err(UntagFault::TooShort) => Err(ReadFault::TooShort),
        Err(UntagFault::NoMemory) => Err(ReadFault::NoMemory),
    }
}

// Appends the plain form of a parcel with a tag before its type.
fn write_tagged(out: &mut Vec<u8>, parcel: &ParcelView<'_>, path: u8) -> Result<(), ReadFault>
    requires { path < 16 }
    ensures written { OnOk result
        (Grows (IsTaggedAnew path parcel.now) out.old.items out.new.items) }
    ensures ok { OnOk result (number_fault parcel.now parcel.now.seq ≡ None) }
    ensures err { IfErr result (λ e. e ≡ or_no_memory (number_fault parcel.now parcel.now.seq)) }
    ensures same { OnErr result (out.new.items ≡ out.old.items) }
    ensures room { vec_len out.old + MAX_FRAME_LEN ≤ vec_capacity out.old
        → result ≢ Err ReadFault.NoMemory }
    ensures capacity { vec_capacity out.old ≤ vec_capacity out.new }
{
    let Some(seq) = parcel.seq() else {
        return Err(ReadFault::Untagged);
    };
    match append_tagged(out, &parcel.plain(), path, seq) {
        Ok(()) => Ok(()),
        Err(FrameFault::TooLong) => Err(ReadFault::TooLong),
        Err(_) => Err(ReadFault::NoMemory),
    }
}

impl Framing for HsrFraming {
    ghost use Rattle.sr_forwarding.specs.Framings.{Tagged};

    ghost meaning = { λ f. Tagged f.path };

    // speed: D-node-inlined
    #[inline(always)]
    fn read<'a>(&self, octets: &'a [u8]) -> Result<ParcelView<'a>, ReadFault> {
        let frame = whole_frame(octets, MAX_FRAME_LEN)?;
        read_tagged(octets, &frame)
    }

    fn write(&self, out: &mut Vec<u8>, parcel: &ParcelView<'_>) -> Result<(), ReadFault> {
        match parcel.form() {
            Form::Plain => write_tagged(out, parcel, self.path),
            Form::Hsr => append_as_it_is(out, parcel),
            Form::Prp => write_tagged(out, parcel, parcel.path()),
        }
    }
}
