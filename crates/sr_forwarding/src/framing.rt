//! How a port carries frames.

ghost use Rattle.std.specs.Prelude.{◌≡◌, ◌≢◌, ◌+◌, ◌≤◌, length, vec_len, vec_capacity, None, IfOk, OnOk, IfErr, OnErr, IsOk};
ghost use Rattle.sr_frame.specs.Frame.{HasFrameLength, IsFrame};
ghost use Rattle.sr_frame.specs.View.{fields_of};
ghost use Rattle.sr_forwarding.specs.Decoding.{IsPlainParcel, IsNoFrame, IsRead, IsUnread, IsUndecoded};
ghost use Rattle.sr_forwarding.specs.Encoding.{IsWritten, Grows, Appends, write_fault, or_no_memory};

use crate::{Form, Parcel, ParcelView, ReadFault};
use sr_frame::{Frame, FrameView, MAX_FRAME_LEN, NoMemory, view};
use std::alloc::Global;

// The frame that the octets as they came are, where they are at most so many.
pub(crate) fn whole_frame(octets: &[u8], most: usize) -> Result<FrameView<'_>, ReadFault>
    requires { most ≤ MAX_FRAME_LEN }
    ensures ok { IfOk result (λ v. IsFrame octets.now (fields_of v)) }
    ensures most { OnOk result (length octets.now ≤ most) }
    ensures err { IfErr result (λ e. IsNoFrame most octets.now e) }
{
    if octets.len() > most {
        return Err(ReadFault::TooLong);
    }
    match view(octets) {
        Ok(frame) => Ok(frame),
        Err(_) => Err(ReadFault::TooShort),
    }
}

// A frame without a number.
pub(crate) fn unnumbered(octets: &[u8]) -> ParcelView<'_>
    requires { HasFrameLength octets.now }
    ensures { IsPlainParcel octets.entry.now result }
{
    ParcelView::of_parts(Form::Plain, octets, None, 0, false)
}

// Appends the octets of a parcel as they are.
pub(crate) fn append_as_it_is(out: &mut Vec<u8>, parcel: &ParcelView<'_>) -> Result<(), ReadFault>
    ensures ok { OnOk result
        (Grows (λ octets. octets ≡ parcel.now.octets) out.old.items out.new.items) }
    ensures err { IfErr result (λ e. e ≡ ReadFault.NoMemory) }
    ensures same { OnErr result (out.new.items ≡ out.old.items) }
    ensures room { vec_len out.old + MAX_FRAME_LEN ≤ vec_capacity out.old → IsOk result }
    ensures capacity { vec_capacity out.old ≤ vec_capacity out.new }
{
    match out.extend_from_slice(parcel.octets()) {
        Ok(()) => Ok(()),
        Err(refused) => Err(NoMemory::from(refused).into()),
    }
}

/// How a port carries frames: what octets are which parcel, and back.
pub trait Framing: Drop {
    ghost use Rattle.sr_forwarding.specs.Framings.{FramingImage};

    ghost meaning: { Self → FramingImage };

    /// The parcel that octets at the port are, read in place. Does not allocate.
    ///
    /// `TooShort` where they are fewer than a frame's, `TooLong` where they are more than the port takes, `Untagged` where
    /// the port asks for a tag or a trailer and there is none, `Truncated` where the tag is cut off, `TooShort` where the
    /// frame is none without its tag.
    fn read<'a>(&self, octets: &'a [u8]) -> Result<ParcelView<'a>, ReadFault>
        ensures ok { IfOk result (λ p. IsRead (meaning self.now) octets.now p) }
        ensures err { IfErr result (λ e. IsUnread (meaning self.now) octets.now e) };

    /// Appends the octets that a parcel is written as to a list. A list with room for 1524 octets takes no memory.
    ///
    /// `Untagged` where the parcel has no number and the port's form needs one, `TooLong` where more than 1524 octets would
    /// come of it, `NoMemory` where an allocation failed: the list then stays as it was.
    fn write(&self, out: &mut Vec<u8>, parcel: &ParcelView<'_>) -> Result<(), ReadFault>
        ensures written { OnOk result
            (Appends (meaning self.now) parcel.now out.old.items out.new.items) }
        ensures ok { OnOk result (write_fault (meaning self.now) parcel.now ≡ None) }
        ensures err { IfErr result (λ e.
            e ≡ or_no_memory (write_fault (meaning self.now) parcel.now)) }
        ensures same { OnErr result (out.new.items ≡ out.old.items) }
        ensures room { vec_len out.old + MAX_FRAME_LEN ≤ vec_capacity out.old
            → result ≢ Err ReadFault.NoMemory }
        ensures capacity { vec_capacity out.old ≤ vec_capacity out.new };

    /// The parcel that octets at the port are, with octets of its own that are copied once.
    ///
    /// Its faults are those of `read`, and where there is none of them `NoMemory`.
    fn decode(&self, alloc: Global, octets: &[u8]) -> Result<Parcel, ReadFault>
        ensures ok { IfOk result (λ p. IsRead (meaning self.now) octets.now p) }
        ensures err { IfErr result (λ e. IsUndecoded (meaning self.now) octets.now e) }
    {
        let view = self.read(octets)?;
        Ok(view.to_parcel(alloc)?)
    }

    /// The frame that a parcel is written as. Its faults are those of `write`.
    fn encode(&self, alloc: Global, parcel: &Parcel) -> Result<Frame, ReadFault>
        ensures written { IfOk result (λ f.
            IsWritten (meaning self.now) parcel.now.form parcel.now f) }
        ensures ok { OnOk result (write_fault (meaning self.now) parcel.now ≡ None) }
        ensures err { IfErr result (λ e.
            e ≡ or_no_memory (write_fault (meaning self.now) parcel.now)) }
    {
        let mut octets = Vec::new(alloc);
        self.write(&mut octets, &parcel.view())?;
        Ok(Frame::of(octets))
    }
}

impl Framing for Box<dyn Framing + Send> {
    ghost meaning = { λ b. (Framing-box b).meaning b.value };

    fn read<'a>(&self, octets: &'a [u8]) -> Result<ParcelView<'a>, ReadFault> {
        (**self).read(octets)
    }

    fn write(&self, out: &mut Vec<u8>, parcel: &ParcelView<'_>) -> Result<(), ReadFault> {
        (**self).write(out, parcel)
    }

    fn decode(&self, alloc: Global, octets: &[u8]) -> Result<Parcel, ReadFault> {
        (**self).decode(alloc, octets)
    }

    fn encode(&self, alloc: Global, parcel: &Parcel) -> Result<Frame, ReadFault> {
        (**self).encode(alloc, parcel)
    }
}
