//! Parcels that borrow their octets.

ghost use Rattle.std.specs.Prelude.{◌≡◌, ◌<◌, ◌≤◌, ℕ, Option, None, IfOk, IsOk, length, vec_capacity};
ghost use Rattle.sr_frame.specs.Frame.{HasFrameLength, IsFrame, spelling};
ghost use Rattle.sr_frame.specs.View.{fields_of};
ghost use Rattle.sr_hsr_tag.specs.Tagged.{IsTagged};
ghost use Rattle.sr_prp_trailer.specs.Trailed.{IsTrailed};
ghost use Rattle.sr_prp_trailer.specs.declared.trailer.Trailer.{Trailer};
ghost use Rattle.sr_forwarding.specs.Headers.{header_of};
ghost use Rattle.sr_sequence.specs.declared.Seq.{Seq};
ghost use Rattle.sr_forwarding.specs.Octets.{dst_in, src_in, plain_in, without_tag, without_trailer};
ghost use Rattle.sr_forwarding.specs.Parcels.{Carries, HasTag, HasTrailer, plain_of, plain_parcel, as_plain, with_number, IsParcel};

use crate::{Form, Header, Parcel};
use sr_frame::{Frame, FrameView, Mac, NoMemory, append, view};
use sr_hsr_tag::untagged_view;
use sr_prp_trailer::parted;
use sr_sequence::Seq;
use sr_supervision::SUPERVISION;
use std::alloc::Global;
use std::marker::Model;

/// A parcel that borrows its octets. Contracts see it as they see a [`Parcel`].
#[derive(Drop)]
pub struct ParcelView<'a> {
    form: Form,
    octets: &'a [u8],
    seq: Option<Seq>,
    path: u8,
    wrong_lan: bool,
}

impl<'a> Model for ParcelView<'a> {
    ghost use Rattle.sr_forwarding.specs.Parcels.{ParcelImage, IsParcel};

    ghost Value = { ParcelImage };

    ghost view = { λ p. record {
      form = p.form;
      octets = p.octets.now;
      seq = p.seq;
      path = p.path;
      wrong_lan = p.wrong_lan;
    } };

    ghost invariant = { λ p.
        IsParcel (record {
          form = p.form;
          octets = p.octets.now;
          seq = p.seq;
          path = p.path;
          wrong_lan = p.wrong_lan;
        }) };
}

// The fields, which the octets of a frame always have.
fn frame_in(octets: &[u8]) -> FrameView<'_>
    requires { HasFrameLength octets.now }
    ensures { IsFrame octets.now (fields_of result) }
{
    view(octets).unwrap()
}

// The frame without its tag.
fn untagged(octets: &[u8]) -> FrameView<'_>
    requires frame { HasFrameLength octets.now }
    requires tag { (seq : Option Seq) × (path : ℕ) × HasTag octets.now seq path }
    ensures { spelling (fields_of result) ≡ without_tag octets.now }
{
    let (plain, _) = untagged_view(&frame_in(octets)).unwrap();
    plain
}

// The frame without its trailer.
fn stripped(octets: &[u8]) -> FrameView<'_>
    requires frame { HasFrameLength octets.now }
    requires trailer { (seq : Option Seq) × HasTrailer octets.now seq }
    ensures { spelling (fields_of result) ≡ without_trailer octets.now }
{
    let (plain, _) = parted(&frame_in(octets)).unwrap();
    plain
}

// The frame without what carries its number in this form.
fn plain_view(form: Form, octets: &[u8]) -> FrameView<'_>
    requires frame { HasFrameLength octets.now }
    requires carries { (seq : Option Seq) × (path : ℕ) × Carries form octets.now seq path }
    ensures { spelling (fields_of result) ≡ plain_in form octets.now }
{
    match form {
        Form::Plain => frame_in(octets),
        Form::Hsr => untagged(octets),
        Form::Prp => stripped(octets),
    }
}

// The destination and the source, which stand at the front in every form.
// speed: D-node-inlined
#[inline(always)]
fn addresses(octets: &[u8]) -> (Mac, Mac)
    requires { 12 ≤ length octets.now }
    ensures dst { result.0 ≡ dst_in octets.now }
    ensures src { result.1 ≡ src_in octets.now }
{
    let (dst, behind) = octets.split_first_chunk::<6>().unwrap();
    let src = behind.first_chunk::<6>().unwrap();
    (Mac(*dst), Mac(*src))
}

impl<'a> ParcelView<'a> {
    /// How the octets carry the number.
    pub fn form(&self) -> Form
        ensures { result ≡ self.now.form }
    {
        self.form
    }

    /// The whole frame in this form.
    pub fn octets(&self) -> &'a [u8]
        ensures whole { result.now ≡ self.now.octets }
        ensures frame { HasFrameLength self.now.octets }
    {
        self.octets
    }

    /// The frame without what carries its number.
    pub fn plain(&self) -> FrameView<'a>
        ensures { spelling (fields_of result) ≡ plain_of self.now }
    {
        plain_view(self.form, self.octets)
    }

    /// The number that its source gave it, where it has one.
    pub fn seq(&self) -> Option<Seq>
        ensures { result ≡ self.now.seq }
    {
        self.seq
    }

    /// The path of an HSR tag: for a frame of a PRP network, twice the network's number and 1 more for LAN B.
    pub fn path(&self) -> u8
        ensures path { result ≡ self.now.path }
        ensures fits { result < 16 }
    {
        self.path
    }

    /// Whether the trailer named the other LAN than that of the port where the frame came in.
    pub fn wrong_lan(&self) -> bool
        ensures { result ≡ self.now.wrong_lan }
    {
        self.wrong_lan
    }

    /// What routes read of it. Whether the destination is known as a node is for the caller to say: here it is not.
    // speed: D-node-lent
    #[inline(always)]
    pub fn header(&self) -> Header
        ensures { result ≡ header_of self.now }
    {
        let (dst, src) = addresses(self.octets);
        // As a rule it is no supervision, and then nothing more is read.
        if dst == SUPERVISION {
            return Header::of(&self.plain(), self.seq, self.path);
        }
        Header {
            dst,
            src,
            seq: self.seq,
            path: self.path,
            supervision: false,
            dst_known: false,
        }
    }

    /// A parcel with octets of its own that are copied once. `NoMemory` where the allocation failed.
    pub fn to_parcel(&self, alloc: Global) -> Result<Parcel, NoMemory>
        ensures { IfOk result (λ p. p ≡ self.now) }
    {
        let octets = Frame::of(Vec::from_slice(alloc, self.octets)?);
        Ok(Parcel::of_parts(self.form, octets, self.seq, self.path, self.wrong_lan))
    }

    /// The parcel, whose octets this list has. Does not allocate.
    // speed: D-node-copies-in-place
    #[inline(always)]
    pub fn to_parcel_of(&self, list: Vec<u8>) -> Parcel
        requires { list.items ≡ self.now.octets }
        ensures { result ≡ self.now }
    {
        Parcel::of_parts(
            self.form,
            Frame::of(list),
            self.seq,
            self.path,
            self.wrong_lan,
        )
    }

    /// A parcel of these octets in this list, in place of what it held. Where the list has room for the octets no growth is needed.
    pub fn to_parcel_in(&self, mut list: Vec<u8>) -> Result<Parcel, NoMemory>
        ensures parcel { IfOk result (λ p. p ≡ self.now) }
        ensures room { length self.now.octets ≤ vec_capacity list → IsOk result }
    {
        list.clear();
        list.extend_from_slice(self.octets)?;
        Ok(self.to_parcel_of(list))
    }

    /// The parcel in plain form, with octets of its own that are copied once. `NoMemory` where the allocation failed.
    pub fn to_plain_parcel(&self, alloc: Global) -> Result<Parcel, NoMemory>
        ensures { IfOk result (λ p. p ≡ as_plain self.now) }
    {
        let mut octets = Vec::with_capacity(alloc, self.plain().frame_len())?;
        append(&mut octets, &self.plain())?;
        Ok(Parcel::of_parts(
            Form::Plain,
            Frame::of(octets),
            self.seq,
            self.path,
            self.wrong_lan,
        ))
    }

    /// Gives a plain parcel this number, in place of any it has.
    pub fn set_number(&mut self, seq: Seq)
        requires { self.old.form ≡ Form.Plain }
        ensures { self.new ≡ with_number self.old seq }
    {
        self.seq = Some(seq);
    }

    /// The parcel of an ordinary frame, with this number or none. Does not allocate.
    pub fn plain_with(frame: &'a Frame, seq: Option<Seq>) -> ParcelView<'a>
        ensures { result ≡ plain_parcel frame.entry.now seq }
    {
        ParcelView::of_parts(Form::Plain, frame.octets(), seq, 0, false)
    }

    /// The parcel with these parts, which agree.
    pub(crate) fn of_parts(
        form: Form,
        octets: &'a [u8],
        seq: Option<Seq>,
        path: u8,
        wrong_lan: bool,
    ) -> ParcelView<'a>
        requires { IsParcel (record {
          form = form;
          octets = octets.now;
          seq = seq;
          path = path;
          wrong_lan = wrong_lan;
        }) }
        ensures { result ≡ record {
          form = form;
          octets = octets.entry.now;
          seq = seq;
          path = path;
          wrong_lan = wrong_lan;
        } }
    {
        ParcelView {
            form,
            octets,
            seq,
            path,
            wrong_lan,
        }
    }
}
