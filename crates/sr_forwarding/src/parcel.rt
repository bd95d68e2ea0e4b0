//! Parcels: frames on their way through a node.

ghost use Rattle.std.specs.Prelude.{◌≡◌, ◌+◌, ◌<◌, ◌≤◌, ◌++◌, IfOk, length};
ghost use Rattle.sr_frame.specs.Frame.{HasFrameLength, spelling};
ghost use Rattle.sr_frame.specs.View.{fields_of};
ghost use Rattle.sr_forwarding.specs.Headers.{header_of};
ghost use Rattle.sr_forwarding.specs.Parcels.{plain_of, plain_parcel, IsParcel};

use crate::{Form, Header, ParcelView};
use sr_frame::{Frame, FrameView, NoMemory};
use sr_hsr_tag::TAG_LEN;
use sr_prp_trailer::TRAILER_LEN;
use sr_sequence::Seq;
use std::alloc::Global;
use std::marker::Model;

/// The octets of a type.
const ETHERTYPE_LEN: usize = 2;

/// A frame on its way through a node. Its number and path are those that its octets carry.
#[derive(Debug, PartialEq, Eq, Drop)]
pub struct Parcel {
    // How the octets carry the number.
    form: Form,
    // The whole frame in this form.
    octets: Frame,
    // The number that its source gave it, where it has one.
    seq: Option<Seq>,
    // The path of an HSR tag: for a frame of a PRP network, twice the network's number and 1 more for LAN B.
    path: u8,
    // Whether the trailer named the other LAN than that of the port where the frame came in.
    wrong_lan: bool,
}

impl Model for Parcel {
    ghost use Rattle.sr_forwarding.specs.Parcels.{ParcelImage, IsParcel};

    ghost Value = { ParcelImage };

    ghost view = { λ p. record {
      form = p.form;
      octets = p.octets;
      seq = p.seq;
      path = p.path;
      wrong_lan = p.wrong_lan;
    } };

    ghost invariant = { λ p.
        IsParcel (record {
          form = p.form;
          octets = p.octets;
          seq = p.seq;
          path = p.path;
          wrong_lan = p.wrong_lan;
        }) };

    ghost inverse = { λ p. record {
      form = p.form;
      octets = p.octets;
      seq = p.seq;
      path = p.path;
      wrong_lan = p.wrong_lan;
    } };
}

impl Parcel {
    /// The parcel of an ordinary frame, with this number or none.
    pub fn plain_with(octets: Frame, seq: Option<Seq>) -> Parcel
        ensures { result ≡ plain_parcel octets seq }
    {
        // What the frame shows of its length.
        let _ = octets.octets();
        Parcel {
            form: Form::Plain,
            octets,
            seq,
            path: 0,
            wrong_lan: false,
        }
    }

    /// The parcel with these parts, which agree.
    pub(crate) fn of_parts(
        form: Form,
        octets: Frame,
        seq: Option<Seq>,
        path: u8,
        wrong_lan: bool,
    ) -> Parcel
        requires { IsParcel (record {
          form = form;
          octets = octets;
          seq = seq;
          path = path;
          wrong_lan = wrong_lan;
        }) }
        ensures { result ≡ record {
          form = form;
          octets = octets;
          seq = seq;
          path = path;
          wrong_lan = wrong_lan;
        } }
    {
        Parcel {
            form,
            octets,
            seq,
            path,
            wrong_lan,
        }
    }

    /// How the octets carry the number.
    pub fn form(&self) -> Form
        ensures { result ≡ self.now.form }
    {
        self.form
    }

    /// The whole frame in this form.
    pub fn octets(&self) -> &[u8]
        ensures whole { result.now ≡ self.now.octets }
        ensures frame { HasFrameLength self.now.octets }
    {
        self.octets.octets()
    }

    /// The number that its source gave it, where it has one.
    pub fn seq(&self) -> Option<Seq>
        ensures { result ≡ self.now.seq }
    {
        self.seq
    }

    /// The path of an HSR tag: for a frame of a PRP network, twice the network's number and 1 more for LAN B.
    pub fn path(&self) -> u8
        ensures path { result ≡ self.now.path }
        ensures fits { result < 16 }
    {
        self.path
    }

    /// Whether the trailer named the other LAN than that of the port where the frame came in.
    pub fn wrong_lan(&self) -> bool
        ensures { result ≡ self.now.wrong_lan }
    {
        self.wrong_lan
    }

    /// The list of its octets, for another parcel. Does not allocate.
    pub fn into_octets(self) -> Vec<u8>
        ensures { result.items ≡ self.octets }
    {
        self.octets.into_octets()
    }

    /// An equal parcel. `NoMemory` where its one allocation failed.
    pub fn try_clone(&self, alloc: Global) -> Result<Parcel, NoMemory>
        ensures { IfOk result (λ p. p ≡ self.now) }
    {
        let octets = self.octets.try_clone(alloc)?;
        Ok(Parcel::of_parts(self.form, octets, self.seq, self.path, self.wrong_lan))
    }

    /// The parcel, borrowed. Does not allocate.
    pub fn view(&self) -> ParcelView<'_>
        ensures { result ≡ self.now }
    {
        ParcelView::of_parts(
            self.form,
            self.octets.octets(),
            self.seq,
            self.path,
            self.wrong_lan,
        )
    }

    /// The frame without what carries its number. Does not allocate.
    pub fn plain(&self) -> FrameView<'_>
        ensures { spelling (fields_of result) ≡ plain_of self.now }
    {
        self.view().plain()
    }

    /// The frame without what carries its number, in two pieces, of which the second is empty but for HSR. Does not allocate.
    pub fn plain_pieces(&self) -> (&[u8], &[u8])
        ensures plain { result.0.now ++ result.1.now ≡ plain_of self.now }
        ensures size { length result.0.now + length result.1.now ≤ 1524 }
    {
        let octets = self.octets.octets();
        match self.form {
            Form::Plain => (octets, &[]),
            Form::Prp => (&octets[..octets.len() - TRAILER_LEN], &[]),
            Form::Hsr => {
                let tag_at = self.octets.view().header_len() - ETHERTYPE_LEN;
                (&octets[..tag_at], &octets[tag_at + TAG_LEN..])
            }
        }
    }

    /// What routes read of it. Whether the destination is known as a node is for the caller to say: here it is not.
    pub fn header(&self) -> Header
        ensures { result ≡ header_of self.now }
    {
        self.view().header()
    }
}
