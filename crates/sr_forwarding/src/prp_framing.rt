//! Ports of a PRP network: frames have a trailer (IEC 62439-3 clause 4).

ghost use Rattle.std.specs.Prelude.{◌≡◌, ◌≢◌, ◌+◌, ◌≤◌, vec_len, vec_capacity, None, OnOk, IfErr, OnErr, IfSome, IfNone};
ghost use Rattle.sr_frame.specs.Frame.{IsFrame};
ghost use Rattle.sr_frame.specs.View.{fields_of};
ghost use Rattle.sr_forwarding.specs.Decoding.{IsTrailedParcel, HasNoTrailer, same_lan};
ghost use Rattle.sr_forwarding.specs.Encoding.{Grows, IsTrailedAnew, number_fault, or_no_memory};
ghost use Rattle.sr_forwarding.specs.Framings.{path_of};

use crate::framing::{append_as_it_is, unnumbered, whole_frame};
use crate::{Form, Framing, ParcelView, ReadFault};
use sr_frame::{FrameFault, FrameView, MAX_FRAME_LEN};
use sr_prp_trailer::{Lan, append_trailed, parted};

/// A port of a LAN of a PRP network.
#[derive(Clone, Copy, Debug)]
pub struct PrpFraming {
    /// The LAN.
    pub lan: Lan,
    /// The number of the network: 1 to 6 at a RedBox, whose LAN has frames with a trailer alone; 0 at a node of the
    /// network, where frames of nodes attached to one LAN come without.
    pub net: u8,
    ghost fits: { net ≤ 6 },
}

// The path of a frame of this LAN of this network.
fn path_of(lan: Lan, net: u8) -> u8
    requires { net ≤ 6 }
    ensures { result ≡ path_of lan net }
{
    match lan {
        Lan::A => 2 * net,
        Lan::B => 2 * net + 1,
    }
}

// Whether two LANs are one.
fn is_same(one: Lan, other: Lan) -> bool
    ensures { result ≡ same_lan one other }
{
    one == other
}

// A frame with a trailer, read in place.
// speed: D-node-inlined
#[inline(always)]
fn read_trailed<'a>(
    lan: Lan,
    net: u8,
    octets: &'a [u8],
    frame: &FrameView<'a>,
) -> Option<ParcelView<'a>>
    requires net { net ≤ 6 }
    requires frame { IsFrame octets.now (fields_of frame.now) }
    ensures some { IfSome result (λ p. IsTrailedParcel lan net octets.entry.now p) }
    ensures none { IfNone result (HasNoTrailer octets.entry.now) }
{
    let (_, trailer) = parted(frame)?;
    Some(ParcelView::of_parts(
        Form::Prp,
        octets,
        Some(trailer.seq),
        path_of(lan, net),
        !is_same(trailer.lan, lan),
    ))
}

// Appends the plain form of a parcel with a trailer of this LAN behind it.
fn write_trailed(out: &mut Vec<u8>, parcel: &ParcelView<'_>, lan: Lan) -> Result<(), ReadFault>
    ensures written { OnOk result
        (Grows (IsTrailedAnew lan parcel.now) out.old.items out.new.items) }
    ensures ok { OnOk result (number_fault parcel.now parcel.now.seq ≡ None) }
    ensures err { IfErr result (λ e. e ≡ or_no_memory (number_fault parcel.now parcel.now.seq)) }
    ensures same { OnErr result (out.new.items ≡ out.old.items) }
    ensures room { vec_len out.old + MAX_FRAME_LEN ≤ vec_capacity out.old
        → result ≢ Err ReadFault.NoMemory }
    ensures capacity { vec_capacity out.old ≤ vec_capacity out.new }
{
    let Some(seq) = parcel.seq() else {
        return Err(ReadFault::Untagged);
    };
    match append_trailed(out, &parcel.plain(), seq, lan) {
        Ok(()) => Ok(()),
        Err(FrameFault::TooLong) => Err(ReadFault::TooLong),
        Err(_) => Err(ReadFault::NoMemory),
    }
}

impl Framing for PrpFraming {
    ghost use Rattle.sr_forwarding.specs.Framings.{Trailed};

    ghost meaning = { λ f. Trailed f.lan f.net };

    // speed: D-node-inlined
    #[inline(always)]
    fn read<'a>(&self, octets: &'a [u8]) -> Result<ParcelView<'a>, ReadFault> {
        let frame = whole_frame(octets, MAX_FRAME_LEN)?;
        match read_trailed(self.lan, self.net, octets, &frame) {
            Some(parcel) => Ok(parcel),
            None if self.net == 0 => Ok(unnumbered(octets)),
            None => Err(ReadFault::Untagged),
        }
    }

    fn write(&self, out: &mut Vec<u8>, parcel: &ParcelView<'_>) -> Result<(), ReadFault> {
        match parcel.form() {
            Form::Plain | Form::Hsr => write_trailed(out, parcel, self.lan),
            Form::Prp => append_as_it_is(out, parcel),
        }
    }
}
