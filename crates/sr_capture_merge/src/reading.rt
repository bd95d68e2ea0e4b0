//! What a packet of a capture is to a merge.

ghost use Rattle.std.specs.Prelude.{◌≡◌, ◌++◌, IfOk, IfErr};
ghost use Rattle.sr_frame.specs.Frame.{HasFrameLength, least_len};
ghost use Rattle.sr_forwarding.specs.Octets.{plain_in};
ghost use Rattle.sr_forwarding.specs.Decoding.{IsRead, IsUnread};
ghost use Rattle.sr_merge.specs.Merging.{read_of};
ghost use Rattle.sr_capture_merge.specs.Reading.{lan_of, framing_by, unnumbered, spelled, frame_read, IsPacketRead};

use crate::plan::{Plan, Spelling};
use sr_audit::Side;
use sr_capture_audit::Network;
use sr_forwarding::{Form, Framing, HsrFraming, ParcelView, PrpFraming, ReadFault};
use sr_frame::view;
use sr_hsr_tag::TAG_LEN;
use sr_merge::{Came, FrameId, Packet};
use sr_prp_trailer::{Lan, TRAILER_LEN};

/// The octets of a type.
const ETHERTYPE_LEN: usize = 2;

/// How many octets stand before the payload of a frame: 14, or 18 with a VLAN tag.
fn header_len(octets: &[u8]) -> usize
    requires { HasFrameLength octets.now }
    ensures { result ≡ least_len octets.now }
{
    view(octets).unwrap().header_len()
}

/// The octets of a frame without what carries its number, in two pieces, of which the second is empty but for HSR.
fn plain_pieces<'a>(parcel: &ParcelView<'a>) -> (&'a [u8], &'a [u8])
    ensures { result.0.now ++ result.1.now ≡ plain_in parcel.now.form parcel.now.octets }
{
    let octets = parcel.octets();
    match parcel.form() {
        Form::Plain => (octets, &[]),
        Form::Prp => (&octets[..octets.len().saturating_sub(TRAILER_LEN)], &[]),
        Form::Hsr => {
            let tag_at = header_len(octets).saturating_sub(ETHERTYPE_LEN);
            let front = octets.get(..tag_at).unwrap_or(octets);
            let back = octets.get(tag_at + TAG_LEN..).unwrap_or(&[]);
            (front, back)
        }
    }
}

/// The LAN whose trailers are expected at a side.
fn lan_of(side: Side) -> Lan
    ensures { result ≡ lan_of side }
{
    match side {
        Side::A => Lan::A,
        Side::B => Lan::B,
    }
}

/// What the framing of a side answers to octets.
fn read_at<'a>(network: Network, side: Side, octets: &'a [u8]) -> Result<ParcelView<'a>, ReadFault>
    ensures ok { IfOk result (λ p. IsRead (framing_by network side) octets.now p) }
    ensures err { IfErr result (λ e. IsUnread (framing_by network side) octets.now e) }
{
    match network {
        Network::Prp => PrpFraming {
            lan: lan_of(side),
            net: 0,
        }
        .read(octets),
        Network::Hsr => HsrFraming { path: 0 }.read(octets),
    }
}

/// A packet without a number.
fn unnumbered(side: Side, number: u64, time: u64, octets: &[u8]) -> Packet<'_>
    ensures { read_of result ≡ unnumbered side number time octets.now }
{
    Packet {
        came: Came {
            side,
            time,
            frame: None,
        },
        number,
        is_astray: false,
        front: octets,
        back: &[],
    }
}

/// The octets that are written of a frame, in two pieces.
fn spelled<'a>(
    spelling: Spelling,
    octets: &'a [u8],
    parcel: &ParcelView<'a>,
) -> (&'a [u8], &'a [u8])
    ensures { result.0.now ++ result.1.now ≡ spelled spelling parcel.now octets.now }
{
    match spelling {
        Spelling::Plain => plain_pieces(parcel),
        Spelling::Kept => (octets, &[]),
    }
}

/// A frame, which has a number or none.
fn frame_of<'a>(
    spelling: Spelling,
    side: Side,
    number: u64,
    time: u64,
    octets: &'a [u8],
    parcel: &ParcelView<'a>,
) -> Packet<'a>
    ensures { read_of result
        ≡ frame_read spelling side number time octets.now parcel.now parcel.now.seq }
{
    let Some(seq) = parcel.seq() else {
        return unnumbered(side, number, time, octets);
    };
    let src = parcel.header().src;
    let (front, back) = spelled(spelling, octets, parcel);
    Packet {
        came: Came {
            side,
            time,
            frame: Some(FrameId { src, seq }),
        },
        number,
        is_astray: parcel.wrong_lan(),
        front,
        back,
    }
}

/// What the octets of a packet are that came in at a side.
pub(crate) fn packet_of<'a>(
    plan: &Plan,
    side: Side,
    number: u64,
    time: u64,
    octets: &'a [u8],
) -> Packet<'a>
    ensures { IsPacketRead plan.now side number time octets.now (read_of result) }
{
    match read_at(plan.network, side, octets) {
        Ok(parcel) => frame_of(plan.spelling, side, number, time, octets, &parcel),
        Err(_) => unnumbered(side, number, time, octets),
    }
}
