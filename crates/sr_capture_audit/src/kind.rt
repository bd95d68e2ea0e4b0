//! What a packet is to an audit.

ghost use Rattle.std.specs.Prelude.{◌≡◌, None, IfOk, IfErr, IfSome, IfNone};
ghost use Rattle.sr_supervision.specs.Supervised.{life_type};
ghost use Rattle.sr_forwarding.specs.Decoding.{IsRead, IsUnread};
ghost use Rattle.sr_forwarding.specs.Parcels.{plain_of};
ghost use Rattle.sr_capture.specs.Records.{Captured, Shows};
ghost use Rattle.sr_capture_audit.specs.Kinds.{expected_lan, tap_framing, names_b, side_if, is_group_address, IsSignIn, IsNumberedAs, ends_as_trailer, IsParcelKind, IsOctetsKind, IsKind};

use crate::network::{Network, Tap};
use sr_audit::Side;
use sr_capture::{Extent, MAX_KEPT, Packet};
use sr_forwarding::{Framing, HsrFraming, ParcelView, PrpFraming, ReadFault};
use sr_frame::Mac;
use sr_prp_trailer::Lan;
use sr_sequence::Seq;
use sr_supervision::{Life, read};

/// A sign of life: the address that it is for, the type of its first TLV, and the RedBox that the address stands behind.
#[derive(Clone, Copy)]
pub(crate) struct Sign {
    pub mac: Mac,
    pub kind: u8,
    pub redbox: Option<Mac>,
}

/// What a numbered frame says.
#[derive(Clone, Copy)]
pub(crate) struct Numbered {
    /// Its source.
    pub src: Mac,
    /// The address that it was sent to.
    pub dst: Mac,
    /// Its number.
    pub seq: Seq,
    /// The side where it came in.
    pub side: Side,
    /// Whether it was sent to a group.
    pub to_group: bool,
    /// Whether its trailer names the other LAN.
    pub is_astray: bool,
    /// The sign of life that it is, if it is one.
    pub sign: Option<Sign>,
}

/// What a packet is.
#[derive(Clone, Copy)]
pub(crate) enum Kind {
    /// A frame with a number.
    Numbered(Numbered),
    /// A frame without a number.
    Plain,
    /// A frame that ends as one with a trailer, whose trailer is none for its id or size.
    Misfit,
    /// The recorder cut it.
    Cut,
    /// It is longer than a frame.
    Long,
    /// It has no octets.
    Empty,
}

/// The type of a first TLV.
fn type_of(life: Life) -> u8
    ensures { result ≡ life_type life }
{
    match life {
        Life::PrpDiscard => 20,
        Life::PrpAccept => 21,
        Life::Announce => 22,
        Life::Hsr => 23,
    }
}

/// The sign of life that a parcel is, if it is one that can be read.
fn sign_of(parcel: &ParcelView<'_>) -> Option<Sign>
    ensures { IsSignIn (plain_of parcel.now) result }
{
    match read(&parcel.plain()) {
        Ok(supervision) => Some(Sign {
            mac: supervision.mac,
            kind: type_of(supervision.life),
            redbox: supervision.redbox,
        }),
        Err(_) => None,
    }
}

/// The side that a frame itself names: by the LAN of its trailer, which was read as one of LAN A, or by the lowest bit of the path of
/// its tag.
fn named_side(network: Network, parcel: &ParcelView<'_>) -> Side
    ensures { result ≡ side_if (names_b network parcel.now) }
{
    let is_b = match network {
        Network::Prp => parcel.wrong_lan(),
        Network::Hsr => parcel.path() % 2 == 1,
    };
    if is_b { Side::B } else { Side::A }
}

/// Whether an address is that of a group.
fn is_group_address(mac: Mac) -> bool
    ensures { result ≡ is_group_address mac }
{
    mac.0[0] % 2 == 1
}

/// What a parcel with a number says. None: it has none.
fn number_in(network: Network, tap: Tap, parcel: &ParcelView<'_>) -> Option<Numbered>
    ensures says { IfSome result (λ numbered. IsNumberedAs network tap parcel.now numbered) }
    ensures none { IfNone result (parcel.now.seq ≡ None) }
{
    let seq = parcel.seq()?;
    let header = parcel.header();
    let sign = if header.supervision {
        sign_of(parcel)
    } else {
        None
    };
    let (side, is_astray) = match tap {
        Tap::Side(side) => (side, parcel.wrong_lan()),
        Tap::Mirror => (named_side(network, parcel), false),
    };
    Some(Numbered {
        src: header.src,
        dst: header.dst,
        seq,
        side,
        to_group: is_group_address(header.dst),
        is_astray,
        sign,
    })
}

/// The LAN whose trailers are expected in a capture. At a mirror port all are read as those of LAN A, and those of LAN B say so.
fn lan_of(tap: Tap) -> Lan
    ensures { result ≡ expected_lan tap }
{
    match tap {
        Tap::Side(Side::B) => Lan::B,
        Tap::Side(Side::A) | Tap::Mirror => Lan::A,
    }
}

/// What the framing of a capture answers to octets.
pub(crate) fn read_at<'a>(
    network: Network,
    tap: Tap,
    octets: &'a [u8],
) -> Result<ParcelView<'a>, ReadFault>
    ensures ok { IfOk result (λ p. IsRead (tap_framing network tap) octets.now p) }
    ensures err { IfErr result (λ e. IsUnread (tap_framing network tap) octets.now e) }
{
    match network {
        Network::Prp => PrpFraming {
            lan: lan_of(tap),
            net: 0,
        }
        .read(octets),
        Network::Hsr => HsrFraming { path: 0 }.read(octets),
    }
}

/// Whether octets end as a trailer does.
pub(crate) fn ends_as_trailer(octets: &[u8]) -> bool
    ensures { result ≡ ends_as_trailer octets.now }
{
    octets.ends_with(&[0x88, 0xFB])
}

/// What a frame is in a capture.
fn parcel_kind(network: Network, tap: Tap, octets: &[u8], parcel: &ParcelView<'_>) -> Kind
    ensures { IsParcelKind network tap parcel.now octets.now result }
{
    match number_in(network, tap, parcel) {
        Some(numbered) => Kind::Numbered(numbered),
        None if ends_as_trailer(octets) => Kind::Misfit,
        None => Kind::Plain,
    }
}

/// What the octets of a frame are in a capture.
fn frame_kind(network: Network, tap: Tap, octets: &[u8]) -> Kind
    ensures { IsOctetsKind network tap octets.now result }
{
    match read_at(network, tap, octets) {
        Ok(parcel) => parcel_kind(network, tap, octets, &parcel),
        Err(_) => Kind::Plain,
    }
}

/// What a packet is in a capture.
pub(crate) fn kind_of(network: Network, tap: Tap, packet: &Packet) -> Kind
    ensures { (captured : Captured) → Shows packet.now captured
        → IsKind network tap captured result }
{
    if packet.extent == Extent::Cut {
        Kind::Cut
    } else if packet.len > MAX_KEPT as u64 {
        Kind::Long
    } else if packet.len == 0 {
        Kind::Empty
    } else {
        frame_kind(network, tap, packet.octets.as_slice())
    }
}
