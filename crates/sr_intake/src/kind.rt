//! What a packet is in a redundant network.

ghost use Rattle.std.specs.Prelude.{◌≡◌, None, IfOk, IfErr, IfSome, IfNone};
ghost use Rattle.sr_capture.specs.Records.{Captured, Shows};
ghost use Rattle.sr_forwarding.specs.Decoding.{IsRead, IsUnread};
ghost use Rattle.sr_intake.specs.Kinds.{capture_framing, IsNumberedAs, ends_as_trailer, IsParcelKind, IsOctetsKind, IsKind, mirrored};

use sr_capture::{Extent, MAX_KEPT, Packet};
use sr_forwarding::{Framing, HsrFraming, ParcelView, PrpFraming, ReadFault};
use sr_frame::Mac;
use sr_prp_trailer::Lan;
use sr_sequence::Seq;

/// How frames of a network have their numbers.
#[derive(Clone, Copy, Debug, PartialEq, Eq)]
pub enum Network {
    /// By a trailer, in a PRP network (IEC 62439-3 clause 4).
    Prp,
    /// By a tag, in an HSR ring (IEC 62439-3 clause 5).
    Hsr,
}

/// What a numbered frame says.
#[derive(Clone, Copy, Debug, PartialEq, Eq)]
pub struct Numbered {
    /// Its source.
    pub src: Mac,
    /// Its number.
    pub seq: Seq,
    /// Whether its trailer names the other LAN.
    pub is_astray: bool,
    /// The path of its tag (IEC 62439-3 clause 5).
    pub path: u8,
}

/// What a packet is.
#[derive(Clone, Copy, Debug, PartialEq, Eq)]
pub enum Kind {
    /// A frame with a number.
    Numbered(Numbered),
    /// A frame without a number.
    Plain,
    /// A frame that ends as one with a trailer, whose trailer is none for its id or size.
    Misfit,
    /// The recorder cut it.
    Cut,
    /// It is longer than a frame.
    Long,
    /// It has no octets.
    Empty,
}

/// What a parcel with a number says. None: it has none.
fn number_in(parcel: &ParcelView<'_>) -> Option<Numbered>
    ensures says { IfSome result (λ numbered. IsNumberedAs parcel.now numbered) }
    ensures none { IfNone result (parcel.now.seq ≡ None) }
{
    let seq = parcel.seq()?;
    Some(Numbered {
        src: parcel.header().src,
        seq,
        is_astray: parcel.wrong_lan(),
        path: parcel.path(),
    })
}

/// What the framing of a LAN answers to octets.
fn read_at<'a>(network: Network, lan: Lan, octets: &'a [u8]) -> Result<ParcelView<'a>, ReadFault>
    ensures ok { IfOk result (λ p. IsRead (capture_framing network lan) octets.now p) }
    ensures err { IfErr result (λ e. IsUnread (capture_framing network lan) octets.now e) }
{
    match network {
        Network::Prp => PrpFraming { lan, net: 0 }.read(octets),
        Network::Hsr => HsrFraming { path: 0 }.read(octets),
    }
}

/// Whether octets end as a trailer does.
fn ends_as_trailer(octets: &[u8]) -> bool
    ensures { result ≡ ends_as_trailer octets.now }
{
    octets.ends_with(&[0x88, 0xFB])
}

/// What a frame is.
fn parcel_kind(octets: &[u8], parcel: &ParcelView<'_>) -> Kind
    ensures { IsParcelKind parcel.now octets.now result }
{
    match number_in(parcel) {
        Some(numbered) => Kind::Numbered(numbered),
        None if ends_as_trailer(octets) => Kind::Misfit,
        None => Kind::Plain,
    }
}

/// What the octets of a frame are.
fn frame_kind(network: Network, lan: Lan, octets: &[u8]) -> Kind
    ensures { IsOctetsKind network lan octets.now result }
{
    match read_at(network, lan, octets) {
        Ok(parcel) => parcel_kind(octets, &parcel),
        Err(_) => Kind::Plain,
    }
}

/// What a packet of the capture of a LAN is: what it is to an audit.
pub fn kind_of(network: Network, lan: Lan, packet: &Packet) -> Kind
    ensures { (captured : Captured) → Shows packet.now captured
        → IsKind network lan captured result }
{
    if packet.extent == Extent::Cut {
        Kind::Cut
    } else if packet.len > MAX_KEPT as u64 {
        Kind::Long
    } else if packet.len == 0 {
        Kind::Empty
    } else {
        frame_kind(network, lan, packet.octets.as_slice())
    }
}

/// What a packet of a mirror port is, which sees both LANs, and the LAN for which it counts, where it was read as one of LAN A: a numbered
/// frame names its LAN, by the id of its trailer or the lowest bit of the path of its tag. What has no number counts for LAN A.
pub fn mirrored(network: Network, kind: Kind) -> (Lan, Kind)
    ensures { result ≡ mirrored network kind }
{
    let Kind::Numbered(numbered) = kind else {
        return (Lan::A, kind);
    };
    let is_b = match network {
        Network::Prp => numbered.is_astray,
        Network::Hsr => numbered.path % 2 == 1,
    };
    let lan = if is_b { Lan::B } else { Lan::A };
    let kind = Kind::Numbered(Numbered {
        is_astray: false,
        ..numbered
    });
    (lan, kind)
}
