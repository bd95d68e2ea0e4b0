//! The frames that come in, octet by octet.

use sr_forwarding::{Framing, HsrFraming, Parcel, PrpFraming, ReadFault};
use sr_frame::{Mac, Port};
use sr_prp_trailer::Lan;
use std::alloc::Global;

/// The node.
pub const OWN: Mac = Mac([2, 0, 0, 0, 0, 1]);

/// Another node.
pub const OTHER: Mac = Mac([2, 0, 0, 0, 0, 2]);

/// All nodes.
pub const EVERYONE: Mac = Mac([0xff; 6]);

/// The other node's frame for the node: addresses, the type of IPv4 and 46 zeros.
pub const FOR_OWN: [u8; 60] = [
    2, 0, 0, 0, 0, 1, 2, 0, 0, 0, 0, 2, 8, 0, 0, 0, 0, 0, 0, 0, 0, 0, 0, 0, 0, 0, 0, 0, 0, 0, 0, 0,
    0, 0, 0, 0, 0, 0, 0, 0, 0, 0, 0, 0, 0, 0, 0, 0, 0, 0, 0, 0, 0, 0, 0, 0, 0, 0, 0, 0,
];

// That frame in a LAN of a PRP network, with the trailer of this number. 0x34 is the size of 52 octets behind the addresses.
fn trailed(lan: Lan, seq: u16) -> [u8; 66] {
    let mut octets = [0; 66];
    octets[..60].copy_from_slice(&FOR_OWN);
    let [high, low] = seq.to_be_bytes();
    let mark = match lan {
        Lan::A => 0xa0,
        Lan::B => 0xb0,
    };
    octets[60..].copy_from_slice(&[high, low, mark, 0x34, 0x88, 0xfb]);
    octets
}

/// The parcel of that frame at the port of this LAN.
pub fn in_lan(alloc: Global, lan: Lan, seq: u16) -> Result<Parcel, ReadFault> {
    PrpFraming { lan, net: 0 }.decode(alloc, &trailed(lan, seq))
}

/// The other node's frame in a ring, with the tag of path 0 and number 0. 0x34 is the size of 52 octets from the tag on.
const IN_RING: [u8; 66] = [
    0, 0, 0, 0, 0, 0, 2, 0, 0, 0, 0, 2, 0x89, 0x2f, 0, 0x34, 0, 0, 8, 0, 0, 0, 0, 0, 0, 0, 0, 0, 0,
    0, 0, 0, 0, 0, 0, 0, 0, 0, 0, 0, 0, 0, 0, 0, 0, 0, 0, 0, 0, 0, 0, 0, 0, 0, 0, 0, 0, 0, 0, 0, 0,
    0, 0, 0, 0, 0,
];

// That frame for this address, with the tag of this path and number.
fn tagged(dst: Mac, path: u8, seq: u16) -> [u8; 66] {
    let mut octets = IN_RING;
    let Mac(address) = dst;
    octets[..6].copy_from_slice(&address);
    let [high, low] = seq.to_be_bytes();
    octets[14..18].copy_from_slice(&[path << 4, 0x34, high, low]);
    octets
}

/// The parcel of that frame at a port of the ring, on path 0 at A and 1 at B.
pub fn in_ring(alloc: Global, port: Port, dst: Mac, seq: u16) -> Result<Parcel, ReadFault> {
    if port == Port::B {
        HsrFraming { path: 1 }.decode(alloc, &tagged(dst, 1, seq))
    } else {
        HsrFraming { path: 0 }.decode(alloc, &tagged(dst, 0, seq))
    }
}

// The addresses at the front of a frame.
fn addresses_of(src: Mac, dst: Mac) -> [u8; 12] {
    let Mac([d0, d1, d2, d3, d4, d5]) = dst;
    let Mac([s0, s1, s2, s3, s4, s5]) = src;
    [d0, d1, d2, d3, d4, d5, s0, s1, s2, s3, s4, s5]
}

/// A frame of these addresses, with the tag of this path and number, which ends with zeros. 0x34 is the size of 52 octets from the
/// tag on.
pub fn tagged_from(src: Mac, dst: Mac, path: u8, seq: u16) -> [u8; 66] {
    let [high, low] = seq.to_be_bytes();
    let mut octets = [0; 66];
    octets[..12].copy_from_slice(&addresses_of(src, dst));
    octets[12..20].copy_from_slice(&[0x89, 0x2f, path << 4, 0x34, high, low, 8, 0]);
    octets
}

/// A frame of these addresses without a tag, which ends with zeros.
pub fn plain_from(src: Mac, dst: Mac) -> [u8; 60] {
    let mut octets = [0; 60];
    octets[..12].copy_from_slice(&addresses_of(src, dst));
    octets[12] = 8;
    octets
}
