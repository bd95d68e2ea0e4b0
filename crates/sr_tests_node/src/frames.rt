//! The frames that the tests send.

use sr_frame::Mac;

/// The node.
pub const OWN: Mac = Mac([2, 0, 0, 0, 0, 1]);

/// Another node.
pub const OTHER: Mac = Mac([2, 0, 0, 0, 0, 2]);

/// A third node.
pub const THIRD: Mac = Mac([2, 0, 0, 0, 0, 3]);

/// All nodes.
pub const EVERYONE: Mac = Mac([0xff; 6]);

/// Where supervision goes.
pub const SUPERVISION: Mac = Mac([0x01, 0x15, 0x4e, 0x00, 0x01, 0x00]);

/// The type of IPv4.
pub const IP: [u8; 2] = [0x08, 0x00];

/// The type of supervision in a PRP network.
pub const PRP: [u8; 2] = [0x88, 0xfb];

/// The type of a frame with an HSR tag.
pub const HSR: [u8; 2] = [0x89, 0x2f];

/// The type of a VLAN tag.
pub const VLAN: [u8; 2] = [0x81, 0x00];

/// A frame of 66 octets, by what differs from test to test.
#[derive(Clone, Copy)]
pub enum Sent {
    /// The other node's frame for the node, under this number: its copy in LAN A.
    InA(u16),
    /// Its copy in LAN B.
    InB(u16),
    /// The other node's frame to this destination, of this type, in LAN A. Its size is another, so it has no number.
    NoNumber(Mac, [u8; 2]),
    /// One source of many sends the node a frame under a number, in LAN A.
    OfSource(u16),
    /// One source of many sends the node a frame of another size, which has no number.
    OfSourceNoNumber(u16),
    /// The node's own frame to all nodes, in LAN A.
    Own,
    /// A ring frame: destination, source, path and number.
    Tagged(Mac, Mac, u8, u16),
    /// The other node's ring frame to the node, of this type behind its tag.
    TaggedAround([u8; 2]),
    /// The other node's supervision frame in a ring, with this number.
    Supervision(u16),
    /// A supervision frame in a ring that speaks of this node, for which the other node stands; with this size.
    Announcing(Mac, u8),
}

/// 46 zeros behind the addresses and the type, and a trailer with this number, LAN id and size.
fn frame(dst: Mac, src: Mac, ethertype: [u8; 2], seq: u16, lan: u8, size: u8) -> [u8; 66] {
    let (Mac(d), Mac(s)) = (dst, src);
    let [first, last] = ethertype;
    let [high, low] = seq.to_be_bytes();
    [
        d[0], d[1], d[2], d[3], d[4], d[5], s[0], s[1], s[2], s[3], s[4], s[5], first, last, 0, 0,
        0, 0, 0, 0, 0, 0, 0, 0, 0, 0, 0, 0, 0, 0, 0, 0, 0, 0, 0, 0, 0, 0, 0, 0, 0, 0, 0, 0, 0, 0,
        0, 0, 0, 0, 0, 0, 0, 0, 0, 0, 0, 0, 0, 0, high, low, lan, size, 0x88, 0xfb,
    ]
}

/// A tag with this path and number behind the addresses, the type of IPv4, and 46 zeros.
fn tagged(dst: Mac, src: Mac, path: u8, seq: u16) -> [u8; 66] {
    let mut octets = frame(dst, src, HSR, 0, 0, 0);
    let [high, low] = seq.to_be_bytes();
    octets[14..20].copy_from_slice(&[path << 4, 0x34, high, low, 0x08, 0x00]);
    octets[64..66].copy_from_slice(&[0, 0]);
    octets
}

/// Supervision behind a tag with this number.
fn supervision(seq: u16) -> [u8; 66] {
    let mut octets = tagged(SUPERVISION, OTHER, 0, seq);
    octets[18..20].copy_from_slice(&PRP);
    octets
}

/// Supervision of a node whose RedBox is the other node.
fn announcing(mac: Mac, size: u8) -> [u8; 66] {
    let Mac(m) = mac;
    let mut octets = supervision(64511);
    octets[15] = size;
    octets[20..40].copy_from_slice(&[
        0, 1, 0x7d, 0xff, 0x17, 6, m[0], m[1], m[2], m[3], m[4], m[5], 0x1e, 6, 2, 0, 0, 0, 0, 2,
    ]);
    octets
}

/// An address of one source of many.
fn source(number: u16) -> Mac {
    let [high, low] = number.to_be_bytes();
    Mac([6, 0, 0, 0, high, low])
}

/// The octets of a frame. 0x34 is the size of 52 octets behind the addresses, 0x35 is wrong.
pub fn octets_of(sent: Sent) -> [u8; 66] {
    match sent {
        Sent::InA(seq) => frame(OWN, OTHER, IP, seq, 0xa0, 0x34),
        Sent::InB(seq) => frame(OWN, OTHER, IP, seq, 0xb0, 0x34),
        Sent::NoNumber(dst, ethertype) => frame(dst, OTHER, ethertype, 0, 0xa0, 0x35),
        Sent::OfSource(number) => frame(OWN, source(number), IP, 5, 0xa0, 0x34),
        Sent::OfSourceNoNumber(number) => frame(OWN, source(number), IP, 5, 0xa0, 0x35),
        Sent::Own => frame(EVERYONE, OWN, IP, 7, 0xa0, 0x34),
        Sent::Tagged(dst, src, path, seq) => tagged(dst, src, path, seq),
        Sent::TaggedAround(ethertype) => {
            let mut octets = tagged(OWN, OTHER, 0, 0);
            octets[18..20].copy_from_slice(&ethertype);
            octets
        }
        Sent::Supervision(seq) => supervision(seq),
        Sent::Announcing(mac, size) => announcing(mac, size),
    }
}

/// The frame without its trailer.
pub fn plain_form(octets: &[u8; 66]) -> &[u8] {
    &octets[..60]
}

/// The ring frame without its tag.
pub fn untagged_form(octets: [u8; 66]) -> [u8; 60] {
    let mut plain = [0u8; 60];
    plain[..12].copy_from_slice(&octets[..12]);
    plain[12..].copy_from_slice(&octets[18..]);
    plain
}

/// The life check of the node with its two numbers, in the LAN whose id stands in this octet.
pub fn life_check(seq: u16, life_seq: u16, lan: u8) -> [u8; 66] {
    let mut octets = frame(SUPERVISION, OWN, PRP, seq, lan, 0x34);
    let [high, low] = life_seq.to_be_bytes();
    octets[14..26].copy_from_slice(&[0, 1, high, low, 0x14, 6, 2, 0, 0, 0, 0, 1]);
    octets
}
