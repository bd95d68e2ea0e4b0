//! The frames that the tests send.

use sr_frame::Mac;

/// The type of the frames (IEEE Std 802 local experimental).
pub const ETHERTYPE: u16 = 0x88b5;

/// Where a frame goes.
#[derive(Clone, Copy)]
pub enum To {
    /// All nodes.
    All,
    /// One node.
    Node(u8),
}

/// The address of a node.
pub fn mac_of(node: u8) -> Mac {
    Mac([2, 0, 0, 0, 0, node])
}

/// The address to which a frame goes.
pub fn destination(to: To) -> Mac {
    match to {
        To::All => Mac([0xff; 6]),
        To::Node(node) => mac_of(node),
    }
}

/// A node's frame of one octet behind the type, as it is handed up: with zeros up to the least size.
pub fn octets_of(from: u8, to: To) -> [u8; 60] {
    let (Mac(d), Mac(s)) = (destination(to), mac_of(from));
    [
        d[0], d[1], d[2], d[3], d[4], d[5], s[0], s[1], s[2], s[3], s[4], s[5], 0x88, 0xb5, 1, 0,
        0, 0, 0, 0, 0, 0, 0, 0, 0, 0, 0, 0, 0, 0, 0, 0, 0, 0, 0, 0, 0, 0, 0, 0, 0, 0, 0, 0, 0, 0,
        0, 0, 0, 0, 0, 0, 0, 0, 0, 0, 0, 0, 0, 0,
    ]
}

/// A ring frame of one source of many to none of the nodes.
pub fn of_source(number: u16) -> [u8; 66] {
    let [high, low] = number.to_be_bytes();
    [
        2, 0, 0, 0, 1, 0, 6, 0, 0, 0, high, low, 0x89, 0x2f, 0, 0x34, 0, 0, 0x88, 0xb5, 0, 0, 0, 0,
        0, 0, 0, 0, 0, 0, 0, 0, 0, 0, 0, 0, 0, 0, 0, 0, 0, 0, 0, 0, 0, 0, 0, 0, 0, 0, 0, 0, 0, 0,
        0, 0, 0, 0, 0, 0, 0, 0, 0, 0, 0, 0,
    ]
}
