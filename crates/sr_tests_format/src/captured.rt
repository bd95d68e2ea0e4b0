//! What a Linux HSR node and a Linux PRP node sent (net/hsr of Linux 7.2, address 02:00:00:00:00:01), one frame of each length,
//! destination and type. Of the copies for both ports one is here: the other differs in the path, or in the LAN, alone.

use super::texts::Part::{Places, These, Zeros};
use super::texts::Text;

/// A frame of a ring: the addresses, the VLAN tag or nothing, the tag's size and number, the inner type and what follows it.
pub type Tagged = (&'static [u8], &'static [u8], u16, u16, Text);

/// A frame of a LAN: the addresses, what follows them up to the trailer, the trailer's size and number.
pub type Trailed = (&'static [u8], Text, u16, u16);

const NODE: &[u8] = b"\x02\x00\x00\x00\x00\x02\x02\x00\x00\x00\x00\x01";

const SUPERVISION: &[u8] = b"\x01\x15\x4e\x00\x01\x00\x02\x00\x00\x00\x00\x01";

const BROADCAST: &[u8] = b"\xff\xff\xff\xff\xff\xff\x02\x00\x00\x00\x00\x01";

const GROUP: &[u8] = b"\x01\x00\x5e\x00\x01\x05\x02\x00\x00\x00\x00\x01";

/// The frames of the HSR node.
pub const TAGGED: &[Tagged] = &[
    (NODE, &[], 52, 64511, &[These(b"\x08"), Zeros(47)]),
    (
        NODE,
        &[],
        53,
        64516,
        &[These(b"\x08\x00\x53\x51\x00\x2f"), Places(47)],
    ),
    (
        SUPERVISION,
        &[],
        52,
        64517,
        &[
            These(b"\x88\xfb\x00\x01\x7d\xff\x17\x06\x02\x00\x00\x00\x00\x01"),
            Zeros(34),
        ],
    ),
    (
        NODE,
        &[],
        66,
        64518,
        &[These(b"\x08\x00\x53\x51\x00\x3c"), Places(60)],
    ),
    (
        NODE,
        &[],
        106,
        64519,
        &[These(b"\x08\x00\x53\x51\x00\x64"), Places(100)],
    ),
    (
        NODE,
        &[],
        1006,
        64520,
        &[These(b"\x08\x00\x53\x51\x03\xe8"), Places(1000)],
    ),
    (
        NODE,
        &[],
        1500,
        64521,
        &[These(b"\x08\x00\x53\x51\x05\xd6"), Places(1494)],
    ),
    (
        BROADCAST,
        &[],
        52,
        64522,
        &[These(b"\x08\x00\x53\x51\x00\x01"), Places(46)],
    ),
    (
        GROUP,
        &[],
        52,
        64523,
        &[These(b"\x08\x00\x53\x51\x00\x02"), Places(46)],
    ),
    (
        NODE,
        b"\x81\x00\x00\x05",
        48,
        64526,
        &[These(b"\x08"), Zeros(43)],
    ),
    (
        NODE,
        b"\x81\x00\x00\x05",
        52,
        64528,
        &[These(b"\x08\x00\x53\x51\x00\x2e"), Places(46)],
    ),
    (
        NODE,
        b"\x81\x00\x00\x05",
        53,
        64529,
        &[These(b"\x08\x00\x53\x51\x00\x2f"), Places(47)],
    ),
    (
        NODE,
        b"\x81\x00\x00\x05",
        106,
        64530,
        &[These(b"\x08\x00\x53\x51\x00\x64"), Places(100)],
    ),
];

/// The frames of the PRP node.
pub const TRAILED: &[Trailed] = &[
    (NODE, &[These(b"\x08"), Zeros(47)], 52, 64511),
    (
        SUPERVISION,
        &[
            These(b"\x88\xfb\x00\x01\x7d\xff\x14\x06\x02\x00\x00\x00\x00\x01"),
            Zeros(34),
        ],
        52,
        64517,
    ),
    (
        NODE,
        &[These(b"\x08\x00\x53\x51\x00\x2f"), Places(47)],
        53,
        64518,
    ),
    (
        NODE,
        &[These(b"\x08\x00\x53\x51\x00\x3c"), Places(60)],
        66,
        64519,
    ),
    (
        NODE,
        &[These(b"\x08\x00\x53\x51\x00\x64"), Places(100)],
        106,
        64520,
    ),
    (
        NODE,
        &[These(b"\x08\x00\x53\x51\x03\xe8"), Places(1000)],
        1006,
        64521,
    ),
    (
        NODE,
        &[These(b"\x08\x00\x53\x51\x05\xd5"), Places(1493)],
        1499,
        64522,
    ),
    (
        NODE,
        &[These(b"\x08\x00\x53\x51\x05\xd6"), Places(1494)],
        1500,
        64523,
    ),
    (
        BROADCAST,
        &[These(b"\x08\x00\x53\x51\x00\x01"), Places(46)],
        52,
        64524,
    ),
    (
        GROUP,
        &[These(b"\x08\x00\x53\x51\x00\x02"), Places(46)],
        52,
        64525,
    ),
    (
        NODE,
        &[These(b"\x00\x2e\x53\x51\x00\x04"), Places(46)],
        52,
        64527,
    ),
    (
        NODE,
        &[These(b"\x89\x2f\x53\x51\x00\x05"), Places(46)],
        52,
        64528,
    ),
    (
        NODE,
        &[These(b"\x81\x00\x00\x05\x08"), Zeros(47)],
        52,
        64529,
    ),
    (
        NODE,
        &[
            These(b"\x81\x00\x00\x05\x08\x00\x53\x51\x00\x2f"),
            Places(47),
        ],
        53,
        64535,
    ),
    (
        NODE,
        &[
            These(b"\x81\x00\x00\x05\x08\x00\x53\x51\x00\x64"),
            Places(100),
        ],
        106,
        64536,
    ),
    (
        NODE,
        &[
            These(b"\x81\x00\x00\x05\x08\x00\x53\x51\x05\xd2"),
            Places(1490),
        ],
        1496,
        64537,
    ),
    (
        NODE,
        &[
            These(b"\x81\x00\x00\x05\x08\x00\x53\x51\x05\xd6"),
            Places(1494),
        ],
        1500,
        64538,
    ),
    (
        NODE,
        &[
            These(b"\x88\xa8\x00\x05\x08\x00\x53\x51\x00\x07"),
            Places(46),
        ],
        56,
        64540,
    ),
    (
        NODE,
        &[
            These(b"\x81\x00\x00\x05\x81\x00\x00\x06\x08\x00\x53\x51\x00\x08"),
            Places(46),
        ],
        56,
        64541,
    ),
];
