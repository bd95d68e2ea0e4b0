//! Trailers of PRP.

use super::steps::{Step, expect_steps};
use super::texts::Part::{Counted, These, Zeros};
use super::texts::Text;
use sr_frame::Mac;
use sr_prp_trailer::Lan;
use sr_supervision::Life;

/// Destination, source and type of the frames that a Linux PRP node sent.
const PLAIN: &[u8] = &[2, 0, 0, 0, 0, 2, 2, 0, 0, 0, 0, 1, 8, 0];

/// A frame in VLAN 5.
const IN_VLAN: &[u8] = &[2, 0, 0, 0, 0, 2, 2, 0, 0, 0, 0, 1, 0x81, 0, 0, 5, 8, 0];

/// A VLAN tag below the VLAN tag, which is payload.
const IN_TWO_VLANS: &[u8] = &[
    2, 0, 0, 0, 0, 2, 2, 0, 0, 0, 0, 1, 0x81, 0, 0, 5, 0x81, 0, 0, 6, 8, 0,
];

/// The frames of that node without their trailers.
const SHORT: Text = &[These(PLAIN), Counted(0x1c)];

const LONGER: Text = &[These(PLAIN), Counted(0x2f)];

const FULL: Text = &[These(PLAIN), Counted(1494)];

const SHORT_IN_VLAN: Text = &[These(IN_VLAN), Counted(0x1c)];

const LONGER_IN_VLAN: Text = &[These(IN_VLAN), Counted(0x2f)];

const FULL_IN_VLAN: Text = &[These(IN_VLAN), Counted(1494)];

const SHORT_IN_TWO_VLANS: Text = &[These(IN_TWO_VLANS), Counted(0x2e)];

/// The trailers of these frames.
const OF_SHORT: Text = &[These(&[0xfc, 2, 0xa0, 0x34, 0x88, 0xfb])];

const OF_LONGER: Text = &[These(&[0xfc, 6, 0xb0, 0x35, 0x88, 0xfb])];

const OF_FULL: Text = &[These(&[0xfc, 0xb, 0xb5, 0xdc, 0x88, 0xfb])];

const OF_SHORT_IN_VLAN: Text = &[These(&[0xfc, 0x12, 0xa0, 0x34, 0x88, 0xfb])];

const OF_LONGER_IN_VLAN: Text = &[These(&[0xfc, 0x17, 0xb0, 0x35, 0x88, 0xfb])];

const OF_FULL_IN_VLAN: Text = &[These(&[0xfc, 0x1a, 0xa5, 0xdc, 0x88, 0xfb])];

const OF_SHORT_IN_TWO_VLANS: Text = &[These(&[0xfc, 0x1d, 0xa0, 0x38, 0x88, 0xfb])];

const A: Lan = Lan::A;

const B: Lan = Lan::B;

// What the Linux node wrote behind each frame is read as that.
const CAPTURED: &[Step] = &[
    Step::Trailer(SHORT, OF_SHORT, Some((0xfc02, A, 0x34))),
    Step::Trailer(LONGER, OF_LONGER, Some((0xfc06, B, 0x35))),
    Step::Trailer(FULL, OF_FULL, Some((0xfc0b, B, 0x5dc))),
    Step::Trailer(SHORT_IN_VLAN, OF_SHORT_IN_VLAN, Some((0xfc12, A, 0x34))),
    Step::Trailer(LONGER_IN_VLAN, OF_LONGER_IN_VLAN, Some((0xfc17, B, 0x35))),
    Step::Trailer(FULL_IN_VLAN, OF_FULL_IN_VLAN, Some((0xfc1a, A, 0x5dc))),
    Step::Trailer(
        SHORT_IN_TWO_VLANS,
        OF_SHORT_IN_TWO_VLANS,
        Some((0xfc1d, A, 0x38)),
    ),
];

#[test]
fn captured_frames_are_read(rt: HostRuntime) {
    expect_steps(&rt, CAPTURED);
}

// What is written behind each frame is what the Linux node wrote there.
const WRITTEN: &[Step] = &[
    Step::Appended(SHORT, 0xfc02, A, Some((SHORT, OF_SHORT))),
    Step::Appended(LONGER, 0xfc06, B, Some((LONGER, OF_LONGER))),
    Step::Appended(FULL, 0xfc0b, B, Some((FULL, OF_FULL))),
    Step::Appended(
        SHORT_IN_VLAN,
        0xfc12,
        A,
        Some((SHORT_IN_VLAN, OF_SHORT_IN_VLAN)),
    ),
    Step::Appended(
        LONGER_IN_VLAN,
        0xfc17,
        B,
        Some((LONGER_IN_VLAN, OF_LONGER_IN_VLAN)),
    ),
    Step::Appended(
        FULL_IN_VLAN,
        0xfc1a,
        A,
        Some((FULL_IN_VLAN, OF_FULL_IN_VLAN)),
    ),
    Step::Appended(
        SHORT_IN_TWO_VLANS,
        0xfc1d,
        A,
        Some((SHORT_IN_TWO_VLANS, OF_SHORT_IN_TWO_VLANS)),
    ),
];

#[test]
fn captured_frames_are_written(rt: HostRuntime) {
    expect_steps(&rt, WRITTEN);
}

/// The supervision frame of that node up to its padding.
const SUPERVISION: &[u8] = &[
    1, 0x15, 0x4e, 0, 1, 0, 2, 0, 0, 0, 0, 1, 0x88, 0xfb, 0, 1, 0x7d, 0xff, 0x14, 6, 2, 0, 0, 0, 0,
    1,
];

const SUPERVISION_TRAILER: Text = &[These(&[0xfc, 5, 0xb0, 0x34, 0x88, 0xfb])];

const CAPTURED_SUPERVISION: &[Step] = &[
    Step::Trailer(
        &[These(SUPERVISION), Zeros(34)],
        SUPERVISION_TRAILER,
        Some((0xfc05, B, 0x34)),
    ),
    Step::Appended(
        &[These(SUPERVISION)],
        0xfc05,
        B,
        Some((&[These(SUPERVISION), Zeros(34)], SUPERVISION_TRAILER)),
    ),
];

#[test]
fn captured_supervision(rt: HostRuntime) {
    expect_steps(&rt, CAPTURED_SUPERVISION);
}

/// A frame of zeros, but for its type.
const ZEROS: Text = &[Zeros(12), These(&[8]), Zeros(47)];

// Another size, one octet off either way, and that of a frame with a VLAN tag; another LAN id, and another suffix.
// A payload of five octets has no room for a trailer.
const OTHERS: &[Step] = &[
    Step::Trailer(
        ZEROS,
        &[These(&[0, 1, 0xa0, 0x34, 0x88, 0xfb])],
        Some((1, A, 0x34)),
    ),
    Step::Trailer(
        ZEROS,
        &[These(&[0, 1, 0xb0, 0x34, 0x88, 0xfb])],
        Some((1, B, 0x34)),
    ),
    Step::Trailer(ZEROS, &[These(&[0, 1, 0xa0, 0x35, 0x88, 0xfb])], None),
    Step::Trailer(ZEROS, &[These(&[0, 1, 0xa0, 0x33, 0x88, 0xfb])], None),
    Step::Trailer(ZEROS, &[These(&[0, 1, 0xa0, 0x30, 0x88, 0xfb])], None),
    Step::Trailer(ZEROS, &[These(&[0, 1, 0xc0, 0x34, 0x88, 0xfb])], None),
    Step::Trailer(ZEROS, &[These(&[0, 1, 0xa0, 0x34, 0x88, 0xfc])], None),
    Step::Trailer(&[Zeros(12), These(&[8, 0])], &[Zeros(5)], None),
];

#[test]
fn other_octets_are_no_trailer(rt: HostRuntime) {
    expect_steps(&rt, OTHERS);
}

// The last of two trailers is read, and the first is payload.
const TWO: &[Step] = &[Step::Trailer(
    &[
        Zeros(12),
        These(&[8]),
        Zeros(47),
        These(&[0, 1, 0xa0, 0x34, 0x88, 0xfb]),
    ],
    &[These(&[0, 2, 0xa0, 0x3a, 0x88, 0xfb])],
    Some((2, A, 0x3a)),
)];

#[test]
fn two_trailers(rt: HostRuntime) {
    expect_steps(&rt, TWO);
}

// 1518 octets have room for a trailer, whose size is then 1510, and 1519 have not.
const LONGEST: &[Step] = &[
    Step::Appended(
        &[Zeros(1518)],
        0,
        A,
        Some((&[Zeros(1518)], &[These(&[0, 0, 0xa5, 0xe6, 0x88, 0xfb])])),
    ),
    Step::Appended(&[Zeros(1519)], 0, A, None),
];

#[test]
fn longest_frame(rt: HostRuntime) {
    expect_steps(&rt, LONGEST);
}

/// A frame in VLAN 1, and its trailer: a VLAN tag is not counted in the size.
const OWN_IN_VLAN: Text = &[
    These(&[2, 0, 0, 0, 0, 1, 2, 0, 0, 0, 0, 2, 0x81, 0, 0, 1, 8, 0]),
    Zeros(46),
];

const OWN_TRAILER: Text = &[These(&[0, 0, 0xa0, 0x34, 0x88, 0xfb])];

// Each allocation may fail: the call is then made again.
const TAGGED_AND_BACK: &[Step] = &[
    Step::Appended(OWN_IN_VLAN, 0, A, Some((OWN_IN_VLAN, OWN_TRAILER))),
    Step::Trailer(OWN_IN_VLAN, OWN_TRAILER, Some((0, A, 0x34))),
];

#[test]
fn tagged_frame_and_back(rt: HostRuntime) {
    expect_steps(&rt, TAGGED_AND_BACK);
}

/// The address of a node, what its life checks begin with, and their TLV.
const OWN: Mac = Mac([2, 0, 0, 0, 0, 1]);

const LIFE_HEAD: &[u8] = &[1, 0x15, 0x4e, 0, 1, 0, 2, 0, 0, 0, 0, 1, 0x88, 0xfb, 0, 1];

const LIFE_TLV: &[u8] = &[0x14, 6, 2, 0, 0, 0, 0, 1];

/// The first life check of a node, and those that a Linux PRP node with the same address sent: number 0x18 was captured
/// in LAN B alone, the others in both. The number among the life checks, that of the frame, and the frame without its trailer.
const LIFE_CHECKS: &[Step] = &[
    Step::Sent(
        (0x7dff, Life::PrpDiscard, OWN, None),
        0xfbff,
        A,
        &[
            These(LIFE_HEAD),
            These(&[0x7d, 0xff]),
            These(LIFE_TLV),
            Zeros(34),
            These(&[0xfb, 0xff, 0xa0, 0x34, 0x88, 0xfb]),
        ],
    ),
    Step::Sent(
        (0x7dff, Life::PrpDiscard, OWN, None),
        0xfbff,
        B,
        &[
            These(LIFE_HEAD),
            These(&[0x7d, 0xff]),
            These(LIFE_TLV),
            Zeros(34),
            These(&[0xfb, 0xff, 0xb0, 0x34, 0x88, 0xfb]),
        ],
    ),
    Step::Sent(
        (0x7dff, Life::PrpDiscard, OWN, None),
        0xfc05,
        A,
        &[
            These(LIFE_HEAD),
            These(&[0x7d, 0xff]),
            These(LIFE_TLV),
            Zeros(34),
            These(&[0xfc, 0x05, 0xa0, 0x34, 0x88, 0xfb]),
        ],
    ),
    Step::Sent(
        (0x7dff, Life::PrpDiscard, OWN, None),
        0xfc05,
        B,
        &[
            These(LIFE_HEAD),
            These(&[0x7d, 0xff]),
            These(LIFE_TLV),
            Zeros(34),
            These(&[0xfc, 0x05, 0xb0, 0x34, 0x88, 0xfb]),
        ],
    ),
    Step::Sent(
        (0x7e00, Life::PrpDiscard, OWN, None),
        0x0018,
        A,
        &[
            These(LIFE_HEAD),
            These(&[0x7e, 0x00]),
            These(LIFE_TLV),
            Zeros(34),
            These(&[0x00, 0x18, 0xa0, 0x34, 0x88, 0xfb]),
        ],
    ),
    Step::Sent(
        (0x7e00, Life::PrpDiscard, OWN, None),
        0x0018,
        B,
        &[
            These(LIFE_HEAD),
            These(&[0x7e, 0x00]),
            These(LIFE_TLV),
            Zeros(34),
            These(&[0x00, 0x18, 0xb0, 0x34, 0x88, 0xfb]),
        ],
    ),
    Step::Sent(
        (0x7e01, Life::PrpDiscard, OWN, None),
        0x001a,
        A,
        &[
            These(LIFE_HEAD),
            These(&[0x7e, 0x01]),
            These(LIFE_TLV),
            Zeros(34),
            These(&[0x00, 0x1a, 0xa0, 0x34, 0x88, 0xfb]),
        ],
    ),
    Step::Sent(
        (0x7e01, Life::PrpDiscard, OWN, None),
        0x001a,
        B,
        &[
            These(LIFE_HEAD),
            These(&[0x7e, 0x01]),
            These(LIFE_TLV),
            Zeros(34),
            These(&[0x00, 0x1a, 0xb0, 0x34, 0x88, 0xfb]),
        ],
    ),
];

#[test]
fn octets_of_life_checks(rt: HostRuntime) {
    expect_steps(&rt, LIFE_CHECKS);
}
