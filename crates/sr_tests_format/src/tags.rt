//! Tags of HSR.

use super::steps::{Cut, Step, expect_steps};
use super::texts::Part::{Counted, These, Zeros};
use super::texts::Text;
use sr_hsr_tag::{TagFault, UntagFault};

/// Destination and source of the frames that a Linux HSR node sent, and the same in VLAN 5.
const PLAIN: Text = &[These(&[2, 0, 0, 0, 0, 2, 2, 0, 0, 0, 0, 1])];

const IN_VLAN: Text = &[These(&[2, 0, 0, 0, 0, 2, 2, 0, 0, 0, 0, 1, 0x81, 0, 0, 5])];

/// What stands behind, by the count of its octets.
const SHORT: Text = &[These(&[8, 0]), Counted(0x1c)];

const LEAST: Text = &[These(&[8, 0]), Counted(0x2e)];

const LONGER: Text = &[These(&[8, 0]), Counted(0x2f)];

const LONG: Text = &[These(&[8, 0]), Counted(0x3c)];

const LONG_IN_VLAN: Text = &[These(&[8, 0]), Counted(0x64)];

const FULL: Text = &[These(&[8, 0]), Counted(1494)];

// The Linux node's tagged frames are read.
const CAPTURED: &[Step] = &[
    Step::Untagged(
        PLAIN,
        &[These(&[0x89, 0x2f, 0x00, 0x34, 0xfc, 0x01])],
        SHORT,
        (0, 0x34, 0xfc01, 0x0800),
    ),
    Step::Untagged(
        PLAIN,
        &[These(&[0x89, 0x2f, 0x10, 0x35, 0xfc, 0x04])],
        LONGER,
        (1, 0x35, 0xfc04, 0x0800),
    ),
    Step::Untagged(
        PLAIN,
        &[These(&[0x89, 0x2f, 0x00, 0x42, 0xfc, 0x06])],
        LONG,
        (0, 0x42, 0xfc06, 0x0800),
    ),
    Step::Untagged(
        PLAIN,
        &[These(&[0x89, 0x2f, 0x15, 0xdc, 0xfc, 0x09])],
        FULL,
        (1, 0x5dc, 0xfc09, 0x0800),
    ),
    Step::Untagged(
        IN_VLAN,
        &[These(&[0x89, 0x2f, 0x00, 0x34, 0xfc, 0x10])],
        LEAST,
        (0, 0x34, 0xfc10, 0x0800),
    ),
    Step::Untagged(
        IN_VLAN,
        &[These(&[0x89, 0x2f, 0x10, 0x35, 0xfc, 0x11])],
        LONGER,
        (1, 0x35, 0xfc11, 0x0800),
    ),
    Step::Untagged(
        IN_VLAN,
        &[These(&[0x89, 0x2f, 0x00, 0x6a, 0xfc, 0x12])],
        LONG_IN_VLAN,
        (0, 0x6a, 0xfc12, 0x0800),
    ),
];

#[test]
fn captured_frames_are_read(rt: HostRuntime) {
    expect_steps(&rt, CAPTURED);
}

// Each is what is written of its plain form.
const WRITTEN: &[Step] = &[
    Step::Tagged(
        PLAIN,
        SHORT,
        0,
        0xfc01,
        Some(&[
            These(&[0x89, 0x2f, 0x00, 0x34, 0xfc, 0x01, 8, 0]),
            Counted(0x1c),
        ]),
    ),
    Step::Tagged(
        PLAIN,
        LONGER,
        1,
        0xfc04,
        Some(&[
            These(&[0x89, 0x2f, 0x10, 0x35, 0xfc, 0x04, 8, 0]),
            Counted(0x2f),
        ]),
    ),
    Step::Tagged(
        PLAIN,
        LONG,
        0,
        0xfc06,
        Some(&[
            These(&[0x89, 0x2f, 0x00, 0x42, 0xfc, 0x06, 8, 0]),
            Counted(0x3c),
        ]),
    ),
    Step::Tagged(
        PLAIN,
        FULL,
        1,
        0xfc09,
        Some(&[
            These(&[0x89, 0x2f, 0x15, 0xdc, 0xfc, 0x09, 8, 0]),
            Counted(1494),
        ]),
    ),
    Step::Tagged(
        IN_VLAN,
        LEAST,
        0,
        0xfc10,
        Some(&[
            These(&[0x89, 0x2f, 0x00, 0x34, 0xfc, 0x10, 8, 0]),
            Counted(0x2e),
        ]),
    ),
    Step::Tagged(
        IN_VLAN,
        LONGER,
        1,
        0xfc11,
        Some(&[
            These(&[0x89, 0x2f, 0x10, 0x35, 0xfc, 0x11, 8, 0]),
            Counted(0x2f),
        ]),
    ),
    Step::Tagged(
        IN_VLAN,
        LONG_IN_VLAN,
        0,
        0xfc12,
        Some(&[
            These(&[0x89, 0x2f, 0x00, 0x6a, 0xfc, 0x12, 8, 0]),
            Counted(0x64),
        ]),
    ),
];

#[test]
fn captured_frames_are_written(rt: HostRuntime) {
    expect_steps(&rt, WRITTEN);
}

// The Linux node fills a frame in a VLAN to 66 octets alone. It is read all the same, and what is written has 70.
const SHORTER: &[Step] = &[
    Step::Untagged(
        IN_VLAN,
        &[These(&[0x89, 0x2f, 0x10, 0x30, 0xfc, 0x0e])],
        &[These(&[8, 0]), Zeros(42)],
        (1, 0x30, 0xfc0e, 0x0800),
    ),
    Step::Tagged(
        IN_VLAN,
        &[These(&[8, 0]), Zeros(42)],
        1,
        0xfc0e,
        Some(&[
            These(&[0x89, 0x2f, 0x10, 0x34, 0xfc, 0x0e, 8, 0]),
            Zeros(46),
        ]),
    ),
];

#[test]
fn shorter_frame_in_a_vlan(rt: HostRuntime) {
    expect_steps(&rt, SHORTER);
}

/// Destination and source of a frame to all nodes.
const GROUP: Text = &[These(&[0xff, 0xff, 0xff, 0xff, 0xff, 0xff, 2, 0, 0, 0, 0, 1])];

/// What stands behind, and where it is to be filled with zeros.
const IP_ZEROS: Text = &[These(&[8, 0]), Zeros(46)];

const IP_NOTHING: Text = &[These(&[8, 0])];

// Each allocation may fail: the call is then made again.
const GROUP_AND_BACK: &[Step] = &[
    Step::Tagged(
        GROUP,
        IP_ZEROS,
        0,
        0xfbff,
        Some(&[
            These(&[0x89, 0x2f, 0x00, 0x34, 0xfb, 0xff, 8, 0]),
            Zeros(46),
        ]),
    ),
    Step::Untagged(
        GROUP,
        &[These(&[0x89, 0x2f, 0x00, 0x34, 0xfb, 0xff])],
        IP_ZEROS,
        (0, 0x34, 0xfbff, 0x0800),
    ),
    Step::Tagged(
        GROUP,
        IP_ZEROS,
        1,
        0xfbff,
        Some(&[
            These(&[0x89, 0x2f, 0x10, 0x34, 0xfb, 0xff, 8, 0]),
            Zeros(46),
        ]),
    ),
    Step::Untagged(
        GROUP,
        &[These(&[0x89, 0x2f, 0x10, 0x34, 0xfb, 0xff])],
        IP_ZEROS,
        (1, 0x34, 0xfbff, 0x0800),
    ),
    Step::Tagged(
        GROUP,
        IP_NOTHING,
        1,
        0xfbff,
        Some(&[
            These(&[0x89, 0x2f, 0x10, 0x34, 0xfb, 0xff, 8, 0]),
            Zeros(46),
        ]),
    ),
];

#[test]
fn group_frame_and_back(rt: HostRuntime) {
    expect_steps(&rt, GROUP_AND_BACK);
}

/// Destination and source of the supervision of a RedBox, and what stands behind.
const BOXED: Text = &[These(&[1, 0x15, 0x4e, 0, 1, 0, 2, 0, 0, 0, 0, 2])];

const BOXED_BEHIND: Text = &[
    These(&[
        0x88, 0xfb, 0, 1, 0x7d, 0xff, 0x17, 6, 2, 0, 0, 0, 0, 3, 0x1e, 6, 2, 0, 0, 0, 0, 2,
    ]),
    Zeros(26),
];

// A supervision frame of a RedBox: the size that the tag gives is not looked at.
const TAGGED_SUPERVISION: &[Step] = &[
    Step::Untagged(
        BOXED,
        &[These(&[0x89, 0x2f, 0, 0x34, 0xfb, 0xff])],
        BOXED_BEHIND,
        (0, 0x34, 0xfbff, 0x88fb),
    ),
    Step::Untagged(
        BOXED,
        &[These(&[0x89, 0x2f, 0, 0x2e, 0xfb, 0xff])],
        BOXED_BEHIND,
        (0, 0x2e, 0xfbff, 0x88fb),
    ),
];

#[test]
fn tagged_supervision(rt: HostRuntime) {
    expect_steps(&rt, TAGGED_SUPERVISION);
}

// 1518 octets have room for a tag, whose size is then 1510, and 1519 have not. It can be taken out again.
const LONGEST: &[Step] = &[
    Step::Untagged(
        &[Zeros(12)],
        &[These(&[0x89, 0x2f, 0x05, 0xe6, 0, 0])],
        &[Zeros(1505), These(&[1])],
        (0, 0x5e6, 0, 0),
    ),
    Step::Tagged(
        &[Zeros(12)],
        &[Zeros(1506)],
        0,
        0,
        Some(&[These(&[0x89, 0x2f, 0x05, 0xe6, 0, 0]), Zeros(1506)]),
    ),
    Step::Tagged(&[Zeros(12)], &[Zeros(1507)], 0, 0, None),
];

#[test]
fn longest_frame(rt: HostRuntime) {
    expect_steps(&rt, LONGEST);
}

/// A frame to all nodes of 66 octets with a tag, and without one.
const WHOLE: Text = &[
    These(&[
        0xff, 0xff, 0xff, 0xff, 0xff, 0xff, 2, 0, 0, 0, 0, 1, 0x89, 0x2f, 0, 0x34, 0xfb, 0xff, 8, 0,
    ]),
    Zeros(46),
];

const NO_TAG: Text = &[
    These(&[
        0xff, 0xff, 0xff, 0xff, 0xff, 0xff, 2, 0, 0, 0, 0, 1, 0x89, 0x30,
    ]),
    Zeros(52),
];

const CUT_SHORT: &[Step] = &[
    Step::Cut(WHOLE, (0, 14), Cut::NoFrame),
    Step::Cut(WHOLE, (14, 20), Cut::Truncated),
    Step::Cut(WHOLE, (20, 67), Cut::Untagged),
    Step::NotUntagged(
        &[These(&[
            0xff, 0xff, 0xff, 0xff, 0xff, 0xff, 2, 0, 0, 0, 0, 1, 0x89, 0x2f, 0, 0x34, 0xfb, 0xff,
            8,
        ])],
        Err(TagFault::Truncated),
        UntagFault::Truncated,
    ),
    Step::NotUntagged(NO_TAG, Err(TagFault::NotTagged), UntagFault::NotTagged),
];

#[test]
fn frames_cut_short(rt: HostRuntime) {
    expect_steps(&rt, CUT_SHORT);
}

/// Addresses, a tag, and the type of a VLAN tag behind it.
const VLAN_INSIDE: &[u8] = &[
    2, 0, 0, 0, 0, 1, 2, 0, 0, 0, 0, 2, 0x89, 0x2f, 0, 0x34, 0, 5, 0x81, 0,
];

// An inner type of a VLAN tag wants that tag behind it, unless a VLAN tag stands before the HSR tag.
const INNER_TYPES: &[Step] = &[
    Step::NotUntagged(
        &[These(VLAN_INSIDE)],
        Ok((0, 0x34, 5, 0x8100)),
        UntagFault::TooShort,
    ),
    Step::NotUntagged(
        &[These(VLAN_INSIDE), These(&[0])],
        Ok((0, 0x34, 5, 0x8100)),
        UntagFault::TooShort,
    ),
    Step::NotUntagged(
        &[These(VLAN_INSIDE), These(&[0, 7])],
        Ok((0, 0x34, 5, 0x8100)),
        UntagFault::TooShort,
    ),
    Step::NotUntagged(
        &[These(VLAN_INSIDE), These(&[0, 7, 8])],
        Ok((0, 0x34, 5, 0x8100)),
        UntagFault::TooShort,
    ),
    Step::UntaggedView(
        &[These(VLAN_INSIDE), These(&[0, 7, 8, 0, 1, 2]), Zeros(40)],
        (Some(7), 0x0800),
        &[These(&[1, 2]), Zeros(40)],
    ),
];

#[test]
fn inner_types(rt: HostRuntime) {
    expect_steps(&rt, INNER_TYPES);
}

/// Destination and source, and the same in VLAN 5.
const ADDRESSES: Text = &[These(&[2, 0, 0, 0, 0, 1, 2, 0, 0, 0, 0, 2])];

const ADDRESSES_IN_VLAN: Text = &[These(&[2, 0, 0, 0, 0, 1, 2, 0, 0, 0, 0, 2, 0x81, 0, 0, 5])];

// A second tag is payload of the first, and so is a second VLAN tag.
const SECOND_TAGS: &[Step] = &[
    Step::Untagged(
        ADDRESSES,
        &[These(&[0x89, 0x2f, 0, 0x34, 0, 5])],
        &[These(&[0x89, 0x2f, 0, 0x2e, 0, 6, 8, 0]), Zeros(40)],
        (0, 0x34, 5, 0x892f),
    ),
    Step::Untagged(
        ADDRESSES_IN_VLAN,
        &[These(&[0x89, 0x2f, 0, 0x34, 0, 5])],
        &[These(&[0x81, 0])],
        (0, 0x34, 5, 0x8100),
    ),
];

#[test]
fn second_tags(rt: HostRuntime) {
    expect_steps(&rt, SECOND_TAGS);
}
