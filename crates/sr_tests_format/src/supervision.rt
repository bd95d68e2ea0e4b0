//! Supervision.

use super::steps::{Saying, Step, expect_steps};
use super::texts::Part::{These, Zeros};
use super::texts::Text;
use sr_frame::Mac;
use sr_supervision::{Life, SupFault};

/// Addresses of nodes.
const FIRST: Mac = Mac([2, 0, 0, 0, 0, 1]);

const SECOND: Mac = Mac([2, 0, 0, 0, 0, 2]);

const THIRD: Mac = Mac([2, 0, 0, 0, 0, 3]);

/// Destination, source and type of supervision that the first node sends, and the second.
const HEAD: Text = &[These(&[1, 0x15, 0x4e, 0, 1, 0, 2, 0, 0, 0, 0, 1, 0x88, 0xfb])];

const SECOND_HEAD: Text = &[These(&[1, 0x15, 0x4e, 0, 1, 0, 2, 0, 0, 0, 0, 2, 0x88, 0xfb])];

/// What the second node announces, in VLAN 5.
const IN_VLAN: Text = &[These(&[
    1, 0x15, 0x4e, 0, 1, 0, 2, 0, 0, 0, 0, 2, 0x81, 0, 0, 5, 0x88, 0xfb,
])];

// The frames of a Linux PRP node and a Linux HSR node, and a worked frame of a RedBox: each is read, and is
// what is written of its value. The allocation may fail: the call is then made again.
const FRAMES: &[Step] = &[
    Step::Said(
        HEAD,
        &[
            These(&[0, 1, 0x7d, 0xff, 0x14, 6, 2, 0, 0, 0, 0, 1]),
            Zeros(34),
        ],
        Ok((0x7dff, Life::PrpDiscard, FIRST, None)),
    ),
    Step::Written(
        (0x7dff, Life::PrpDiscard, FIRST, None),
        HEAD,
        &[
            These(&[0, 1, 0x7d, 0xff, 0x14, 6, 2, 0, 0, 0, 0, 1]),
            Zeros(34),
        ],
    ),
    Step::Said(
        HEAD,
        &[
            These(&[0, 1, 0x7d, 0xff, 0x17, 6, 2, 0, 0, 0, 0, 1]),
            Zeros(34),
        ],
        Ok((0x7dff, Life::Hsr, FIRST, None)),
    ),
    Step::Written(
        (0x7dff, Life::Hsr, FIRST, None),
        HEAD,
        &[
            These(&[0, 1, 0x7d, 0xff, 0x17, 6, 2, 0, 0, 0, 0, 1]),
            Zeros(34),
        ],
    ),
    Step::Said(
        SECOND_HEAD,
        &[
            These(&[
                0, 1, 0x7d, 0xff, 0x17, 6, 2, 0, 0, 0, 0, 3, 0x1e, 6, 2, 0, 0, 0, 0, 2,
            ]),
            Zeros(26),
        ],
        Ok((0x7dff, Life::Hsr, THIRD, Some(SECOND))),
    ),
    Step::Written(
        (0x7dff, Life::Hsr, THIRD, Some(SECOND)),
        SECOND_HEAD,
        &[
            These(&[
                0, 1, 0x7d, 0xff, 0x17, 6, 2, 0, 0, 0, 0, 3, 0x1e, 6, 2, 0, 0, 0, 0, 2,
            ]),
            Zeros(26),
        ],
    ),
];

#[test]
fn frames_and_back(rt: HostRuntime) {
    expect_steps(&rt, FRAMES);
}

const VLAN: &[Step] = &[Step::Said(
    IN_VLAN,
    &[These(&[
        0, 1, 0, 9, 0x17, 6, 2, 0, 0, 0, 0, 3, 0x1e, 6, 2, 0, 0, 0, 0, 2, 0, 0,
    ])],
    Ok((9, Life::Hsr, THIRD, Some(SECOND))),
)];

#[test]
fn supervision_in_a_vlan(rt: HostRuntime) {
    expect_steps(&rt, VLAN);
}

/// The third node alone, and behind the second as its RedBox.
const ALONE: Result<Saying, SupFault> = Ok((9, Life::Hsr, THIRD, None));

const BOXED: Result<Saying, SupFault> = Ok((9, Life::Hsr, THIRD, Some(SECOND)));

const PAYLOADS: &[Step] = &[
    // The start: version 0 and any path are read, and a version of 12 bits above 1 is not.
    Step::Said(
        HEAD,
        &[These(&[0, 0, 0, 9, 23, 6, 2, 0, 0, 0, 0, 3])],
        ALONE,
    ),
    Step::Said(
        HEAD,
        &[These(&[0xf0, 1, 0, 9, 23, 6, 2, 0, 0, 0, 0, 3])],
        ALONE,
    ),
    Step::Said(
        HEAD,
        &[These(&[0, 2, 0, 9, 23, 6, 2, 0, 0, 0, 0, 3])],
        Err(SupFault::Version),
    ),
    Step::Said(
        HEAD,
        &[These(&[1, 0, 0, 9, 23, 6, 2, 0, 0, 0, 0, 3])],
        Err(SupFault::Version),
    ),
    Step::Said(HEAD, &[These(&[0, 2, 0, 9])], Err(SupFault::Version)),
    Step::Said(HEAD, &[These(&[0, 2, 0])], Err(SupFault::Truncated)),
    // The first TLV.
    Step::Said(HEAD, &[These(&[0, 1, 0, 9])], Err(SupFault::Truncated)),
    Step::Said(HEAD, &[These(&[0, 1, 0, 9, 0])], Err(SupFault::Truncated)),
    Step::Said(
        HEAD,
        &[These(&[0, 1, 0, 9, 99, 6])],
        Err(SupFault::FirstTlv),
    ),
    Step::Said(
        HEAD,
        &[These(&[0, 1, 0, 9, 19, 6, 2, 0, 0, 0, 0, 3])],
        Err(SupFault::FirstTlv),
    ),
    Step::Said(
        HEAD,
        &[These(&[0, 1, 0, 9, 24, 6, 2, 0, 0, 0, 0, 3])],
        Err(SupFault::FirstTlv),
    ),
    Step::Said(
        HEAD,
        &[These(&[0, 1, 0, 9, 23, 7, 2, 0, 0, 0, 0, 3, 0])],
        Err(SupFault::FirstTlv),
    ),
    Step::Said(HEAD, &[These(&[0, 1, 0, 9, 0, 0])], Err(SupFault::FirstTlv)),
    Step::Said(
        HEAD,
        &[These(&[0, 1, 0, 9, 23, 6, 2, 0, 0, 0, 0])],
        Err(SupFault::Truncated),
    ),
    Step::Said(
        HEAD,
        &[These(&[0, 1, 0, 9, 23, 12, 2, 0, 0, 0, 0, 3, 2, 0, 0, 0, 0, 2])],
        ALONE,
    ),
    Step::Said(
        HEAD,
        &[These(&[0, 1, 0, 9, 23, 12, 2, 0, 0, 0, 0, 3, 2, 0, 0, 0, 0])],
        Err(SupFault::Truncated),
    ),
    // The end: a type of 0, whatever stands behind it.
    Step::Said(
        HEAD,
        &[These(&[0, 1, 0, 9, 23, 6, 2, 0, 0, 0, 0, 3, 0])],
        ALONE,
    ),
    Step::Said(
        HEAD,
        &[These(&[0, 1, 0, 9, 23, 6, 2, 0, 0, 0, 0, 3, 0, 255])],
        ALONE,
    ),
    Step::Said(
        HEAD,
        &[These(&[
            0, 1, 0, 9, 23, 6, 2, 0, 0, 0, 0, 3, 0, 0, 30, 6, 2, 0, 0, 0, 0, 2,
        ])],
        ALONE,
    ),
    // Later TLVs: the first RedBox of six octets counts, and all else is skipped.
    Step::Said(
        HEAD,
        &[These(&[0, 1, 0, 9, 23, 6, 2, 0, 0, 0, 0, 3, 30, 6, 2, 0, 0, 0, 0, 2])],
        BOXED,
    ),
    Step::Said(
        HEAD,
        &[These(&[
            0, 1, 0, 9, 23, 6, 2, 0, 0, 0, 0, 3, 31, 0, 21, 6, 1, 1, 1, 1, 1, 1, 30, 6, 2, 0, 0, 0,
            0, 2,
        ])],
        BOXED,
    ),
    Step::Said(
        HEAD,
        &[These(&[
            0, 1, 0, 9, 23, 6, 2, 0, 0, 0, 0, 3, 30, 5, 2, 0, 0, 0, 0, 30, 6, 2, 0, 0, 0, 0, 2, 0,
            0,
        ])],
        BOXED,
    ),
    Step::Said(
        HEAD,
        &[These(&[
            0, 1, 0, 9, 23, 6, 2, 0, 0, 0, 0, 3, 30, 6, 2, 0, 0, 0, 0, 2, 30, 6, 2, 0, 0, 0, 0, 1,
        ])],
        BOXED,
    ),
    Step::Said(
        HEAD,
        &[These(&[0, 1, 0, 9, 23, 6, 2, 0, 0, 0, 0, 3, 30])],
        Err(SupFault::Truncated),
    ),
    Step::Said(
        HEAD,
        &[These(&[0, 1, 0, 9, 23, 6, 2, 0, 0, 0, 0, 3, 31, 2, 0])],
        Err(SupFault::Truncated),
    ),
    Step::Said(
        HEAD,
        &[These(&[
            0, 1, 0, 9, 23, 6, 2, 0, 0, 0, 0, 3, 30, 6, 2, 0, 0, 0, 0, 2, 31, 9, 0,
        ])],
        Err(SupFault::Truncated),
    ),
];

#[test]
fn payloads(rt: HostRuntime) {
    expect_steps(&rt, PAYLOADS);
}

// Another address of a group, and another type.
const OTHERS: &[Step] = &[
    Step::Said(
        &[These(&[1, 0x15, 0x4e, 0, 1, 1, 2, 0, 0, 0, 0, 1, 0x88, 0xfb])],
        &[Zeros(46)],
        Err(SupFault::NotSupervision),
    ),
    Step::Said(
        &[These(&[1, 0x15, 0x4e, 0, 1, 0, 2, 0, 0, 0, 0, 1, 0x88, 0xfc])],
        &[Zeros(46)],
        Err(SupFault::NotSupervision),
    ),
];

#[test]
fn other_frames(rt: HostRuntime) {
    expect_steps(&rt, OTHERS);
}
