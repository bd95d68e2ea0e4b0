//! Interfaces of pcapng files: those that are listed, also where a file ends or an allocation fails.

use super::blocks::{
    AT_1, AT_1500, BIG, BIG_ETHERNET, COOKED, COOKED_BIG, ETHERNET, LITTLE, STATISTICS,
};
use super::steps::{Step, expect_steps};
use super::texts::Part::{These, Times};
use super::texts::{Part, Text};
use sr_capture::{Listed, Reason};
use sr_capture_script::Inlet;

const NUMBERS: &[Step] = &[
    Step::Told(
        Reason::Several(Listed(0b1011)),
        b"interfaces 0, 1, 3 are Ethernet: name one, as FILE:N",
    ),
    Step::Told(
        Reason::Several(Listed(0xC000_0000_0000_1000)),
        b"interfaces 12, 62, 63 or above are Ethernet: name one, as FILE:N",
    ),
];

#[test]
fn interfaces_are_told_by_number(rt: HostRuntime) {
    expect_steps(&rt, NUMBERS);
}

/// A description with a comment of 100 octets, which is longer than any block before it.
const COMMENTED: Part = These(&[
    1, 0, 0, 0, 124, 0, 0, 0, 1, 0, 0, 0, 0, 0, 0, 0, 1, 0, 100, 0,
]);

const COMMENT: Part = Times(100, b"A");

const TAIL: Part = These(&[124, 0, 0, 0]);

/// What can be read of the second section is not listed.
const SIX: Text = &[
    LITTLE, ETHERNET, AT_1, COOKED, ETHERNET, STATISTICS, ETHERNET, AT_1500, COOKED, COMMENTED,
    COMMENT, TAIL, LITTLE, ETHERNET,
];

const THREE: Text = &[BIG, COOKED_BIG, BIG_ETHERNET, BIG_ETHERNET, BIG_ETHERNET];

/// Of a file that ends, or can not be read on, while its interfaces are listed, those are listed that stand before that
/// place: no run could get at those behind it.
const LISTED: &[Step] = &[
    Step::Listed(
        SIX,
        &[(84, b"in A 0 abcd\n")],
        104,
        &[(124, 0b101), (168, 0b1101), (348, 0b10_1101)],
    ),
    Step::Listed(THREE, &[], 68, &[(88, 0b110), (108, 0b1110)]),
];

#[test]
fn interfaces_are_listed_up_to_a_fault(rt: HostRuntime) {
    expect_steps(&rt, LISTED);
}

/// An allocation may fail once, also for the last of the blocks that are listed: then no list is told that lacks it.
const LISTED_AGAIN: &[Step] = &[Step::File(
    SIX,
    &[These(b"in A 0 abcd\n")],
    Some((Inlet::A, 104, Reason::Several(Listed(0b10_1101)))),
)];

#[test]
fn interfaces_are_listed_again(rt: HostRuntime) {
    expect_steps(&rt, LISTED_AGAIN);
}
