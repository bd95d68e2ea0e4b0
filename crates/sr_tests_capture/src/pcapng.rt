//! Files of the format pcapng that end early, that can not be read on, or that are damaged; blocks far beyond what is at hand.

use super::blocks::{AT_1, AT_1500, CUT, ETHERNET, LITTLE, STATISTICS};
use super::runs::Ends;
use super::steps::{Step, expect_steps};
use super::texts::Part::{These, Times};
use super::texts::{Part, Text};

const BOTH: Text = &[These(b"in A 0 abcd\nin A 500 ef01\n# A 2 packets, 0 cut, 0 long, 0 empty\n")];

/// A block that says nothing here, of 1,048,572 octets.
const LARGE: Part = These(&[5, 0, 0, 0, 0xFC, 0xFF, 0x0F, 0]);

const LARGE_END: Part = These(&[0xFC, 0xFF, 0x0F, 0]);

// A block far beyond what is at hand is taken 65536 octets at a time, each of which asks once.
const LARGE_BLOCKS: &[Step] = &[Step::Patient(
    &[
        LITTLE,
        ETHERNET,
        AT_1,
        LARGE,
        Times(65535, &[0; 16]),
        LARGE_END,
        AT_1500,
    ],
    48,
    BOTH,
)];

#[test]
fn large_blocks_are_passed_over(rt: HostRuntime) {
    expect_steps(&rt, LARGE_BLOCKS);
}

const SMALL: Text = &[LITTLE, ETHERNET, AT_1, STATISTICS, CUT, AT_1500];

const BLOCKS: &[usize] = &[28, 48, 84, 108, 144, 180];

const ENDS: Ends = &[
    (84, b"in A 0 abcd\n"),
    (144, b"# A 2 cut\n"),
    (180, b"in A 500 ef01\n"),
];

const EARLY: &[Step] = &[Step::Fronts(SMALL, BLOCKS, ENDS), Step::Broken(SMALL, ENDS)];

#[test]
fn pcapng_files_end_early(rt: HostRuntime) {
    expect_steps(&rt, EARLY);
}

const DAMAGED: &[Step] = &[
    Step::Endured(SMALL, 400),
    Step::TakenUp(SMALL, ENDS, b"# A 3 packets, 1 cut, 0 long, 0 empty\n"),
];

#[test]
fn damage_to_blocks_is_endured(rt: HostRuntime) {
    expect_steps(&rt, DAMAGED);
}
