//! Files that end early, that can not be read on, or that are damaged; writers that fail, and allocations that fail.

use super::runs::Ends;
use super::steps::{Step, expect_steps};
use super::texts::Part::These;
use super::texts::Text;

/// Two octets at 2.5 s, none at 2.6 s, and one octet of three at 2.501 s.
const SMALL: Text = &[
    These(&[
        0xD4, 0xC3, 0xB2, 0xA1, 2, 0, 4, 0, 0, 0, 0, 0, 0, 0, 0, 0, 0xFF, 0xFF, 0, 0, 1, 0, 0, 0,
    ]),
    These(&[
        2, 0, 0, 0, 0x20, 0xA1, 7, 0, 2, 0, 0, 0, 2, 0, 0, 0, 0xAB, 0xCD,
    ]),
    These(&[2, 0, 0, 0, 0xC0, 0x27, 9, 0, 0, 0, 0, 0, 0, 0, 0, 0]),
    These(&[2, 0, 0, 0, 0x08, 0xA5, 7, 0, 1, 0, 0, 0, 3, 0, 0, 0, 0xAB]),
];

const ENDS: Ends = &[
    (42, b"in A 0 abcd\n"),
    (58, b"# A 2 empty\n"),
    (75, b"# A 3 cut\n"),
];

const COUNTS: &[u8] = b"# A 3 packets, 1 cut, 0 long, 1 empty, 1 before one ahead of them\n";

/// Two octets at 1 s, and a check sequence of four behind them, which is passed over.
const CHECKED: Text = &[
    These(&[
        0xD4, 0xC3, 0xB2, 0xA1, 2, 0, 4, 0, 0, 0, 0, 0, 0, 0, 0, 0, 0xFF, 0xFF, 0, 0, 1, 0, 0, 0x24,
    ]),
    These(&[
        1, 0, 0, 0, 0, 0, 0, 0, 6, 0, 0, 0, 6, 0, 0, 0, 0xAB, 0xCD, 1, 2, 3, 4,
    ]),
];

const CHECKED_ENDS: Ends = &[(46, b"in A 0 abcd\n")];

const EARLY: &[Step] = &[
    Step::Prefixes(SMALL, ENDS),
    Step::Broken(SMALL, ENDS),
    Step::Prefixes(CHECKED, CHECKED_ENDS),
    Step::Broken(CHECKED, CHECKED_ENDS),
];

#[test]
fn files_end_early(rt: HostRuntime) {
    expect_steps(&rt, EARLY);
}

const DAMAGED: &[Step] = &[Step::Endured(SMALL, 400)];

#[test]
fn damage_is_endured(rt: HostRuntime) {
    expect_steps(&rt, DAMAGED);
}

/// The three lines have 34 octets, and their counts 66.
const WRITERS: &[Step] = &[
    Step::Narrow(SMALL, 0, true),
    Step::Narrow(SMALL, 12, true),
    Step::Narrow(SMALL, 34, true),
    Step::Narrow(SMALL, 99, true),
    Step::Narrow(SMALL, 100, false),
];

#[test]
fn writers_fail(rt: HostRuntime) {
    expect_steps(&rt, WRITERS);
}

const TAKEN_UP: &[Step] = &[Step::TakenUp(SMALL, ENDS, COUNTS)];

#[test]
fn a_script_is_taken_up_again(rt: HostRuntime) {
    expect_steps(&rt, TAKEN_UP);
}
