//! Frames and addresses.

use super::steps::{Step, expect_steps};
use super::texts::Part::{These, Zeros};
use sr_frame::{FrameFault, Mac};

// A frame has 14 to 1524 octets, and 18 at least with a VLAN tag.
const LENGTHS: &[Step] = &[
    Step::View(&[], Some(FrameFault::TooShort)),
    Step::View(&[Zeros(13)], Some(FrameFault::TooShort)),
    Step::View(&[Zeros(14)], None),
    Step::View(&[Zeros(1524)], None),
    Step::View(&[Zeros(1525)], Some(FrameFault::TooLong)),
    Step::View(
        &[Zeros(12), These(&[0x81]), Zeros(4)],
        Some(FrameFault::TooShort),
    ),
    Step::View(&[Zeros(12), These(&[0x81]), Zeros(5)], None),
    Step::View(&[Zeros(12), These(&[0x81]), Zeros(1511)], None),
];

#[test]
fn lengths(rt: HostRuntime) {
    expect_steps(&rt, LENGTHS);
}

// The head of a frame that a Linux node sent into VLAN 5.
const FIELDS: &[Step] = &[Step::Fields(
    &[These(&[
        2, 0, 0, 0, 0, 2, 2, 0, 0, 0, 0, 1, 0x81, 0, 0, 5, 8, 0, 0x53, 0x51,
    ])],
    (
        Mac([2, 0, 0, 0, 0, 2]),
        Mac([2, 0, 0, 0, 0, 1]),
        Some(5),
        0x0800,
    ),
    &[These(&[0x53, 0x51])],
    (18, 20),
)];

#[test]
fn fields_of_a_tagged_frame(rt: HostRuntime) {
    expect_steps(&rt, FIELDS);
}

// Each allocation may fail: the call is then made again, and answers as it would have.
const COPIES: &[Step] = &[
    Step::Copies(&[These(&[1; 14])], 0x0101),
    Step::Copies(&[These(&[1; 60])], 0x0101),
    Step::Copies(&[These(&[1; 14]), Zeros(1509), These(&[2])], 0x0101),
];

#[test]
fn copies(rt: HostRuntime) {
    expect_steps(&rt, COPIES);
}

const ADDRESSES: &[Step] = &[
    Step::Address(
        Mac([0x02, 0, 0, 0xab, 0x0c, 0xff]),
        "02:00:00:ab:0c:ff",
        false,
    ),
    Step::Address(Mac([0x01, 0x15, 0x4e, 0, 1, 0]), "01:15:4e:00:01:00", true),
    Step::Address(Mac([0xff; 6]), "ff:ff:ff:ff:ff:ff", true),
];

#[test]
fn addresses(rt: HostRuntime) {
    expect_steps(&rt, ADDRESSES);
}
