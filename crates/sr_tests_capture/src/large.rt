//! Packets far beyond what is at hand.

use super::steps::{Step, expect_steps};
use super::texts::Part;
use super::texts::Part::{These, Times};

/// The octets 4 to 19 of a header: version 2.4, eight octets of no meaning, snap length 65535.
const LITTLE: Part = These(&[2, 0, 4, 0, 0, 0, 0, 0, 0, 0, 0, 0, 0xFF, 0xFF, 0, 0]);

/// The magic numbers.
const LITTLE_MICRO: Part = These(&[0xD4, 0xC3, 0xB2, 0xA1]);

/// The link type Ethernet.
const LITTLE_ETHERNET: Part = These(&[1, 0, 0, 0]);

/// Two octets at 1.5 s.
const LITTLE_AT_1500_MICRO: Part = These(&[
    1, 0, 0, 0, 0x20, 0xA1, 7, 0, 2, 0, 0, 0, 2, 0, 0, 0, 0xEF, 1,
]);

/// The head of a packet of 1,048,560 octets at 1 s.
const LITTLE_LARGE: Part = These(&[
    1, 0, 0, 0, 0, 0, 0, 0, 0xF0, 0xFF, 0x0F, 0, 0xF0, 0xFF, 0x0F, 0,
]);

// What is passed over is taken 65536 octets at a time, each of which asks once.
const LARGE_PACKETS: &[Step] = &[Step::Patient(
    &[
        LITTLE_MICRO,
        LITTLE,
        LITTLE_ETHERNET,
        LITTLE_LARGE,
        Times(65535, &[0; 16]),
        LITTLE_AT_1500_MICRO,
    ],
    32,
    &[These(b"# A 1 long\nin A 500 ef01\n# A 2 packets, 0 cut, 1 long, 0 empty\n")],
)];

#[test]
fn large_packets_are_passed_over(rt: HostRuntime) {
    expect_steps(&rt, LARGE_PACKETS);
}
