//! Blocks of files of the format pcapng, of both orders: sections, interfaces, packets.

use super::texts::Part::{self, These};

/// A section header: version 1.0, and a length that is not told.
pub const LITTLE: Part = These(&[
    0x0A, 0x0D, 0x0D, 0x0A, 28, 0, 0, 0, 0x4D, 0x3C, 0x2B, 0x1A, 1, 0, 0, 0, 0xFF, 0xFF, 0xFF,
    0xFF, 0xFF, 0xFF, 0xFF, 0xFF, 28, 0, 0, 0,
]);

/// A section header whose numbers have the other order.
pub const BIG: Part = These(&[
    0x0A, 0x0D, 0x0D, 0x0A, 0, 0, 0, 28, 0x1A, 0x2B, 0x3C, 0x4D, 0, 1, 0, 0, 0xFF, 0xFF, 0xFF,
    0xFF, 0xFF, 0xFF, 0xFF, 0xFF, 0, 0, 0, 28,
]);

/// An interface without options.
pub const ETHERNET: Part = These(&[1, 0, 0, 0, 20, 0, 0, 0, 1, 0, 0, 0, 0, 0, 0, 0, 20, 0, 0, 0]);

/// One that is Linux cooked.
pub const COOKED: Part = These(COOKED_OCTETS);

/// Its octets.
pub const COOKED_OCTETS: &[u8] = &[
    1, 0, 0, 0, 20, 0, 0, 0, 113, 0, 0, 0, 0, 0, 0, 0, 20, 0, 0, 0,
];

/// An interface that is Linux cooked, whose numbers have the other order.
pub const COOKED_BIG: Part = These(&[
    0, 0, 0, 1, 0, 0, 0, 20, 0, 113, 0, 0, 0, 0, 0, 0, 0, 0, 0, 20,
]);

/// An interface without options of the other order.
pub const BIG_ETHERNET: Part = These(&[
    0, 0, 0, 1, 0, 0, 0, 20, 0, 1, 0, 0, 0, 0, 0, 0, 0, 0, 0, 20,
]);

/// Two octets at 1 s of interface 0, in microseconds.
pub const AT_1: Part = These(&[
    6, 0, 0, 0, 36, 0, 0, 0, 0, 0, 0, 0, 0, 0, 0, 0, 0x40, 0x42, 0x0F, 0, 2, 0, 0, 0, 2, 0, 0, 0,
    0xAB, 0xCD, 0, 0, 36, 0, 0, 0,
]);

/// Two others at 1.5 s.
pub const AT_1500: Part = These(&[
    6, 0, 0, 0, 36, 0, 0, 0, 0, 0, 0, 0, 0, 0, 0, 0, 0x60, 0xE3, 0x16, 0, 2, 0, 0, 0, 2, 0, 0, 0,
    0xEF, 1, 0, 0, 36, 0, 0, 0,
]);

/// One octet of three at 1.5 s of interface 0.
pub const CUT: Part = These(&[
    6, 0, 0, 0, 36, 0, 0, 0, 0, 0, 0, 0, 0, 0, 0, 0, 0x60, 0xE3, 0x16, 0, 1, 0, 0, 0, 3, 0, 0, 0,
    0xAB, 0, 0, 0, 36, 0, 0, 0,
]);

/// Statistics of an interface.
pub const STATISTICS: Part = These(&[
    5, 0, 0, 0, 24, 0, 0, 0, 0, 0, 0, 0, 0, 0, 0, 0, 0, 0, 0, 0, 24, 0, 0, 0,
]);
