//! Files that are written: their octets, from the format, and a writer that fails.

ghost use Rattle.std.specs.Prelude.{◌≡◌, IfSome, vec_len};

use super::blocks::LITTLE;
use super::failing::Narrow;
use super::steps::{Step, expect_steps};
use super::texts::Part::{self, These};
use super::texts::{Text, joined};
use sr_pcapng::{Entry, Lane, MAX_WRITTEN, Names, write_head, write_packet};
use std::alloc::Global;
use std::io::Write;

/// A packet that is to be written.
#[derive(Clone, Copy)]
pub struct Given {
    pub lane: Lane,
    pub time: u64,
    pub len: u32,
    pub octets: &'static [u8],
    pub comment: &'static [u8],
}

/// The latest time.
const LATEST: u64 = 0x7FFF_FFFF_FFFF_FFFF;

/// Writes the head of a file, and packets. None where that fails.
fn written<W: Write>(writer: &mut W, names: Names, packets: &[Given]) -> Option<()> {
    write_head(writer, names).ok()?;
    for packet in packets {
        let Given {
            lane,
            time,
            len,
            octets,
            comment,
        } = *packet;
        if time > LATEST || octets.len() > MAX_WRITTEN || comment.len() > MAX_WRITTEN {
            return None;
        }
        let entry = Entry {
            lane,
            time,
            len,
            octets,
            comment,
        };
        write_packet(writer, &entry).ok()?;
    }
    Some(())
}

/// Whether a file of these packets has these octets. None where an allocation failed.
pub fn is_written(alloc: Global, names: Names, packets: &[Given], wanted: Text) -> Option<bool> {
    let mut octets = Vec::new(alloc);
    written(&mut octets, names, packets)?;
    let wanted = joined(alloc, wanted)?;
    Some(octets == wanted)
}

/// Whether these packets are not written by a writer that takes so many octets.
pub fn is_unwritten(packets: &[Given], room: usize) -> bool {
    let mut writer = Narrow { room };
    written(&mut writer, Names::Lan, packets).is_none()
}

const LAN_A: Part = These(&[
    1, 0, 0, 0, 44, 0, 0, 0, 1, 0, 0, 0, 0, 0, 0, 0, 2, 0, 5, 0, b'l', b'a', b'n', b'-', b'a', 0,
    0, 0, 9, 0, 1, 0, 9, 0, 0, 0, 0, 0, 0, 0, 44, 0, 0, 0,
]);

const LAN_B: Part = These(&[
    1, 0, 0, 0, 44, 0, 0, 0, 1, 0, 0, 0, 0, 0, 0, 0, 2, 0, 5, 0, b'l', b'a', b'n', b'-', b'b', 0,
    0, 0, 9, 0, 1, 0, 9, 0, 0, 0, 0, 0, 0, 0, 44, 0, 0, 0,
]);

const RING_A: Part = These(&[
    1, 0, 0, 0, 44, 0, 0, 0, 1, 0, 0, 0, 0, 0, 0, 0, 2, 0, 6, 0, b'r', b'i', b'n', b'g', b'-',
    b'a', 0, 0, 9, 0, 1, 0, 9, 0, 0, 0, 0, 0, 0, 0, 44, 0, 0, 0,
]);

const RING_B: Part = These(&[
    1, 0, 0, 0, 44, 0, 0, 0, 1, 0, 0, 0, 0, 0, 0, 0, 2, 0, 6, 0, b'r', b'i', b'n', b'g', b'-',
    b'b', 0, 0, 9, 0, 1, 0, 9, 0, 0, 0, 0, 0, 0, 0, 44, 0, 0, 0,
]);

/// Three octets of five at B, 4.294967298 s after the start of 1970.
const TOLD: Given = Given {
    lane: Lane::B,
    time: 0x1_0000_0002,
    len: 5,
    octets: &[0xAB, 0xCD, 0xEF],
    comment: b"note",
};

const TOLD_BLOCK: Part = These(&[
    6, 0, 0, 0, 48, 0, 0, 0, 1, 0, 0, 0, 1, 0, 0, 0, 2, 0, 0, 0, 3, 0, 0, 0, 5, 0, 0, 0, 0xAB,
    0xCD, 0xEF, 0, 1, 0, 4, 0, b'n', b'o', b't', b'e', 0, 0, 0, 0, 48, 0, 0, 0,
]);

/// Four octets of four at A, with a comment of one.
const SHORT: Given = Given {
    lane: Lane::A,
    time: 0x0304,
    len: 4,
    octets: &[1, 2, 3, 4],
    comment: b"x",
};

const SHORT_BLOCK: Part = These(&[
    6, 0, 0, 0, 48, 0, 0, 0, 0, 0, 0, 0, 0, 0, 0, 0, 4, 3, 0, 0, 4, 0, 0, 0, 4, 0, 0, 0, 1, 2, 3,
    4, 1, 0, 1, 0, b'x', 0, 0, 0, 0, 0, 0, 0, 48, 0, 0, 0,
]);

/// No octet of none at A, at the latest time, with no comment.
const SILENT: Given = Given {
    lane: Lane::A,
    time: LATEST,
    len: 0,
    octets: &[],
    comment: b"",
};

const SILENT_BLOCK: Part = These(&[
    6, 0, 0, 0, 32, 0, 0, 0, 0, 0, 0, 0, 0xFF, 0xFF, 0xFF, 0x7F, 0xFF, 0xFF, 0xFF, 0xFF, 0, 0, 0,
    0, 0, 0, 0, 0, 32, 0, 0, 0,
]);

const WRITTEN: &[Step] = &[
    Step::Written(Names::Lan, &[], &[LITTLE, LAN_A, LAN_B]),
    Step::Written(
        Names::Ring,
        &[SHORT],
        &[LITTLE, RING_A, RING_B, SHORT_BLOCK],
    ),
    Step::Written(
        Names::Lan,
        &[TOLD, SILENT, TOLD],
        &[LITTLE, LAN_A, LAN_B, TOLD_BLOCK, SILENT_BLOCK, TOLD_BLOCK],
    ),
    // The head has 116 octets, and the first packet 48.
    Step::Unwritten(&[TOLD], 115),
    Step::Unwritten(&[TOLD], 116 + 47),
];

#[test]
fn files_are_written(rt: HostRuntime) {
    expect_steps(&rt, WRITTEN);
}

/// So many octets. It is a function of its own, so that no proof works out a list of thousands.
fn list_of(alloc: Global, count: usize) -> Option<Vec<u8>>
    ensures { IfSome result (λ octets. vec_len octets ≡ count) }
{
    let mut octets = Vec::new(alloc);
    octets.resize(count, 7).ok()?;
    Some(octets)
}

/// How many octets the block of a packet has that is as long as can be, with as long a comment. None where an allocation failed,
/// or where it is not written.
fn longest_block(alloc: Global) -> Option<usize> {
    let octets = list_of(alloc, MAX_WRITTEN)?;
    let mut block = Vec::new(alloc);
    let entry = Entry {
        lane: Lane::B,
        time: 0,
        len: 65535,
        octets: &octets,
        comment: &octets,
    };
    write_packet(&mut block, &entry).ok()?;
    Some(block.len())
}

#[test]
fn the_longest_packet_and_comment_are_written(rt: HostRuntime) {
    let len = match longest_block(rt.alloc()) {
        None => longest_block(rt.alloc()),
        some => some,
    };
    assert_eq!(&rt; len, Some(131_112));
}
