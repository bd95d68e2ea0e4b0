//! The edges of reading at each port.

use super::framings::{At, Seen, all_three, read_at};
use super::texts::Part::{self, These, Zeros};
use super::texts::{Text, joined};
use sr_forwarding::{Form, Framing, HsrFraming, PrpFraming, ReadFault};
use sr_prp_trailer::Lan;
use std::alloc::Global;

/// The addresses of the second node and the first.
const TO_ONE: Part = These(&[2, 0, 0, 0, 0, 1, 2, 0, 0, 0, 0, 2]);

/// Octets at a port, the plain form of what they are, and what is read.
type Reading = (At, Text, Text, Seen);

const READINGS: &[Reading] = &[
    // 19 octets with the type of a tag; 20 whose inner type is that of a VLAN tag, with nothing behind it; no tag.
    (
        At::Hsr(0),
        &[TO_ONE, These(b"\x89\x2f"), Zeros(5)],
        &[],
        Seen::Refused(ReadFault::Truncated),
    ),
    (
        At::Hsr(0),
        &[TO_ONE, These(b"\x89\x2f\x00\x06\x00\x00\x81\x00")],
        &[],
        Seen::Refused(ReadFault::TooShort),
    ),
    (
        At::Hsr(0),
        &[TO_ONE, These(b"\x08\x00"), Zeros(46)],
        &[],
        Seen::Refused(ReadFault::Untagged),
    ),
    // Of two tags the first one goes.
    (
        At::Hsr(1),
        &[
            TO_ONE,
            These(b"\x89\x2f\x00\x34\x00\x05\x89\x2f\x00\x2e\x00\x06\x08\x00"),
            Zeros(40),
        ],
        &[
            TO_ONE,
            These(b"\x89\x2f\x00\x2e\x00\x06\x08\x00"),
            Zeros(40),
        ],
        Seen::Parcel(Form::Hsr, Some(5), 0, false),
    ),
    // Of two trailers the last one goes.
    (
        At::Prp(Lan::A, 0),
        &[
            TO_ONE,
            These(b"\x08\x00"),
            Zeros(46),
            These(b"\x00\x01\xa0\x34\x88\xfb\x00\x02\xa0\x3a\x88\xfb"),
        ],
        &[
            TO_ONE,
            These(b"\x08\x00"),
            Zeros(46),
            These(b"\x00\x01\xa0\x34\x88\xfb"),
        ],
        Seen::Parcel(Form::Prp, Some(2), 0, false),
    ),
    // 53 is not the size: a frame of a SAN, or none where there are no SANs.
    (
        At::Prp(Lan::B, 0),
        &[
            TO_ONE,
            These(b"\x08\x00"),
            Zeros(48),
            These(b"\xb0\x35\x88\xfb"),
        ],
        &[
            TO_ONE,
            These(b"\x08\x00"),
            Zeros(48),
            These(b"\xb0\x35\x88\xfb"),
        ],
        Seen::Parcel(Form::Plain, None, 0, false),
    ),
    (
        At::Prp(Lan::B, 6),
        &[
            TO_ONE,
            These(b"\x08\x00"),
            Zeros(48),
            These(b"\xb0\x35\x88\xfb"),
        ],
        &[],
        Seen::Refused(ReadFault::Untagged),
    ),
    // The longest frames of each port, and one octet more.
    (
        At::Plain,
        &[TO_ONE, These(b"\x08\x00"), Zeros(1504)],
        &[TO_ONE, These(b"\x08\x00"), Zeros(1504)],
        Seen::Parcel(Form::Plain, None, 0, false),
    ),
    (
        At::Plain,
        &[TO_ONE, These(b"\x08\x00"), Zeros(1505)],
        &[],
        Seen::Refused(ReadFault::TooLong),
    ),
    (
        At::Prp(Lan::A, 0),
        &[TO_ONE, These(b"\x08\x00"), Zeros(1510)],
        &[TO_ONE, These(b"\x08\x00"), Zeros(1510)],
        Seen::Parcel(Form::Plain, None, 0, false),
    ),
    (
        At::Prp(Lan::A, 0),
        &[TO_ONE, These(b"\x08\x00"), Zeros(1511)],
        &[],
        Seen::Refused(ReadFault::TooLong),
    ),
    (
        At::Hsr(0),
        &[
            TO_ONE,
            These(b"\x89\x2f\x35\xe6\x00\x09\x08\x00"),
            Zeros(1504),
        ],
        &[TO_ONE, These(b"\x08\x00"), Zeros(1504)],
        Seen::Parcel(Form::Hsr, Some(9), 3, false),
    ),
    (
        At::Hsr(0),
        &[
            TO_ONE,
            These(b"\x89\x2f\x35\xe7\x00\x09\x08\x00"),
            Zeros(1505),
        ],
        &[],
        Seen::Refused(ReadFault::TooLong),
    ),
];

/// Whether the octets are read so. None where an allocation failed.
fn reads(alloc: Global, row: Reading) -> Option<bool> {
    let (at, octets, plain, seen_as) = row;
    let octets = joined(alloc, &[octets])?;
    let plain = joined(alloc, &[plain])?;
    Some(read_at(alloc, at, &octets, &plain) == seen_as)
}

fn first_reading(alloc: Global) -> Option<usize> {
    for (place, row) in READINGS.iter().enumerate() {
        if reads(alloc, *row) != Some(true) {
            return Some(place);
        }
    }
    None
}

#[test]
fn edges_of_reading(rt: HostRuntime) {
    assert_eq!(rt; first_reading(rt.alloc()), None);
}

// The longest plain frame, with a tag, with a trailer, and as it is. None where an allocation failed.
fn longest_is_written(alloc: Global) -> Option<bool> {
    let plain = joined(alloc, &[&[TO_ONE, These(b"\x08\x00"), Zeros(1504)]])?;
    all_three(alloc, &plain).ok()
}

#[test]
fn the_longest_frame_is_written(rt: HostRuntime) {
    assert_eq!(rt; longest_is_written(rt.alloc()), Some(true));
}

/// What the first octets of a frame are read as.
#[derive(Clone, Copy, PartialEq, Eq)]
enum Beginning {
    TooShort,
    Truncated,
    Unnumbered,
    Numbered,
    Other,
}

fn begins_as(alloc: Global, framing: &dyn Framing, octets: &[u8]) -> Beginning {
    match framing.decode(alloc, octets) {
        Ok(parcel) => if parcel.seq().is_some() {
            Beginning::Numbered
        } else {
            Beginning::Unnumbered
        },
        Err(ReadFault::TooShort) => Beginning::TooShort,
        Err(ReadFault::Truncated) => Beginning::Truncated,
        Err(_) => Beginning::Other,
    }
}

/// Whether all beginnings of a frame, from one length up to below another, are read as this.
fn begins(
    alloc: Global,
    framing: &dyn Framing,
    frame: Text,
    from: usize,
    end: usize,
    seen: Beginning,
) -> bool {
    let Some(octets) = joined(alloc, &[frame]) else {
        return false;
    };
    for len in from..end {
        if len > octets.len() || begins_as(alloc, framing, &octets[..len]) != seen {
            return false;
        }
    }
    true
}

#[test]
fn beginnings_of_frames(rt: HostRuntime) {
    let alloc = rt.alloc();
    let frame: &[Part] = &[
        TO_ONE,
        These(b"\x89\x2f\x00\x34\xfb\xff\x08\x00"),
        Zeros(46),
    ];
    let ring = HsrFraming { path: 0 };
    assert!(rt; begins(alloc, &ring, frame, 0, 14, Beginning::TooShort));
    assert!(rt; begins(alloc, &ring, frame, 14, 20, Beginning::Truncated));
    assert!(rt; begins(alloc, &ring, frame, 20, 67, Beginning::Numbered));
    let frame: &[Part] = &[
        TO_ONE,
        These(b"\x08\x00"),
        Zeros(48),
        These(b"\xa0\x34\x88\xfb"),
    ];
    let lan = PrpFraming {
        lan: Lan::A,
        net: 0,
    };
    assert!(rt; begins(alloc, &lan, frame, 0, 14, Beginning::TooShort));
    assert!(rt; begins(alloc, &lan, frame, 14, 66, Beginning::Unnumbered));
    assert!(rt; begins(alloc, &lan, frame, 66, 67, Beginning::Numbered));
}
