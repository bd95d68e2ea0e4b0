//! That the calls of the law of lists list what is worked out.

use super::*;
use sr_audit::{Arrival, Copied, Listed, Side, Span, Spans};
use sr_frame::Mac;
use sr_sequence::Seq;
use sr_slots::Keys;

const ONE: Mac = Mac([2, 0, 0, 0, 0, 1]);

const OTHER: Mac = Mac([2, 0, 0, 0, 0, 2]);

/// The capture of A ends before the last frame.
const SPANS: Spans = Spans {
    a: Some(Span { first: 5, last: 60 }),
    b: Some(Span {
        first: 5,
        last: 100,
    }),
};

fn copy(src: Mac, side: Side, seq: u16, time: u64, packet: u64) -> Copied {
    Copied {
        src,
        arrival: Arrival {
            side,
            seq: Seq(seq),
            time,
        },
        packet,
    }
}

/// Of the frames 7, 8, 10 and 11 of a source B lost 8, no frame has the number 9, and 11 came when A was not recorded.
#[test]
fn lines_are_those_that_are_worked_out(rt: HostRuntime) {
    let copies = [
        copy(ONE, Side::A, 7, 10, 1),
        copy(ONE, Side::B, 7, 12, 2),
        copy(ONE, Side::A, 8, 20, 3),
        copy(OTHER, Side::A, 500, 30, 4),
        copy(ONE, Side::B, 10, 40, 5),
        copy(ONE, Side::A, 10, 42, 6),
        copy(ONE, Side::B, 11, 90, 7),
    ];
    let wanted = [
        Listed::Pair(copies[0], 12),
        Listed::Pair(copies[5], 40),
        Listed::Lost(copies[2]),
        Listed::Neither(ONE, Seq(9), 40),
    ];
    match list_source(rt.alloc(), Keys::FIXED, SPANS, 0, &copies, ONE) {
        Ok(lines) => assert_eq!(rt; lines.as_slice(), &wanted[..]),
        Err(_) => panic!(rt; "no memory"),
    }
}
