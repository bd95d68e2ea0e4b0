//! Sequence numbers.

use sr_sequence::{Distance, Seq, place};

#[test]
fn places(rt: HostRuntime) {
    for (reference, seq, window, distance) in [
        (65535, 0, 1024, Distance::Ahead(1)),
        (5, 5, 1024, Distance::Behind(0)),
        (5, 64518, 1024, Distance::Behind(1023)),
        (5, 64517, 1024, Distance::Ahead(64512)),
        (5, 63494, 2048, Distance::Behind(2047)),
        (5, 63493, 2048, Distance::Ahead(63488)),
    ] {
        assert_eq!(rt;
            place(Seq(reference), Seq(seq), window),
            distance,
            "at {seq} from {reference}"
        );
    }
}

#[test]
fn wraps(rt: HostRuntime) {
    assert_eq!(rt; Seq(65535).next(), Seq(0));
    assert_eq!(rt; Seq(0).next(), Seq(1));
}
