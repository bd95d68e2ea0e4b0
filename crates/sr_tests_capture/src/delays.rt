//! What the times of files are put off by.

use sr_capture_script::delays_of;

/// The delays of shifts, in nanoseconds.
fn delays(a: i64, b: i64, c: i64) -> Option<(u64, u64, u64)> {
    delays_of(a, b, c).map(|delays| (delays.a, delays.b, delays.c))
}

#[test]
fn shifts_are_delays(rt: HostRuntime) {
    assert_eq!(rt; delays(0, -100, 5), Some((100_000_000, 0, 105_000_000)));
    assert_eq!(rt;
        delays(0, 4_611_686_018_427, 0),
        Some((0, 4_611_686_018_427_000_000, 0))
    );
    assert_eq!(rt; delays(0, 4_611_686_018_428, 0), None);
    assert_eq!(rt; delays(i64::MIN, i64::MAX, 0), None);
}
