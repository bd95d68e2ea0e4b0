//! Times of the loop.

use std::io;
use std::time::{Clock, Duration, Instant, SystemTime, UNIX_EPOCH};

/// A time in nanoseconds. It stays at 2^64 - 1.
pub(crate) fn nanoseconds_of(time: Duration) -> u64 {
    u64::try_from(time.as_nanos()).unwrap_or(u64::MAX)
}

/// The nanoseconds between two moments.
pub(crate) fn between(earlier: Instant, later: Instant) -> u64 {
    nanoseconds_of(later.saturating_duration_since(earlier))
}

/// A moment that is so many nanoseconds later.
pub(crate) fn later(from: Instant, by: u64) -> Instant {
    from.checked_add(Duration::from_nanos(by)).unwrap_or(from)
}

/// The earlier of two moments.
pub(crate) fn earlier(one: Instant, other: Instant) -> Instant {
    if other < one { other } else { one }
}

/// The time of day, in nanoseconds since 1970.
pub(crate) fn time_of_day<R: Clock>(rt: &R) -> io::Result<u64> {
    match SystemTime::now(rt)?.duration_since(UNIX_EPOCH) {
        Ok(since) => Ok(nanoseconds_of(since)),
        Err(_) => Ok(0),
    }
}
