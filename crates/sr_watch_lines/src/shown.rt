//! How times are shown.

use std::fmt;

/// A time in nanoseconds, shown in seconds with three digits behind the point.
#[derive(Clone, Copy)]
pub(crate) struct Seconds(pub u64);

impl fmt::Display for Seconds {
    fn fmt<W: fmt::Write>(&self, f: &mut fmt::Formatter<W>) -> fmt::Result {
        let whole = self.0 / 1_000_000_000;
        let part = self.0 % 1_000_000_000 / 1_000_000;
        write!(f, "{whole}.{part:03}")
    }
}

/// A time in nanoseconds, shown in milliseconds with six digits behind the point.
#[derive(Clone, Copy)]
pub(crate) struct Millis(pub u64);

impl fmt::Display for Millis {
    fn fmt<W: fmt::Write>(&self, f: &mut fmt::Formatter<W>) -> fmt::Result {
        let whole = self.0 / 1_000_000;
        let part = self.0 % 1_000_000;
        write!(f, "{whole}.{part:06}")
    }
}

/// A difference of times in nanoseconds, shown in microseconds with three digits behind the point.
#[derive(Clone, Copy)]
pub(crate) struct Micros(pub i128);

impl fmt::Display for Micros {
    fn fmt<W: fmt::Write>(&self, f: &mut fmt::Formatter<W>) -> fmt::Result {
        let size = self.0.unsigned_abs();
        let sign = if self.0 < 0 { "-" } else { "" };
        let whole = size / 1000;
        let part = size % 1000;
        write!(f, "{sign}{whole}.{part:03}")
    }
}

/// A time in nanoseconds, shown in seconds with nine digits behind the point.
#[derive(Clone, Copy)]
pub(crate) struct Nanos(pub u64);

impl fmt::Display for Nanos {
    fn fmt<W: fmt::Write>(&self, f: &mut fmt::Formatter<W>) -> fmt::Result {
        let whole = self.0 / 1_000_000_000;
        let part = self.0 % 1_000_000_000;
        write!(f, "{whole}.{part:09}")
    }
}
