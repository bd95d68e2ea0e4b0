//! A moment, as a date and a time of day (UTC).

use std::fmt;

/// The nanoseconds of a second.
const SECOND: u64 = 1_000_000_000;

/// The seconds of a day.
const DAY: u64 = 86_400;

/// A moment, in nanoseconds since 1970. It is shown as `2026-11-30T00:52:13.123456Z`, without the nanoseconds of its microsecond.
#[derive(Clone, Copy, Debug, PartialEq, Eq)]
pub struct Moment(pub u64);

/// A day of the calendar.
#[derive(Clone, Copy, Debug, PartialEq, Eq)]
struct Date {
    year: u64,
    month: u64,
    day: u64,
}

/// The days of the months of a year.
fn months_of(year: u64) -> [u64; 12] {
    let is_leap = year % 4 == 0 && (year % 100 != 0 || year % 400 == 0);
    let february = if is_leap { 29 } else { 28 };
    [31, february, 31, 30, 31, 30, 31, 31, 30, 31, 30, 31]
}

/// The day of a year that is so many days behind its first. The error is how many days are left behind its last.
fn day_in(year: u64, days: u64) -> Result<Date, u64> {
    let mut left = days;
    let mut month = 1;
    for len in months_of(year) {
        if left < len {
            let day = left.saturating_add(1);
            return Ok(Date { year, month, day });
        }
        left -= len;
        month = month.saturating_add(1);
    }
    Err(left)
}

/// The day that is so many days behind the first of January 1970. 64 bits of nanoseconds end in the year 2554.
fn date_of(days: u64) -> Date {
    let mut left = days;
    for year in 1970..2600 {
        match day_in(year, left) {
            Ok(date) => return date,
            Err(rest) => left = rest,
        }
    }
    Date {
        year: 2600,
        month: 1,
        day: 1,
    }
}

impl fmt::Display for Moment {
    fn fmt<W: fmt::Write>(&self, f: &mut fmt::Formatter<W>) -> fmt::Result {
        let seconds = self.0 / SECOND;
        let micros = self.0 % SECOND / 1000;
        let Date { year, month, day } = date_of(seconds / DAY);
        let of_day = seconds % DAY;
        let (hour, minute, second) = (of_day / 3600, of_day / 60 % 60, of_day % 60);
        write!(
            f,
            "{year:04}-{month:02}-{day:02}T{hour:02}:{minute:02}:{second:02}.{micros:06}Z"
        )
    }
}
