//! How numbers and times are shown to readers.

ghost use Rattle.std.specs.Prelude.{◌≡◌, ◌==◌, ◌*◌, ◌/◌, if◌then◌else◌, None, Some};

use std::fmt;

/// The powers of a thousand, the greatest first.
const THOUSANDS: [u64; 7] = [
    1_000_000_000_000_000_000,
    1_000_000_000_000_000,
    1_000_000_000_000,
    1_000_000_000,
    1_000_000,
    1_000,
    1,
];

/// A number, shown with thin spaces between its thousands.
#[derive(Clone, Copy, Debug, PartialEq, Eq)]
pub struct Count(pub u64);

impl fmt::Display for Count {
    fn fmt<W: fmt::Write>(&self, f: &mut fmt::Formatter<W>) -> fmt::Result {
        let mut has_begun = false;
        for power in THOUSANDS {
            let group = self.0.checked_div(power).unwrap_or(0) % 1000;
            if has_begun {
                write!(f, "\u{202f}{group:03}")?;
            } else if group > 0 || power == 1 {
                write!(f, "{group}")?;
                has_begun = true;
            }
        }
        Ok(())
    }
}

/// Octets, shown by hexadecimal digits.
#[derive(Clone, Copy, Debug, PartialEq, Eq)]
pub struct Hexadecimal(pub [u8; 32]);

impl fmt::Display for Hexadecimal {
    fn fmt<W: fmt::Write>(&self, f: &mut fmt::Formatter<W>) -> fmt::Result {
        for octet in self.0 {
            write!(f, "{octet:02x}")?;
        }
        Ok(())
    }
}

/// A time in nanoseconds, shown in seconds.
#[derive(Clone, Copy, Debug, PartialEq, Eq)]
pub struct Seconds(pub u64);

impl fmt::Display for Seconds {
    fn fmt<W: fmt::Write>(&self, f: &mut fmt::Formatter<W>) -> fmt::Result {
        let whole = Count(self.0 / 1_000_000_000);
        let part = self.0 / 1_000_000 % 1000;
        write!(f, "{whole}.{part:03}\u{a0}s")
    }
}

/// A difference of times in nanoseconds, shown with some three digits. None: there is none.
#[derive(Clone, Copy, Debug, PartialEq, Eq)]
pub struct Skew(pub Option<i128>);

/// Shows hundredths of a millisecond, in digits that tell.
fn show_millis<W: fmt::Write>(f: &mut fmt::Formatter<W>, hundredths: u128) -> fmt::Result {
    let (whole, tenth) = (hundredths / 100, hundredths / 10 % 10);
    if hundredths >= 10_000 {
        write!(f, "{whole}\u{a0}ms")
    } else if hundredths >= 1000 {
        write!(f, "{whole}.{tenth}\u{a0}ms")
    } else {
        let part = hundredths % 100;
        write!(f, "{whole}.{part:02}\u{a0}ms")
    }
}

impl fmt::Display for Skew {
    fn fmt<W: fmt::Write>(&self, f: &mut fmt::Formatter<W>) -> fmt::Result {
        let Some(skew) = self.0 else {
            return f.write_str("–");
        };
        if skew < 0 {
            f.write_str("−")?;
        }
        let size = skew.unsigned_abs();
        if size >= 1_000_000 {
            return show_millis(f, size / 10_000);
        }
        let (whole, tenth) = (size / 1000, size / 100 % 10);
        write!(f, "{whole}.{tenth}\u{a0}µs")
    }
}

/// How many of so many equal parts a share of a whole has, rounded down. None where the whole is nothing.
pub fn parts_of(share: u64, whole: u64, parts: u32) -> Option<u128>
    ensures { result ≡ (if whole == 0 then None else Some (share * parts / whole)) }
{
    (u128::from(share) * u128::from(parts)).checked_div(u128::from(whole))
}

/// A share of a whole, shown as a percentage that is rounded down: what is not the whole is never shown as 100 %.
#[derive(Clone, Copy, Debug, PartialEq, Eq)]
pub struct Percent {
    /// The share.
    pub share: u64,
    /// The whole.
    pub whole: u64,
}

impl fmt::Display for Percent {
    fn fmt<W: fmt::Write>(&self, f: &mut fmt::Formatter<W>) -> fmt::Result {
        let Some(fine) = parts_of(self.share, self.whole, 1_000_000) else {
            return f.write_str("–");
        };
        if fine >= 1_000_000 {
            return f.write_str("100\u{a0}%");
        }
        let whole = fine / 10_000;
        if fine < 999_900 {
            let part = fine / 100 % 100;
            write!(f, "{whole}.{part:02}\u{a0}%")
        } else {
            let part = fine % 10_000;
            write!(f, "{whole}.{part:04}\u{a0}%")
        }
    }
}
