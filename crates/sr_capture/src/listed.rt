//! Interfaces of a file, by their numbers.

ghost use Rattle.std.specs.Prelude.{◌≡◌, bit_or, min, ◌^◌};

use std::fmt;

/// The number from which on interfaces are listed as one.
const LAST: u32 = 63;

/// Interfaces of a section: bit N stands for number N, and bit 63 for 63 and any above.
#[derive(Clone, Copy, Debug, PartialEq, Eq)]
pub struct Listed(pub u64);

impl Listed {
    /// These and one more.
    pub fn with(self, number: u32) -> Listed
        ensures { result.0 ≡ bit_or self.0 (2 ^ min number 63) }
    {
        Listed(self.0 | 2_u64.pow(number.min(LAST)))
    }

    /// Whether this number is among them.
    fn has(self, number: u32) -> bool {
        self.0 / 2_u64.pow(number.min(LAST)) % 2 == 1
    }
}

impl fmt::Display for Listed {
    fn fmt<W: fmt::Write>(&self, f: &mut fmt::Formatter<W>) -> fmt::Result {
        let mut between = "";
        for number in 0..LAST {
            if self.has(number) {
                write!(f, "{between}{number}")?;
                between = ", ";
            }
        }
        if self.has(LAST) {
            write!(f, "{between}{LAST} or above")?;
        }
        Ok(())
    }
}
