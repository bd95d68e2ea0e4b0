//! How an address is shown.

ghost use Rattle.std.specs.Prelude.{◌≡◌, ◌<◌, Some};
ghost use Rattle.sr_frame.specs.Addresses.{digit_of, pair_of, pairs_of};

use crate::fields::Mac;
use std::fmt;

// A hexadecimal digit, in lower case.
fn digit_of(value: u8) -> u8
    requires { value < 16 }
    ensures { result ≡ digit_of value }
{
    if value < 10 {
        b'0' + value
    } else {
        b'a' + (value - 10)
    }
}

// An octet as two digits.
#[derive(Clone, Copy)]
struct Pair(u8);

impl fmt::Display for Pair {
    ghost output = { λ pair. Some (pair_of pair.0) };

    fn fmt<W: fmt::Write>(&self, f: &mut fmt::Formatter<W>) -> fmt::Result {
        let digits = [digit_of(self.0 / 16), digit_of(self.0 % 16)];
        f.write_str(str::from_utf8(&digits).map_err(|_| fmt::Error)?)
    }
}

impl fmt::Display for Mac {
    ghost output = { λ mac. Some (pairs_of mac.0) };

    fn fmt<W: fmt::Write>(&self, f: &mut fmt::Formatter<W>) -> fmt::Result {
        let (first, rest) = (self.0[0], &self.0[1..]);
        write!(f, "{}", Pair(first))?;
        for octet in rest {
            write!(f, ":{}", Pair(*octet))?;
        }
        Ok(())
    }
}
