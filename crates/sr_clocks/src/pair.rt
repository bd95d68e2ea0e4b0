//! A frame that both recorders saw.

/// How far apart the times of a pair are at most, in nanoseconds: less than 2^63.
const APART: u64 = 0x8000_0000_0000_0000;

/// A frame that both recorders saw.
#[derive(Clone, Copy, Debug, PartialEq, Eq)]
pub struct Pair {
    /// When it came, by the second clock, in nanoseconds.
    pub time: u64,
    /// How far the second clock was ahead of the first one, in nanoseconds.
    pub ahead: i64,
}

impl Pair {
    ghost use Rattle.std.specs.Prelude.{◌≡◌};
    ghost use Rattle.sr_clocks.specs.Seen.{times_paired};

    /// That of a frame that came at this time by the first clock, and at that one by the second. None: they are 2^63 nanoseconds apart,
    /// or more.
    pub fn of(first: u64, second: u64) -> Option<Pair>
        ensures { result ≡ times_paired first second }
    {
        if first.saturating_sub(second) < APART && second.saturating_sub(first) < APART {
            let ahead = i128::from(second) - i128::from(first);
            Some(Pair {
                time: second,
                ahead: ahead as i64,
            })
        } else {
            None
        }
    }
}
