//! The 16-bit sequence numbers of redundant frames, and where one lies from another.
#![tactic(auto)]

ghost use Rattle.std.specs.Prelude.{◌≡◌, ℕ, ◌+◌, ◌%◌, ◌<◌, ◌≤◌, ℤ};
ghost use Rattle.sr_sequence.specs.Numbers.{wire};
ghost use Rattle.sr_sequence.specs.Places.{place_of, number_at, IsTheOne, IsWithin};

/// A sequence number as the wire carries it: the whole number modulo 65536 (IEC 62439-3, clauses 4 and 5).
///
/// It has no order: which of two numbers is the later one depends on a reference, see [`place`].
#[derive(Clone, Copy, PartialEq, Eq, Hash, Debug)]
pub struct Seq(pub u16);

/// Where a number lies from a reference.
#[derive(Clone, Copy, PartialEq, Eq, Debug)]
pub enum Distance {
    /// That many before it; the reference itself is 0 behind.
    Behind(u16),
    /// That many after it.
    Ahead(u16),
}

impl Seq {
    /// The number after this one; 0 follows 65535.
    pub fn next(self) -> Seq
        ensures { result.0 ≡ (self.0 + 1) % 65536 }
    {
        Seq(self.0.wrapping_add(1))
    }
}

/// Where `seq` lies from `reference`, the greatest number so far: behind it by less than the window, or ahead.
///
/// Of the 65536 whole numbers that begin above `reference - window`, one alone is carried as `seq`: it is
/// the reference less, or plus, the answer. Every number that is the window or more behind thus counts
/// as ahead (choice of this project).
pub fn place(reference: Seq, seq: Seq, window: u16) -> Distance
    requires { 0 < window }
    ensures formula { result ≡ place_of reference.0 seq.0 window }
    ensures within { IsWithin window result }
    ensures one { (greatest : ℤ) → wire greatest ≡ reference.0
        → IsTheOne window greatest seq.0 (number_at greatest result) }
{
    let back = reference.0.wrapping_sub(seq.0);
    if back < window {
        Distance::Behind(back)
    } else {
        Distance::Ahead(seq.0.wrapping_sub(reference.0))
    }
}
