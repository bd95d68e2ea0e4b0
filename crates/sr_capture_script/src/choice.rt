//! What of the captures is wanted, and where it came in.

ghost use Rattle.std.specs.Prelude.{◌≡◌, ◌≤◌, ◌^◌, ◌/◌};
ghost use Rattle.sr_capture_script.specs.Texts.{is_wanted};

use sr_pcapng::Wanted;

/// The nanoseconds of a millisecond.
pub(crate) const MILLISECOND: u64 = 1_000_000;

/// A port where the packets of a file came in.
#[derive(Clone, Copy, Debug, PartialEq, Eq)]
pub enum Inlet {
    /// LAN A, or one direction of a ring.
    A,
    /// LAN B, or the other direction.
    B,
    /// The interlink of a RedBox.
    C,
}

/// Which lines are wanted. Times are in milliseconds from the earliest packet on.
#[derive(Clone, Copy, Debug)]
pub struct Choice {
    /// The first time.
    pub from: u64,
    /// The last time, up to which ticks go on. None: that of the last packet.
    pub to: Option<u64>,
    /// How far apart ticks are, from the first time on. None: there are no tick lines.
    pub tick: Option<u64>,
}

impl Choice {
    /// Whether lines of this time are wanted.
    pub(crate) fn is_wanted(&self, time: u64) -> bool
        ensures { result ≡ is_wanted self.now time }
    {
        !(time < self.from || self.to.unwrap_or(time) < time)
    }

    /// Whether packets of this time, in nanoseconds from the earliest packet on, are wanted.
    pub fn covers(&self, time: u64) -> bool
        ensures { result ≡ is_wanted self.now (time / 1000000) }
    {
        self.is_wanted(time / MILLISECOND)
    }
}

/// The most that a file's times are put off, in nanoseconds: some 146 years.
pub const MAX_DELAY: u64 = 0x4000_0000_0000_0000;

/// How far the times of each file are put off, in nanoseconds.
#[derive(Clone, Copy, Debug)]
pub struct Delays {
    /// Those of the file of inlet A.
    pub a: u64,
    /// Those of the file of inlet B.
    pub b: u64,
    /// Those of the file of inlet C.
    pub c: u64,
    pub ghost small_a: { a ≤ 2 ^ 62 },
    pub ghost small_b: { b ≤ 2 ^ 62 },
    pub ghost small_c: { c ≤ 2 ^ 62 },
}

/// Which interface of each file is wanted.
#[derive(Clone, Copy, Debug)]
pub struct Interfaces {
    /// That of the file of inlet A.
    pub a: Wanted,
    /// That of the file of inlet B.
    pub b: Wanted,
    /// That of the file of inlet C.
    pub c: Wanted,
}

/// How a script is made.
#[derive(Clone, Copy, Debug)]
pub struct Options {
    /// Which lines are wanted.
    pub choice: Choice,
    /// How many octets of check sequence stand behind each packet of a file that tells none.
    pub check_len: u8,
    /// How far the times of each file are put off.
    pub delays: Delays,
    /// Which interface of each file is wanted.
    pub interfaces: Interfaces,
}
