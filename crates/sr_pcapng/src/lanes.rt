//! What is written: packets of two interfaces.

ghost use Rattle.std.specs.Prelude.{◌<◌, ◌^◌, length};

/// By which names the two interfaces go.
#[derive(Clone, Copy, Debug, PartialEq, Eq)]
pub enum Names {
    /// `lan-a` and `lan-b`.
    Lan,
    /// `ring-a` and `ring-b`.
    Ring,
}

/// One of the two interfaces.
#[derive(Clone, Copy, Debug, PartialEq, Eq)]
pub enum Lane {
    /// The first, number 0.
    A,
    /// The second, number 1.
    B,
}

/// The most octets of a packet, and of a comment.
pub const MAX_WRITTEN: usize = 0xFFFF;

/// A packet that is to be written.
#[derive(Clone, Copy)]
pub struct Entry<'a> {
    /// By which interface it came.
    pub lane: Lane,
    /// When, in nanoseconds since 1970.
    pub time: u64,
    /// How many octets it had.
    pub len: u32,
    /// Those of them that are kept.
    pub octets: &'a [u8],
    /// What is said of it, in UTF-8. Where it is empty nothing is.
    pub comment: &'a [u8],
    pub ghost early: { time < 2 ^ 63 },
    pub ghost short: { length octets.now < 2 ^ 16 },
    pub ghost told: { length comment.now < 2 ^ 16 },
}
