//! What was merged, in figures.

ghost use Rattle.std.specs.Prelude.{◌≡◌};
ghost use Rattle.sr_capture_merge.specs.Counting.{more};

use sr_audit::Side;
use std::fmt;

/// How many packets there were of each kind.
#[derive(Clone, Copy, Debug, PartialEq, Eq)]
pub struct Counts {
    /// Frames and packets, each once.
    pub packets: u64,
    /// Frames that came by both sides.
    pub both: u64,
    /// Frames that came by side A alone.
    pub a: u64,
    /// Frames that came by side B alone.
    pub b: u64,
    /// Frames that came by both sides, whose first copy has the trailer of the other LAN.
    pub astray: u64,
    /// Packets without a number.
    pub unnumbered: u64,
    /// Frames of which it is not known whether a copy came, since too many packets waited or a capture could not be read on.
    pub open: u64,
    /// Packets that were written.
    pub written: u64,
    /// Packets that the recorder cut, which are left out.
    pub cut: u64,
    /// Packets that are longer than a frame, which are left out.
    pub long: u64,
    /// Packets that were taken as they came, since 1024 other sources were live.
    pub untold: u64,
}

/// A count with one more.
pub(crate) fn more(count: &mut u64)
    ensures { count.new ≡ more count.old }
{
    *count = count.saturating_add(1);
}

impl Counts {
    ghost use Rattle.std.specs.Prelude.{◌≡◌};
    ghost use Rattle.sr_capture_merge.specs.Counting.{counted_alone};

    /// Nothing came.
    pub const NONE: Counts = Counts {
        packets: 0,
        both: 0,
        a: 0,
        b: 0,
        astray: 0,
        unnumbered: 0,
        open: 0,
        written: 0,
        cut: 0,
        long: 0,
        untold: 0,
    };

    /// Counts a frame that came by a side alone.
    pub(crate) fn note_alone(&mut self, side: Side)
        ensures { self.new ≡ counted_alone side self.old }
    {
        match side {
            Side::A => more(&mut self.a),
            Side::B => more(&mut self.b),
        }
    }
}

/// A count that is told where it is not 0.
#[derive(Clone, Copy)]
struct Told(u64, &'static str);

impl fmt::Display for Told {
    fn fmt<W: fmt::Write>(&self, f: &mut fmt::Formatter<W>) -> fmt::Result {
        let Told(count, what) = *self;
        if count == 0 {
            return Ok(());
        }
        write!(f, ", {count} {what}")
    }
}

impl fmt::Display for Counts {
    fn fmt<W: fmt::Write>(&self, f: &mut fmt::Formatter<W>) -> fmt::Result {
        let Counts { packets, both, .. } = *self;
        let a = Told(self.a, "by A alone");
        let b = Told(self.b, "by B alone");
        let astray = Told(self.astray, "with the other LAN's id");
        let unnumbered = Told(self.unnumbered, "without number");
        let open = Told(self.open, "not known");
        write!(
            f,
            "{packets} packets: {both} by both{a}{b}{astray}{unnumbered}{open}"
        )
    }
}
