//! Up to when all arrivals came.

/// Up to when all arrivals of both recorders came: before a capture time or, where it is inclusive, up to and with it.
#[derive(Clone, Copy, Debug, PartialEq, Eq)]
pub(crate) struct Mark {
    /// In nanoseconds of capture time.
    pub time: u64,
    /// Nothing more comes at that time itself.
    pub is_inclusive: bool,
}

impl Mark {
    ghost use Rattle.std.specs.Prelude.{◌≡◌};
    ghost use Rattle.sr_hold.specs.Marks.{before_time, up_to_time, passes, later_mark};

    /// All that lies before a time came.
    pub(crate) fn before(time: u64) -> Mark
        ensures { result ≡ before_time time }
    {
        Mark {
            time,
            is_inclusive: false,
        }
    }

    /// All came that lies up to a time, or at it.
    pub(crate) fn up_to(time: u64) -> Mark
        ensures { result ≡ up_to_time time }
    {
        Mark {
            time,
            is_inclusive: true,
        }
    }

    /// Whether a moment is before the mark, or at it where the mark is inclusive, so that nothing earlier can come.
    pub(crate) fn passes(self, moment: u64) -> bool
        ensures { result ≡ passes self moment }
    {
        if self.is_inclusive {
            moment <= self.time
        } else {
            moment < self.time
        }
    }

    /// The later one of two.
    pub(crate) fn later(self, next: Mark) -> Mark
        ensures { result ≡ later_mark self next }
    {
        if next.passes(self.time) { next } else { self }
    }
}
