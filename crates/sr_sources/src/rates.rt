//! How many frames of a source came in a second.

ghost use Rattle.std.specs.Prelude.{◌≡◌};
ghost use Rattle.sr_sources.specs.Limits.{one_more};
ghost use Rattle.sr_sources.specs.Rates.{second_of, is_in_second, second_with, fuller_of, busy_with, loud_with};

/// A second, in nanoseconds.
pub(crate) const SECOND: u64 = 1_000_000_000;

/// So many frames in a whole second are many (choice of this project).
pub const LOUD_FRAMES: u64 = 500;

/// So many, a tenth of them, are not few (choice of this project).
pub const BUSY_FRAMES: u64 = 50;

/// A whole second in which frames came.
#[derive(Clone, Copy, Debug, PartialEq, Eq)]
pub struct Second {
    /// How many. The count stays at 2^64 - 1.
    pub frames: u64,
    /// When the first of them came, in nanoseconds.
    pub since: u64,
}

/// How many frames came in a second.
#[derive(Clone, Copy, Debug, PartialEq, Eq)]
pub struct Rates {
    /// When the last frame came, in nanoseconds.
    pub last: Option<u64>,
    /// The whole second of the last frame.
    second: Second,
    /// The whole second that has most frames, the first of several.
    pub fullest: Second,
    /// How many whole seconds have 50 frames or more.
    pub busy: u64,
    /// When the first whole second began that has 500 frames or more.
    pub loud: Option<u64>,
}

/// One more, as far as 64 bits count.
pub(crate) fn one_more(count: u64) -> u64
    ensures { result ≡ one_more count }
{
    count.saturating_add(1)
}

/// The whole second that a time is in.
pub(crate) fn second_of(time: u64) -> u64
    ensures { result ≡ second_of time }
{
    time / SECOND
}

/// Whether a frame is in the whole second of the one before it.
fn is_in_second(time: u64, last: Option<u64>) -> bool
    ensures { result ≡ is_in_second time last }
{
    match last {
        Some(before) => second_of(time) == second_of(before),
        None => false,
    }
}

/// How many whole seconds have 50 frames or more, after one more frame.
fn busy_with(frames: u64, busy: u64) -> u64
    ensures { result ≡ busy_with frames busy }
{
    if frames == BUSY_FRAMES {
        one_more(busy)
    } else {
        busy
    }
}

/// When the first whole second began that has 500 frames or more, after one more frame.
fn loud_with(second: Second, loud: Option<u64>) -> Option<u64>
    ensures { result ≡ loud_with second loud }
{
    match loud {
        Some(since) => Some(since),
        None if second.frames == LOUD_FRAMES => Some(second.since),
        None => None,
    }
}

impl Second {
    ghost use Rattle.std.specs.Prelude.{◌≡◌};
    ghost use Rattle.sr_sources.specs.Rates.{no_second, second_with, fuller_of};

    /// No frame came.
    const NONE: Second = Second {
        frames: 0,
        since: 0,
    };

    /// With a frame more, or the one in which that begins.
    fn with(self, time: u64, goes_on: bool) -> Second
        ensures { result ≡ second_with time goes_on self }
    {
        if goes_on {
            Second {
                frames: one_more(self.frames),
                since: self.since,
            }
        } else {
            Second {
                frames: 1,
                since: time,
            }
        }
    }

    /// The one of two that has more frames, the former where they have as many.
    fn or_fuller(self, other: Second) -> Second
        ensures { result ≡ fuller_of self other }
    {
        if self.frames < other.frames {
            other
        } else {
            self
        }
    }
}

impl Rates {
    ghost use Rattle.std.specs.Prelude.{◌≡◌};
    ghost use Rattle.sr_sources.specs.Rates.{rates_by, rates_with};

    /// No frame came.
    pub const NONE: Rates = Rates {
        last: None,
        second: Second::NONE,
        fullest: Second::NONE,
        busy: 0,
        loud: None,
    };

    /// With a frame that came at this time, and the whole second of it.
    fn by(self, time: u64, second: Second) -> Rates
        ensures { result ≡ rates_by time second self }
    {
        Rates {
            last: Some(time),
            second,
            fullest: self.fullest.or_fuller(second),
            busy: busy_with(second.frames, self.busy),
            loud: loud_with(second, self.loud),
        }
    }

    /// With a frame more, that came at this time.
    pub(crate) fn with(self, time: u64) -> Rates
        ensures { result ≡ rates_with time self }
    {
        let goes_on = is_in_second(time, self.last);
        self.by(time, self.second.with(time, goes_on))
    }
}
