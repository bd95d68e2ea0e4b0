//! How far the capture of one recorder is known.

ghost use Rattle.std.specs.Prelude.{◌≡◌, max, min};

use crate::mark::Mark;

/// How far the capture of one recorder is known, in nanoseconds.
#[derive(Clone, Copy, Debug, PartialEq, Eq)]
pub(crate) struct Pace {
    /// The moment of its newest packet. None: no packet came.
    pub newest: Option<u64>,
    /// When that came, or the recorder began, in real time.
    pub heard: u64,
    /// Up to which capture time all of it came.
    pub told: u64,
    /// It began, and did not end since then.
    pub is_running: bool,
    /// How many of its arrivals came behind the mark.
    pub behind: u64,
}

/// The greater one of two numbers.
pub(crate) fn greater(x: u64, y: u64) -> u64
    ensures { result ≡ max x y }
{
    if x < y { y } else { x }
}

/// The lesser one of two numbers.
pub(crate) fn lesser(x: u64, y: u64) -> u64
    ensures { result ≡ min x y }
{
    if y < x { y } else { x }
}

impl Pace {
    ghost use Rattle.std.specs.Prelude.{◌≡◌};
    ghost use Rattle.sr_hold.specs.Paces.{begun_at, newest_of, own_moment, moment_at, is_behind, clock_of, told_at, arrived, quiet, begun_again, ended_now};

    /// A recorder that begins at this real time.
    pub(crate) fn begun_at(now: u64) -> Pace
        ensures { result ≡ begun_at now }
    {
        Pace {
            newest: None,
            heard: now,
            told: 0,
            is_running: true,
            behind: 0,
        }
    }

    /// The moment of its newest packet, or 0.
    pub(crate) fn newest(self) -> u64
        ensures { result ≡ newest_of self }
    {
        match self.newest {
            Some(moment) => moment,
            None => 0,
        }
    }

    /// The moment of a packet in its own capture: its time, but not before the packet ahead of it.
    pub(crate) fn own_moment(self, time: u64) -> u64
        ensures { result ≡ own_moment self time }
    {
        greater(time, self.newest())
    }

    /// The moment of an arrival: that of its own capture, but not before the mark.
    pub(crate) fn moment_at(self, mark: Mark, time: u64) -> u64
        ensures { result ≡ moment_at mark self time }
    {
        greater(self.own_moment(time), mark.time)
    }

    /// Whether an arrival comes behind the mark.
    pub(crate) fn is_behind(self, mark: Mark, time: u64) -> bool
        ensures { result ≡ is_behind mark self time }
    {
        mark.passes(self.own_moment(time))
    }

    /// The least value that the capture clock has at this real time.
    pub(crate) fn clock(self, now: u64) -> u64
        ensures { result ≡ clock_of self now }
    {
        match self.newest {
            Some(moment) => moment.saturating_add(now.saturating_sub(self.heard)),
            None => 0,
        }
    }

    /// A packet of this moment came at this real time.
    pub(crate) fn told_at(self, moment: u64, now: u64) -> Pace
        ensures { result ≡ told_at self moment now }
    {
        Pace {
            newest: Some(moment),
            heard: now,
            told: greater(self.told, moment),
            is_running: true,
            behind: self.behind,
        }
    }

    /// An arrival of this time came at this real time.
    pub(crate) fn arrived(self, mark: Mark, time: u64, now: u64) -> Pace
        ensures { result ≡ arrived mark self time now }
    {
        let told = self.told_at(self.moment_at(mark, time), now);
        if self.is_behind(mark, time) {
            Pace {
                behind: self.behind.saturating_add(1),
                ..told
            }
        } else {
            told
        }
    }

    /// Nothing more had come from it up to this real time, at which the capture clock had this value.
    pub(crate) fn quiet(self, slack: u64, clock: u64, now: u64) -> Pace
        ensures { result ≡ quiet slack clock self now }
    {
        if now.saturating_sub(self.heard) < slack {
            self
        } else {
            Pace {
                told: greater(self.told, clock.saturating_sub(slack)),
                ..self
            }
        }
    }

    /// It begins once more, at this real time.
    pub(crate) fn begun_again(self, now: u64) -> Pace
        ensures { result ≡ begun_again self now }
    {
        Pace {
            heard: now,
            is_running: true,
            ..self
        }
    }

    /// It ended.
    pub(crate) fn ended(self) -> Pace
        ensures { result ≡ ended_now self }
    {
        Pace {
            is_running: false,
            ..self
        }
    }
}
