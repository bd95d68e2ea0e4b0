//! How far both captures are known, and the mark.

use crate::mark::Mark;
use crate::pace::{Pace, greater, lesser};
use crate::recorder::Recorder;

/// How far both captures are known, and up to when all arrivals came.
#[derive(Clone, Copy, Debug, PartialEq, Eq)]
pub(crate) struct Progress {
    pub a: Pace,
    pub b: Pace,
    /// For how long a recorder may keep a packet, in nanoseconds.
    pub slack: u64,
    pub mark: Mark,
}

impl Progress {
    ghost use Rattle.std.specs.Prelude.{◌≡◌};
    ghost use Rattle.sr_hold.specs.Pacing.{begun, pace_of, with_pace, aim, advanced, put, capture_clock, arrived_by, heard_by, silent_by, ended_by, begun_by};

    /// Both recorders begin at this real time.
    pub(crate) fn new(slack: u64, now: u64) -> Progress
        ensures { result ≡ begun slack now }
    {
        Progress {
            a: Pace::begun_at(now),
            b: Pace::begun_at(now),
            slack,
            mark: Mark::before(0),
        }
    }

    /// How far the capture of a recorder is known.
    pub(crate) fn pace(self, recorder: Recorder) -> Pace
        ensures { result ≡ pace_of recorder self }
    {
        match recorder {
            Recorder::A => self.a,
            Recorder::B => self.b,
        }
    }

    fn with_pace(self, recorder: Recorder, pace: Pace) -> Progress
        ensures { result ≡ with_pace recorder pace self }
    {
        match recorder {
            Recorder::A => Progress { a: pace, ..self },
            Recorder::B => Progress { b: pace, ..self },
        }
    }

    /// Up to when all arrivals came, by what is known of both captures.
    fn aim(self) -> Mark
        ensures { result ≡ aim self.a self.b }
    {
        match (self.a.is_running, self.b.is_running) {
            (true, true) => Mark::before(lesser(self.a.told, self.b.told)),
            (true, false) => Mark::before(self.a.told),
            (false, true) => Mark::before(self.b.told),
            (false, false) => Mark::up_to(greater(self.a.newest(), self.b.newest())),
        }
    }

    fn advanced(self) -> Progress
        ensures { result ≡ advanced self }
    {
        Progress {
            mark: self.mark.later(self.aim()),
            ..self
        }
    }

    /// This is known of the capture of a recorder, and the mark goes on.
    fn put(self, recorder: Recorder, pace: Pace) -> Progress
        ensures { result ≡ put recorder pace self }
    {
        self.with_pace(recorder, pace).advanced()
    }

    /// The least value that the capture clock has at this real time.
    fn clock(self, now: u64) -> u64
        ensures { result ≡ capture_clock self now }
    {
        greater(self.a.clock(now), self.b.clock(now))
    }

    /// An arrival came.
    pub(crate) fn arrived(self, recorder: Recorder, time: u64, now: u64) -> Progress
        ensures { result ≡ arrived_by recorder time now self }
    {
        let pace = self.pace(recorder).arrived(self.mark, time, now);
        self.put(recorder, pace)
    }

    /// A packet came that is no arrival.
    pub(crate) fn heard(self, recorder: Recorder, time: u64, now: u64) -> Progress
        ensures { result ≡ heard_by recorder time now self }
    {
        let pace = self.pace(recorder);
        self.put(recorder, pace.told_at(pace.own_moment(time), now))
    }

    /// Nothing had come by this real time.
    pub(crate) fn silent(self, recorder: Recorder, now: u64) -> Progress
        ensures { result ≡ silent_by recorder now self }
    {
        let pace = self.pace(recorder).quiet(self.slack, self.clock(now), now);
        self.put(recorder, pace)
    }

    /// A recorder ended.
    pub(crate) fn ended(self, recorder: Recorder) -> Progress
        ensures { result ≡ ended_by recorder self }
    {
        self.put(recorder, self.pace(recorder).ended())
    }

    /// A recorder begins once more.
    pub(crate) fn begun(self, recorder: Recorder, now: u64) -> Progress
        ensures { result ≡ begun_by recorder now self }
    {
        self.put(recorder, self.pace(recorder).begun_again(now))
    }
}
