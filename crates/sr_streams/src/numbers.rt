//! What is kept of the messages of a stream.

ghost use Rattle.std.specs.Prelude.{◌≡◌, ◌-◌, ◌^◌, min};

use crate::message::Counter;
use crate::spot::{Heard, Spot, begun};
use crate::sums::{Kind, Sums};
use sr_frame::NoMemory;
use std::alloc::Global;

/// How many spots are looked at, from the one furthest ahead on (choice of this project).
const KEPT_SPOTS: usize = 256;

/// When a message came, and its number.
#[derive(Clone, Copy, Debug)]
pub struct Arrival {
    /// The time, in nanoseconds.
    pub time: u64,
    /// The number.
    pub counter: Counter,
}

/// What is kept of the messages of a stream: the last 256 spots, the one furthest ahead first, when it came, and the sums.
#[derive(Debug, Drop)]
pub struct Numbers {
    recent: Vec<Spot>,
    time: u64,
    top: u32,
    sums: Sums,
}

/// As far as 64 bits count.
fn capped(told: u128) -> u64
    ensures { result ≡ min told (2 ^ 64 - 1) }
{
    u64::try_from(told).unwrap_or(u64::MAX)
}

impl Numbers {
    ghost use Rattle.std.specs.Prelude.{◌≡◌, ◌+◌, ◌-◌, ◌^◌, slice_get, Some, ◌<◌, List, [], ◌∷◌, length, min, OnOk, OnErr};
    ghost use Rattle.sr_streams.specs.Courses.{Course, course_of, message_taken, missing_of, run_restarts, seat, spot_entered};
    ghost use Rattle.sr_streams.specs.Sums.{spot_before, KeepsSpots, KeepsCourse};

    /// Of no message. Takes no memory.
    pub fn new(alloc: Global) -> Numbers
        ensures { KeepsCourse (course_of []) result }
    {
        Numbers {
            recent: Vec::new(alloc),
            time: 0,
            top: 0,
            sums: Sums::none(),
        }
    }

    /// The first of the spots that is not ahead of this rank.
    fn seat(&self, rank: u128) -> Option<usize>
        ensures { result ≡ seat rank self.now.recent.items }
    {
        self.recent.iter().position(|spot| spot.rank() <= rank)
    }

    /// The spot before this place.
    fn before(&self, at: usize) -> Option<Spot>
        ensures { result ≡ spot_before at self.now.recent.items }
    {
        let at = at.checked_sub(1)?;
        self.recent.get(at).copied()
    }

    /// Takes a spot that stands by those before it. `NoMemory` where the one allocation failed; nothing is changed then.
    fn enter(&mut self, spot: Spot) -> Result<(), NoMemory>
        ensures ok { OnOk result ((spots : List Spot) → length spots + 1 < 2 ^ 64
            → KeepsSpots spots self.old → KeepsSpots (spot_entered spot spots) self.new) }
        ensures err { OnErr result ((spots : List Spot) → KeepsSpots spots self.old
            → KeepsSpots spots self.new) }
        ensures time { self.new.time ≡ self.old.time }
    {
        let Some(at) = self.seat(spot.rank()) else {
            return Ok(());
        };
        let older = self.recent[at];
        if older.rank() == spot.rank() {
            return Ok(());
        }
        let newer = self.before(at);
        let Ok(()) = self.recent.insert(at, spot) else {
            return Err(NoMemory);
        };
        self.recent.truncate(KEPT_SPOTS);
        self.top = self.top.max(spot.number);
        self.sums = self.sums.with(newer, spot, older);
        Ok(())
    }

    /// Takes the first message.
    fn begin(&mut self, x: Arrival) -> Result<(), NoMemory>
        requires { self.old.recent.items ≡ [] }
        ensures ok { OnOk result ((course : Course) → KeepsCourse course self.old
            → KeepsCourse (message_taken x course) self.new) }
        ensures err { OnErr result ((course : Course) → KeepsCourse course self.old
            → KeepsCourse course self.new) }
    {
        let spot = begun(0, x.counter);
        let Ok(()) = self.recent.push(spot) else {
            return Err(NoMemory);
        };
        self.time = x.time;
        self.top = spot.number;
        self.sums = Sums::one(spot);
        Ok(())
    }

    /// Takes a message behind others, of which this one is furthest ahead.
    fn go_on(&mut self, latest: Spot, x: Arrival) -> Result<(), NoMemory>
        requires { slice_get self.old.recent.items 0 ≡ Some latest }
        ensures ok { OnOk result ((course : Course) → length course.spots + 1 < 2 ^ 64
            → KeepsCourse course self.old → KeepsCourse (message_taken x course) self.new) }
        ensures err { OnErr result ((course : Course) → KeepsCourse course self.old
            → KeepsCourse course self.new) }
    {
        let heard = Heard {
            latest,
            time: self.time,
            top: self.top,
        };
        let spot = heard.spot_of(x.time, x.counter);
        self.enter(spot)?;
        if latest.rank() < spot.rank() {
            self.time = x.time;
        }
        Ok(())
    }

    /// Takes the next message of the stream.
    ///
    /// # Errors
    /// `NoMemory` where the one allocation failed: nothing is changed then.
    pub fn note(&mut self, x: Arrival) -> Result<(), NoMemory>
        ensures ok { OnOk result ((xs : List Arrival) → length xs + 1 < 2 ^ 64
            → KeepsCourse (course_of xs) self.old → KeepsCourse (course_of (x ∷ xs)) self.new) }
        ensures err { OnErr result ((course : Course) → KeepsCourse course self.old
            → KeepsCourse course self.new) }
    {
        match self.recent.first().copied() {
            Some(latest) => self.go_on(latest, x),
            None => self.begin(x),
        }
    }

    /// How many messages came, copies left out.
    pub fn came(&self) -> u64
        ensures { (course : Course) → KeepsCourse course self.now → result ≡ length course.spots }
    {
        self.sums.came
    }

    /// How many messages are missing, as far as 64 bits count.
    pub fn missing(&self, kind: Kind) -> u64
        ensures { (course : Course) → KeepsCourse course self.now
            → result ≡ min (missing_of kind course.spots) (2 ^ 64 - 1) }
    {
        capped(self.sums.missing(kind, self.top))
    }

    /// How often the sender began anew.
    pub fn restarts(&self) -> u32
        ensures { (course : Course) → KeepsCourse course self.now
            → result ≡ run_restarts course.spots }
    {
        match self.recent.first() {
            Some(latest) => latest.run,
            None => 0,
        }
    }
}
