//! Arrivals that wait, and are released in one order.

ghost use Rattle.std.specs.Prelude.{◌≡◌, ◌<◌, ◌++◌, ◌∷◌, [], length, drop, OnOk, OnErr, IfErr};
ghost use Rattle.sr_hold.specs.Limits.{line_room};
ghost use Rattle.sr_hold.specs.Order.{front_moment, front_released, due, IsRefusedAt};

use crate::mark::Mark;
use crate::progress::Progress;
use crate::recorder::Recorder;
use std::alloc::Global;
use std::collections::VecDeque;
use std::marker::Model;

/// The most arrivals of a recorder that wait (choice of this project).
pub const LINE_ROOM: usize = 262_144;

/// What waits, with its moment.
#[derive(Drop)]
pub struct Held<T> {
    /// In nanoseconds of capture time.
    pub moment: u64,
    /// What came.
    pub item: T,
}

/// What is released.
#[derive(Drop)]
pub struct Released<T> {
    /// Of which recorder it is.
    pub recorder: Recorder,
    /// Its moment, in nanoseconds of capture time.
    pub moment: u64,
    /// What came.
    pub item: T,
}

/// What was not taken, and why.
#[derive(Drop)]
pub enum Refused<T> {
    /// As many arrivals of the recorder wait as may: its reader is to wait too.
    Full(T),
    /// An allocation failed.
    AllocFailed(T),
}

/// Arrivals of two recorders, each with its moment, until nothing earlier can come. No call walks over what waits.
#[derive(Drop)]
pub struct Hold<T> {
    a: VecDeque<Held<T>>,
    b: VecDeque<Held<T>>,
    progress: Progress,
}

impl<T> Model for Hold<T> {
    ghost use Rattle.sr_hold.specs.Holding.{Holding};

    ghost Value = { Holding T };

    ghost view = { λ h. record { a = h.a.items; b = h.b.items; progress = h.progress } };
}

/// The moment of the arrival that has waited longest.
fn front_moment<T>(line: &VecDeque<Held<T>>) -> Option<u64>
    ensures { result ≡ front_moment line.now.items }
{
    match line.front() {
        Some(held) => Some(held.moment),
        None => None,
    }
}

/// Of which recorder the next one to be released is, by the moments of those that have waited longest: the earlier one, A before B at
/// equal moments, if it lies on this side of the mark.
fn due(mark: Mark, a: Option<u64>, b: Option<u64>) -> Option<Recorder>
    ensures { result ≡ due mark a b }
{
    let (recorder, moment) = match (a, b) {
        (Some(a), Some(b)) if b < a => (Recorder::B, b),
        (Some(a), _) => (Recorder::A, a),
        (None, Some(b)) => (Recorder::B, b),
        (None, None) => return None,
    };
    if mark.passes(moment) {
        Some(recorder)
    } else {
        None
    }
}

/// Puts an arrival behind those of its line.
fn put<T>(line: &mut VecDeque<Held<T>>, held: Held<T>) -> Result<(), Refused<T>>
    ensures ok { OnOk result (line.new.items ≡ line.old.items ++ held ∷ []) }
    ensures room { OnOk result (length line.old.items < line_room) }
    ensures err { OnErr result (line.new.items ≡ line.old.items) }
    ensures refused { IfErr result (IsRefusedAt line.old.items held.item) }
{
    if LINE_ROOM <= line.len() {
        return Err(Refused::Full(held.item));
    }
    match line.push_back(held) {
        Ok(()) => Ok(()),
        Err(failed) => Err(Refused::AllocFailed(failed.value.item)),
    }
}

/// The arrival that has waited longest in a line, as what is released.
fn take_front<T>(recorder: Recorder, line: &mut VecDeque<Held<T>>) -> Option<Released<T>>
    ensures released { result ≡ front_released recorder line.old.items }
    ensures rest { line.new.items ≡ drop 1 line.old.items }
{
    match line.pop_front() {
        Some(held) => Some(Released {
            recorder,
            moment: held.moment,
            item: held.item,
        }),
        None => None,
    }
}

impl<T> Hold<T> {
    ghost use Rattle.std.specs.Prelude.{◌≡◌, ◌<◌, length, OnOk, OnErr, IfErr};
    ghost use Rattle.sr_hold.specs.Limits.{line_room};
    ghost use Rattle.sr_hold.specs.Order.{IsRefusedAt};
    ghost use Rattle.sr_hold.specs.Holding.{beginning, with_arrival, line_of, next_of, without_next, paced};
    ghost use Rattle.sr_hold.specs.Pacing.{pace_of, heard_by, silent_by, ended_by, begun_by};

    /// Nothing waits, and both recorders begin at this real time. No recorder keeps a packet for longer than the slack.
    pub fn new(alloc: Global, slack: u64, now: u64) -> Hold<T>
        ensures { result ≡ beginning slack now }
    {
        Hold {
            a: VecDeque::new(alloc),
            b: VecDeque::new(alloc),
            progress: Progress::new(slack, now),
        }
    }

    /// Takes an arrival of this capture time, which came at this real time. Its moment is the time, but not before the packet ahead of it in
    /// its capture. Where that is behind the mark, it is counted, and the moment is that of the mark.
    ///
    /// # Errors
    /// `Full` where as many of this recorder wait as may, `AllocFailed` where an allocation failed: nothing changed, and the item is given back.
    pub fn came(
        &mut self,
        recorder: Recorder,
        time: u64,
        now: u64,
        item: T,
    ) -> Result<(), Refused<T>>
        ensures ok { OnOk result (self.new ≡ with_arrival recorder time now item self.old) }
        ensures room { OnOk result (length (line_of recorder self.old) < line_room) }
        ensures err { OnErr result (self.new ≡ self.old) }
        ensures refused { IfErr result (IsRefusedAt (line_of recorder self.old) item) }
    {
        let pace = self.progress.pace(recorder);
        let moment = pace.moment_at(self.progress.mark, time);
        let held = Held { moment, item };
        match recorder {
            Recorder::A => put(&mut self.a, held)?,
            Recorder::B => put(&mut self.b, held)?,
        }
        self.progress = self.progress.arrived(recorder, time, now);
        Ok(())
    }

    /// A packet of this capture time came at this real time, which is no arrival.
    pub fn heard(&mut self, recorder: Recorder, time: u64, now: u64)
        ensures { self.new ≡ paced (heard_by recorder time now) self.old }
    {
        self.progress = self.progress.heard(recorder, time, now);
    }

    /// All that had come from a recorder by this real time was told.
    pub fn silent(&mut self, recorder: Recorder, now: u64)
        ensures { self.new ≡ paced (silent_by recorder now) self.old }
    {
        self.progress = self.progress.silent(recorder, now);
    }

    /// A recorder ended.
    pub fn ended(&mut self, recorder: Recorder)
        ensures { self.new ≡ paced (ended_by recorder) self.old }
    {
        self.progress = self.progress.ended(recorder);
    }

    /// A recorder begins once more, at this real time.
    pub fn begun(&mut self, recorder: Recorder, now: u64)
        ensures { self.new ≡ paced (begun_by recorder now) self.old }
    {
        self.progress = self.progress.begun(recorder, now);
    }

    /// Releases the next arrival, if nothing earlier can come.
    pub fn release(&mut self) -> Option<Released<T>>
        ensures next { result ≡ next_of self.old }
        ensures rest { self.new ≡ without_next self.old }
    {
        match due(
            self.progress.mark,
            front_moment(&self.a),
            front_moment(&self.b),
        ) {
            Some(Recorder::A) => take_front(Recorder::A, &mut self.a),
            Some(Recorder::B) => take_front(Recorder::B, &mut self.b),
            None => None,
        }
    }

    /// How many arrivals of a recorder wait.
    pub fn waiting(&self, recorder: Recorder) -> usize
        ensures { result ≡ length (line_of recorder self.now) }
    {
        match recorder {
            Recorder::A => self.a.len(),
            Recorder::B => self.b.len(),
        }
    }

    /// The mark: all arrivals of both recorders came up to this time, in nanoseconds of capture time. No call puts it back.
    pub fn mark(&self) -> u64
        ensures { result ≡ self.now.progress.mark.time }
    {
        self.progress.mark.time
    }

    /// How many arrivals of a recorder came behind the mark.
    pub fn behind(&self, recorder: Recorder) -> u64
        ensures { result ≡ (pace_of recorder self.now.progress).behind }
    {
        self.progress.pace(recorder).behind
    }
}
