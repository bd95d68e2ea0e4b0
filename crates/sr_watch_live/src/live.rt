//! Both LANs and their watch: what comes is taken in the order of its times, as far as that can be waited for.

use crate::clock::between;
use crate::lane::{Lane, State};
use crate::message::{End, Message, Then};
use crate::running::WatchFault;
use crate::telling::Telling;
use crossbeam_channel::{RecvTimeoutError, TryRecvError};
use sr_audit::Side;
use sr_prp_trailer::Lan;
use sr_watch::Watch;
use std::sync::Wait;
use std::time::{Clock, Instant};

/// How many messages of a LAN are taken at once while the other one has nothing.
const TAKEN_AT_ONCE: u64 = 64;

/// How many packets of both LANs are taken at once.
const MERGED_AT_ONCE: u64 = 1024;

/// Both LANs and their watch.
#[derive(Drop)]
pub(crate) struct Live {
    pub watch: Watch,
    pub a: Lane,
    pub b: Lane,
    /// From when on real time is counted.
    pub start: Instant,
    /// For how long a recorder may keep a packet, in nanoseconds.
    pub slack: u64,
}

/// What a LAN answers that is asked for more.
#[derive(Drop)]
enum Answer {
    /// A message.
    Message(Message),
    /// Nothing came.
    Nothing,
    /// Its thread has gone.
    Gone,
}

/// The name of a LAN.
pub(crate) fn lan_of(side: Side) -> Lan {
    match side {
        Side::A => Lan::A,
        Side::B => Lan::B,
    }
}

impl Live {
    fn lane(&self, side: Side) -> &Lane {
        match side {
            Side::A => &self.a,
            Side::B => &self.b,
        }
    }

    /// Which LAN is asked first: one that did not begin yet, or the one that is behind. None: neither may be asked.
    fn asked(&self) -> Option<Side> {
        match (self.a.is_open(), self.b.is_open()) {
            (true, true) => Some(self.behind()),
            (true, false) => Some(Side::A),
            (false, true) => Some(Side::B),
            (false, false) => None,
        }
    }

    fn behind(&self) -> Side {
        if self.a.state == State::Awaited {
            Side::A
        } else if self.b.state == State::Awaited || self.b.newest < self.a.newest {
            Side::B
        } else {
            Side::A
        }
    }

    /// Whether a capture has begun.
    pub(crate) fn has_begun(&self) -> bool {
        self.a.has_begun || self.b.has_begun
    }

    /// The time of the first packet of both captures.
    pub(crate) fn first(&self) -> Option<u64> {
        match (self.a.first, self.b.first) {
            (Some(a), Some(b)) => Some(a.min(b)),
            (a, b) => a.or(b),
        }
    }

    /// Whether both captures have ended for good, and all of them was taken.
    pub(crate) fn is_done(&self) -> bool {
        self.a.is_done() && self.b.is_done() && self.is_drained()
    }

    fn is_drained(&self) -> bool {
        self.a.is_drained() && self.b.is_drained()
    }

    /// Takes a message of a LAN.
    fn obey(&mut self, side: Side, message: Message, now: u64) -> Option<End> {
        match side {
            Side::A => self.a.obey(&mut self.watch, message, now),
            Side::B => self.b.obey(&mut self.watch, message, now),
        }
    }

    /// Has the watch take the next packet of a LAN. False: there is none, or the watch has no room.
    fn take_one(&mut self, side: Side, now: u64) -> Result<bool, WatchFault> {
        match side {
            Side::A => self.a.take_one(&mut self.watch, now),
            Side::B => self.b.take_one(&mut self.watch, now),
        }
    }

    /// Has the watch take what came of a LAN, whatever may come of the other one.
    fn pour(&mut self, side: Side, now: u64) -> Result<(), WatchFault> {
        match side {
            Side::A => self.a.pour(&mut self.watch, now),
            Side::B => self.b.pour(&mut self.watch, now),
        }
    }

    /// Tells the watch of the end of a LAN's capture, where all that the other LAN has up to it was taken, or did not come in time.
    fn settle(&mut self, side: Side, now: u64) {
        let Some(since) = self.lane(side).ending_since() else {
            return;
        };
        let end = self.lane(side).newest;
        let is_late = now.saturating_sub(since) >= self.slack;
        if is_late || self.lane(side.other()).has_passed(end) {
            match side {
                Side::A => self.a.end(&mut self.watch),
                Side::B => self.b.end(&mut self.watch),
            }
        }
    }

    /// The LAN whose packet is next: the earlier one, where both have one. None: what comes of a LAN may be earlier.
    fn next(&self) -> Option<Side> {
        match (self.a.next_time(), self.b.next_time()) {
            (Some(a), Some(b)) if b < a => Some(Side::B),
            (Some(_), Some(_)) => Some(Side::A),
            (Some(_), None) if self.b.is_over() => Some(Side::A),
            (None, Some(_)) if self.a.is_over() => Some(Side::B),
            _ => None,
        }
    }

    /// Has the watch take a packet: of the LAN that is next, or of the other one where it has no room for that. False: there is none.
    fn step(&mut self, now: u64) -> Result<bool, WatchFault> {
        self.settle(Side::A, now);
        self.settle(Side::B, now);
        let Some(side) = self.next() else {
            return Ok(false);
        };
        if self.take_one(side, now)? {
            return Ok(true);
        }
        let is_one = self.take_one(side.other(), now)?;
        self.watch.advance()?;
        Ok(is_one)
    }

    /// Has the watch take what came of both LANs in the order of its times.
    fn merge(&mut self, now: u64) -> Result<(), WatchFault> {
        for _ in 0..MERGED_AT_ONCE {
            if !self.step(now)? {
                break;
            }
        }
        self.watch.advance()?;
        Ok(())
    }

    /// Takes what a LAN answers.
    fn take_answer<T: Telling>(&mut self, telling: &T, side: Side, answer: Answer, now: u64) {
        let end = match answer {
            Answer::Message(message) => self.obey(side, message, now),
            Answer::Nothing => {
                self.watch.silent(side, now);
                None
            }
            Answer::Gone => self.obey(side, Message::Ended(End::Whole, Then::Nothing), now),
        };
        if let Some(end) = end {
            if end != End::Whole {
                telling.tell(lan_of(side), end);
            }
        }
    }

    /// Whether a LAN is waited for before the other one is read: at the beginning, until both captures have begun.
    fn waits_for(&self, side: Side, now: u64) -> bool {
        self.lane(side).state == State::Awaited
            && self.lane(side.other()).state == State::Running
            && now < self.slack
    }

    /// Takes what a LAN has now, while the other one has nothing.
    fn pass<R: Wait, T: Telling>(
        &mut self,
        rt: &R,
        telling: &T,
        side: Side,
        now: u64,
    ) -> Result<(), WatchFault> {
        for _ in 0..TAKEN_AT_ONCE {
            if self.waits_for(side.other(), now) {
                return Ok(());
            }
            self.pour(side, now)?;
            self.watch.advance()?;
            if !self.lane(side).is_open() {
                return Ok(());
            }
            let answer = match self.lane(side).from.try_recv(rt) {
                Ok(message) => Answer::Message(message),
                Err(TryRecvError::Empty) => Answer::Nothing,
                Err(TryRecvError::Disconnected) => Answer::Gone,
            };
            let is_over = matches!(answer, Answer::Nothing);
            self.take_answer(telling, side, answer, now);
            if is_over {
                return Ok(());
            }
        }
        Ok(())
    }

    /// Takes what comes of a LAN until a moment. Where that is nothing, it takes what the other one has.
    fn take_from<R: Wait + Clock, T: Telling>(
        &mut self,
        rt: &R,
        telling: &T,
        side: Side,
        until: Instant,
    ) -> Result<(), WatchFault> {
        let answer = match self.lane(side).from.recv_deadline(rt, until) {
            Ok(message) => Answer::Message(message),
            Err(RecvTimeoutError::Timeout) => Answer::Nothing,
            Err(RecvTimeoutError::Disconnected) => Answer::Gone,
        };
        let is_silent = matches!(answer, Answer::Nothing);
        let now = between(self.start, Instant::now(rt)?);
        self.take_answer(telling, side, answer, now);
        if is_silent {
            self.pass(rt, telling, side.other(), now)?;
        }
        Ok(())
    }

    /// Takes what comes until a moment.
    pub(crate) fn take<R: Wait + Clock, T: Telling>(
        &mut self,
        rt: &R,
        telling: &T,
        until: Instant,
    ) -> Result<(), WatchFault> {
        if let Some(side) = self.asked() {
            self.take_from(rt, telling, side, until)?;
        }
        self.merge(between(self.start, Instant::now(rt)?))
    }
}
