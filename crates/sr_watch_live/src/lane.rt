//! A LAN, as the loop sees it.

use crate::live::lan_of;
use crate::message::{End, Message, Taken, Then};
use crate::running::WatchFault;
use crossbeam_channel::Receiver;
use sr_audit::Side;
use sr_intake::{Kind, PacketCounts};
use sr_watch::{CameFault, Numbered, Watch};
use std::alloc::Global;

/// How far the capture of a LAN is.
#[derive(Clone, Copy, Debug, PartialEq, Eq)]
pub(crate) enum State {
    /// Its front was not read yet.
    Awaited,
    /// Its packets come.
    Running,
    /// Nothing more comes of it since this real time. The watch is told once the other LAN has come as far.
    Ending(u64),
    /// It has ended.
    Ended,
}

/// A LAN: what comes of it, and what of that a watch has not taken yet.
#[derive(Drop)]
pub(crate) struct Lane {
    side: Side,
    pub from: Receiver<Message>,
    pub state: State,
    /// What comes of it once its capture has ended.
    then: Then,
    /// Whether its capture has begun.
    pub has_begun: bool,
    pending: Vec<Taken>,
    place: usize,
    /// The time of the first packet that was taken.
    pub first: Option<u64>,
    /// The greatest time of a packet that was taken.
    pub newest: Option<u64>,
    /// What was counted of its packets since the start.
    pub counts: PacketCounts,
}

/// Has a watch take a packet of a LAN, or of the other one at a mirror port, which came at this real time.
fn take(watch: &mut Watch, side: Side, taken: Taken, now: u64) -> Result<(), CameFault> {
    match taken.kind {
        Kind::Numbered(numbered) if taken.lan == lan_of(side) => {
            let copy = Numbered {
                src: numbered.src,
                seq: numbered.seq,
            };
            watch.came(side, taken.time, now, copy)
        }
        _ => {
            watch.heard(side, taken.time, now);
            Ok(())
        }
    }
}

impl Lane {
    /// A LAN of which nothing came.
    pub(crate) fn new(alloc: Global, side: Side, from: Receiver<Message>) -> Lane {
        Lane {
            side,
            from,
            state: State::Awaited,
            then: Then::Nothing,
            has_begun: false,
            pending: Vec::new(alloc),
            place: 0,
            first: None,
            newest: None,
            counts: PacketCounts::NONE,
        }
    }

    /// Whether a watch took all that came of it.
    pub(crate) fn is_drained(&self) -> bool {
        self.place >= self.pending.len()
    }

    /// Whether its capture has ended, and no other one comes.
    pub(crate) fn is_done(&self) -> bool {
        self.state == State::Ended && self.then == Then::Nothing
    }

    /// Whether nothing more comes of its capture.
    pub(crate) fn is_over(&self) -> bool {
        matches!(self.state, State::Ending(_) | State::Ended)
    }

    /// Whether it may be asked for more.
    pub(crate) fn is_open(&self) -> bool {
        let may_come = match self.state {
            State::Awaited | State::Running => true,
            State::Ending(_) => false,
            State::Ended => self.then == Then::Another,
        };
        may_come && self.is_drained()
    }

    /// The time of the packet that is next to be taken. None: all were.
    pub(crate) fn next_time(&self) -> Option<u64> {
        self.pending.get(self.place).map(|taken| taken.time)
    }

    /// Whether all of it was taken up to the end of another capture that nothing more comes of, or it did not begin before that.
    pub(crate) fn has_passed(&self, end: Option<u64>) -> bool {
        match self.next_time() {
            Some(time) => end < Some(time),
            None => self.state != State::Running,
        }
    }

    /// Has a watch take the next packet, which came at this real time. False: there is none, or the watch has no room.
    pub(crate) fn take_one(&mut self, watch: &mut Watch, now: u64) -> Result<bool, WatchFault> {
        let Some(taken) = self.pending.get(self.place) else {
            return Ok(false);
        };
        let taken = *taken;
        match take(watch, self.side, taken, now) {
            Ok(()) => {}
            Err(CameFault::Full) => return Ok(false),
            Err(CameFault::NoMemory) => return Err(WatchFault::NoMemory),
        }
        if taken.lan == lan_of(self.side) {
            self.counts.note(taken.kind);
        }
        self.first = self.first.or(Some(taken.time));
        self.newest = self.newest.max(Some(taken.time));
        self.place = self.place.saturating_add(1);
        Ok(true)
    }

    /// Has a watch take what came of it, as far as the watch has room.
    pub(crate) fn pour(&mut self, watch: &mut Watch, now: u64) -> Result<(), WatchFault> {
        for _ in 0..self.pending.len() {
            if !self.take_one(watch, now)? {
                return Ok(());
            }
        }
        Ok(())
    }

    /// Takes a message that came at this real time. The answer is how the capture ended, if that is told.
    pub(crate) fn obey(&mut self, watch: &mut Watch, message: Message, now: u64) -> Option<End> {
        match message {
            Message::Begun => {
                self.state = State::Running;
                self.has_begun = true;
                watch.begun(self.side, now);
                None
            }
            Message::Came(batch) => {
                self.pending = batch;
                self.place = 0;
                None
            }
            Message::Ended(end, then) => {
                // Where no other one began behind a capture that has ended, the watch knows.
                if self.state != State::Ended {
                    self.state = State::Ending(now);
                }
                self.then = then;
                Some(end)
            }
        }
    }

    /// Since when nothing more comes of it, where the watch is still to be told.
    pub(crate) fn ending_since(&self) -> Option<u64> {
        match self.state {
            State::Ending(since) if self.is_drained() => Some(since),
            _ => None,
        }
    }

    /// Tells the watch that it has ended.
    pub(crate) fn end(&mut self, watch: &mut Watch) {
        self.state = State::Ended;
        watch.ended(self.side);
    }
}
