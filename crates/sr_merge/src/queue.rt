//! The packets that wait, and where the newest copy of each frame stands among them.

ghost use Rattle.std.specs.Prelude.{◌≡◌, ◌<◌, ◌||◌, length, nat_lt, ◌-◌, set, slice_index_or, OnOk, OnErr};
ghost use Rattle.std.specs.HashMap.{IsUnchanged};
ghost use Rattle.sr_merge.specs.declared.waiting.Waiting.{Waiting as WaitingPacket};
ghost use Rattle.sr_merge.specs.Limits.{copy_time};
ghost use Rattle.sr_merge.specs.Merging.{frame_at, unmet_at, PutsPlace, ForgetsPlace, ForgetsFrame};

use crate::came::{Came, FrameAt, FrameId};
use crate::waiting::{COPY_TIME, Waiting};
use sr_frame::NoMemory;
use sr_slots::Keys;
use std::alloc::Global;
use std::collections::{HashMap, VecDeque};
use std::marker::Model;

/// The packets that wait, in the order in which they came. However many wait and whatever their frames are, a copy is noted, a packet
/// put and one taken out by one look-up each.
#[derive(Drop)]
pub(crate) struct Queue {
    waiting: VecDeque<Waiting>,
    // The place of the newest copy of each frame by each side, counted in 64 bits from the first packet that ever waited, until a copy
    // comes by the other side: so few are noted, however many wait.
    newest: HashMap<FrameAt, u64, Keys>,
    // How many packets waited and were taken out.
    gone: u64,
}

impl Model for Queue {
    ghost use Rattle.std.specs.Prelude.{List, map, ◌<◌, ◌^◌};
    ghost use Rattle.sr_merge.specs.Merging.{Pending, pending_of, HasPlaces};

    ghost Value = { List Pending };

    ghost view = { λ q. map pending_of q.waiting.items };

    ghost invariant = { λ q.
        (q.gone < 2 ^ 64) × HasPlaces q.gone q.newest (map pending_of q.waiting.items) };
}

/// The frame and side of a packet, where no copy of it is known, so that its place may be noted.
fn unmet_at(waiting: &Waiting) -> Option<FrameAt>
    ensures { result ≡ unmet_at waiting.now.is_met
        (frame_at waiting.now.came.side waiting.now.came.frame) }
{
    if waiting.is_met {
        return None;
    }
    waiting.came.at()
}

/// Notes a place at a frame and a side.
fn put(newest: &mut HashMap<FrameAt, u64, Keys>, at: FrameAt, place: u64) -> Result<(), NoMemory>
    ensures ok { OnOk result (PutsPlace at place newest.old newest.new) }
    ensures err { OnErr result (IsUnchanged newest.old newest.new) }
{
    match newest.insert(at, place) {
        Ok(_) => Ok(()),
        Err(_) => Err(NoMemory),
    }
}

/// Forgets what is noted at a frame and a side.
fn forget_all(newest: &mut HashMap<FrameAt, u64, Keys>, at: FrameAt)
    ensures { ForgetsFrame at newest.old newest.new }
{
    let _ = newest.remove(&at);
}

/// Forgets a place at a frame and a side, if it is what is noted there.
fn forget(newest: &mut HashMap<FrameAt, u64, Keys>, at: FrameAt, place: u64)
    ensures { ForgetsPlace at place newest.old newest.new }
{
    let is_noted = match newest.get(&at) {
        Some(noted) => *noted == place,
        None => false,
    };
    if is_noted {
        forget_all(newest, at);
    }
}

/// Notes that a copy of the packet at a place comes by the other side, and answers whether one is known now.
fn meet(waiting: &mut VecDeque<Waiting>, at: usize, time: u64) -> bool
    requires { at < length waiting.old.items }
    ensures met { (d : WaitingPacket) → waiting.new.items ≡ set waiting.old.items at
        (record (slice_index_or waiting.old.items at d) {
          is_met = (slice_index_or waiting.old.items at d).is_met
              || nat_lt (time - (slice_index_or waiting.old.items at d).came.time) copy_time;
        }) }
    ensures known { (d : WaitingPacket) → result ≡ ((slice_index_or waiting.old.items at d).is_met
        || nat_lt (time - (slice_index_or waiting.old.items at d).came.time) copy_time) }
{
    let first = &mut waiting[at];
    first.is_met = first.is_met || time.saturating_sub(first.came.time) < COPY_TIME;
    first.is_met
}

impl Queue {
    ghost use Rattle.std.specs.Prelude.{◌≡◌, ◌↔◌, ◌<◌, ◌++◌, ◌∷◌, [], length, drop, true, false, None, Some, OnOk, OnErr, IfSome, IfNone};
    ghost use Rattle.sr_merge.specs.Merging.{pending_of, next_written, newest_copy, is_settled, copy_noted};

    /// Nothing waits.
    pub fn new(alloc: Global, keys: Keys) -> Queue
        ensures { result ≡ [] }
    {
        Queue {
            waiting: VecDeque::new(alloc),
            newest: HashMap::with_hasher(alloc, keys),
            gone: 0,
        }
    }

    /// How many packets wait.
    pub fn len(&self) -> usize
        ensures { result ≡ length self.now }
    {
        self.waiting.len()
    }

    /// The packet that came first.
    pub fn front(&self) -> Option<&Waiting>
        ensures none { result ≡ None ↔ (next_written self.now ≡ None) }
        ensures some { IfSome result (λ w. next_written self.now ≡ Some (pending_of w.now)) }
    {
        self.waiting.front()
    }

    /// Has a packet wait behind all others, of which no copy is known.
    ///
    /// # Errors
    /// `NoMemory` where an allocation failed: nothing changed.
    pub fn push(&mut self, waiting: Waiting) -> Result<(), NoMemory>
        requires { waiting.is_met ≡ false }
        ensures ok { OnOk result (self.new ≡ self.old ++ pending_of waiting ∷ []) }
        ensures err { OnErr result (self.new ≡ self.old) }
    {
        self.waiting.reserve(1)?;
        let place = self.gone.wrapping_add(self.waiting.len() as u64);
        if let Some(at) = waiting.came.at() {
            put(&mut self.newest, at, place)?;
        }
        self.waiting.push_back_reserved(waiting);
        Ok(())
    }

    /// Takes out the packet that came first.
    pub fn pop(&mut self) -> Option<Waiting>
        ensures { self.new ≡ drop 1 self.old }
    {
        // The length is a number of 64 bits.
        let _waiting = self.waiting.len();
        let first = self.waiting.pop_front()?;
        if let Some(at) = unmet_at(&first) {
            forget(&mut self.newest, at, self.gone);
        }
        self.gone = self.gone.wrapping_add(1);
        Some(first)
    }

    /// The place of the newest copy of a frame by a side. None: nothing waits of it there, or a copy by the other side is known.
    fn newest(&self, at: FrameAt) -> Option<usize>
        ensures place { IfSome result (λ place. newest_copy at self.now ≡ Some place) }
        ensures settled { IfNone result (is_settled self.now (newest_copy at self.now) ≡ true) }
        ensures within { IfSome result (λ place. place < length self.now) }
    {
        // The length is a number of 64 bits.
        let _waiting = self.waiting.len();
        let place = *self.newest.get(&at)?;
        Some(place.wrapping_sub(self.gone) as usize)
    }

    /// Notes a copy of a frame at the newest one that came by the other side.
    pub fn note(&mut self, came: Came, frame: FrameId)
        ensures { self.new ≡ copy_noted came (Some frame) self.old }
    {
        let side = came.side.other();
        let at = FrameAt { frame, side };
        let Some(place) = self.newest(at) else {
            return;
        };
        if meet(&mut self.waiting, place, came.time) {
            forget_all(&mut self.newest, at);
        }
    }
}
