//! The merge: packets are taken one by one in the order of their times, and wait for their verdict in that order.

ghost use Rattle.std.specs.Prelude.{◌≡◌, ℕ, ◌<◌, ◌≤◌, ◌+◌, ◌/◌, ◌++◌, ◌∷◌, [], true, Some, is_some, length, vec_len, vec_capacity, IfOk, OnOk, IsOk};
ghost use Rattle.sr_slots.specs.Places.{IsFound};
ghost use Rattle.sr_dup_table.specs.Limits.{window, forget_time};
ghost use Rattle.sr_dup_table.specs.Sources.{is_ready};
ghost use Rattle.sr_merge.specs.Limits.{record_step, copy_time};
ghost use Rattle.sr_merge.specs.Merging.{answer_for, sources_told};

use crate::came::FrameId;
use crate::packet::Packet;
use crate::queue::Queue;
use crate::waiting::{Verdict, Waiting};
use sr_dup_table::DupTable;
use sr_dup_window::{Lane, Lanes};
use sr_frame::NoMemory;
use sr_slots::{Hint, Keys};
use std::alloc::Global;
use std::marker::Model;

/// The step of the clock of the duplicate record, in nanoseconds. The record remembers a silent source for 400 steps: 400.197 to
/// 401.2 ms, and so no less than copies are waited for (choice of this project).
const RECORD_STEP: u64 = 1_003_000;

/// Once so many packets wait, the first one is due without a verdict (choice of this project).
const MAX_WAITING: usize = 262_144;

/// The most lists of octets that are used again.
const MAX_SPARE: usize = 4096;

/// The packets that came in and were not written yet, and the duplicate record that tells which are copies of earlier ones.
#[derive(Drop)]
pub struct Merge {
    alloc: Global,
    table: DupTable,
    queue: Queue,
    // How many packets were taken as they came, since the table was full.
    untold: u64,
    spare: Vec<Vec<u8>>,
}

impl Model for Merge {
    ghost use Rattle.std.specs.Prelude.{◌≡◌};
    ghost use Rattle.sr_dup_table.specs.Limits.{window};
    ghost use Rattle.sr_merge.specs.Merging.{Merging};

    ghost Value = { Merging };

    ghost view = { λ m. record {
      sources = m.table.sources;
      waiting = m.queue;
      untold = m.untold;
    } };

    ghost invariant = { λ m. m.table.width ≡ window };
}

/// The time of the duplicate record, in steps of its clock.
fn record_time(time: u64) -> u64
    ensures steps { result ≡ time / record_step }

    // A source that came less than 400 ms before is remembered.
    ensures remembered { (before : ℕ) → before ≤ time → time < before + copy_time
        → result < before / record_step + forget_time }
{
    time / RECORD_STEP
}

/// Makes the table ready for a copy that it can take. Nothing that shows changes.
fn make_ready(table: &mut DupTable, hint: Option<Hint>, frame: FrameId) -> Result<(), NoMemory>
    requires { IsFound hint table.old.sources frame.src }
    ensures width { table.new.width ≡ table.old.width }
    ensures sources { table.new.sources ≡ table.old.sources }
    ensures ready { OnOk result (is_ready table.new.held table.new.sources frame.src ≡ true) }
    ensures known { is_some hint ≡ true → (IsOk result) × (table.new ≡ table.old) }
{
    if hint.is_none() {
        table.reserve(frame.src)?;
    }
    Ok(())
}

/// Notes a copy that the table can take.
fn note(table: &mut DupTable, hint: Option<Hint>, frame: FrameId, time: u64)
    requires width { table.old.width ≡ window }
    requires hint { IsFound hint table.old.sources frame.src }
    requires ready { is_ready table.old.held table.old.sources frame.src ≡ true }
    requires told { is_some (answer_for table.old.sources frame time) ≡ true }
    ensures width { table.new.width ≡ window }
    ensures sources { table.new.sources ≡ sources_told table.old.sources time (Some frame) }
{
    let now = record_time(time);
    table
        .arrive_at(hint, frame.src, frame.seq, Lanes::H, now)
        .unwrap();
}

/// An empty list with room for so many.
fn spare_of(alloc: Global, room: usize) -> Result<Vec<Vec<u8>>, NoMemory> {
    Ok(Vec::with_capacity(alloc, room)?)
}

/// Puts a list aside that may be used again, where there is room for it.
fn put_aside(spare: &mut Vec<Vec<u8>>, octets: Vec<u8>)
    ensures room { vec_len spare.old < vec_capacity spare.old
        → spare.new.items ≡ spare.old.items ++ octets ∷ [] }
    ensures full { vec_len spare.old ≡ vec_capacity spare.old
        → spare.new.items ≡ spare.old.items }
    ensures capacity { vec_capacity spare.new ≡ vec_capacity spare.old }
{
    if spare.len() < spare.capacity() {
        spare.push_reserved(octets);
    }
}

/// The octets of two pieces in a list, in place of what it held. A list with room for them takes no memory.
fn joined(mut list: Vec<u8>, front: &[u8], back: &[u8]) -> Result<Vec<u8>, NoMemory>
    ensures joined { IfOk result (λ list. list.items ≡ front.now ++ back.now) }
    ensures room { length front.now + length back.now ≤ vec_capacity list → IsOk result }
{
    list.clear();
    list.extend_from_slice(front)?;
    list.extend_from_slice(back)?;
    Ok(list)
}

/// A packet that is to be written before another is taken.
pub struct Due<'a> {
    /// The packet.
    pub waiting: &'a Waiting,
    /// By which sides it came. None: that is not known, and so many packets wait that it is waited for no longer.
    pub verdict: Option<Verdict>,
}

impl Merge {
    ghost use Rattle.std.specs.Prelude.{◌≡◌, ◌↔◌, ◌≤◌, ◌++◌, ◌∷◌, [], length, drop, true, None, Some, IfOk, OnOk, OnErr, IsOk, IfSome, is_some};
    ghost use Rattle.sr_slots.specs.Places.{IsFound};
    ghost use Rattle.sr_merge.specs.Limits.{most_held};
    ghost use Rattle.sr_merge.specs.Merging.{next_written, read_of, pending_of, unmet, copy_noted, answer_for, sources_told, verdict_of, TakesIn};
    ghost use Rattle.sr_merge.specs.Due.{due};

    /// Nothing came in yet.
    ///
    /// # Errors
    /// `NoMemory` where an allocation failed.
    pub fn new(alloc: Global, keys: Keys) -> Result<Merge, NoMemory>
        ensures sources { IfOk result (λ merge. merge.sources ≡ []) }
        ensures waiting { IfOk result (λ merge. merge.waiting ≡ []) }
        ensures untold { IfOk result (λ merge. merge.untold ≡ 0) }
    {
        let spare = spare_of(alloc, MAX_SPARE)?;
        Ok(Merge {
            alloc,
            table: DupTable::with_keys(alloc, keys),
            queue: Queue::new(alloc, keys),
            untold: 0,
            spare,
        })
    }

    /// How many packets were taken as they came, since 1024 other sources were live.
    pub fn untold(&self) -> u64
        ensures { result ≡ self.now.untold }
    {
        self.untold
    }

    /// The packet that is to be written next.
    pub fn front(&self) -> Option<&Waiting>
        ensures none { result ≡ None ↔ (next_written self.now.waiting ≡ None) }
        ensures some { IfSome result (λ w.
            next_written self.now.waiting ≡ Some (pending_of w.now)) }
    {
        self.queue.front()
    }

    /// The first packet, if it is due when one comes at this time: it is to be written before that one is taken.
    pub fn due(&self, now: u64) -> Option<Due<'_>>
        ensures none { result ≡ None ↔ (due now self.now.waiting ≡ []) }
        ensures first { IfSome result (λ d.
            next_written self.now.waiting ≡ Some (pending_of d.waiting.now)) }
        ensures verdict { IfSome result (λ d.
            d.verdict ≡ verdict_of now (pending_of d.waiting.now)) }
        ensures crowded { IfSome result (λ d.
            d.verdict ≡ None → most_held ≤ length self.now.waiting) }
    {
        let waiting = self.front()?;
        let verdict = waiting.verdict(now);
        if verdict.is_none() && self.queue.len() < MAX_WAITING {
            return None;
        }
        Some(Due { waiting, verdict })
    }

    /// Drops the packet that was written.
    pub fn drop_front(&mut self)
        ensures sources { self.new.sources ≡ self.old.sources }
        ensures waiting { self.new.waiting ≡ drop 1 self.old.waiting }
        ensures untold { self.new.untold ≡ self.old.untold }
    {
        if let Some(Waiting { octets, .. }) = self.queue.pop() {
            put_aside(&mut self.spare, octets);
        }
    }

    /// What is kept of a packet. Nothing that shows changes.
    fn kept(&mut self, packet: Packet<'_>) -> Result<Waiting, NoMemory>
        ensures same { self.new ≡ self.old }
        ensures unmet { IfOk result (λ w. pending_of w ≡ unmet (read_of packet.entry)) }
    {
        let list = match self.spare.pop() {
            Some(list) => list,
            None => Vec::new(self.alloc),
        };
        let octets = joined(list, packet.front, packet.back)?;
        Ok(Waiting {
            came: packet.came,
            is_met: false,
            number: packet.number,
            is_astray: packet.is_astray,
            octets,
        })
    }

    /// Has a packet wait of which no earlier copy can be told.
    fn keep(&mut self, packet: Packet<'_>) -> Result<(), NoMemory>
        ensures sources { self.new.sources ≡ self.old.sources }
        ensures kept { OnOk result (self.new.waiting
            ≡ self.old.waiting ++ unmet (read_of packet.entry) ∷ []) }
        ensures untold { self.new.untold ≡ self.old.untold }
        ensures err { OnErr result (self.new ≡ self.old) }
    {
        let waiting = self.kept(packet)?;
        self.queue.push(waiting)
    }

    /// Has the first copy of a frame wait, and notes it.
    fn keep_first(
        &mut self,
        packet: Packet<'_>,
        frame: FrameId,
        hint: Option<Hint>,
    ) -> Result<(), NoMemory>
        requires hint { IsFound hint self.old.sources frame.src }
        requires told { is_some (answer_for self.old.sources frame packet.came.time) ≡ true }
        ensures sources { OnOk result (self.new.sources
            ≡ sources_told self.old.sources packet.entry.came.time (Some frame)) }
        ensures kept { OnOk result (self.new.waiting
            ≡ self.old.waiting ++ unmet (read_of packet.entry) ∷ []) }
        ensures untold { self.new.untold ≡ self.old.untold }
        ensures err { OnErr result (self.new ≡ self.old) }
    {
        let waiting = self.kept(packet)?;
        make_ready(&mut self.table, hint, frame)?;
        self.queue.push(waiting)?;
        note(&mut self.table, hint, frame, packet.came.time);
        Ok(())
    }

    /// Notes a copy that is not written, at the record and at the packet that it is a copy of.
    fn note_copy(
        &mut self,
        packet: Packet<'_>,
        frame: FrameId,
        hint: Option<Hint>,
    ) -> Result<(), NoMemory>
        requires hint { IsFound hint self.old.sources frame.src }
        requires told { is_some (answer_for self.old.sources frame packet.came.time) ≡ true }
        ensures sources { OnOk result (self.new.sources
            ≡ sources_told self.old.sources packet.entry.came.time (Some frame)) }
        ensures noted { OnOk result (self.new.waiting
            ≡ copy_noted packet.entry.came (Some frame) self.old.waiting) }
        ensures untold { self.new.untold ≡ self.old.untold }
        ensures known { is_some hint ≡ true → IsOk result }
        ensures err { OnErr result (self.new ≡ self.old) }
    {
        make_ready(&mut self.table, hint, frame)?;
        note(&mut self.table, hint, frame, packet.came.time);
        self.queue.note(packet.came, frame);
        Ok(())
    }

    /// Takes a copy of a frame.
    fn take_copy(&mut self, packet: Packet<'_>, frame: FrameId) -> Result<(), NoMemory>
        requires { packet.came.frame ≡ Some frame }
        ensures taken { OnOk result (TakesIn self.old (read_of packet.entry) self.new) }
        ensures err { OnErr result (self.new ≡ self.old) }
    {
        let now = record_time(packet.came.time);
        let Ok(look) = self.table.look(frame.src, frame.seq, Lanes::H, now) else {
            self.keep(packet)?;
            self.untold = self.untold.saturating_add(1);
            return Ok(());
        };
        if look.fresh.has(Lane::H) {
            self.keep_first(packet, frame, look.hint)
        } else {
            self.note_copy(packet, frame, look.hint)
        }
    }

    /// Takes a packet. It waits to be written where it has no number, where no earlier copy of its frame is known, or where 1024 other
    /// sources are live, so that nothing can be told; else it is the copy of one that may wait yet. What is due then was written.
    ///
    /// # Errors
    /// `NoMemory` where an allocation failed: no packet was taken.
    pub fn take(&mut self, packet: Packet<'_>) -> Result<(), NoMemory>
        requires { due packet.came.time self.old.waiting ≡ [] }
        ensures taken { OnOk result (TakesIn self.old (read_of packet.entry) self.new) }
        ensures err { OnErr result (self.new ≡ self.old) }
    {
        match packet.came.frame {
            Some(frame) => self.take_copy(packet, frame),
            None => self.keep(packet),
        }
    }
}
