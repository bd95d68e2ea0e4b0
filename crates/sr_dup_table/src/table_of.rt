//! Tables of one width.
ghost use Rattle.std.specs.Prelude.{◌≡◌, ℕ, ◌*◌, ◌+◌, ◌==◌, ◌||◌, ◌⊎◌, IsTrue, ◌≤◌, ◌↔◌, [], true, false, not, nat_lt, Some, None, length, ◌++◌, ◌∷◌, IsOk, OnOk, OnErr, IfOk, IfErr, IfSome, IfNone, IsErr, IsErrOf, is_some};
ghost use Rattle.std.specs.Result.{result_ok};
ghost use Rattle.std.specs.Map.{lookup};
ghost use Rattle.std.specs.Option.{option_copied, option_map};
ghost use Rattle.sr_dup_window.specs.LaneSets.{is_empty};
ghost use Rattle.sr_dup_window.specs.Windows.{window_of};
ghost use Rattle.sr_frame.specs.Addresses.{mac_eq};
ghost use Rattle.sr_slots.specs.Places.{IsFound, KeepsHeld, KeepsAllHeld};
ghost use Rattle.sr_dup_table.specs.Limits.{most_sources};
ghost use Rattle.sr_dup_table.specs.Sources.{IsTable, is_held, is_ready, live_at, live_others, arrive_fault, with_room, arrive_answer, after_arrive, heard_next, fresh_at};
ghost use Rattle.sr_dup_table.specs.Joins.{is_apart, joined_heard, with_source};
ghost use Rattle.sr_dup_table.specs.Shown.{heard_of, sources_of};
ghost use Rattle.sr_dup_table.specs.Arrivals.{Arrives, as_table};

use crate::entry::{fresh, join, note};
use crate::fault::{DupFault, TableFull};
use sr_aged_slots::{Aged, AgedSlots};
use sr_dup_window::{Lanes, Record};
use sr_frame::{Mac, NoMemory};
use sr_sequence::Seq;
use sr_slots::{Hint, Iter, Keys};
use std::alloc::Global;
use std::marker::Model;

/// How long a silent source is remembered, in milliseconds (IEC 62439-3 clauses 4 and 5).
pub const ENTRY_FORGET_TIME: u64 = 400;

/// How many sources can be live at once (choice of this project).
pub const MAX_SOURCES: usize = 1024;

/// What a table says of a number before it arrives.
#[derive(Clone, Copy, Debug)]
pub struct Look {
    /// The asked lanes on which it is new.
    pub fresh: Lanes,
    /// Where the record of its source is, if there is one.
    pub hint: Option<Hint>,
}

/// Duplicate records by source, each of the last `64 * N` numbers (`N` is 16 or 32), in the order of first hearing. Times are in
/// milliseconds. A source that was silent for `ENTRY_FORGET_TIME` is forgotten: it counts as absent, and stands in the table until
/// it is heard again, until `age`, or until a new source meets a full table.
#[derive(Drop)]
pub struct TableOf<const N: usize> {
    slots: AgedSlots<Record<N>, ENTRY_FORGET_TIME, MAX_SOURCES>,
    ghost width: { IsTrue (N == 16 || N == 32) },
}

impl<const N: usize> Model for TableOf<N> {
    ghost use Rattle.sr_dup_table.specs.Sources.{Contents};

    ghost Value = { Contents };

    ghost use Rattle.sr_dup_table.specs.Shown.{sources_of};

    ghost view = { λ t. record { sources = sources_of t.slots.entries; held = t.slots.held } };
}

impl<const N: usize> TableOf<N> {
    /// A table of no source under fixed keys, which takes no memory yet.
    pub fn new(alloc: Global) -> TableOf<N>
        requires { IsTrue (N == 16 || N == 32) }
        ensures sources { result.sources ≡ [] }
        ensures held { result.held ≡ [] }
    {
        TableOf::with_keys(alloc, Keys::FIXED)
    }

    /// A table of no source whose places depend on these keys, which takes no memory yet.
    pub fn with_keys(alloc: Global, keys: Keys) -> TableOf<N>
        requires { IsTrue (N == 16 || N == 32) }
        ensures sources { result.sources ≡ [] }
        ensures held { result.held ≡ [] }
    {
        TableOf {
            slots: AgedSlots::with_keys(alloc, keys),
        }
    }

    /// A table of its own with the same sources in the same order, under the same keys. It holds no place.
    /// NoMemory: an allocation failed.
    pub fn try_clone(&self) -> Result<TableOf<N>, NoMemory>
        ensures sources { IfOk result (λ own. own.sources ≡ self.now.sources) }
        ensures held { IfOk result (λ own. own.held ≡ []) }
    {
        let slots = self.slots.try_clone()?;
        Ok(TableOf { slots })
    }

    /// The sources in order, forgotten or not, each with its record and the time when it was last heard.
    pub fn entries(&self) -> Iter<'_, Aged<Record<N>>>
        ensures { sources_of result ≡ self.now.sources }
    {
        self.slots.iter()
    }

    /// The record of a source, forgotten or not, and the time when it was last heard.
    pub fn entry(&self, src: Mac) -> Option<&Aged<Record<N>>>
        ensures { option_map heard_of (option_copied result)
            ≡ lookup (mac_eq src) self.now.sources }
    {
        self.slots.get(src)
    }

    /// How many sources stand in the table, the forgotten ones among them.
    pub fn source_count(&self) -> usize
        ensures count { result ≡ length self.now.sources }
        ensures table { IsTable self.now.sources }
        ensures live { (now : ℕ) → length (live_at now self.now.sources) ≤ most_sources }
        ensures width { (N ≡ 16) ⊎ (N ≡ 32) }
    {
        // Held places are no sources.
        self.slots.len()
    }

    /// Makes room for so many more sources, in one growth. Nothing that shows changes. NoMemory: an allocation failed.
    pub fn make_room(&mut self, more: usize) -> Result<(), NoMemory>
        ensures { self.new ≡ self.old }
    {
        self.slots.reserve(more)
    }

    /// Holds a place for a source, so that its next arrival takes no memory. Nothing else sees the place.
    /// NoMemory: an allocation failed, and nothing changes.
    pub fn reserve(&mut self, src: Mac) -> Result<(), NoMemory>
        ensures sources { self.new.sources ≡ self.old.sources }
        ensures held { OnOk result (is_held self.new.held src ≡ true) }
        ensures others { OnOk result (KeepsHeld self.old.held self.new.held src) }
        ensures again { is_held self.old.held src ≡ true → IsOk result }
        ensures err { OnErr result (self.new ≡ self.old) }
    {
        self.slots.hold(src)
    }

    // Holds a place for just those sources for which another table holds one. NoMemory: an allocation failed, and no place is
    // held.
    pub(crate) fn hold_as(&mut self, other: &TableOf<N>) -> Result<(), NoMemory>
        ensures sources { self.new.sources ≡ self.old.sources }
        ensures held { OnOk result (KeepsAllHeld other.now.held self.new.held) }
        ensures err { OnErr result (self.new.held ≡ []) }
    {
        self.slots.hold_as(&other.slots)
    }

    /// Gives up all held places.
    pub fn release(&mut self)
        ensures sources { self.new.sources ≡ self.old.sources }
        ensures held { self.new.held ≡ [] }
    {
        self.slots.release();
    }

    /// What `arrive` would answer, where memory does not run out. It takes none, and changes nothing.
    pub fn fresh(&self, src: Mac, seq: Seq, lanes: Lanes, now: u64) -> Result<Lanes, TableFull>
        requires { is_empty lanes ≡ false }
        ensures answer { result_ok result
            ≡ arrive_answer (64 * N) self.now.sources src seq.0 lanes now }
        ensures full { IsErr result
            ↔ (length (live_others src now self.now.sources) ≡ most_sources) }
    {
        match self.slots.get(src) {
            Some(entry) => Ok(fresh(entry, seq, lanes, now)),
            None => {
                if self.is_full(now) {
                    Err(TableFull)
                } else {
                    Ok(lanes)
                }
            }
        }
    }

    /// What `fresh` answers, and where the record of the source is: one look-up for a frame. After it no call at this time goes over
    /// the sources to see whether the table is full. Nothing that shows changes.
    // speed: D-node-inlined
    #[inline(always)]
    pub fn look(&mut self, src: Mac, seq: Seq, lanes: Lanes, now: u64) -> Result<Look, TableFull>
        requires { is_empty lanes ≡ false }
        ensures answer { option_map (λ look. look.fresh) (result_ok result)
            ≡ arrive_answer (64 * N) self.old.sources src seq.0 lanes now }
        ensures full { IsErr result
            ↔ (length (live_others src now self.old.sources) ≡ most_sources) }
        ensures found { IfOk result (λ look. IsFound look.hint self.old.sources src) }
        ensures same { self.new ≡ self.old }
    {
        if let Some(look) = self.look_known(src, seq, lanes, now) {
            return Ok(look);
        }
        if self.is_full_now(now) {
            return Err(TableFull);
        }
        Ok(Look {
            fresh: lanes,
            hint: None,
        })
    }

    // What `look` answers of a source that has a record.
    // speed: D-node-inlined
    #[inline(always)]
    fn look_known(&self, src: Mac, seq: Seq, lanes: Lanes, now: u64) -> Option<Look>
        ensures answer { option_map (λ look. look.fresh) result
            ≡ option_map (λ heard. fresh_at (64 * N) heard seq.0 lanes now)
            (lookup (mac_eq src) self.now.sources) }
        ensures few { length self.now.sources ≤ most_sources }
    {
        let (hint, entry) = self.slots.find(src)?;
        Some(Look {
            fresh: fresh(entry, seq, lanes, now),
            hint: Some(hint),
        })
    }

    /// Notes an arrival at this time, and answers the asked lanes on which its number is new in the epoch of its source.
    /// TableFull: 1024 other sources are live. NoMemory: an allocation failed. Either way nothing changes.
    pub fn arrive(&mut self, src: Mac, seq: Seq, lanes: Lanes, now: u64) -> Result<Lanes, DupFault>
        requires { is_empty lanes ≡ false }
        ensures { Arrives (as_table (64 * N) self.old) src seq.0 lanes now result
            (as_table (64 * N) self.new) }
    {
        self.arrive_at(None, src, seq, lanes, now)
    }

    /// What `arrive` does, where the record of the source is looked for first where a hint says. It notes an arrival, and answers the
    /// asked lanes on which its number is new in the epoch of its source.
    /// TableFull: 1024 other sources are live. NoMemory: an allocation failed. Either way nothing changes.
    // speed: D-node-one-look
    #[inline(always)]
    pub fn arrive_at(
        &mut self,
        hint: Option<Hint>,
        src: Mac,
        seq: Seq,
        lanes: Lanes,
        now: u64,
    ) -> Result<Lanes, DupFault>
        requires { is_empty lanes ≡ false }
        ensures { Arrives (as_table (64 * N) self.old) src seq.0 lanes now result
            (as_table (64 * N) self.new) }
    {
        match self.note(hint, src, seq, lanes, now) {
            Some(fresh) => Ok(fresh),
            None => self.begin(src, seq, lanes, now),
        }
    }

    // An arrival of a source that has a record, forgotten or not.
    // speed: D-node-inlined
    #[inline(always)]
    fn note(
        &mut self,
        hint: Option<Hint>,
        src: Mac,
        seq: Seq,
        lanes: Lanes,
        now: u64,
    ) -> Option<Lanes>
        requires { is_empty lanes ≡ false }
        ensures few { length self.old.sources ≤ most_sources }
        ensures found { is_some result ≡ is_some (lookup (mac_eq src) self.old.sources) }
        ensures answer { IfSome result (λ fresh.
            arrive_answer (64 * N) self.old.sources src seq.0 lanes now ≡ Some fresh) }
        ensures after { IfSome result (λ fresh.
            self.new.sources ≡ after_arrive (64 * N) self.old.sources src seq.0 lanes now) }
        ensures others { IfSome result (λ fresh. KeepsHeld self.old.held self.new.held src) }
        ensures used { IfSome result (λ fresh. is_held self.new.held src ≡ false) }
        ensures none { IfNone result (self.new ≡ self.old) }
    {
        let fresh = self.slots.update_at(
            hint,
            src,
            |entry: &mut Aged<Record<N>>| -> Lanes
                requires { is_empty lanes ≡ false }
                ensures after { heard_of entry.new
                    ≡ heard_next (64 * N) (heard_of entry.old) seq.0 lanes now }
                ensures answer { result ≡ fresh_at (64 * N) (heard_of entry.old) seq.0 lanes now }
            { note(entry, seq, lanes, now) },
        )?;
        Some(fresh)
    }

    // The first arrival of a source that has no record.
    fn begin(&mut self, src: Mac, seq: Seq, lanes: Lanes, now: u64) -> Result<Lanes, DupFault>
        requires some { is_empty lanes ≡ false }
        requires absent { lookup (mac_eq src) self.old.sources ≡ None }
        requires few { length self.old.sources ≤ most_sources }
        ensures { Arrives (as_table (64 * N) self.old) src seq.0 lanes now result
            (as_table (64 * N) self.new) }
    {
        if self.is_full_now(now) {
            return Err(DupFault::TableFull);
        }
        self.put_last(src, Record::begin(seq, lanes), now)?;
        Ok(lanes)
    }

    /// Adds a source to a table that is not full. It goes last; the forgotten ones of a crowded table go first. Where a place is held
    /// for it, it uses that, and takes no memory. NoMemory: an allocation failed, and nothing changes.
    pub fn put_last(&mut self, src: Mac, first: Record<N>, now: u64) -> Result<(), NoMemory>
        requires absent { lookup (mac_eq src) self.old.sources ≡ None }
        requires room { nat_lt (length (with_room now self.old.sources)) most_sources ≡ true }
        ensures sources { OnOk result (self.new.sources ≡ with_room now self.old.sources
            ++ (src, record { seen = window_of first.entry; time = now }) ∷ []) }
        ensures reserved { is_held self.old.held src ≡ true → IsOk result }
        ensures held { OnOk result (KeepsHeld self.old.held self.new.held src) }
        ensures used { OnOk result (is_held self.new.held src ≡ false) }
        ensures err { OnErr result (self.new ≡ self.old) }
    {
        self.slots.append(src, first, now)?;
        Ok(())
    }

    // Joins a record to that of its source, unless the two are apart. Answers whether it did; None: there is no such source.
    pub(crate) fn join(&mut self, src: Mac, other: &Aged<Record<N>>) -> Option<bool>
        ensures found { is_some result ≡ is_some (lookup (mac_eq src) self.old.sources) }
        ensures close { IfSome result (λ joined.
            joined ≡ not (is_apart (lookup (mac_eq src) self.old.sources) (heard_of other.now))) }
        ensures joined { IfSome result (λ joined. joined ≡ true
            → self.new.sources ≡ with_source (64 * N) self.old.sources (src, heard_of other.now)) }
        ensures none { IfNone result (self.new ≡ self.old) }
    {
        let joined = self.slots.update_at(
            None,
            src,
            |entry: &mut Aged<Record<N>>| -> bool
                ensures answer { result
                    ≡ not (is_apart (Some (heard_of entry.old)) (heard_of other.entry.now)) }
                ensures later { entry.old.time ≤ entry.new.time }
                ensures joined { is_apart (Some (heard_of entry.old))
                    (heard_of other.entry.now) ≡ false
                    → heard_of entry.new
                    ≡ joined_heard (64 * N) (heard_of entry.old) (heard_of other.entry.now) }
            { join(entry, other) },
        )?;
        Some(joined)
    }

    // Whether a new source has no room.
    fn is_full(&self, now: u64) -> bool
        ensures { result ≡ not (nat_lt (length (with_room now self.now.sources)) most_sources) }
    {
        self.slots.is_full(now)
    }

    // Whether a new source has no room. The next calls at this time go over no sources.
    fn is_full_now(&mut self, now: u64) -> bool
        ensures result { result
            ≡ not (nat_lt (length (with_room now self.old.sources)) most_sources) }
        ensures same { self.new ≡ self.old }
        ensures width { (N ≡ 16) ⊎ (N ≡ 32) }
    {
        self.slots.is_full_now(now)
    }

    /// Takes the sources out that were silent for 400 ms or more, and answers how many.
    pub fn age(&mut self, now: u64) -> usize
        ensures sources { self.new.sources ≡ live_at now self.old.sources }
        ensures held { self.new.held ≡ self.old.held }
        ensures count { result + length self.new.sources ≡ length self.old.sources }
    {
        self.slots.age(now)
    }
}
