//! Tables of either width.
ghost use Rattle.std.specs.Prelude.{◌≡◌, ℕ, ◌+◌, ◌≤◌, ◌↔◌, [], true, false, Some, None, length, IsOk, OnOk, OnErr, IfOk, IfErr, IsErr, IsErrOf};
ghost use Rattle.std.specs.Result.{result_ok};
ghost use Rattle.std.specs.Option.{option_map};
ghost use Rattle.sr_dup_window.specs.LaneSets.{is_empty};
ghost use Rattle.sr_slots.specs.Places.{IsFound, KeepsHeld};
ghost use Rattle.sr_dup_table.specs.Limits.{window, most_sources};
ghost use Rattle.sr_dup_table.specs.Widths.{numbers_in};
ghost use Rattle.sr_dup_table.specs.Sources.{IsTable, is_held, is_ready, live_at, live_others, arrive_fault, arrive_answer, after_arrive};
ghost use Rattle.sr_dup_table.specs.Arrivals.{Arrives};
ghost use Rattle.sr_dup_table.specs.ShownTables.{shown_parts};

use crate::fault::{DupFault, TableFull};
use crate::table_of::{Look, TableOf};
use crate::width::Width;
use sr_dup_window::Lanes;
use sr_frame::{Mac, NoMemory};
use sr_sequence::Seq;
use sr_slots::{Hint, Keys};
use std::alloc::Global;
use std::marker::Model;

/// A table that remembers 1024 numbers of a source, 64 of them in a word of each lane.
pub type NarrowTable = TableOf<16>;

/// A table that remembers 2048 numbers of a source.
pub type WideTable = TableOf<32>;

// A table by its width.
#[derive(Drop)]
pub(crate) enum Tables {
    Narrow(NarrowTable),
    Wide(WideTable),
}

/// A table by its width, for those who go over its entries.
#[derive(Clone, Copy)]
pub enum Parts<'a> {
    /// It remembers 1024 numbers of a source.
    Narrow(&'a NarrowTable),
    /// It remembers 2048.
    Wide(&'a WideTable),
}

/// Duplicate records by source, in the order of first hearing, of a width that is chosen once. Times are in milliseconds. A source
/// that was silent for `ENTRY_FORGET_TIME` is forgotten: it counts as absent, and stands in the table until it is heard again,
/// until `age`, or until a new source meets a full table.
#[derive(Drop)]
pub struct DupTable {
    pub(crate) tables: Tables,
}

impl Model for DupTable {
    ghost use Rattle.sr_dup_table.specs.Sources.{Table};

    ghost Value = { Table };

    ghost use Rattle.sr_dup_table.specs.ShownTables.{shown_table};

    ghost view = { λ t. shown_table t.tables };
}

impl From<NarrowTable> for DupTable {
    ghost use Rattle.sr_dup_table.specs.Limits.{window};

    ghost from_gives = { λ t d.
        d ≡ record { width = window; sources = t.sources; held = t.held } };

    fn from(table: NarrowTable) -> DupTable {
        DupTable {
            tables: Tables::Narrow(table),
        }
    }
}

impl From<WideTable> for DupTable {
    ghost use Rattle.sr_dup_table.specs.Limits.{wide_window};

    ghost from_gives = { λ t d.
        d ≡ record { width = wide_window; sources = t.sources; held = t.held } };

    fn from(table: WideTable) -> DupTable {
        DupTable {
            tables: Tables::Wide(table),
        }
    }
}

impl DupTable {
    /// A narrow table of no source under fixed keys, which takes no memory yet.
    pub fn new(alloc: Global) -> DupTable
        ensures width { result.width ≡ window }
        ensures sources { result.sources ≡ [] }
        ensures held { result.held ≡ [] }
    {
        DupTable::with_keys(alloc, Keys::FIXED)
    }

    /// A narrow table of no source whose places depend on these keys, which takes no memory yet.
    pub fn with_keys(alloc: Global, keys: Keys) -> DupTable
        ensures width { result.width ≡ window }
        ensures sources { result.sources ≡ [] }
        ensures held { result.held ≡ [] }
    {
        DupTable::with_width(alloc, Width::Narrow, keys)
    }

    /// A table of no source and of this width, whose places depend on these keys, which takes no memory yet.
    pub fn with_width(alloc: Global, width: Width, keys: Keys) -> DupTable
        ensures width { result.width ≡ numbers_in width }
        ensures sources { result.sources ≡ [] }
        ensures held { result.held ≡ [] }
    {
        match width {
            Width::Narrow => DupTable::from(NarrowTable::with_keys(alloc, keys)),
            Width::Wide => DupTable::from(WideTable::with_keys(alloc, keys)),
        }
    }

    /// A table of its own of the same width, with the same sources in the same order, under the same keys. It holds no place.
    /// NoMemory: an allocation failed.
    pub fn try_clone(&self) -> Result<DupTable, NoMemory>
        ensures width { IfOk result (λ own. own.width ≡ self.now.width) }
        ensures sources { IfOk result (λ own. own.sources ≡ self.now.sources) }
        ensures held { IfOk result (λ own. own.held ≡ []) }
    {
        match &self.tables {
            Tables::Narrow(table) => Ok(DupTable::from(table.try_clone()?)),
            Tables::Wide(table) => Ok(DupTable::from(table.try_clone()?)),
        }
    }

    /// How many numbers of a source are remembered.
    pub fn width(&self) -> Width
        ensures { numbers_in result ≡ self.now.width }
    {
        match &self.tables {
            Tables::Narrow(_) => Width::Narrow,
            Tables::Wide(_) => Width::Wide,
        }
    }

    /// The table as one of its width.
    pub fn parts(&self) -> Parts<'_>
        ensures { shown_parts result ≡ self.now }
    {
        match &self.tables {
            Tables::Narrow(table) => Parts::Narrow(table),
            Tables::Wide(table) => Parts::Wide(table),
        }
    }

    /// How many sources stand in the table, the forgotten ones among them.
    pub fn source_count(&self) -> usize
        ensures count { result ≡ length self.now.sources }
        ensures table { IsTable self.now.sources }
        ensures live { (now : ℕ) → length (live_at now self.now.sources) ≤ most_sources }
    {
        match &self.tables {
            Tables::Narrow(table) => table.source_count(),
            Tables::Wide(table) => table.source_count(),
        }
    }

    /// Makes room for so many more sources, in one growth. Nothing that shows changes. NoMemory: an allocation failed.
    pub fn make_room(&mut self, more: usize) -> Result<(), NoMemory>
        ensures { self.new ≡ self.old }
    {
        match &mut self.tables {
            Tables::Narrow(table) => table.make_room(more),
            Tables::Wide(table) => table.make_room(more),
        }
    }

    /// Holds a place for a source, so that its next arrival takes no memory. Nothing else sees the place.
    /// NoMemory: an allocation failed, and nothing changes.
    pub fn reserve(&mut self, src: Mac) -> Result<(), NoMemory>
        ensures width { self.new.width ≡ self.old.width }
        ensures sources { self.new.sources ≡ self.old.sources }
        ensures held { OnOk result (is_held self.new.held src ≡ true) }
        ensures others { OnOk result (KeepsHeld self.old.held self.new.held src) }
        ensures again { is_held self.old.held src ≡ true → IsOk result }
        ensures err { OnErr result (self.new ≡ self.old) }
    {
        match &mut self.tables {
            Tables::Narrow(table) => table.reserve(src),
            Tables::Wide(table) => table.reserve(src),
        }
    }

    /// Gives up all held places.
    pub fn release(&mut self)
        ensures width { self.new.width ≡ self.old.width }
        ensures sources { self.new.sources ≡ self.old.sources }
        ensures held { self.new.held ≡ [] }
    {
        match &mut self.tables {
            Tables::Narrow(table) => table.release(),
            Tables::Wide(table) => table.release(),
        }
    }

    /// What `arrive` would answer, where memory does not run out. It takes none, and changes nothing.
    pub fn fresh(&self, src: Mac, seq: Seq, lanes: Lanes, now: u64) -> Result<Lanes, TableFull>
        requires { is_empty lanes ≡ false }
        ensures answer { result_ok result
            ≡ arrive_answer self.now.width self.now.sources src seq.0 lanes now }
        ensures full { IsErr result
            ↔ (length (live_others src now self.now.sources) ≡ most_sources) }
    {
        match &self.tables {
            Tables::Narrow(table) => table.fresh(src, seq, lanes, now),
            Tables::Wide(table) => table.fresh(src, seq, lanes, now),
        }
    }

    /// What `fresh` answers, and where the record of the source is: one look-up for a frame. After it no call at this time goes over
    /// the sources to see whether the table is full. Nothing that shows changes.
    // speed: D-node-inlined
    #[inline(always)]
    pub fn look(&mut self, src: Mac, seq: Seq, lanes: Lanes, now: u64) -> Result<Look, TableFull>
        requires { is_empty lanes ≡ false }
        ensures answer { option_map (λ look. look.fresh) (result_ok result)
            ≡ arrive_answer self.old.width self.old.sources src seq.0 lanes now }
        ensures full { IsErr result
            ↔ (length (live_others src now self.old.sources) ≡ most_sources) }
        ensures found { IfOk result (λ look. IsFound look.hint self.old.sources src) }
        ensures same { self.new ≡ self.old }
    {
        match &mut self.tables {
            Tables::Narrow(table) => table.look(src, seq, lanes, now),
            Tables::Wide(table) => table.look(src, seq, lanes, now),
        }
    }

    /// Notes an arrival at this time, and answers the asked lanes on which its number is new in the epoch of its source.
    /// TableFull: 1024 other sources are live. NoMemory: an allocation failed. Either way nothing changes.
    pub fn arrive(&mut self, src: Mac, seq: Seq, lanes: Lanes, now: u64) -> Result<Lanes, DupFault>
        requires { is_empty lanes ≡ false }
        ensures { Arrives self.old src seq.0 lanes now result self.new }
    {
        self.arrive_at(None, src, seq, lanes, now)
    }

    /// What `arrive` does, where the record of the source is looked for first where a hint says. It notes an arrival, and answers the
    /// asked lanes on which its number is new in the epoch of its source.
    /// TableFull: 1024 other sources are live. NoMemory: an allocation failed. Either way nothing changes.
    // speed: D-node-one-look
    #[inline(always)]
    pub fn arrive_at(
        &mut self,
        hint: Option<Hint>,
        src: Mac,
        seq: Seq,
        lanes: Lanes,
        now: u64,
    ) -> Result<Lanes, DupFault>
        requires { is_empty lanes ≡ false }
        ensures { Arrives self.old src seq.0 lanes now result self.new }
    {
        match &mut self.tables {
            Tables::Narrow(table) => table.arrive_at(hint, src, seq, lanes, now),
            Tables::Wide(table) => table.arrive_at(hint, src, seq, lanes, now),
        }
    }

    /// Takes the sources out that were silent for 400 ms or more, and answers how many.
    pub fn age(&mut self, now: u64) -> usize
        ensures width { self.new.width ≡ self.old.width }
        ensures sources { self.new.sources ≡ live_at now self.old.sources }
        ensures held { self.new.held ≡ self.old.held }
        ensures count { result + length self.new.sources ≡ length self.old.sources }
    {
        match &mut self.tables {
            Tables::Narrow(table) => table.age(now),
            Tables::Wide(table) => table.age(now),
        }
    }
}
