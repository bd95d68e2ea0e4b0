//! The join of two tables, source by source.
ghost use Rattle.std.specs.Prelude.{◌≡◌, ◌≤◌, ◌*◌, ◌+◌, ◌⊎◌, [], false, None, length, nat_eq, unwrap_or, ◌++◌, ◌∷◌, IfOk, IfErr, OnOk, OnErr};
ghost use Rattle.std.specs.List.{IsDistinct};
ghost use Rattle.std.specs.Map.{lookup, keys_of};
ghost use Rattle.std.specs.Option.{option_map, option_copied};
ghost use Rattle.sr_frame.specs.Addresses.{mac_eq};
ghost use Rattle.sr_sequence.specs.Places.{steps};
ghost use Rattle.sr_slots.specs.Places.{KeepsAllHeld};
ghost use Rattle.sr_dup_table.specs.Limits.{most_sources};
ghost use Rattle.sr_dup_table.specs.Sources.{IsTable, live_at};
ghost use Rattle.sr_dup_table.specs.Joins.{IsJoin, new_source, apart_source, or_else, is_apart, first_apart};
ghost use Rattle.sr_dup_table.specs.Joins.{join_fault, merge_fault, with_source, with_sources};
ghost use Rattle.sr_dup_table.specs.Shown.{heard_of, sources_of};
ghost use Rattle.sr_dup_window.specs.Windows.{window_of};

use crate::entry::is_live;
use crate::fault::DupFault;
use crate::table::{DupTable, Tables};
use crate::table_of::{MAX_SOURCES, TableOf};
use sr_aged_slots::Aged;
use sr_dup_window::Record;
use sr_frame::Mac;

// How many sources are live.
fn live_count<const N: usize>(table: &TableOf<N>, now: u64) -> usize
    requires table { IsTable table.now.sources }
    requires width { (N ≡ 16) ⊎ (N ≡ 32) }
    ensures { result ≡ length (live_at now table.now.sources) }
{
    let mut count = 0;
    for (_, entry) in table.entries() {
        if is_live(entry, now) {
            count += 1;
        }
    }
    count
}

// What a table has of a live source.
fn live_entry<const N: usize>(table: &TableOf<N>, src: Mac, now: u64) -> Option<&Aged<Record<N>>>
    requires { IsTable table.now.sources }
    ensures { option_map heard_of (option_copied result)
        ≡ lookup (mac_eq src) (live_at now table.now.sources) }
{
    let entry = table.entry(src)?;
    if is_live(entry, now) {
        Some(entry)
    } else {
        None
    }
}

// Whether the greatest numbers of two records are half of all numbers apart.
fn is_apart<const N: usize>(one: &Record<N>, other: &Record<N>) -> bool
    ensures { result
        ≡ nat_eq (steps (window_of one.now).reference (window_of other.now).reference) 32768 }
{
    other.reference().0.wrapping_sub(one.reference().0) == 32768
}

// What was seen of a join: how many sources it has, and the first one whose records are apart.
#[derive(Drop)]
struct Tally {
    count: usize,
    apart: Option<Mac>,
}

// Sees a source of the other table, beside what this one has of it.
fn see<const N: usize>(
    tally: &mut Tally,
    src: Mac,
    known: Option<&Aged<Record<N>>>,
    entry: &Aged<Record<N>>,
)
    requires { tally.old.count ≤ 2048 }
    ensures count { tally.new.count ≡ tally.old.count
        + length (new_source (option_map heard_of (option_copied known.entry))
        (src, heard_of entry.now)) }
    ensures apart { tally.new.apart ≡ or_else tally.old.apart
        (apart_source (option_map heard_of (option_copied known.entry)) (src, heard_of entry.now)) }
{
    match known {
        None => tally.count += 1,
        Some(known) => {
            if tally.apart.is_none() && is_apart(&known.value, &entry.value) {
                tally.apart = Some(src);
            }
        }
    }
}

// Why two tables have no join at this time, if so.
fn join_fault<const N: usize>(table: &TableOf<N>, other: &TableOf<N>, now: u64) -> Option<DupFault>
    requires one { IsTable table.now.sources }
    requires other { IsTable other.now.sources }
    requires width { (N ≡ 16) ⊎ (N ≡ 32) }
    ensures { result ≡ join_fault (live_at now table.now.sources) (live_at now other.now.sources) }
{
    let mut tally = Tally {
        count: live_count(table, now),
        apart: None,
    };
    for (src, entry) in other.entries() {
        if is_live(entry, now) {
            see(&mut tally, src, live_entry(table, src, now), entry);
        }
    }
    if tally.count > MAX_SOURCES {
        return Some(DupFault::TableFull);
    }
    match tally.apart {
        Some(src) => Some(DupFault::Apart(src)),
        None => None,
    }
}

// Adds a source to a table that lacks it. TableFull: 1024 others stand there. NoMemory: an allocation failed.
fn add<const N: usize>(
    table: &mut TableOf<N>,
    src: Mac,
    entry: &Aged<Record<N>>,
) -> Result<(), DupFault>
    requires { lookup (mac_eq src) table.old.sources ≡ None }
    ensures added { OnOk result (table.new.sources
        ≡ table.old.sources ++ (src, heard_of entry.now) ∷ []) }
    ensures room { OnOk result (length table.new.sources ≤ most_sources) }
    ensures refused { IfErr result (λ e. length table.old.sources + 1 ≤ most_sources
        → e ≡ DupFault.NoMemory) }
{
    if table.source_count() >= MAX_SOURCES {
        return Err(DupFault::TableFull);
    }
    table.put_last(src, entry.value, entry.time)?;
    Ok(())
}

// Joins a source to a table. TableFull: it is new, and 1024 others stand there. Apart: the two records are. NoMemory: an
// allocation failed.
fn take<const N: usize>(
    table: &mut TableOf<N>,
    src: Mac,
    entry: &Aged<Record<N>>,
) -> Result<(), DupFault>
    requires { length table.old.sources ≤ most_sources }
    ensures joined { OnOk result (table.new.sources
        ≡ with_source (64 * N) table.old.sources (src, heard_of entry.now)) }
    ensures close { OnOk result
        (is_apart (lookup (mac_eq src) table.old.sources) (heard_of entry.now) ≡ false) }
    ensures room { OnOk result (length table.new.sources ≤ most_sources) }
    ensures refused { IfErr result (λ e.
        length (with_source (64 * N) table.old.sources (src, heard_of entry.now)) ≤ most_sources
        → is_apart (lookup (mac_eq src) table.old.sources) (heard_of entry.now) ≡ false
        → e ≡ DupFault.NoMemory) }
{
    match table.join(src, entry) {
        Some(true) => Ok(()),
        Some(false) => Err(DupFault::Apart(src)),
        None => add(table, src, entry),
    }
}

// Joins the live sources of another table, each by one look-up, unless there is no join. What was joined before a fault stays.
fn take_all<const N: usize>(
    table: &mut TableOf<N>,
    other: &TableOf<N>,
    now: u64,
) -> Result<(), DupFault>
    requires few { length table.old.sources ≤ most_sources }
    requires unique { IsDistinct mac_eq (keys_of other.now.sources) }
    requires width { (N ≡ 16) ⊎ (N ≡ 32) }
    ensures joined { OnOk result (table.new.sources
        ≡ with_sources (64 * N) table.old.sources (live_at now other.now.sources)) }
    ensures joinable { OnOk result
        (join_fault table.old.sources (live_at now other.now.sources) ≡ None) }
    ensures refused { IfErr result (λ e. join_fault table.old.sources
        (live_at now other.now.sources) ≡ None → e ≡ DupFault.NoMemory) }
{
    for (src, entry) in other.entries() {
        if is_live(entry, now) {
            take(table, src, entry)?;
        }
    }
    Ok(())
}

// The join of two tables at a time, as a table of its own, which holds the places that the first one holds. An error: they have none,
// or an allocation failed.
fn join_of<const N: usize>(
    table: &TableOf<N>,
    other: &TableOf<N>,
    now: u64,
) -> Result<TableOf<N>, DupFault>
    requires few { length table.now.sources ≤ most_sources }
    requires unique { IsDistinct mac_eq (keys_of other.now.sources) }
    requires width { (N ≡ 16) ⊎ (N ≡ 32) }
    ensures joins { IfOk result (λ both.
        IsJoin (64 * N) (live_at now table.now.sources) (live_at now other.now.sources)
        both.sources) }
    ensures held { IfOk result (λ both. KeepsAllHeld table.now.held both.held) }
    ensures joinable { OnOk result
        (join_fault (live_at now table.now.sources) (live_at now other.now.sources) ≡ None) }
    ensures refused { IfErr result (λ e.
        join_fault (live_at now table.now.sources) (live_at now other.now.sources) ≡ None
        → e ≡ DupFault.NoMemory) }
{
    let mut both = table.try_clone()?;
    let _forgotten = both.age(now);
    take_all(&mut both, other, now)?;
    both.hold_as(table)?;
    Ok(both)
}

impl<const N: usize> TableOf<N> {
    /// Joins the sources of another table to these: the records of a source, and the later of its times. Sources that are silent
    /// for `ENTRY_FORGET_TIME` at this time are left out on both sides, and those that are new come last. Held places stay held.
    /// TableFull: the join has over 1024 sources. Apart: two records of this source are 32768 apart, the first such source of the
    /// other table. NoMemory: an allocation failed. The first of these is answered, and nothing changes.
    pub fn merge(&mut self, other: &TableOf<N>, now: u64) -> Result<(), DupFault>
        ensures joins { OnOk result (IsJoin (64 * N) (live_at now self.old.sources)
            (live_at now other.now.sources) self.new.sources) }
        ensures held { OnOk result (KeepsAllHeld self.old.held self.new.held) }

        // Exactly where there is a fault it is answered, and otherwise at most NoMemory.
        ensures refused { IfErr result (λ e. e
            ≡ unwrap_or (join_fault (live_at now self.old.sources) (live_at now other.now.sources))
            DupFault.NoMemory) }
        ensures joinable { OnOk result
            (join_fault (live_at now self.old.sources) (live_at now other.now.sources) ≡ None) }
        ensures err { OnErr result (self.new ≡ self.old) }
    {
        let _few = (self.source_count(), other.source_count());
        match join_of(self, other, now) {
            Ok(both) => {
                *self = both;
                Ok(())
            }
            // Which fault comes first is looked for only where there is one.
            Err(fault) => Err(join_fault(self, other, now).unwrap_or(fault)),
        }
    }
}

impl DupTable {
    /// Joins the sources of another table to these: the records of a source, and the later of its times. Sources that are silent
    /// for `ENTRY_FORGET_TIME` at this time are left out on both sides, and those that are new come last. Held places stay held.
    /// OtherWidth: the tables have two widths. TableFull: the join has over 1024 sources. Apart: two records of this source are
    /// 32768 apart, the first such source of the other table. NoMemory: an allocation failed. The first of these is answered, and
    /// nothing changes.
    pub fn merge(&mut self, other: &DupTable, now: u64) -> Result<(), DupFault>
        ensures joins { OnOk result (IsJoin self.old.width (live_at now self.old.sources)
            (live_at now other.now.sources) self.new.sources) }
        ensures width { self.new.width ≡ self.old.width }
        ensures held { OnOk result (KeepsAllHeld self.old.held self.new.held) }

        // Exactly where there is a fault it is answered, and otherwise at most NoMemory.
        ensures refused { IfErr result (λ e.
            e ≡ unwrap_or (merge_fault self.old other.now now) DupFault.NoMemory) }
        ensures joinable { OnOk result (merge_fault self.old other.now now ≡ None) }
        ensures err { OnErr result (self.new ≡ self.old) }
    {
        match (&mut self.tables, &other.tables) {
            (Tables::Narrow(one), Tables::Narrow(two)) => one.merge(two, now),
            (Tables::Wide(one), Tables::Wide(two)) => one.merge(two, now),
            (Tables::Narrow(_), Tables::Wide(_)) | (Tables::Wide(_), Tables::Narrow(_)) => {
                Err(DupFault::OtherWidth)
            }
        }
    }
}
