//! When two tables know the same of each address, in whatever order their sources stand.
ghost use Rattle.std.specs.Prelude.{◌≡◌, ◌↔◌, true};
ghost use Rattle.sr_dup_table.specs.Same.{AreSame, SameIsAnEquivalence, has_source, has_all};
ghost use Rattle.sr_dup_table.specs.Shown.{heard_of, sources_of};

use crate::equality::same_entry;
use crate::table::{DupTable, Parts};
use crate::table_of::TableOf;
use sr_aged_slots::Aged;
use sr_dup_window::Record;
use sr_frame::Mac;
use sr_slots::Iter;

// Whether a table has just this of a source.
fn has_source<const N: usize>(table: &TableOf<N>, src: Mac, entry: &Aged<Record<N>>) -> bool
    ensures { result ≡ has_source table.now.sources (src, heard_of entry.now) }
{
    match table.entry(src) {
        Some(known) => same_entry(known, entry),
        None => false,
    }
}

// Whether it has each of the entries that are left.
fn has_all<const N: usize>(table: &TableOf<N>, entries: Iter<'_, Aged<Record<N>>>) -> bool
    ensures { result ≡ has_all table.now.sources (sources_of entries.entry) }
{
    for (src, entry) in entries {
        if !has_source(table, src, entry) {
            return false;
        }
    }
    true
}

impl<const N: usize> TableOf<N> {
    /// Whether both have the same sources with the same records and times, in any order. Held places don't count.
    pub fn same(&self, other: &TableOf<N>) -> bool
        ensures { (result ≡ true) ↔ AreSame self.now.sources other.now.sources }
    {
        self.source_count() == other.source_count() && has_all(other, self.entries())
    }
}

impl DupTable {
    /// Whether both have one width and the same sources with the same records and times, in any order. Held places don't count.
    pub fn same(&self, other: &DupTable) -> bool
        ensures { (result ≡ true) ↔ ((self.now.width ≡ other.now.width)
            × AreSame self.now.sources other.now.sources) }
    {
        match (self.parts(), other.parts()) {
            (Parts::Narrow(one), Parts::Narrow(two)) => one.same(two),
            (Parts::Wide(one), Parts::Wide(two)) => one.same(two),
            _ => false,
        }
    }
}

/// Knowing the same is an equivalence of tables.
pub fn same_is_an_equivalence()
    ensures { SameIsAnEquivalence }
{}
