//! When two tables are equal: where their widths are, and their sources, in order. Held places don't count.
ghost use Rattle.std.specs.Prelude.{◌≡◌};
ghost use Rattle.sr_dup_table.specs.Sources.{same_remembered, same_sources};
ghost use Rattle.sr_dup_table.specs.Shown.{heard_of, sources_of};

use crate::table::{DupTable, Parts};
use crate::table_of::TableOf;
use sr_aged_slots::Aged;
use sr_dup_window::Record;
use sr_slots::Iter;

// Whether two entries show the same.
pub(crate) fn same_entry<const N: usize>(one: &Aged<Record<N>>, other: &Aged<Record<N>>) -> bool
    ensures { result ≡ same_remembered (heard_of one.now) (heard_of other.now) }
{
    one.value.is_same(&other.value) && one.time == other.time
}

// Whether the entries that are left show the same, one by one.
fn same_entries<const N: usize>(
    one: Iter<'_, Aged<Record<N>>>,
    mut other: Iter<'_, Aged<Record<N>>>,
) -> bool
    ensures { result ≡ same_sources (sources_of one.entry) (sources_of other.entry) }
{
    for (src, entry) in one {
        let Some((mac, heard)) = other.next() else {
            return false;
        };
        if src != mac || !same_entry(entry, heard) {
            return false;
        }
    }
    other.next().is_none()
}

impl<const N: usize> PartialEq for TableOf<N> {
    ghost use Rattle.std.specs.Ordering.{on};
    ghost use Rattle.std.specs.Cmp.{on_equiv, partial_equiv_from_equiv};
    ghost use Rattle.sr_dup_table.specs.Sources.{same_sources};
    ghost use Rattle.sr_dup_table.specs.EqualityLemmas.{same_sources-equiv};

    ghost eq = { on (λ t. t.sources) same_sources };

    ghost laws = { partial_equiv_from_equiv (on_equiv (λ t. t.sources) same_sources-equiv) };

    fn eq(&self, other: &TableOf<N>) -> bool {
        let _sources = self.source_count();
        same_entries(self.entries(), other.entries())
    }
}

impl<const N: usize> Eq for TableOf<N> {
    ghost use Rattle.std.specs.Cmp.{on_equiv};
    ghost use Rattle.sr_dup_table.specs.EqualityLemmas.{same_sources-equiv};

    ghost laws = { on_equiv (λ t. t.sources) same_sources-equiv };
}

impl PartialEq for DupTable {
    ghost use Rattle.std.specs.Cmp.{partial_equiv_from_equiv};
    ghost use Rattle.sr_dup_table.specs.Sources.{same_tables};
    ghost use Rattle.sr_dup_table.specs.EqualityLemmas.{same_tables-equiv};

    ghost eq = { same_tables };

    ghost laws = { partial_equiv_from_equiv same_tables-equiv };

    fn eq(&self, other: &DupTable) -> bool {
        match (self.parts(), other.parts()) {
            (Parts::Narrow(one), Parts::Narrow(two)) => one == two,
            (Parts::Wide(one), Parts::Wide(two)) => one == two,
            _ => false,
        }
    }
}

impl Eq for DupTable {
    ghost use Rattle.sr_dup_table.specs.EqualityLemmas.{same_tables-equiv};

    ghost laws = { same_tables-equiv };
}
