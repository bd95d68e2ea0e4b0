//! Laws on joins of tables.
ghost use Rattle.std.specs.Prelude.{◌*◌};
ghost use Rattle.sr_dup_table.specs.JoinLaws.{IsSound, MergeCommutes, MergeIsIdempotent, MergeAssociates, MergeStands};

use crate::table::{DupTable, Parts};
use crate::table_of::TableOf;

// What the laws ask of sources holds of every table of one width.
fn is_sound<const N: usize>(table: &TableOf<N>)
    ensures { IsSound (64 * N) table.now.sources }
{
    let _count = table.source_count();
    let _records = table.entries();
}

/// What the laws ask of sources holds of every table.
pub fn tables_are_sound(table: &DupTable)
    ensures { IsSound table.now.width table.now.sources }
{
    match table.parts() {
        Parts::Narrow(narrow) => is_sound(narrow),
        Parts::Wide(wide) => is_sound(wide),
    }
}

/// Merging in either order gives the same, where it is not refused.
pub fn merge_commutes()
    ensures { MergeCommutes }
{}

/// Merging a table with itself leaves what is live.
pub fn merge_is_idempotent()
    ensures { MergeIsIdempotent }
{}

/// Merging in either grouping gives the same, where of each address the three greatest numbers are at most 32767 apart, pair by pair.
pub fn merge_associates()
    ensures { MergeAssociates }
{}

/// A merged record stands for the join of the families that the two stood for, and was heard at the later of their times.
pub fn merge_stands()
    ensures { MergeStands }
{}
