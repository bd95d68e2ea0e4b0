//! Laws over runs of the table, of either width: lists of arrivals and ageings, from the empty table or from any other on.

ghost use Rattle.sr_laws_dup.specs.Starts.{CanStart, EachPairIsNewAfterAStart, StartsAreSteady};
ghost use Rattle.sr_laws_dup.specs.TableRuns.{BeyondIsNew, EachPairIsNewOnce, NumbersAreSteady, late_copies, over_the_end};

use sr_dup_table::DupTable;
use sr_dup_table::join_laws::tables_are_sound;

/// In every steady run from the empty table, an arrival is new on exactly the asked lanes on which no earlier copy of it was
/// noted, among all that ever came.
///
/// Numbers are whole numbers without bound, and every numbering under which the run is steady will do: no time
/// goes back, each number is one of the 65536 that may follow those of its source's epoch, and all copies of a
/// frame lie in one epoch. The table keeps 16 bits of a number, a window of 1024 or 2048 of them, and forgets.
pub fn each_pair_is_new_once()
    ensures { EachPairIsNewOnce }
{}

/// In every steady run that begins with any table, an arrival is new on exactly the asked lanes on which no earlier copy was
/// noted, where what stood in that table counts as noted, each source at the time when it was last heard.
///
/// Which whole numbers stood there is a choice: every one that agrees with the 16 bits of the greatest number of each source,
/// and under which the run is steady, will do.
pub fn each_pair_is_new_after_a_start()
    ensures { EachPairIsNewAfterAStart }
{}

/// What stands in a table is steady by itself, so that a steady run from it asks of the new arrivals alone.
pub fn starts_are_steady()
    ensures { StartsAreSteady }
{}

/// Every table can be the start of a run, under every choice of whole numbers that agrees with the 16 bits of its greatest ones.
pub fn tables_can_start(table: &DupTable)
    ensures { CanStart table.now.width table.now.sources }
{
    tables_are_sound(table);
}

/// In every run, steady or not, a number that is a width or more behind the greatest one, or whose source is
/// forgotten, is new on all asked lanes: what a record can't tell is never dropped.
pub fn what_a_record_lacks_is_new()
    ensures { BeyondIsNew }
{}

/// Late first copies of one source at one time are steady: numbers 3, 2, 1 by one path, then 1, 2, 3 by the other.
pub fn late_copies_are_steady()
    ensures { NumbersAreSteady late_copies }
{}

/// Arrivals of one source at one time over the end of the 16-bit numbers are steady: both copies of 65534, 65535, 0
/// and 1.
pub fn copies_over_the_end_are_steady()
    ensures { NumbersAreSteady over_the_end }
{}
