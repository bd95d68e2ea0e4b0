//! What the table has of one source: the numbers of this epoch, and when it was last heard.
ghost use Rattle.std.specs.Prelude.{◌≡◌, ◌*◌, ◌≤◌, Some, false, not};
ghost use Rattle.sr_dup_window.specs.LaneSets.{is_empty};
ghost use Rattle.sr_dup_table.specs.Sources.{is_live, heard_next, fresh_at};
ghost use Rattle.sr_dup_table.specs.Joins.{is_apart, joined_heard};
ghost use Rattle.sr_dup_table.specs.Shown.{heard_of};

use crate::table_of::ENTRY_FORGET_TIME;
use sr_aged_slots::Aged;
use sr_dup_window::{Lanes, Record};
use sr_sequence::Seq;

// Whether the source is not forgotten.
pub(crate) fn is_live<const N: usize>(entry: &Aged<Record<N>>, now: u64) -> bool
    ensures { result ≡ is_live now (heard_of entry.now) }
{
    entry.is_live(ENTRY_FORGET_TIME, now)
}

/// The asked lanes on which the number is new in this epoch.
pub fn fresh<const N: usize>(entry: &Aged<Record<N>>, seq: Seq, lanes: Lanes, now: u64) -> Lanes
    ensures { result ≡ fresh_at (64 * N) (heard_of entry.now) seq.0 lanes now }
{
    if is_live(entry, now) {
        entry.value.fresh(seq, lanes)
    } else {
        lanes
    }
}

/// Notes an arrival, and answers the lanes on which it is new.
pub fn note<const N: usize>(entry: &mut Aged<Record<N>>, seq: Seq, lanes: Lanes, now: u64) -> Lanes
    requires { is_empty lanes ≡ false }
    ensures after { heard_of entry.new ≡ heard_next (64 * N) (heard_of entry.old) seq.0 lanes now }
    ensures answer { result ≡ fresh_at (64 * N) (heard_of entry.old) seq.0 lanes now }
{
    if is_live(entry, now) {
        entry.time = entry.time.max(now);
        entry.value.note(seq, lanes)
    } else {
        entry.time = now;
        entry.value.begin_again(seq, lanes);
        lanes
    }
}

/// Joins what another table has of the source, unless the two records are apart. Answers whether it did.
pub fn join<const N: usize>(entry: &mut Aged<Record<N>>, other: &Aged<Record<N>>) -> bool
    ensures answer { result ≡ not (is_apart (Some (heard_of entry.old)) (heard_of other.now)) }
    ensures later { entry.old.time ≤ entry.new.time }
    ensures joined { is_apart (Some (heard_of entry.old)) (heard_of other.now) ≡ false
        → heard_of entry.new ≡ joined_heard (64 * N) (heard_of entry.old) (heard_of other.now) }
{
    entry.time = entry.time.max(other.time);
    entry.value.merge(&other.value).is_ok()
}
