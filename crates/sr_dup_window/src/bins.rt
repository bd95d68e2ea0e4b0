//! Rows as a ring of bins: bin p is bit `p mod 64` of row `p / 64`.
ghost use Rattle.std.specs.Prelude.{◌≡◌, ◌==◌, ◌||◌, ◌&&◌, nat_le, nat_lt, ℕ, ◌+◌, ◌*◌, ◌%◌, ◌<◌, ◌≤◌, length, if◌then◌else◌};
ghost use Rattle.sr_dup_window.specs.LaneSets.{none, union};
ghost use Rattle.sr_dup_window.specs.Bins.{lanes_at, is_passed, AreRows, IsWidth};

use crate::lane_sets::Lanes;
use crate::rows::{Row, clear_in, lanes_in, mark_in, put_in, unite_row};

/// The lanes at a bin.
pub(crate) fn lanes_at(rows: &[Row], bin: usize) -> Lanes
    requires { bin < 64 * length rows.now }
    ensures { result ≡ lanes_at rows.now bin }
{
    lanes_in(&rows[bin / 64], (bin % 64) as u32)
}

/// Adds lanes at a bin.
pub(crate) fn mark(rows: &mut [Row], bin: usize, lanes: Lanes)
    requires within { bin < 64 * length rows.old }
    requires whole { AreRows (length rows.old) rows.old }
    ensures whole { AreRows (length rows.old) rows.new }
    ensures lanes { (p : ℕ) → lanes_at rows.new p
        ≡ (if p == bin then union (lanes_at rows.old p) lanes else lanes_at rows.old p) }
{
    mark_in(&mut rows[bin / 64], (bin % 64) as u32, lanes);
}

/// Puts lanes at a bin, instead of those that were there.
pub(crate) fn put(rows: &mut [Row], bin: usize, lanes: Lanes)
    requires within { bin < 64 * length rows.old }
    requires whole { AreRows (length rows.old) rows.old }
    ensures whole { AreRows (length rows.old) rows.new }
    ensures lanes { (p : ℕ) → lanes_at rows.new p
        ≡ (if p == bin then union none lanes else lanes_at rows.old p) }
{
    put_in(&mut rows[bin / 64], (bin % 64) as u32, lanes);
}

/// Clears `count` bins of one row, from `start` on.
fn clear_run(rows: &mut [Row], start: usize, count: usize)
    requires within { start < 64 * length rows.old }
    requires some { 0 < count }
    requires one_row { start % 64 + count ≤ 64 }
    requires whole { AreRows (length rows.old) rows.old }
    ensures whole { AreRows (length rows.old) rows.new }
    ensures lanes { (p : ℕ) → lanes_at rows.new p
        ≡ (if nat_le start p && nat_lt p (start + count) then none else lanes_at rows.old p) }
{
    clear_in(&mut rows[start / 64], (start % 64) as u32, count as u32);
}

/// Clears the `count` bins after `from`, going round, a row at a time.
fn clear_after(rows: &mut [Row], from: usize, count: usize)
    requires width { IsWidth (64 * length rows.old) }
    requires within { from < 64 * length rows.old }
    requires part { count < 64 * length rows.old }
    requires whole { AreRows (length rows.old) rows.old }
    ensures whole { AreRows (length rows.old) rows.new }
    ensures lanes { (p : ℕ) → p < 64 * length rows.old → lanes_at rows.new p
        ≡ (if is_passed (64 * length rows.old) from count p then none else lanes_at rows.old p) }
{
    let bins = 64 * rows.len();
    let mut done = 0;
    while done < count {
        let next = from + 1 + done;
        let start = if next < bins { next } else { next - bins };
        let run = (64 - start % 64).min(count - done);
        clear_run(rows, start, run);
        done += run;
    }
}

/// Clears all bins.
pub(crate) fn clear_all(rows: &mut [Row])
    ensures whole { AreRows (length rows.old) rows.new }
    ensures lanes { (p : ℕ) → lanes_at rows.new p ≡ none }
{
    for row in rows.iter_mut() {
        *row = [0; 6];
    }
}

/// Clears the `count` bins after `from`, going round: all of them where there are no more.
pub(crate) fn pass(rows: &mut [Row], from: usize, count: usize)
    requires width { IsWidth (64 * length rows.old) }
    requires within { from < 64 * length rows.old }
    requires whole { AreRows (length rows.old) rows.old }
    ensures whole { AreRows (length rows.old) rows.new }
    ensures lanes { (p : ℕ) → p < 64 * length rows.old
        → lanes_at rows.new p ≡ (if is_passed (64 * length rows.old) from count p || nat_le
        (64 * length rows.old) count then none else lanes_at rows.old p) }
{
    if count < 64 * rows.len() {
        clear_after(rows, from, count);
    } else {
        clear_all(rows);
    }
}

/// Adds the lanes of other rows, bin by bin.
pub(crate) fn unite(rows: &mut [Row], others: &[Row])
    requires { length rows.old ≡ length others.now }
    ensures whole { AreRows (length rows.old) rows.new }
    ensures lanes { (p : ℕ) → p < 64 * length rows.old
        → lanes_at rows.new p ≡ union (lanes_at rows.old p) (lanes_at others.now p) }
{
    for (i, row) in rows.iter_mut().enumerate() {
        unite_row(row, &others[i]);
    }
}
