//! The figures of all sources together.

ghost use Rattle.std.specs.Prelude.{◌≡◌};
ghost use Rattle.sr_audit_page.specs.Sums.{together, lesser_skew, greater_skew, sums_with, sum_up};

use sr_page::{SourceRow, Totals};

/// The figures of no source.
const NONE: Totals = Totals {
    sources: 0,
    frames: 0,
    pairs: 0,
    judged: 0,
    lost_a: 0,
    lost_b: 0,
    neither: 0,
    least: None,
    greatest: None,
};

/// Two counts together.
pub(crate) fn together(a: u64, b: u64) -> u64
    ensures { result ≡ together a b }
{
    a.saturating_add(b)
}

/// The lesser of two skews, where there are two.
fn lesser_skew(own: Option<i128>, next: Option<i128>) -> Option<i128>
    ensures { result ≡ lesser_skew own next }
{
    match (own, next) {
        (Some(own), Some(next)) => Some(own.min(next)),
        (Some(skew), None) | (None, Some(skew)) => Some(skew),
        (None, None) => None,
    }
}

/// The greater of two skews, where there are two.
fn greater_skew(own: Option<i128>, next: Option<i128>) -> Option<i128>
    ensures { result ≡ greater_skew own next }
{
    match (own, next) {
        (Some(own), Some(next)) => Some(own.max(next)),
        (Some(skew), None) | (None, Some(skew)) => Some(skew),
        (None, None) => None,
    }
}

/// The figures with those of a source more.
fn sums_with(sums: Totals, row: &SourceRow) -> Totals
    ensures { result ≡ sums_with sums row.now }
{
    let judged = together(together(row.pairs, row.lost_a), row.lost_b);
    Totals {
        sources: together(sums.sources, 1),
        frames: together(sums.frames, row.frames),
        pairs: together(sums.pairs, row.pairs),
        judged: together(sums.judged, judged),
        lost_a: together(sums.lost_a, row.lost_a),
        lost_b: together(sums.lost_b, row.lost_b),
        neither: together(sums.neither, row.neither),
        least: lesser_skew(sums.least, row.least),
        greatest: greater_skew(sums.greatest, row.greatest),
    }
}

/// The figures of all sources together. A count stays at 2^64 - 1.
pub fn sums_of(rows: &[SourceRow]) -> Totals
    ensures { result ≡ sum_up rows.now }
{
    let mut sums = NONE;
    for row in rows {
        sums = sums_with(sums, row);
    }
    sums
}
