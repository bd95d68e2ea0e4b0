//! What the table of the sources shows.

use sr_audit::Alive;
use sr_audit_charts::SourceLine;
use sr_page::SourceRow;
use std::alloc::{AllocError, Global};

/// The longer of two times between signs of life.
fn longest_of(alive: Option<Alive>) -> Option<u64> {
    let alive = alive?;
    match (alive.a.gap, alive.b.gap) {
        (Some(a), Some(b)) => Some(a.max(b)),
        (Some(gap), None) | (None, Some(gap)) => Some(gap),
        (None, None) => None,
    }
}

/// How many frames of a source came, by whichever LAN.
fn frames_of(line: &SourceLine) -> u64 {
    let tally = line.figures.tally;
    tally
        .pairs
        .saturating_add(tally.alone.a)
        .saturating_add(tally.alone.b)
}

/// A skew of a source, which has none where it has no pair.
fn when_paired(pairs: u64, skew: i128) -> Option<i128> {
    if pairs == 0 { None } else { Some(skew) }
}

/// The row of a source.
pub fn row_of(line: &SourceLine) -> SourceRow {
    let figures = line.figures;
    let skews = figures.skews;
    let repeats = figures.tally.repeats;
    SourceRow {
        mac: line.mac,
        frames: frames_of(line),
        pairs: figures.tally.pairs,
        lost_a: line.lost.a,
        lost_b: line.lost.b,
        neither: line.neither,
        repeated: repeats.a.saturating_add(repeats.b),
        order: figures.order.a.saturating_add(figures.order.b),
        jumps: figures.jumps,
        restarts: figures.restarts,
        least: when_paired(skews.count, skews.least),
        mean: skews.mean(),
        greatest: when_paired(skews.count, skews.greatest),
        gap: longest_of(line.alive),
    }
}

/// The rows of sources.
///
/// # Errors
/// An allocation failed.
pub fn rows_of(alloc: Global, lines: &[SourceLine]) -> Result<Vec<SourceRow>, AllocError> {
    let mut rows = Vec::new(alloc);
    for line in lines {
        if let Err(refused) = rows.push(row_of(line)) {
            return Err(AllocError::from(refused));
        }
    }
    Ok(rows)
}
