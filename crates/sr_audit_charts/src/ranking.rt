//! The sources, worst first.

use crate::sources::SourceLine;
use sr_frame::NoMemory;

/// What a source is ranked by: the most serious faults first, in the order of `--check`'s verdicts. More faults rank lower, so that the worst comes first.
fn soundness(line: &SourceLine) -> (u64, u64, u64, u64) {
    let repeats = line.figures.tally.repeats;
    let [_, _, _, _, _, _, over] = line.figures.skews.classes;
    (
        u64::MAX - line.neither,
        u64::MAX - line.lost.a.saturating_add(line.lost.b),
        u64::MAX - repeats.a.saturating_add(repeats.b),
        u64::MAX - over,
    )
}

/// Puts the worst sources first. Of equals, the one that was heard first goes first.
///
/// # Errors
/// `NoMemory` where an allocation failed.
pub fn rank(lines: &mut Vec<SourceLine>) -> Result<(), NoMemory> {
    lines.sort_by_key(|line| soundness(line))?;
    Ok(())
}
