//! Journals are closed, and what was written down is changed before it is settled.

use sr_forwarding::Role;
use sr_frame::NoMemory;
use sr_ports::{Kept, Log, Segment, rotate};
use std::sync::ledger::Ledger;

// NoMemory: an allocation failed, and nothing changed but the room for segments.
fn close<R: Role, L: Ledger>(
    kept: &mut Kept<R, L>,
    segments: &mut Vec<Segment>,
) -> Result<(), NoMemory> {
    segments.reserve(1)?;
    let segment = rotate(kept)?;
    segments.push_reserved(segment);
    Ok(())
}

/// Closes the journal as a segment. An allocation that fails changes nothing and is met by another try.
pub fn closes<R: Role, L: Ledger>(kept: &mut Kept<R, L>, segments: &mut Vec<Segment>) -> bool {
    let counted = (kept.journal.len(), kept.closed);
    match close(kept, segments) {
        Ok(()) => true,
        Err(_) => (kept.journal.len(), kept.closed) == counted && close(kept, segments).is_ok(),
    }
}

/// Takes the pair at this place out of the log.
pub fn forgets(log: &mut Log, place: usize) -> bool {
    if place >= log.pairs.len() {
        return false;
    }
    drop(log.pairs.remove(place));
    true
}

/// Exchanges the first and the last segment.
pub fn exchanges(segments: &mut Vec<Segment>) -> bool {
    let count = segments.len();
    if count < 2 {
        return false;
    }
    segments.swap(0, count - 1);
    true
}
