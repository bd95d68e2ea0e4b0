//! The calls that list a source, as the laws of lists speak of them.

ghost use Rattle.std.specs.Prelude.{◌≡◌, ◌+◌, ◌^◌, ◌<◌, List, ◌∷◌, length, reverse, IfOk, OnOk};
ghost use Rattle.sr_audit.specs.declared.listing.Copied.{Copied};
ghost use Rattle.sr_laws_audit.specs.Lists.{lines_from, wanted_lines, ListingRun, AreSameLines};

use sr_audit::{Copied, Listed, Listing, Spans};
use sr_frame::{Mac, NoMemory};
use sr_slots::Keys;
use std::alloc::Global;

/// Has a listing take the next copy of a run.
fn note_next(listing: &mut Listing, copy: Copied, lines: &mut Vec<Listed>) -> Result<(), NoMemory>
    ensures runs { OnOk result ((copies : List Copied) → length copies + 1 < 2 ^ 64
        → ListingRun listing.old.spans listing.old.first copies
        listing.old.sources.entries lines.old.items
        → ListingRun listing.old.spans listing.old.first (copy ∷ copies)
        listing.new.sources.entries lines.new.items) }
    ensures spans { listing.new.spans ≡ listing.old.spans }
    ensures first { listing.new.first ≡ listing.old.first }
{
    listing.note(copy, lines)
}

/// All that is listed of a source, of these copies, the first one first: the lines of its numbers, each once, if it is one of the 512 from
/// the first one on.
///
/// # Errors
/// `NoMemory` where an allocation failed.
pub fn list_source(
    alloc: Global,
    keys: Keys,
    spans: Spans,
    first: usize,
    copies: &[Copied],
    src: Mac,
) -> Result<Vec<Listed>, NoMemory>
    ensures { IfOk result (λ lines. AreSameLines (lines_from src lines.items)
        (wanted_lines spans first src (reverse copies.now))) }
{
    let mut listing = Listing::new(alloc, keys, spans, first);
    let mut lines = Vec::new(alloc);
    for copy in copies {
        note_next(&mut listing, *copy, &mut lines)?;
    }
    listing.finish(src, &mut lines)?;
    Ok(lines)
}
