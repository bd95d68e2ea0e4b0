//! What the driver of the tests does with snapshots.

use super::steps::mac;
use sr_dup_snapshots::Snapshots;
use sr_dup_table::{DupFault, DupTable, Width};
use sr_dup_window::Lanes;
use sr_sequence::Seq;
use std::alloc::Global;

/// A snapshot, asked for again where an allocation fails.
pub fn text_of(alloc: Global, table: &DupTable) -> Option<Vec<u8>> {
    match table.snapshot(alloc) {
        Ok(text) => Some(text),
        Err(_) => table.snapshot(alloc).ok(),
    }
}

/// The snapshot of a table with other octets at these places. None where it has no such place, or where an allocation failed.
pub fn damaged(alloc: Global, table: &DupTable, places: &[(usize, u8)]) -> Option<Vec<u8>> {
    let mut text = text_of(alloc, table)?;
    for (place, octet) in places {
        *text.get_mut(*place)? = *octet;
    }
    Some(text)
}

/// Whether a snapshot is of this length, and these octets of it are the ones that are not 0.
pub fn has_text(alloc: Global, table: &DupTable, len: usize, places: &[(usize, u8)]) -> bool {
    let Some(text) = text_of(alloc, table) else {
        return false;
    };
    let marked = text.iter().filter(|octet| **octet != 0).count();
    text.len() == len
        && marked == places.len()
        && places
            .iter()
            .all(|(place, octet)| text.get(*place) == Some(octet))
}

/// Whether two tables have one snapshot.
pub fn has_same_text(alloc: Global, one: &DupTable, other: &DupTable) -> bool {
    match (text_of(alloc, one), text_of(alloc, other)) {
        (Some(text), Some(second)) => text == second,
        _ => false,
    }
}

// What octets are read as at a width, asked for again where an allocation fails.
fn table_of(alloc: Global, text: &[u8], width: Width) -> Option<DupTable> {
    match DupTable::read_snapshot(alloc, text, width) {
        Ok(own) => Some(own),
        Err(DupFault::NoMemory) => DupTable::read_snapshot(alloc, text, width).ok(),
        Err(_) => None,
    }
}

/// Whether octets are read at either width, or at none: what is no snapshot is told before any memory is asked for.
pub fn is_read(alloc: Global, text: &[u8]) -> Option<bool> {
    let is_narrow = !is_bad(alloc, text, Width::Narrow);
    let is_wide = !is_bad(alloc, text, Width::Wide);
    if is_narrow == is_wide {
        Some(is_wide)
    } else {
        None
    }
}

fn is_bad(alloc: Global, text: &[u8], width: Width) -> bool {
    matches!(
        DupTable::read_snapshot(alloc, text, width),
        Err(DupFault::BadSnapshot)
    )
}

/// Whether a table is what its snapshot is read as.
pub fn reads_back(alloc: Global, table: &DupTable) -> bool {
    let Some(text) = text_of(alloc, table) else {
        return false;
    };
    match table_of(alloc, text.as_slice(), table.width()) {
        Some(own) => own.same(table),
        None => false,
    }
}

/// A table becomes, at its own width, what the snapshot of another is read as.
pub fn restore(alloc: Global, table: &mut DupTable, other: &DupTable) -> bool {
    let Some(text) = text_of(alloc, other) else {
        return false;
    };
    match table_of(alloc, text.as_slice(), table.width()) {
        Some(own) => {
            *table = own;
            true
        }
        None => false,
    }
}

/// Whether octets are a snapshot of a table by which the host got a number of a source already.
pub fn was_handed_up(
    alloc: Global,
    text: &[u8],
    width: Width,
    src: u16,
    seq: u16,
    now: u64,
) -> bool {
    let Some(table) = table_of(alloc, text, width) else {
        return false;
    };
    match table.fresh(mac(src), Seq(seq), Lanes::H, now) {
        Ok(lanes) => lanes.is_empty(),
        Err(_) => false,
    }
}

// Whether octets are no snapshot of a table of this width, or that of the table which is read.
fn is_own_text(alloc: Global, text: &[u8], width: Width) -> bool {
    let Some(own) = table_of(alloc, text, width) else {
        return true;
    };
    match text_of(alloc, &own) {
        Some(again) => again.as_slice() == text,
        None => false,
    }
}

/// Whether snapshots with an octet changed are none, or that of the table which is read.
pub fn is_never_misread(alloc: Global, table: &DupTable, seed: u32) -> bool {
    let Some(mut text) = text_of(alloc, table) else {
        return false;
    };
    let mut random = seed;
    for _ in 0..64 {
        random = random.wrapping_mul(1664525).wrapping_add(1013904223);
        if text.is_empty() {
            return false;
        }
        let place = (random >> 8) as usize % text.len();
        let was = text[place];
        text[place] = (random >> 24) as u8;
        if !is_own_text(alloc, text.as_slice(), table.width()) {
            return false;
        }
        text[place] = was;
    }
    true
}

/// Whether octets with no pattern behind the head are no snapshot, or that of the table which is read.
pub fn is_never_made_up(alloc: Global, table: &DupTable, seed: u32) -> bool {
    let Some(mut text) = text_of(alloc, table) else {
        return false;
    };
    let mut random = seed;
    for octet in text.iter_mut().skip(7) {
        random = random.wrapping_mul(1664525).wrapping_add(1013904223);
        *octet = (random >> 24) as u8;
    }
    is_own_text(alloc, text.as_slice(), table.width())
}
