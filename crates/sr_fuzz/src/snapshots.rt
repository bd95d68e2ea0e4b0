//! Snapshots of tables of sources, there and back.

use crate::digest::Digest;
use sr_dup_snapshots::Snapshots;
use sr_dup_table::{DupFault, DupTable, Width};
use std::alloc::Global;

/// What the head of a snapshot of this width has at its place 4.
fn version_of(width: Width) -> u8 {
    match width {
        Width::Narrow => 1,
        Width::Wide => 2,
    }
}

/// Whether octets are read as a table that is the same.
fn is_read_as(alloc: Global, table: &DupTable, width: Width, text: &[u8]) -> bool {
    match DupTable::read_snapshot(alloc, text, width) {
        Ok(again) => again.same(table),
        Err(_) => false,
    }
}

/// Whether a table is written as octets again that are read as it. What was read at its own width is written as it was.
fn is_written(alloc: Global, table: &DupTable, width: Width, octets: &[u8]) -> bool {
    match table.snapshot(alloc) {
        Ok(text) => {
            (octets.get(4) != Some(&version_of(width)) || text.as_slice() == octets)
                && is_read_as(alloc, table, width, &text)
        }
        Err(_) => false,
    }
}

/// How many sources a snapshot has that is written as it was read. None where it is not.
fn sources_of(alloc: Global, table: &DupTable, width: Width, octets: &[u8]) -> Option<Digest> {
    let mut digest = Digest::new();
    digest.put_number(table.source_count() as u64);
    if is_written(alloc, table, width, octets) {
        Some(digest)
    } else {
        None
    }
}

/// What comes of a snapshot: the first octet names the width at which it is read. None where an allocation failed, or where it is
/// not written as it was read.
pub fn come_of(alloc: Global, octets: &[u8]) -> Option<Digest> {
    let [choice, text @ ..] = octets else {
        return Some(Digest::new());
    };
    let width = if *choice & 1 == 0 {
        Width::Narrow
    } else {
        Width::Wide
    };
    match DupTable::read_snapshot(alloc, text, width) {
        Ok(table) => sources_of(alloc, &table, width, text),
        Err(DupFault::BadSnapshot) => Some(Digest::new()),
        Err(_) => None,
    }
}
