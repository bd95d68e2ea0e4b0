//! Writing snapshots.
ghost use Rattle.std.specs.Prelude.{◌≡◌, ◌≤◌, ◌+◌, ◌*◌, ◌++◌, ◌⊎◌, vec_len, vec_capacity, IfOk, OnOk, IsOk, IsPermutation};
ghost use Rattle.std.specs.List.{flat_map, AllByRecursion};
ghost use Rattle.std.specs.List.Sorted.{IsStrictlySortedBy};
ghost use Rattle.std.specs.Map.{keys_of};
ghost use Rattle.sr_dup_snapshots.specs.Ordered.{sources_at};
ghost use Rattle.sr_dup_window.specs.Windows.{window_of};
ghost use Rattle.sr_dup_snapshots.specs.Snapshots.{head, source_octets, mac_order, IsSource, IsSnapshot};

use crate::fields::{HEAD_LEN, NARROW_HEAD, WIDE_HEAD};
use crate::record::put_record;
use sr_dup_table::{DupTable, Parts, TableOf};
use sr_dup_window::Record;
use sr_frame::{Mac, NoMemory};
use std::alloc::Global;

// Appends the octets of a source. A list with room for them takes no memory.
fn put_source<const N: usize>(
    out: &mut Vec<u8>,
    src: Mac,
    time: u64,
    seen: &Record<N>,
) -> Result<(), NoMemory>
    requires { (N ≡ 16) ⊎ (N ≡ 32) }
    ensures spelled { OnOk result (out.new.items ≡ out.old.items
        ++ source_octets (64 * N) (src, record { seen = window_of seen.now; time = time })) }
    ensures source { OnOk result
        (IsSource (64 * N) (src, record { seen = window_of seen.now; time = time })) }
    ensures room { vec_len out.old + 16 + 48 * N ≤ vec_capacity out.old → IsOk result }
    ensures capacity { vec_capacity out.old ≤ vec_capacity out.new }
{
    out.extend_from_slice(&src.0)?;
    out.extend_from_slice(&time.to_be_bytes())?;
    put_record(out, seen)
}

// The addresses of a table, in ascending order.
fn sorted<const N: usize>(alloc: Global, table: &TableOf<N>) -> Result<Vec<Mac>, NoMemory>
    ensures all { IfOk result (λ macs. IsPermutation (keys_of table.now.sources) macs.items) }
    ensures ascending { IfOk result (λ macs. IsStrictlySortedBy mac_order macs.items) }
{
    let mut macs = Vec::with_capacity(alloc, table.source_count())?;
    for (src, _) in table.entries() {
        macs.extend_from_slice(&[src])?;
    }
    macs.sort_unstable();
    Ok(macs)
}

// Appends the sources that stand at these addresses.
fn put_sources<const N: usize>(
    out: &mut Vec<u8>,
    table: &TableOf<N>,
    macs: &[Mac],
) -> Result<(), NoMemory>
    requires { (N ≡ 16) ⊎ (N ≡ 32) }
    ensures spelled { OnOk result (out.new.items ≡ out.old.items
        ++ flat_map (source_octets (64 * N)) (sources_at table.now.sources macs.now)) }
    ensures each { OnOk result
        (AllByRecursion (IsSource (64 * N)) (sources_at table.now.sources macs.now)) }
{
    for src in macs {
        if let Some(entry) = table.entry(*src) {
            put_source(out, *src, entry.time, &entry.value)?;
        }
    }
    Ok(())
}

// The octets of a table whose snapshots begin so.
fn spelled<const N: usize>(
    alloc: Global,
    front: &[u8; 5],
    table: &TableOf<N>,
) -> Result<Vec<u8>, NoMemory>
    requires width { (N ≡ 16) ⊎ (N ≡ 32) }
    requires front { front.now ≡ head (64 * N) }
    ensures { IfOk result (λ octets. IsSnapshot (64 * N) octets.items table.now.sources) }
{
    let count = table.source_count();
    let macs = sorted(alloc, table)?;
    let mut octets = Vec::with_capacity(alloc, HEAD_LEN + (16 + 48 * N) * count)?;
    octets.extend_from_slice(front)?;
    octets.extend_from_slice(&(count as u16).to_be_bytes())?;
    put_sources(&mut octets, table, &macs)?;
    Ok(octets)
}

// The snapshot of a table.
pub(crate) fn snapshot(alloc: Global, table: &DupTable) -> Result<Vec<u8>, NoMemory>
    ensures { IfOk result (λ octets.
        IsSnapshot table.now.width octets.items table.now.sources) }
{
    match table.parts() {
        Parts::Narrow(table) => spelled(alloc, &NARROW_HEAD, table),
        Parts::Wide(table) => spelled(alloc, &WIDE_HEAD, table),
    }
}
