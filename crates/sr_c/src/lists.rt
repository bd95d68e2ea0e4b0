//! PutsList of entries, as far as a C program has room for them.

ghost use Rattle.std.specs.Prelude.{◌≡◌, IfOk, map};
ghost use Rattle.sr_c.specs.Entries.{alarm_entry, node_entry, proxied_entry};
ghost use Rattle.sr_c.specs.Lists.{put_front, put_whole};

use crate::entries::{AlarmEntry, NodeEntry, ProxiedEntry, alarm_entry, node_entry, proxied_entry};
use sr_frame::{Mac, NoMemory};
use sr_node_table::{Alarm, Status};
use std::alloc::Global;

/// Puts as much of a list at the front of an array as there is room for.
pub(crate) fn put_front<T: Copy>(told: &[T], entries: &mut [T])
    ensures { entries.new ≡ put_front told.now entries.old }
{
    let count = told.len().min(entries.len());
    let (front, _) = entries.split_at_mut(count);
    front.copy_from_slice(&told[..count]);
}

/// Puts all of a list at the front of a buffer, where there is room for it.
pub(crate) fn put_whole(told: &[u8], buffer: &mut [u8])
    ensures { buffer.new ≡ put_whole told.now buffer.old }
{
    if told.len() <= buffer.len() {
        let (front, _) = buffer.split_at_mut(told.len());
        front.copy_from_slice(told);
    }
}

/// What is told of each node.
pub(crate) fn node_entries(alloc: Global, told: &[Status]) -> Result<Vec<NodeEntry>, NoMemory>
    ensures { IfOk result (λ entries. entries.items ≡ map node_entry told.now) }
{
    let mut entries = Vec::with_capacity(alloc, told.len())?;
    for status in told {
        entries.extend_from_slice(&[node_entry(status)])?;
    }
    Ok(entries)
}

/// Each alarm.
pub(crate) fn alarm_entries(alloc: Global, told: &[Alarm]) -> Result<Vec<AlarmEntry>, NoMemory>
    ensures { IfOk result (λ entries. entries.items ≡ map alarm_entry told.now) }
{
    let mut entries = Vec::with_capacity(alloc, told.len())?;
    for alarm in told {
        entries.extend_from_slice(&[alarm_entry(alarm)])?;
    }
    Ok(entries)
}

/// Each address.
pub(crate) fn proxied_entries(
    alloc: Global,
    told: &[(Mac, u64)],
) -> Result<Vec<ProxiedEntry>, NoMemory>
    ensures { IfOk result (λ entries. entries.items ≡ map proxied_entry told.now) }
{
    let mut entries = Vec::with_capacity(alloc, told.len())?;
    for proxied in told {
        entries.extend_from_slice(&[proxied_entry(proxied)])?;
    }
    Ok(entries)
}
