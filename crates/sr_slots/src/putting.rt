//! Giving an address a value: its place goes to where the values end, and is filled there.
ghost use Rattle.std.specs.Prelude.{◌≡◌, ◌+◌, ◌^◌, ◌<◌, ◌≤◌, ◌++◌, ◌∷◌, [], None, Some, true, false, List, length, slice_get, IsOk, OnErr, IfOk};
ghost use Rattle.std.specs.List.{list_any};
ghost use Rattle.std.specs.Map.{lookup, values_of};
ghost use Rattle.indexmap.specs.IndexMap.{values, set_value_at};
ghost use Rattle.sr_frame.specs.Addresses.{mac_eq};
ghost use Rattle.sr_slots.specs.Places.{entries_of, held_of, slot_of, entries_from};
ghost use Rattle.sr_slots.specs.Effects.{AddsGap, PutsLast, GetsPlace, Settles};

use crate::cell::Cell;
use crate::keys::Keys;
use crate::places::{Slot, stands_at};
use crate::ranked::Ranked;
use indexmap::IndexMap;
use indexmap::map::Entry;
use sr_frame::{Mac, NoMemory};
use std::alloc::{AllocError, Global};
use std::hash::BuildHasher;

// Puts a value into a place, and answers whether that was held.
fn fill<V: Drop + Ranked>(slot: &mut Slot<V>, value: V) -> bool
    ensures slot { slot.new ≡ slot_of (Some value) false }
    ensures held { result ≡ slot.old.held }
{
    slot.value.put(value);
    let was_held = slot.held;
    slot.held = false;
    was_held
}

// Brings the place at an index to where the values end: behind all of them, and before the places without one. It changes places with
// the empty one there, so nothing else moves, whatever stands between. Only where no empty place is behind the values do those behind
// it move up. Answers where it is then.
fn settle<V: Drop + Ranked>(
    map: &mut IndexMap<Mac, Slot<V>, Keys>,
    index: usize,
    end: usize,
) -> usize
    requires within { index < length map.old.entries }
    requires end { end ≤ length map.old.entries }
    requires behind { entries_from end map.old.entries ≡ [] }
    ensures bound { result ≤ end }
    ensures settled { (front back : List (Mac × Slot V)) (place : Mac × Slot V)
        → length front ≡ index → map.old.entries ≡ front ++ place ∷ back
        → Settles front place back map.new.entries result }
{
    if index == end {
        return end;
    }
    if end < map.len() {
        map.swap_indices(index, end);
        return end;
    }
    map.move_index(index, end - 1);
    end - 1
}

// The index of the place of an address, which is looked for at an index first, and made where there is none. NoMemory: an
// allocation failed.
fn place_for<V: Drop + Ranked>(
    map: &mut IndexMap<Mac, Slot<V>, Keys>,
    alloc: Global,
    first: usize,
    key: Mac,
) -> Result<usize, NoMemory>
    ensures place { IfOk result (λ index. GetsPlace key map.old.entries map.new.entries index) }
    ensures reserved { list_any (mac_eq key) (held_of map.old.entries) ≡ true → IsOk result }
    ensures err { OnErr result (map.new.entries ≡ map.old.entries) }
{
    let places = map.len();
    if stands_at(map, first, key) {
        return Ok(first);
    }
    if let Some(index) = map.get_index_of(&key) {
        return Ok(index);
    }
    let value = Cell::new(alloc)?;
    match map.insert(key, Slot { value, held: false }) {
        Ok(_) => Ok(places),
        Err(e) => Err(AllocError::from(e).into()),
    }
}

// An address under which an empty place stands that is nobody's: drawn by the keys, so that none who sends can choose it.
fn drawn_address(keys: &Keys, number: u64) -> Mac {
    let [a, b, c, d, e, f, _, _] = keys.hash_one(number).to_le_bytes();
    Mac([a, b, c, d, e, f])
}

// Adds an empty place behind all, under an address that has none. Where it has one, or an allocation fails, nothing changes.
fn add_gap<V: Drop + Ranked>(map: &mut IndexMap<Mac, Slot<V>, Keys>, alloc: Global, key: Mac)
    ensures { AddsGap map.old.entries map.new.entries }
{
    let Ok(entry) = map.entry(key) else {
        return;
    };
    match entry {
        Entry::Occupied(_) => {}
        Entry::Vacant(entry) => {
            if let Ok(value) = Cell::new(alloc) {
                entry.insert(Slot { value, held: false });
            }
        }
    }
}

// The index of the place of an address, as `place_for` answers it. Where it stands before a value, an empty place stands behind all
// values then, unless an allocation failed. NoMemory: an allocation failed.
fn place_to_settle<V: Drop + Ranked>(
    map: &mut IndexMap<Mac, Slot<V>, Keys>,
    alloc: Global,
    end: usize,
    key: Mac,
    drawn: &mut u64,
) -> Result<usize, NoMemory>
    ensures place { IfOk result (λ index. GetsPlace key map.old.entries map.new.entries index) }
    ensures reserved { list_any (mac_eq key) (held_of map.old.entries) ≡ true → IsOk result }
    ensures err { OnErr result (map.new.entries ≡ map.old.entries) }
{
    let index = place_for(map, alloc, end, key)?;
    if index < end && end == map.len() {
        *drawn = drawn.wrapping_add(1);
        let gap = drawn_address(map.hasher(), *drawn);
        add_gap(map, alloc, gap);
    }
    Ok(index)
}

// Puts a value into the place at an index, and answers whether that was held.
fn fill_at<V: Drop + Ranked>(map: &mut IndexMap<Mac, Slot<V>, Keys>, index: usize, value: V) -> bool
    requires { index < length map.old.entries }
    ensures written { map.new.entries
        ≡ set_value_at map.old.entries index (slot_of (Some value) false) }
    ensures held { (slot : Slot V) → slice_get (values_of map.old.entries) index ≡ Some slot
        → result ≡ slot.held }
{
    match map.get_index_mut(index) {
        Some(slot) => fill(slot, value),
        None => false,
    }
}

/// Whether a held place was used up, and the index from which on no place has a value.
#[derive(Clone, Copy)]
pub struct Put {
    pub was_held: bool,
    pub end: usize,
}

/// Gives an address without a value one, where no place from `end` on has a value. It goes last, behind all that have one, and nothing
/// else moves unless an allocation fails. `drawn` counts the gaps that were added.
pub fn put_last<V: Drop + Ranked>(
    map: &mut IndexMap<Mac, Slot<V>, Keys>,
    alloc: Global,
    end: usize,
    key: Mac,
    value: V,
    drawn: &mut u64,
) -> Result<Put, NoMemory>
    requires absent { lookup (mac_eq key) (entries_of map.old.entries) ≡ None }
    requires end { entries_from end map.old.entries ≡ [] }
    ensures put { IfOk result (λ put.
        PutsLast key value put.was_held map.old.entries map.new.entries) }
    ensures end { IfOk result (λ put. entries_from put.end map.new.entries ≡ []) }
    ensures reserved { list_any (mac_eq key) (held_of map.old.entries) ≡ true → IsOk result }
    ensures fits { length (entries_of map.old.entries) < 2 ^ 63 }
    ensures err { OnErr result (map.new.entries ≡ map.old.entries) }
{
    let end = end.min(map.len());
    let index = place_to_settle(map, alloc, end, key, drawn)?;
    // The length says that no two addresses are equal.
    let _places = map.len();
    let at = settle(map, index, end);
    let was_held = fill_at(map, at, value);
    Ok(Put {
        was_held,
        end: at + 1,
    })
}
