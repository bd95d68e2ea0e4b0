//! Holding places, and giving them up.
ghost use Rattle.std.specs.Prelude.{◌≡◌, ◌+◌, ◌^◌, ◌<◌, ◌&&◌, [], ℕ, None, Some, true, false, not, is_some, length, IsOk, OnErr, IfOk, IfSome, IfNone, if◌then◌else◌};
ghost use Rattle.std.specs.List.{list_any};
ghost use Rattle.sr_frame.specs.Addresses.{mac_eq};
ghost use Rattle.sr_slots.specs.Places.{entries_of, held_of, held_but, slot_of, IsLast, entries_from};
ghost use Rattle.sr_slots.specs.Effects.{HoldsPlace};

use crate::cell::Cell;
use crate::keys::Keys;
use crate::places::{Slot, stands_at};
use crate::ranked::Ranked;
use indexmap::IndexMap;
use indexmap::map::Entry;
use sr_frame::{Mac, NoMemory};
use std::alloc::Global;

// Holds a place, and answers whether it was not held before.
// speed: D-slots-rank
#[inline(always)]
fn hold_place<V: Drop + Ranked>(slot: &mut Slot<V>) -> bool
    ensures slot { slot.new ≡ slot_of slot.old.value true }
    ensures newly { result ≡ not slot.old.held }
{
    let newly = !slot.held;
    slot.held = true;
    newly
}

// Holds the place at an index if it is that of an address, and answers whether it was not held before.
fn hold_at<V: Drop + Ranked>(
    map: &mut IndexMap<Mac, Slot<V>, Keys>,
    index: usize,
    key: Mac,
) -> Option<bool>
    ensures held { IfSome result (λ newly. HoldsPlace key newly map.old.entries map.new.entries) }
    ensures from { IfSome result (λ newly. (n : ℕ)
        → entries_from n map.new.entries ≡ entries_from n map.old.entries) }
    ensures none { IfNone result (map.new ≡ map.old) }
{
    let _places = map.len();
    if !stands_at(map, index, key) {
        return None;
    }
    let slot = map.get_index_mut(index)?;
    Some(hold_place(slot))
}

// Holds a place for an address, which is looked up. Answers whether it was not held before.
fn hold_sought<V: Drop + Ranked>(
    map: &mut IndexMap<Mac, Slot<V>, Keys>,
    alloc: Global,
    key: Mac,
) -> Result<bool, NoMemory>
    ensures held { IfOk result (λ newly. HoldsPlace key newly map.old.entries map.new.entries) }
    ensures from { (n : ℕ) → entries_from n map.new.entries ≡ entries_from n map.old.entries }
    ensures again { list_any (mac_eq key) (held_of map.old.entries) ≡ true → IsOk result }
    ensures fits { length (held_of map.old.entries) < 2 ^ 63 }
    ensures err { OnErr result (map.new.entries ≡ map.old.entries) }
{
    // The length is the bound of the places.
    let _places = map.len();
    let Ok(entry) = map.entry(key) else {
        return Err(NoMemory);
    };
    match entry {
        Entry::Occupied(entry) => {
            let slot = entry.into_mut();
            Ok(hold_place(slot))
        }
        Entry::Vacant(entry) => {
            let value = Cell::new(alloc)?;
            entry.insert(Slot { value, held: true });
            Ok(true)
        }
    }
}

/// Holds a place for an address, which is looked for at an index first. Answers whether it was not held before.
pub fn hold<V: Drop + Ranked>(
    map: &mut IndexMap<Mac, Slot<V>, Keys>,
    alloc: Global,
    first: usize,
    key: Mac,
) -> Result<bool, NoMemory>
    ensures held { IfOk result (λ newly. HoldsPlace key newly map.old.entries map.new.entries) }
    ensures from { (n : ℕ) → entries_from n map.new.entries ≡ entries_from n map.old.entries }
    ensures again { list_any (mac_eq key) (held_of map.old.entries) ≡ true → IsOk result }
    ensures fits { length (held_of map.old.entries) < 2 ^ 63 }
    ensures err { OnErr result (map.new.entries ≡ map.old.entries) }
{
    // The length is the bound of the places.
    let _places = map.len();
    match hold_at(map, first, key) {
        Some(newly) => Ok(newly),
        None => hold_sought(map, alloc, key),
    }
}

/// Gives up the held place of an address. Answers whether there was one.
pub fn give_up<V: Drop + Ranked>(map: &mut IndexMap<Mac, Slot<V>, Keys>, key: Mac) -> bool
    ensures entries { entries_of map.new.entries ≡ entries_of map.old.entries }
    ensures held { held_of map.new.entries ≡ held_but (held_of map.old.entries) key }
    ensures len { length (held_of map.new.entries) + (if result then 1 else 0)
        ≡ length (held_of map.old.entries) }
    ensures from { (n : ℕ) → entries_from n map.new.entries ≡ entries_from n map.old.entries }
{
    // The length says that no two addresses are equal.
    let _places = map.len();
    match map.get_mut(&key) {
        Some(slot) => {
            let was_held = slot.held;
            slot.held = false;
            was_held
        }
        None => false,
    }
}

// Whether the last place is held and has no value.
fn ends_held<V: Drop + Ranked>(map: &IndexMap<Mac, Slot<V>, Keys>) -> bool
    ensures { result ≡ true → IsLast (slot_of None true) map.now.entries }
{
    match map.last() {
        Some((_, slot)) => slot.held && slot.value.get().is_none(),
        None => false,
    }
}

/// Takes the last place out if it is held and has no value. Answers whether it was so.
pub fn pop_held<V: Drop + Ranked>(map: &mut IndexMap<Mac, Slot<V>, Keys>) -> bool
    ensures entries { entries_of map.new.entries ≡ entries_of map.old.entries }
    ensures held { length (held_of map.new.entries) + (if result then 1 else 0)
        ≡ length (held_of map.old.entries) }
    ensures from { (n : ℕ) → entries_from n map.new.entries ≡ entries_from n map.old.entries }
{
    ends_held(map) && map.pop().is_some()
}

/// Gives up all held places.
pub fn release<V: Drop + Ranked>(map: &mut IndexMap<Mac, Slot<V>, Keys>)
    ensures entries { entries_of map.new.entries ≡ entries_of map.old.entries }
    ensures held { held_of map.new.entries ≡ [] }
{
    map.retain(
        |_key: &Mac, slot: &mut Slot<V>| -> bool
            ensures { (slot.new ≡ slot_of slot.old.value false)
                × (result ≡ is_some slot.old.value) }
        {
            slot.held = false;
            slot.value.get().is_some()
        },
    );
}
