//! The map behind a table. A place is an entry that may have no value: that of an address that went, one that is held, or a gap, which is
//! nobody's.
ghost use Rattle.std.specs.Prelude.{◌≡◌, ◌+◌, ◌&&◌, [], ℕ, None, Some, true, false, not, is_some, length, slice_get, IfSome, IfNone};
ghost use Rattle.std.specs.Map.{lookup};
ghost use Rattle.indexmap.specs.IndexMap.{hasher_of};
ghost use Rattle.std.specs.Fn.{FnOnceReturnsAtMut};
ghost use Rattle.std.specs.Option.{option_copied, option_map};
ghost use Rattle.sr_frame.specs.Addresses.{mac_eq};
ghost use Rattle.sr_slots.specs.Places.{entries_of, slot_of, StandsAt, entries_from};
ghost use Rattle.sr_slots.specs.Effects.{ChangesPlace};

use crate::cell::Cell;
use crate::keys::Keys;
use crate::ranked::Ranked;
use indexmap::IndexMap;
use sr_frame::{Mac, NoMemory};
use std::alloc::Global;

/// A place: its value, if there is one, and whether it is held.
#[derive(Drop)]
pub struct Slot<V: Drop + Ranked> {
    pub value: Cell<V>,
    pub held: bool,
}

/// No places, under these keys.
pub fn empty<V: Drop + Ranked>(alloc: Global, keys: Keys) -> IndexMap<Mac, Slot<V>, Keys>
    ensures entries { result.entries ≡ [] }
    ensures keys { hasher_of result ≡ keys }
{
    IndexMap::with_hasher(alloc, keys)
}

/// The value at an address.
pub fn value_of<V: Drop + Ranked>(map: &IndexMap<Mac, Slot<V>, Keys>, key: Mac) -> Option<&V>
    ensures { option_copied result ≡ lookup (mac_eq key) (entries_of map.now.entries) }
{
    // The length says that no two addresses are equal.
    let _places = map.len();
    match map.get(&key) {
        Some(slot) => slot.value.get(),
        None => None,
    }
}

/// The value at an address, and the index of its place.
pub fn find<V: Drop + Ranked>(map: &IndexMap<Mac, Slot<V>, Keys>, key: Mac) -> Option<(usize, &V)>
    ensures { option_map (λ found. found.1.now) result
        ≡ lookup (mac_eq key) (entries_of map.now.entries) }
{
    let _places = map.len();
    let (index, _, slot) = map.get_full(&key)?;
    Some((index, slot.value.get()?))
}

/// Whether the place of an address is at this index.
// speed: D-node-one-look
#[inline(always)]
pub fn stands_at<V: Drop + Ranked>(
    map: &IndexMap<Mac, Slot<V>, Keys>,
    index: usize,
    key: Mac,
) -> bool
    ensures place { result ≡ true → (slot : Slot V)
        × (slice_get map.now.entries index ≡ Some (key, slot)) }
    ensures at { result ≡ true → StandsAt key map.now.entries index }
{
    let _places = map.len();
    match map.get_index(index) {
        Some((stored, _)) => *stored == key,
        None => false,
    }
}

// The index of the place of an address, by a look-up. It stands apart, so that an address that is where it was sought first costs
// no more than a compare.
// speed: D-node-one-look
#[inline(never)]
fn sought<V: Drop + Ranked>(map: &IndexMap<Mac, Slot<V>, Keys>, key: Mac) -> Option<usize>
    ensures found { is_some result ≡ is_some (lookup (mac_eq key) map.now.entries) }
    ensures at { IfSome result (λ index. StandsAt key map.now.entries index) }
{
    let _places = map.len();
    map.get_index_of(&key)
}

// The index of the place of an address: the given one, if it is there, else by a look-up.
// speed: D-node-one-look
#[inline(always)]
fn index_of<V: Drop + Ranked>(
    map: &IndexMap<Mac, Slot<V>, Keys>,
    first: Option<usize>,
    key: Mac,
) -> Option<usize>
    ensures found { is_some result ≡ is_some (lookup (mac_eq key) map.now.entries) }
    ensures at { IfSome result (λ index. StandsAt key map.now.entries index) }
{
    if let Some(index) = first
        && stands_at(map, index, key)
    {
        return Some(index);
    }
    sought(map, key)
}

/// The value at an address, whose place is looked for at an index first, and the index of that place.
// speed: D-node-one-look
#[inline(always)]
pub fn find_at<V: Drop + Ranked>(
    map: &IndexMap<Mac, Slot<V>, Keys>,
    first: Option<usize>,
    key: Mac,
) -> Option<(usize, &V)>
    ensures { option_map (λ found. found.1.now) result
        ≡ lookup (mac_eq key) (entries_of map.now.entries) }
{
    let _places = map.len();
    let index = index_of(map, first, key)?;
    let (_, slot) = map.get_index(index)?;
    Some((index, slot.value.get()?))
}

/// The value at an address, whose place is looked for at an index first.
pub fn value_at<V: Drop + Ranked>(
    map: &IndexMap<Mac, Slot<V>, Keys>,
    first: Option<usize>,
    key: Mac,
) -> Option<&V>
    ensures { option_copied result ≡ lookup (mac_eq key) (entries_of map.now.entries) }
{
    let (_, value) = find_at(map, first, key)?;
    Some(value)
}

// Changes the value of a place, which is not held any more. With the answer it says whether it was.
// speed: D-node-inlined
#[inline(always)]
fn change_in<V: Drop + Ranked, R, F: FnOnce(&mut V) -> R>(
    slot: &mut Slot<V>,
    change: F,
) -> Option<(R, bool)>
    requires { F.IsAlwaysCallable change }
    ensures none { IfNone result ((slot.old.value ≡ None) × (slot.new ≡ slot.old)) }
    ensures some { IfSome result (λ r. (was is : V) × (slot.old.value ≡ Some was)
        × (slot.new ≡ slot_of (Some is) false) × FnOnceReturnsAtMut F.FnOnce change was r.0 is
        × (r.1 ≡ slot.old.held)) }
{
    let answer = slot.value.change(change)?;
    let was_held = slot.held;
    slot.held = false;
    Some((answer, was_held))
}

/// Changes the value at an address in its place, which is looked for at an index first. With the answer it says whether a held place was used up.
pub fn change_at<V: Drop + Ranked, R, F: FnOnce(&mut V) -> R>(
    map: &mut IndexMap<Mac, Slot<V>, Keys>,
    first: Option<usize>,
    key: Mac,
    change: F,
) -> Option<(R, bool)>
    requires { F.IsAlwaysCallable change }
    ensures found { is_some result ≡ is_some (lookup (mac_eq key) (entries_of map.old.entries)) }
    ensures some { IfSome result (λ r.
        ChangesPlace F.FnOnce change key r.0 r.1 map.old.entries map.new.entries) }
    ensures from { IfSome result (λ r. (n : ℕ)
        → entries_from n map.old.entries ≡ [] → entries_from n map.new.entries ≡ []) }
    ensures none { IfNone result (map.new.entries ≡ map.old.entries) }
{
    let _places = map.len();
    let index = index_of(map, first, key)?;
    let slot = map.get_index_mut(index)?;
    change_in(slot, change)
}

/// Makes room for so many more places in one growth. No place changes.
pub fn reserve<V: Drop + Ranked>(
    map: &mut IndexMap<Mac, Slot<V>, Keys>,
    more: usize,
) -> Result<(), NoMemory>
    ensures { map.new.entries ≡ map.old.entries }
{
    map.reserve(more)?;
    Ok(())
}
