//! Going over all places: which values go, the least rank, which places go.
ghost use Rattle.std.specs.Prelude.{◌≡◌, ◌+◌, ◌^◌, ◌<◌, ◌≤◌, ◌||◌, ◌&&◌, [], Some, not, is_some, length, filter, nat_le, if◌then◌else◌};
ghost use Rattle.indexmap.specs.IndexMap.{values};
ghost use Rattle.sr_slots.specs.Places.{entries_of, held_of, entries_from};
ghost use Rattle.sr_slots.specs.Calls.{least_rank, passing};

use crate::keys::Keys;
use crate::places::Slot;
use crate::ranked::Ranked;
use indexmap::IndexMap;
use sr_frame::Mac;

// Takes the value of a place out if its rank is below the limit. Answers whether it went.
fn sift_at<V: Drop + Ranked>(slot: &mut Slot<V>, limit: u64) -> bool
    ensures held { slot.new.held ≡ slot.old.held }
    ensures kept { slot.new.value ≡ passing (λ v. nat_le limit (V.rank_of v)) slot.old.value }
    ensures gone { result ≡ (is_some slot.old.value && not (is_some slot.new.value)) }
{
    slot.value.clear_below(limit)
}

// The index from which on no place so far has a value, once the one at this index is looked at too.
fn end_after<V: Drop + Ranked>(slot: &Slot<V>, index: usize, end: usize) -> usize
    requires { index < 2 ^ 63 }
    ensures { result ≡ (if is_some slot.now.value then index + 1 else end) }
{
    if slot.value.get().is_some() {
        index + 1
    } else {
        end
    }
}

/// How many values went, the least rank among those that are left, and the index from which on no place has a value.
#[derive(Clone, Copy)]
pub struct Sifted {
    pub gone: usize,
    pub least: u64,
    pub end: usize,
}

/// Takes the values out whose rank is below the limit, and moves nothing. Held places stay held.
pub fn sift<V: Drop + Ranked>(map: &mut IndexMap<Mac, Slot<V>, Keys>, limit: u64) -> Sifted
    ensures kept { entries_of map.new.entries
        ≡ filter (λ e. nat_le limit (V.rank_of e.1)) (entries_of map.old.entries) }
    ensures held { held_of map.new.entries ≡ held_of map.old.entries }
    ensures gone { result.gone + length (entries_of map.new.entries)
        ≡ length (entries_of map.old.entries) }
    ensures least { result.least ≡ least_rank V.rank_of (entries_of map.new.entries) }
    ensures end { entries_from result.end map.new.entries ≡ [] }
{
    // The length is the bound of the places.
    let _places = map.len();
    let mut sifted = Sifted {
        gone: 0,
        least: u64::MAX,
        end: 0,
    };
    let mut index = 0;
    while let Some(slot) = map.get_index_mut(index) {
        let went = sift_at(slot, limit);
        let rank = slot.value.rank_or_most();
        sifted.end = end_after(slot, index, sifted.end);
        if went {
            sifted.gone += 1;
        } else {
            sifted.least = sifted.least.min(rank);
        }
        index += 1;
    }
    sifted
}

/// The least rank of a value, or the greatest number where there is none.
pub fn least_rank<V: Drop + Ranked>(map: &IndexMap<Mac, Slot<V>, Keys>) -> u64
    ensures { result ≡ least_rank V.rank_of (entries_of map.now.entries) }
{
    let mut least = u64::MAX;
    for (_, slot) in map.iter() {
        least = least.min(slot.value.rank_or_most());
    }
    least
}

/// Takes the places out that have no value and are not held.
pub fn sweep<V: Drop + Ranked>(map: &mut IndexMap<Mac, Slot<V>, Keys>)
    ensures entries { entries_of map.new.entries ≡ entries_of map.old.entries }
    ensures held { held_of map.new.entries ≡ held_of map.old.entries }
    ensures swept { length map.new.entries
        ≤ length (entries_of map.new.entries) + length (held_of map.new.entries) }
{
    map.retain(
        |_key: &Mac, slot: &mut Slot<V>| -> bool
            ensures { (slot.new ≡ slot.old) × (result ≡ (slot.old.held || is_some slot.old.value)) }
        { slot.held || slot.value.get().is_some() },
    );
}
