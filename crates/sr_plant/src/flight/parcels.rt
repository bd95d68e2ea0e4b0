//! The parcels that are kept while copies of them are in flight.

ghost use Rattle.std.specs.Prelude.{◌≡◌, ◌≢◌, ◌+◌, ◌<◌, ◌≤◌, ℕ, IsSome, None};
ghost use Rattle.slab.specs.Slab.{get, slab_len};
ghost use Rattle.sr_plant.specs.Flights.{copies_of, parcel_of, AreUsed, AreUsedBut};

use slab::Slab;
use sr_forwarding::Parcel;

/// A parcel that was put out, and how many copies of it are in flight.
#[derive(Drop)]
pub(crate) struct Kept {
    pub(crate) parcel: Parcel,
    pub(crate) copies: usize,
}

/// Counts one more copy of a parcel.
pub(crate) fn add_copy(kept: &mut Slab<Kept>, key: usize)
    requires there { IsSome (get kept.old key) }
    requires fits { copies_of (get kept.old key) < 18446744073709551615 }
    ensures there { IsSome (get kept.new key) }
    ensures more { copies_of (get kept.new key) ≡ copies_of (get kept.old key) + 1 }
    ensures parcel { parcel_of (get kept.new key) ≡ parcel_of (get kept.old key) }
    ensures others { (other : ℕ) → other ≢ key → get kept.new other ≡ get kept.old other }
    ensures len { slab_len kept.new ≡ slab_len kept.old }
    ensures capacity { kept.new.capacity ≡ kept.old.capacity }
{
    if let Some(entry) = kept.get_mut(key) {
        entry.copies += 1;
    }
}

/// Counts one copy less of a parcel, and removes the parcel with its last copy.
pub(crate) fn drop_copy(kept: &mut Slab<Kept>, key: usize)
    requires { 0 < copies_of (get kept.old key) }
    ensures fewer { copies_of (get kept.new key) + 1 ≡ copies_of (get kept.old key) }
    ensures parcel { 0 < copies_of (get kept.new key)
        → parcel_of (get kept.new key) ≡ parcel_of (get kept.old key) }
    ensures gone { copies_of (get kept.new key) ≡ 0 → get kept.new key ≡ None }
    ensures others { (other : ℕ) → other ≢ key → get kept.new other ≡ get kept.old other }
    ensures len { slab_len kept.new ≤ slab_len kept.old }
    ensures capacity { kept.new.capacity ≡ kept.old.capacity }
{
    let Some(entry) = kept.get_mut(key) else {
        return;
    };
    if entry.copies > 1 {
        entry.copies -= 1;
        return;
    }
    let _ = kept.try_remove(key);
}

/// Removes a parcel that has no copy.
pub(crate) fn drop_unused(kept: &mut Slab<Kept>, key: usize)
    requires { AreUsedBut key kept.old }
    ensures used { AreUsed kept.new }
    ensures copies { (k : ℕ) → copies_of (get kept.new k) ≡ copies_of (get kept.old k) }
    ensures parcel { (k : ℕ) → 0 < copies_of (get kept.new k) → get kept.new k ≡ get kept.old k }
    ensures len { slab_len kept.new ≤ slab_len kept.old }
    ensures capacity { kept.new.capacity ≡ kept.old.capacity }
{
    if let Some(entry) = kept.get(key) {
        if entry.copies == 0 {
            let _ = kept.try_remove(key);
        }
    }
}
