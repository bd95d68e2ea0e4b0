//! The queue of copies in flight: a copy of a parcel that is kept is put last, or taken out.

ghost use Rattle.std.specs.Prelude.{◌≡◌, ◌≤◌, ◌<◌, ◌+◌, [], ◌∷◌, ◌++◌, map, filter, not, drop, length, option_to_list, IsSome};
ghost use Rattle.slab.specs.Slab.{get, slab_len};
ghost use Rattle.sr_plant.specs.Copies.{is_on};
ghost use Rattle.sr_plant.specs.Limits.{most_members};
ghost use Rattle.sr_plant.specs.Flights.{AreCounted, AreUsed, AreUsedBut, copy_in, copies_in, parcel_of};
ghost use Rattle.sr_plant.specs.Topologies.{IsJoinedAs};
ghost use Rattle.sr_plant.specs.Puts.{copy_over, copies_put, those_passing, hop_to};

use super::parcels::{Kept, add_copy, drop_copy};
use super::queue::Queue;
use crate::hop::Hop;
use crate::outlet::Outlet;
use slab::Slab;
use sr_frame::Port;

/// A copy in flight: where its parcel is kept, where it leads, and the node and the outlet that put it out.
#[derive(Clone, Copy)]
pub(crate) struct Flying {
    pub(crate) key: usize,
    pub(crate) hop: Hop,
    pub(crate) from: usize,
    pub(crate) outlet: Port,
}

/// Puts one more copy of a parcel that is kept behind all others.
pub(crate) fn attach(kept: &mut Slab<Kept>, places: &mut Queue, flying: Flying)
    requires room { 0 < places.old.room }
    requires counted { AreCounted kept.old places.old.items }
    requires used { AreUsedBut flying.key kept.old }
    requires there { IsSome (get kept.old flying.key) }
    ensures counted { AreCounted kept.new places.new.items }
    ensures used { AreUsed kept.new }
    ensures copies { copies_in kept.new places.new.items
        ≡ copies_in kept.old places.old.items ++ copy_in kept.old flying ∷ [] }
    ensures there { IsSome (get kept.new flying.key) }
    ensures parcel { parcel_of (get kept.new flying.key) ≡ parcel_of (get kept.old flying.key) }
    ensures kept_len { slab_len kept.new ≡ slab_len kept.old }
    ensures kept_capacity { kept.new.capacity ≡ kept.old.capacity }
    ensures room { places.old.room ≤ places.new.room + 1 }
{
    places.put_last(flying);
    add_copy(kept, flying.key);
}

// Looks at the first copy: it goes out of flight where it is on this link, and else behind all others.
fn look_at(kept: &mut Slab<Kept>, places: &mut Queue, first: Flying, link: usize)
    requires first { places.old.items ≡ first ∷ drop 1 places.old.items }
    requires counted { AreCounted kept.old places.old.items }
    requires used { AreUsed kept.old }
    ensures counted { AreCounted kept.new places.new.items }
    ensures used { AreUsed kept.new }
    ensures copies { copies_in kept.new places.new.items
        ≡ copies_in kept.old (drop 1 places.old.items)
        ++ filter (λ c. not (is_on link c)) (copy_in kept.old first ∷ []) }
{
    if first.hop.is_on(link) {
        let _ = places.pop_front();
        drop_copy(kept, first.key);
        return;
    }
    places.turn();
}

/// Takes all copies on a link out of flight. The others stay, in their order.
pub(crate) fn keep_off(kept: &mut Slab<Kept>, places: &mut Queue, link: usize)
    requires counted { AreCounted kept.old places.old.items }
    requires used { AreUsed kept.old }
    ensures counted { AreCounted kept.new places.new.items }
    ensures used { AreUsed kept.new }
    ensures copies { copies_in kept.new places.new.items
        ≡ filter (λ c. not (is_on link c)) (copies_in kept.old places.old.items) }
{
    for _ in 0..places.len() {
        let Some(first) = places.front() else {
            return;
        };
        look_at(kept, places, first, link);
    }
}

// Puts the copy of a parcel to one node in flight, if the outlet leads there over no link that is cut.
fn put_copy(
    kept: &mut Slab<Kept>,
    places: &mut Queue,
    outlet: Outlet,
    key: usize,
    to: usize,
    cut: &[bool],
)
    requires small { outlet.nodes ≤ most_members }
    requires node { outlet.node < outlet.nodes }
    requires joined { IsJoinedAs outlet.topology outlet.nodes }
    requires to { to < outlet.nodes }
    requires room { 0 < places.old.room }
    requires counted { AreCounted kept.old places.old.items }
    requires used { AreUsedBut key kept.old }
    requires there { IsSome (get kept.old key) }
    ensures counted { AreCounted kept.new places.new.items }
    ensures used { AreUsedBut key kept.new }
    ensures copies { copies_in kept.new places.new.items ≡ copies_in kept.old places.old.items
        ++ those_passing cut.now
        (map (copy_over outlet.node outlet.port (parcel_of (get kept.old key)))
        (option_to_list (hop_to outlet.topology outlet.nodes outlet.node outlet.port to))) }
    ensures there { IsSome (get kept.new key) }
    ensures parcel { parcel_of (get kept.new key) ≡ parcel_of (get kept.old key) }
    ensures kept_len { slab_len kept.new ≡ slab_len kept.old }
    ensures kept_capacity { kept.new.capacity ≡ kept.old.capacity }
    ensures room { places.old.room ≤ places.new.room + 1 }
{
    let Some(hop) = outlet.hop(to) else {
        return;
    };
    if hop.is_stopped(cut) {
        return;
    }
    let flying = Flying {
        key,
        hop,
        from: outlet.node,
        outlet: outlet.port,
    };
    attach(kept, places, flying);
}

/// Puts the copies of a parcel in flight: one for each node to which the outlet leads over no link that is cut.
pub(crate) fn put_copies(
    kept: &mut Slab<Kept>,
    places: &mut Queue,
    outlet: Outlet,
    key: usize,
    cut: &[bool],
)
    requires small { outlet.nodes ≤ most_members }
    requires node { outlet.node < outlet.nodes }
    requires joined { IsJoinedAs outlet.topology outlet.nodes }
    requires room { outlet.nodes ≤ places.old.room }
    requires counted { AreCounted kept.old places.old.items }
    requires used { AreUsedBut key kept.old }
    requires there { IsSome (get kept.old key) }
    ensures counted { AreCounted kept.new places.new.items }
    ensures used { AreUsedBut key kept.new }
    ensures copies { copies_in kept.new places.new.items ≡ copies_in kept.old places.old.items
        ++ those_passing cut.now
        (copies_put outlet.topology outlet.nodes outlet.node outlet.port
        (parcel_of (get kept.old key))) }
    ensures kept_len { slab_len kept.new ≡ slab_len kept.old }
    ensures kept_capacity { kept.new.capacity ≡ kept.old.capacity }
    ensures room { places.old.room ≤ places.new.room + outlet.nodes }
{
    // speed: D-plant-neighbours
    let (first, behind) = outlet.reach();
    for to in first..behind {
        put_copy(kept, places, outlet, key, to, cut);
    }
}
