//! The queue of the copies in flight, which knows of each link how many of them are on it.

ghost use Rattle.std.specs.Prelude.{◌≡◌, ◌≤◌, ◌<◌, ◌+◌, ◌↔◌, ℕ, true, List, [], ◌∷◌, ◌++◌, length, remove, slice_index_or, IfOk, OnOk, IsSome, IfSome};
ghost use Rattle.sr_laws_plant.specs.Lists.{how_many};
ghost use Rattle.sr_plant.specs.declared.flight.copies.Flying.{Flying};
ghost use Rattle.sr_plant.specs.Flights.{is_over};

use super::copies::Flying;
use super::counts::{add_hop, drop_hop};
use sr_frame::NoMemory;
use sr_unrolled_list::UnrolledList;
use std::alloc::Global;
use std::marker::Model;

/// The copies in flight, in the order in which they were put out.
#[derive(Drop)]
pub(crate) struct Queue {
    // speed: D-plant-pieces
    places: UnrolledList<Flying>,
    // For each link, how many of the copies are on it.
    // speed: D-plant-counts
    counts: Vec<usize>,
}

impl Model for Queue {
    ghost use Rattle.sr_plant.specs.Flights.{QueueValue, AreOnLinks};

    ghost Value = { QueueValue };

    ghost view = { λ q. record { items = q.places.items; room = q.places.room } };

    ghost invariant = { λ q. AreOnLinks q.counts.items q.places.items };
}

impl Queue {
    /// A queue with no copies, which counts those on so many links. `NoMemory` where the allocation fails.
    pub(crate) fn new(alloc: Global, links: usize) -> Result<Queue, NoMemory>
        ensures { IfOk result (λ q. q.items ≡ []) }
    {
        let counts = Vec::from_elem(alloc, 0, links)?;
        let places = UnrolledList::new(alloc)?;
        Ok(Queue { places, counts })
    }

    /// How many copies there are.
    pub(crate) fn len(&self) -> usize
        ensures { result ≡ length self.now.items }
    {
        self.places.len()
    }

    /// Makes room for so many more copies. `NoMemory` where the allocation fails. The copies stay the same.
    pub(crate) fn reserve(&mut self, additional: usize) -> Result<(), NoMemory>
        ensures items { self.new.items ≡ self.old.items }
        ensures room { OnOk result (additional ≤ self.new.room) }
    {
        self.places.reserve(additional)?;
        Ok(())
    }

    /// The copy at a place.
    pub(crate) fn get(&self, place: usize) -> Option<Flying>
        ensures there { IsSome result ↔ (place < length self.now.items) }
        ensures item { IfSome result (λ f. f ≡ slice_index_or self.now.items place f) }
    {
        self.places.get(place).copied()
    }

    /// The first copy.
    pub(crate) fn front(&self) -> Option<Flying>
        ensures there { IsSome result ↔ (0 < length self.now.items) }
        ensures item { IfSome result (λ f. f ≡ slice_index_or self.now.items 0 f) }
    {
        self.places.front().copied()
    }

    /// Whether no copy is on this link, by its count. A link that has no count is never said to be free.
    pub(crate) fn is_free(&self, link: usize) -> bool
        ensures { result ≡ true → how_many (is_over link) self.now.items ≡ 0 }
    {
        match self.counts.get(link) {
            Some(count) => *count == 0,
            None => false,
        }
    }

    /// Puts a copy behind all others.
    pub(crate) fn put_last(&mut self, flying: Flying)
        requires { 0 < self.old.room }
        ensures items { self.new.items ≡ self.old.items ++ flying ∷ [] }
        ensures room { self.old.room ≤ self.new.room + 1 }
        ensures few { length self.new.items ≤ 18446744073709551615 }
    {
        self.places.push_back_reserved(flying);
        add_hop(&mut self.counts, flying.hop);
    }

    /// Moves the first copy, if there is one, behind all others.
    pub(crate) fn turn(&mut self)
        ensures items { (first : Flying) (rest : List Flying) → self.old.items ≡ first ∷ rest
            → self.new.items ≡ rest ++ first ∷ [] }
    {
        self.places.turn();
    }

    /// Takes the first copy out, if there is one.
    pub(crate) fn pop_front(&mut self) -> Option<Flying>
        ensures items { (first : Flying) (rest : List Flying) → self.old.items ≡ first ∷ rest
            → self.new.items ≡ rest }
    {
        let removed = self.places.pop_front()?;
        drop_hop(&mut self.counts, removed.hop);
        Some(removed)
    }

    /// Takes the copy at a place out, if there is one. The room for it stays.
    pub(crate) fn remove(&mut self, place: usize) -> Option<Flying>
        ensures there { IsSome result ↔ (place < length self.old.items) }
        ensures item { IfSome result (λ f. f ≡ slice_index_or self.old.items place f) }
        ensures items { place < length self.old.items
            → self.new.items ≡ remove self.old.items place }
        ensures room { self.old.room ≤ self.new.room }
    {
        let removed = self.places.remove(place)?;
        drop_hop(&mut self.counts, removed.hop);
        Some(removed)
    }
}
