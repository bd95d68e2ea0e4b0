//! The copies in flight. Each parcel is kept once, until its last copy is gone.

ghost use Rattle.std.specs.Prelude.{◌≡◌, ◌≤◌, ◌<◌, ◌+◌, [], ◌++◌, length, filter, not, remove, IfOk, OnOk, OnErr, option_to_list, option_map, slice_get};
ghost use Rattle.sr_plant.specs.Copies.{is_on, Doubles};
ghost use Rattle.sr_plant.specs.Limits.{most_members};
ghost use Rattle.sr_plant.specs.Puts.{all_put, those_passing};
ghost use Rattle.sr_plant.specs.Carrying.{OneComesAs};
ghost use Rattle.sr_plant.specs.Topologies.{IsJoinedAs};

mod copies;
mod counts;
mod parcels;
mod queue;

use crate::Topology;
use crate::arriving::Arriving;
use crate::outlet::Outlet;
pub(crate) use copies::Flying;
use copies::{attach, keep_off, put_copies};
use parcels::{Kept, drop_copy, drop_unused};
use queue::Queue;
use slab::Slab;
use sr_forwarding::Parcel;
use sr_frame::NoMemory;
use std::alloc::Global;
use std::marker::Model;

/// The copies in flight, in the order in which they were put out.
#[derive(Drop)]
pub(crate) struct Flight {
    kept: Slab<Kept>,
    places: Queue,
}

impl Model for Flight {
    ghost use Rattle.std.specs.Prelude.{◌-◌};
    ghost use Rattle.slab.specs.Slab.{slab_len};
    ghost use Rattle.sr_plant.specs.Plants.{FlightValue};
    ghost use Rattle.sr_plant.specs.Limits.{most_members};
    ghost use Rattle.sr_plant.specs.Puts.{all_put, those_passing};
    ghost use Rattle.sr_plant.specs.Flights.{AreCounted, AreUsed, copies_in};

    ghost Value = { FlightValue };

    ghost view = { λ f. record {
      copies = copies_in f.kept f.places.items;
      parcels = f.kept.capacity - slab_len f.kept;
      places = f.places.room;
    } };

    ghost invariant = { λ f. AreCounted f.kept f.places.items × AreUsed f.kept };
}

impl Flight {
    /// A flight with no copies, over so many links. `NoMemory` where the allocation fails.
    pub(crate) fn new(alloc: Global, links: usize) -> Result<Flight, NoMemory>
        ensures { IfOk result (λ f. f.copies ≡ []) }
    {
        let places = Queue::new(alloc, links)?;
        Ok(Flight {
            kept: Slab::new(alloc),
            places,
        })
    }

    /// How many copies are in flight.
    pub(crate) fn len(&self) -> usize
        ensures { result ≡ length self.now.copies }
    {
        self.places.len()
    }

    /// Makes room for so many more parcels and copies. `NoMemory` where the allocation fails. The copies in flight stay
    /// the same.
    pub(crate) fn reserve(&mut self, parcels: usize, places: usize) -> Result<(), NoMemory>
        ensures copies { self.new.copies ≡ self.old.copies }
        ensures parcels { OnOk result (parcels ≤ self.new.parcels) }
        ensures places { OnOk result (places ≤ self.new.places) }
    {
        self.kept.reserve(parcels)?;
        self.places.reserve(places)?;
        Ok(())
    }

    /// Puts a parcel out at an outlet, if there is one: a copy goes to each node to which the outlet leads over no link
    /// that is cut.
    pub(crate) fn put(&mut self, outlet: Outlet, parcel: Option<Parcel>, cut: &[bool])
        requires small { outlet.nodes ≤ most_members }
        requires node { outlet.node < outlet.nodes }
        requires joined { IsJoinedAs outlet.topology outlet.nodes }
        requires parcels { 1 ≤ self.old.parcels }
        requires places { outlet.nodes ≤ self.old.places }
        ensures copies { self.new.copies ≡ self.old.copies ++ those_passing cut.now
            (all_put outlet.topology outlet.nodes outlet.node outlet.port (option_to_list parcel)) }
        ensures parcels { self.old.parcels ≤ self.new.parcels + 1 }
        ensures places { self.old.places ≤ self.new.places + outlet.nodes }
    {
        let Some(parcel) = parcel else {
            return;
        };
        let key = self.kept.insert_reserved(Kept { parcel, copies: 0 });
        put_copies(&mut self.kept, &mut self.places, outlet, key, cut);
        drop_unused(&mut self.kept, key);
    }

    /// The copy at a place as it comes to its receiver. `None` where its outlet has no octets for it.
    pub(crate) fn arriving(
        &self,
        alloc: Global,
        topology: Topology,
        place: usize,
    ) -> Result<Option<Arriving>, NoMemory>
        requires place { place < length self.now.copies }
        ensures { IfOk result (λ a. OneComesAs topology self.now.copies place a) }
    {
        let Some(flying) = self.places.get(place) else {
            return Ok(None);
        };
        match self.kept.get(flying.key) {
            Some(entry) => Arriving::of(alloc, topology, flying, &entry.parcel),
            None => Ok(None),
        }
    }

    /// The node to which the copy at a place leads. `None` where there is no copy.
    pub(crate) fn receiver(&self, place: usize) -> Option<usize>
        ensures { result ≡ option_map (λ c. c.hop.to.node) (slice_get self.now.copies place) }
    {
        let flying = self.places.get(place)?;
        Some(flying.hop.node)
    }

    /// Takes the copy at a place out of flight. The room for it stays.
    pub(crate) fn remove(&mut self, place: usize)
        requires { place < length self.old.copies }
        ensures copies { self.new.copies ≡ remove self.old.copies place }
        ensures parcels { self.old.parcels ≤ self.new.parcels }
        ensures places { self.old.places ≤ self.new.places }
    {
        if let Some(flying) = self.places.remove(place) {
            drop_copy(&mut self.kept, flying.key);
        }
    }

    /// Adds a second copy like that at a place, behind all others. `NoMemory` where the allocation fails; then nothing
    /// changes.
    pub(crate) fn repeat(&mut self, place: usize) -> Result<(), NoMemory>
        requires { place < length self.old.copies }
        ensures ok { OnOk result (Doubles self.old.copies place self.new.copies) }
        ensures err { OnErr result (self.new.copies ≡ self.old.copies) }
    {
        self.places.reserve(1)?;
        if let Some(double) = self.places.get(place) {
            attach(&mut self.kept, &mut self.places, double);
        }
        Ok(())
    }

    /// Takes all copies on a link out of flight.
    pub(crate) fn cut(&mut self, link: usize)
        ensures { self.new.copies ≡ filter (λ c. not (is_on link c)) self.old.copies }
    {
        // speed: D-plant-counts
        if self.places.is_free(link) {
            return;
        }
        keep_off(&mut self.kept, &mut self.places, link);
    }
}
