//! What is between the nodes of a plant.

ghost use Rattle.std.specs.Prelude.{◌≡◌, ◌≤◌, ◌<◌, ◌*◌, ◌++◌, [], true, false, not, length, filter, remove, replicate, slice_set, slice_get, option_to_list, option_map, IfOk, OnOk, OnErr};
ghost use Rattle.sr_plant.specs.Limits.{most_members};
ghost use Rattle.sr_plant.specs.Copies.{is_on, Doubles};
ghost use Rattle.sr_plant.specs.Puts.{all_put, those_passing};
ghost use Rattle.sr_plant.specs.Carrying.{OneComesAs};
ghost use Rattle.sr_plant.specs.Topologies.{IsJoinedAs};

use crate::Topology;
use crate::arriving::Arriving;
use crate::flight::Flight;
use crate::node_step::Given;
use crate::outlet::Outlet;
use sr_frame::{NoMemory, Port};
use std::alloc::Global;
use std::marker::Model;

/// What is between the nodes of a plant: the copies in flight, the cut links, the clock.
#[derive(Drop)]
pub struct Traffic {
    flight: Flight,
    // For each link, whether it is cut.
    cut: Vec<bool>,
    // The time in milliseconds.
    clock: u64,
    alloc: Global,
}

impl Model for Traffic {
    ghost use Rattle.sr_plant.specs.Plants.{TrafficValue};

    ghost Value = { TrafficValue };

    ghost view = { λ t. record { flight = t.flight; cut = t.cut.items; clock = t.clock } };
}

impl Traffic {
    /// Nothing in flight over so many links, of which none is cut. `NoMemory` where an allocation fails.
    pub(crate) fn new(alloc: Global, links: usize) -> Result<Traffic, NoMemory>
        ensures flight { IfOk result (λ t. t.flight.copies ≡ []) }
        ensures cut { IfOk result (λ t. t.cut ≡ replicate links false) }
        ensures clock { IfOk result (λ t. t.clock ≡ 0) }
    {
        let cut = Vec::from_elem(alloc, false, links)?;
        let flight = Flight::new(alloc, links)?;
        Ok(Traffic {
            flight,
            cut,
            clock: 0,
            alloc,
        })
    }

    /// How many copies are in flight.
    pub(crate) fn len(&self) -> usize
        ensures { result ≡ length self.now.flight.copies }
    {
        self.flight.len()
    }

    /// How many links there are.
    pub(crate) fn links(&self) -> usize
        ensures { result ≡ length self.now.cut }
    {
        self.cut.len()
    }

    /// The time in milliseconds.
    pub(crate) fn clock(&self) -> u64
        ensures { result ≡ self.now.clock }
    {
        self.clock
    }

    /// Sets the clock to this time.
    pub(crate) fn set_clock(&mut self, now: u64)
        ensures { self.new ≡ record self.old { clock = now } }
    {
        self.clock = now;
    }

    /// Where memory comes from.
    pub(crate) fn alloc(&self) -> Global {
        self.alloc
    }

    /// Makes room for what a node puts out at its ports, to so many nodes. `NoMemory` where an allocation fails. Nothing
    /// that shows changes.
    pub(crate) fn reserve(&mut self, nodes: usize) -> Result<(), NoMemory>
        requires { nodes ≤ most_members }
        ensures copies { self.new.flight.copies ≡ self.old.flight.copies }
        ensures rest { (self.new.cut ≡ self.old.cut) × (self.new.clock ≡ self.old.clock) }
        ensures parcels { OnOk result (3 ≤ self.new.flight.parcels) }
        ensures places { OnOk result (3 * nodes ≤ self.new.flight.places) }
    {
        self.flight.reserve(3, 3 * nodes)
    }

    /// Puts in flight what a node puts out at its ports, behind all other copies. What is put on a link that is cut is
    /// lost. There is room for all of it.
    pub(crate) fn put(&mut self, topology: Topology, nodes: usize, node: usize, given: Given)
        requires small { nodes ≤ most_members }
        requires node { node < nodes }
        requires joined { IsJoinedAs topology nodes }
        requires parcels { 3 ≤ self.old.flight.parcels }
        requires places { 3 * nodes ≤ self.old.flight.places }
        ensures copies { self.new.flight.copies ≡ ((self.old.flight.copies
            ++ those_passing self.old.cut
            (all_put topology nodes node Port.A (option_to_list given.a)))
            ++ those_passing self.old.cut
            (all_put topology nodes node Port.B (option_to_list given.b)))
            ++ those_passing self.old.cut
            (all_put topology nodes node Port.C (option_to_list given.c)) }
        ensures rest { (self.new.cut ≡ self.old.cut) × (self.new.clock ≡ self.old.clock) }
    {
        let outlet = Outlet {
            topology,
            nodes,
            node,
            port: Port::A,
        };
        self.flight.put(outlet, given.a, &self.cut);
        let outlet = Outlet {
            port: Port::B,
            ..outlet
        };
        self.flight.put(outlet, given.b, &self.cut);
        let outlet = Outlet {
            port: Port::C,
            ..outlet
        };
        self.flight.put(outlet, given.c, &self.cut);
    }

    /// The copy at a place as it comes to its receiver. `None` where its outlet has no octets for it. `NoMemory` where an
    /// allocation fails.
    pub(crate) fn arriving(
        &self,
        topology: Topology,
        place: usize,
    ) -> Result<Option<Arriving>, NoMemory>
        requires place { place < length self.now.flight.copies }
        ensures { IfOk result (λ a. OneComesAs topology self.now.flight.copies place a) }
    {
        self.flight.arriving(self.alloc, topology, place)
    }

    /// The node to which the copy at a place leads. `None` where there is no copy.
    pub(crate) fn receiver(&self, place: usize) -> Option<usize>
        ensures { result
            ≡ option_map (λ c. c.hop.to.node) (slice_get self.now.flight.copies place) }
    {
        self.flight.receiver(place)
    }

    /// Takes the copy at a place out of flight. The room for it stays.
    pub(crate) fn remove(&mut self, place: usize)
        requires { place < length self.old.flight.copies }
        ensures copies { self.new.flight.copies ≡ remove self.old.flight.copies place }
        ensures parcels { self.old.flight.parcels ≤ self.new.flight.parcels }
        ensures places { self.old.flight.places ≤ self.new.flight.places }
        ensures rest { (self.new.cut ≡ self.old.cut) × (self.new.clock ≡ self.old.clock) }
    {
        self.flight.remove(place);
    }

    /// Adds a second copy like that at a place, behind all others. `NoMemory` where the allocation fails; then nothing that
    /// shows changes.
    pub(crate) fn repeat(&mut self, place: usize) -> Result<(), NoMemory>
        requires { place < length self.old.flight.copies }
        ensures ok { OnOk result (Doubles self.old.flight.copies place self.new.flight.copies) }
        ensures err { OnErr result (self.new.flight.copies ≡ self.old.flight.copies) }
        ensures rest { (self.new.cut ≡ self.old.cut) × (self.new.clock ≡ self.old.clock) }
    {
        self.flight.repeat(place)
    }

    /// Cuts a link. The copies on it are lost.
    pub(crate) fn cut(&mut self, link: usize)
        requires { link < length self.old.cut }
        ensures copies { self.new.flight.copies
            ≡ filter (λ c. not (is_on link c)) self.old.flight.copies }
        ensures cut { self.new.cut ≡ slice_set self.old.cut link true }
        ensures clock { self.new.clock ≡ self.old.clock }
    {
        self.flight.cut(link);
        self.cut[link] = true;
    }

    /// Mends a link.
    pub(crate) fn mend(&mut self, link: usize)
        requires { link < length self.old.cut }
        ensures copies { self.new.flight.copies ≡ self.old.flight.copies }
        ensures cut { self.new.cut ≡ slice_set self.old.cut link false }
        ensures clock { self.new.clock ≡ self.old.clock }
    {
        self.cut[link] = false;
    }
}
