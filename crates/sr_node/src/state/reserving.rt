//! What a node keeps grows before an event is taken. Nothing of it shows, and where an allocation fails the rest is given up.

ghost use Rattle.std.specs.Prelude.{◌≡◌, OnOk, OnErr, IsOk, None, true};
ghost use Rattle.sr_slots.specs.Places.{IsFound};
ghost use Rattle.sr_node.specs.Hearing.{HasRoomFor, HasRoomToo, IsFullFor};
ghost use Rattle.sr_node.specs.Images.{shown, IsReady, IsIdle};
ghost use Rattle.sr_node.specs.Plans.{HoldsNodes, LetsPass};

use crate::Core;
use crate::passing::Passing;
use sr_frame::{Mac, NoMemory};
use sr_slots::Hint;

impl Core {
    /// Holds places for the note of a frame that passes and for what it makes known. Nothing that shows changes.
    // speed: D-node-inlined
    #[inline(always)]
    pub(crate) fn reserve_places(&mut self, passing: &Passing<'_>) -> Result<(), NoMemory>
        requires { LetsPass (shown self.old) passing.now }
        ensures same { shown self.new ≡ shown self.old }
        ensures ready { OnOk result (IsReady self.new.table passing.now.arrival.header.now.src
            passing.now.arrival.header.now.seq) }
        ensures nodes { OnOk result (HoldsNodes self.new.nodes passing.now) }
        ensures err { OnErr result (IsIdle self.old → IsIdle self.new) }

        // What is neither noted nor observed takes no memory.
        ensures free { passing.now.arrival.header.now.seq ≡ None
            → passing.now.observations.number ≡ None → passing.now.observations.announced ≡ None
            → (IsOk result) × (self.new ≡ self.old) }
    {
        let header = passing.arrival.header;
        if header.seq.is_some() && passing.hint.is_none() {
            self.table.reserve(header.src)?;
        }
        if let Err(fault) = self.reserve_nodes(passing) {
            self.release();
            return Err(fault);
        }
        Ok(())
    }

    // Holds a place for the source of a frame, where it is observed and a full table would not refuse it.
    // speed: D-node-inlined
    #[inline(always)]
    fn reserve_source(&mut self, passing: &Passing<'_>) -> Result<(), NoMemory>
        requires { IsFound passing.now.observations.source self.old.nodes.table.entries
            passing.now.arrival.header.now.src }
        ensures same { shown self.new ≡ shown self.old }
        ensures table { self.new.table ≡ self.old.table }
        ensures number { OnOk result (HasRoomFor self.new.nodes passing.now.arrival.header.now.src
            passing.now.observations.number passing.now.arrival.moment) }
        ensures free { passing.now.observations.number ≡ None
            → (IsOk result) × (self.new ≡ self.old) }
    {
        let src = passing.arrival.header.src;
        if passing.observations.takes_no_place()
            || self.nodes.is_full_for(src, passing.arrival.moment)
        {
            return Ok(());
        }
        self.nodes.reserve(src, None)
    }

    // Whether a node was not found, and a full table has no room for it.
    fn has_no_room(&mut self, found: Option<Hint>, mac: Mac, moment: u64) -> bool
        ensures full { result ≡ true → IsFullFor self.old.nodes mac moment }
        ensures same { self.new ≡ self.old }
    {
        found.is_none() && self.nodes.is_full_for(mac, moment)
    }

    // Holds a place for the node of which a frame speaks, beside that for its source, where a full table would not refuse it.
    // speed: D-node-inlined
    #[inline(always)]
    fn reserve_announced(&mut self, passing: &Passing<'_>) -> Result<(), NoMemory>
        requires source { IsFound passing.now.observations.source self.old.nodes.table.entries
            passing.now.arrival.header.now.src }
        requires number { HasRoomFor self.old.nodes passing.now.arrival.header.now.src
            passing.now.observations.number passing.now.arrival.moment }
        ensures same { shown self.new ≡ shown self.old }
        ensures table { self.new.table ≡ self.old.table }
        ensures number { OnOk result (HasRoomFor self.new.nodes passing.now.arrival.header.now.src
            passing.now.observations.number passing.now.arrival.moment) }
        ensures announced { OnOk result (HasRoomToo self.new.nodes
            passing.now.arrival.header.now.src passing.now.observations.number
            passing.now.observations.announced passing.now.arrival.moment) }
        ensures free { passing.now.observations.announced ≡ None
            → (IsOk result) × (self.new ≡ self.old) }
    {
        let observations = &passing.observations;
        let Some(said) = observations.announced else {
            return Ok(());
        };
        if self.has_no_room(observations.node, said.mac, passing.arrival.moment) {
            return Ok(());
        }
        // A new node may push a forgotten one out of a full table: then an entry alone would not do.
        let hint = if observations.takes_no_place() {
            observations.node
        } else {
            None
        };
        let _ready = self.nodes.reserve_at(hint, said.mac)?;
        Ok(())
    }

    // Holds places for what a frame makes known. Nothing that shows changes.
    // speed: D-node-inlined
    #[inline(always)]
    fn reserve_nodes(&mut self, passing: &Passing<'_>) -> Result<(), NoMemory>
        requires { IsFound passing.now.observations.source self.old.nodes.table.entries
            passing.now.arrival.header.now.src }
        ensures same { shown self.new ≡ shown self.old }
        ensures table { self.new.table ≡ self.old.table }
        ensures nodes { OnOk result (HoldsNodes self.new.nodes passing.now) }
        ensures free { passing.now.observations.number ≡ None
            → passing.now.observations.announced ≡ None → (IsOk result) × (self.new ≡ self.old) }
    {
        self.reserve_source(passing)?;
        self.reserve_announced(passing)
    }

    /// Gives up the places. Nothing that shows changes.
    // speed: D-node-inlined
    #[inline(always)]
    pub(crate) fn release(&mut self)
        ensures same { shown self.new ≡ shown self.old }
        ensures idle { IsIdle self.new }
    {
        self.table.release();
        self.nodes.release();
    }
}
