//! What a node keeps changes as an event is taken. No change can fail, but that copies are put and what another node has noted is taken
//! over whole or not at all.

ghost use Rattle.std.specs.Prelude.{◌≡◌, ◌+◌, OnOk, IfErr, OnErr, IsSome, None, Some, true, length, unwrap_or};
ghost use Rattle.std.specs.Option.{ForSome};
ghost use Rattle.sr_dup_table.specs.Sources.{live_at};
ghost use Rattle.sr_forwarding.specs.Parcels.{ParcelImage};
ghost use Rattle.sr_frame.specs.declared.fields.Mac.{Mac as Address};
ghost use Rattle.sr_node_table.specs.Watching.{after_prune};
ghost use Rattle.sr_node.specs.Hearing.{is_network, HasRoomFor, IsReadyToo, IsReadyFor, nodes_heard, nodes_told};
ghost use Rattle.sr_node.specs.Lanes.{sources_after};
ghost use Rattle.sr_node.specs.Outboxes.{Outboxes, box_at, boxes_left, first_full, first_of};
ghost use Rattle.sr_node.specs.Copies.{put_at};
ghost use Rattle.sr_node.specs.Images.{shown, with_time, after, IsReady, IsIdle};
ghost use Rattle.sr_node.specs.Absorbing.{Absorbed, absorb_fault};
ghost use Rattle.sr_node.specs.Arriving.{wrong_lan_after};
ghost use Rattle.sr_node.specs.Plans.{HoldsNodes, IsOfNetwork, IsReserved, LetsPass, applied};

use crate::fault::merge_fault;
use crate::passing::Passing;
use crate::{Core, MergeFault, PerPort};
use sr_dup_table::DupTable;
use sr_forwarding::{Outlets, Parcel, ParcelView};
use sr_frame::{NoMemory, Port};

// The counts after a frame from this port.
// speed: D-node-inlined
#[inline(always)]
fn count_wrong_lan(counts: &mut PerPort<u64>, port: Port, parcel: &ParcelView<'_>)
    ensures { counts.new ≡ wrong_lan_after counts.old port parcel.now }
{
    if parcel.wrong_lan() {
        match port {
            Port::H => counts.h = counts.h.saturating_add(1),
            Port::A => counts.a = counts.a.saturating_add(1),
            Port::B => counts.b = counts.b.saturating_add(1),
            Port::C => counts.c = counts.c.saturating_add(1),
        }
    }
}

impl Core {
    // Notes a frame for which there is room.
    // speed: D-node-inlined
    #[inline(always)]
    fn note(&mut self, passing: &Passing<'_>)
        requires passes { LetsPass (shown self.old) passing.now }
        requires ready { IsReady self.old.table passing.now.arrival.header.now.src
            passing.now.arrival.header.now.seq }
        ensures shown { shown self.new ≡ record (shown self.old) {
          sources = sources_after self.old.table.width self.old.table.sources
              passing.now.arrival.inlet passing.now.arrival.header.now.src
              passing.now.arrival.header.now.seq passing.now.arrival.wanted
              passing.now.arrival.moment;
        } }
        ensures nodes { self.new.nodes ≡ self.old.nodes }
    {
        let arrival = &passing.arrival;
        let src = arrival.header.src;
        if let Some(seq) = arrival.header.seq {
            self.table
                .arrive_at(passing.hint, src, seq, arrival.lanes, arrival.moment)
                .unwrap();
        }
    }

    // Observes the source of a frame under a number, if it is observed.
    // speed: D-node-inlined
    #[inline(always)]
    fn observe_source(&mut self, passing: &Passing<'_>)
        requires network { IsSome passing.now.observations.number
            → is_network passing.now.arrival.inlet ≡ true }
        requires held { HasRoomFor self.old.nodes passing.now.arrival.header.now.src
            passing.now.observations.number passing.now.arrival.moment }
        ensures nodes { shown self.new ≡ record (shown self.old) {
          nodes = nodes_heard self.old.nodes.table passing.now.arrival.inlet
              passing.now.arrival.header.now.src passing.now.observations.number
              passing.now.arrival.moment;
        } }
        ensures table { self.new.table ≡ self.old.table }
        ensures ready { (mac : Address) → IsReadyToo self.old.nodes
            passing.now.arrival.header.now.src passing.now.observations.number mac
            passing.now.arrival.moment → IsReadyFor self.new.nodes mac passing.now.arrival.moment }
    {
        let arrival = &passing.arrival;
        let hint = passing.observations.source;
        if let Some(seq) = passing.observations.number {
            self.nodes
                .heard_at(hint, arrival.header.src, arrival.inlet, seq, arrival.moment)
                .unwrap();
        }
    }

    // Takes up what a frame announces, if it announces anything.
    // speed: D-node-inlined
    #[inline(always)]
    fn observe_announced(&mut self, passing: &Passing<'_>)
        requires network { IsSome passing.now.observations.announced
            → is_network passing.now.arrival.inlet ≡ true }
        requires ready { ForSome passing.now.observations.announced (λ said.
            IsReadyFor self.old.nodes said.mac passing.now.arrival.moment) }
        ensures nodes { shown self.new ≡ record (shown self.old) {
          nodes = nodes_told self.old.nodes.table passing.now.arrival.inlet
              passing.now.observations.announced passing.now.arrival.moment;
        } }
        ensures table { self.new.table ≡ self.old.table }
    {
        let arrival = &passing.arrival;
        let hint = passing.observations.node;
        if let Some(said) = passing.observations.announced {
            self.nodes
                .announce_at(hint, &said, arrival.inlet, arrival.moment)
                .unwrap();
        }
    }

    // Observes what a frame makes known, for which there is room.
    // speed: D-node-inlined
    #[inline(always)]
    fn observe(&mut self, passing: &Passing<'_>)
        requires network { IsOfNetwork passing.now.arrival.inlet passing.now.observations }
        requires nodes { HoldsNodes self.old.nodes passing.now }
        ensures nodes { shown self.new ≡ record (shown self.old) {
          nodes = nodes_told (nodes_heard self.old.nodes.table passing.now.arrival.inlet
              passing.now.arrival.header.now.src passing.now.observations.number
              passing.now.arrival.moment) passing.now.arrival.inlet
              passing.now.observations.announced passing.now.arrival.moment;
        } }
        ensures table { self.new.table ≡ self.old.table }
    {
        self.observe_source(passing);
        self.observe_announced(passing);
    }

    /// A copy of the parcel for each of these outlets, last in its queue, or, where an allocation failed, for none.
    // speed: D-node-inlined
    #[inline(always)]
    pub(crate) fn put(&mut self, outlets: Outlets, parcel: &ParcelView<'_>) -> Result<(), NoMemory>
        requires { first_full self.old.out outlets ≡ None }
        ensures ok { OnOk result
            (self.new ≡ record self.old { out = put_at self.old.out outlets parcel.now }) }
        ensures err { OnErr result (self.new ≡ self.old) }
    {
        self.out.put(self.alloc, outlets, parcel)
    }

    /// The copies go that were put last for these outlets.
    pub(crate) fn take_back(&mut self, outlets: Outlets)
        ensures { (before : Outboxes) (p : ParcelImage) → self.old.out ≡ put_at before outlets p
            → self.new ≡ record self.old { out = before } }
    {
        self.out.take_back(outlets);
    }

    /// The changes of a frame that passes as this parcel, whose copies are put.
    // speed: D-node-inlined
    #[inline(always)]
    pub(crate) fn apply_arrive(&mut self, passing: &Passing<'_>, parcel: &ParcelView<'_>)
        requires { IsReserved self.old passing.now }
        ensures shown { shown self.new ≡ applied (shown self.old) passing.now parcel.now }
        ensures idle { IsIdle self.new }
    {
        self.note(passing);
        self.observe(passing);
        count_wrong_lan(&mut self.wrong_lan, passing.arrival.inlet, parcel);
        self.next = passing.arrival.next;
        self.time = passing.arrival.moment;
        self.release();
    }

    /// The change of a frame that is the node's own: time passes.
    pub(crate) fn apply_own(&mut self, now: u64)
        ensures shown { shown self.new ≡ with_time (shown self.old) now }
        ensures held { self.new.table ≡ self.old.table }
        ensures nodes { self.new.nodes ≡ self.old.nodes }
    {
        self.time = now;
    }

    /// The changes of a frame of the node that went out under the next number.
    pub(crate) fn apply_send(&mut self, now: u64)
        ensures shown { shown self.new ≡ record (shown self.old) {
          time = now;
          next = after self.old.next;
        } }
        ensures held { self.new.table ≡ self.old.table }
        ensures nodes { self.new.nodes ≡ self.old.nodes }
    {
        self.next = self.next.next();
        self.time = now;
    }

    /// The changes of a life check that went out: those of a frame of the node, and it is counted.
    pub(crate) fn apply_life(&mut self, now: u64)
        ensures shown { shown self.new ≡ record (shown self.old) {
          time = now;
          next = after self.old.next;
          next_life = after self.old.next_life;
          life_at = Some now;
        } }
        ensures held { self.new.table ≡ self.old.table }
        ensures nodes { self.new.nodes ≡ self.old.nodes }
    {
        self.apply_send(now);
        self.next_life = self.next_life.next();
        self.life_at = Some(now);
    }

    /// The changes of a tick: the forgotten sources and nodes go, and alarms are raised. Answers how many of either went.
    pub(crate) fn apply_tick(&mut self, now: u64) -> (usize, usize)
        ensures shown { shown self.new ≡ record (shown self.old) {
          time = now;
          sources = live_at now self.old.table.sources;
          nodes = after_prune self.old.nodes.table now;
        } }
        ensures sources { result.0 + length (live_at now self.old.table.sources)
            ≡ length self.old.table.sources }
        ensures nodes { result.1 + length (after_prune self.old.nodes.table now).entries
            ≡ length self.old.nodes.table.entries }
        ensures idle { IsIdle self.old → IsIdle self.new }
    {
        self.time = now;
        (self.table.age(now), self.nodes.prune(now))
    }

    /// The first parcel that waits at a port, taken out.
    pub(crate) fn take(&mut self, port: Port) -> Option<Parcel>
        ensures result { result ≡ first_of (box_at self.old.out port) }
        ensures shown { shown self.new
            ≡ record (shown self.old) { out = boxes_left self.old.out port } }
        ensures held { self.new.table ≡ self.old.table }
        ensures nodes { self.new.nodes ≡ self.old.nodes }
    {
        self.out.take(port)
    }

    /// The first parcel that waits at a port goes, and the next copy there is made in its memory.
    // speed: D-node-memory-again
    #[inline(always)]
    pub(crate) fn drop_first(&mut self, port: Port)
        ensures shown { shown self.new
            ≡ record (shown self.old) { out = boxes_left self.old.out port } }
        ensures held { self.new.table ≡ self.old.table }
        ensures nodes { self.new.nodes ≡ self.old.nodes }
    {
        self.out.drop_first(port);
    }

    /// Goes on with what this table has noted, at this time. The places held in it are given up.
    pub(crate) fn resume(&mut self, mut table: DupTable, time: u64)
        ensures shown { shown self.new ≡ record (shown self.old)
            { width = table.width; time = time; sources = table.sources } }
        ensures idle { IsIdle self.old → IsIdle self.new }
    {
        table.release();
        self.time = time;
        self.table = table;
    }

    /// Joins what the other has noted, at the later of both times. All else stays.
    pub(crate) fn absorb(&mut self, other: &Core) -> Result<(), MergeFault>
        ensures joined { OnOk result
            (Absorbed (shown self.old) (shown other.now) (shown self.new)) }
        ensures joinable { OnOk result (absorb_fault (shown self.old) (shown other.now) ≡ None) }
        ensures refused { IfErr result (λ e.
            e ≡ unwrap_or (absorb_fault (shown self.old) (shown other.now)) MergeFault.NoMemory) }
        ensures same { OnErr result (self.new ≡ self.old) }
        ensures idle { IsIdle self.old → IsIdle self.new }
    {
        let time = self.time.max(other.time);
        match self.table.merge(&other.table, time) {
            Ok(()) => {
                self.time = time;
                Ok(())
            }
            Err(fault) => Err(merge_fault(fault)),
        }
    }
}
