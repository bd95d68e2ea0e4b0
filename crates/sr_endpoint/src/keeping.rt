//! The record of duplicates as octets: written, read into a new node, and taken over by a standby.

ghost use Rattle.std.specs.Prelude.{◌≡◌, Some, IfOk, IfErr};
ghost use Rattle.sr_dup_snapshots.specs.Snapshots.{IsSnapshot};
ghost use Rattle.sr_dup_table.specs.Widths.{numbers_in};
ghost use Rattle.sr_node.specs.Absorbing.{merge_fault_of};
ghost use Rattle.sr_node.specs.Images.{shown};
ghost use Rattle.sr_endpoint.specs.AlarmLogs.{no_alarms};
ghost use Rattle.sr_endpoint.specs.Counting.{no_traffic};
ghost use Rattle.sr_endpoint.specs.Endpoints.{new_state, state_by};
ghost use Rattle.sr_endpoint.specs.Snapshots.{JoinsSnapshot, RefusesSnapshot, TakesOver, noting};

use crate::{Endpoint, Setup};
use sr_dup_snapshots::Snapshots;
use sr_dup_table::{DupFault, DupTable, Width};
use sr_forwarding::Danp;
use sr_frame::{Mac, NoMemory};
use sr_node::{MergeFault, Mode, NodeOf};
use sr_slots::Keys;
use std::alloc::Global;

/// The address of a node that only keeps a table while it is joined to another's: no frame ever has it.
const NOBODY: Mac = Mac([0; 6]);

/// Why a table is not joined, in the words of tables.
fn dup_fault(fault: MergeFault) -> DupFault
    ensures { merge_fault_of result ≡ Some fault }
{
    match fault {
        MergeFault::OtherWidth => DupFault::OtherWidth,
        MergeFault::TableFull => DupFault::TableFull,
        MergeFault::Apart(src) => DupFault::Apart(src),
        MergeFault::NoMemory => DupFault::NoMemory,
    }
}

/// A node that has noted the sources of a table, and nothing else. It hears nobody, so that its keys don't matter.
fn with_table(alloc: Global, table: DupTable) -> Result<NodeOf<Danp>, NoMemory>
    ensures { IfOk result (λ n. shown n.core ≡ noting table.width table.sources) }
{
    NodeOf::resumed(alloc, Danp::new(NOBODY), Mode::H, table, Keys::FIXED)
}

impl Endpoint {
    /// What the node has noted of each source, as octets: version 1 where it remembers 1024 numbers of each, version 2 where it
    /// remembers 2048. NoMemory: an allocation failed.
    pub fn snapshot(&self) -> Result<Vec<u8>, NoMemory>
        ensures { IfOk result (λ octets. IsSnapshot (state_by self.now).core.width octets.items
            (state_by self.now).core.sources) }
    {
        let image = self.node.image()?;
        image.sources.snapshot(self.alloc)
    }

    /// How many numbers of each source the node remembers. NoMemory: an allocation failed.
    fn width(&self) -> Result<Width, NoMemory>
        ensures { IfOk result (λ width. numbers_in width ≡ (state_by self.now).core.width) }
    {
        let image = self.node.image()?;
        Ok(image.sources.width())
    }

    /// Takes over what a snapshot says, read at the node's width.
    fn absorb_at(&mut self, octets: &[u8], width: Width) -> Result<(), DupFault>
        requires { numbers_in width ≡ (state_by self.old).core.width }
        ensures takes { TakesOver (state_by self.old) octets.now result (state_by self.new) }
        ensures uncounted { self.new.counters ≡ self.old.counters }
        ensures unlogged { self.new.log ≡ self.old.log }
    {
        let table = match DupTable::read_snapshot(self.alloc, octets, width) {
            Ok(table) => table,
            Err(fault) => return Err(fault),
        };
        let other = with_table(self.alloc, table)?;
        match self.node.absorb(&other) {
            Ok(()) => Ok(()),
            Err(fault) => Err(dup_fault(fault)),
        }
    }

    /// Takes over what a snapshot of another node says, as a standby does: what both have noted is joined at the later of both
    /// times, which the node's becomes. The snapshot of a node of the other width is read at this node's. Sources that were silent
    /// for 400 ms by then are left out. All else stays.
    ///
    /// BadSnapshot: the octets are no snapshot. TableFull: the join has over 1024 sources. Apart: what both have noted of this source
    /// is 32768 numbers apart. NoMemory: an allocation failed. Then nothing changes.
    pub fn absorb(&mut self, octets: &[u8]) -> Result<(), DupFault>
        ensures takes { TakesOver (state_by self.old) octets.now result (state_by self.new) }
        ensures uncounted { self.new.counters ≡ self.old.counters }
        ensures unlogged { self.new.log ≡ self.old.log }
    {
        let width = self.width()?;
        self.absorb_at(octets, width)
    }

    /// A new node that goes on with what a snapshot says: its time is the greatest at which a source was last heard, and sources that
    /// were silent for 400 ms by then are left out. The snapshot of a node of the other width is read at the setup's. All else is as
    /// in a new node, whose tables have these keys.
    ///
    /// BadSnapshot: the octets are no snapshot. NoMemory: an allocation failed.
    pub fn resumed(
        alloc: Global,
        setup: &Setup,
        keys: Keys,
        octets: &[u8],
    ) -> Result<Endpoint, DupFault>
        ensures resumed { IfOk result (λ e.
            JoinsSnapshot (new_state setup.now) octets.now (state_by e)) }
        ensures refused { IfErr result (λ e. RefusesSnapshot (new_state setup.now) octets.now e) }
        ensures uncounted { IfOk result (λ e. (e.counters ≡ no_traffic) × (e.log ≡ no_alarms)) }
    {
        let mut endpoint = Endpoint::new(alloc, setup, keys)?;
        match endpoint.absorb_at(octets, setup.settings.width) {
            Ok(()) => Ok(endpoint),
            Err(fault) => Err(fault),
        }
    }
}
