//! The table.

mod hearing;

ghost use Rattle.std.specs.Prelude.{◌≡◌, ◌↔◌, ◌&&◌, ◌+◌, ◌≤◌, [], ◌++◌, true, length, is_some, IsOk, OnOk, OnErr, IfOk, IfSome, unwrap_or};
ghost use Rattle.std.specs.Option.{option_copied};
ghost use Rattle.std.specs.List.{cons_option};
ghost use Rattle.std.specs.Map.{lookup};
ghost use Rattle.sr_frame.specs.Addresses.{mac_eq};
ghost use Rattle.sr_slots.specs.Places.{KeepsHeld, KeepsHeldBut};
ghost use Rattle.sr_node_table.specs.Limits.{most_nodes};
ghost use Rattle.sr_node_table.specs.Nodes.{live_others, is_held, empty_table};
ghost use Rattle.sr_node_table.specs.Watching.{after_prune};
ghost use Rattle.sr_node_table.specs.Stating.{live_entry, has_at, status_at, listed_at, live_mac};

use crate::alarm::{Alarm, copy_of};
use crate::late::LatePorts;
use crate::node::{Node, is_live};
use crate::status::{Status, status_of};
use crate::watching::{finds_same, watch};
use circular_buffer::HeapCircularBuffer;
use sr_aged_slots::{Aged, AgedSlots};
use sr_frame::{Mac, NoMemory};
use sr_slots::{Hint, Iter, Keys};
use std::alloc::{AllocError, Global};
use std::marker::Model;
use std::mem;

/// How long a silent node is remembered, in milliseconds (NodeForgetTime, IEC 62439-3).
pub const NODE_FORGET_TIME: u64 = 60000;

/// How many nodes are kept (choice of this project).
pub const MAX_NODES: usize = 1024;

/// How many alarms are kept: the next one overwrites the oldest (choice of this project).
pub const MAX_ALARMS: usize = 64;

/// Why the next hearing of an address takes no memory.
#[derive(Clone, Copy, Debug, PartialEq, Eq)]
pub enum Ready {
    /// It has an entry, forgotten or not.
    Known,
    /// A place is held for it.
    Held,
}

/// The nodes that were heard, in the order of first hearing, and the latest alarms. Times are in milliseconds. A node that was
/// silent for `NODE_FORGET_TIME` is forgotten: it counts as absent, and stands in the table until it is heard again, until
/// `prune`, or until a new node meets a full table.
#[derive(Drop)]
pub struct NodeTable {
    nodes: AgedSlots<Node, NODE_FORGET_TIME, MAX_NODES>,
    alarms: HeapCircularBuffer<Alarm>,
    // What the previous prune found late.
    late: LatePorts,
    // Empty: room for what the next one finds.
    spare: LatePorts,
    alloc: Global,
    keys: Keys,
}

impl Model for NodeTable {
    ghost use Rattle.sr_node_table.specs.Nodes.{Nodes};

    ghost Value = { Nodes };

    ghost use Rattle.sr_node_table.specs.Shown.{shown, IsReady};

    ghost view = { shown };

    ghost invariant = { IsReady };
}

// Adds the address of a node that is not forgotten.
fn push_live(macs: &mut Vec<Mac>, mac: Mac, entry: &Aged<Node>, now: u64) -> Result<(), NoMemory>
    ensures { OnOk result (macs.new.items ≡ macs.old.items
        ++ cons_option (live_mac now (mac, entry.now)) []) }
{
    if is_live(entry, now) {
        if let Err(e) = macs.push(mac) {
            return Err(AllocError::from(e).into());
        }
    }
    Ok(())
}

impl NodeTable {
    /// A table of no node under fixed keys. NoMemory: there is none for the alarms, or for what a prune finds.
    pub fn new(alloc: Global) -> Result<NodeTable, NoMemory>
        ensures table { IfOk result (λ t. t.table ≡ empty_table) }
        ensures held { IfOk result (λ t. t.held ≡ []) }
    {
        NodeTable::with_keys(alloc, Keys::FIXED)
    }

    /// A table of no node whose places depend on these keys. NoMemory: as `new`.
    pub fn with_keys(alloc: Global, keys: Keys) -> Result<NodeTable, NoMemory>
        ensures table { IfOk result (λ t. t.table ≡ empty_table) }
        ensures held { IfOk result (λ t. t.held ≡ []) }
    {
        Ok(NodeTable {
            nodes: AgedSlots::with_keys(alloc, keys),
            alarms: HeapCircularBuffer::with_capacity(alloc, MAX_ALARMS)?,
            late: LatePorts::with_room(alloc, keys, MAX_NODES)?,
            spare: LatePorts::with_room(alloc, keys, MAX_NODES)?,
            alloc,
            keys,
        })
    }

    /// A table of its own with the same nodes in the same order, the same alarms, and the same ports found late, under the same
    /// keys. It holds no place. NoMemory: an allocation failed.
    pub fn try_clone(&self) -> Result<NodeTable, NoMemory>
        ensures table { IfOk result (λ own. own.table ≡ self.now.table) }
        ensures held { IfOk result (λ own. own.held ≡ []) }
    {
        Ok(NodeTable {
            nodes: self.nodes.try_clone()?,
            alarms: copy_of(&self.alarms, self.alloc)?,
            late: self.late.try_clone(self.alloc, MAX_NODES)?,
            spare: LatePorts::with_room(self.alloc, self.keys, MAX_NODES)?,
            alloc: self.alloc,
            keys: self.keys,
        })
    }

    // The entries in order.
    pub(crate) fn entries(&self) -> Iter<'_, Aged<Node>>
        ensures { result ≡ self.now.table.entries }
    {
        self.nodes.iter()
    }

    // The alarms that are kept.
    pub(crate) fn kept_alarms(&self) -> &HeapCircularBuffer<Alarm>
        ensures { result.now.items ≡ self.now.table.alarms }
    {
        &self.alarms
    }

    // What the previous prune found late.
    pub(crate) fn late_ports(&self) -> &LatePorts
        ensures { result.now.ports ≡ self.now.table.late }
    {
        &self.late
    }

    // What the table has of a node that is not forgotten.
    fn live(&self, mac: Mac, now: u64) -> Option<&Aged<Node>>
        ensures { option_copied result ≡ live_entry self.now.table mac now }
    {
        let entry = self.nodes.get(mac)?;
        if is_live(entry, now) {
            Some(entry)
        } else {
            None
        }
    }

    /// Whether a node was heard less than 60000 ms ago.
    pub fn has(&self, mac: Mac, now: u64) -> bool
        ensures { result ≡ has_at self.now.table mac now }
    {
        self.live(mac, now).is_some()
    }

    /// What is told of a node that was heard less than 60000 ms ago.
    pub fn status(&self, mac: Mac, now: u64) -> Option<Status>
        ensures { result ≡ status_at self.now.table mac now }
    {
        let entry = self.live(mac, now)?;
        Some(status_of(mac, &entry.value, now))
    }

    /// The nodes that were heard less than 60000 ms ago, in the order of first hearing.
    pub fn list(&self, now: u64) -> Result<Vec<Mac>, NoMemory>
        ensures { IfOk result (λ macs. macs.items ≡ listed_at self.now.table now) }
    {
        let mut macs = Vec::new(self.alloc);
        for (mac, entry) in self.nodes.iter() {
            push_live(&mut macs, mac, entry, now)?;
        }
        Ok(macs)
    }

    /// The alarms that are kept, the oldest first.
    pub fn alarms(&self) -> Result<Vec<Alarm>, NoMemory>
        ensures { IfOk result (λ alarms. alarms.items ≡ self.now.table.alarms) }
    {
        Ok(self.alarms.to_vec(self.alloc)?)
    }

    /// Holds the place of an address, or the places of two, so that their next hearing takes no memory. Nothing else sees them.
    /// NoMemory: an allocation failed, and nothing changes.
    pub fn reserve(&mut self, mac: Mac, other: Option<Mac>) -> Result<(), NoMemory>
        ensures table { self.new.table ≡ self.old.table }
        ensures held { OnOk result (is_held self.new mac ≡ true) }
        ensures both { OnOk result (IfSome other (λ second. is_held self.new second ≡ true)) }
        ensures others { OnOk result
            (KeepsHeldBut self.old.held self.new.held mac (unwrap_or other mac)) }
        ensures again { is_held self.old mac ≡ true
            → IfSome other (λ second. is_held self.old second ≡ true) → IsOk result }
        ensures err { OnErr result (self.new ≡ self.old) }
    {
        match other {
            Some(other) => self.nodes.hold_both(mac, other),
            None => self.nodes.hold(mac),
        }
    }

    /// Where the entry of a node is, forgotten or not, for the calls that look there first. It is looked for first where a hint says,
    /// which may be that of another table: where both meet new addresses in one order, it is the same.
    // speed: D-node-one-look
    #[inline(always)]
    pub fn find_at(&self, hint: Option<Hint>, mac: Mac) -> Option<Hint>
        ensures { is_some result ≡ is_some (lookup (mac_eq mac) self.now.table.entries) }
    {
        let (hint, _entry) = self.nodes.find_at(hint, mac)?;
        Some(hint)
    }

    // Whether there is a hint, and the node has an entry, forgotten or not.
    fn is_at(&self, hint: Option<Hint>, mac: Mac) -> bool
        ensures { result ≡ (is_some hint && is_some (lookup (mac_eq mac) self.now.table.entries)) }
    {
        hint.is_some() && self.nodes.get_at(hint, mac).is_some()
    }

    /// Sees to it that the next hearing of an address takes no memory: one that has an entry needs none, where a hint tells of
    /// it; for any other a place is held. NoMemory: an allocation failed, and nothing changes.
    // speed: D-node-one-look
    #[inline(always)]
    pub fn reserve_at(&mut self, hint: Option<Hint>, mac: Mac) -> Result<Ready, NoMemory>
        ensures table { self.new.table ≡ self.old.table }
        ensures known { (result ≡ Ok Ready.Known)
            ↔ ((is_some hint && is_some (lookup (mac_eq mac) self.old.table.entries)) ≡ true) }
        ensures same { result ≡ Ok Ready.Known → self.new ≡ self.old }
        ensures held { result ≡ Ok Ready.Held → is_held self.new mac ≡ true }
        ensures others { OnOk result (KeepsHeld self.old.held self.new.held mac) }
        ensures again { is_held self.old mac ≡ true → IsOk result }
        ensures err { OnErr result (self.new ≡ self.old) }
    {
        if self.is_at(hint, mac) {
            return Ok(Ready::Known);
        }
        self.nodes.hold(mac)?;
        Ok(Ready::Held)
    }

    /// Whether a hearing of an address at this time would be answered `Full`: 1024 other nodes are live. Nothing that shows changes.
    pub fn is_full_for(&mut self, mac: Mac, now: u64) -> bool
        ensures full { (result ≡ true)
            ↔ (length (live_others mac now self.old.table.entries) ≡ most_nodes) }
        ensures few { length self.old.table.entries ≤ most_nodes }
        ensures same { self.new ≡ self.old }
    {
        // The length says that there are no more than 1024.
        let _nodes = self.nodes.len();
        self.nodes.is_full_now(now) && self.nodes.get(mac).is_none()
    }

    /// Gives up all held places.
    pub fn release(&mut self)
        ensures table { self.new.table ≡ self.old.table }
        ensures held { self.new.held ≡ [] }
    {
        self.nodes.release();
    }

    /// Takes the nodes out that were silent for 60000 ms or more, and answers how many. Raises the alarms, entry by entry, and
    /// remembers which ports are late.
    pub fn prune(&mut self, now: u64) -> usize
        ensures table { self.new.table ≡ after_prune self.old.table now }
        ensures held { self.new.held ≡ self.old.held }
        ensures count { result + length self.new.table.entries ≡ length self.old.table.entries }
    {
        self.watch(now);
        self.nodes.age(now)
    }

    // Raises the alarms of a prune, and remembers which ports are late.
    fn watch(&mut self, now: u64)
        ensures table { self.new.table
            ≡ record (after_prune self.old.table now) { entries = self.old.table.entries } }
        ensures held { self.new.held ≡ self.old.held }
    {
        let _nodes = self.nodes.len();
        let _room = self.alarms.capacity();
        if finds_same(&self.nodes, &self.late, now) {
            return;
        }
        watch(
            &self.nodes,
            &self.late,
            &mut self.spare,
            &mut self.alarms,
            now,
        );
        mem::swap(&mut self.late, &mut self.spare);
        self.spare.clear();
    }
}
