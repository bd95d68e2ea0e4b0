//! The ports that a prune found late.
ghost use Rattle.std.specs.Prelude.{◌≡◌, ◌+◌, ◌<◌, ◌≤◌, ◌++◌, ◌∷◌, [], None, Some, true, length, slice_get, IfOk};
ghost use Rattle.std.specs.Map.{lookup};
ghost use Rattle.sr_frame.specs.Addresses.{mac_eq};
ghost use Rattle.sr_node_table.specs.Equality.{same_late};

use indexmap::IndexMap;
use sr_frame::{Mac, NoMemory, Port};
use sr_slots::Keys;
use std::alloc::Global;
use std::marker::Model;

/// Ports by address, in the order in which they were found, with room for more.
#[derive(Drop)]
pub struct LatePorts {
    map: IndexMap<Mac, Port, Keys>,
}

impl Model for LatePorts {
    ghost use Rattle.indexmap.specs.IndexMap.{spare};
    ghost use Rattle.sr_node_table.specs.Late.{Late};

    ghost Value = { Late };

    ghost view = { λ l. record { ports = l.map.entries; room = spare l.map } };
}

impl LatePorts {
    /// No port, and room for so many.
    pub fn with_room(alloc: Global, keys: Keys, room: usize) -> Result<LatePorts, NoMemory>
        ensures ports { IfOk result (λ late. late.ports ≡ []) }
        ensures room { IfOk result (λ late. room ≤ late.room) }
    {
        Ok(LatePorts {
            map: IndexMap::with_capacity_and_hasher(alloc, room, keys)?,
        })
    }

    /// A copy of these ports in their order, in a map of its own under the same keys, with room for so many in all.
    /// NoMemory: an allocation failed.
    pub fn try_clone(&self, alloc: Global, room: usize) -> Result<LatePorts, NoMemory>
        ensures ports { IfOk result (λ own. own.ports ≡ self.now.ports) }
        ensures room { IfOk result (λ own. room ≤ length own.ports + own.room) }
    {
        let mut own = LatePorts::with_room(alloc, *self.map.hasher(), room.max(self.map.len()))?;
        for (mac, port) in self.map.iter() {
            own.add(*mac, *port);
        }
        Ok(own)
    }

    /// Whether these are the same ports in the same order.
    pub fn is_same(&self, other: &LatePorts) -> bool
        ensures { result ≡ same_late self.now.ports other.now.ports }
    {
        self.map.as_slice() == other.map.as_slice()
    }

    /// The port of a node that was found late, and the index at which the next node may stand. One that is late now at this
    /// port is looked for first at an index: where the same ports are late in the same order, no address is looked up.
    // speed: D-nodes-late-order
    pub fn port_near(&self, index: usize, mac: Mac, late: Port) -> (Option<Port>, usize)
        ensures { result.0 ≡ lookup (mac_eq mac) self.now.ports }
    {
        if self.is_at(index, mac, late) {
            return (Some(late), index.saturating_add(1));
        }
        match self.map.get_full(&mac) {
            Some((found, _mac, port)) => (Some(*port), found.saturating_add(1)),
            None => (None, index),
        }
    }

    /// How many there are.
    pub fn len(&self) -> usize
        ensures { result ≡ length self.now.ports }
    {
        self.map.len()
    }

    /// Whether this port of this node was found as the one at this index.
    pub fn is_at(&self, index: usize, mac: Mac, port: Port) -> bool
        ensures there { result ≡ true → slice_get self.now.ports index ≡ Some (mac, port) }
        ensures port { result ≡ true → lookup (mac_eq mac) self.now.ports ≡ Some port }
        ensures within { result ≡ true → index < length self.now.ports }
    {
        match self.map.get_index(index) {
            Some((stored, found)) => *stored == mac && *found == port,
            None => false,
        }
    }

    /// Adds the port of a node that has none, where there is room.
    pub fn add(&mut self, mac: Mac, port: Port)
        requires absent { lookup (mac_eq mac) self.old.ports ≡ None }
        requires room { 0 < self.old.room }
        ensures ports { self.new.ports ≡ self.old.ports ++ (mac, port) ∷ [] }
        ensures room { length self.old.ports + self.old.room
            ≤ length self.new.ports + self.new.room }
    {
        let _old = self.map.insert(mac, port);
    }

    /// Takes all out, and keeps their room.
    pub fn clear(&mut self)
        ensures ports { self.new.ports ≡ [] }
        ensures room { length self.old.ports + self.old.room ≤ self.new.room }
    {
        self.map.clear();
    }
}
