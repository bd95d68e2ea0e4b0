//! When two tables are equal: in their entries in order, their alarms, and what the previous prune found late. Held places
//! don't count.
ghost use Rattle.std.specs.Prelude.{◌≡◌};
ghost use Rattle.sr_node_table.specs.Equality.{same_alarms, same_entries, same_entry};

use crate::alarm::Alarm;
use crate::node::Node;
use crate::table::NodeTable;
use circular_buffer::HeapCircularBuffer;
use sr_aged_slots::Aged;
use sr_slots::Iter;

// Whether two entries show the same.
fn same_entry(one: &Aged<Node>, other: &Aged<Node>) -> bool
    ensures { result ≡ same_entry one.now other.now }
{
    one.value == other.value && one.time == other.time
}

// Whether the entries that are left show the same, one by one.
fn same_entries(one: Iter<'_, Aged<Node>>, mut other: Iter<'_, Aged<Node>>) -> bool
    ensures { result ≡ same_entries one.entry other.entry }
{
    for (mac, entry) in one {
        let Some((second, heard)) = other.next() else {
            return false;
        };
        if mac != second || !same_entry(entry, heard) {
            return false;
        }
    }
    other.next().is_none()
}

// Whether two lists of alarms are one.
fn same_alarms(one: &HeapCircularBuffer<Alarm>, other: &HeapCircularBuffer<Alarm>) -> bool
    ensures { result ≡ same_alarms one.now.items other.now.items }
{
    let mut others = other.iter();
    for alarm in one.iter() {
        let Some(second) = others.next() else {
            return false;
        };
        if *alarm != *second {
            return false;
        }
    }
    others.next().is_none()
}

impl PartialEq for NodeTable {
    ghost use Rattle.std.specs.Ordering.{on};
    ghost use Rattle.std.specs.Cmp.{on_equiv, partial_equiv_from_equiv};
    ghost use Rattle.sr_node_table.specs.Equality.{same_table};
    ghost use Rattle.sr_node_table.specs.EqualityLemmas.{same_table-equiv};

    ghost eq = { on (λ t. t.table) same_table };

    ghost laws = { partial_equiv_from_equiv (on_equiv (λ t. t.table) same_table-equiv) };

    fn eq(&self, other: &NodeTable) -> bool {
        same_entries(self.entries(), other.entries())
            && same_alarms(self.kept_alarms(), other.kept_alarms())
            && self.late_ports().is_same(other.late_ports())
    }
}

impl Eq for NodeTable {
    ghost use Rattle.std.specs.Cmp.{on_equiv};
    ghost use Rattle.sr_node_table.specs.EqualityLemmas.{same_table-equiv};

    ghost laws = { on_equiv (λ t. t.table) same_table-equiv };
}
