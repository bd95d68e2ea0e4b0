//! A node that goes on with what a table has noted.

ghost use Rattle.std.specs.Prelude.{◌≡◌, ◌⊎◌, IfOk};
ghost use Rattle.sr_node.specs.Images.{IsIdle};
ghost use Rattle.sr_node.specs.States.{state_of};
ghost use Rattle.sr_node.specs.Resuming.{last_heard, resumed};

use crate::{Mode, NodeOf, Settings};
use sr_dup_table::{DupTable, Parts, TableOf};
use sr_forwarding::Role;
use sr_frame::NoMemory;
use sr_slots::Keys;
use std::alloc::Global;

// The greatest time at which a source of a table of one width was last heard, or 0.
fn latest_in<const N: usize>(table: &TableOf<N>) -> u64
    requires { (N ≡ 16) ⊎ (N ≡ 32) }
    ensures { result ≡ last_heard table.now.sources }
{
    let mut latest = 0;
    for (_, entry) in table.entries() {
        latest = entry.time.max(latest);
    }
    latest
}

// The greatest time at which a source of a table was last heard, or 0.
fn latest(table: &DupTable) -> u64
    ensures { result ≡ last_heard table.now.sources }
{
    match table.parts() {
        Parts::Narrow(narrow) => latest_in(narrow),
        Parts::Wide(wide) => latest_in(wide),
    }
}

impl<R: Role> NodeOf<R> {
    /// A node over this role, in this mode, that goes on with what a table has noted, in the width of the table. Its time is
    /// the greatest at which a source of the table was last heard, or 0. The places held in the table are given up. All else
    /// is as in a new node, whose table of nodes has these keys; the table of duplicates keeps its own.
    ///
    /// NoMemory: an allocation failed, and role and table are dropped.
    pub fn resumed(
        alloc: Global,
        role: R,
        mode: Mode,
        table: DupTable,
        keys: Keys,
    ) -> Result<NodeOf<R>, NoMemory>
        ensures resumed { IfOk result (λ n. state_of R.meaning n ≡ resumed (R.meaning role) mode
            table.width table.sources) }
        ensures idle { IfOk result (λ n. IsIdle n.core) }
    {
        let settings = Settings {
            mode,
            width: table.width(),
        };
        let time = latest(&table);
        let mut node = NodeOf::with_keys(alloc, role, settings, keys)?;
        node.core.resume(table, time);
        Ok(node)
    }
}
