//! Tables as octets, in calls of the table.

use crate::{reading, writing};
use sr_dup_table::{DupFault, DupTable, Width};
use sr_frame::NoMemory;
use std::alloc::Global;

/// What is stored as octets and read again. (A table has these calls here, in a crate above its own, so that checks of the table stay
/// short.)
pub trait Snapshots: Sized {
    ghost use Rattle.std.specs.Prelude.{◌≡◌, ◌↔◌, ◌⊎◌, ℕ, List, [], IfOk, IfErr, IsErrOf};
    ghost use Rattle.sr_frame.specs.declared.fields.Mac.{Mac};
    ghost use Rattle.sr_dup_table.specs.declared.width.Width.{Width};
    ghost use Rattle.sr_dup_table.specs.Sources.{Sources};
    ghost use Rattle.sr_dup_table.specs.Widths.{numbers_in};
    ghost use Rattle.sr_dup_snapshots.specs.Snapshots.{IsSnapshot};
    ghost use Rattle.sr_dup_snapshots.specs.Reading.{IsReadAs};

    /// How many numbers it remembers of each source.
    ghost numbers: { Self → ℕ };

    /// Its sources.
    ghost sources: { Self → Sources };

    /// The places that it holds.
    ghost held: { Self → List Mac };

    /// The snapshot, version 1 of a narrow table and version 2 of a wide one: one text for all tables that are the same, in whatever
    /// order. Held places are no part of it. NoMemory: an allocation failed.
    fn snapshot(&self, alloc: Global) -> Result<Vec<u8>, NoMemory>
        ensures { IfOk result (λ octets.
            IsSnapshot (numbers self.now) octets.items (sources self.now)) };

    /// The table of this width that a snapshot of either width spells. Its sources stand in ascending order of address, and it holds
    /// no place. Read as wide, a snapshot of version 1 has the numbers 1024 to 2047 before the greatest one noted on no lane; read as
    /// narrow, one of version 2 is cut to the 1024 greatest numbers.
    ///
    /// BadSnapshot: the octets are the snapshot of no table of either width. Their head or version is another, they have over 1024
    /// sources, another length than so many sources have, addresses that don't ascend, or a source without its greatest number on any
    /// lane. One pass over the octets tells, before any memory is asked for. NoMemory: an allocation failed.
    fn read_snapshot(alloc: Global, octets: &[u8], width: Width) -> Result<Self, DupFault>
        ensures found { IfOk result (λ table.
            IsReadAs (numbers_in width) octets.now (sources table)) }
        ensures width { IfOk result (λ table. numbers table ≡ numbers_in width) }
        ensures held { IfOk result (λ table. held table ≡ []) }
        ensures exact { IsErrOf result DupFault.BadSnapshot ↔ ((written : Width) (s : Sources)
            → IsSnapshot (numbers_in written) octets.now s → ⊥) }
        ensures refused { IfErr result (λ e.
            (e ≡ DupFault.NoMemory) ⊎ (e ≡ DupFault.BadSnapshot)) };
}

impl Snapshots for DupTable {
    ghost numbers = { λ table. table.width };

    ghost sources = { λ table. table.sources };

    ghost held = { λ table. table.held };

    fn snapshot(&self, alloc: Global) -> Result<Vec<u8>, NoMemory> {
        writing::snapshot(alloc, self)
    }

    fn read_snapshot(alloc: Global, octets: &[u8], width: Width) -> Result<DupTable, DupFault> {
        reading::read_snapshot(alloc, octets, width)
    }
}
