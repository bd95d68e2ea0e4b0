//! The duplicate records of a node at work, without the node.

use crate::works::{Outcome, Subject};
use bitflags::Flags;
use sr_dup_table::DupTable;
use sr_dup_window::Lanes;
use sr_frame::Mac;
use sr_prp_trailer::Lan;
use sr_sequence::Seq;
use std::alloc::Global;

/// A table of sources.
#[derive(Drop)]
pub struct SourcesAtWork {
    table: DupTable,
}

impl SourcesAtWork {
    /// A table of no source.
    pub fn new(alloc: Global) -> SourcesAtWork {
        SourcesAtWork {
            table: DupTable::new(alloc),
        }
    }
}

impl Subject for SourcesAtWork {
    fn arrive(&mut self, _lan: Lan, source: u16, number: u16, now: u64) -> Outcome {
        let [high, low] = source.to_be_bytes();
        let src = Mac([2, 0, 0, 1, high, low]);
        match self.table.arrive(src, Seq(number), Lanes::H, now) {
            Ok(fresh) if fresh.is_empty() => Outcome::Old,
            Ok(_) => Outcome::New,
            Err(_) => Outcome::Refused,
        }
    }

    fn tick(&mut self, now: u64) {
        let _gone = self.table.age(now);
    }
}
