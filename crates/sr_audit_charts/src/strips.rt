//! Which frames of a source were lost, by time.

use crate::histogram::Histogram;
use crate::times::COLUMNS;
use sr_audit::Side;
use sr_frame::NoMemory;
use std::alloc::Global;

/// How many frames were lost in each column, on each LAN and on both.
#[derive(Drop)]
pub struct Strip {
    /// Those that LAN A lost.
    pub a: Histogram,
    /// Those that LAN B lost.
    pub b: Histogram,
    /// Those that both lost.
    pub both: Histogram,
}

impl Strip {
    /// Nothing was lost.
    ///
    /// # Errors
    /// `NoMemory` where an allocation failed.
    pub fn new(alloc: Global) -> Result<Strip, NoMemory> {
        let a = Histogram::new(alloc, COLUMNS)?;
        let b = Histogram::new(alloc, COLUMNS)?;
        let both = Histogram::new(alloc, COLUMNS)?;
        Ok(Strip { a, b, both })
    }

    /// Takes a frame that a LAN lost in a column, or that both did.
    pub fn note(&mut self, lan: Option<Side>, at: usize) {
        match lan {
            Some(Side::A) => self.a.note(at),
            Some(Side::B) => self.b.note(at),
            None => self.both.note(at),
        }
    }
}
