//! The least and the greatest of the skews of each column.

use crate::times::COLUMNS;
use sr_frame::NoMemory;
use std::alloc::Global;

/// The least and the greatest of some skews, in nanoseconds.
#[derive(Clone, Copy, Debug, PartialEq, Eq)]
pub struct Range {
    /// The least.
    pub least: i128,
    /// The greatest.
    pub greatest: i128,
}

/// A range with a skew more.
fn widened(range: Option<Range>, skew: i128) -> Range {
    match range {
        Some(range) => Range {
            least: range.least.min(skew),
            greatest: range.greatest.max(skew),
        },
        None => Range {
            least: skew,
            greatest: skew,
        },
    }
}

/// The range of the skews of each column.
#[derive(Drop)]
pub struct Ranges {
    items: Vec<Option<Range>>,
}

impl Ranges {
    /// No pair came.
    ///
    /// # Errors
    /// `NoMemory` where the allocation failed.
    pub fn new(alloc: Global) -> Result<Ranges, NoMemory> {
        let mut items = Vec::new(alloc);
        items.resize(COLUMNS, None)?;
        Ok(Ranges { items })
    }

    /// Takes the skew of a pair of a column.
    pub fn note(&mut self, at: usize, skew: i128) {
        if let Some(range) = self.items.get_mut(at) {
            *range = Some(widened(*range, skew));
        }
    }

    /// The range of a column. None: no pair came then.
    pub fn at(&self, at: usize) -> Option<Range> {
        match self.items.get(at) {
            Some(range) => *range,
            None => None,
        }
    }
}
