//! The skews of a source by time, and how many of each size.

ghost use Rattle.std.specs.Prelude.{◌≡◌};
ghost use Rattle.sr_audit_charts.specs.Columns.{bin_place};

use crate::histogram::Histogram;
use crate::ranges::{Range, Ranges};
use crate::times::COLUMNS;
use sr_frame::NoMemory;
use std::alloc::Global;

/// How many counts of skews are kept of a column.
pub const BINS: usize = 64;

/// The skews of a source: the range of each column, and how many of its pairs have each value of `skew >> shift`.
#[derive(Drop)]
pub struct Card {
    /// The ranges of the columns.
    pub ranges: Ranges,
    bins: Histogram,
}

/// The greatest shift of a number of 128 bits.
const MOST_SHIFT: u32 = 127;

/// Whether a range has so few values under a shift as there are bins.
fn fits(range: Range, shift: u32) -> bool {
    let (least, greatest) = (shifted(range.least, shift), shifted(range.greatest, shift));
    greatest.saturating_sub(least) < BINS as i128
}

/// A skew divided by a power of two, rounded down.
fn shifted(skew: i128, shift: u32) -> i128 {
    skew >> shift.min(MOST_SHIFT)
}

/// The least shift with which the values of a range are at most 64.
pub(crate) fn shift_of(range: Range) -> u32 {
    for shift in 0..MOST_SHIFT {
        if fits(range, shift) {
            return shift;
        }
    }
    MOST_SHIFT
}

/// The bin of a skew in a range.
fn bin_of(range: Range, skew: i128) -> usize {
    let shift = shift_of(range);
    let above = shifted(skew, shift).saturating_sub(shifted(range.least, shift));
    usize::try_from(above).unwrap_or(0).min(BINS - 1)
}

/// The least skew of a bin of a range, in nanoseconds.
pub fn bin_floor(range: Range, bin: usize) -> i128 {
    let shift = shift_of(range);
    let value = shifted(range.least, shift).saturating_add(bin.min(BINS) as i128);
    value.saturating_mul(1_i128.checked_shl(shift).unwrap_or(i128::MAX))
}

/// The middle of a bin of a range, within the range.
fn bin_middle(range: Range, bin: usize) -> i128 {
    let (floor, next) = (
        bin_floor(range, bin),
        bin_floor(range, bin.saturating_add(1)),
    );
    let middle = floor.saturating_add(next.saturating_sub(floor) / 2);
    middle.max(range.least).min(range.greatest)
}

/// The place of a bin of a column among those of all columns.
fn place_of(at: usize, bin: usize) -> usize
    ensures { result ≡ bin_place at bin }
{
    at.min(COLUMNS - 1) * BINS + bin.min(BINS - 1)
}

impl Card {
    /// No pair came.
    ///
    /// # Errors
    /// `NoMemory` where an allocation failed.
    pub fn new(alloc: Global) -> Result<Card, NoMemory> {
        let ranges = Ranges::new(alloc)?;
        let bins = Histogram::new(alloc, COLUMNS * BINS)?;
        Ok(Card { ranges, bins })
    }

    /// Counts the skew of a pair of a column, once the range of all of them is known.
    pub fn count(&mut self, at: usize, skew: i128) {
        if let Some(range) = self.ranges.at(at) {
            let bin = bin_of(range, skew);
            self.bins.note(place_of(at, bin));
        }
    }

    /// How many pairs of a column have a skew in any bin.
    fn pairs_at(&self, at: usize) -> u64 {
        let mut pairs: u64 = 0;
        for bin in 0..BINS {
            pairs = pairs.saturating_add(u64::from(self.in_bin(at, bin)));
        }
        pairs
    }

    /// The skew below which so many quarters of the pairs of a column lie, as far as bins tell. None: no pair was counted.
    pub fn quarter_at(&self, at: usize, quarters: u64) -> Option<i128> {
        let range = self.ranges.at(at)?;
        let wanted = self.pairs_at(at).saturating_mul(quarters);
        let mut seen: u64 = 0;
        for bin in 0..BINS {
            seen = seen.saturating_add(u64::from(self.in_bin(at, bin)));
            if seen > 0 && seen.saturating_mul(4) >= wanted {
                return Some(bin_middle(range, bin));
            }
        }
        None
    }

    /// How many pairs of a column have a skew in a bin.
    pub fn in_bin(&self, at: usize, bin: usize) -> u32 {
        self.bins.at(place_of(at, bin))
    }
}
