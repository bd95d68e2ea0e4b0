//! How often each number below a bound came.

ghost use Rattle.std.specs.Prelude.{◌≡◌, ◌<◌, ◌∷◌, [], List, ℕ, IfOk, length};
ghost use Rattle.sr_audit_charts.specs.Histograms.{IsHistogramOf, times_in};

use sr_frame::NoMemory;
use std::alloc::Global;

/// Counts of how often each of some first numbers came. A count stays at 2^32 - 1.
#[derive(Drop)]
pub struct Histogram {
    counts: Vec<u32>,
}

impl Histogram {
    /// The counts of so many numbers, of which none came.
    ///
    /// # Errors
    /// `NoMemory` where the allocation failed.
    pub fn new(alloc: Global, len: usize) -> Result<Histogram, NoMemory>
        ensures none { IfOk result (λ h. IsHistogramOf [] h) }
        ensures len { IfOk result (λ h. length h.counts.items ≡ len) }
    {
        let mut counts = Vec::new(alloc);
        counts.resize(len, 0)?;
        Ok(Histogram { counts })
    }

    /// Counts a number more. One that is not counted is passed over.
    pub fn note(&mut self, at: usize)
        ensures noted { (xs : List ℕ) → IsHistogramOf xs self.old
            → IsHistogramOf (at ∷ xs) self.new }
        ensures len { length self.new.counts.items ≡ length self.old.counts.items }
    {
        if let Some(count) = self.counts.get_mut(at) {
            *count = count.saturating_add(1);
        }
    }

    /// How often a number came. One that is not counted never did.
    pub fn at(&self, at: usize) -> u32
        ensures { (xs : List ℕ) → IsHistogramOf xs self.now → at < length self.now.counts.items
            → result ≡ times_in xs at }
    {
        match self.counts.get(at) {
            Some(count) => *count,
            None => 0,
        }
    }

    /// How many numbers are counted.
    pub fn len(&self) -> usize
        ensures { result ≡ length self.now.counts.items }
    {
        self.counts.len()
    }
}
