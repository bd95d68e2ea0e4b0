//! The frames of a recording that may be found again in another one.

ghost use Rattle.std.specs.Prelude.{◌≡◌, IfOk, List};
ghost use Rattle.sr_clocks.specs.declared.sightings.Sighting.{Sighting};
ghost use Rattle.sr_clocks.specs.Seen.{bin_with, may_change, is_shared, Keeps, paired, pairs_in};

use crate::pair::Pair;
use sr_frame::NoMemory;
use std::alloc::Global;

/// How many bins sightings fall into (choice of this project).
pub const BINS: usize = 4096;

/// A frame as one recorder saw it.
#[derive(Clone, Copy, Debug, PartialEq, Eq)]
pub struct Sighting {
    /// The bin that it falls into: the same for both recorders.
    pub bin: u16,
    /// What tells it from other frames of the bin: the same for both recorders.
    pub key: u64,
    /// When it was seen, in nanoseconds.
    pub time: u64,
}

/// The frame of the least key that a bin has.
#[derive(Clone, Copy, Debug, PartialEq, Eq)]
struct Kept {
    key: u64,
    /// When it was seen first.
    time: u64,
    /// Whether it was seen once.
    is_single: bool,
}

/// The sightings of one recorder: of each bin the frame of the least key.
#[derive(Drop)]
pub struct Sightings {
    bins: Vec<Option<Kept>>,
}

/// What a bin keeps with one sighting more.
fn bin_with(kept: Option<Kept>, key: u64, time: u64) -> Kept
    ensures { result ≡ bin_with kept key time }
{
    match kept {
        Some(kept) if kept.key < key => kept,
        Some(kept) if kept.key == key => Kept {
            is_single: false,
            ..kept
        },
        _ => Kept {
            key,
            time,
            is_single: true,
        },
    }
}

/// Whether a key that is no less than this one may change what a bin keeps.
fn may_change(kept: Option<Kept>, least: u64) -> bool
    ensures { result ≡ may_change kept least }
{
    match kept {
        Some(kept) => !(kept.key < least),
        None => true,
    }
}

/// Whether what a bin keeps of both recorders is one frame, which each saw once.
fn is_shared(first: Kept, second: Kept) -> bool
    ensures { result ≡ is_shared first second }
{
    first.key == second.key && first.is_single && second.is_single
}

/// The pair of what a bin keeps of both recorders, if it is one frame that each saw once.
fn paired(first: Option<Kept>, second: Option<Kept>) -> Option<Pair>
    ensures { result ≡ paired first second }
{
    match (first, second) {
        (Some(first), Some(second)) if is_shared(first, second) => {
            Pair::of(first.time, second.time)
        }
        _ => None,
    }
}

impl Sightings {
    ghost use Rattle.std.specs.Prelude.{◌≡◌, ◌%◌, ◌<◌, IfOk, [], ◌∷◌, List};
    ghost use Rattle.sr_clocks.specs.declared.sightings.Sighting.{Sighting};
    ghost use Rattle.sr_clocks.specs.Seen.{Keeps, bin_of_all, may_change};

    /// No frame was seen.
    ///
    /// # Errors
    /// `NoMemory` where an allocation failed.
    pub fn new(alloc: Global) -> Result<Sightings, NoMemory>
        ensures { IfOk result (λ s. Keeps [] s) }
    {
        let mut bins = Vec::new(alloc);
        bins.resize(BINS, None)?;
        Ok(Sightings { bins })
    }

    /// What a bin keeps.
    fn kept(&self, bin: usize) -> Option<Kept>
        ensures { (xs : List Sighting) → Keeps xs self.now → bin < 4096
            → result ≡ bin_of_all bin xs }
    {
        self.bins.get(bin).copied().flatten()
    }

    /// Whether a sighting whose key is no less than this one may change what its bin keeps. Where the answer is no, none does.
    pub fn may_change(&self, bin: u16, least: u64) -> bool
        ensures { (xs : List Sighting) → Keeps xs self.now
            → result ≡ may_change (bin_of_all (bin % 4096) xs) least }
    {
        may_change(self.kept(usize::from(bin) % BINS), least)
    }

    /// Takes a sighting.
    pub fn note(&mut self, x: Sighting)
        ensures { (xs : List Sighting) → Keeps xs self.old → Keeps (x ∷ xs) self.new }
    {
        let bin = usize::from(x.bin) % BINS;
        let kept = bin_with(self.kept(bin), x.key, x.time);
        if bin < self.bins.len() {
            self.bins[bin] = Some(kept);
        }
    }
}

/// The frames that both recorders saw once, and that their bins keep.
///
/// # Errors
/// `NoMemory` where an allocation failed.
#[tactic(auto, using(crate::proofs::PairLemmas::pairs_one_more))]
pub fn pairs_of(alloc: Global, first: &Sightings, second: &Sightings) -> Result<Vec<Pair>, NoMemory>
    ensures { IfOk result (λ pairs. (xs ys : List Sighting) → Keeps xs first.now
        → Keeps ys second.now → pairs.items ≡ pairs_in xs ys) }
{
    let mut pairs = Vec::new(alloc);
    for bin in 0..BINS {
        if let Some(pair) = paired(first.kept(bin), second.kept(bin)) {
            pairs.extend_from_slice(&[pair])?;
        }
    }
    Ok(pairs)
}
