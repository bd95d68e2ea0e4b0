//! When the first copies of frames came.

ghost use Rattle.std.specs.Prelude.{◌≡◌, ◌<◌, vec_len};
ghost use Rattle.sr_audit.specs.Limits.{kept_numbers, place_in};

use crate::numbers::KEPT_NUMBERS;
use sr_frame::NoMemory;
use sr_sequence::Seq;
use std::alloc::Global;

/// When the first copy of each of the last 1024 numbers of a source came, by the number modulo 1024.
#[derive(Drop)]
pub(crate) struct Moments {
    times: Vec<u64>,
    ghost all: { vec_len times ≡ kept_numbers },
}

/// The place of a number.
fn place_in(seq: Seq) -> usize
    ensures place { result ≡ place_in seq.0 }
    ensures few { result < kept_numbers }
{
    usize::from(seq.0 % KEPT_NUMBERS)
}

impl Moments {
    ghost use Rattle.std.specs.Prelude.{◌≡◌, slice_set, slice_index_or};

    /// No copy came.
    ///
    /// # Errors
    /// `NoMemory` where an allocation failed.
    pub fn new(alloc: Global) -> Result<Moments, NoMemory> {
        let mut times = Vec::new(alloc);
        times.resize(usize::from(KEPT_NUMBERS), 0)?;
        Ok(Moments { times })
    }

    /// When the first copy of a number came.
    pub fn at(&self, seq: Seq) -> u64
        ensures { result ≡ slice_index_or self.now.times.items (place_in seq.0) 0 }
    {
        self.times[place_in(seq)]
    }

    /// Takes when the first copy of a number came.
    pub fn put(&mut self, seq: Seq, time: u64)
        ensures { self.new.times.items ≡ slice_set self.old.times.items (place_in seq.0) time }
    {
        self.times[place_in(seq)] = time;
    }
}
