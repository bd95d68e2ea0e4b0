//! The record of one source.
ghost use Rattle.std.specs.Prelude.{◌≡◌, ◌==◌, ◌||◌, ◌*◌, ◌%◌, ◌<◌, IsTrue, false};
ghost use Rattle.sr_dup_window.specs.LaneSets.{is_empty};
ghost use Rattle.sr_dup_window.specs.Bins.{AreRows, lanes_at};

use crate::bins::{clear_all, lanes_at, mark, pass, put, unite};
use crate::lane_sets::{Lane, Lanes};
use crate::rows::Row;
use sr_sequence::{Distance, Seq, place};
use thiserror::Error;

/// Two greatest numbers are 32768 apart, half of all 16-bit numbers, so neither is ahead of the other.
#[derive(Clone, Copy, PartialEq, Eq, Debug, Error)]
#[error("the greatest numbers are 32768 apart")]
pub struct Apart;

/// The numbers that one source has lately used, lane by lane: the greatest of them, its reference, and which of the
/// `64 * N - 1` numbers before it. N is 16 or 32 (choice of this project). Number n stands at the bin `n mod 64N` of a
/// ring of bits, in which the six lanes' words of the same 64 numbers lie side by side.
#[derive(Clone, Copy, PartialEq, Eq, Debug)]
pub struct Record<const N: usize> {
    reference: Seq,
    rows: [Row; N],
    ghost width: { IsTrue (N == 16 || N == 32) },
    ghost carried: { reference.0 < 65536 },
    ghost whole: { AreRows N rows },
    ghost some: { is_empty (lanes_at rows (reference.0 % (64 * N))) ≡ false },
}

impl<const N: usize> Record<N> {
    ghost use Rattle.std.specs.Prelude.{◌≡◌, ◌⊎◌, ◌*◌, ◌↔◌, false, IsErr, OnOk, OnErr};
    ghost use Rattle.sr_sequence.specs.Places.{steps, place_of, IsWithin};
    ghost use Rattle.sr_dup_window.specs.LaneSets.{is_empty};
    ghost use Rattle.sr_dup_window.specs.Windows.{window_of, window_begun, window_noted, window_merged, has_of, fresh_lanes, lanes_of, same_window};
    ghost use Rattle.sr_dup_window.specs.Families.{Begins, NotesAs, Merges};

    /// A record of one number, on some lanes.
    pub fn begin(seq: Seq, lanes: Lanes) -> Self
        requires width { (N ≡ 16) ⊎ (N ≡ 32) }
        requires some { is_empty lanes ≡ false }
        ensures value { window_of result ≡ window_begun (64 * N) seq.0 lanes }
        ensures stands { Begins (64 * N) (window_of result) seq.0 lanes }
    {
        let mut rows = [[0; 6]; N];
        mark(&mut rows, seq.0 as usize % (64 * N), lanes);
        Record {
            reference: seq,
            rows,
        }
    }

    /// Begins anew with one number, on some lanes: what was noted is gone.
    pub fn begin_again(&mut self, seq: Seq, lanes: Lanes)
        requires { is_empty lanes ≡ false }
        ensures value { window_of self.new ≡ window_begun (64 * N) seq.0 lanes }
        ensures stands { Begins (64 * N) (window_of self.new) seq.0 lanes }
    {
        clear_all(&mut self.rows);
        mark(&mut self.rows, seq.0 as usize % (64 * N), lanes);
        self.reference = seq;
    }

    /// The greatest number noted.
    pub fn reference(&self) -> Seq
        ensures { result.0 ≡ (window_of self.now).reference }
    {
        self.reference
    }

    /// Where a number lies from the greatest one: behind it within the window, or else ahead.
    fn distance(&self, seq: Seq) -> Distance
        ensures formula { result ≡ place_of (window_of self.now).reference seq.0 (64 * N) }
        ensures within { IsWithin (64 * N) result }
    {
        place(self.reference, seq, (64 * N) as u16)
    }

    /// The lanes on which a number is noted: none outside the window.
    fn lanes_of(&self, seq: Seq) -> Lanes
        ensures { result ≡ lanes_of (64 * N) (window_of self.now) seq.0 }
    {
        match self.distance(seq) {
            Distance::Behind(_) => lanes_at(&self.rows, seq.0 as usize % (64 * N)),
            Distance::Ahead(_) => Lanes::NONE,
        }
    }

    /// Whether a number is noted on a lane: never outside the window.
    pub fn has(&self, lane: Lane, seq: Seq) -> bool
        ensures { result ≡ has_of (64 * N) (window_of self.now) lane seq.0 }
    {
        self.lanes_of(seq).has(lane)
    }

    /// The asked lanes on which a number is new: what `note` would answer.
    pub fn fresh(&self, seq: Seq, lanes: Lanes) -> Lanes
        ensures { result ≡ fresh_lanes (64 * N) (window_of self.now) seq.0 lanes }
    {
        lanes.difference(self.lanes_of(seq))
    }

    /// Notes a number on some lanes, and answers those on which it is new. A number that is not within the window behind
    /// the greatest one is ahead of it, and becomes the greatest.
    pub fn note(&mut self, seq: Seq, lanes: Lanes) -> Lanes
        requires { is_empty lanes ≡ false }
        ensures value { window_of self.new
            ≡ window_noted (64 * N) (window_of self.old) seq.0 lanes }
        ensures answer { result ≡ fresh_lanes (64 * N) (window_of self.old) seq.0 lanes }
        ensures stands { NotesAs (64 * N) (window_of self.old) (window_of self.new) seq.0
            lanes result }
    {
        let bin = seq.0 as usize % (64 * N);
        match self.distance(seq) {
            Distance::Behind(_) => {
                let noted = lanes_at(&self.rows, bin);
                mark(&mut self.rows, bin, lanes);
                lanes.difference(noted)
            }
            Distance::Ahead(steps) => {
                let from = self.reference.0 as usize % (64 * N);
                // The next number is the usual one: nothing lies between.
                pass(&mut self.rows, from, steps as usize - 1);
                put(&mut self.rows, bin, lanes);
                self.reference = seq;
                lanes.difference(Lanes::NONE)
            }
        }
    }

    /// Joins the numbers of another record to these. Apart exactly where the two references are 32768 apart; the record
    /// is then left as it is.
    pub fn merge(&mut self, other: &Self) -> Result<(), Apart>
        ensures value { OnOk result (window_of self.new
            ≡ window_merged (64 * N) (window_of self.old) (window_of other.now)) }
        ensures joins { OnOk result
            (Merges (64 * N) (window_of self.old) (window_of other.now) (window_of self.new)) }
        ensures apart { IsErr result
            ↔ (steps (window_of self.old).reference (window_of other.now).reference ≡ 32768) }
        ensures unchanged { OnErr result (self.new ≡ self.old) }
    {
        let bin = self.reference.0 as usize % (64 * N);
        let other_bin = other.reference.0 as usize % (64 * N);
        match place(self.reference, other.reference, 32768) {
            Distance::Behind(steps) => {
                let mut others = other.rows;
                pass(&mut others, other_bin, steps as usize);
                unite(&mut self.rows, &others);
                Ok(())
            }
            Distance::Ahead(32768) => Err(Apart),
            Distance::Ahead(steps) => {
                pass(&mut self.rows, bin, steps as usize);
                unite(&mut self.rows, &other.rows);
                self.reference = other.reference;
                Ok(())
            }
        }
    }

    /// Whether two records are equal: whether they show the same numbers on the same lanes.
    pub fn is_same(&self, other: &Self) -> bool
        ensures { result ≡ same_window (window_of self.now) (window_of other.now) }
    {
        self == other
    }
}
