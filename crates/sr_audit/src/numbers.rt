//! What is kept of the numbers of a source.

ghost use Rattle.std.specs.Prelude.{◌≡◌, ◌+◌, ◌-◌, ◌^◌, ◌<◌, false, nat_lt, List, [], ◌∷◌, length};
ghost use Rattle.sr_sequence.specs.Places.{place_of};
ghost use Rattle.sr_dup_window.specs.LaneSets.{only};
ghost use Rattle.sr_dup_window.specs.Windows.{window_of, window_begun, window_noted, has_of};
ghost use Rattle.sr_audit.specs.declared.arrival.Arrival.{Arrival};
ghost use Rattle.sr_audit.specs.declared.side.Side.TheVariants.{A, B};
ghost use Rattle.sr_audit.specs.Limits.{kept_numbers, epoch_gap};
ghost use Rattle.sr_audit.specs.Stretches.{stretches, goes_to};
ghost use Rattle.sr_audit.specs.Tallies.{tally_of};
ghost use Rattle.sr_audit.specs.Counting.{tally_with};
ghost use Rattle.sr_audit.specs.Lanes.{side_lane};
ghost use Rattle.sr_audit.specs.Looks.{step_to, step_by, look_at};

use crate::arrival::Arrival;
use crate::look::{Look, Step};
use crate::side::Side;
use crate::tally::{Came, Tally};
use sr_dup_window::{Lanes, Record};
use sr_sequence::{Distance, Seq, place};

/// How many numbers of a source are remembered, up to the greatest one (choice of this project).
pub(crate) const KEPT_NUMBERS: u16 = 1024;

/// How long a source is silent behind which its greatest number, or one behind it, is that of another frame: EntryForgetTime, 400 ms,
/// in nanoseconds (IEC 62439-3 clauses 4 and 5).
const EPOCH_GAP: u64 = 400_000_000;

/// What is kept of the numbers of a source: which of the last 1024 of its stretch came by which side, when it was last heard, and the
/// figures.
#[derive(Clone, Copy, Debug)]
pub struct Numbers {
    seen: Record<16>,
    last: u64,
    tally: Tally,
}

/// Whether a number goes on with a stretch, whose newest copy came less than 400 ms before or not.
fn goes_to(soon: bool, distance: Distance) -> bool
    ensures { result ≡ goes_to soon distance }
{
    match distance {
        Distance::Behind(_) => soon,
        Distance::Ahead(steps) => steps < KEPT_NUMBERS,
    }
}

/// How a number stands to a stretch, whose newest copy came less than 400 ms before or not.
fn step_to(soon: bool, distance: Distance) -> Step
    ensures { result ≡ step_to soon distance }
{
    match distance {
        Distance::Behind(_) if !soon => Step::Restart,
        Distance::Ahead(steps) if KEPT_NUMBERS <= steps => {
            if soon { Step::Jump } else { Step::Restart }
        }
        _ => Step::On(distance),
    }
}

impl Numbers {
    ghost use Rattle.sr_audit.specs.Following.{FollowsArrivals};

    /// The first arrival of a source.
    pub fn begin(x: Arrival) -> Numbers
        ensures { FollowsArrivals (x ∷ []) result }
    {
        Numbers {
            seen: Record::begin(x.seq, Lanes::only(x.side.lane())),
            last: x.time,
            tally: Tally::NONE.with(x.side, Came::NEITHER),
        }
    }

    /// Takes the next arrival of the source.
    pub fn note(&mut self, x: Arrival)
        ensures { (xs : List Arrival) → length xs + 1 < 2 ^ 64
            → FollowsArrivals xs self.old → FollowsArrivals (x ∷ xs) self.new }
    {
        let _look = self.take(x);
    }

    /// Takes the next arrival of the source, and answers what it is to the stretch before it.
    pub(crate) fn take(&mut self, x: Arrival) -> Look
        ensures taken { (xs : List Arrival) → length xs + 1 < 2 ^ 64
            → FollowsArrivals xs self.old → FollowsArrivals (x ∷ xs) self.new }
        ensures look { (xs : List Arrival) → FollowsArrivals xs self.old
            → result ≡ look_at (stretches xs) x }
    {
        let step = self.step(x);
        if self.goes_on(x) {
            let came = self.came(x.seq);
            self.go_on(x, came);
            Look { step, came }
        } else {
            self.begin_again(x);
            Look {
                step,
                came: Came::NEITHER,
            }
        }
    }

    /// The figures of all arrivals.
    pub fn tally(&self) -> Tally
        ensures kept { result ≡ self.now.tally }
        ensures tally { (xs : List Arrival) → FollowsArrivals xs self.now
            → result ≡ tally_of (stretches xs) }
    {
        self.tally
    }

    /// Whether an arrival goes on with the stretch.
    fn goes_on(&self, x: Arrival) -> bool
        ensures { result ≡ goes_to (nat_lt (x.time - self.now.last) epoch_gap)
            (place_of (window_of self.now.seen).reference x.seq.0 kept_numbers) }
    {
        goes_to(self.is_soon(x), self.distance(x))
    }

    /// How an arrival stands to the stretch.
    pub(crate) fn step(&self, x: Arrival) -> Step
        ensures { result ≡ step_by (window_of self.now.seen).reference self.now.last x }
    {
        step_to(self.is_soon(x), self.distance(x))
    }

    /// Where the number of an arrival lies from the greatest one of the stretch.
    fn distance(&self, x: Arrival) -> Distance
        ensures { result ≡ place_of (window_of self.now.seen).reference x.seq.0 kept_numbers }
    {
        place(self.seen.reference(), x.seq, KEPT_NUMBERS)
    }

    /// Whether an arrival comes less than 400 ms behind the newest copy of the stretch.
    fn is_soon(&self, x: Arrival) -> bool
        ensures { result ≡ nat_lt (x.time - self.now.last) epoch_gap }
    {
        x.time.saturating_sub(self.last) < EPOCH_GAP
    }

    /// The greatest number of the stretch.
    pub(crate) fn greatest(&self) -> Seq
        ensures { result.0 ≡ (window_of self.now.seen).reference }
    {
        self.seen.reference()
    }

    /// By which sides copies of a frame of the stretch came, by its number.
    pub(crate) fn came(&self, seq: Seq) -> Came
        ensures a { result.a ≡ has_of kept_numbers (window_of self.now.seen) (side_lane A) seq.0 }
        ensures b { result.b ≡ has_of kept_numbers (window_of self.now.seen) (side_lane B) seq.0 }
    {
        Came {
            a: self.seen.has(Side::A.lane(), seq),
            b: self.seen.has(Side::B.lane(), seq),
        }
    }

    /// Takes an arrival that goes on with the stretch, where copies of its frame came before by some sides.
    fn go_on(&mut self, x: Arrival, came: Came)
        ensures seen { window_of self.new.seen ≡ window_noted kept_numbers (window_of self.old.seen)
            x.seq.0 (only (side_lane x.side)) }
        ensures last { self.new.last ≡ x.time }
        ensures tally { self.new.tally ≡ tally_with self.old.tally x.side came }
    {
        self.tally = self.tally.with(x.side, came);
        let _fresh = self.seen.note(x.seq, Lanes::only(x.side.lane()));
        self.last = x.time;
    }

    /// Takes an arrival that begins a stretch.
    fn begin_again(&mut self, x: Arrival)
        ensures seen { window_of self.new.seen ≡ window_begun kept_numbers x.seq.0
            (only (side_lane x.side)) }
        ensures last { self.new.last ≡ x.time }
        ensures tally { self.new.tally
            ≡ tally_with self.old.tally x.side (record { a = false; b = false }) }
    {
        self.tally = self.tally.with(x.side, Came::NEITHER);
        self.seen.begin_again(x.seq, Lanes::only(x.side.lane()));
        self.last = x.time;
    }
}
