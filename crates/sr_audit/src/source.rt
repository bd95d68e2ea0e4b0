//! What is kept of a source.

ghost use Rattle.std.specs.Prelude.{◌≡◌};
ghost use Rattle.sr_audit.specs.Limits.{place_in};
ghost use Rattle.sr_audit.specs.Shown.{frames_in};

use crate::alive::Alive;
use crate::arrival::Arrival;
use crate::extent::Extent;
use crate::look::{Look, Step};
use crate::moments::Moments;
use crate::numbers::{KEPT_NUMBERS, Numbers};
use crate::row::{Row, Rows, rows_over, shown_row};
use crate::side::Side;
use crate::skew::{Skews, skew_by};
use crate::span::Spans;
use crate::tally::{Came, Sides, Tally};
use crate::waiting::waits_over;
use sr_frame::NoMemory;
use sr_sequence::Distance;
use sr_slots::Ranked;
use std::alloc::Global;

/// The figures of a source.
#[derive(Clone, Copy, Debug, PartialEq, Eq)]
pub struct Figures {
    /// How many copies and frames came, and by which sides.
    pub tally: Tally,
    /// How many of the frames that came by one side alone came before the first packet of the other side, or behind its last one.
    pub edges: Sides,
    /// How many numbers of its stretches no frame had.
    pub neither: u64,
    /// First copies behind a greater number of their side.
    pub order: Sides,
    /// Stretches that begin with a number more than 1023 ahead, of a source that was not silent.
    pub jumps: u64,
    /// Stretches that begin behind a silence of 400 ms: with a number that does not lie 1 to 1023 ahead.
    pub restarts: u64,
    /// How far apart the copies of pairs came.
    pub skews: Skews,
}

impl Figures {
    ghost use Rattle.std.specs.Prelude.{◌≡◌, ◌-◌};
    ghost use Rattle.sr_audit.specs.Faults.{tells_of_faults};

    /// The figures of no arrival.
    pub const NONE: Figures = Figures {
        tally: Tally::NONE,
        edges: Sides::NONE,
        neither: 0,
        order: Sides::NONE,
        jumps: 0,
        restarts: 0,
        skews: Skews::NONE,
    };

    /// How many frames came by one side alone while the capture of the other side ran.
    pub fn only(&self) -> Sides
        ensures a { result.a ≡ self.now.tally.alone.a - self.now.edges.a }
        ensures b { result.b ≡ self.now.tally.alone.b - self.now.edges.b }
    {
        let alone = self.tally.alone;
        Sides {
            a: alone.a.saturating_sub(self.edges.a),
            b: alone.b.saturating_sub(self.edges.b),
        }
    }

    /// Whether a figure tells of a fault of the network: frames that came by one side alone, or by none, copies that came more than once,
    /// or a skew of 400 ms or more.
    pub fn has_faults(&self) -> bool
        ensures { result ≡ tells_of_faults self.now }
    {
        let only = self.only();
        let repeats = self.tally.repeats;
        let [_, _, _, _, _, _, over] = self.skews.classes;
        only.a > 0 || only.b > 0 || repeats.a > 0 || repeats.b > 0 || self.neither > 0 || over > 0
    }
}

/// How many frames came, by whichever side.
fn frames_in(tally: Tally) -> u64
    ensures { result ≡ frames_in tally }
{
    tally
        .pairs
        .saturating_add(tally.alone.a)
        .saturating_add(tally.alone.b)
}

/// What is kept of a source: its numbers, when the first copies of the last 1024 came, and the figures.
#[derive(Drop)]
pub struct Source {
    numbers: Option<Numbers>,
    moments: Moments,
    edges: Sides,
    extent: Extent,
    skews: Skews,
    /// Frames in a row that came by one side alone, of the numbers that the stretches have left behind.
    rows: Rows,
    alive: Option<Alive>,
}

impl Ranked for Source {
    ghost rank_of = { λ s. 0 };

    // No source goes.
    fn rank(&self) -> u64 {
        0
    }
}

impl Source {
    ghost use Rattle.std.specs.Prelude.{◌≡◌, ◌+◌, ◌^◌, ◌<◌, ◌≤◌, List, [], ◌∷◌, length, sum_by, slice_set, IfOk};
    ghost use Rattle.sr_audit.specs.declared.arrival.Arrival.{Arrival};
    ghost use Rattle.sr_audit.specs.declared.span.Spans.{Spans};
    ghost use Rattle.sr_audit.specs.Counting.{more_at, less_at};
    ghost use Rattle.sr_audit.specs.Edges.{is_beyond, edges_of, edges_with, moments_with};
    ghost use Rattle.sr_audit.specs.Lanes.{other_side};
    ghost use Rattle.sr_audit.specs.Looks.{look_at};
    ghost use Rattle.sr_audit.specs.Stretches.{stretches, current};
    ghost use Rattle.sr_audit.specs.Tallies.{tally_of, at_sides};
    ghost use Rattle.sr_audit.specs.Extents.{neither_of, order, jumps_of, restarts_of};
    ghost use Rattle.sr_audit.specs.Limits.{exact_arrivals};
    ghost use Rattle.sr_audit.specs.Taken.{IsKeptIn, HasTaken, TakesArrival, KeepsTaken};
    ghost use Rattle.sr_audit.specs.Shown.{figures_of, tally_in};
    ghost use Rattle.sr_audit.specs.Skewing.{skew_by, skews_of, skews_shown, skews_with, skews_taken};
    ghost use Rattle.sr_audit.specs.Rows.{row_of, closed_of, rows_passed, rows_before, shown_row};
    ghost use Rattle.sr_audit.specs.Hearing.{Sign, sign_of, HasHeard, HearsSign, alive_of};
    ghost use Rattle.sr_audit.specs.Waiting.{waits_of};

    /// A source of which nothing came.
    ///
    /// # Errors
    /// `NoMemory` where an allocation failed.
    pub fn new(alloc: Global) -> Result<Source, NoMemory>
        ensures taken { IfOk result (λ source. (spans : Spans) → HasTaken spans [] source) }
        ensures heard { IfOk result (HasHeard []) }
    {
        Ok(Source {
            numbers: None,
            moments: Moments::new(alloc)?,
            edges: Sides::NONE,
            extent: Extent::NONE,
            skews: Skews::NONE,
            rows: Rows::NONE,
            alive: None,
        })
    }

    /// What an arrival is to the stretch; its number is then taken.
    fn look(&mut self, x: Arrival) -> Look
        ensures taken { (xs : List Arrival) → length xs + 1 < 2 ^ 64
            → IsKeptIn xs self.old.numbers → IsKeptIn (x ∷ xs) self.new.numbers }
        ensures look { (xs : List Arrival) → IsKeptIn xs self.old.numbers
            → result ≡ look_at (stretches xs) x }
        ensures moments { self.new.moments.times.items ≡ self.old.moments.times.items }
        ensures edges { self.new.edges ≡ self.old.edges }
        ensures extent { self.new.extent ≡ self.old.extent }
        ensures skews { self.new.skews ≡ self.old.skews }
        ensures rows { self.new.rows ≡ self.old.rows }
        ensures alive { self.new.alive ≡ self.old.alive }
    {
        match self.numbers.as_mut() {
            Some(numbers) => numbers.take(x),
            None => {
                self.numbers = Some(Numbers::begin(x));
                Look::FIRST
            }
        }
    }

    /// Takes the first copy of a frame.
    fn open(&mut self, x: Arrival, spans: &Spans)
        ensures numbers { self.new.numbers ≡ self.old.numbers }
        ensures moments { self.new.moments.times.items
            ≡ slice_set self.old.moments.times.items (place_in x.seq.0) x.time }
        ensures edges { self.new.edges ≡ more_at self.old.edges x.side
            (is_beyond spans.now (other_side x.side) x.time) }
        ensures extent { self.new.extent ≡ self.old.extent }
        ensures skews { self.new.skews ≡ self.old.skews }
        ensures rows { self.new.rows ≡ self.old.rows }
        ensures alive { self.new.alive ≡ self.old.alive }
    {
        self.moments.put(x.seq, x.time);
        let is_edge = spans.is_beyond(x.side.other(), x.time);
        self.edges = self.edges.more_at(x.side, is_edge);
    }

    /// Takes the copy that makes a pair of a frame that came by the other side alone, first at this time.
    fn join(&mut self, x: Arrival, first: u64, spans: &Spans)
        ensures numbers { self.new.numbers ≡ self.old.numbers }
        ensures moments { self.new.moments.times.items ≡ self.old.moments.times.items }
        ensures edges { self.new.edges ≡ less_at self.old.edges (other_side x.side)
            (is_beyond spans.now x.side first) }
        ensures extent { self.new.extent ≡ self.old.extent }
        ensures skews { self.new.skews
            ≡ skews_with (skew_by x.side x.time first) self.old.skews }
        ensures rows { self.new.rows ≡ self.old.rows }
        ensures alive { self.new.alive ≡ self.old.alive }
    {
        let was_edge = spans.is_beyond(x.side, first);
        self.edges = self.edges.less_at(x.side.other(), was_edge);
        self.skews.note(skew_by(x.side, x.time, first));
    }

    /// Takes a copy of a frame of which copies came before by some sides, if any first at this time.
    fn pair(&mut self, x: Arrival, came: Came, first: u64, spans: &Spans)
        ensures numbers { self.new.numbers ≡ self.old.numbers }
        ensures moments { self.new.moments.times.items
            ≡ moments_with x came self.old.moments.times.items }
        ensures edges { self.new.edges
            ≡ edges_with spans.now x.side x.time came first self.old.edges }
        ensures extent { self.new.extent ≡ self.old.extent }
        ensures skews { self.new.skews ≡ skews_taken x.side x.time came first self.old.skews }
        ensures rows { self.new.rows ≡ self.old.rows }
        ensures alive { self.new.alive ≡ self.old.alive }
    {
        if !came.is_some() {
            self.open(x, spans);
        } else if !came.by(x.side) {
            self.join(x, first, spans);
        }
    }

    /// Takes the numbers that an arrival leaves behind to their rows.
    fn pass(&mut self, x: Arrival, spans: &Spans)
        ensures rows { self.new.rows ≡ rows_passed spans.now x self.old.numbers
            self.old.moments.times.items self.old.rows }
        ensures numbers { self.new.numbers ≡ self.old.numbers }
        ensures moments { self.new.moments.times.items ≡ self.old.moments.times.items }
        ensures edges { self.new.edges ≡ self.old.edges }
        ensures extent { self.new.extent ≡ self.old.extent }
        ensures skews { self.new.skews ≡ self.old.skews }
        ensures alive { self.new.alive ≡ self.old.alive }
    {
        let rows = match &self.numbers {
            Some(numbers) => match numbers.step(x) {
                Step::On(Distance::Ahead(steps)) => {
                    rows_over(numbers, &self.moments, spans, self.rows, steps)
                }
                Step::On(Distance::Behind(_)) => self.rows,
                Step::First | Step::Restart | Step::Jump => self.rows.begun(),
            },
            None => self.rows.begun(),
        };
        self.rows = rows;
    }

    /// Takes the next arrival of the source.
    pub fn note(&mut self, x: Arrival, spans: &Spans)
        ensures taken { TakesArrival spans.now x self.old self.new }
        ensures alive { self.new.alive ≡ self.old.alive }
    {
        let first = self.moments.at(x.seq);
        self.pass(x, spans);
        let look = self.look(x);
        self.extent.note(x.side, look);
        self.pair(x, look.came, first, spans);
    }

    /// Takes a supervision frame for this address.
    pub(crate) fn hear(&mut self, kind: u8, side: Side, time: u64)
        ensures taken { KeepsTaken self.old self.new }
        ensures heard { HearsSign (sign_of kind side time) self.old self.new }
    {
        let mut alive = Alive::before(self.alive, kind);
        alive.note(kind, side, time);
        self.alive = Some(alive);
    }

    /// How many copies and frames came.
    fn tally(&self) -> Tally
        ensures tally { (spans : Spans) (xs : List Arrival) → HasTaken spans xs self.now
            → result ≡ tally_of (stretches xs) }
        ensures shown { result ≡ tally_in self.now.numbers }
    {
        match &self.numbers {
            Some(numbers) => numbers.tally(),
            None => Tally::NONE,
        }
    }

    /// The figures of all arrivals.
    pub fn figures(&self) -> Figures
        ensures tally { (spans : Spans) (xs : List Arrival) → HasTaken spans xs self.now
            → result.tally ≡ tally_of (stretches xs) }
        ensures edges { (spans : Spans) (xs : List Arrival) → HasTaken spans xs self.now
            → result.edges ≡ edges_of spans (stretches xs) }
        ensures neither { (spans : Spans) (xs : List Arrival) → length xs ≤ exact_arrivals
            → HasTaken spans xs self.now → result.neither ≡ sum_by neither_of (stretches xs) }
        ensures order { (spans : Spans) (xs : List Arrival) → length xs ≤ exact_arrivals
            → HasTaken spans xs self.now → result.order ≡ at_sides order (stretches xs) }
        ensures jumps { (spans : Spans) (xs : List Arrival) → length xs ≤ exact_arrivals
            → HasTaken spans xs self.now → result.jumps ≡ jumps_of xs }
        ensures restarts { (spans : Spans) (xs : List Arrival) → length xs ≤ exact_arrivals
            → HasTaken spans xs self.now → result.restarts ≡ restarts_of xs }
        ensures skews { (spans : Spans) (xs : List Arrival) → length xs ≤ exact_arrivals
            → HasTaken spans xs self.now → result.skews ≡ skews_shown (skews_of (stretches xs)) }
        ensures shown { result ≡ figures_of self.now }
    {
        let tally = self.tally();
        Figures {
            tally,
            edges: self.edges,
            neither: self.extent.lengths.saturating_sub(frames_in(tally)),
            order: self.extent.order,
            jumps: self.extent.jumps,
            restarts: self.extent.restarts,
            skews: self.skews,
        }
    }

    /// The supervision frames for this address. None: none came.
    pub fn alive(&self) -> Option<Alive>
        ensures alive { (signs : List Sign) → length signs < 2 ^ 64 → HasHeard signs self.now
            → result ≡ alive_of signs }
        ensures shown { result ≡ self.now.alive }
    {
        self.alive
    }

    /// The rows of frames that came by one side alone, to the end of the last stretch.
    fn rows(&self, spans: &Spans) -> Rows
        ensures { result ≡ rows_before spans.now self.now.numbers self.now.moments.times.items
            self.now.rows }
    {
        match &self.numbers {
            Some(numbers) => rows_over(numbers, &self.moments, spans, self.rows, KEPT_NUMBERS),
            None => self.rows,
        }
    }

    /// The frames at the end of the last stretch that came by one side alone, where they are at least 3. None: the source is heard by both
    /// sides, or by neither.
    pub fn sided(&self, spans: &Spans) -> Option<Row>
        ensures { (xs : List Arrival) → HasTaken spans.now xs self.now
            → result ≡ shown_row (row_of spans.now (current (stretches xs))) }
    {
        shown_row(self.rows(spans).at_end)
    }

    /// The most frames in a row that came by one side alone before a frame came by both again, or by the other side alone, where they are
    /// at least 3; of rows of as many the first. None: there was none. Of a stretch before the last one its last 1024 numbers are in no row.
    pub fn was_sided(&self, spans: &Spans) -> Option<Row>
        ensures { (xs : List Arrival) → HasTaken spans.now xs self.now
            → result ≡ shown_row (closed_of spans.now (stretches xs)) }
    {
        shown_row(self.rows(spans).closed)
    }

    /// How many frames of the last stretch came by one side alone so far, the first copy less than 400 ms before a mark up to which all
    /// arrivals came: the other copy may still come in time. Of numbers 1024 or more below the greatest one no copy is waited for.
    pub fn waits(&self, mark: u64) -> Sides
        ensures { (spans : Spans) (xs : List Arrival) → HasTaken spans xs self.now
            → result ≡ waits_of mark (current (stretches xs)) }
    {
        match &self.numbers {
            Some(numbers) => waits_over(numbers, &self.moments, mark, KEPT_NUMBERS),
            None => Sides::NONE,
        }
    }
}
