//! What is pending of the numbers of a source.

ghost use Rattle.std.specs.Prelude.{◌≡◌, ◌++◌, OnOk};
ghost use Rattle.sr_audit.specs.Listings.{fate_by, listed_if_lost};

use crate::arrival::Arrival;
use crate::listing::{Copied, Listed};
use crate::look::{Look, Step};
use crate::numbers::{KEPT_NUMBERS, Numbers};
use crate::places::{append, item_at, place_of, put_at, steps_before, steps_behind};
use crate::row::kept_number;
use crate::side::Side;
use crate::span::Spans;
use crate::tally::Came;
use sr_frame::{Mac, NoMemory};
use sr_sequence::{Distance, Seq};
use sr_slots::Ranked;
use std::alloc::Global;

/// What became of a number so far.
#[derive(Clone, Copy, Debug, PartialEq, Eq)]
enum Fate {
    /// It is decided, or the stretch has not reached it.
    Settled,
    /// A greater number came, and no copy.
    PassedOver,
    /// Copies came by side A alone.
    ByA,
    /// Copies came by side B alone.
    ByB,
}

/// What became of a frame whose first copy came by a side.
fn fate_by(side: Side) -> Fate
    ensures { result ≡ fate_by side }
{
    match side {
        Side::A => Fate::ByA,
        Side::B => Fate::ByB,
    }
}

/// What is kept of a source.
#[derive(Drop)]
pub(crate) struct Pending {
    numbers: Option<Numbers>,
    /// Whether its frames are listed.
    is_listed: bool,
    /// How many numbers below the greatest the stretch has, up to 1023.
    reach: u16,
    /// What became of each of the last 1024 numbers of the stretch, by the number modulo 1024.
    fates: Vec<Fate>,
    /// When the first copy came, or the number was passed over.
    times: Vec<u64>,
    /// The packet of the first copy.
    packets: Vec<u64>,
}

impl Ranked for Pending {
    ghost rank_of = { λ s. 0 };

    // No source goes.
    fn rank(&self) -> u64 {
        0
    }
}

/// Lists a frame that came by one side alone, if it came while the capture of the other side ran.
fn list_lost(copy: Copied, spans: &Spans, list: &mut Vec<Listed>) -> Result<(), NoMemory>
    ensures { OnOk result (list.new.items ≡ list.old.items ++ listed_if_lost spans.now copy) }
{
    let arrival = copy.arrival;
    if spans.is_beyond(arrival.side.other(), arrival.time) {
        return Ok(());
    }
    append(list, Listed::Lost(copy))
}

impl Pending {
    ghost use Rattle.std.specs.Prelude.{◌≡◌, ◌++◌, [], ◌∷◌, ◌+◌, ◌-◌, ◌^◌, ◌<◌, ◌⊎◌, ℕ, List, length, None, true, false, min, max, OnOk};
    ghost use Rattle.sr_audit.specs.declared.arrival.Arrival.{Arrival};
    ghost use Rattle.sr_audit.specs.Looks.{look_at};
    ghost use Rattle.sr_audit.specs.Stretches.{stretches};
    ghost use Rattle.sr_audit.specs.Taken.{IsKeptIn};
    ghost use Rattle.sr_audit.specs.Limits.{kept_numbers};
    ghost use Rattle.sr_audit.specs.Listings.{fate_kept, time_kept, copy_kept, listed_of, paired_as, left_behind, greatest_in, ListsDecided, IsStepWithin, GoesOver, KeepsPlaces, ListsArrival, ListsEnd, ListsWaiting, PassesOver, PutsFate, SettlesNumber, StaysAs, TakesCopy, IsKeptAs, MovesTo, PassesAhead, SettlesAll};
    ghost use Rattle.sr_audit.specs.Pendings.{EndsListing, NotesNext};

    /// A source of which nothing came.
    pub fn new(alloc: Global, is_listed: bool) -> Pending
        ensures listed { result.is_listed ≡ is_listed }
        ensures numbers { result.numbers ≡ None }
        ensures fates { result.fates.items ≡ [] }
        ensures reach { result.reach ≡ 0 }
    {
        Pending {
            numbers: None,
            is_listed,
            reach: 0,
            fates: Vec::new(alloc),
            times: Vec::new(alloc),
            packets: Vec::new(alloc),
        }
    }

    /// Makes room for 1024 numbers.
    fn make_room(&mut self) -> Result<(), NoMemory>
        ensures kept { KeepsPlaces self.old → self.new ≡ self.old }
        ensures numbers { self.new.numbers ≡ self.old.numbers }
        ensures listed { self.new.is_listed ≡ self.old.is_listed }
        ensures room { OnOk result ((self.old.fates.items ≡ []) ⊎ KeepsPlaces self.old
            → KeepsPlaces self.new) }
        ensures same { OnOk result ((seq : ℕ) → IsKeptAs self.old self.new seq) }
        ensures reach { self.new.reach ≡ self.old.reach }
    {
        if self.fates.is_empty() {
            self.times.resize(usize::from(KEPT_NUMBERS), 0)?;
            self.packets.resize(usize::from(KEPT_NUMBERS), 0)?;
            self.fates.resize(usize::from(KEPT_NUMBERS), Fate::Settled)?;
        }
        Ok(())
    }

    /// Writes down what became of a number so far.
    fn put(&mut self, seq: Seq, fate: Fate, time: u64, packet: u64)
        ensures { PutsFate seq.0 fate time packet self.old self.new }
    {
        let at = place_of(seq);
        put_at(&mut self.fates, at, fate);
        put_at(&mut self.times, at, time);
        put_at(&mut self.packets, at, packet);
    }

    /// What became of a number so far. Its place is then settled.
    fn take(&mut self, seq: Seq) -> Fate
        ensures fate { result ≡ fate_kept self.old seq.0 }
        ensures settled { SettlesNumber seq.0 self.old self.new }
    {
        let at = place_of(seq);
        let fate = item_at(self.fates.as_slice(), at, Fate::Settled);
        put_at(&mut self.fates, at, Fate::Settled);
        fate
    }

    /// When the first copy of a number came, or the number was passed over.
    fn time_kept(&self, seq: Seq) -> u64
        ensures { result ≡ time_kept self.now seq.0 }
    {
        item_at(self.times.as_slice(), place_of(seq), 0)
    }

    /// The first copy of a number, which came by this side.
    fn copy_at(&self, src: Mac, seq: Seq, side: Side) -> Copied
        ensures { result ≡ copy_kept self.now src seq side }
    {
        let time = self.time_kept(seq);
        Copied {
            src,
            arrival: Arrival { side, seq, time },
            packet: item_at(self.packets.as_slice(), place_of(seq), 0),
        }
    }

    /// Lists what became of a number of which no further copy counts.
    fn settle(
        &mut self,
        src: Mac,
        seq: Seq,
        spans: &Spans,
        list: &mut Vec<Listed>,
    ) -> Result<(), NoMemory>
        ensures listed { OnOk result (list.new.items
            ≡ list.old.items ++ listed_of spans.now self.old src seq) }
        ensures settled { SettlesNumber seq.0 self.old self.new }
    {
        match self.take(seq) {
            Fate::Settled => Ok(()),
            Fate::PassedOver => {
                let time = self.time_kept(seq);
                append(list, Listed::Neither(src, seq, time))
            }
            Fate::ByA => list_lost(self.copy_at(src, seq, Side::A), spans, list),
            Fate::ByB => list_lost(self.copy_at(src, seq, Side::B), spans, list),
        }
    }

    /// Lists all that waits of a stretch with that greatest number, from the least number on.
    fn end_stretch(
        &mut self,
        src: Mac,
        greatest: Seq,
        spans: &Spans,
        list: &mut Vec<Listed>,
    ) -> Result<(), NoMemory>
        ensures listed { OnOk result (ListsWaiting spans.now self.old src greatest.0
            list.old.items list.new.items) }
        ensures settled { OnOk result (KeepsPlaces self.old → SettlesAll self.new) }
        ensures numbers { self.new.numbers ≡ self.old.numbers }
        ensures stays { StaysAs self.old self.new }
    {
        for steps in 0..KEPT_NUMBERS {
            self.settle(src, kept_number(greatest, steps), spans, list)?;
        }
        self.reach = 0;
        Ok(())
    }

    /// Lists all that waits, where something came.
    pub fn end(&mut self, src: Mac, spans: &Spans, list: &mut Vec<Listed>) -> Result<(), NoMemory>
        ensures listed { OnOk result ((xs : List Arrival) → IsKeptIn xs self.old.numbers
            → ListsEnd spans.now self.old src (stretches xs) list.old.items list.new.items) }
        ensures stays { StaysAs self.old self.new }
        ensures ends { OnOk result (EndsListing spans.now src self.old self.new
            list.old.items list.new.items) }
    {
        let Some(numbers) = &self.numbers else {
            return Ok(());
        };
        let greatest = numbers.greatest();
        self.end_stretch(src, greatest, spans, list)
    }

    /// Goes over a number on the way ahead, whose place is that of the number 1024 behind: that one is decided.
    fn go_over(
        &mut self,
        src: Mac,
        seq: Seq,
        time: u64,
        spans: &Spans,
        list: &mut Vec<Listed>,
    ) -> Result<(), NoMemory>
        ensures over { OnOk result (GoesOver spans.now src seq.0 time self.old self.new
            list.old.items list.new.items) }
        ensures numbers { self.new.numbers ≡ self.old.numbers }
        ensures stays { StaysAs self.old self.new }
    {
        self.settle(src, steps_before(seq, KEPT_NUMBERS), spans, list)?;
        self.put(seq, Fate::PassedOver, time, 0);
        Ok(())
    }

    /// Goes on to the number of an arrival, so many steps ahead. The places of all on the way are those of numbers 1024 behind.
    fn go_ahead(
        &mut self,
        x: Copied,
        steps: u16,
        spans: &Spans,
        list: &mut Vec<Listed>,
    ) -> Result<(), NoMemory>
        ensures listed { steps < kept_numbers → OnOk result (list.new.items ≡ list.old.items
            ++ left_behind spans.now self.old x.src x.arrival.seq.0 steps steps) }
        ensures passed { OnOk result (KeepsPlaces self.old → steps < kept_numbers
            → PassesAhead x.arrival.seq.0 x.arrival.time steps self.old self.new) }
        ensures reach { OnOk result (self.new.reach
            ≡ min (self.old.reach + steps) (kept_numbers - 1)) }
        ensures numbers { self.new.numbers ≡ self.old.numbers }
        ensures stays { StaysAs self.old self.new }
    {
        for left in 0..steps {
            let seq = steps_before(x.arrival.seq, steps.saturating_sub(left).saturating_sub(1));
            self.go_over(x.src, seq, x.arrival.time, spans, list)?;
        }
        self.reach = self.reach.saturating_add(steps).min(KEPT_NUMBERS - 1);
        Ok(())
    }

    /// Goes back to the number of an arrival, so many steps behind the greatest one: those on the way are passed over, if the stretch has
    /// not reached them.
    fn go_back(&mut self, x: Arrival, steps: u16)
        ensures passed { KeepsPlaces self.old → steps < kept_numbers
            → PassesOver x.seq.0 x.time self.old.reach steps self.old self.new }
        ensures reach { self.new.reach ≡ max self.old.reach steps }
        ensures numbers { self.new.numbers ≡ self.old.numbers }
        ensures stays { StaysAs self.old self.new }
    {
        for step in self.reach..steps {
            let behind = steps.saturating_sub(step).saturating_sub(1);
            self.put(steps_behind(x.seq, behind), Fate::PassedOver, x.time, 0);
        }
        self.reach = self.reach.max(steps);
    }

    /// Goes to the number of an arrival, in a stretch with that greatest number or behind it.
    fn step(
        &mut self,
        x: Copied,
        step: Step,
        greatest: Seq,
        spans: &Spans,
        list: &mut Vec<Listed>,
    ) -> Result<(), NoMemory>
        ensures decided { IsStepWithin step → OnOk result (ListsDecided spans.now self.old x
            greatest.0 step list.old.items list.new.items) }
        ensures moved { OnOk result (KeepsPlaces self.old
            → MovesTo step x.arrival self.old self.new) }
        ensures numbers { self.new.numbers ≡ self.old.numbers }
        ensures stays { StaysAs self.old self.new }
    {
        match step {
            Step::First => Ok(()),
            Step::Restart | Step::Jump => { self.end_stretch(x.src, greatest, spans, list) }
            Step::On(Distance::Ahead(steps)) => self.go_ahead(x, steps, spans, list),
            Step::On(Distance::Behind(steps)) => {
                self.go_back(x.arrival, steps);
                Ok(())
            }
        }
    }

    /// Takes a copy of a frame that came by the other side alone.
    fn join(&mut self, x: Copied, list: &mut Vec<Listed>) -> Result<(), NoMemory>
        ensures joined { OnOk result (list.new.items
            ≡ list.old.items ++ paired_as self.old x (fate_kept self.old x.arrival.seq.0)) }
        ensures settled { SettlesNumber x.arrival.seq.0 self.old self.new }
    {
        let pair = match self.take(x.arrival.seq) {
            Fate::ByB => Listed::Pair(x, self.time_kept(x.arrival.seq)),
            Fate::ByA => {
                let first = self.copy_at(x.src, x.arrival.seq, Side::A);
                Listed::Pair(first, x.arrival.time)
            }
            Fate::Settled | Fate::PassedOver => return Ok(()),
        };
        append(list, pair)
    }

    /// Takes a copy of a frame of which copies came before by some sides, and lists the pair that it makes.
    fn take_copy(&mut self, x: Copied, came: Came, list: &mut Vec<Listed>) -> Result<(), NoMemory>
        ensures taken { OnOk result (TakesCopy came x self.old self.new
            list.old.items list.new.items) }
        ensures numbers { self.new.numbers ≡ self.old.numbers }
        ensures stays { StaysAs self.old self.new }
    {
        let Arrival { side, seq, time } = x.arrival;
        if !came.is_some() {
            self.put(seq, fate_by(side), time, x.packet);
            Ok(())
        } else if !came.by(side) {
            self.join(x, list)
        } else {
            Ok(())
        }
    }

    /// The greatest number of the stretch, and what an arrival is to it. Its number is then taken.
    fn look(&mut self, x: Arrival) -> (Seq, Look)
        ensures taken { (xs : List Arrival) → length xs + 1 < 2 ^ 64
            → IsKeptIn xs self.old.numbers → IsKeptIn (x ∷ xs) self.new.numbers }
        ensures greatest { (xs : List Arrival) → IsKeptIn xs self.old.numbers
            → result.0.0 ≡ greatest_in (stretches xs) x.seq.0 }
        ensures look { (xs : List Arrival) → IsKeptIn xs self.old.numbers
            → result.1 ≡ look_at (stretches xs) x }
        ensures fates { self.new.fates.items ≡ self.old.fates.items }
        ensures times { self.new.times.items ≡ self.old.times.items }
        ensures packets { self.new.packets.items ≡ self.old.packets.items }
        ensures reach { self.new.reach ≡ self.old.reach }
        ensures listed { self.new.is_listed ≡ self.old.is_listed }
    {
        match self.numbers.as_mut() {
            Some(numbers) => {
                let greatest = numbers.greatest();
                (greatest, numbers.take(x))
            }
            None => {
                self.numbers = Some(Numbers::begin(x));
                (x.seq, Look::FIRST)
            }
        }
    }

    /// Takes the next arrival of the source, and lists what is decided.
    pub fn note(&mut self, x: Copied, spans: &Spans, list: &mut Vec<Listed>) -> Result<(), NoMemory>
        ensures taken { OnOk result ((xs : List Arrival) → length xs + 1 < 2 ^ 64
            → IsKeptIn xs self.old.numbers → self.old.is_listed ≡ true
            → IsKeptIn (x.arrival ∷ xs) self.new.numbers) }
        ensures listed { OnOk result ((xs : List Arrival) → IsKeptIn xs self.old.numbers
            → self.old.is_listed ≡ true
            → (self.old.fates.items ≡ []) ⊎ KeepsPlaces self.old
            → ListsArrival spans.now (stretches xs) x self.old self.new
            list.old.items list.new.items) }
        ensures passed { self.old.is_listed ≡ false
            → (self.new ≡ self.old) × (list.new.items ≡ list.old.items) }
        ensures same { self.new.is_listed ≡ self.old.is_listed }
        ensures room { OnOk result (self.old.is_listed ≡ true
            → (self.old.fates.items ≡ []) ⊎ KeepsPlaces self.old → KeepsPlaces self.new) }
        ensures next { OnOk result (NotesNext spans.now x self.old self.new
            list.old.items list.new.items) }
    {
        if !self.is_listed {
            return Ok(());
        }
        self.make_room()?;
        let (greatest, look) = self.look(x.arrival);
        self.step(x, look.step, greatest, spans, list)?;
        self.take_copy(x, look.came, list)
    }
}
