//! What is kept of a source.

ghost use Rattle.std.specs.Prelude.{◌≡◌};
ghost use Rattle.sr_audit.specs.Counting.{more_at};
ghost use Rattle.sr_audit.specs.Faults.{last_class};
ghost use Rattle.sr_watch.specs.Tracking.{nothing_waits};
ghost use Rattle.sr_watch.specs.Alarms.{oldest_with, since_if, lan_lost, is_silent, is_skewed, is_lossy};

use crate::alarm::{
    Alarm, RaisedSince, SourceAlarm, alarm_between, is_lossy, is_silent, is_skewed, lan_lost,
    raised_with, since_if,
};
use crate::counts::{Changes, Counts, Spread};
use crate::report::{Lasts, SourceLine};
use crate::settings::Settings;
use sr_audit::{Arrival, Side, Sides, Skews, Source, Span, Spans};
use sr_frame::{Mac, NoMemory};
use sr_slots::Ranked;
use std::alloc::Global;

/// All the time.
const ALL_TIME: Span = Span {
    first: 0,
    last: 18_446_744_073_709_551_615,
};

/// Both captures run all the time: what comes while the other one does not run is not noted.
const ALWAYS: Spans = Spans {
    a: Some(ALL_TIME),
    b: Some(ALL_TIME),
};

/// What is kept of a source: what an audit keeps, and what was told of it.
#[derive(Drop)]
pub(crate) struct Tracked {
    pub source: Source,
    /// Pairs whose copy by a LAN came 400 ms or more behind that by the other.
    pub late: Sides,
    /// The skews of the pairs since the last line.
    pub spread: Option<Spread>,
    /// When its first copy came.
    pub first: Option<u64>,
    pub last: Lasts,
    /// When its last copy came.
    pub newest: u64,
    /// Nothing came since the last line, and no frame waited then.
    pub is_settled: bool,
    /// What lines have told.
    pub told: Counts,
    /// What the last line told.
    pub shown: Changes,
    /// The skews of which it told.
    pub shown_spread: Option<Spread>,
    /// Up to when it told.
    pub shown_at: u64,
    pub raised: RaisedSince,
}

impl Ranked for Tracked {
    ghost use Rattle.sr_watch.specs.Ranks.{rank_in};

    ghost rank_of = { rank_in };

    fn rank(&self) -> u64 {
        if self.is_settled {
            self.newest
        } else {
            u64::MAX
        }
    }
}

/// How many skews are 400 ms or more.
fn over(skews: &Skews) -> u64
    ensures { result ≡ last_class skews.now.classes }
{
    let [_, _, _, _, _, _, over] = skews.classes;
    over
}

/// The counts of late copies with one more by a LAN, where it came late.
fn late_with(late: Sides, side: Side, is_late: bool) -> Sides
    ensures { result ≡ more_at late side is_late }
{
    Sides {
        a: late.a.saturating_add(u64::from(side == Side::A && is_late)),
        b: late.b.saturating_add(u64::from(side == Side::B && is_late)),
    }
}

/// The spread of some skews and those that came between two looks, of which there is at most one.
fn spread_with(spread: Option<Spread>, before: &Skews, after: &Skews) -> Option<Spread> {
    if after.count == before.count {
        return spread;
    }
    let skew = after.sum.saturating_sub(before.sum);
    match spread {
        Some(spread) => Some(Spread {
            least: spread.least.min(skew),
            greatest: spread.greatest.max(skew),
        }),
        None => Some(Spread {
            least: skew,
            greatest: skew,
        }),
    }
}

/// When the first copy of a source came, where another one comes.
fn oldest_with(time: u64, first: Option<u64>) -> Option<u64>
    ensures { result ≡ oldest_with time first }
{
    match first {
        Some(first) => Some(first),
        None => Some(time),
    }
}

/// Whether no frame waits.
fn nothing_waits(waiting: Sides) -> bool
    ensures { result ≡ nothing_waits waiting }
{
    waiting.a == 0 && waiting.b == 0
}

impl Lasts {
    ghost use Rattle.sr_watch.specs.Counted.{lasts_with};

    /// No copy came.
    pub(crate) const NONE: Lasts = Lasts { a: None, b: None };

    /// With a copy that came by a LAN at a time.
    fn with(self, side: Side, time: u64) -> Lasts
        ensures { result ≡ lasts_with side time self }
    {
        match side {
            Side::A => Lasts {
                a: Some(time),
                ..self
            },
            Side::B => Lasts {
                b: Some(time),
                ..self
            },
        }
    }
}

impl Tracked {
    ghost use Rattle.std.specs.Prelude.{◌≡◌, ◌≤◌, ℕ, List, [], length, IfOk};
    ghost use Rattle.sr_audit.specs.declared.arrival.Arrival.{Arrival};
    ghost use Rattle.sr_audit.specs.Limits.{exact_arrivals};
    ghost use Rattle.sr_audit.specs.Stretches.{stretches, current};
    ghost use Rattle.sr_audit.specs.Waiting.{waits_of};
    ghost use Rattle.sr_watch.specs.Counted.{counted_of};
    ghost use Rattle.sr_watch.specs.Tracking.{Watched, Tracks, NotesArrival, TellsLine, ChecksAlarm};

    /// A source of which nothing came.
    pub fn new(alloc: Global) -> Result<Tracked, NoMemory>
        ensures { IfOk result (Watched [] []) }
    {
        Ok(Tracked {
            source: Source::new(alloc)?,
            late: Sides::NONE,
            spread: None,
            first: None,
            last: Lasts::NONE,
            newest: 0,
            is_settled: false,
            told: Counts::NONE,
            shown: Changes::NONE,
            shown_spread: None,
            shown_at: 0,
            raised: RaisedSince::NONE,
        })
    }

    /// Takes the next arrival.
    pub fn note(&mut self, x: Arrival)
        ensures { NotesArrival x self.old self.new }
    {
        let before = self.source.figures().skews;
        self.source.note(x, &ALWAYS);
        let after = self.source.figures().skews;
        self.late = late_with(self.late, x.side, over(&before) < over(&after));
        self.spread = spread_with(self.spread, &before, &after);
        self.first = oldest_with(x.time, self.first);
        self.last = self.last.with(x.side, x.time);
        self.newest = x.time;
        self.is_settled = false;
    }

    /// All that was counted, where so many frames wait at a mark.
    fn counts(&self, waits: Sides) -> Counts
        ensures { (mark : ℕ) (xs : List Arrival) → length xs ≤ exact_arrivals → Tracks xs self.now
            → waits ≡ waits_of mark (current (stretches xs)) → result ≡ counted_of mark xs }
    {
        Counts::of(self.source.figures(), self.late, waits)
    }

    /// What no line told, up to a mark.
    pub fn tell(&mut self, source: Mac, mark: u64) -> SourceLine
        ensures told { TellsLine mark self.old self.new result }
        ensures source { result.source ≡ source }
    {
        let waiting = self.source.waits(mark);
        let total = self.counts(waiting);
        let interval = total.since(&self.told);
        let spread = self.spread;
        self.told = total;
        self.is_settled = nothing_waits(waiting);
        self.spread = None;
        self.shown = interval;
        self.shown_spread = spread;
        self.shown_at = mark;
        SourceLine {
            source,
            interval,
            spread,
            total,
            waiting,
            last: self.last,
        }
    }

    /// Since when an alarm holds, at a mark. None: it does not.
    fn holds(&self, alarm: SourceAlarm, mark: u64, settings: &Settings) -> Option<u64>
        ensures lan_lost_a { alarm ≡ SourceAlarm.LanLostA → result
            ≡ lan_lost settings.now.alone_for self.now.first self.now.last.a self.now.last.b }
        ensures lan_lost_b { alarm ≡ SourceAlarm.LanLostB → result
            ≡ lan_lost settings.now.alone_for self.now.first self.now.last.b self.now.last.a }
        ensures silent { alarm ≡ SourceAlarm.Silent → result
            ≡ is_silent settings.now.silent_for mark self.now.last }
        ensures skew { alarm ≡ SourceAlarm.Skew → result
            ≡ since_if (is_skewed settings.now.skew_over self.now.shown_spread) self.now.shown_at }
        ensures lost_a { alarm ≡ SourceAlarm.LostA → result
            ≡ since_if (is_lossy settings.now.lost_over self.now.shown.lost.a self.now.shown)
            self.now.shown_at }
        ensures lost_b { alarm ≡ SourceAlarm.LostB → result
            ≡ since_if (is_lossy settings.now.lost_over self.now.shown.lost.b self.now.shown)
            self.now.shown_at }
    {
        let (a, b) = (self.last.a, self.last.b);
        match alarm {
            SourceAlarm::LanLostA => lan_lost(settings.alone_for, self.first, a, b),
            SourceAlarm::LanLostB => lan_lost(settings.alone_for, self.first, b, a),
            SourceAlarm::Silent => is_silent(settings.silent_for, mark, self.last),
            SourceAlarm::Skew => since_if(
                is_skewed(settings.skew_over, self.shown_spread),
                self.shown_at,
            ),
            SourceAlarm::LostA => since_if(
                is_lossy(settings.lost_over, self.shown.lost.a, &self.shown),
                self.shown_at,
            ),
            SourceAlarm::LostB => since_if(
                is_lossy(settings.lost_over, self.shown.lost.b, &self.shown),
                self.shown_at,
            ),
        }
    }

    /// Whether an alarm is raised or cleared since the last check.
    pub fn check(&mut self, alarm: SourceAlarm, mark: u64, settings: &Settings) -> Option<Alarm>
        ensures { ChecksAlarm alarm mark settings.now self.old self.new result }
    {
        let holds = self.holds(alarm, mark, settings);
        let raised = self.raised.at(alarm);
        self.raised = self.raised.with(alarm, raised_with(raised, holds));
        alarm_between(raised, holds)
    }
}
