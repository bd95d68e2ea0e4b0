//! What two captures tell while they grow.

ghost use Rattle.std.specs.Prelude.{◌≡◌};
ghost use Rattle.std.specs.Option.{option_map};
ghost use Rattle.sr_watch.specs.Following.{floor_if, next_as};

use crate::alarm::{Alarm, LanAlarm, SourceAlarm, alarm_between, raised_with, since_if};
use crate::counts::Forgotten;
use crate::lan::{Lans, Phase, last_or, recorder_of, side_of};
use crate::report::{Header, LanCounts, SourceLine};
use crate::settings::Settings;
use crate::table::Table;
use sr_audit::{Arrival, Side};
use sr_frame::{Mac, NoMemory};
use sr_hold::{Hold, Refused, Released};
use sr_sequence::Seq;
use sr_slots::Keys;
use std::alloc::Global;
use thiserror::Error;

/// For how long a source is silent until it is forgotten, in nanoseconds: an hour (choice of this project).
const FORGET_TIME: u64 = 3_600_000_000_000;

/// For how long the other copy of a frame is waited for, in nanoseconds, as of an audit.
const COPY_TIME: u64 = 400_000_000;

/// Up to when no frame is waited for, where both captures have ended or not.
fn floor_if(over: bool, mark: u64, floor: u64) -> u64
    ensures { result ≡ floor_if over mark floor }
{
    if over {
        floor.max(mark.saturating_add(COPY_TIME))
    } else {
        floor
    }
}

/// A numbered copy of a frame, as a reader takes it out of a packet.
#[derive(Clone, Copy, Debug, PartialEq, Eq)]
pub struct Numbered {
    /// The source of the frame.
    pub src: Mac,
    /// The number that the source gave the frame.
    pub seq: Seq,
}

/// Why a copy was not taken.
#[derive(Clone, Copy, Debug, PartialEq, Eq, Error)]
pub enum CameFault {
    /// As many copies of the LAN wait as may: its reader is to wait too, until `advance` has taken some.
    #[error("as many copies wait as may")]
    Full,
    /// An allocation failed.
    #[error("an allocation failed")]
    NoMemory,
}

/// An arrival that was released, and its source.
#[derive(Clone, Copy, Debug, PartialEq, Eq)]
pub(crate) struct Next {
    pub src: Mac,
    pub arrival: Arrival,
}

/// What is released, as an arrival of its source at its moment.
fn next_as(released: Released<Numbered>) -> Next
    ensures { result ≡ next_as released }
{
    Next {
        src: released.item.src,
        arrival: Arrival {
            side: side_of(released.recorder),
            seq: released.item.seq,
            time: released.moment,
        },
    }
}

/// That, if something is released.
fn next_from(released: Option<Released<Numbered>>) -> Option<Next>
    ensures { result ≡ option_map next_as released }
{
    match released {
        Some(released) => Some(next_as(released)),
        None => None,
    }
}

impl From<Refused<Numbered>> for CameFault {
    fn from(refused: Refused<Numbered>) -> CameFault {
        match refused {
            Refused::Full(_) => CameFault::Full,
            Refused::AllocFailed(_) => CameFault::NoMemory,
        }
    }
}

/// What two captures tell while they grow.
///
/// Of each packet its reader calls `came` or `heard`; `silent` tells that nothing more had come, `begun` and `ended` that a capture begins
/// or is over. `advance` takes what can be told, and is called behind these. A report is `header`, and `tell` of each of `sources`.
/// Real time is that of a clock that never goes back, in nanoseconds from whatever moment on; capture time is that of the packets.
#[derive(Drop)]
pub struct Watch {
    hold: Hold<Numbered>,
    /// What was released and is not noted, since an allocation failed.
    next: Option<Next>,
    table: Table,
    lans: Lans,
    /// Up to here no frame is waited for, in nanoseconds of capture time.
    floor: u64,
    settings: Settings,
}

impl Watch {
    ghost use Rattle.std.specs.Prelude.{◌≡◌, ℕ, ◌-◌, ◌≤◌, ◌^◌, ◌<◌, List, [], ◌∷◌, length, true, false, None, is_some, IfOk, IfSome, IfNone, OnOk, OnErr, IfErr};
    ghost use Rattle.std.specs.Map.{lookup, keys_of};
    ghost use Rattle.sr_frame.specs.Addresses.{mac_eq};
    ghost use Rattle.sr_audit.specs.Audits.{Sent};
    ghost use Rattle.sr_hold.specs.Holding.{next_of};
    ghost use Rattle.sr_hold.specs.Turns.{Turn, came, heard, silent, ended, begins};
    ghost use Rattle.sr_watch.specs.declared.report.SourceLine.{SourceLine};
    ghost use Rattle.sr_watch.specs.declared.watch.Numbered.{Numbered};
    ghost use Rattle.sr_watch.specs.Running.{recorder_of, has_ended, lan_begun, lan_ended, lan_heard, at_clock, lans_with, lans_with_copy};
    ghost use Rattle.sr_watch.specs.Following.{Act, told, forgot, FollowsTurns, TakesTurn, OnlyReleases, ChecksLan, KeepsSettings, IsNewWatch, turn_of, left_in, floor_if, told_up_to, lan_counts_of, report_head};
    ghost use Rattle.sr_watch.specs.Forgetting.{forgotten_from, left_from};
    ghost use Rattle.sr_watch.specs.Limits.{silent_hour};
    ghost use Rattle.sr_watch.specs.Watching.{is_tabled, TellsSource, ChecksOf};

    /// Nothing came, and neither capture runs.
    pub fn new(alloc: Global, keys: Keys, settings: Settings, now: u64) -> Watch
        ensures follows { FollowsTurns settings.slack now [] [] result }
        ensures new { IsNewWatch settings result }
    {
        Watch {
            hold: Hold::new(alloc, settings.slack, now),
            next: None,
            table: Table::new(alloc, keys),
            lans: Lans::AWAITED,
            floor: 0,
            settings,
        }
    }

    /// Takes a numbered copy of a capture, of this capture time, which was read at this real time.
    ///
    /// # Errors
    /// `Full` where as many copies of the LAN wait as may, `NoMemory` where an allocation failed: nothing changed.
    pub fn came(&mut self, side: Side, time: u64, now: u64, copy: Numbered) -> Result<(), CameFault>
        ensures ok { OnOk result (TakesTurn (turn_of side time now copy self.old)
            self.old self.new) }
        ensures lans { OnOk result (self.new.lans
            ≡ lans_with_copy side time now self.old.lans) }
        ensures keeps { KeepsSettings self.old self.new }
        ensures err { OnErr result (self.new ≡ self.old) }
    {
        if self.lans.are_watching(now) {
            self.hold.came(recorder_of(side), time, now, copy)?;
            self.lans = self
                .lans
                .with(side, self.lans.at(side).heard(time, now))
                .at_time(now);
        } else {
            self.hold.heard(recorder_of(side), time, now);
            let lan = self.lans.at(side).heard(time, now).passed();
            self.lans = self.lans.with(side, lan).at_time(now);
        }
        Ok(())
    }

    /// Another packet of a capture, of this capture time, was read at this real time.
    pub fn heard(&mut self, side: Side, time: u64, now: u64)
        ensures turn { TakesTurn (heard (recorder_of side) time now) self.old self.new }
        ensures lans { self.new.lans
            ≡ at_clock now (lans_with side (lan_heard time now) self.old.lans) }
        ensures keeps { KeepsSettings self.old self.new }
    {
        self.hold.heard(recorder_of(side), time, now);
        self.lans = self
            .lans
            .with(side, self.lans.at(side).heard(time, now))
            .at_time(now);
    }

    /// All that had come of a capture by this real time was told.
    pub fn silent(&mut self, side: Side, now: u64)
        ensures turn { TakesTurn (silent (recorder_of side) now) self.old self.new }
        ensures lans { self.new.lans ≡ at_clock now self.old.lans }
        ensures keeps { KeepsSettings self.old self.new }
    {
        self.hold.silent(recorder_of(side), now);
        self.lans = self.lans.at_time(now);
    }

    /// A capture begins at this real time, for the first time or once more: its file header was read.
    pub fn begun(&mut self, side: Side, now: u64)
        ensures turn { TakesTurn (begins (recorder_of side) now) self.old self.new }
        ensures lans { self.new.lans
            ≡ at_clock now (lans_with side (lan_begun now) self.old.lans) }
        ensures keeps { KeepsSettings self.old self.new }
    {
        self.hold.begun(recorder_of(side), now);
        self.lans = self
            .lans
            .with(side, self.lans.at(side).begun(now))
            .at_time(now);
    }

    /// A capture has ended.
    pub fn ended(&mut self, side: Side)
        ensures turn { TakesTurn (ended (recorder_of side)) self.old self.new }
        ensures lans { self.new.lans ≡ lans_with side lan_ended self.old.lans }
        ensures floor { self.new.floor ≡ floor_if (has_ended self.new.lans)
            self.new.hold.progress.mark.time self.old.floor }
        ensures settings { self.new.settings ≡ self.old.settings }
    {
        self.hold.ended(recorder_of(side));
        self.lans = self.lans.with(side, self.lans.at(side).ended());
        self.floor = floor_if(self.lans.have_ended(), self.hold.mark(), self.floor);
    }

    /// Releases the next arrival, unless one waits for memory.
    fn draw(&mut self)
        ensures goes { OnlyReleases self.old self.new }
        ensures over { self.new.next ≡ None → next_of self.new.hold ≡ None }
        ensures left { left_in self.new ≤ left_in self.old }
    {
        if self.next.is_none() {
            self.next = next_from(self.hold.release());
        }
    }

    /// Notes the next arrival. False: there is none.
    fn step(&mut self) -> Result<bool, NoMemory>
        ensures goes { OnlyReleases self.old self.new }
        ensures next { IfOk result (λ _. self.new.next ≡ None) }
        ensures over { IfOk result (λ more. more ≡ false → next_of self.new.hold ≡ None) }
        ensures left { IfOk result (λ more. more ≡ true → left_in self.new < left_in self.old) }
    {
        self.draw();
        match self.next {
            Some(next) => {
                self.table.note(next.src, next.arrival)?;
                self.next = None;
                Ok(true)
            }
            None => Ok(false),
        }
    }

    /// Takes all copies up to the mark to their sources.
    ///
    /// # Errors
    /// `NoMemory` where an allocation failed: the next copy was not taken yet, and a later call begins with it.
    pub fn advance(&mut self) -> Result<(), NoMemory>
        ensures goes { OnlyReleases self.old self.new }
        ensures next { OnOk result (self.new.next ≡ None) }
        ensures over { OnOk result (next_of self.new.hold ≡ None) }
    {
        loop {
            if !self.step()? {
                return Ok(());
            }
        }
    }

    /// Up to when all is told, in nanoseconds of capture time.
    fn mark(&self) -> u64
        ensures { result ≡ told_up_to self.now }
    {
        self.floor.max(self.hold.mark())
    }

    /// What stands in a report of the capture of a LAN.
    fn lan_counts(&self, side: Side) -> LanCounts
        ensures { result ≡ lan_counts_of side self.now }
    {
        let lan = self.lans.at(side);
        let recorder = recorder_of(side);
        LanCounts {
            is_running: lan.phase == Phase::Running,
            last: lan.last,
            unwatched: lan.unwatched,
            behind: self.hold.behind(recorder),
            held: self.hold.waiting(recorder) as u64,
        }
    }

    /// What stands at the head of a report.
    pub fn header(&self) -> Header
        ensures { result ≡ report_head self.now }
    {
        Header {
            mark: self.hold.mark(),
            a: self.lan_counts(Side::A),
            b: self.lan_counts(Side::B),
            sources: self.table.len() as u64,
            forgotten: self.table.forgotten().sources,
            left_out: self.table.left_out(),
        }
    }

    /// The sources that have a line, in the order of first hearing.
    ///
    /// # Errors
    /// `NoMemory` where the allocation failed.
    pub fn sources(&self) -> Result<Vec<Mac>, NoMemory>
        ensures { IfOk result (λ sources.
            sources.items ≡ keys_of self.now.table.sources.entries) }
    {
        self.table.addresses()
    }

    /// What no line has told of a source, and all since the start. None: it has no line.
    pub fn tell(&mut self, source: Mac) -> Option<SourceLine>
        ensures found { is_some result
            ≡ is_some (lookup (mac_eq source) self.old.table.sources.entries) }
        ensures told { IfSome result (λ line. TellsSource (told_up_to self.old) source
            self.old.table.sources.entries self.new.table.sources.entries line) }
        ensures follows { IfSome result (λ line. (slack start : ℕ) (turns : List (Turn Numbered))
            (acts : List Act) → FollowsTurns slack start turns acts self.old
            → FollowsTurns slack start turns (told line ∷ acts) self.new) }
        ensures forgotten { self.new.table.forgotten ≡ self.old.table.forgotten }
        ensures keeps { KeepsSettings self.old self.new }
        ensures lans { self.new.lans ≡ self.old.lans }
        ensures none { IfNone result (self.new ≡ self.old) }
    {
        let mark = self.mark();
        let line = self.table.tell(source, mark)?;
        Some(line)
    }

    /// Forgets the sources of which no copy came for an hour before the mark, and of which a line has told all. Their counts go to those
    /// that were forgotten; one that comes back begins anew.
    pub fn forget(&mut self)
        ensures entries { self.new.table.sources.entries
            ≡ left_from (self.old.hold.progress.mark.time - silent_hour)
            self.old.table.sources.entries }
        ensures forgotten { self.new.table.forgotten
            ≡ forgotten_from (self.old.hold.progress.mark.time - silent_hour)
            self.old.table.sources.entries self.old.table.forgotten }
        ensures hold { self.new.hold ≡ self.old.hold }
        ensures keeps { KeepsSettings self.old self.new }
        ensures lans { self.new.lans ≡ self.old.lans }
        ensures follows { (slack start : ℕ) (turns : List (Turn Numbered)) (acts : List Act)
            → FollowsTurns slack start turns acts self.old
            → FollowsTurns slack start turns
            (forgot (is_tabled self.new.table.sources.entries) ∷ acts) self.new }
    {
        self.table
            .forget(self.hold.mark().saturating_sub(FORGET_TIME));
    }

    /// What was counted of the sources that were forgotten.
    pub fn forgotten(&self) -> Forgotten
        ensures { result ≡ self.now.table.forgotten }
    {
        self.table.forgotten()
    }

    /// Whether an alarm of a source is raised or cleared since the last check. Those of an interval are by the last line of the source.
    pub fn check_source(&mut self, source: Mac, alarm: SourceAlarm) -> Option<Alarm>
        ensures checks { is_some (lookup (mac_eq source) self.old.table.sources.entries) ≡ true
            → ChecksOf alarm self.old.hold.progress.mark.time self.old.settings source
            self.old.table.sources.entries self.new.table.sources.entries result }
        ensures none { is_some (lookup (mac_eq source) self.old.table.sources.entries) ≡ false
            → result ≡ None }
        ensures keeps { KeepsSettings self.old self.new }
        ensures lans { self.new.lans ≡ self.old.lans }
        ensures follows { (slack start : ℕ) (turns : List (Turn Numbered)) (acts : List Act)
            → FollowsTurns slack start turns acts self.old
            → FollowsTurns slack start turns acts self.new }
    {
        let mark = self.hold.mark();
        self.table.check(source, alarm, mark, self.settings)
    }

    /// Whether an alarm of a capture is raised or cleared since the last check.
    pub fn check_lan(&mut self, side: Side, alarm: LanAlarm) -> Option<Alarm>
        ensures checks { ChecksLan side alarm self.old self.new result }
        ensures keeps { KeepsSettings self.old self.new }
    {
        let lan = self.lans.at(side);
        let recorder = recorder_of(side);
        let behind = self.hold.behind(recorder);
        let held = self.hold.waiting(recorder);
        let since = last_or(self.hold.mark(), lan.last);
        let alone_for = self.settings.alone_for;
        let holds = since_if(
            lan.holds(alarm, alone_for, self.lans.clock, behind, held),
            since,
        );
        let raised = lan.raised.at(alarm);
        let lan = lan.checked(alarm, raised_with(raised, holds), behind);
        self.lans = self.lans.with(side, lan);
        alarm_between(raised, holds)
    }
}
