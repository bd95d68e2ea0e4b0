//! The sources of a watch.

ghost use Rattle.std.specs.Prelude.{◌≡◌, ◌++◌, ◌∷◌, [], OnOk};

use crate::alarm::{Alarm, SourceAlarm};
use crate::counts::Forgotten;
use crate::report::SourceLine;
use crate::settings::Settings;
use crate::tracked::Tracked;
use sr_audit::{Arrival, MAX_SOURCES};
use sr_frame::{Mac, NoMemory};
use sr_slots::{Keys, Ranked, Slots};
use std::alloc::{AllocError, Global};

/// The sources that have a line, in the order of first hearing. Arrivals of a source beyond the 1024th are counted.
#[derive(Drop)]
pub(crate) struct Table {
    alloc: Global,
    sources: Slots<Tracked>,
    left_out: u64,
    forgotten: Forgotten,
}

/// Appends an address.
fn append(list: &mut Vec<Mac>, src: Mac) -> Result<(), NoMemory>
    ensures { OnOk result (list.new.items ≡ list.old.items ++ src ∷ []) }
{
    match list.push(src) {
        Ok(()) => Ok(()),
        Err(refused) => Err(AllocError::from(refused).into()),
    }
}

impl Table {
    ghost use Rattle.std.specs.Prelude.{◌≡◌, ℕ, ◌+◌, ◌^◌, ◌<◌, ◌≤◌, List, [], ◌∷◌, length, filter, true, false, None, is_some, IfOk, IfSome, IfNone, OnOk, OnErr};
    ghost use Rattle.std.specs.List.{IsDistinct};
    ghost use Rattle.std.specs.Map.{lookup, keys_of};
    ghost use Rattle.sr_frame.specs.declared.fields.Mac.{Mac};
    ghost use Rattle.sr_frame.specs.Addresses.{mac_eq};
    ghost use Rattle.sr_audit.specs.Audits.{Sent};
    ghost use Rattle.sr_audit.specs.Limits.{most_audited};
    ghost use Rattle.sr_watch.specs.declared.report.SourceLine.{SourceLine};
    ghost use Rattle.sr_watch.specs.Forgetting.{none_forgotten, forgotten_from, left_from};
    ghost use Rattle.sr_watch.specs.Tracking.{NotesArrival, TellsLine, ChecksAlarm};
    ghost use Rattle.sr_watch.specs.Watching.{Watches, is_tabled, those_sent, lines_by, tabled_with, left_out_with, TellsSource, ChecksOf};

    /// No arrival came.
    pub fn new(alloc: Global, keys: Keys) -> Table
        ensures watches { Watches [] [] result.sources.entries }
        ensures left_out { result.left_out ≡ 0 }
        ensures tabled { keys_of result.sources.entries ≡ [] }
        ensures few { length result.sources.entries ≤ most_audited }
        ensures forgotten { result.forgotten ≡ none_forgotten }
    {
        Table {
            alloc,
            sources: Slots::with_keys(alloc, keys),
            left_out: 0,
            forgotten: Forgotten::NONE,
        }
    }

    /// Makes an entry for an address, unless it has one. False: there are 1024.
    fn make_entry(&mut self, src: Mac) -> Result<bool, NoMemory>
        ensures watches { (xs : List Sent) (lines : List SourceLine)
            → Watches xs lines self.old.sources.entries
            → Watches xs lines self.new.sources.entries }
        ensures made { IfOk result (λ made.
            made ≡ is_some (lookup (mac_eq src) self.new.sources.entries)) }
        ensures full { IfOk result (λ made.
            made ≡ false → most_audited ≤ length self.new.sources.entries) }
        ensures tabled { IfOk result (λ made. keys_of self.new.sources.entries
            ≡ tabled_with made src (keys_of self.old.sources.entries)) }
        ensures tabled_same { OnErr result (keys_of self.new.sources.entries
            ≡ keys_of self.old.sources.entries) }
        ensures left_out { self.new.left_out ≡ self.old.left_out }
        ensures few { length self.old.sources.entries ≤ most_audited
            → length self.new.sources.entries ≤ most_audited }
        ensures forgotten { self.new.forgotten ≡ self.old.forgotten }
    {
        if self.sources.get(src).is_some() {
            return Ok(true);
        }
        if self.sources.len() >= MAX_SOURCES {
            return Ok(false);
        }
        let source = Tracked::new(self.alloc)?;
        self.sources.append(src, source)?;
        Ok(true)
    }

    /// Has the entry of a source take its next arrival. None: it has no entry.
    fn take_at(&mut self, src: Mac, x: Arrival) -> Option<()>
        ensures found { is_some result ≡ is_some (lookup (mac_eq src) self.old.sources.entries) }
        ensures taken { IfSome result (λ _. (xs : List Sent) (lines : List SourceLine)
            → length xs + 1 < 2 ^ 64 → Watches xs lines self.old.sources.entries
            → Watches ((src, x) ∷ xs) lines self.new.sources.entries) }
        ensures none { IfNone result (self.new.sources ≡ self.old.sources) }
        ensures own { IfSome result (λ _.
            is_some (lookup (mac_eq src) self.new.sources.entries) ≡ true) }
        ensures tabled { keys_of self.new.sources.entries
            ≡ keys_of self.old.sources.entries }
        ensures left_out { self.new.left_out ≡ self.old.left_out }
        ensures len { length self.new.sources.entries ≡ length self.old.sources.entries }
        ensures forgotten { self.new.forgotten ≡ self.old.forgotten }
    {
        self.sources.update_at(
            None,
            src,
            |source: &mut Tracked| -> ()
                ensures { NotesArrival x source.old source.new }
            { source.note(x) },
        )?;
        Some(())
    }

    /// Takes the next arrival of a source that has an entry.
    fn note_known(&mut self, src: Mac, x: Arrival)
        requires { is_some (lookup (mac_eq src) self.old.sources.entries) ≡ true }
        ensures taken { (xs : List Sent) (lines : List SourceLine) → length xs + 1 < 2 ^ 64
            → Watches xs lines self.old.sources.entries
            → Watches ((src, x) ∷ xs) lines self.new.sources.entries }
        ensures own { is_some (lookup (mac_eq src) self.new.sources.entries) ≡ true }
        ensures tabled { keys_of self.new.sources.entries
            ≡ keys_of self.old.sources.entries }
        ensures left_out { self.new.left_out ≡ self.old.left_out }
        ensures len { length self.new.sources.entries ≡ length self.old.sources.entries }
        ensures forgotten { self.new.forgotten ≡ self.old.forgotten }
    {
        self.take_at(src, x).unwrap()
    }

    /// Takes the next arrival of a source.
    ///
    /// # Errors
    /// `NoMemory` where an allocation failed: no arrival was taken.
    pub fn note(&mut self, src: Mac, x: Arrival) -> Result<(), NoMemory>
        ensures taken { OnOk result (is_tabled self.new.sources.entries src ≡ true
            → (xs : List Sent) (lines : List SourceLine) → length xs + 1 < 2 ^ 64
            → Watches xs lines self.old.sources.entries
            → Watches ((src, x) ∷ xs) lines self.new.sources.entries) }
        ensures passed { OnOk result (is_tabled self.new.sources.entries src ≡ false
            → (xs : List Sent) (lines : List SourceLine)
            → Watches xs lines self.old.sources.entries
            → Watches xs lines self.new.sources.entries) }
        ensures full { OnOk result (is_tabled self.new.sources.entries src ≡ false
            → most_audited ≤ length self.new.sources.entries) }
        ensures tabled { OnOk result (keys_of self.new.sources.entries
            ≡ tabled_with (is_tabled self.new.sources.entries src) src
            (keys_of self.old.sources.entries)) }
        ensures tabled_same { OnErr result (keys_of self.new.sources.entries
            ≡ keys_of self.old.sources.entries) }
        ensures left_out { OnOk result (self.new.left_out
            ≡ left_out_with (is_tabled self.new.sources.entries src) self.old.left_out) }
        ensures same { OnErr result ((xs : List Sent) (lines : List SourceLine)
            → Watches xs lines self.old.sources.entries
            → Watches xs lines self.new.sources.entries) }
        ensures left_same { OnErr result (self.new.left_out ≡ self.old.left_out) }
        ensures few { length self.old.sources.entries ≤ most_audited
            → length self.new.sources.entries ≤ most_audited }
        ensures forgotten { self.new.forgotten ≡ self.old.forgotten }
    {
        if self.take_at(src, x).is_some() {
            return Ok(());
        }
        if self.make_entry(src)? {
            self.note_known(src, x);
            Ok(())
        } else {
            self.left_out = self.left_out.saturating_add(1);
            Ok(())
        }
    }

    /// What no line told of a source, up to a mark. None: it has no entry.
    pub fn tell(&mut self, src: Mac, mark: u64) -> Option<SourceLine>
        ensures found { is_some result ≡ is_some (lookup (mac_eq src) self.old.sources.entries) }
        ensures told { IfSome result (λ line. TellsSource mark src self.old.sources.entries
            self.new.sources.entries line) }
        ensures none { IfNone result (self.new.sources ≡ self.old.sources) }
        ensures tabled { keys_of self.new.sources.entries
            ≡ keys_of self.old.sources.entries }
        ensures left_out { self.new.left_out ≡ self.old.left_out }
        ensures len { length self.new.sources.entries ≡ length self.old.sources.entries }
        ensures forgotten { self.new.forgotten ≡ self.old.forgotten }
    {
        let line = self.sources.update_at(
            None,
            src,
            |source: &mut Tracked| -> SourceLine
                ensures told { TellsLine mark source.old source.new result }
                ensures source { result.source ≡ src }
            { source.tell(src, mark) },
        )?;
        Some(line)
    }

    /// Whether an alarm of a source is raised or cleared since the last check. None: it is not, or the source has no entry.
    pub fn check(
        &mut self,
        src: Mac,
        alarm: SourceAlarm,
        mark: u64,
        settings: Settings,
    ) -> Option<Alarm>
        ensures checks { is_some (lookup (mac_eq src) self.old.sources.entries) ≡ true
            → ChecksOf alarm mark settings src self.old.sources.entries
            self.new.sources.entries result }
        ensures none { is_some (lookup (mac_eq src) self.old.sources.entries) ≡ false
            → (result ≡ None) × (self.new.sources ≡ self.old.sources) }
        ensures watches { (xs : List Sent) (lines : List SourceLine)
            → Watches xs lines self.old.sources.entries
            → Watches xs lines self.new.sources.entries }
        ensures tabled { keys_of self.new.sources.entries
            ≡ keys_of self.old.sources.entries }
        ensures left_out { self.new.left_out ≡ self.old.left_out }
        ensures forgotten { self.new.forgotten ≡ self.old.forgotten }
    {
        let told = self.sources.update_at(
            None,
            src,
            |source: &mut Tracked| -> Option<Alarm>
                ensures { ChecksAlarm alarm mark settings source.old source.new result }
            { source.check(alarm, mark, &settings) },
        )?;
        told
    }

    /// What is forgotten with the sources whose rank is below a limit.
    fn forgotten_below(&self, limit: u64) -> Forgotten
        ensures { result ≡ forgotten_from limit self.now.sources.entries self.now.forgotten }
    {
        let mut forgotten = self.forgotten;
        for (_, source) in self.sources.iter() {
            if source.rank() < limit {
                forgotten = forgotten.with(&source.told);
            }
        }
        forgotten
    }

    /// Forgets the sources of which all was told, and whose last copy came before a time.
    pub fn forget(&mut self, limit: u64)
        ensures watches { (xs : List Sent) (lines : List SourceLine)
            → Watches xs lines self.old.sources.entries
            → Watches (those_sent (is_tabled self.new.sources.entries) xs)
            (lines_by (is_tabled self.new.sources.entries) lines) self.new.sources.entries }
        ensures entries { self.new.sources.entries ≡ left_from limit self.old.sources.entries }
        ensures forgotten { self.new.forgotten
            ≡ forgotten_from limit self.old.sources.entries self.old.forgotten }
        ensures tabled { keys_of self.new.sources.entries
            ≡ filter (is_tabled self.new.sources.entries) (keys_of self.old.sources.entries) }
        ensures left_out { self.new.left_out ≡ self.old.left_out }
    {
        // The length says that no address has two entries.
        let _sources = self.sources.len();
        self.forgotten = self.forgotten_below(limit);
        let _least = self.sources.sift(limit);
        // A place without a source is as large as one with a source.
        self.sources.sweep(1, MAX_SOURCES);
    }

    /// What was counted of the sources that were forgotten.
    pub fn forgotten(&self) -> Forgotten
        ensures { result ≡ self.now.forgotten }
    {
        self.forgotten
    }

    /// The sources that have an entry, in the order of first hearing.
    ///
    /// # Errors
    /// `NoMemory` where the allocation failed.
    pub fn addresses(&self) -> Result<Vec<Mac>, NoMemory>
        ensures { IfOk result (λ addresses.
            addresses.items ≡ keys_of self.now.sources.entries) }
    {
        let mut addresses = Vec::with_capacity(self.alloc, self.sources.len())?;
        for (src, _) in self.sources.iter() {
            append(&mut addresses, src)?;
        }
        Ok(addresses)
    }

    /// How many sources have an entry.
    pub fn len(&self) -> usize
        ensures len { result ≡ length self.now.sources.entries }
        ensures unique { IsDistinct mac_eq (keys_of self.now.sources.entries) }
    {
        self.sources.len()
    }

    /// How many arrivals were of sources without an entry. The count stays at 2^64 - 1.
    pub fn left_out(&self) -> u64
        ensures { result ≡ self.now.left_out }
    {
        self.left_out
    }
}
