//! The figures of two captures.

use crate::arrival::Arrival;
use crate::side::Side;
use crate::source::Source;
use crate::span::Spans;
use sr_frame::{Mac, NoMemory};
use sr_slots::{Iter, Keys, Slots};
use std::alloc::Global;

/// How many sources have figures (choice of this project).
pub const MAX_SOURCES: usize = 1024;

/// The figures of two captures, source by source, in the order of first hearing. Arrivals of a source beyond the 1024th are counted.
#[derive(Drop)]
pub struct Audit {
    alloc: Global,
    sources: Slots<Source>,
    spans: Spans,
    left_out: u64,
}

impl Audit {
    ghost use Rattle.std.specs.Prelude.{◌≡◌, ◌+◌, ◌^◌, ◌<◌, ◌≤◌, List, [], ◌∷◌, length, true, false, is_some, IfOk, IfSome, IfNone, OnOk, OnErr};
    ghost use Rattle.std.specs.List.{IsDistinct};
    ghost use Rattle.std.specs.Map.{lookup, keys_of};
    ghost use Rattle.sr_frame.specs.declared.fields.Mac.{Mac};
    ghost use Rattle.sr_frame.specs.Addresses.{mac_eq};
    ghost use Rattle.sr_audit.specs.declared.arrival.Arrival.{Arrival};
    ghost use Rattle.sr_audit.specs.declared.span.Spans.{Spans};
    ghost use Rattle.sr_audit.specs.Taken.{TakesArrival, KeepsTaken};
    ghost use Rattle.sr_audit.specs.Audits.{Audits, Sent, left_out_of, IsLeftOut};
    ghost use Rattle.sr_audit.specs.Hearing.{Reported, sign_of, Hears, HearsSign};
    ghost use Rattle.sr_audit.specs.Limits.{most_audited};

    /// No arrival came. The spans of the captures are known.
    pub fn new(alloc: Global, keys: Keys, spans: Spans) -> Audit
        ensures audits { Audits spans [] result.sources.entries }
        ensures hears { Hears [] result.sources.entries }
        ensures spans { result.spans ≡ spans }
        ensures left_out { IsLeftOut result.sources.entries [] result.left_out }
        ensures few { length result.sources.entries ≤ most_audited }
    {
        Audit {
            alloc,
            sources: Slots::with_keys(alloc, keys),
            spans,
            left_out: 0,
        }
    }

    /// Makes an entry for an address, unless it has one. False: there are 1024.
    fn make_entry(&mut self, src: Mac) -> Result<bool, NoMemory>
        ensures audits { (spans : Spans) (xs : List Sent)
            → Audits spans xs self.old.sources.entries
            → Audits spans xs self.new.sources.entries }
        ensures hears { (signs : List Reported)
            → Hears signs self.old.sources.entries → Hears signs self.new.sources.entries }
        ensures made { IfOk result (λ made.
            made ≡ is_some (lookup (mac_eq src) self.new.sources.entries)) }
        ensures full { IfOk result (λ made.
            made ≡ false → most_audited ≤ length self.new.sources.entries) }
        ensures spans { self.new.spans ≡ self.old.spans }
        ensures known { (spans : Spans) (xs : List Sent)
            → Audits spans xs self.old.sources.entries
            → left_out_of self.new.sources.entries xs
            ≡ left_out_of self.old.sources.entries xs }
        ensures left_out { self.new.left_out ≡ self.old.left_out }
        ensures few { length self.old.sources.entries ≤ most_audited
            → length self.new.sources.entries ≤ most_audited }
    {
        if self.sources.get(src).is_some() {
            return Ok(true);
        }
        if self.sources.len() >= MAX_SOURCES {
            return Ok(false);
        }
        let source = Source::new(self.alloc)?;
        self.sources.append(src, source)?;
        Ok(true)
    }

    /// Has the entry of a source take its next arrival. None: it has no entry.
    fn take_at(&mut self, src: Mac, x: Arrival) -> Option<()>
        ensures found { is_some result ≡ is_some (lookup (mac_eq src) self.old.sources.entries) }
        ensures taken { IfSome result (λ _. (xs : List Sent)
            → length xs + 1 < 2 ^ 64 → Audits self.old.spans xs self.old.sources.entries
            → Audits self.old.spans ((src, x) ∷ xs) self.new.sources.entries) }
        ensures hears { IfSome result (λ _. (signs : List Reported)
            → Hears signs self.old.sources.entries → Hears signs self.new.sources.entries) }
        ensures spans { self.new.spans ≡ self.old.spans }
        ensures none { IfNone result (self.new.sources ≡ self.old.sources) }
        ensures known { (xs : List Sent) → left_out_of self.new.sources.entries xs
            ≡ left_out_of self.old.sources.entries xs }
        ensures own { IfSome result (λ _.
            is_some (lookup (mac_eq src) self.new.sources.entries) ≡ true) }
        ensures left_out { self.new.left_out ≡ self.old.left_out }
        ensures len { length self.new.sources.entries ≡ length self.old.sources.entries }
    {
        let spans = self.spans;
        self.sources.update_at(
            None,
            src,
            |source: &mut Source| -> ()
                ensures taken { TakesArrival spans x source.old source.new }
                ensures alive { source.new.alive ≡ source.old.alive }
            { source.note(x, &spans) },
        )?;
        Some(())
    }

    /// Takes the next arrival of a source that has an entry.
    fn note_known(&mut self, src: Mac, x: Arrival)
        requires { is_some (lookup (mac_eq src) self.old.sources.entries) ≡ true }
        ensures taken { (xs : List Sent) → length xs + 1 < 2 ^ 64
            → Audits self.old.spans xs self.old.sources.entries
            → Audits self.old.spans ((src, x) ∷ xs) self.new.sources.entries }
        ensures hears { (signs : List Reported)
            → Hears signs self.old.sources.entries → Hears signs self.new.sources.entries }
        ensures spans { self.new.spans ≡ self.old.spans }
        ensures known { (xs : List Sent) → left_out_of self.new.sources.entries xs
            ≡ left_out_of self.old.sources.entries xs }
        ensures own { is_some (lookup (mac_eq src) self.new.sources.entries) ≡ true }
        ensures left_out { self.new.left_out ≡ self.old.left_out }
        ensures len { length self.new.sources.entries ≡ length self.old.sources.entries }
    {
        self.take_at(src, x).unwrap()
    }

    /// Has the entry of an address take a supervision frame. None: it has no entry.
    fn hear_at(&mut self, mac: Mac, kind: u8, side: Side, time: u64) -> Option<()>
        ensures found { is_some result ≡ is_some (lookup (mac_eq mac) self.old.sources.entries) }
        ensures audits { (spans : Spans) (xs : List Sent)
            → Audits spans xs self.old.sources.entries
            → Audits spans xs self.new.sources.entries }
        ensures heard { IfSome result (λ _. (signs : List Reported)
            → Hears signs self.old.sources.entries
            → Hears ((mac, sign_of kind side time) ∷ signs) self.new.sources.entries) }
        ensures spans { self.new.spans ≡ self.old.spans }
        ensures known { (xs : List Sent) → left_out_of self.new.sources.entries xs
            ≡ left_out_of self.old.sources.entries xs }
        ensures left_out { self.new.left_out ≡ self.old.left_out }
        ensures len { length self.new.sources.entries ≡ length self.old.sources.entries }
    {
        self.sources.update_at(
            None,
            mac,
            |source: &mut Source| -> ()
                ensures taken { KeepsTaken source.old source.new }
                ensures heard { HearsSign (sign_of kind side time) source.old source.new }
            { source.hear(kind, side, time) },
        )?;
        Some(())
    }

    /// Has the entry of an address take a supervision frame.
    fn hear_known(&mut self, mac: Mac, kind: u8, side: Side, time: u64)
        requires { is_some (lookup (mac_eq mac) self.old.sources.entries) ≡ true }
        ensures audits { (spans : Spans) (xs : List Sent)
            → Audits spans xs self.old.sources.entries
            → Audits spans xs self.new.sources.entries }
        ensures heard { (signs : List Reported)
            → Hears signs self.old.sources.entries
            → Hears ((mac, sign_of kind side time) ∷ signs) self.new.sources.entries }
        ensures spans { self.new.spans ≡ self.old.spans }
        ensures known { (xs : List Sent) → left_out_of self.new.sources.entries xs
            ≡ left_out_of self.old.sources.entries xs }
        ensures left_out { self.new.left_out ≡ self.old.left_out }
        ensures len { length self.new.sources.entries ≡ length self.old.sources.entries }
    {
        self.hear_at(mac, kind, side, time).unwrap()
    }

    /// Takes the next arrival of a source.
    ///
    /// # Errors
    /// `NoMemory` where an allocation failed: no arrival was taken.
    pub fn note(&mut self, src: Mac, x: Arrival) -> Result<(), NoMemory>
        ensures taken { OnOk result ((xs : List Sent) → length xs + 1 < 2 ^ 64
            → Audits self.old.spans xs self.old.sources.entries
            → Audits self.old.spans ((src, x) ∷ xs) self.new.sources.entries) }
        ensures same { OnErr result ((spans : Spans) (xs : List Sent)
            → Audits spans xs self.old.sources.entries
            → Audits spans xs self.new.sources.entries) }
        ensures hears { (signs : List Reported)
            → Hears signs self.old.sources.entries → Hears signs self.new.sources.entries }
        ensures spans { self.new.spans ≡ self.old.spans }
        ensures left_out { OnOk result ((xs : List Sent)
            → Audits self.old.spans xs self.old.sources.entries
            → IsLeftOut self.old.sources.entries xs self.old.left_out
            → IsLeftOut self.new.sources.entries ((src, x) ∷ xs) self.new.left_out) }
        ensures left_same { OnErr result ((spans : Spans) (xs : List Sent)
            → Audits spans xs self.old.sources.entries
            → IsLeftOut self.old.sources.entries xs self.old.left_out
            → IsLeftOut self.new.sources.entries xs self.new.left_out) }
        ensures few { length self.old.sources.entries ≤ most_audited
            → length self.new.sources.entries ≤ most_audited }
    {
        if self.take_at(src, x).is_some() {
            return Ok(());
        }
        if self.make_entry(src)? {
            self.note_known(src, x);
            Ok(())
        } else {
            self.left_out = self.left_out.saturating_add(1);
            Ok(())
        }
    }

    /// Takes a supervision frame for an address. One for an address beyond the 1024th is passed over.
    ///
    /// # Errors
    /// `NoMemory` where an allocation failed: no supervision frame was taken.
    pub fn hear(&mut self, mac: Mac, kind: u8, side: Side, time: u64) -> Result<(), NoMemory>
        ensures audits { (spans : Spans) (xs : List Sent)
            → Audits spans xs self.old.sources.entries
            → Audits spans xs self.new.sources.entries }
        ensures heard { OnOk result ((signs : List Reported)
            → Hears signs self.old.sources.entries
            → Hears ((mac, sign_of kind side time) ∷ signs) self.new.sources.entries) }
        ensures same { OnErr result ((signs : List Reported)
            → Hears signs self.old.sources.entries → Hears signs self.new.sources.entries) }
        ensures spans { self.new.spans ≡ self.old.spans }
        ensures left_out { (spans : Spans) (xs : List Sent)
            → Audits spans xs self.old.sources.entries
            → IsLeftOut self.old.sources.entries xs self.old.left_out
            → IsLeftOut self.new.sources.entries xs self.new.left_out }
        ensures few { length self.old.sources.entries ≤ most_audited
            → length self.new.sources.entries ≤ most_audited }
    {
        if self.make_entry(mac)? {
            self.hear_known(mac, kind, side, time);
        }
        Ok(())
    }

    /// The sources in the order of first hearing.
    pub fn sources(&self) -> Iter<'_, Source>
        ensures { result ≡ self.now.sources.entries }
    {
        self.sources.iter()
    }

    /// How many sources there are.
    pub fn len(&self) -> usize
        ensures len { result ≡ length self.now.sources.entries }
        ensures unique { IsDistinct mac_eq (keys_of self.now.sources.entries) }
    {
        self.sources.len()
    }

    /// How many arrivals were of sources beyond the 1024th. The count stays at 2^64 - 1.
    pub fn left_out(&self) -> u64
        ensures { result ≡ self.now.left_out }
    {
        self.left_out
    }
}
