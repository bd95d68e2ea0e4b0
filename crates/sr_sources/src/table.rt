//! The sources of a network.

ghost use Rattle.std.specs.Prelude.{◌≡◌};
ghost use Rattle.sr_sources.specs.Kinds.{later_than};

use crate::kinds::last_in;
use crate::source::{Event, Source};
use sr_frame::{Mac, NoMemory};
use sr_prp_trailer::Lan;
use sr_slots::{Iter, Keys, Slots};
use std::alloc::Global;

/// How many sources are kept (choice of this project).
pub const MAX_SOURCES: usize = 1024;

/// The sources of a network, in the order in which they were first told of. What is told of one beyond the 1024th is counted.
#[derive(Drop)]
pub struct Sources {
    sources: Slots<Source>,
    left_out: u64,
}

/// The later of two times.
fn later_than(time: u64, other: Option<u64>) -> u64
    ensures { result ≡ later_than time other }
{
    match other {
        Some(other) => time.max(other),
        None => time,
    }
}

impl Sources {
    ghost use Rattle.std.specs.Prelude.{◌≡◌, ◌≤◌, List, [], ◌∷◌, length, true, false, is_some, IfOk, IfSome, IfNone, OnOk, OnErr};
    ghost use Rattle.std.specs.List.{IsDistinct};
    ghost use Rattle.std.specs.Map.{lookup, keys_of};
    ghost use Rattle.std.specs.Option.{option_copied};
    ghost use Rattle.sr_frame.specs.Addresses.{mac_eq};
    ghost use Rattle.sr_sources.specs.Kinds.{end_at};
    ghost use Rattle.sr_sources.specs.Limits.{most_sources};
    ghost use Rattle.sr_sources.specs.Sources.{source_with, Noted, AreSourcesOf, passed_over, IsPassedOver};

    /// Nothing was told. Takes no memory. The keys choose the places of addresses.
    pub fn new(alloc: Global, keys: Keys) -> Sources
        ensures sources { AreSourcesOf [] result.sources.entries }
        ensures left_out { IsPassedOver result.sources.entries [] result.left_out }
        ensures few { length result.sources.entries ≤ most_sources }
    {
        Sources {
            sources: Slots::with_keys(alloc, keys),
            left_out: 0,
        }
    }

    /// Makes an entry for an address, unless it has one. False: there are 1024.
    fn make_entry(&mut self, mac: Mac) -> Result<bool, NoMemory>
        ensures sources { (xs : List Noted) → AreSourcesOf xs self.old.sources.entries
            → AreSourcesOf xs self.new.sources.entries }
        ensures made { IfOk result (λ made.
            made ≡ is_some (lookup (mac_eq mac) self.new.sources.entries)) }
        ensures full { IfOk result (λ made.
            made ≡ false → most_sources ≤ length self.new.sources.entries) }
        ensures known { (xs : List Noted) → AreSourcesOf xs self.old.sources.entries
            → passed_over self.new.sources.entries xs
            ≡ passed_over self.old.sources.entries xs }
        ensures left_out { self.new.left_out ≡ self.old.left_out }
        ensures few { length self.old.sources.entries ≤ most_sources
            → length self.new.sources.entries ≤ most_sources }
    {
        if self.sources.get(mac).is_some() {
            return Ok(true);
        }
        if self.sources.len() >= MAX_SOURCES {
            return Ok(false);
        }
        self.sources.append(mac, Source::new())?;
        Ok(true)
    }

    /// Adds what is told of a source to its entry. None: it has no entry.
    fn take_at(&mut self, mac: Mac, event: Event) -> Option<()>
        ensures found { is_some result ≡ is_some (lookup (mac_eq mac) self.old.sources.entries) }
        ensures taken { IfSome result (λ _. (xs : List Noted)
            → AreSourcesOf xs self.old.sources.entries
            → AreSourcesOf ((mac, event) ∷ xs) self.new.sources.entries) }
        ensures none { IfNone result (self.new.sources ≡ self.old.sources) }
        ensures known { (xs : List Noted) → passed_over self.new.sources.entries xs
            ≡ passed_over self.old.sources.entries xs }
        ensures own { IfSome result (λ _.
            is_some (lookup (mac_eq mac) self.new.sources.entries) ≡ true) }
        ensures left_out { self.new.left_out ≡ self.old.left_out }
        ensures len { length self.new.sources.entries ≡ length self.old.sources.entries }
    {
        self.sources.update_at(
            None,
            mac,
            |source: &mut Source| -> ()
                ensures taken { source.new ≡ source_with event source.old }
            { *source = source.with(event) },
        )?;
        Some(())
    }

    /// Takes what is told next of a source that has an entry.
    fn note_known(&mut self, mac: Mac, event: Event)
        requires { is_some (lookup (mac_eq mac) self.old.sources.entries) ≡ true }
        ensures taken { (xs : List Noted) → AreSourcesOf xs self.old.sources.entries
            → AreSourcesOf ((mac, event) ∷ xs) self.new.sources.entries }
        ensures known { (xs : List Noted) → passed_over self.new.sources.entries xs
            ≡ passed_over self.old.sources.entries xs }
        ensures own { is_some (lookup (mac_eq mac) self.new.sources.entries) ≡ true }
        ensures left_out { self.new.left_out ≡ self.old.left_out }
        ensures len { length self.new.sources.entries ≡ length self.old.sources.entries }
    {
        self.take_at(mac, event).unwrap()
    }

    /// Takes what is told next of a source.
    ///
    /// # Errors
    /// `NoMemory` where an allocation failed: nothing was taken.
    pub fn note(&mut self, mac: Mac, event: Event) -> Result<(), NoMemory>
        ensures taken { OnOk result ((xs : List Noted)
            → AreSourcesOf xs self.old.sources.entries
            → AreSourcesOf ((mac, event) ∷ xs) self.new.sources.entries) }
        ensures same { OnErr result ((xs : List Noted)
            → AreSourcesOf xs self.old.sources.entries
            → AreSourcesOf xs self.new.sources.entries) }
        ensures left_out { OnOk result ((xs : List Noted)
            → AreSourcesOf xs self.old.sources.entries
            → IsPassedOver self.old.sources.entries xs self.old.left_out
            → IsPassedOver self.new.sources.entries ((mac, event) ∷ xs) self.new.left_out) }
        ensures left_same { OnErr result ((xs : List Noted)
            → AreSourcesOf xs self.old.sources.entries
            → IsPassedOver self.old.sources.entries xs self.old.left_out
            → IsPassedOver self.new.sources.entries xs self.new.left_out) }
        ensures few { length self.old.sources.entries ≤ most_sources
            → length self.new.sources.entries ≤ most_sources }
    {
        if self.take_at(mac, event).is_some() {
            return Ok(());
        }
        if self.make_entry(mac)? {
            self.note_known(mac, event);
            Ok(())
        } else {
            self.left_out = self.left_out.saturating_add(1);
            Ok(())
        }
    }

    /// The sources, in the order in which they were first told of.
    pub fn sources(&self) -> Iter<'_, Source>
        ensures { result ≡ self.now.sources.entries }
    {
        self.sources.iter()
    }

    /// What is known of the source of an address.
    pub fn find(&self, mac: Mac) -> Option<&Source>
        ensures { option_copied result ≡ lookup (mac_eq mac) self.now.sources.entries }
    {
        self.sources.get(mac)
    }

    /// How many sources there are.
    pub fn len(&self) -> usize
        ensures len { result ≡ length self.now.sources.entries }
        ensures unique { IsDistinct mac_eq (keys_of self.now.sources.entries) }
    {
        self.sources.len()
    }

    /// How much was told of sources beyond the 1024th. The count stays at 2^64 - 1.
    pub fn left_out(&self) -> u64
        ensures { result ≡ self.now.left_out }
    {
        self.left_out
    }

    /// When the last frame of all came in a LAN, and 0 where none did.
    pub fn end_at(&self, lan: Lan) -> u64
        ensures { result ≡ end_at lan self.now.sources.entries }
    {
        let mut end = 0;
        for (_, source) in self.sources() {
            end = later_than(end, last_in(lan, source));
        }
        end
    }
}
