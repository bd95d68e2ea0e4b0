//! Frames and copies that are listed one by one, as it is decided what became of them.

use crate::arrival::Arrival;
use crate::audit::MAX_SOURCES;
use crate::pending::Pending;
use crate::places::append;
use crate::span::Spans;
use sr_frame::{Mac, NoMemory};
use sr_sequence::Seq;
use sr_slots::{Keys, Slots};
use std::alloc::Global;
use std::mem;

/// What is listed.
#[derive(Clone, Copy, Debug, PartialEq, Eq)]
pub enum Listed {
    /// A frame came by one side alone, while the capture of the other side ran.
    Lost(Copied),
    /// A frame came by both sides: its first copy at side A, and when the first one came at side B.
    Pair(Copied, u64),
    /// No frame had a number of a source; when a greater one, or a lesser one, first came.
    Neither(Mac, Seq, u64),
}

/// A copy of a frame.
#[derive(Clone, Copy, Debug, PartialEq, Eq)]
pub struct Copied {
    /// Its source.
    pub src: Mac,
    /// How it came in.
    pub arrival: Arrival,
    /// The number of its packet in the capture.
    pub packet: u64,
}

/// How many sources are listed at once: 17 KiB are kept of each, and all that an audit keeps is 16 MiB at most.
pub const LISTED_AT_ONCE: usize = 512;

/// Lists frames as it is decided what became of them: of at most 512 sources at a time, each with the last 1024 numbers of its stretch.
/// Of 1024 sources, those from one on by the order of first hearing.
#[derive(Drop)]
pub struct Listing {
    alloc: Global,
    sources: Slots<Pending>,
    first: usize,
    spans: Spans,
}

impl Listing {
    ghost use Rattle.std.specs.Prelude.{◌≡◌, ◌+◌, ◌-◌, ◌^◌, ◌<◌, ◌≤◌, List, [], ◌∷◌, length, true, false, is_some, IfOk, IfSome, OnOk};
    ghost use Rattle.std.specs.Map.{lookup, keys_of};
    ghost use Rattle.sr_frame.specs.declared.fields.Mac.{Mac};
    ghost use Rattle.sr_frame.specs.Addresses.{mac_eq};
    ghost use Rattle.sr_audit.specs.declared.listing.Copied.{Copied};
    ghost use Rattle.sr_audit.specs.Limits.{most_audited};
    ghost use Rattle.sr_audit.specs.Pendings.{NotesNext, EndsListing, arrivals_from, is_listed_at, heard_with, KeepsSources, ListsCopy, ListsLast, ChangesAtMost, LeavesNothing, NotesAt, EndsSource};

    /// No arrival came. The spans of the captures are known, and which source is the first that is listed.
    pub fn new(alloc: Global, keys: Keys, spans: Spans, first: usize) -> Listing
        ensures lists { KeepsSources first [] result.sources.entries }
        ensures none { result.sources.entries ≡ [] }
        ensures spans { result.spans ≡ spans }
        ensures first { result.first ≡ first }
    {
        Listing {
            alloc,
            sources: Slots::with_keys(alloc, keys),
            first,
            spans,
        }
    }

    /// Whether the source that so many were heard before is listed.
    fn lists(&self, rank: usize) -> bool
        ensures { result ≡ is_listed_at self.now.first rank }
    {
        self.first <= rank && rank - self.first < LISTED_AT_ONCE
    }

    /// Makes an entry for a source, unless it has one. False: 1024 sources have one.
    fn make_entry(&mut self, src: Mac) -> Result<bool, NoMemory>
        ensures made { IfOk result (λ made.
            made ≡ is_some (lookup (mac_eq src) self.new.sources.entries)) }
        ensures lists { (xs : List Copied)
            → KeepsSources self.old.first xs self.old.sources.entries
            → KeepsSources self.old.first xs self.new.sources.entries }
        ensures full { IfOk result (λ made. made ≡ false
            → most_audited ≤ length self.new.sources.entries) }
        ensures order { OnOk result (keys_of self.new.sources.entries
            ≡ heard_with src (keys_of self.old.sources.entries)) }
        ensures others { (m : Mac) → mac_eq m src ≡ false
            → lookup (mac_eq m) self.new.sources.entries
            ≡ lookup (mac_eq m) self.old.sources.entries }
        ensures known { is_some (lookup (mac_eq src) self.old.sources.entries) ≡ true
            → self.new.sources.entries ≡ self.old.sources.entries }
        ensures few { length self.old.sources.entries ≤ most_audited
            → length self.new.sources.entries ≤ most_audited }
        ensures spans { self.new.spans ≡ self.old.spans }
        ensures first { self.new.first ≡ self.old.first }
    {
        if self.sources.get(src).is_some() {
            return Ok(true);
        }
        let rank = self.sources.len();
        if rank >= MAX_SOURCES {
            return Ok(false);
        }
        let pending = Pending::new(self.alloc, self.lists(rank));
        self.sources.append(src, pending)?;
        Ok(true)
    }

    /// Has what is pending of a source take its next arrival.
    fn note_known(&mut self, x: Copied, list: &mut Vec<Listed>) -> Result<(), NoMemory>
        requires { is_some (lookup (mac_eq x.src) self.old.sources.entries) ≡ true }
        ensures changed { OnOk result (NotesAt self.old.spans x self.old.sources.entries
            self.new.sources.entries list.old.items list.new.items) }
        ensures others { ChangesAtMost x.src self.old.sources.entries self.new.sources.entries }
        ensures spans { self.new.spans ≡ self.old.spans }
        ensures first { self.new.first ≡ self.old.first }
    {
        let spans = self.spans;
        let mut decided = mem::replace(list, Vec::new(self.alloc));
        let (noted, decided) = self
            .sources
            .update_at(
                None,
                x.src,
                move |pending: &mut Pending| -> (Result<(), NoMemory>, Vec<Listed>)
                    ensures noted { OnOk result.0 (NotesNext spans x pending.old pending.new
                        decided.items result.1.items) }
                    ensures same { pending.new.is_listed ≡ pending.old.is_listed }
                {
                    let noted = pending.note(x, &spans, &mut decided);
                    (noted, decided)
                },
            )
            .unwrap();
        *list = decided;
        noted
    }

    /// Takes the next arrival, and appends what is decided by it. A source that is not listed is passed over.
    ///
    /// # Errors
    /// `NoMemory` where an allocation failed.
    pub fn note(&mut self, x: Copied, list: &mut Vec<Listed>) -> Result<(), NoMemory>
        ensures lists { OnOk result ((xs : List Copied) → length xs + 1 < 2 ^ 64
            → KeepsSources self.old.first xs self.old.sources.entries
            → KeepsSources self.old.first (x ∷ xs) self.new.sources.entries) }
        ensures listed { OnOk result ((xs : List Copied)
            → KeepsSources self.old.first xs self.old.sources.entries
            → ListsCopy self.old.spans (arrivals_from x.src xs) x
            (lookup (mac_eq x.src) self.old.sources.entries)
            (lookup (mac_eq x.src) self.new.sources.entries) list.old.items list.new.items) }
        ensures order { OnOk result (keys_of self.new.sources.entries
            ≡ heard_with x.src (keys_of self.old.sources.entries)) }
        ensures others { (m : Mac) → mac_eq m x.src ≡ false
            → lookup (mac_eq m) self.new.sources.entries
            ≡ lookup (mac_eq m) self.old.sources.entries }
        ensures few { length self.old.sources.entries ≤ most_audited
            → length self.new.sources.entries ≤ most_audited }
        ensures spans { self.new.spans ≡ self.old.spans }
        ensures first { self.new.first ≡ self.old.first }
    {
        if self.make_entry(x.src)? {
            self.note_known(x, list)
        } else {
            Ok(())
        }
    }

    /// The sources in the order of first hearing.
    ///
    /// # Errors
    /// `NoMemory` where the allocation failed.
    pub fn addresses(&self) -> Result<Vec<Mac>, NoMemory>
        ensures { IfOk result (λ addresses.
            addresses.items ≡ keys_of self.now.sources.entries) }
    {
        let mut addresses = Vec::with_capacity(self.alloc, self.sources.len())?;
        for (src, _) in self.sources.iter() {
            append(&mut addresses, src)?;
        }
        Ok(addresses)
    }

    /// Lists all that waits of a source.
    fn finish_known(&mut self, src: Mac, list: &mut Vec<Listed>) -> Result<(), NoMemory>
        requires { is_some (lookup (mac_eq src) self.old.sources.entries) ≡ true }
        ensures ended { OnOk result (EndsSource self.old.spans src self.old.sources.entries
            self.new.sources.entries list.old.items list.new.items) }
        ensures others { ChangesAtMost src self.old.sources.entries self.new.sources.entries }
        ensures spans { self.new.spans ≡ self.old.spans }
        ensures first { self.new.first ≡ self.old.first }
    {
        let spans = self.spans;
        let mut decided = mem::replace(list, Vec::new(self.alloc));
        let (ended, decided) = self
            .sources
            .update_at(
                None,
                src,
                move |pending: &mut Pending| -> (Result<(), NoMemory>, Vec<Listed>)
                    ensures ended { OnOk result.0 (EndsListing spans src pending.old pending.new
                        decided.items result.1.items) }
                    ensures same { pending.new.is_listed ≡ pending.old.is_listed }
                {
                    let ended = pending.end(src, &spans, &mut decided);
                    (ended, decided)
                },
            )
            .unwrap();
        *list = decided;
        ended
    }

    /// Appends what is decided at the end of a source's arrivals.
    ///
    /// # Errors
    /// `NoMemory` where an allocation failed.
    pub fn finish(&mut self, src: Mac, list: &mut Vec<Listed>) -> Result<(), NoMemory>
        ensures listed { OnOk result ((xs : List Copied)
            → KeepsSources self.old.first xs self.old.sources.entries
            → ListsLast self.old.spans src (arrivals_from src xs)
            (lookup (mac_eq src) self.old.sources.entries) list.old.items list.new.items) }
        ensures settled { OnOk result ((xs : List Copied)
            → KeepsSources self.old.first xs self.old.sources.entries
            → IfSome (lookup (mac_eq src) self.new.sources.entries)
            (λ p. LeavesNothing (arrivals_from src xs) p)) }
        ensures others { ChangesAtMost src self.old.sources.entries self.new.sources.entries }
        ensures spans { self.new.spans ≡ self.old.spans }
        ensures first { self.new.first ≡ self.old.first }
    {
        if self.sources.get(src).is_none() {
            return Ok(());
        }
        self.finish_known(src, list)
    }
}
