//! Lost frames of a source, as rows of numbers and as stretches of time.

use crate::lists::append;
use sr_audit::{Copied, Listed};
use sr_capture_script::ScriptFault;
use sr_sequence::Seq;
use std::alloc::Global;

/// How many frames with numbers behind each other are a row (as `LEAST_SIDED` of `sr_audit`).
const LEAST_ROW: u64 = 3;

/// How many rows are kept of a source on a LAN.
const MOST_ROWS: usize = 8;

/// How many stretches of its other losses are kept.
const MOST_STRETCHES: usize = 4;

/// The shortest time without a loss between two stretches, in nanoseconds. It is doubled where there would be too many.
const GAP: u64 = 1_000_000_000;

/// Lost frames, from the first one to the last.
#[derive(Clone, Copy, Debug, PartialEq, Eq)]
pub struct Stretch {
    /// How many they are.
    pub frames: u64,
    /// When the copy of the first one came by the other LAN, in nanoseconds.
    pub since: u64,
    /// When that of the last one did.
    pub until: u64,
    /// The number of the first one.
    pub first: Seq,
    /// That of the last one.
    pub last: Seq,
    /// The packets of these copies. None: no copy came.
    pub packets: Option<Packets>,
}

/// The packets of the first and the last copy of a stretch.
#[derive(Clone, Copy, Debug, PartialEq, Eq)]
pub struct Packets {
    /// That of the first one.
    pub first: u64,
    /// That of the last one.
    pub last: u64,
}

/// The stretch of a single lost frame. None: it came by both LANs.
pub(crate) fn stretch_of(listed: Listed) -> Option<Stretch> {
    match listed {
        Listed::Pair(_, _) => None,
        Listed::Lost(
            Copied {
                arrival,
                packet,
                ..
            },
        ) => Some(Stretch {
            frames: 1,
            since: arrival.time,
            until: arrival.time,
            first: arrival.seq,
            last: arrival.seq,
            packets: Some(Packets {
                first: packet,
                last: packet,
            }),
        }),
        Listed::Neither(_, seq, time) => Some(Stretch {
            frames: 1,
            since: time,
            until: time,
            first: seq,
            last: seq,
            packets: None,
        }),
    }
}

/// The packets of two stretches.
fn packets_with(own: Option<Packets>, next: Option<Packets>) -> Option<Packets> {
    match (own, next) {
        (Some(own), Some(next)) => Some(Packets {
            first: own.first.min(next.first),
            last: own.last.max(next.last),
        }),
        (Some(packets), None) | (None, Some(packets)) => Some(packets),
        (None, None) => None,
    }
}

impl Stretch {
    /// Two stretches as one.
    fn with(self, next: Stretch) -> Stretch {
        Stretch {
            frames: self.frames.saturating_add(next.frames),
            since: self.since.min(next.since),
            until: self.until.max(next.until),
            first: self.first,
            last: next.last,
            packets: packets_with(self.packets, next.packets),
        }
    }

    /// Whether another one begins with the next number.
    fn goes_on_with(self, next: Stretch) -> bool {
        self.last.0.wrapping_add(1) == next.first.0
    }
}

/// The lost frames of a source on a LAN, or on both.
#[derive(Drop)]
pub struct Losses {
    open: Option<Stretch>,
    /// Rows of at least three frames with numbers behind each other, in the order of their ends.
    pub rows: Vec<Stretch>,
    /// Stretches of the other frames.
    pub others: Vec<Stretch>,
    gap: u64,
    /// How many frames are in rows beyond those that are kept.
    pub more: u64,
}

/// Joins a stretch to the last one, if at most a gap lies between them.
fn join_last(list: &mut Vec<Stretch>, gap: u64, next: Stretch) -> bool {
    let Some(last) = list.last_mut() else {
        return false;
    };
    if next.since.saturating_sub(last.until) > gap {
        return false;
    }
    *last = last.with(next);
    true
}

/// Puts a stretch behind those up to a place, as part of the last of them if no more than a gap lies between. The answer is the last place.
fn put_joined(list: &mut [Stretch], kept: usize, gap: u64, next: Stretch) -> usize {
    if let Some(own) = list.get_mut(kept) {
        if next.since.saturating_sub(own.until) <= gap {
            *own = own.with(next);
            return kept;
        }
    }
    let place = kept.saturating_add(1);
    if let Some(own) = list.get_mut(place) {
        *own = next;
    }
    place
}

impl Losses {
    /// Nothing was lost.
    pub fn new(alloc: Global) -> Losses {
        Losses {
            open: None,
            rows: Vec::new(alloc),
            others: Vec::new(alloc),
            gap: GAP,
            more: 0,
        }
    }

    /// Joins stretches between which a gap of twice the length lies.
    fn join_anew(&mut self) {
        self.gap = self.gap.saturating_mul(2);
        let mut kept: usize = 0;
        for at in 1..self.others.len() {
            if let Some(next) = self.others.get(at).copied() {
                kept = put_joined(&mut self.others, kept, self.gap, next);
            }
        }
        self.others.truncate(kept.saturating_add(1));
    }

    /// Takes a stretch that is no row.
    fn note_other(&mut self, stretch: Stretch) -> Result<(), ScriptFault> {
        if join_last(&mut self.others, self.gap, stretch) {
            return Ok(());
        }
        append(&mut self.others, stretch)?;
        for _ in 0..64 {
            if self.others.len() <= MOST_STRETCHES {
                return Ok(());
            }
            self.join_anew();
        }
        Ok(())
    }

    /// Ends the row that is open.
    ///
    /// # Errors
    /// `NoMemory` where an allocation failed.
    pub fn close(&mut self) -> Result<(), ScriptFault> {
        let Some(row) = self.open.take() else {
            return Ok(());
        };
        if row.frames < LEAST_ROW {
            return self.note_other(row);
        }
        if self.rows.len() < MOST_ROWS {
            return Ok(append(&mut self.rows, row)?);
        }
        self.more = self.more.saturating_add(row.frames);
        Ok(())
    }

    /// Takes the next frame that was lost.
    ///
    /// # Errors
    /// `NoMemory` where an allocation failed.
    pub(crate) fn note(&mut self, next: Stretch) -> Result<(), ScriptFault> {
        match self.open {
            Some(row) if row.goes_on_with(next) => {
                self.open = Some(row.with(next));
                Ok(())
            }
            _ => {
                self.close()?;
                self.open = Some(next);
                Ok(())
            }
        }
    }
}
