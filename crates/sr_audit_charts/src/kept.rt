//! What is kept of the frames of an audit, as it is told what became of them.

use crate::cards::Card;
use crate::lists::append;
use crate::losses::{Losses, Stretch, stretch_of};
use crate::sources::SourceLine;
use crate::strips::Strip;
use crate::times::Times;
use sr_audit::{Copied, Listed, Side};
use sr_capture_audit::{TakesTold, Told};
use sr_capture_script::ScriptFault;
use sr_frame::{Mac, NoMemory};
use std::alloc::Global;

/// How many sources keep their skews: the worst (choice of this project).
pub const MAX_CARDS: usize = 24;

/// How many keep their losses.
pub const MAX_STRIPS: usize = 64;

/// How many have their losses told by packets and times.
pub const MAX_TRACED: usize = 256;

/// How many lost frames are kept one by one: the first ones.
pub const MAX_SINGLES: usize = 1000;

/// A frame that was lost, by one LAN or by both.
#[derive(Clone, Copy)]
pub struct Single {
    /// Its source.
    pub mac: Mac,
    /// The LAN that lost it. None: both did.
    pub lan: Option<Side>,
    /// What is known of it.
    pub lost: Stretch,
}

/// Copies with the other LAN's id.
#[derive(Clone, Copy, Debug, PartialEq, Eq)]
pub struct Astray {
    /// How many.
    pub copies: u64,
    /// When the first one came, in nanoseconds.
    pub since: u64,
    /// The packet of the first one.
    pub first: u64,
    /// The packet of the last one.
    pub last: u64,
}

/// What is traced of a source.
#[derive(Drop)]
pub struct Traced {
    /// Its address.
    pub mac: Mac,
    /// Whether its missing numbers count as lost: its own figures count them, and no RedBox's counter says otherwise.
    tells_both: bool,
    /// What LAN A lost.
    pub a: Losses,
    /// What LAN B lost.
    pub b: Losses,
    /// What both lost.
    pub both: Losses,
    /// Copies by LAN A with the id of B.
    pub astray_a: Option<Astray>,
    /// Copies by LAN B with the id of A.
    pub astray_b: Option<Astray>,
}

/// Which reading of the captures it is.
#[derive(Clone, Copy, PartialEq, Eq)]
enum Reading {
    /// Losses and ranges of skews are taken.
    Ranges,
    /// Skews are counted by their sizes.
    Sizes,
}

/// What is kept of the worst sources, and of the network.
#[derive(Drop)]
pub struct Kept {
    /// The times that are drawn.
    pub times: Times,
    /// The losses of all sources together.
    pub network: Strip,
    /// The losses of the worst sources, in their order.
    pub strips: Vec<Strip>,
    /// The skews of the worst sources, in their order.
    pub cards: Vec<Card>,
    /// What is traced of the worst sources, in their order.
    pub traced: Vec<Traced>,
    /// The first lost frames, as it was decided what became of them.
    pub singles: Vec<Single>,
    /// How many frames were lost.
    pub lost: u64,
    reading: Reading,
}

/// Copies with the other id, and one more.
fn astray_with(astray: Option<Astray>, copy: Copied) -> Option<Astray> {
    let (time, packet) = (copy.arrival.time, copy.packet);
    Some(match astray {
        None => Astray {
            copies: 1,
            since: time,
            first: packet,
            last: packet,
        },
        Some(astray) => Astray {
            copies: astray.copies.saturating_add(1),
            last: packet,
            ..astray
        },
    })
}

impl Traced {
    /// Nothing is known of a source but its figures.
    fn new(alloc: Global, line: &SourceLine) -> Traced {
        Traced {
            mac: line.mac,
            tells_both: line.neither > 0 && line.neither == line.figures.neither,
            a: Losses::new(alloc),
            b: Losses::new(alloc),
            both: Losses::new(alloc),
            astray_a: None,
            astray_b: None,
        }
    }

    /// Takes frames that a LAN lost, or that both did.
    fn note_lost(&mut self, lan: Option<Side>, lost: Stretch) -> Result<(), ScriptFault> {
        match lan {
            Some(Side::A) => self.a.note(lost),
            Some(Side::B) => self.b.note(lost),
            None => self.both.note(lost),
        }
    }

    /// Takes a copy with the other LAN's id.
    fn note_astray(&mut self, copy: Copied) {
        match copy.arrival.side {
            Side::A => self.astray_a = astray_with(self.astray_a, copy),
            Side::B => self.astray_b = astray_with(self.astray_b, copy),
        }
    }

    /// Ends the rows that are open.
    fn close(&mut self) -> Result<(), ScriptFault> {
        self.a.close()?;
        self.b.close()?;
        self.both.close()
    }
}

/// The LAN on which a frame is missing. None: on both.
fn missing_at(listed: Listed) -> Option<Side> {
    match listed {
        Listed::Lost(copy) => Some(copy.arrival.side.other()),
        Listed::Pair(_, _) | Listed::Neither(_, _, _) => None,
    }
}

/// The source of a frame.
fn source_of(listed: Listed) -> Mac {
    match listed {
        Listed::Lost(copy) => copy.src,
        Listed::Pair(first, _) => first.src,
        Listed::Neither(src, _, _) => src,
    }
}

impl Kept {
    /// Nothing is kept yet of these sources, the worst first.
    ///
    /// # Errors
    /// `NoMemory` where an allocation failed.
    pub fn new(
        alloc: Global,
        times: Times,
        lines: &[SourceLine],
        cards: usize,
    ) -> Result<Kept, NoMemory> {
        let mut kept = Kept {
            times,
            network: Strip::new(alloc)?,
            strips: Vec::new(alloc),
            cards: Vec::new(alloc),
            traced: Vec::new(alloc),
            singles: Vec::new(alloc),
            lost: 0,
            reading: Reading::Ranges,
        };
        for at in 0..lines.len().min(MAX_TRACED) {
            kept.add(alloc, &lines[at], at, cards)?;
        }
        Ok(kept)
    }

    /// Adds the next source.
    fn add(
        &mut self,
        alloc: Global,
        line: &SourceLine,
        at: usize,
        cards: usize,
    ) -> Result<(), NoMemory> {
        append(&mut self.traced, Traced::new(alloc, line))?;
        if at < MAX_STRIPS {
            append(&mut self.strips, Strip::new(alloc)?)?;
        }
        if at < cards {
            append(&mut self.cards, Card::new(alloc)?)?;
        }
        Ok(())
    }

    /// From now on skews are counted by their sizes.
    pub fn count_sizes(&mut self) {
        self.reading = Reading::Sizes;
    }

    /// The place of a source among the first ones.
    fn place_of(&self, mac: Mac, first: usize) -> Option<usize> {
        for at in 0..self.traced.len().min(first) {
            if self.traced[at].mac == mac {
                return Some(at);
            }
        }
        None
    }

    /// Takes the skew of a pair.
    fn note_pair(&mut self, first: Copied, second: u64) {
        let time = first.arrival.time;
        let skew = i128::from(second) - i128::from(time);
        let column = self.times.column_of(time);
        let reading = self.reading;
        let Some(place) = self.place_of(first.src, self.cards.len()) else {
            return;
        };
        if let Some(card) = self.cards.get_mut(place) {
            match reading {
                Reading::Ranges => card.ranges.note(column, skew),
                Reading::Sizes => card.count(column, skew),
            }
        }
    }

    /// Whether a lost frame counts. One that came by no LAN counts only if its source's figures count it.
    fn counts(&self, listed: Listed, place: Option<usize>) -> bool {
        if missing_at(listed).is_some() {
            return true;
        }
        match place.and_then(|place| self.traced.get(place)) {
            Some(traced) => traced.tells_both,
            None => false,
        }
    }

    /// Counts a lost frame, and keeps it if it is one of the first.
    fn note_single(&mut self, mac: Mac, lan: Option<Side>, lost: Stretch) -> Result<(), NoMemory> {
        self.lost = self.lost.saturating_add(1);
        if self.singles.len() >= MAX_SINGLES {
            return Ok(());
        }
        append(&mut self.singles, Single { mac, lan, lost })
    }

    /// Takes a frame that was lost.
    fn note_lost(&mut self, listed: Listed, lost: Stretch) -> Result<(), ScriptFault> {
        let place = self.place_of(source_of(listed), MAX_TRACED);
        if !self.counts(listed, place) {
            return Ok(());
        }
        let lan = missing_at(listed);
        self.note_single(source_of(listed), lan, lost)?;
        let column = self.times.column_of(lost.since);
        self.network.note(lan, column);
        let Some(place) = place else {
            return Ok(());
        };
        if let Some(strip) = self.strips.get_mut(place) {
            strip.note(lan, column);
        }
        match self.traced.get_mut(place) {
            Some(traced) => traced.note_lost(lan, lost),
            None => Ok(()),
        }
    }

    /// Takes a copy with the other LAN's id.
    fn note_astray(&mut self, copy: Copied) {
        let Some(place) = self.place_of(copy.src, MAX_TRACED) else {
            return;
        };
        if let Some(traced) = self.traced.get_mut(place) {
            traced.note_astray(copy);
        }
    }

    /// Takes what became of a frame.
    fn note_decided(&mut self, listed: Listed) -> Result<(), ScriptFault> {
        if let Listed::Pair(first, second) = listed {
            self.note_pair(first, second);
        }
        match stretch_of(listed) {
            Some(lost) if self.reading == Reading::Ranges => self.note_lost(listed, lost),
            _ => Ok(()),
        }
    }

    /// Ends what is open once all was told.
    ///
    /// # Errors
    /// `NoMemory` where an allocation failed.
    pub fn close(&mut self) -> Result<(), ScriptFault> {
        for at in 0..self.traced.len() {
            if let Some(traced) = self.traced.get_mut(at) {
                traced.close()?;
            }
        }
        Ok(())
    }
}

impl TakesTold for Kept {
    fn take_told(&mut self, told: Told) -> Result<(), ScriptFault> {
        match told {
            Told::Astray(copy) if self.reading == Reading::Ranges => {
                self.note_astray(copy);
                Ok(())
            }
            Told::Astray(_) => Ok(()),
            Told::Decided(listed) => self.note_decided(listed),
        }
    }
}
