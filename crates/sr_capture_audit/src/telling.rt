//! Frames and copies that are told one by one, to whoever takes them.

use crate::fates::Fates;
use crate::flows::Flows;
use crate::kind::{Kind, kind_of};
use crate::network::Subject;
use crate::timing::put_right;
use sr_audit::{Arrival, Copied, Listed, Spans};
use sr_capture::Packet;
use sr_capture_script::{Captures, Choice, Pass, Place, ScriptFault, pass_over};
use sr_frame::Mac;
use sr_slots::Keys;
use std::alloc::Global;
use std::io::BufRead;

/// What is told of a frame or a copy.
#[derive(Clone, Copy, Debug, PartialEq, Eq)]
pub enum Told {
    /// The side of this copy has the other LAN's id.
    Astray(Copied),
    /// What became of a frame.
    Decided(Listed),
}

/// Whoever takes what is told.
pub trait TakesTold {
    /// Takes what is told of one frame or copy.
    ///
    /// # Errors
    /// `NoMemory` where an allocation failed.
    fn take_told(&mut self, told: Told) -> Result<(), ScriptFault>;
}

/// The packets so far, of which is told.
#[derive(Drop)]
struct Telling<'a, T> {
    subject: Subject,
    /// Whether these are the first sources.
    is_first: bool,
    fates: Fates,
    decided: Vec<Listed>,
    taker: &'a mut T,
}

impl<T: TakesTold> Telling<'_, T> {
    /// Hands over what is decided.
    fn hand_over(&mut self) -> Result<(), ScriptFault> {
        let Telling { decided, taker, .. } = self;
        for listed in decided.iter() {
            taker.take_told(Told::Decided(*listed))?;
        }
        decided.clear();
        Ok(())
    }

    /// Hands over what is decided at the end of a source's arrivals.
    fn finish(&mut self, src: Mac) -> Result<(), ScriptFault> {
        self.fates.finish(src, &mut self.decided)?;
        self.hand_over()
    }

    /// Hands over what is decided of all packets. The answer is how many sources there are.
    fn tell_all<R: BufRead + Drop>(
        &mut self,
        captures: &mut Captures<R>,
        choice: &Choice,
    ) -> Result<usize, ScriptFault> {
        pass_over(captures, choice, self)?;
        let addresses = self.fates.addresses()?;
        for at in 0..addresses.len() {
            self.finish(addresses[at])?;
        }
        Ok(addresses.len())
    }
}

impl<T: TakesTold> Pass for Telling<'_, T> {
    ghost takes = { λ _ _ _. Unit {0} };

    ghost refuses = { λ _. Unit {0} };

    fn take(&mut self, place: Place, packet: &Packet) -> Result<(), ScriptFault> {
        let Some(tap) = self.subject.tap_at(place.inlet) else {
            return Ok(());
        };
        let Kind::Numbered(numbered) = kind_of(self.subject.network, tap, packet) else {
            return Ok(());
        };
        let place = put_right(self.subject.clock, place);
        let copy = Copied {
            src: numbered.src,
            arrival: Arrival {
                side: numbered.side,
                seq: numbered.seq,
                time: place.time,
            },
            packet: place.number,
        };
        if self.is_first && numbered.is_astray {
            self.taker.take_told(Told::Astray(copy))?;
        }
        self.fates.note(copy, numbered, &mut self.decided)?;
        self.hand_over()
    }
}

/// Tells what became of the frames of captures whose spans are known, as it is decided: of the sources from one on, as many as are listed
/// at once, and with the first source of all copies with the other LAN's id. Where flows are given, frames to groups and those of
/// flows that both captures see tell what was lost. The answer is how many sources there are.
///
/// # Errors
/// The fault of a file, `NoMemory` or `Endless`, and that of the taker.
pub fn tell_fates<R: BufRead + Drop, T: TakesTold>(
    alloc: Global,
    keys: Keys,
    captures: &mut Captures<R>,
    choice: &Choice,
    subject: Subject,
    spans: Spans,
    flows: Option<Flows>,
    first: usize,
    taker: &mut T,
) -> Result<usize, ScriptFault> {
    let mut telling = Telling {
        subject,
        is_first: first == 0,
        fates: Fates::new(alloc, keys, spans, flows, first),
        decided: Vec::new(alloc),
        taker,
    };
    // Let go of by `drop`, so that no proof goes through their drop code for each way out.
    let told = telling.tell_all(captures, choice);
    drop(telling);
    told
}
