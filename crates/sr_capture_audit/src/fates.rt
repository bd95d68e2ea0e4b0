//! What became of frames, where some of them alone tell what was lost.

use crate::flows::Flows;
use crate::kind::Numbered;
use sr_audit::{Copied, Listed, Listing, Spans};
use sr_capture_script::ScriptFault;
use sr_frame::Mac;
use sr_slots::Keys;
use std::alloc::{AllocError, Global};

/// The listing of all frames, and where not all tell what was lost, that of those that do, from which the lost ones are taken.
#[derive(Drop)]
pub(crate) struct Fates {
    all: Listing,
    judged: Option<Judged>,
    /// What one of both decided.
    decided: Vec<Listed>,
}

/// The frames that tell what was lost.
#[derive(Drop)]
struct Judged {
    flows: Flows,
    listing: Listing,
}

/// Whether it is the line of a lost frame.
fn is_lost(listed: Listed) -> bool {
    match listed {
        Listed::Lost(_) => true,
        Listed::Pair(_, _) | Listed::Neither(_, _, _) => false,
    }
}

/// Moves the lost frames of a list behind another one, or the others. The rest is let go.
fn move_those(
    from: &mut Vec<Listed>,
    are_lost: bool,
    to: &mut Vec<Listed>,
) -> Result<(), ScriptFault> {
    for at in 0..from.len() {
        if let Some(listed) = from.get(at).copied() {
            if is_lost(listed) == are_lost {
                push(to, listed)?;
            }
        }
    }
    from.clear();
    Ok(())
}

/// Adds a frame to a list.
fn push(list: &mut Vec<Listed>, listed: Listed) -> Result<(), ScriptFault> {
    match list.push(listed) {
        Ok(()) => Ok(()),
        Err(refused) => Err(AllocError::from(refused).into()),
    }
}

impl Fates {
    /// No packet came. The sources are those from one on, by the order of first hearing. Frames to groups, and those of the flows that both
    /// captures see, tell what was lost, or all where none are given.
    pub(crate) fn new(
        alloc: Global,
        keys: Keys,
        spans: Spans,
        flows: Option<Flows>,
        first: usize,
    ) -> Fates {
        let judged = match flows {
            Some(flows) => Some(Judged {
                flows,
                listing: Listing::new(alloc, keys, spans, first),
            }),
            None => None,
        };
        Fates {
            all: Listing::new(alloc, keys, spans, first),
            judged,
            decided: Vec::new(alloc),
        }
    }

    /// Takes a copy, and lists what it decides.
    pub(crate) fn note(
        &mut self,
        copy: Copied,
        numbered: Numbered,
        decided: &mut Vec<Listed>,
    ) -> Result<(), ScriptFault> {
        let Some(judged) = self.judged.as_mut() else {
            self.all.note(copy, decided)?;
            return Ok(());
        };
        self.all.note(copy, &mut self.decided)?;
        move_those(&mut self.decided, false, decided)?;
        if judged.flows.judges(numbered) {
            judged.listing.note(copy, &mut self.decided)?;
            move_those(&mut self.decided, true, decided)?;
        }
        Ok(())
    }

    /// Lists what is decided at the end of a source's arrivals.
    pub(crate) fn finish(
        &mut self,
        src: Mac,
        decided: &mut Vec<Listed>,
    ) -> Result<(), ScriptFault> {
        let Some(judged) = self.judged.as_mut() else {
            self.all.finish(src, decided)?;
            return Ok(());
        };
        self.all.finish(src, &mut self.decided)?;
        move_those(&mut self.decided, false, decided)?;
        judged.listing.finish(src, &mut self.decided)?;
        move_those(&mut self.decided, true, decided)
    }

    /// The sources in the order of first hearing.
    pub(crate) fn addresses(&self) -> Result<Vec<Mac>, ScriptFault> {
        Ok(self.all.addresses()?)
    }
}
