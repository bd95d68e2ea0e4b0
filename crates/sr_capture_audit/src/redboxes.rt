//! The RedBoxes that sources stand behind, as supervision tells.

ghost use Rattle.std.specs.Prelude.{◌≡◌, OnOk, IfErr, fold};
ghost use Rattle.sr_capture_audit.specs.Unions.{boxes_with, named_by};

use crate::kind::Kind;
use sr_audit::MAX_SOURCES;
use sr_capture_script::ScriptFault;
use sr_frame::Mac;
use sr_slots::{Keys, Ranked, Slots};
use std::alloc::Global;

/// The address of a RedBox.
#[derive(Clone, Copy, Drop)]
struct RedBox(Mac);

impl Ranked for RedBox {
    ghost rank_of = { λ b. 0 };

    // None goes.
    fn rank(&self) -> u64 {
        0
    }
}

/// The RedBoxes of up to 1024 addresses.
#[derive(Drop)]
pub struct RedBoxes {
    boxes: Slots<RedBox>,
}

impl RedBoxes {
    ghost use Rattle.std.specs.Prelude.{◌≡◌, [], OnOk, IfErr};
    ghost use Rattle.sr_capture_audit.specs.Unions.{boxes_with, is_unnamed, counter_of};

    /// None.
    pub(crate) fn new(alloc: Global, keys: Keys) -> RedBoxes
        ensures { result.boxes.entries ≡ [] }
    {
        RedBoxes {
            boxes: Slots::with_keys(alloc, keys),
        }
    }

    /// Whether no address is known to stand behind one.
    pub fn is_empty(&self) -> bool
        ensures { result ≡ is_unnamed self.now }
    {
        self.boxes.len() == 0
    }

    /// Whose numbers the frames of a source have: those of the RedBox that it stands behind, or its own.
    pub(crate) fn counter_of(&self, src: Mac) -> Mac
        ensures { result ≡ counter_of self.now.boxes.entries src }
    {
        match self.boxes.get(src) {
            Some(own) => own.0,
            None => src,
        }
    }

    /// Takes that an address stands behind a RedBox, unless it is known to stand behind one, or 1024 are.
    fn note(&mut self, mac: Mac, redbox: Mac) -> Result<(), ScriptFault>
        ensures taken { OnOk result (self.new.boxes.entries
            ≡ boxes_with self.old.boxes.entries (mac, redbox)) }
        ensures refused { IfErr result (λ fault. fault ≡ ScriptFault.NoMemory) }
    {
        if self.boxes.get(mac).is_some() || self.boxes.len() >= MAX_SOURCES {
            return Ok(());
        }
        self.boxes.append(mac, RedBox(redbox))?;
        Ok(())
    }
}

/// Takes what a packet names.
pub(crate) fn learn(redboxes: &mut RedBoxes, kind: Kind) -> Result<(), ScriptFault>
    ensures taken { OnOk result (redboxes.new.boxes.entries
        ≡ fold boxes_with redboxes.old.boxes.entries (named_by kind)) }
    ensures refused { IfErr result (λ fault. fault ≡ ScriptFault.NoMemory) }
{
    let Kind::Numbered(numbered) = kind else {
        return Ok(());
    };
    let Some(sign) = numbered.sign else {
        return Ok(());
    };
    let Some(redbox) = sign.redbox else {
        return Ok(());
    };
    redboxes.note(sign.mac, redbox)
}
