//! Captures that end within a packet: they are told up to there, and then the fault is.

use crate::audit::{RUN_FAILED, sides_of};
use sr_capture::{CaptureFault, Reason};
use sr_capture_script::{Inlet, ScriptFault};
use sr_command_io::{Ended, tell_file};
use sr_options::{AuditTask, Paths};
use std::rt::Files;

/// The captures that end within a packet, and where.
#[derive(Clone, Copy)]
pub(crate) struct Cuts {
    a: Option<CaptureFault>,
    b: Option<CaptureFault>,
}

/// The files of a capture as they are read: up to where they end within a packet.
fn up_to(paths: Option<Paths<'_>>, cut: Option<CaptureFault>) -> Option<Paths<'_>> {
    match (paths, cut) {
        (Some(paths), Some(cut)) => Some(paths.up_to(cut.at)),
        _ => paths,
    }
}

impl Cuts {
    /// None of them.
    pub(crate) const NONE: Cuts = Cuts { a: None, b: None };

    /// These, and one more. None: what ended an audit is no such end, or that of a capture that has one already.
    pub(crate) fn and(self, ended: Ended) -> Option<Cuts> {
        let Ended::By(ScriptFault::File(inlet, fault)) = ended else {
            return None;
        };
        if fault.reason != Reason::Unfinished {
            return None;
        }
        match inlet {
            Inlet::A if self.a.is_none() => Some(Cuts {
                a: Some(fault),
                ..self
            }),
            Inlet::B if self.b.is_none() => Some(Cuts {
                b: Some(fault),
                ..self
            }),
            _ => None,
        }
    }

    /// A task of the captures up to there.
    pub(crate) fn applied<'a>(self, task: &AuditTask<'a>) -> AuditTask<'a> {
        AuditTask {
            a: up_to(task.a, self.a),
            b: up_to(task.b, self.b),
            ..*task
        }
    }

    /// Says where the captures end within a packet. The error is the exit status.
    pub(crate) fn tell<R: Eprint + Files>(self, rt: &R, task: &AuditTask<'_>) -> Result<(), u8> {
        let sides = sides_of(task);
        if let Some(fault) = self.a {
            tell_file(rt, sides.a, Inlet::A, fault);
        }
        if let Some(fault) = self.b {
            tell_file(rt, sides.b, Inlet::B, fault);
        }
        if self.a.is_some() || self.b.is_some() {
            return Err(RUN_FAILED);
        }
        Ok(())
    }
}
