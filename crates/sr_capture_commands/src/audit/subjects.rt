//! What is audited, at which times.

use crate::audit::passes::{Times, read_front};
use crate::clocks::Known;
use crate::meanings::subject_of;
use sr_capture_audit::Subject;
use sr_capture_script::start_of;
use sr_command_io::Ended;
use sr_options::AuditTask;
use std::rt::Files;

/// What is audited, on the clocks that are known: where that of B drifts, its times still differ once they were moved by the offset.
pub(crate) fn subject_on<R: AllocGlobal + Eprint + Files>(
    rt: &R,
    task: &AuditTask<'_>,
    known: Known,
) -> Result<Subject, Ended> {
    let subject = subject_of(task);
    let Known::Ahead(line, ahead, _) = known else {
        return Ok(subject);
    };
    let start = start_of(read_front(rt, task)?);
    Ok(Subject {
        clock: line.rest(ahead, task.options.delays.b, start),
        ..subject
    })
}

/// What is audited, at times that are known.
pub(crate) fn subject_at(task: &AuditTask<'_>, times: Times) -> Subject {
    Subject {
        clock: times.clock,
        ..subject_of(task)
    }
}
