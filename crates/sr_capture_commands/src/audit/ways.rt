//! Whether the captures of a ring each have both its ways, as those of a node's ports that have what goes out too.

use crate::audit::passes::open;
use crate::meanings::{network_of, subject_of};
use sr_audit::Spans;
use sr_capture_audit::{Network, Subject, figures_of};
use sr_capture_script::Inlet;
use sr_command_io::{Ended, Progress};
use sr_options::{AuditTask, Ports};
use sr_slots::Keys;
use std::rt::Files;

/// A task of one of two captures alone, in the place of A.
fn alone_at_a<'a>(task: &AuditTask<'a>, inlet: Inlet) -> AuditTask<'a> {
    if inlet == Inlet::A {
        return AuditTask { b: None, ..*task };
    }
    let mut options = task.options;
    let mut interfaces = options.interfaces;
    interfaces.a = interfaces.b;
    options.interfaces = interfaces;
    AuditTask {
        a: task.b,
        b: None,
        options,
        ..*task
    }
}

/// Whether one of two captures of a ring has frames of both ways, by a pass of its own: as at a mirror port, frames name theirs.
fn has_both<R: AllocGlobal + Eprint + Files>(
    rt: &R,
    task: &AuditTask<'_>,
    keys: Keys,
    inlet: Inlet,
) -> Result<bool, Ended> {
    let mut captures = open(rt, &alone_at_a(task, inlet), Progress::Silent)?;
    let subject = Subject {
        ports: sr_capture_audit::Ports::Mirror,
        ..subject_of(task)
    };
    let choice = task.options.choice;
    let report = figures_of(
        rt.alloc(),
        keys,
        &mut captures,
        &choice,
        subject,
        Spans::NONE,
    );
    drop(captures);
    let report = report?;
    let counts = report.summary().counts;
    drop(report);
    Ok(counts.have_both_ways())
}

/// Whether both captures of a ring have both ways, each frame going by twice: where copies of sources came before, passes of their own tell.
pub(crate) fn have_both_ways<R: AllocGlobal + Eprint + Files>(
    rt: &R,
    task: &AuditTask<'_>,
    keys: Keys,
    are_repeated: bool,
) -> Result<bool, Ended> {
    let is_ring = network_of(task.network) == Network::Hsr && task.ports == Ports::Two;
    Ok(
        is_ring
            && are_repeated
            && has_both(rt, task, keys, Inlet::A)?
            && has_both(rt, task, keys, Inlet::B)?,
    )
}
