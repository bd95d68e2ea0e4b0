//! What an audit draws in place of lines: a picture.

use crate::audit::passes::{Times, open, read_flows};
use crate::audit::subjects::subject_at;
use sr_audit::LISTED_AT_ONCE;
use sr_audit_charts::{Kept, MAX_CHARTS, SourceLine, lines_in, print_picture, rank, times_of};
use sr_capture_audit::{Report, tell_fates};
use sr_capture_script::ScriptFault;
use sr_command_io::{Ended, Progress, beside};
use sr_options::AuditTask;
use sr_slots::Keys;
use std::io::Write;
use std::rt::Files;

/// Has what is kept take the frames of the sources from one on, by a pass of its own. The answer is how many sources there are.
fn trace_from<R: AllocGlobal + Eprint + Files>(
    rt: &R,
    task: &AuditTask<'_>,
    keys: Keys,
    times: Times,
    first: usize,
    kept: &mut Kept,
) -> Result<usize, Ended> {
    let flows = read_flows(rt, task, keys, times)?;
    let (mut captures, flows) = beside(open(rt, task, Progress::Silent), flows)?;
    let sources = tell_fates(
        rt.alloc(),
        keys,
        &mut captures,
        &task.options.choice,
        subject_at(task, times),
        times.judged,
        flows,
        first,
        kept,
    );
    drop(captures);
    Ok(sources?)
}

/// Has what is kept take the frames of all sources: those of so many at a time as memory allows.
pub(crate) fn trace<R: AllocGlobal + Eprint + Files>(
    rt: &R,
    task: &AuditTask<'_>,
    keys: Keys,
    times: Times,
    kept: &mut Kept,
) -> Result<(), Ended> {
    let sources = trace_from(rt, task, keys, times, 0, kept)?;
    if sources > LISTED_AT_ONCE {
        trace_from(rt, task, keys, times, LISTED_AT_ONCE, kept)?;
    }
    kept.close()?;
    Ok(())
}

/// What is told of the sources, the worst first. The figures are let go, so that what is drawn finds room.
pub(crate) fn ranked<R: AllocGlobal>(rt: &R, report: Report) -> Result<Vec<SourceLine>, Ended> {
    let lines = lines_in(rt.alloc(), &report);
    drop(report);
    let Ok(mut lines) = lines else {
        return Err(Ended::By(ScriptFault::NoMemory));
    };
    match beside(rank(&mut lines), lines) {
        Ok(((), lines)) => Ok(lines),
        Err(_) => Err(Ended::By(ScriptFault::NoMemory)),
    }
}

/// What is kept of the worst sources, so many of them with their skews, by a pass of its own.
pub(crate) fn keep<R: AllocGlobal + Eprint + Files>(
    rt: &R,
    task: &AuditTask<'_>,
    keys: Keys,
    times: Times,
    lines: &[SourceLine],
    cards: usize,
) -> Result<Kept, Ended> {
    let mut kept = match Kept::new(rt.alloc(), times_of(times.recorded), lines, cards) {
        Ok(kept) => kept,
        Err(_) => return Err(Ended::By(ScriptFault::NoMemory)),
    };
    let traced = trace(rt, task, keys, times, &mut kept);
    let ((), kept) = beside(traced, kept)?;
    Ok(kept)
}

/// Draws the picture of the worst sources.
pub(crate) fn draw<R: AllocGlobal + Eprint + Files, W: Write>(
    rt: &R,
    task: &AuditTask<'_>,
    keys: Keys,
    times: Times,
    report: Report,
    writer: &mut W,
) -> Result<(), Ended> {
    let lines = ranked(rt, report)?;
    let kept = keep(rt, task, keys, times, lines.as_slice(), MAX_CHARTS);
    let (kept, lines) = beside(kept, lines)?;
    let printed = print_picture(writer, lines.as_slice(), &kept);
    drop((lines, kept));
    Ok(printed?)
}
