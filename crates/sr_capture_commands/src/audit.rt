//! The subcommand `audit`: reads the captures pass by pass, judges them, and writes what they tell.

mod cuts;
mod drawn;
mod hints;
mod losses;
mod names;
mod nodes;
mod page;
mod passes;
mod subjects;
mod verdict;
mod ways;
mod writing;

use crate::clocks::{Known, on_clocks, read_clocks, read_once, recorders_of_audit};
use crate::dated::{Dated, Dating};
use crate::script::tell_ended;
use cuts::Cuts;
use hints::tell_odd;
use nodes::{Seen, read_seen};
use passes::{Read, read_all, read_front};
use sr_advice::letter_of;
use sr_audit::Spans;
use sr_capture_audit::Summary;
use sr_capture_script::{Inlet, ScriptFault};
use sr_command_io::{Ended, Pipe, Progress, Sides, beside, check_order};
use sr_dates::Moment;
use sr_options::{AuditTask, Format, Paths, Times};
use sr_slots::Keys;
use sr_verdict::{Limits, Verdict};
use std::io::{self, BufWriter, Printer};
use std::random::RandomSource;
use std::rt::Files;
use subjects::subject_on;
use verdict::{check, judge};
use writing::write_all;

/// The exit status of a fault of a file, a write or memory.
const RUN_FAILED: u8 = 1;

/// What ended a run over captures.
#[derive(Clone, Copy)]
enum Stop {
    /// This, before anything was written.
    Early(Ended),
    /// What standard error has been told of: the exit status.
    Told(u8),
}

impl From<Ended> for Stop {
    fn from(ended: Ended) -> Stop {
        Stop::Early(ended)
    }
}

impl From<u8> for Stop {
    fn from(status: u8) -> Stop {
        Stop::Told(status)
    }
}

/// The files of an audit.
fn sides_of<'a>(task: &AuditTask<'a>) -> Sides<'a> {
    Sides {
        a: task.a,
        b: task.b,
        c: None,
    }
}

/// Says what ended an audit early, but where nobody reads any more what is written. The answer is the exit status.
fn tell<R: Eprint + Files>(rt: &R, task: &AuditTask<'_>, ended: Ended, is_closed: bool) -> u8 {
    if let Ended::By(fault) = ended {
        tell_ended(rt, &sides_of(task), fault, is_closed);
    }
    RUN_FAILED
}

/// Reads the captures, and judges what they tell.
fn read_and_judge<R: AllocGlobal + Eprint + Files>(
    rt: &R,
    task: &AuditTask<'_>,
    keys: Keys,
    known: Known,
    progress: Progress,
) -> Result<(Read, Seen, Vec<Verdict>), Ended> {
    let subject = subject_on(rt, task, known)?;
    let seen = read_seen(rt, task, subject, keys, progress)?;
    let (read, seen) = beside(read_all(rt, task, subject, keys, seen.spans), seen)?;
    let limits = Limits {
        lost: task.max_lost,
        skew: task.max_skew,
    };
    let verdicts = judge(
        rt,
        &read.report,
        &seen.sources,
        known,
        read.are_both_ways,
        seen.dropped,
        limits,
    );
    let (verdicts, (read, seen)) = beside(verdicts, (read, seen))?;
    Ok((read, seen, verdicts))
}

/// How times are told. That of the earliest packet is by the clock of its recorder, or by that of A where B's was put right.
fn dating_of<R: AllocGlobal + Eprint + Files>(
    rt: &R,
    task: &AuditTask<'_>,
) -> Result<Dating, Ended> {
    if task.times == Times::Relative {
        return Ok(Dating::Relative);
    }
    let Some(front) = read_front(rt, task)? else {
        return Ok(Dating::Relative);
    };
    let first = Moment(front.moment.saturating_sub(task.early));
    match task.format {
        Format::Json => Ok(Dating::Objects(first)),
        _ => Ok(Dating::Words(first)),
    }
}

/// What an audit is written to.
type Written<'a, R> = Dated<BufWriter<Pipe<Printer<'a, R>>>>;

/// A writer to standard output, where nothing was written.
fn writer_of<'a, R: AllocGlobal + Print + Eprint + Files>(
    rt: &'a R,
    task: &AuditTask<'_>,
) -> Result<Written<'a, R>, Ended> {
    let dating = dating_of(rt, task)?;
    match BufWriter::new(rt.alloc(), Pipe::new(io::writer(rt))) {
        Ok(buffered) => Ok(Dated::new(rt.alloc(), buffered, dating)),
        Err(_) => Err(Ended::By(ScriptFault::NoMemory)),
    }
}

/// Says what looks wrong in captures of which all was written, and how a check ends. The error is the exit status.
fn tell_end<R: Eprint + Files>(
    rt: &R,
    task: &AuditTask<'_>,
    cuts: Cuts,
    recorded: &Spans,
    summary: &Summary,
    verdicts: &[Verdict],
) -> Result<(), u8> {
    tell_odd(rt, task, recorded, summary);
    cuts.tell(rt, task)?;
    if task.is_check {
        check(rt, verdicts)?;
    }
    Ok(())
}

/// Audits the captures on the clocks that are known: those that end within a packet up to there, of which is told at the end.
fn run_on_clocks<R: AllocGlobal + Print + Eprint + Files>(
    rt: &R,
    task: &AuditTask<'_>,
    keys: Keys,
    known: Known,
    cuts: Cuts,
    progress: Progress,
) -> Result<(), Stop> {
    let judged = read_and_judge(rt, task, keys, known, progress)?;
    let (mut writer, (read, seen, verdicts)) = beside(writer_of(rt, task), judged)?;
    let Read { times, report, .. } = read;
    let summary = report.summary();
    let written = write_all(
        rt,
        task,
        keys,
        known,
        times,
        report,
        &summary,
        &seen,
        &verdicts,
        &mut writer,
    );
    drop(seen);
    let told = match written {
        Ok(()) => tell_end(rt, task, cuts, &times.recorded, &summary, &verdicts),
        Err(ended) => {
            let is_closed = writer.get_ref().get_ref().is_closed();
            Err(tell(rt, task, ended, is_closed))
        }
    };
    drop((writer, verdicts));
    Ok(told?)
}

/// Refuses a capture that is none of files, as a pipe, since an audit reads it more than once. The error is the exit status.
fn refuse_read_once<R: Eprint + Files>(
    rt: &R,
    inlet: Inlet,
    paths: Option<Paths<'_>>,
) -> Result<(), u8> {
    let Some(path) = read_once(rt, paths) else {
        return Ok(());
    };
    let letter = letter_of(inlet);
    let _ = eprintln!(rt;
        "fault {letter} open 0\n{path} is no file, and an audit reads its captures more than once"
    );
    Err(RUN_FAILED)
}

/// Says where the files of a capture are not named in the order of their times, which may be a fault. The error is the exit status.
fn check_orders<R: AllocGlobal + Eprint + Files>(rt: &R, task: &AuditTask<'_>) -> Result<(), u8> {
    let options = &task.options;
    let interfaces = options.interfaces;
    check_order(rt, Inlet::A, task.a, interfaces.a, options).map_err(|()| RUN_FAILED)?;
    check_order(rt, Inlet::B, task.b, interfaces.b, options).map_err(|()| RUN_FAILED)
}

/// Audits the captures up to where they end within a packet.
fn run_up_to<R: AllocGlobal + Print + Eprint + Files>(
    rt: &R,
    task: &AuditTask<'_>,
    keys: Keys,
    cuts: Cuts,
    progress: Progress,
) -> Result<(), Stop> {
    let whole = cuts.applied(task);
    let known = match read_clocks(rt, &recorders_of_audit(&whole), progress) {
        Ok(known) => known,
        Err(ended) => return Err(Stop::Early(ended)),
    };
    run_on_clocks(rt, &on_clocks(&whole, known), keys, known, cuts, progress)
}

/// Writes what captures tell of a network to standard output. A fault is told on standard error, and so is what looks wrong. An error is the
/// exit status.
pub fn run_audit<R: AllocGlobal + Print + Eprint + Files + RandomSource>(
    rt: &R,
    task: &AuditTask<'_>,
    progress: Progress,
) -> Result<(), u8> {
    refuse_read_once(rt, Inlet::A, task.a)?;
    refuse_read_once(rt, Inlet::B, task.b)?;
    check_orders(rt, task)?;
    let Ok(keys) = Keys::new(rt) else {
        let _ = eprintln!(rt; "fault read");
        return Err(RUN_FAILED);
    };
    let mut cuts = Cuts::NONE;
    for _ in 0..3 {
        let ended = match run_up_to(rt, task, keys, cuts, progress) {
            Ok(()) => return Ok(()),
            Err(Stop::Told(status)) => return Err(status),
            Err(Stop::Early(ended)) => ended,
        };
        match cuts.and(ended) {
            Some(more) => cuts = more,
            None => return Err(tell(rt, task, ended, false)),
        }
    }
    Err(RUN_FAILED)
}
