//! What an audit writes to standard output: what is told of the network, the figures, and lists, or a picture or a page.

use crate::audit::drawn::draw;
use crate::audit::nodes::Seen;
use crate::audit::page::print_page;
use crate::audit::passes::{Times, open, read_flows};
use crate::audit::subjects::subject_at;
use crate::clocks::Known;
use crate::meanings::{lines_of, lists_of};
use sr_audit::{LISTED_AT_ONCE, MAX_SOURCES};
use sr_capture_audit::{Format, Report, Summary, print_clocks, print_lists};
use sr_capture_script::ScriptFault;
use sr_capture_sources::print_nodes;
use sr_capture_streams::print_streams;
use sr_command_io::{Ended, Progress, beside};
use sr_options::AuditTask;
use sr_slots::Keys;
use sr_verdict::{Verdict, print_verdicts};
use std::io::Write;
use std::rt::Files;

/// Prints the lists of the sources from one on, by a pass of their own.
fn print_lists_from<R: AllocGlobal + Eprint + Files, W: Write>(
    rt: &R,
    task: &AuditTask<'_>,
    keys: Keys,
    times: Times,
    first: usize,
    format: Format,
    writer: &mut W,
) -> Result<(), Ended> {
    let flows = read_flows(rt, task, keys, times)?;
    let (mut captures, flows) = beside(open(rt, task, Progress::Silent), flows)?;
    let printed = print_lists(
        rt.alloc(),
        keys,
        &mut captures,
        &task.options.choice,
        subject_at(task, times),
        times.judged,
        flows,
        first,
        lists_of(task),
        format,
        writer,
    );
    drop(captures);
    Ok(printed?)
}

/// Prints the lists that are wanted: those of so many sources at a time as memory allows.
fn print_all_lists<R: AllocGlobal + Eprint + Files, W: Write>(
    rt: &R,
    task: &AuditTask<'_>,
    keys: Keys,
    times: Times,
    sources: usize,
    format: Format,
    writer: &mut W,
) -> Result<(), Ended> {
    if !lists_of(task).is_some() {
        return Ok(());
    }
    for part in 0..MAX_SOURCES / LISTED_AT_ONCE {
        let first = part * LISTED_AT_ONCE;
        if first == 0 || first < sources {
            print_lists_from(rt, task, keys, times, first, format, writer)?;
        }
    }
    Ok(())
}

/// Writes what is known of the clocks.
fn write_clocks<W: Write>(format: Format, known: Known, writer: &mut W) -> Result<(), Ended> {
    if let Known::Ahead(line, ahead, pairs) = known {
        print_clocks(writer, format, line, ahead, pairs)?;
    }
    Ok(())
}

/// Writes the figures, unless a table of a list is wanted in their place, and lets them go, so that lists find room.
fn write_figures<W: Write>(
    task: &AuditTask<'_>,
    format: Format,
    times: Times,
    report: Report,
    writer: &mut W,
) -> Result<(), Ended> {
    let printed = if format != Format::Csv || !lists_of(task).is_some() {
        report.print_recorded(writer, format, &times.recorded)
    } else {
        Ok(())
    };
    drop(report);
    Ok(printed?)
}

/// Writes what is told of the network, and the clocks.
fn write_front<W: Write>(
    format: Format,
    verdicts: &[Verdict],
    known: Known,
    writer: &mut W,
) -> Result<(), Ended> {
    print_verdicts(writer, format, verdicts)?;
    write_clocks(format, known, writer)
}

/// Writes the lines of the streams and of the sources.
fn print_seen<W: Write>(format: Format, seen: &Seen, writer: &mut W) -> Result<(), Ended> {
    print_streams(writer, format, &seen.streams)?;
    print_nodes(writer, format, &seen.sources)?;
    Ok(())
}

/// Writes what is told of the network, the clocks, the streams and the sources, figures and lists. A table is that of the list that is wanted, if one
/// is.
fn write_lines<R: AllocGlobal + Eprint + Files, W: Write>(
    rt: &R,
    task: &AuditTask<'_>,
    keys: Keys,
    known: Known,
    times: Times,
    report: Report,
    summary: &Summary,
    seen: &Seen,
    verdicts: &[Verdict],
    format: Format,
    writer: &mut W,
) -> Result<(), Ended> {
    let front = write_front(format, verdicts, known, writer);
    let ((), report) = beside(front, report)?;
    write_figures(task, format, times, report, writer)?;
    print_seen(format, seen, writer)?;
    print_all_lists(rt, task, keys, times, summary.sources, format, writer)?;
    summary.print_end(writer, format)?;
    Ok(())
}

/// Writes all that is wanted: lines, or a picture or a page in their place.
pub(crate) fn write_all<R: AllocGlobal + Eprint + Files, W: Write>(
    rt: &R,
    task: &AuditTask<'_>,
    keys: Keys,
    known: Known,
    times: Times,
    report: Report,
    summary: &Summary,
    seen: &Seen,
    verdicts: &[Verdict],
    writer: &mut W,
) -> Result<(), Ended> {
    match lines_of(task) {
        Some(format) => write_lines(
            rt, task, keys, known, times, report, summary, seen, verdicts, format, writer,
        )?,
        None if task.format == sr_options::Format::Html => print_page(
            rt, task, keys, known, times, report, summary, verdicts, writer,
        )?,
        None => draw(rt, task, keys, times, report, writer)?,
    }
    match writer.flush() {
        Ok(()) => Ok(()),
        Err(_) => Err(Ended::By(ScriptFault::Write)),
    }
}
