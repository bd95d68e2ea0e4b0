//! The page of an audit, for who has ordered the test of a network.

use crate::audit::drawn::{keep, ranked, trace};
use crate::audit::names::read_names;
use crate::audit::passes::{Times, read_front};
use crate::clocks::Known;
use crate::meanings::subject_of;
use sr_audit_charts::{Kept, MAX_CARDS, SourceLine, times_of};
use sr_audit_page::{Given, Page, rows_of, topology_of, write_page};
use sr_capture_audit::{Network, Report, Summary};
use sr_capture_script::ScriptFault;
use sr_command_io::{Ended, beside, digest_at, size_of};
use sr_dates::Moment;
use sr_markup::Escaped;
use sr_options::{AuditTask, PROGRAM_VERSION, Paths};
use sr_page::{CaptureFile, Fact, NodeName, Seconds, Skew};
use sr_slots::Keys;
use sr_verdict::Verdict;
use std::alloc::{AllocError, Global};
use std::io::Write;
use std::rt::Files;

/// The title of a page where none is given.
const TITLE: &str = "Redundancy audit";

/// Adds a fact under a name.
fn add_fact(
    alloc: Global,
    facts: &mut Vec<Fact>,
    name: &'static str,
    text: &str,
) -> Result<(), AllocError> {
    let text = Escaped::of(alloc, text)?;
    match facts.push(Fact { name, text }) {
        Ok(()) => Ok(()),
        Err(refused) => Err(AllocError::from(refused)),
    }
}

/// What kind of network it is.
fn network_word(network: Network) -> &'static str {
    match network {
        Network::Prp => "PRP, LAN A and LAN B",
        Network::Hsr => "HSR ring, A and B its two ways",
    }
}

/// Adds what is known of the clocks.
fn add_clocks(alloc: Global, facts: &mut Vec<Fact>, known: Known) -> Result<(), AllocError> {
    match known {
        Known::Ahead(_, ahead, pairs) => {
            let ahead = Skew(Some(ahead));
            let text = format!(in alloc;
                "B was {ahead} ahead, by {pairs} frames of both, and is put right"
            )?;
            add_fact(alloc, facts, "Clocks", &text)
        }
        Known::Nothing | Known::Unjudged(_) => {
            add_fact(alloc, facts, "Clocks", "as the captures have them")
        }
    }
}

/// Adds what is known of the captures as a whole, the first packet of which came at a moment of a day.
fn add_facts(
    alloc: Global,
    facts: &mut Vec<Fact>,
    task: &AuditTask<'_>,
    known: Known,
    times: Times,
    first: Option<Moment>,
) -> Result<(), AllocError> {
    let network = network_word(subject_of(task).network);
    add_fact(alloc, facts, "Network", network)?;
    if let Some(first) = first {
        let text = format!(in alloc; "{first}")?;
        add_fact(alloc, facts, "First packet", &text)?;
    }
    let own = times_of(times.recorded);
    let length = Seconds(own.last.saturating_sub(own.first));
    let text = format!(in alloc; "{length}")?;
    add_fact(alloc, facts, "Length", &text)?;
    add_clocks(alloc, facts, known)?;
    let text = format!(in alloc; "seamless {PROGRAM_VERSION}")?;
    add_fact(alloc, facts, "Made by", &text)
}

/// Adds the files of a capture.
fn add_files<R: AllocGlobal + Files>(
    rt: &R,
    paths: Option<Paths<'_>>,
    files: &mut Vec<CaptureFile>,
) -> Result<(), AllocError> {
    let Some(paths) = paths else {
        return Ok(());
    };
    for place in 0..paths.count {
        let Some(path) = paths.path(place) else {
            break;
        };
        let own = Escaped::of(rt.alloc(), path)?;
        let file = CaptureFile {
            path: own,
            size: size_of(rt, path),
            digest: digest_at(rt, path),
        };
        if let Err(refused) = files.push(file) {
            return Err(AllocError::from(refused));
        }
    }
    Ok(())
}

/// A text from the command line, if there is one.
fn escaped_of(alloc: Global, text: Option<&str>) -> Result<Option<Escaped>, AllocError> {
    match text {
        Some(text) => Ok(Some(Escaped::of(alloc, text)?)),
        None => Ok(None),
    }
}

/// When the earliest packet came. None: there is none.
fn first_moment<R: AllocGlobal + Eprint + Files>(
    rt: &R,
    task: &AuditTask<'_>,
) -> Result<Option<Moment>, Ended> {
    match read_front(rt, task)? {
        Some(front) => Ok(Some(Moment(front.moment.saturating_sub(task.early)))),
        None => Ok(None),
    }
}

/// Adds what is known of the captures, and their files.
fn add_captures<R: AllocGlobal + Files>(
    rt: &R,
    task: &AuditTask<'_>,
    known: Known,
    times: Times,
    first: Option<Moment>,
    given: &mut Given,
) -> Result<(), AllocError> {
    add_facts(rt.alloc(), &mut given.facts, task, known, times, first)?;
    add_files(rt, task.a, &mut given.files_a)?;
    add_files(rt, task.b, &mut given.files_b)
}

/// What stands in the page besides the figures, with these names of nodes.
fn given_of<R: AllocGlobal + Files>(
    rt: &R,
    task: &AuditTask<'_>,
    known: Known,
    times: Times,
    first: Option<Moment>,
    names: Vec<NodeName>,
) -> Result<Given, AllocError> {
    let alloc = rt.alloc();
    let title = Escaped::of(alloc, task.page.title.unwrap_or(TITLE));
    let (title, names) = beside(title, names)?;
    let note = escaped_of(alloc, task.page.note);
    let (note, (title, names)) = beside(note, (title, names))?;
    let mut given = Given {
        title,
        facts: Vec::new(alloc),
        note,
        names,
        files_a: Vec::new(alloc),
        files_b: Vec::new(alloc),
    };
    let added = add_captures(rt, task, known, times, first, &mut given);
    let ((), given) = beside(added, given)?;
    Ok(given)
}

/// What stands in the page besides the figures.
fn read_given<R: AllocGlobal + Eprint + Files>(
    rt: &R,
    task: &AuditTask<'_>,
    known: Known,
    times: Times,
) -> Result<Given, Ended> {
    let names = read_names(rt, task.page.names)?;
    let (first, names) = beside(first_moment(rt, task), names)?;
    match given_of(rt, task, known, times, first, names) {
        Ok(given) => Ok(given),
        Err(_) => Err(Ended::By(ScriptFault::NoMemory)),
    }
}

/// What is kept of the worst sources, by two passes of its own: one for their losses and the ranges of their skews, and one for the sizes of
/// these.
fn keep_all<R: AllocGlobal + Eprint + Files>(
    rt: &R,
    task: &AuditTask<'_>,
    keys: Keys,
    times: Times,
    lines: &[SourceLine],
) -> Result<Kept, Ended> {
    let mut kept = keep(rt, task, keys, times, lines, MAX_CARDS)?;
    kept.count_sizes();
    let traced = trace(rt, task, keys, times, &mut kept);
    let ((), kept) = beside(traced, kept)?;
    Ok(kept)
}

/// Writes the page.
pub(crate) fn print_page<R: AllocGlobal + Eprint + Files, W: Write>(
    rt: &R,
    task: &AuditTask<'_>,
    keys: Keys,
    known: Known,
    times: Times,
    report: Report,
    summary: &Summary,
    verdicts: &[Verdict],
    writer: &mut W,
) -> Result<(), Ended> {
    let lines = ranked(rt, report)?;
    let kept = keep_all(rt, task, keys, times, lines.as_slice());
    let (kept, lines) = beside(kept, lines)?;
    let (given, (kept, lines)) = beside(read_given(rt, task, known, times), (kept, lines))?;
    let rows = rows_of(rt.alloc(), lines.as_slice());
    let Ok((rows, (given, kept, lines))) = beside(rows, (given, kept, lines)) else {
        return Err(Ended::By(ScriptFault::NoMemory));
    };
    let page = Page {
        given: &given,
        topology: topology_of(subject_of(task).network),
        ports: subject_of(task).ports,
        spans: times.recorded,
        counts: summary.counts,
        left_out: summary.left_out,
        verdicts,
        rows: rows.as_slice(),
        lines: lines.as_slice(),
        kept: &kept,
    };
    let written = write_page(writer, &page);
    drop((rows, given, kept, lines));
    match written {
        Ok(()) => Ok(()),
        Err(error) => Err(Ended::By(ScriptFault::from(error))),
    }
}
