//! The subcommand `merge`: opens the captures and the file that is written, and says what was merged.

use crate::clocks::{
    Known, Unknown, Untold, recorders_of_merge, seek_clocks, tell_ahead, tell_untold,
};
use crate::meanings::plan_of;
use crate::script::{tell_ended, tell_other};
use sr_advice::letter_of;
use sr_capture_merge::{Counts, merge};
use sr_capture_script::{Captures, Inlet, ScriptFault};
use sr_command_io::{Ended, Opened, Pipe, Progress, Sides, beside, check_order, open_captures};
use sr_options::{LineFormat, MergeTask, Paths, Scope};
use sr_slots::Keys;
use std::fmt;
use std::fs::File;
use std::io::{self, BufRead, BufWriter, Write};
use std::os::unix::fs::MetadataExt;
use std::random::RandomSource;
use std::rt::Files;

/// So many octets of a merge are written at once, as many as a pipe holds.
const WRITTEN_AT_ONCE: usize = 64 * 1024;

/// Whether two paths lead to one file, as far as can be told.
fn is_one_file<R: Files>(rt: &R, path: &str, other: &str) -> bool {
    match (std::fs::metadata(rt, path), std::fs::metadata(rt, other)) {
        (Ok(own), Ok(other)) => own.dev() == other.dev() && own.ino() == other.ino(),
        _ => false,
    }
}

/// Whether a path leads to one of the files of a capture.
fn is_one_of<R: Files>(rt: &R, paths: Paths<'_>, other: &str) -> bool {
    for place in 0..paths.count {
        if paths
            .path(place)
            .is_some_and(|path| is_one_file(rt, path, other))
        {
            return true;
        }
    }
    false
}

/// Whether the file that is to be written is one of the capture of an inlet, which is told then.
fn is_capture<R: Eprint + Files>(
    rt: &R,
    inlet: Inlet,
    paths: Option<Paths<'_>>,
    out: &str,
) -> bool {
    let Some(paths) = paths else {
        return false;
    };
    if out == "-" || !is_one_of(rt, paths, out) {
        return false;
    }
    let letter = letter_of(inlet);
    let _ = eprintln!(rt; "fault write\n{out} is the capture of {letter}");
    true
}

/// The files of a merge.
fn sides_of<'a>(task: &MergeTask<'a>) -> Sides<'a> {
    Sides {
        a: task.a,
        b: task.b,
        c: None,
    }
}

/// Opens the captures. Standard error is told where that fails.
fn open<'a, R: AllocGlobal + Eprint + Files>(
    rt: &'a R,
    task: &MergeTask<'_>,
    progress: Progress,
) -> Result<Captures<Opened<'a, R>>, ()> {
    match open_captures(rt, task.a, task.b, &task.options, progress) {
        Ok(captures) => Ok(captures),
        Err(Ended::Unopened) => Err(()),
        Err(Ended::By(fault)) => {
            tell_ended(rt, &sides_of(task), fault, false);
            Err(())
        }
    }
}

/// Says what was left out, or could not be told.
fn tell_odd<R: Eprint>(rt: &R, counts: &Counts) {
    let Counts {
        cut,
        long,
        untold,
        ..
    } = *counts;
    if cut > 0 {
        let _ = eprintln!(rt; "{cut} packets are left out: the recorder cut them");
    }
    if long > 0 {
        let _ = eprintln!(rt; "{long} packets are left out: they are longer than a frame");
    }
    if untold > 0 {
        let _ = eprintln!(rt;
            "{untold} packets of sources beyond the 1024th are there as they came"
        );
    }
}

/// What was merged, as it is shown as an object.
#[derive(Clone, Copy)]
struct Merged<'a>(&'a Counts);

impl fmt::Display for Merged<'_> {
    fn fmt<W: fmt::Write>(&self, f: &mut fmt::Formatter<W>) -> fmt::Result {
        let Counts {
            packets,
            both,
            a,
            b,
            astray,
            unnumbered,
            open,
            written,
            cut,
            long,
            untold,
        } = *self.0;
        write!(
            f,
            "{{\"line\":\"merged\",\"packets\":{packets},\"both\":{both},\"only_a\":{a},\"only_b\":{b},\"wrong_lan\":{astray}"
        )?;
        write!(
            f,
            ",\"unnumbered\":{unnumbered},\"unknown\":{open},\"written\":{written},\"cut\":{cut},\"long\":{long}"
        )?;
        write!(f, ",\"beyond_1024\":{untold}}}")
    }
}

/// Says what was merged, as an object.
fn tell_object<R: Eprint>(rt: &R, counts: &Counts) {
    let merged = Merged(counts);
    let _ = eprint!(rt; "{merged}\n");
}

/// Says what was merged.
fn tell_counts<R: Eprint>(rt: &R, task: &MergeTask<'_>, counts: &Counts) {
    match task.format {
        LineFormat::Text => tell_words(rt, task.scope, counts),
        LineFormat::Json => tell_object(rt, counts),
    }
}

/// Says what was merged, in words.
fn tell_words<R: Eprint>(rt: &R, scope: Scope, counts: &Counts) {
    match scope {
        Scope::All => {
            let _ = eprintln!(rt; "{counts}");
        }
        Scope::Lost => {
            let written = counts.written;
            let _ = eprintln!(rt; "{counts}; {written} written");
        }
    }
    tell_odd(rt, counts);
}

/// Says how a merge ended: what was merged, or what ended it early.
fn tell_outcome<R: Eprint + Files>(
    rt: &R,
    task: &MergeTask<'_>,
    counts: &Counts,
    outcome: Result<(), ScriptFault>,
    is_closed: bool,
) -> Result<(), ()> {
    match outcome {
        Ok(()) => {
            tell_counts(rt, task, counts);
            Ok(())
        }
        Err(fault) => {
            if let ScriptFault::File(_, _) = fault {
                tell_counts(rt, task, counts);
            }
            tell_ended(rt, &sides_of(task), fault, is_closed);
            Err(())
        }
    }
}

/// Merges the captures into a writer.
fn merge_into<R: AllocGlobal + Eprint + Files, C: BufRead + Drop, W: Write + Drop>(
    rt: &R,
    task: &MergeTask<'_>,
    keys: Keys,
    captures: Captures<C>,
    out: W,
) -> Result<(), ()> {
    let writer = BufWriter::with_capacity(rt.alloc(), WRITTEN_AT_ONCE, Pipe::new(out));
    let Ok((mut writer, mut captures)) = beside(writer, captures) else {
        tell_other(rt, ScriptFault::NoMemory, false);
        return Err(());
    };
    let choice = task.options.choice;
    let (counts, outcome) = merge(
        rt.alloc(),
        keys,
        &mut captures,
        &choice,
        &plan_of(task),
        &mut writer,
    );
    let flushed = writer.flush();
    let is_closed = writer.get_ref().is_closed();
    let outcome = match outcome {
        Ok(()) if flushed.is_err() => Err(ScriptFault::Write),
        other => other,
    };
    let told = tell_outcome(rt, task, &counts, outcome, is_closed);
    drop((writer, captures));
    told
}

/// The task by the clocks that are known, of which standard error is told.
fn on_known_clocks<'a, R: AllocGlobal + Eprint + Files>(
    rt: &R,
    task: &MergeTask<'a>,
    progress: Progress,
) -> Result<MergeTask<'a>, Unknown> {
    let known = seek_clocks(rt, &recorders_of_merge(task), progress)?;
    let Known::Ahead(line, ahead, pairs) = known else {
        return Ok(*task);
    };
    match task.by_clock_of_a(ahead) {
        Some(own) => {
            tell_ahead(rt, task.format, line, ahead, pairs)?;
            Ok(own)
        }
        None => {
            tell_untold(rt, task.shift, Untold::Far)?;
            Ok(*task)
        }
    }
}

/// Merges the captures into the file that is named, or into standard output. What was merged is told on standard error, and so is a fault.
pub fn run_merge<R: AllocGlobal + Print + Eprint + Files + RandomSource>(
    rt: &R,
    task: &MergeTask<'_>,
    progress: Progress,
) -> Result<(), ()> {
    if is_capture(rt, Inlet::A, task.a, task.out) || is_capture(rt, Inlet::B, task.b, task.out) {
        return Err(());
    }
    let interfaces = task.options.interfaces;
    check_order(rt, Inlet::A, task.a, interfaces.a, &task.options)?;
    check_order(rt, Inlet::B, task.b, interfaces.b, &task.options)?;
    let Ok(task) = &on_known_clocks(rt, task, progress) else {
        return Err(());
    };
    let Ok(keys) = Keys::new(rt) else {
        let _ = eprintln!(rt; "fault read");
        return Err(());
    };
    let captures = open(rt, task, progress)?;
    if task.out == "-" {
        return merge_into(rt, task, keys, captures, io::writer(rt));
    }
    match beside(File::create(rt, task.out), captures) {
        Ok((file, captures)) => merge_into(rt, task, keys, captures, file),
        Err(_) => {
            let out = task.out;
            let _ = eprintln!(rt; "fault write\n{out}: it can't be written");
            Err(())
        }
    }
}
