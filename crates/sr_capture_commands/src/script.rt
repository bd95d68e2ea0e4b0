//! The subcommand `script`: opens the captures, and says what is wrong with one.

use crate::clocks::{
    Known, Unknown, Untold, recorders_of_script, seek_clocks, tell_ahead, tell_untold,
};
use sr_advice::{FileFault, letter_of};
use sr_capture_script::{Inlet, ScriptFault, script};
use sr_command_io::{
    Opened, Pipe, Progress, Sides, Spelled, Surveyed, beside, check_order, open_file, shown_of,
    tell_file,
};
use sr_options::{LineFormat, Paths, ScriptTask};
use sr_pcapng::Wanted;
use std::alloc::AllocError;
use std::io::{self, BufWriter, Printer, Write};
use std::rt::Files;

/// The most lines that `replay` takes.
const MAX_LINES: u64 = 1_000_000;

/// Opens the files of an inlet for a script. Where that fails, the script is a comment that tells of it.
fn open_for_script<'a, R: AllocGlobal + Print + Eprint + Files>(
    rt: &'a R,
    inlet: Inlet,
    paths: Option<Paths<'_>>,
    wanted: Wanted,
    format: LineFormat,
    progress: Progress,
) -> Result<Option<Opened<'a, R>>, ()> {
    match open_file(rt, inlet, paths, wanted, progress) {
        Ok(opened) => Ok(opened),
        Err(word) => {
            let letter = letter_of(inlet);
            let _ = match format {
                LineFormat::Text => println!(rt; "# fault {letter} {word} 0"),
                LineFormat::Json => println!(rt;
                    "{{\"line\":\"fault\",\"capture\":\"{letter}\",\"fault\":\"{word}\",\"at\":0}}"
                ),
            };
            Err(())
        }
    }
}

/// Says in a comment what ended a script before it began, so that who reads it knows of it.
fn tell_begun<R: Print>(rt: &R, format: LineFormat, word: &str) {
    let _ = match format {
        LineFormat::Text => println!(rt; "# fault {word}"),
        LineFormat::Json => println!(rt;
            "{{\"line\":\"fault\",\"capture\":null,\"fault\":\"{word}\",\"at\":null}}"
        ),
    };
}

/// Says that there are more lines than a script has.
fn tell_lines<R: Eprint>(rt: &R, lines: u64) {
    if lines > MAX_LINES {
        let _ = eprintln!(rt;
            "{lines} lines: a script has at most {MAX_LINES}; take a part by --from and --to"
        );
    }
}

/// Says what ended going over captures early, but where nobody reads any more what is written. It is no fault of a file.
pub(crate) fn tell_other<R: Eprint>(rt: &R, fault: ScriptFault, is_closed: bool) {
    match fault {
        ScriptFault::File(inlet, fault) => {
            let told = FileFault { inlet, fault };
            let _ = eprintln!(rt; "{told}");
        }
        ScriptFault::NoMemory => {
            let _ = eprintln!(rt; "fault memory");
        }
        ScriptFault::Write | ScriptFault::Endless => {
            if !is_closed {
                let _ = eprintln!(rt;
                    "fault write\nthe output can't be written: the disk may be full"
                );
            }
        }
    }
}

/// Says what ended going over captures early, but where nobody reads any more what is written.
pub(crate) fn tell_ended<R: Eprint + Files>(
    rt: &R,
    sides: &Sides<'_>,
    fault: ScriptFault,
    is_closed: bool,
) {
    match fault {
        ScriptFault::File(inlet, fault) => tell_file(rt, sides.at(inlet), inlet, fault),
        other => tell_other(rt, other, is_closed),
    }
}

/// Says what ended a script early, but where nobody reads it any more. The fault of a file has a comment behind the lines that
/// come before it, so that who reads the script knows of it.
fn tell_fault<R: Eprint + Files, W: Write>(
    rt: &R,
    sides: &Sides<'_>,
    fault: ScriptFault,
    is_closed: bool,
    writer: &mut W,
) {
    if let ScriptFault::File(inlet, fault) = fault {
        let told = shown_of(rt, sides.at(inlet), inlet, fault);
        let _ = writeln!(writer, "# {told}");
        let _ = writer.flush();
    }
    tell_ended(rt, sides, fault, is_closed);
}

/// The files of a script.
fn sides_of<'a>(task: &ScriptTask<'a>) -> Sides<'a> {
    Sides {
        a: task.a,
        b: task.b,
        c: task.c,
    }
}

/// Says where the files of a capture are not named in the order of their times, which may be a fault.
fn check_orders<R: AllocGlobal + Eprint + Files>(rt: &R, task: &ScriptTask<'_>) -> Result<(), ()> {
    let interfaces = task.options.interfaces;
    check_order(rt, Inlet::A, task.a, interfaces.a, &task.options)?;
    check_order(rt, Inlet::B, task.b, interfaces.b, &task.options)?;
    check_order(rt, Inlet::C, task.c, interfaces.c, &task.options)
}

/// The task by the clocks that are known, of which standard error is told.
fn on_known_clocks<'a, R: AllocGlobal + Eprint + Files>(
    rt: &R,
    task: &ScriptTask<'a>,
    progress: Progress,
) -> Result<ScriptTask<'a>, Unknown> {
    let known = seek_clocks(rt, &recorders_of_script(task), progress)?;
    let Known::Ahead(line, ahead, pairs) = known else {
        return Ok(*task);
    };
    match task.by_clock_of_a(ahead) {
        Some(own) => {
            tell_ahead(rt, task.format, line, ahead, pairs)?;
            Ok(own)
        }
        None => {
            tell_untold(rt, task.shift, Untold::Far)?;
            Ok(*task)
        }
    }
}

/// Says in a comment that clocks can't be told, so that who reads the script knows of it.
fn tell_unknown<R: Print>(rt: &R, format: LineFormat, unknown: Unknown) {
    if unknown == Unknown::Untold {
        tell_begun(rt, format, "clocks");
    }
}

/// The files of the captures of A, B and C, where there are such.
type Three<F> = (Option<F>, Option<F>, Option<F>);

/// Opens the files of the captures for a script. Where that fails, the script is a comment that tells of it.
fn open_three<'a, R: AllocGlobal + Print + Eprint + Files>(
    rt: &'a R,
    task: &ScriptTask<'_>,
    progress: Progress,
) -> Result<Three<Opened<'a, R>>, ()> {
    let interfaces = task.options.interfaces;
    let format = task.format;
    let a = open_for_script(rt, Inlet::A, task.a, interfaces.a, format, progress)?;
    let b = open_for_script(rt, Inlet::B, task.b, interfaces.b, format, progress);
    let (b, a) = beside(b, a)?;
    let c = open_for_script(rt, Inlet::C, task.c, interfaces.c, format, progress);
    let (c, (a, b)) = beside(c, (a, b))?;
    Ok((a, b, c))
}

/// What a script is written to.
type Written<'a, R> = Surveyed<Spelled<BufWriter<Pipe<Printer<'a, R>>>>>;

/// Says how the writing of a script ended: what looks wrong in one that is whole, or what ended it early.
fn tell_outcome<R: AllocGlobal + Print + Eprint + Files>(
    rt: &R,
    task: &ScriptTask<'_>,
    outcome: Result<(), ScriptFault>,
    writer: &mut Written<'_, R>,
) -> Result<(), ()> {
    let flushed = writer.flush();
    let is_closed = writer.get_ref().get_ref().get_ref().is_closed();
    if !is_closed {
        tell_lines(rt, writer.survey().lines());
    }
    let fault = match outcome {
        Ok(()) if flushed.is_ok() => {
            let advice = writer.survey().advice(task);
            let _ = eprint!(rt; "{advice}");
            return Ok(());
        }
        Ok(()) => ScriptFault::Write,
        Err(fault) => fault,
    };
    let fault = match writer.get_ref().spelt() {
        Err(AllocError) => ScriptFault::NoMemory,
        Ok(()) => fault,
    };
    tell_fault(rt, &sides_of(task), fault, is_closed, writer);
    Err(())
}

/// Writes the script of files that are open to standard output.
fn write_script<'a, R: AllocGlobal + Print + Eprint + Files>(
    rt: &'a R,
    task: &ScriptTask<'_>,
    files: Three<Opened<'a, R>>,
) -> Result<(), ()> {
    let buffered = BufWriter::new(rt.alloc(), Pipe::new(io::writer(rt)));
    let Ok((buffered, (a, b, c))) = beside(buffered, files) else {
        let _ = eprintln!(rt; "fault memory");
        return Err(());
    };
    let mut writer = Surveyed::new(Spelled::new(rt.alloc(), task.format, buffered));
    let outcome = script(rt.alloc(), a, b, c, &task.options, &mut writer);
    let told = tell_outcome(rt, task, outcome, &mut writer);
    drop(writer);
    told
}

/// Writes the script to standard output. A fault is told on standard error.
pub fn run_script<R: AllocGlobal + Print + Eprint + Files>(
    rt: &R,
    task: &ScriptTask<'_>,
    progress: Progress,
) -> Result<(), ()> {
    if check_orders(rt, task).is_err() {
        tell_begun(rt, task.format, "order");
        return Err(());
    }
    let files = open_three(rt, task, progress)?;
    match beside(on_known_clocks(rt, task, progress), files) {
        Ok((own, files)) => write_script(rt, &own, files),
        Err(unknown) => {
            tell_unknown(rt, task.format, unknown);
            Err(())
        }
    }
}
