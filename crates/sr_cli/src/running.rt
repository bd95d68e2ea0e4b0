//! Runs of a script on standard input, on a node or on a plant. What ends one early is told on standard error at once: its first line
//! is the fault, and the second says what is wrong and what to do.

use crate::kept::{Kept, MAX_KEPT};
use crate::meanings::{plant_of, setup_of, threads_of};
use crate::stations::station_of;
use sr_advice::{Flaw, ScriptKind, found_in, is_capture, tail_advice};
use sr_command_io::{Pipe, Spelled};
use sr_forwarding::RoleKind;
use sr_json_lines::{JsonLines, JsonStatus};
use sr_options::{LineFormat, NodeTask, PlantFormat, PlantTask, ThreadsTask};
use sr_plant_picture::run_picture;
use sr_plant_script::{PlantSetup, run_plant};
use sr_script::{Report, Setup, run_leaving};
use sr_session::{Fault, FaultKind, NOT_BEGUN};
use sr_slots::Keys;
use sr_text::Text;
use sr_threaded_script::{ThreadedFault, is_threaded_line, run_threaded};
use std::alloc::{AllocError, Global};
use std::io::{self, BufReader, Read, Write};
use std::random::RandomSource;
use std::sync::Wait;
use std::thread::Threads;

/// How many octets of a script are read at once: as many as a pipe holds. What is printed for their lines is then written at once.
const READ_AHEAD: usize = 64 * 1024;

/// The most lines that a script has.
const MAX_LINES: u64 = 1_000_000;

/// No keys could be drawn.
const UNREAD: Fault = Fault {
    line: 1,
    kind: FaultKind::Read,
};

/// A script that is read ahead.
type Script<R> = BufReader<Kept<R>>;

/// The script on a reader.
fn script_of<R: Read + Drop>(alloc: Global, reader: R) -> Result<Script<R>, AllocError> {
    let kept = Kept::new(alloc, reader)?;
    match BufReader::with_capacity(alloc, READ_AHEAD, kept) {
        Ok(script) => Ok(script),
        Err(_) => Err(AllocError),
    }
}

/// Whether a fault of a run is that its line is none of a script.
fn is_none(outcome: Result<(), Fault>) -> bool {
    match outcome {
        Err(fault) => fault.kind == FaultKind::Line,
        Ok(()) => false,
    }
}

/// The octets up to the first LF.
fn first_line(octets: &[u8]) -> &[u8] {
    for at in 0..octets.len() {
        if octets[at] == b'\n' {
            return &octets[..at];
        }
    }
    octets
}

/// The octets behind the last LF but one that ends them.
fn last_line(octets: &[u8]) -> &[u8] {
    let line = octets.strip_suffix(b"\n").unwrap_or(octets);
    for before in 0..line.len() {
        let at = line.len() - 1 - before;
        if line[at] == b'\n' {
            return &line[at + 1..];
        }
    }
    line
}

/// Says that a line is none of a script, and what is wrong with it.
fn tell_line<R: Eprint>(rt: &R, number: u64, line: &[u8], kind: ScriptKind) {
    let fault = Fault {
        line: number,
        kind: FaultKind::Line,
    };
    let _ = match found_in(line, kind) {
        Some(found) => {
            let column = found.at.saturating_add(1);
            let flaw = found.flaw;
            eprintln!(rt; "{fault}\nline {number}, column {column}: {flaw}")
        }
        None => eprintln!(rt; "{fault}"),
    };
}

/// Says that a line is too long, of which these octets were taken, or behind the last that a script has.
fn tell_long<R: Eprint>(rt: &R, fault: Fault, line: &[u8]) {
    let number = fault.line;
    let _ = if number > MAX_LINES {
        eprintln!(rt;
            "{fault}\na script has at most {MAX_LINES} lines: take a part by --from and --to of seamless script"
        )
    } else if is_capture(line) {
        let flaw = Flaw::Capture;
        eprintln!(rt; "{fault}\nline {number}, column 1: {flaw}")
    } else {
        eprintln!(rt; "{fault}\nline {number}: a line has at most 8000 octets")
    };
}

/// What a script for a node of this role is for.
fn kind_of(role: RoleKind) -> ScriptKind {
    if role.has_interlink() {
        ScriptKind::RedBox
    } else {
        ScriptKind::Node
    }
}

/// The place up to which a script was taken: the end of what was taken of it, and the next line that comes.
#[derive(Drop)]
struct Ends {
    tail: Vec<u8>,
    coming: Vec<u8>,
}

impl Ends {
    /// The last line that was taken.
    fn taken(&self) -> &[u8] {
        last_line(self.tail.as_slice())
    }
}

/// A list of these octets.
fn copied(alloc: Global, octets: &[u8]) -> Result<Vec<u8>, AllocError> {
    let mut list = Vec::new(alloc);
    list.extend_from_slice(octets)?;
    Ok(list)
}

/// The place up to which a script was taken. The buffer goes back over what was taken of it.
fn ends_of<R: Read + Drop>(alloc: Global, script: &mut Script<R>) -> Result<Ends, AllocError> {
    let coming = copied(alloc, first_line(script.buffer()))?;
    let mut tail = copied(alloc, script.get_ref().before())?;
    let given = script.get_ref().last_len();
    let back = given.saturating_sub(script.buffer().len()).min(MAX_KEPT);
    if script.seek_relative(-(back as i64)).is_ok() {
        tail.extend_from_slice(script.buffer().get(..back).unwrap_or(&[]))?;
    }
    Ok(Ends { tail, coming })
}

/// The script that is the line that was taken last, behind the same reader.
fn again_of<R: Read + Drop>(
    alloc: Global,
    script: Script<R>,
    ends: &Ends,
) -> Result<Script<R>, AllocError> {
    let mut kept = script.into_inner();
    kept.give(ends.taken())?;
    match BufReader::with_capacity(alloc, READ_AHEAD, kept) {
        Ok(script) => Ok(script),
        Err(_) => Err(AllocError),
    }
}

/// Says what ended a run, but where nobody reads any more what it writes. True where a line did that is none of a script: that is
/// told with what is wrong with it, by `tell_line`. These octets of the line that ended it were taken.
fn tell<R: Eprint>(rt: &R, fault: Fault, is_closed: bool, taken: &[u8]) -> bool {
    match fault.kind {
        FaultKind::Line => return true,
        FaultKind::Write if is_closed => {}
        FaultKind::Long => tell_long(rt, fault, taken),
        _ => {
            let _ = eprintln!(rt; "{fault}");
        }
    }
    false
}

/// Says what is wrong with the line that ended a run: the one that was taken last, if that is none of a script, else the next.
fn tell_ended<R: Eprint>(
    rt: &R,
    number: u64,
    ends: &Ends,
    taken: Result<(), Fault>,
    kind: ScriptKind,
) {
    let line = if is_none(taken) {
        ends.taken()
    } else {
        ends.coming.as_slice()
    };
    tell_line(rt, number, line, kind);
}

/// Says what looks wrong at the end of a script that a node has obeyed, where memory allows.
fn tell_end<R: Eprint, S: Read + Drop>(
    rt: &R,
    alloc: Global,
    setup: &Setup,
    script: &mut Script<S>,
) {
    if let Ok(ends) = ends_of(alloc, script) {
        let advice = tail_advice(setup.role, setup.mac, ends.tail.as_slice(), ends.taken());
        let _ = eprint!(rt; "{advice}");
    }
}

/// A writer of what is reported of a node, of which these are the members.
fn spelled_of<W>(
    alloc: Global,
    format: LineFormat,
    report: Report,
    station: Text,
    inner: W,
) -> Spelled<W> {
    match (format, report) {
        (LineFormat::Json, Report::Status | Report::Tally) => {
            Spelled::Status(JsonStatus::new(alloc, inner, station))
        }
        (format, _) => Spelled::new(alloc, format, inner),
    }
}

/// Runs the script on standard input on a node, and writes what is reported of it to standard output. The keys of the node's
/// tables are drawn anew. What ends it early is told.
pub fn run_node<R: AllocGlobal + Print + Eprint + Input + RandomSource>(
    rt: &R,
    report: Report,
    task: &NodeTask,
) -> Result<(), ()> {
    let alloc = rt.alloc();
    let Ok(keys) = Keys::new(rt) else {
        let _ = eprintln!(rt; "{UNREAD}");
        return Err(());
    };
    let Ok(mut script) = script_of(alloc, rt.reader()) else {
        let _ = eprintln!(rt; "{NOT_BEGUN}");
        return Err(());
    };
    let Ok(station) = station_of(alloc, task) else {
        let _ = eprintln!(rt; "{NOT_BEGUN}");
        return Err(());
    };
    let setup = Setup {
        keys,
        ..setup_of(task)
    };
    let pipe = Pipe::new(io::writer(rt));
    let mut writer = spelled_of(alloc, task.format, report, station, pipe);
    let mut line = Vec::new(alloc);
    match run_leaving(alloc, &setup, report, &mut script, &mut writer, &mut line) {
        Ok(()) => {
            tell_end(rt, alloc, &setup, &mut script);
            Ok(())
        }
        Err(fault) => {
            let fault = writer.fault_of(fault);
            if tell(rt, fault, writer.get_ref().is_closed(), line.as_slice()) {
                tell_line(rt, fault.line, line.as_slice(), kind_of(setup.role));
            }
            Err(())
        }
    }
}

/// Runs a script on a new plant, and writes what comes of it as it is to be told.
fn run_told<R: Read + Drop, W: Write>(
    alloc: Global,
    setup: &PlantSetup,
    format: PlantFormat,
    script: &mut Script<R>,
    writer: &mut W,
) -> Result<(), Fault> {
    match format {
        PlantFormat::Lines(LineFormat::Text) => run_plant(alloc, setup, script, writer),
        PlantFormat::Lines(LineFormat::Json) => {
            let mut lines = JsonLines::new(alloc, writer);
            match run_plant(alloc, setup, script, &mut lines) {
                Ok(()) => Ok(()),
                Err(fault) => Err(lines.fault_of(fault)),
            }
        }
        PlantFormat::Svg => run_picture(alloc, setup, script, writer),
    }
}

/// Runs the script on standard input on a new plant, and writes what comes of it to standard output. What ends it early is told.
pub fn play<R: AllocGlobal + Print + Eprint + Input>(rt: &R, task: &PlantTask) -> Result<(), ()> {
    let alloc = rt.alloc();
    let setup = plant_of(task);
    let Ok(mut script) = script_of(alloc, rt.reader()) else {
        let _ = eprintln!(rt; "{NOT_BEGUN}");
        return Err(());
    };
    let mut writer = Pipe::new(io::writer(rt));
    let Err(fault) = run_told(alloc, &setup, task.format, &mut script, &mut writer) else {
        return Ok(());
    };
    let Ok(ends) = ends_of(alloc, &mut script) else {
        let _ = eprintln!(rt; "{fault}");
        return Err(());
    };
    if tell(rt, fault, writer.is_closed(), ends.taken()) {
        if let Ok(mut again) = again_of(alloc, script, &ends) {
            writer.mute();
            let taken = run_plant(alloc, &setup, &mut again, &mut writer);
            tell_ended(rt, fault.line, &ends, taken, ScriptKind::Network);
        } else {
            let _ = eprintln!(rt; "{fault}");
        }
    }
    Err(())
}

/// Says what is wrong with the line that ended a threaded run: the one that was taken last, if that is none, else the next.
fn tell_threaded_line<R: Eprint>(rt: &R, alloc: Global, number: u64, ends: &Ends) {
    let line = if is_threaded_line(alloc, ends.taken()) {
        ends.coming.as_slice()
    } else {
        ends.taken()
    };
    tell_line(rt, number, line, ScriptKind::Threads);
}

/// Says what ended a threaded run, but where nobody reads any more what it writes.
fn tell_threaded<R: Eprint>(
    rt: &R,
    alloc: Global,
    fault: ThreadedFault,
    is_closed: bool,
    ends: &Ends,
) {
    match fault {
        ThreadedFault::Script(fault) => {
            if tell(rt, fault, is_closed, ends.taken()) {
                tell_threaded_line(rt, alloc, fault.line, ends);
            }
        }
        ThreadedFault::NoThread(_) => {
            let _ = eprintln!(rt; "{fault}\nno thread can be started: take fewer nodes");
        }
    }
}

/// Runs what a script sends, on a new plant whose nodes run on threads, and writes what comes of it as it is to be told.
fn run_threaded_told<S: Read + Drop, W: Write, R: Threads + Wait + Sync>(
    rt: &R,
    alloc: Global,
    task: &ThreadsTask,
    script: &mut Script<S>,
    writer: &mut W,
) -> Result<(), ThreadedFault> {
    let setup = threads_of(task);
    match task.format {
        LineFormat::Text => run_threaded(rt, alloc, &setup, task.turns, script, writer),
        LineFormat::Json => {
            let mut lines = JsonLines::new(alloc, writer);
            match run_threaded(rt, alloc, &setup, task.turns, script, &mut lines) {
                Err(ThreadedFault::Script(fault)) => {
                    Err(ThreadedFault::Script(lines.fault_of(fault)))
                }
                outcome => outcome,
            }
        }
    }
}

/// Runs what the script on standard input sends, on a new plant whose nodes run on threads, and writes what comes of it to
/// standard output. What ends it early is told.
pub fn play_threaded<R: AllocGlobal + Print + Eprint + Input + Threads + Wait + Sync>(
    rt: &R,
    task: &ThreadsTask,
) -> Result<(), ()> {
    let alloc = rt.alloc();
    let Ok(mut script) = script_of(alloc, rt.reader()) else {
        let _ = eprintln!(rt; "{NOT_BEGUN}");
        return Err(());
    };
    let mut writer = Pipe::new(io::writer(rt));
    let Err(fault) = run_threaded_told(rt, alloc, task, &mut script, &mut writer) else {
        return Ok(());
    };
    let Ok(ends) = ends_of(alloc, &mut script) else {
        let _ = eprintln!(rt; "{fault}");
        return Err(());
    };
    tell_threaded(rt, alloc, fault, writer.is_closed(), &ends);
    Err(())
}
