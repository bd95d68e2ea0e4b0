//! The program `seamless`: runs a script of events on a redundancy node.
#![tactic(auto)]

mod arguments;
mod host;
mod kept;
mod meanings;
mod running;
mod stations;

use arguments::tell_unread;
use host::Host;
use meanings::told_format_of;
use running::{play, play_threaded, run_node};
use sr_capture_commands::{run_audit, run_merge, run_script, run_watch};
use sr_command_io::Progress;
use sr_options::{LineFormat, Refused, Task, Words, task_of};
use sr_script::Report;
use sr_watch_live::Job;
use std::io::IsTerminal;
use std::process::ExitCode;
use std::random::RandomSource;
use std::rt::{Env, Files};
use std::sync::Wait;
use std::thread::{self, Threads};
use std::time::Clock;

/// The exit status of a fault of the script, a read, a write or memory.
const RUN_FAILED: u8 = 1;

/// The exit status of a fault of the command line.
const NOT_STARTED: u8 = 2;

fn main(rt: HostRuntime) -> ExitCode {
    let progress = if rt.stderr().is_terminal() {
        Progress::Told
    } else {
        Progress::Silent
    };
    let starts = |job: Job| -> bool { thread::spawn(&rt, move || job.run(rt)).is_ok() };
    let text = Host::new(&rt, LineFormat::Text);
    let json = Host::new(&rt, LineFormat::Json);
    match start(&rt, &text, &json, progress, &starts) {
        Ok(()) => ExitCode::SUCCESS,
        Err(code) => ExitCode::from(code),
    }
}

/// Says why the command line is refused. The version is no refusal: it goes to standard output.
fn tell_refused<R: Print + Eprint>(rt: &R, refused: Refused) -> Result<(), u8> {
    if refused.is_version() {
        let _ = rt.print(refused);
        return Ok(());
    }
    let _ = rt.eprint(refused);
    Err(NOT_STARTED)
}

/// Does what the command line asks for. An error is the exit status; why is on standard error.
fn obey<
    R: AllocGlobal + Print + Eprint + Input + Files + RandomSource + Threads + Wait + Sync + Clock,
    S: Fn(Job) -> bool,
>(rt: &R, task: &Task<'_>, progress: Progress, starts: &S) -> Result<(), u8>
    requires { S.IsAlwaysCallable starts.now }
{
    let outcome = match task {
        Task::Replay(task) => run_node(rt, Report::Frames, task),
        Task::Status(task) => run_node(rt, Report::Status, task),
        Task::Tally(task) => run_node(rt, Report::Tally, task),
        Task::Script(task) => run_script(rt, task, progress),
        Task::Audit(task) => return run_audit(rt, task, progress),
        Task::Merge(task) => run_merge(rt, task, progress),
        Task::Watch(task) => return run_watch(rt, task, starts),
        Task::Plant(task) => play(rt, task),
        Task::Threads(task) => play_threaded(rt, task),
    };
    outcome.map_err(|()| RUN_FAILED)
}

/// Does what the command line asks for, on the runtime whose standard error is spelled as it says. Where that has objects, no progress is told.
fn obey_spelled<
    R: AllocGlobal + Print + Eprint + Input + Files + RandomSource + Threads + Wait + Sync + Clock,
    S: Fn(Job) -> bool,
>(text: &R, json: &R, task: &Task<'_>, progress: Progress, starts: &S) -> Result<(), u8>
    requires { S.IsAlwaysCallable starts.now }
{
    match told_format_of(task) {
        LineFormat::Text => obey(text, task, progress, starts),
        LineFormat::Json => obey(json, task, Progress::Silent, starts),
    }
}

/// Reads the command line and does what it asks for, on one of two runtimes: standard error is text there, or objects. An error is the exit
/// status; why is on standard error.
fn start<
    E: AllocGlobal + Print + Eprint + Env,
    R: AllocGlobal + Print + Eprint + Input + Files + RandomSource + Threads + Wait + Sync + Clock,
    S: Fn(Job) -> bool,
>(rt: &E, text: &R, json: &R, progress: Progress, starts: &S) -> Result<(), u8>
    requires { S.IsAlwaysCallable starts.now }
{
    let args = match std::env::args(rt) {
        Ok(args) => args,
        Err(error) => {
            tell_unread(rt, error.kind());
            return Err(NOT_STARTED);
        }
    };
    let Ok(words) = args.collect::<Vec<String>>(rt.alloc()) else {
        return Err(NOT_STARTED);
    };
    let known = Words::new();
    match task_of(rt.alloc(), &known, words.as_slice()) {
        Ok(task) => obey_spelled(text, json, &task, progress, starts),
        Err(refused) => tell_refused(rt, refused),
    }
}
