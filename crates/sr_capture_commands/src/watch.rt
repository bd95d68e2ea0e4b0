//! The subcommand `watch`: tells of captures while they grow, and of their faults.

use crate::meanings::watch_network_of;
use crate::script::tell_other;
use sr_advice::{FileFault, FileReason, Unopened, letter_of};
use sr_capture_file::Reading;
use sr_capture_script::{Inlet, ScriptFault};
use sr_command_io::Pipe;
use sr_options::{LineFormat, Paths, Ports, WatchTask};
use sr_pcapng::Wanted;
use sr_prp_trailer::Lan;
use sr_slots::Keys;
use sr_watch::Settings;
use sr_watch_lines::Format;
use sr_watch_live::{End, Job, LanPlan, Outcome, Plan, Telling, WatchFault};
use std::io::{self, BufWriter};
use std::random::RandomSource;
use std::rt::Files;
use std::sync::Wait;
use std::time::Clock;

/// The exit status of a fault of the captures, a write or memory.
const RUN_FAILED: u8 = 1;

/// The exit status of a check that found an alarm.
const ALARMED: u8 = 3;

/// The nanoseconds of a second.
const SECOND: u64 = 1_000_000_000;

/// The nanoseconds of a millisecond.
const MILLISECOND: u64 = 1_000_000;

/// For how long a source is silent before an alarm is raised: `NodeForgetTime` (IEC 62439-3).
const SILENT_FOR: u64 = 60 * SECOND;

/// The file that is read for a capture: `-` is standard input.
fn path_of<'a>(paths: Option<Paths<'a>>) -> &'a str {
    match paths.and_then(|paths| paths.path(0)) {
        Some("-") | None => "/dev/stdin",
        Some(path) => path,
    }
}

/// How the capture of a LAN is read, or that of a mirror port.
fn lan_plan_of(task: &WatchTask<'_>, lan: Option<Lan>, wanted: Wanted, delay: u64) -> LanPlan {
    LanPlan {
        lan,
        network: watch_network_of(task.network),
        reading: Reading {
            wanted,
            check_len: task.check_len,
        },
        delay,
        reopens: task.reopens,
    }
}

/// What the watch is set to.
fn settings_of(task: &WatchTask<'_>) -> Settings {
    Settings {
        slack: task.slack.saturating_mul(MILLISECOND),
        alone_for: task.bounds.alone_for.saturating_mul(SECOND),
        silent_for: SILENT_FOR,
        skew_over: task
            .bounds
            .skew_over
            .map(|micros| micros.saturating_mul(1000)),
        lost_over: task.bounds.lost_over,
    }
}

/// How the watch runs.
fn plan_of(task: &WatchTask<'_>) -> Plan {
    let wanted = task.interfaces;
    let (a, b) = match task.ports {
        Ports::Two => (
            Some(Lan::A),
            Some(lan_plan_of(task, Some(Lan::B), wanted.b, task.delays.b)),
        ),
        Ports::Mirror => (None, None),
    };
    Plan {
        a: lan_plan_of(task, a, wanted.a, task.delays.a),
        b,
        every: task.every.saturating_mul(SECOND),
        format: match task.format {
            LineFormat::Text => Format::Text,
            LineFormat::Json => Format::Json,
        },
        settings: settings_of(task),
        lasts_for: task.lasts_for.map(|seconds| seconds.saturating_mul(SECOND)),
    }
}

/// What tells of the faults of captures, on standard error.
#[derive(Clone, Copy)]
struct Teller<'a, R> {
    rt: &'a R,
    task: WatchTask<'a>,
}

impl<R: Eprint> Telling for Teller<'_, R> {
    fn tell(&self, lan: Lan, end: End) {
        let wanted = self.task.interfaces;
        let (inlet, paths, wanted) = match lan {
            Lan::A => (Inlet::A, self.task.a, wanted.a),
            Lan::B => (Inlet::B, self.task.b, wanted.b),
        };
        match end {
            End::Whole => {}
            End::Unopened(kind) => {
                let letter = letter_of(inlet);
                let path = path_of(paths);
                let unopened = Unopened { path, wanted, kind };
                let _ = eprintln!(self.rt; "fault {letter} open 0\n{unopened}");
            }
            End::Broken(fault) => {
                let told = FileFault { inlet, fault };
                let reason = FileReason(fault.reason);
                let _ = eprintln!(self.rt; "{told}\n{reason}");
            }
        }
    }
}

/// Says what ended a watch early, but where nobody reads any more what is written.
fn tell_stopped<R: Eprint>(rt: &R, task: &WatchTask<'_>, fault: WatchFault, is_closed: bool) {
    match fault {
        WatchFault::Write => tell_other(rt, ScriptFault::Write, is_closed),
        WatchFault::NoMemory => tell_other(rt, ScriptFault::NoMemory, is_closed),
        WatchFault::Metrics => {
            let path = task.metrics.unwrap_or("");
            let _ = eprintln!(rt; "fault write\n{path}: the metrics can't be written");
        }
        WatchFault::Thread => {
            let _ = eprintln!(rt; "fault thread");
        }
        WatchFault::Clock => {
            let _ = eprintln!(rt; "fault read\nthe clock can't be read");
        }
    }
}

/// How a watch that came to its end ends the program. The error is the exit status.
fn status_of(task: &WatchTask<'_>, outcome: Outcome) -> Result<(), u8> {
    if !outcome.has_captures {
        Err(RUN_FAILED)
    } else if task.is_check && outcome.has_alarms {
        Err(ALARMED)
    } else {
        Ok(())
    }
}

/// Tells at each interval what the captures say while they grow, on standard output and in a file of metrics. A fault is told on standard
/// error. `starts` starts a thread for a capture. An error is the exit status.
pub fn run_watch<
    R: AllocGlobal + Print + Eprint + Files + RandomSource + Wait + Clock,
    S: Fn(Job) -> bool,
>(rt: &R, task: &WatchTask<'_>, starts: &S) -> Result<(), u8>
    requires { S.IsAlwaysCallable starts.now }
{
    let Ok(keys) = Keys::new(rt) else {
        let _ = eprintln!(rt; "fault read");
        return Err(RUN_FAILED);
    };
    let Ok(buffered) = BufWriter::new(rt.alloc(), Pipe::new(io::writer(rt))) else {
        tell_other(rt, ScriptFault::NoMemory, false);
        return Err(RUN_FAILED);
    };
    let mut writer = buffered;
    let teller = Teller { rt, task: *task };
    let outcome = sr_watch_live::run_watch(
        rt,
        starts,
        keys,
        &plan_of(task),
        path_of(task.a),
        path_of(task.b),
        task.metrics,
        &mut writer,
        &teller,
    );
    match outcome {
        Ok(outcome) => status_of(task, outcome),
        Err(fault) => {
            tell_stopped(rt, task, fault, writer.get_ref().is_closed());
            Err(RUN_FAILED)
        }
    }
}
