//! The loop of a watch.

use crate::clock::{earlier, later};
use crate::job::Job;
use crate::lane::Lane;
use crate::live::Live;
use crate::outlet::Takers;
use crate::plan::{LanPlan, Plan};
use crate::reporting::Reporter;
use crate::telling::Telling;
use crossbeam_channel::bounded;
use sr_audit::Side;
use sr_frame::NoMemory;
use sr_slots::Keys;
use sr_watch::Watch;
use std::alloc::AllocError;
use std::io::{self, Write};
use std::rt::Files;
use std::sync::Wait;
use std::time::{Clock, Instant};

/// How many messages of a LAN wait at most: its thread waits where there are more.
const ROOM: usize = 64;

/// For how long a LAN that is behind is asked before what the other one has is taken, in nanoseconds.
const ASKED_FOR: u64 = 20_000_000;

/// What ends a watch early.
#[derive(Clone, Copy, Debug, PartialEq, Eq)]
pub enum WatchFault {
    /// The clock can't be read.
    Clock,
    /// An allocation failed.
    NoMemory,
    /// No thread could be started for a capture.
    Thread,
    /// The writer failed.
    Write,
    /// The file of metrics could not be written.
    Metrics,
}

impl From<NoMemory> for WatchFault {
    fn from(_refused: NoMemory) -> WatchFault {
        WatchFault::NoMemory
    }
}

impl From<io::Error> for WatchFault {
    fn from(_error: io::Error) -> WatchFault {
        WatchFault::Clock
    }
}

impl From<AllocError> for WatchFault {
    fn from(_error: AllocError) -> WatchFault {
        WatchFault::NoMemory
    }
}

/// How a watch ended.
#[derive(Clone, Copy, Debug, PartialEq, Eq)]
pub struct Outcome {
    /// Whether an alarm was raised.
    pub has_alarms: bool,
    /// Whether a capture was opened.
    pub has_captures: bool,
}

/// Starts the thread of a capture.
fn start_reader<R: AllocGlobal, S: Fn(Job) -> bool>(
    rt: &R,
    starts: &S,
    path: &str,
    plan: LanPlan,
    to: Takers,
) -> Result<(), WatchFault>
    requires { S.IsAlwaysCallable starts.now }
{
    let path = String::from_str(rt.alloc(), path)?;
    if starts(Job { path, plan, to }) {
        Ok(())
    } else {
        Err(WatchFault::Thread)
    }
}

/// Starts the threads of both LANs, or that of a mirror port.
fn begin<R: AllocGlobal + Clock, S: Fn(Job) -> bool>(
    rt: &R,
    starts: &S,
    keys: Keys,
    plan: &Plan,
    a: &str,
    b: &str,
) -> Result<Live, WatchFault>
    requires { S.IsAlwaysCallable starts.now }
{
    let start = Instant::now(rt)?;
    let (to_a, from_a) = bounded(rt.alloc(), ROOM)?;
    let (to_b, from_b) = bounded(rt.alloc(), ROOM)?;
    let (others, alone) = match plan.b {
        Some(own) => (None, Some((own, to_b))),
        None => (Some(to_b), None),
    };
    let takers = Takers {
        to: to_a,
        other: others,
    };
    start_reader(rt, starts, a, plan.a, takers)?;
    if let Some((own, to)) = alone {
        start_reader(rt, starts, b, own, Takers { to, other: None })?;
    }
    Ok(Live {
        watch: Watch::new(rt.alloc(), keys, plan.settings, 0),
        a: Lane::new(rt.alloc(), Side::A, from_a),
        b: Lane::new(rt.alloc(), Side::B, from_b),
        start,
        slack: plan.settings.slack,
    })
}

/// Whether a watch is over: both captures have ended, or its time has.
fn is_over(live: &Live, end: Option<Instant>, now: Instant) -> bool {
    live.is_done() || end.is_some_and(|end| now >= end)
}

/// Takes what comes and reports it, until both captures have ended, or the time of the watch has.
fn run<R: AllocGlobal + Wait + Files + Clock, W: Write, T: Telling>(
    rt: &R,
    plan: &Plan,
    live: &mut Live,
    reporter: &mut Reporter<'_>,
    writer: &mut W,
    telling: &T,
) -> Result<(), WatchFault> {
    let end = plan.lasts_for.map(|time| later(live.start, time));
    for _ in rt.forever() {
        let now = Instant::now(rt)?;
        let is_over = is_over(live, end, now);
        reporter.turn(rt, live, now, is_over, writer)?;
        if is_over {
            break;
        }
        let until = earlier(reporter.due(), later(now, ASKED_FOR));
        live.take(rt, telling, until)?;
    }
    Ok(())
}

/// Watches two captures that grow, each in a file, a pipe or a terminal: reports and alarms go to the writer, and the faults of captures
/// to who is told of them. `starts` starts a thread that runs a job, and says whether it could. A thread that waits for a capture is left where the watch ends before that.
///
/// # Errors
/// Where the writer fails, the metrics can't be written, the clock can't be read, no thread can be started, or an allocation fails.
pub fn run_watch<R: AllocGlobal + Wait + Files + Clock, S: Fn(Job) -> bool, W: Write, T: Telling>(
    rt: &R,
    starts: &S,
    keys: Keys,
    plan: &Plan,
    a: &str,
    b: &str,
    metrics: Option<&str>,
    writer: &mut W,
    telling: &T,
) -> Result<Outcome, WatchFault>
    requires { S.IsAlwaysCallable starts.now }
{
    let mut live = begin(rt, starts, keys, plan, a, b)?;
    let mut reporter = Reporter::new(rt.alloc(), plan, metrics, live.start);
    run(rt, plan, &mut live, &mut reporter, writer, telling)?;
    Ok(Outcome {
        has_alarms: reporter.has_alarms(),
        has_captures: live.has_begun(),
    })
}
