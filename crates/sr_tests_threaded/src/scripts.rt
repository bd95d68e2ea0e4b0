//! Scripts whose nodes run on threads: what is printed of each node.

ghost use Rattle.std.specs.Prelude.{◌<◌};

use sr_dup_table::Width;
use sr_node::{Mode, Settings};
use sr_session::{Fault, FaultKind};
use sr_threaded_script::{ThreadedFault, ThreadedNet, ThreadedSetup, run_threaded};
use std::alloc::Global;
use std::sync::Wait;
use std::test::*;
use std::thread::Threads;

/// A step of a test.
#[derive(Clone, Copy)]
enum Step {
    /// Of this script three nodes print, behind this, how each settled, and no frame that comes up twice or where it was sent.
    Settles(ThreadedNet, Settings, &'static [u8], &'static [u8]),
    /// Of two frames that node 0 sends to all, three nodes print both at each of the others, in order, in one of many runs.
    Arrive(ThreadedNet),
    /// This script is none, and nothing is printed.
    IsNone(&'static [u8]),
}

// How many turns each worker makes.
const TURNS: u64 = 10_000;

// How many, where frames are to arrive, and in how many runs at most: how long a thread runs before the next one is up to the system.
const MANY_TURNS: u64 = 40_000;

const RUNS: u32 = 200;

const PLAIN: Settings = Settings::PLAIN;

const WIDE_X: Settings = Settings {
    mode: Mode::X,
    width: Width::Wide,
};

// What a node prints where all is well.
const SETTLED: [&[u8]; 3] = [
    b"node 0 settled\nlost 0 0\n",
    b"node 1 settled\nlost 1 0\n",
    b"node 2 settled\nlost 2 0\n",
];

// The line of the frame that node 0 sends to all, at nodes 1 and 2.
const UPS: [&[u8]; 2] = [
    b"up 1 ffffffffffff02000000000088b501000000000000000000000000000000000000000000000000000000000000000000000000000000000000000000\n",
    b"up 2 ffffffffffff02000000000088b501000000000000000000000000000000000000000000000000000000000000000000000000000000000000000000\n",
];

// What node 0 sends where frames are to arrive.
const TWO_FRAMES: &[u8] = b"send 0 all 01\nsend 0 all 02\n";

// The line of the second of them at nodes 1 and 2.
const NEXT_UPS: [&[u8]; 2] = [
    b"up 1 ffffffffffff02000000000088b502000000000000000000000000000000000000000000000000000000000000000000000000000000000000000000\n",
    b"up 2 ffffffffffff02000000000088b502000000000000000000000000000000000000000000000000000000000000000000000000000000000000000000\n",
];

// What stands behind the front of a text, if it begins with that.
fn behind<'a>(text: &'a [u8], front: &[u8]) -> Option<&'a [u8]> {
    text.strip_prefix(front)
}

// What stands behind the front, or all where it does not begin with that.
fn behind_any<'a>(text: &'a [u8], front: &[u8]) -> &'a [u8] {
    text.strip_prefix(front).unwrap_or(text)
}

// Whether three nodes settled, each of the others with the frame once at most.
fn is_settled(text: &[u8]) -> bool {
    let Some(rest) = behind(text, SETTLED[0]) else {
        return false;
    };
    let Some(rest) = behind(behind_any(rest, UPS[0]), SETTLED[1]) else {
        return false;
    };
    behind(behind_any(rest, UPS[1]), SETTLED[2]) == Some(&[])
}

// What stands behind both frames at one of the others, and how it settled.
fn behind_both(text: &[u8], other: usize) -> Option<&[u8]>
    requires { other < 2 }
{
    let rest = behind(text, UPS[other])?;
    let rest = behind(rest, NEXT_UPS[other])?;
    behind(rest, SETTLED[other + 1])
}

// Whether three nodes settled, and each of the others was handed both frames, in order.
fn have_arrived(text: &[u8]) -> Option<bool> {
    let rest = behind(text, SETTLED[0])?;
    let rest = behind_both(rest, 0)?;
    let rest = behind_both(rest, 1)?;
    Some(rest.is_empty())
}

// What a script on three nodes prints in so many turns, or what ended it.
fn printed<W: Threads + Wait + Sync>(
    rt: &W,
    alloc: Global,
    net: ThreadedNet,
    settings: Settings,
    script: &[u8],
    turns: u64,
    writer: &mut Vec<u8>,
) -> Result<(), ThreadedFault> {
    let setup = ThreadedSetup {
        net,
        nodes: 3,
        settings,
    };
    let mut reader = script;
    run_threaded(rt, alloc, &setup, turns, &mut reader, writer)
}

// Whether both frames arrive in one of the runs.
fn arrive<W: Threads + Wait + Sync>(rt: &W, alloc: Global, net: ThreadedNet) -> bool {
    for _ in 0..RUNS {
        let mut writer = Vec::new(alloc);
        let ran = printed(rt, alloc, net, PLAIN, TWO_FRAMES, MANY_TURNS, &mut writer);
        if ran.is_ok() && have_arrived(&writer) == Some(true) {
            return true;
        }
    }
    false
}

fn holds<W: Threads + Wait + Sync>(rt: &W, alloc: Global, step: Step) -> bool {
    let mut writer = Vec::new(alloc);
    match step {
        Step::Settles(net, settings, script, front) => {
            let ran = printed(rt, alloc, net, settings, script, TURNS, &mut writer);
            ran.is_ok() && behind(&writer, front).is_some_and(is_settled)
        }
        Step::Arrive(net) => arrive(rt, alloc, net),
        Step::IsNone(script) => {
            let ran = printed(
                rt,
                alloc,
                ThreadedNet::Ring,
                PLAIN,
                script,
                TURNS,
                &mut writer,
            );
            let fault = Fault {
                line: 1,
                kind: FaultKind::Line,
            };
            ran == Err(ThreadedFault::Script(fault)) && writer.is_empty()
        }
    }
}

// The place of the first step that does not hold.
fn first_wrong<W: Threads + Wait + Sync>(rt: &W, alloc: Global, steps: &[Step]) -> Option<usize> {
    for (place, step) in steps.iter().enumerate() {
        if !holds(rt, alloc, *step) {
            return Some(place);
        }
    }
    None
}

// One frame to all, beside lines that say nothing or are refused.
const STEPS: &[Step] = &[
    Step::Settles(ThreadedNet::Ring, PLAIN, b"send 0 all 01\n", b""),
    Step::Settles(ThreadedNet::Ring, WIDE_X, b"send 0 all 01\n", b""),
    Step::Settles(ThreadedNet::TwinLan, PLAIN, b"send 0 all 01\n", b""),
    Step::Settles(ThreadedNet::TwinLan, WIDE_X, b"send 0 all 01\n", b""),
    Step::Settles(
        ThreadedNet::Ring,
        PLAIN,
        b"# a comment\n\nsend 3 all 01\nsend 0 3 01\nsend 0 all 01",
        b"refused 3 NoSuchNode\nrefused 4 NoSuchNode\n",
    ),
    Step::IsNone(b"flow\n"),
    Step::IsNone(b"tick 0 0\n"),
    Step::IsNone(b"send 0 all\n"),
];

// Two frames, one behind the other.
const ARRIVALS: &[Step] = &[
    Step::Arrive(ThreadedNet::Ring),
    Step::Arrive(ThreadedNet::TwinLan),
];

#[test]
fn each_node_prints_how_it_settled(rt: HostRuntime) {
    let wrong = first_wrong(&rt, rt.alloc(), STEPS);
    assert_eq!(&rt; wrong, None);
}

#[test]
fn what_a_host_sends_is_printed_where_it_arrives(rt: HostRuntime) {
    let wrong = first_wrong(&rt, rt.alloc(), ARRIVALS);
    assert_eq!(&rt; wrong, None);
}
