//! A script whose nodes run on threads.

ghost use Rattle.std.specs.Prelude.{◌≡◌, ◌+◌, ◌-◌, ◌^◌, min, true, IfErr, OnOk, OnErr, ℕ, List};
ghost use Rattle.std.specs.Io.KnownBytes.{Appends};
ghost use Rattle.sr_threaded_script.specs.Faults.{IsBehindLines, fault_line};
ghost use Rattle.sr_threaded_script.specs.Networks.{IsReport};
ghost use Rattle.sr_threaded_script.specs.Runs.{RunsThreaded, WritesFront};

use crate::fault::{ThreadedFault, fault_on_line};
use crate::host::Host;
use crate::network::run_network;
use crate::session::SendSession;
use crate::setup::ThreadedSetup;
use sr_session::{Fault, FaultKind, run_session, write_out};
use sr_text::Text;
use sr_workers::Feed;
use std::alloc::Global;
use std::io::{BufRead, Write};
use std::sync::Wait;
use std::thread::Threads;

// Writes what is printed at the end. False where the writer failed.
fn write_report<O: Write>(writer: &mut O, text: &Text) -> bool
    ensures front { WritesFront text.now (O.contents writer.old) (O.contents writer.new) }
    ensures all { result ≡ true
        → Appends (O.contents writer.old) (O.contents writer.new) text.now }
{
    let taken = write_out(writer, text.as_slice());
    taken == text.len() && writer.flush().is_ok()
}

// Runs the network of a script, and writes what is printed of it.
fn report<O: Write, W: Threads + Wait + Sync>(
    rt: &W,
    alloc: Global,
    setup: &ThreadedSetup,
    turns: u64,
    session: &SendSession,
    writer: &mut O,
) -> Result<(), ThreadedFault>
    ensures done { OnOk result ((text : List ℕ)
        × IsReport ⟦<Host as Feed>⟧ setup.now session.now.sent.items turns text
        × Appends (O.contents writer.old) (O.contents writer.new) text) }
    ensures failed { OnErr result ((text : List ℕ)
        × WritesFront text (O.contents writer.old) (O.contents writer.new)) }
    ensures kind { IfErr result IsBehindLines }
    ensures line { IfErr result (λ fault.
        fault_line fault ≡ min (session.now.last + 1) (2 ^ 64 - 1)) }
{
    let line = session.last.saturating_add(1);
    let mut text = Text::new(alloc);
    match run_network(rt, alloc, setup, turns, &session.sent, &mut text) {
        Ok(()) => {
            if write_report(writer, &text) {
                Ok(())
            } else {
                Err(ThreadedFault::Script(Fault {
                    line,
                    kind: FaultKind::Write,
                }))
            }
        }
        Err(fault) => Err(fault_on_line(fault, line)),
    }
}

/// Runs the script that the reader has left on a new network, whose nodes run on threads, and writes what comes of it.
///
/// A line is empty, begins with `#`, or is `send I D HEX`, by which the host of node I is to send; a line `refused N Name` is
/// printed at once where that is refused. At the end of the script the nodes run, each with three workers on a thread of its
/// own, for so many turns; all times are 0. Then for each node, in order, is printed a line `up I HEX` for each frame that
/// its host was given, in plain form; a line `node I settled`, or `node I disagrees W` with the port whose log or wires
/// disagree; and a line `lost I K`.
///
/// # Errors
/// Those of `run_plant`, of which `Memory` comes where an allocation of a worker failed too, and `NoThread`. On a fault of the
/// script no thread starts.
pub fn run_threaded<R: BufRead, O: Write, W: Threads + Wait + Sync>(
    rt: &W,
    alloc: Global,
    setup: &ThreadedSetup,
    turns: u64,
    reader: &mut R,
    writer: &mut O,
) -> Result<(), ThreadedFault>
    // What is written is what comes of the lines, and then what is printed of the network of the setup, run for so many turns.
    ensures { RunsThreaded ⟦<Host as Feed>⟧ setup.now turns (R.remaining reader.old)
        (R.remaining reader.new) (O.contents writer.old) (O.contents writer.new) result }
{
    let mut session = SendSession::new(alloc, setup);
    match run_session(alloc, &mut session, reader, writer) {
        Ok(()) => report(rt, alloc, setup, turns, &session, writer),
        Err(fault) => Err(ThreadedFault::Script(fault)),
    }
}
