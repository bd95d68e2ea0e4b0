//! The runs of a script on a new node.

ghost use Rattle.std.specs.Prelude.{◌≡◌, IfOk};
ghost use Rattle.sr_forwarding.specs.RoleImages.{role_of};
ghost use Rattle.sr_script.specs.Replies.{replay_dialogue};
ghost use Rattle.sr_session.specs.LeftLines.{Leaves};
ghost use Rattle.sr_session.specs.Runs.{Runs};
ghost use Rattle.sr_node.specs.States.{state_of};
ghost use Rattle.sr_script.specs.Stations.{at_work, start_of};
ghost use Rattle.sr_script.specs.Statuses.{status_dialogue};
ghost use Rattle.sr_script.specs.Reports.{RunsAs};
ghost use Rattle.sr_script.specs.Tallies.{tally_dialogue, tally_start};

use crate::counts::Counts;
use crate::node_session::NodeSession;
use crate::setups::{Report, Setup};
use crate::status::StatusSession;
use crate::tallies::TallySession;
use sr_forwarding::{Danh, Danp, Role, RoleKind};
use sr_frame::NoMemory;
use sr_node::NodeOf;
use sr_redbox::{HsrBox, PrpBox, SanBox};
use sr_session::{Fault, MAX_LINE, NOT_BEGUN, Session, run_session_leaving};
use std::alloc::{AllocError, Global};
use std::io::{BufRead, Write};

/// A list of so many octets. It is a function of its own, so that no proof works out a list of thousands.
fn list_of(alloc: Global, count: usize) -> Result<Vec<u8>, AllocError> {
    let mut octets = Vec::new(alloc);
    octets.resize(count, 0)?;
    Ok(octets)
}

/// A new node over this role, ready for a script. An error: an allocation failed.
fn session_of<P: Role>(alloc: Global, setup: &Setup, role: P) -> Result<NodeSession<P>, NoMemory>
    requires { P.meaning role ≡ role_of setup.now.role setup.now.mac }
    ensures { IfOk result (λ s. at_work s.role (state_of P.meaning s.node) ≡ start_of setup.now) }
{
    let arriving = list_of(alloc, MAX_LINE / 2)?;
    let node = NodeOf::with_keys(alloc, role, setup.settings, setup.keys)?;
    Ok(NodeSession {
        alloc,
        role: setup.role,
        node,
        octets: Vec::new(alloc),
        arriving,
        frame: Vec::new(alloc),
    })
}

/// Has a session obey the script, and drops it. It is generic in the session, so that its proof does not go through the drop code of
/// a node.
fn run_owned<S: Session + Drop, R: BufRead, W: Write>(
    alloc: Global,
    mut session: S,
    reader: &mut R,
    writer: &mut W,
    line: &mut Vec<u8>,
) -> Result<(), Fault>
    ensures runs { Runs S.dialogue (S.state session) (R.remaining reader.old)
        (R.remaining reader.new) (W.contents writer.old) (W.contents writer.new) result }
    ensures left { Leaves result (R.remaining reader.old) line.new.items }
{
    run_session_leaving(alloc, &mut session, reader, writer, line)
}

/// Has a new node over this role obey the script.
// speed: D-session-one-loop. Compiled for each role, so that no frame asks which role it is.
fn run_over<P: Role, R: BufRead, W: Write>(
    alloc: Global,
    setup: &Setup,
    role: P,
    report: Report,
    reader: &mut R,
    writer: &mut W,
    line: &mut Vec<u8>,
) -> Result<(), Fault>
    requires { P.meaning role ≡ role_of setup.now.role setup.now.mac }
    ensures runs { RunsAs report setup.now (R.remaining reader.old) (R.remaining reader.new)
        (W.contents writer.old) (W.contents writer.new) result }
    ensures left { Leaves result (R.remaining reader.old) line.new.items }
{
    match session_of(alloc, setup, role) {
        Ok(session) => match report {
            Report::Frames => run_owned(alloc, session, reader, writer, line),
            Report::Status => run_owned(alloc, StatusSession(session), reader, writer, line),
            Report::Tally => {
                let counts = Counts::none();
                let counting = TallySession {
                    at_work: session,
                    counts,
                };
                run_owned(alloc, counting, reader, writer, line)
            }
        },
        Err(NoMemory) => Err(NOT_BEGUN),
    }
}

/// Runs the script that the reader has left on a new node, and writes what is reported of it: what `run`, `run_status` or `run_tally`
/// writes.
///
/// `line` is given up for memory. Where a line ends the run, it is then in `line`: whole with the fault `Line`, and its first 8001
/// octets with `Long` of a line of more than 8000.
///
/// # Errors
/// Those of `run`.
pub fn run_leaving<R: BufRead, W: Write>(
    alloc: Global,
    setup: &Setup,
    report: Report,
    reader: &mut R,
    writer: &mut W,
    line: &mut Vec<u8>,
) -> Result<(), Fault>
    // What is written is what is reported of the answers to the lines.
    ensures runs { RunsAs report setup.now (R.remaining reader.old) (R.remaining reader.new)
        (W.contents writer.old) (W.contents writer.new) result }
    // The line that ended it is left.
    ensures left { Leaves result (R.remaining reader.old) line.new.items }
{
    match setup.role {
        RoleKind::Danp => {
            let danp = Danp::new(setup.mac);
            run_over(alloc, setup, danp, report, reader, writer, line)
        }
        RoleKind::Danh => {
            let danh = Danh::new(setup.mac);
            run_over(alloc, setup, danh, report, reader, writer, line)
        }
        RoleKind::San => {
            let san = SanBox::with_keys(alloc, setup.mac, setup.keys);
            run_over(alloc, setup, san, report, reader, writer, line)
        }
        RoleKind::Prp { lan, net } => {
            let prp = PrpBox::of(setup.mac, lan, net);
            run_over(alloc, setup, prp, report, reader, writer, line)
        }
        RoleKind::Hsr => {
            let hsr = HsrBox::new(setup.mac);
            run_over(alloc, setup, hsr, report, reader, writer, line)
        }
    }
}

/// Runs the script that the reader has left on a new node, and writes what the node answers.
///
/// Lines are counted from 1. For each line is printed a line `refused N Name` where the event is refused, then a line for
/// each frame that waits at an outlet, outlet by outlet in the order H, A, B, C, first in first out. What is printed for the
/// lines that the reader has at hand is written together, and flushed, before more is read, and before a fault.
///
/// # Errors
/// `Memory` comes at line 1, whatever that line is, where an allocation before the first line is read fails. Then `Line` and `Long`
/// come at the first line that is not a line of a script, whatever memory there is. `Read`, `Write` and `Memory` come where the
/// reader, the writer or an allocation fails, and at no such line. The lines before that of the fault are answered, and nothing else
/// is written, but for text of that line where the writer failed: a part of it, or all where it could not be passed on.
pub fn run<R: BufRead, W: Write>(
    alloc: Global,
    setup: &Setup,
    reader: &mut R,
    writer: &mut W,
) -> Result<(), Fault>
    // What is written is the answers to the lines.
    ensures { Runs replay_dialogue (start_of setup.now) (R.remaining reader.old)
        (R.remaining reader.new) (W.contents writer.old) (W.contents writer.new) result }
{
    let mut line = Vec::new(alloc);
    run_leaving(alloc, setup, Report::Frames, reader, writer, &mut line)
}

/// Runs the script that the reader has left on a new node, as `run` does, and writes of what the node answers the refusals
/// alone. At the end it writes what the node then knows of others, at the node's own time: a line for each node that is not
/// forgotten, in the order of first hearing, and then one for each alarm, the oldest first.
///
/// # Errors
/// Those of `run`. For an error while the status at the end is written, the line is the number of lines plus 1.
pub fn run_status<R: BufRead, W: Write>(
    alloc: Global,
    setup: &Setup,
    reader: &mut R,
    writer: &mut W,
) -> Result<(), Fault>
    // What is written is the refusals among the answers to the lines, and then the status.
    ensures { Runs status_dialogue (start_of setup.now) (R.remaining reader.old)
        (R.remaining reader.new) (W.contents writer.old) (W.contents writer.new) result }
{
    let mut line = Vec::new(alloc);
    run_leaving(alloc, setup, Report::Status, reader, writer, &mut line)
}

/// Runs the script that the reader has left on a new node, as `run_status` does. Behind the status it writes what was counted:
/// a line for each port at which frames come in, with how many came, how many of them had the other LAN's id, and how many
/// were refused; and one with how many of these the table of sources had no place for, where there were some.
///
/// # Errors
/// Those of `run_status`.
pub fn run_tally<R: BufRead, W: Write>(
    alloc: Global,
    setup: &Setup,
    reader: &mut R,
    writer: &mut W,
) -> Result<(), Fault>
    // What is written is the refusals among the answers to the lines, and then the status and the counts.
    ensures { Runs tally_dialogue (tally_start setup.now) (R.remaining reader.old)
        (R.remaining reader.new) (W.contents writer.old) (W.contents writer.new) result }
{
    let mut line = Vec::new(alloc);
    run_leaving(alloc, setup, Report::Tally, reader, writer, &mut line)
}
