//! What a node does with a line that is counted. What goes out is not printed.

ghost use Rattle.std.specs.Prelude.{◌≡◌, ◌∷◌, [], ◌++◌, ℕ, List, IfErr, OnOk, OnErr, Err};
ghost use Rattle.sr_node.specs.States.{state_of};
ghost use Rattle.sr_script.specs.declared.reading.Command.TheVariants.{Arrive};
ghost use Rattle.sr_script.specs.Commands.{IsEventLine};
ghost use Rattle.sr_session.specs.Lines.{IsOneOf};
ghost use Rattle.sr_session.specs.Octets.{StillHolds};
ghost use Rattle.sr_script.specs.Counts.{IsCounted};
ghost use Rattle.sr_script.specs.Replies.{ArrivesSo, Obeys};
ghost use Rattle.sr_script.specs.Tallies.{Tallied};

use crate::answering::{arrive, obey, tell_refusal};
use crate::counts::Counts;
use crate::reading::{Command, command_of};
use crate::unprinted::drop_all_waiting;
use sr_forwarding::{Role, RoleKind};
use sr_frame::Port;
use sr_node::NodeOf;
use sr_session::FaultKind;
use sr_text::Text;
use std::alloc::Global;

/// Has the node obey an arrival of the line with this number, counts it, and appends a line where the node refuses.
fn count_arrival<R: Role>(
    role: RoleKind,
    node: &mut NodeOf<R>,
    counts: &mut Counts,
    number: u64,
    port: Port,
    octets: &[u8],
    time: u64,
    text: &mut Text,
) -> Result<(), FaultKind>
    ensures ok { OnOk result ((told : List ℕ) × ArrivesSo role (state_of R.meaning node.old) number
        port time octets.now told (state_of R.meaning node.new) × IsCounted number (Arrive port
        time) told counts.old counts.new × (text.new ≡ text.old ++ told)) }
    ensures kept { OnErr result (StillHolds text.old text.new) }
    ensures err { IfErr result (λ kind. kind ≡ FaultKind.Memory) }
{
    match arrive(role, node, port, octets, time) {
        Ok(_) => {
            counts.count_taken(port);
            Ok(())
        }
        Err(fault) => {
            counts.count_refused(port, fault);
            tell_refusal(text, number, fault)
        }
    }
}

/// Has the node obey a command of the line with this number, counts it, and appends a line where the node refuses.
fn obey_counted<R: Role>(
    alloc: Global,
    role: RoleKind,
    node: &mut NodeOf<R>,
    counts: &mut Counts,
    number: u64,
    command: Command,
    octets: &mut Vec<u8>,
    text: &mut Text,
) -> Result<(), FaultKind>
    ensures ok { OnOk result ((told : List ℕ) × Obeys role (state_of R.meaning node.old) number
        command octets.old.items told (state_of R.meaning node.new) × IsCounted number command told
        counts.old counts.new × (text.new ≡ text.old ++ told)) }
    ensures kept { OnErr result (StillHolds text.old text.new) }
    ensures err { IfErr result (λ kind. kind ≡ FaultKind.Memory) }
{
    match command {
        Command::Arrive(port, time) => {
            count_arrival(role, node, counts, number, port, octets, time, text)
        }
        Command::Skip => obey(alloc, role, node, number, command, octets, text),
        Command::Send(_) => obey(alloc, role, node, number, command, octets, text),
        Command::Tick(_) => obey(alloc, role, node, number, command, octets, text),
    }
}

/// Has the node obey a line, counts it, then takes all that waits, and prints none of it.
///
/// # Errors
/// Those of `answer`.
pub(crate) fn tally<R: Role>(
    alloc: Global,
    role: RoleKind,
    node: &mut NodeOf<R>,
    counts: &mut Counts,
    number: u64,
    line: &[u8],
    octets: &mut Vec<u8>,
    text: &mut Text,
) -> Result<(), FaultKind>
    ensures ok { OnOk result ((answer : List ℕ) × Tallied role (state_of R.meaning node.old)
        counts.old number line.now answer (state_of R.meaning node.new) counts.new × (text.new
        ≡ text.old ++ answer)) }
    ensures kept { OnErr result (StillHolds text.old text.new) }
    ensures known { OnOk result (IsEventLine role line.now) }
    ensures bad { result ≡ Err FaultKind.Line → IsEventLine role line.now → ⊥ }
    ensures memory { result ≡ Err FaultKind.Memory → IsEventLine role line.now }
    ensures fault { IfErr result (λ kind. IsOneOf kind (FaultKind.Line ∷ FaultKind.Memory ∷ [])) }
{
    let command = command_of(role, line, octets)?;
    obey_counted(alloc, role, node, counts, number, command, octets, text)?;
    drop_all_waiting(node);
    Ok(())
}
