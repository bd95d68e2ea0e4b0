//! What a plant does with a line of a script.

ghost use Rattle.std.specs.Prelude.{◌≡◌, ◌∷◌, [], ℕ, List, length, OnOk, IfErr, Err};
ghost use Rattle.sr_session.specs.Lines.{IsOneOf};
ghost use Rattle.sr_plant_script.specs.Commands.{IsPlantLine};
ghost use Rattle.sr_plant_script.specs.Sendings.{send_refusal};
ghost use Rattle.sr_plant_script.specs.Happenings.{event_on};
ghost use Rattle.sr_plant_script.specs.Replies.{Sends, Obeys, Replied};

use crate::command::{Command, Receiver, Verb};
use crate::obeying::{flow, happen};
use crate::reading::command_of;
use crate::refusing::tell_refusal;
use crate::sending::{send_refusal, sent_frame};
use crate::served::Served;
use sr_plant::PlantEvent;
use sr_session::FaultKind;
use sr_text::Text;
use std::alloc::Global;

/// The event at a place or a link.
fn event_on(verb: Verb, place: usize) -> PlantEvent
    ensures { result ≡ event_on verb place }
{
    match verb {
        Verb::Carry => PlantEvent::Carry(place),
        Verb::Drop => PlantEvent::Drop(place),
        Verb::Repeat => PlantEvent::Repeat(place),
        Verb::Cut => PlantEvent::Cut(place),
        Verb::Mend => PlantEvent::Mend(place),
    }
}

/// The host of a node sends the octets, or is refused.
fn send(
    alloc: Global,
    network: &mut Served,
    number: u64,
    node: usize,
    receiver: Receiver,
    octets: &[u8],
    text: &mut Text,
) -> Result<(), FaultKind>
    requires { text.old ≡ [] }
    ensures ok { OnOk result (Sends network.old number node receiver octets.now
        (send_refusal (length network.old.nodes) node receiver (length octets.now))
        text.new network.new) }
    ensures err { IfErr result (λ kind. kind ≡ FaultKind.Memory) }
{
    if let Some(fault) = send_refusal(network.node_count(), node, receiver, octets) {
        return tell_refusal(text, number, fault);
    }
    let frame = sent_frame(alloc, node, receiver, octets)?;
    happen(network, number, &PlantEvent::Send { node, frame }, text)
}

/// Has the plant obey a command of the line with this number.
fn obey(
    alloc: Global,
    network: &mut Served,
    number: u64,
    command: Command,
    octets: &[u8],
    text: &mut Text,
) -> Result<(), FaultKind>
    requires { text.old ≡ [] }
    ensures ok { OnOk result
        (Obeys network.old number command octets.now text.new network.new) }
    ensures err { IfErr result (λ kind. kind ≡ FaultKind.Memory) }
{
    match command {
        Command::Skip => Ok(()),
        Command::Send(node, receiver) => send(alloc, network, number, node, receiver, octets, text),
        Command::On(verb, place) => happen(network, number, &event_on(verb, place), text),
        Command::Tick(node, now) => {
            happen(network, number, &PlantEvent::Tick { node, now }, text)
        }
        Command::Flow => flow(network, number, text),
    }
}

/// Has the plant obey a line. `text` is then what to print for it.
///
/// # Errors
/// `Line` where the line is not a line of a script, whatever memory there is; `Memory`.
pub(crate) fn answer(
    alloc: Global,
    network: &mut Served,
    number: u64,
    line: &[u8],
    octets: &mut Vec<u8>,
    text: &mut Text,
) -> Result<(), FaultKind>
    requires { text.old ≡ [] }
    ensures ok { OnOk result (Replied network.old number line.now text.new network.new) }
    ensures known { OnOk result (IsPlantLine line.now) }
    ensures bad { result ≡ Err FaultKind.Line → IsPlantLine line.now → ⊥ }
    ensures memory { result ≡ Err FaultKind.Memory → IsPlantLine line.now }
    ensures fault { IfErr result (λ kind. IsOneOf kind (FaultKind.Line ∷ FaultKind.Memory ∷ [])) }
{
    let command = command_of(line, octets)?;
    obey(alloc, network, number, command, octets, text)
}
