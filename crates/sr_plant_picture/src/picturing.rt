//! A plant obeys the lines of a script, and each event is drawn.

ghost use Rattle.std.specs.Prelude.{◌≡◌, ◌∷◌, [], OnOk, IfErr, Err};
ghost use Rattle.sr_session.specs.Lines.{IsOneOf};
ghost use Rattle.sr_plant_script.specs.Commands.{IsPlantLine};

use crate::watching::Watch;
use sr_chart::Deed;
use sr_plant::PlantEvent;
use sr_plant_script::{Command, Receiver, Verb, command_of, send_refusal, sent_frame};
use sr_session::FaultKind;
use std::alloc::Global;

/// The most carries of one flow.
const MAX_CARRIES: usize = 100_000;

/// A sending, as charts have it.
fn sending_of(node: usize, receiver: Receiver) -> Deed {
    match receiver {
        Receiver::All => Deed::SendAll(node),
        Receiver::Node(to) => Deed::Send(node, to),
    }
}

/// What is done to the copy at a place, or to a link, as an event and as charts have it.
fn placed(verb: Verb, place: usize) -> (PlantEvent, Deed) {
    match verb {
        Verb::Carry => (PlantEvent::Carry(place), Deed::Carry(place)),
        Verb::Drop => (PlantEvent::Drop(place), Deed::Drop(place)),
        Verb::Repeat => (PlantEvent::Repeat(place), Deed::Repeat(place)),
        Verb::Cut => (PlantEvent::Cut(place), Deed::Cut(place)),
        Verb::Mend => (PlantEvent::Mend(place), Deed::Mend(place)),
    }
}

/// The host of a node sends the octets, or is refused.
fn send(
    alloc: Global,
    watch: &mut Watch,
    number: u64,
    node: usize,
    receiver: Receiver,
    octets: &[u8],
) -> Result<(), FaultKind>
    ensures { IfErr result (λ kind. kind ≡ FaultKind.Memory) }
{
    let deed = sending_of(node, receiver);
    if let Some(fault) = send_refusal(watch.node_count(), node, receiver, octets) {
        return watch.refuse(number, deed, fault);
    }
    let frame = sent_frame(alloc, node, receiver, octets)?;
    watch.happen(number, &PlantEvent::Send { node, frame }, deed)
}

/// The first copy is carried, again and again, until none is in flight or a flow has no carries left.
fn flow(watch: &mut Watch, number: u64) -> Result<(), FaultKind>
    ensures { IfErr result (λ kind. kind ≡ FaultKind.Memory) }
{
    for _ in 0..MAX_CARRIES {
        if watch.in_flight() == 0 {
            return Ok(());
        }
        watch.happen(number, &PlantEvent::Carry(0), Deed::Carry(0))?;
    }
    Ok(())
}

/// Has the plant obey a command of the line with this number.
fn obey(
    alloc: Global,
    watch: &mut Watch,
    number: u64,
    command: Command,
    octets: &[u8],
) -> Result<(), FaultKind>
    ensures { IfErr result (λ kind. kind ≡ FaultKind.Memory) }
{
    match command {
        Command::Skip => Ok(()),
        Command::Send(node, receiver) => send(alloc, watch, number, node, receiver, octets),
        Command::On(verb, place) => {
            let (event, deed) = placed(verb, place);
            watch.happen(number, &event, deed)
        }
        Command::Tick(node, now) => {
            watch.happen(
                number,
                &PlantEvent::Tick { node, now },
                Deed::Tick(node, now),
            )
        }
        Command::Flow => flow(watch, number),
    }
}

/// Has the plant obey a line, and draws its events.
///
/// # Errors
/// `Line` where the line is not a line of a script, whatever memory there is; `Memory`.
pub(crate) fn answer(
    alloc: Global,
    watch: &mut Watch,
    number: u64,
    line: &[u8],
    octets: &mut Vec<u8>,
) -> Result<(), FaultKind>
    ensures known { OnOk result (IsPlantLine line.now) }
    ensures bad { result ≡ Err FaultKind.Line → IsPlantLine line.now → ⊥ }
    ensures memory { result ≡ Err FaultKind.Memory → IsPlantLine line.now }
    ensures fault { IfErr result (λ kind. IsOneOf kind (FaultKind.Line ∷ FaultKind.Memory ∷ [])) }
{
    let command = command_of(line, octets)?;
    obey(alloc, watch, number, command, octets)
}
