//! What a node does with a line.

ghost use Rattle.std.specs.Prelude.{◌≡◌, ◌++◌, ◌∷◌, [], ℕ, List, IfOk, IfErr, OnOk, OnErr, Err, None, Some};
ghost use Rattle.std.specs.Option.{option_copied};
ghost use Rattle.sr_node.specs.declared.event.Event.TheVariants as event;
ghost use Rattle.sr_node.specs.Arriving.{arrival_answer};
ghost use Rattle.sr_node.specs.States.{state_of};
ghost use Rattle.sr_node.specs.Octets.{TakesOctets};
ghost use Rattle.sr_node.specs.Steps.{TakesEvent};
ghost use Rattle.sr_session.specs.Lines.{IsOneOf};
ghost use Rattle.sr_session.specs.Octets.{StillHolds};
ghost use Rattle.sr_script.specs.Commands.{IsEventLine};
ghost use Rattle.sr_session.specs.Fronts.{AnswersFront, KnowsFront};
ghost use Rattle.sr_forwarding.specs.Kinds.{carriage};
ghost use Rattle.sr_script.specs.Stations.{at_work};
ghost use Rattle.sr_script.specs.Texts.{name_of, refusal_line};
ghost use Rattle.sr_script.specs.Replies.{ArrivesSo, Obeys, StepsSo, replay_dialogue};
ghost use Rattle.sr_script.specs.Reports.{RepliedAs};

use crate::node_session::NodeSession;
use crate::printing::append_outlets;
use crate::reading::{Command, arrival_at, command_of, sending_at};
use crate::unprinted::drop_all_waiting;
use itoa::Buffer;
use sr_forwarding::{Outlets, PortFraming, ReadFault, Role, RoleKind, framing_at};
use sr_frame::{Frame, FrameFault, Port, view};
use sr_node::{Answer, Event, NodeOf, StepFault};
use sr_session::FaultKind;
use sr_text::Text;
use std::alloc::{AllocError, Global};

/// What becomes of the parcels that wait behind a line.
#[derive(Clone, Copy)]
pub(crate) enum Parcels {
    /// They are printed.
    Printed,
    /// They are dropped.
    Dropped,
}

/// What a refusal is called. None: an allocation failed.
pub fn name_of(fault: StepFault) -> Option<&'static str>
    ensures { option_copied result ≡ name_of fault }
{
    match fault {
        StepFault::Reading(ReadFault::TooShort) => Some("TooShort"),
        StepFault::Reading(ReadFault::TooLong) => Some("TooLong"),
        StepFault::Reading(ReadFault::Truncated) => Some("Truncated"),
        StepFault::Reading(ReadFault::NotOwn) => Some("NotOwn"),
        StepFault::Reading(ReadFault::Untagged) | StepFault::Untagged => Some("Untagged"),
        StepFault::TableFull => Some("TableFull"),
        StepFault::OutboxFull(_) => Some("OutboxFull"),
        StepFault::Reading(ReadFault::NoMemory) | StepFault::NoMemory => None,
    }
}

/// Appends the line for an event that is refused, or as much of it as there is memory for.
// speed: D-script-refusal-text
#[inline(always)]
fn append_refused(text: &mut Text, number: u64, name: &str) -> Result<(), AllocError>
    ensures ok { OnOk result (text.new ≡ text.old ++ refusal_line number name.now) }
    ensures kept { OnErr result (StillHolds text.old text.new) }
{
    let mut digits = Buffer::new();
    text.extend_from_slice(b"refused ")?;
    text.extend_from_slice(digits.format(number).as_bytes())?;
    text.push(b' ')?;
    text.extend_from_slice(name.as_bytes())?;
    text.push(b'\n')?;
    Ok(())
}

/// Appends the line for an event that is refused.
///
/// # Errors
/// `Memory`: the text may then have a part of the line.
pub fn append_refusal(text: &mut Text, number: u64, name: &str) -> Result<(), FaultKind>
    ensures ok { OnOk result (text.new ≡ text.old ++ refusal_line number name.now) }
    ensures kept { OnErr result (StillHolds text.old text.new) }
    ensures err { IfErr result (λ kind. kind ≡ FaultKind.Memory) }
{
    append_refused(text, number, name)?;
    Ok(())
}

/// Octets come in at a port.
// speed: D-session-inlined
#[inline(always)]
pub(crate) fn arrive<R: Role>(
    role: RoleKind,
    node: &mut NodeOf<R>,
    port: Port,
    octets: &[u8],
    time: u64,
) -> Result<Option<Outlets>, StepFault>
    ensures { TakesOctets arrival_answer (carriage role port) (state_of R.meaning node.old) port
        octets.now time result (state_of R.meaning node.new) }
{
    // One call for each kind of framing: `receive` is compiled for the framing.
    match framing_at(role, port) {
        PortFraming::Plain(framing) => node.receive(&framing, port, octets, time),
        PortFraming::Hsr(framing) => node.receive(&framing, port, octets, time),
        PortFraming::Prp(framing) => node.receive(&framing, port, octets, time),
    }
}

/// Gives back the list of the octets that the host sent; an empty list for any other event.
fn list_of(alloc: Global, event: Event) -> Vec<u8> {
    match event {
        Event::Send { frame, .. } => frame.into_octets(),
        Event::Arrive { .. } | Event::Tick { .. } | Event::Take { .. } => Vec::new(alloc),
    }
}

/// The host sends octets. The frame has their list until the node has answered, and gives it back, so that the next line uses its
/// memory again.
// speed: D-session-inlined. Out of line, so that a frame that comes in needs no stack space for an event.
#[inline(never)]
fn send<R: Role>(
    alloc: Global,
    node: &mut NodeOf<R>,
    octets: &mut Vec<u8>,
    time: u64,
) -> Result<Answer, StepFault>
    ensures { TakesEvent (state_of R.meaning node.old) (event.Send octets.old.items time) result
        (state_of R.meaning node.new) }
{
    match view(octets) {
        Ok(_) => {}
        Err(FrameFault::TooLong) => return Err(StepFault::Reading(ReadFault::TooLong)),
        Err(_) => return Err(StepFault::Reading(ReadFault::TooShort)),
    }
    let frame = Frame::of(std::mem::replace(octets, Vec::new(alloc)));
    let event = Event::Send { frame, now: time };
    let answer = node.step(&event);
    *octets = list_of(alloc, event);
    answer
}

/// Time passes.
// speed: D-session-inlined
#[inline(never)]
fn tick<R: Role>(node: &mut NodeOf<R>, now: u64) -> Result<Answer, StepFault>
    ensures { TakesEvent (state_of R.meaning node.old) (event.Tick now) result
        (state_of R.meaning node.new) }
{
    node.step(&Event::Tick { now })
}

/// Appends the line for an event that is refused for this reason.
pub(crate) fn tell_refusal(text: &mut Text, number: u64, fault: StepFault) -> Result<(), FaultKind>
    ensures ok { OnOk result ((name : List ℕ) × (name_of fault ≡ Some name)
        × (text.new ≡ text.old ++ refusal_line number name)) }
    ensures kept { OnErr result (StillHolds text.old text.new) }
    ensures err { IfErr result (λ kind. kind ≡ FaultKind.Memory) }
{
    match name_of(fault) {
        Some(name) => append_refusal(text, number, name),
        None => Err(FaultKind::Memory),
    }
}

/// Has the node obey an arrival of the line with this number, and appends a line where it refuses.
// speed: D-session-inlined
#[inline(always)]
fn obey_arrival<R: Role>(
    role: RoleKind,
    node: &mut NodeOf<R>,
    number: u64,
    port: Port,
    octets: &[u8],
    time: u64,
    text: &mut Text,
) -> Result<(), FaultKind>
    ensures ok { OnOk result ((told : List ℕ) × ArrivesSo role (state_of R.meaning node.old) number
        port time octets.now told (state_of R.meaning node.new) × (text.new ≡ text.old ++ told)) }
    ensures kept { OnErr result (StillHolds text.old text.new) }
    ensures err { IfErr result (λ kind. kind ≡ FaultKind.Memory) }
{
    match arrive(role, node, port, octets, time) {
        Ok(_) => Ok(()),
        Err(fault) => tell_refusal(text, number, fault),
    }
}

/// Has the node send octets of the line with this number, and appends a line where it refuses.
// speed: D-session-inlined
#[inline(always)]
fn obey_sending<R: Role>(
    alloc: Global,
    node: &mut NodeOf<R>,
    number: u64,
    octets: &mut Vec<u8>,
    time: u64,
    text: &mut Text,
) -> Result<(), FaultKind>
    ensures ok { OnOk result ((told : List ℕ) × StepsSo (state_of R.meaning node.old) number
        (event.Send octets.old.items time) told (state_of R.meaning node.new)
        × (text.new ≡ text.old ++ told)) }
    ensures kept { OnErr result (StillHolds text.old text.new) }
    ensures err { IfErr result (λ kind. kind ≡ FaultKind.Memory) }
{
    match send(alloc, node, octets, time) {
        Ok(_) => Ok(()),
        Err(fault) => tell_refusal(text, number, fault),
    }
}

/// Has the node obey a command of the line with this number, and appends a line where it refuses.
pub(crate) fn obey<R: Role>(
    alloc: Global,
    role: RoleKind,
    node: &mut NodeOf<R>,
    number: u64,
    command: Command,
    octets: &mut Vec<u8>,
    text: &mut Text,
) -> Result<(), FaultKind>
    ensures ok { OnOk result ((told : List ℕ) × Obeys role (state_of R.meaning node.old) number
        command octets.old.items told (state_of R.meaning node.new)
        × (text.new ≡ text.old ++ told)) }
    ensures kept { OnErr result (StillHolds text.old text.new) }
    ensures err { IfErr result (λ kind. kind ≡ FaultKind.Memory) }
{
    match command {
        Command::Skip => Ok(()),
        Command::Arrive(port, time) => {
            obey_arrival(role, node, number, port, octets, time, text)
        }
        Command::Send(time) => obey_sending(alloc, node, number, octets, time, text),
        Command::Tick(now) => match tick(node, now) {
            Ok(_) => Ok(()),
            Err(fault) => tell_refusal(text, number, fault),
        },
    }
}

/// Has the node obey a line, then takes all that waits, and appends what to print for it: a refusal, and where parcels are printed a
/// line for each frame.
///
/// # Errors
/// `Line` where the line is not a line of a script, whatever memory there is; `Memory`.
pub(crate) fn answer<R: Role>(
    alloc: Global,
    role: RoleKind,
    parcels: Parcels,
    node: &mut NodeOf<R>,
    number: u64,
    line: &[u8],
    octets: &mut Vec<u8>,
    frame: &mut Vec<u8>,
    text: &mut Text,
) -> Result<(), FaultKind>
    ensures ok { OnOk result ((answer : List ℕ) × RepliedAs parcels role
        (state_of R.meaning node.old) number line.now answer (state_of R.meaning node.new)
        × (text.new ≡ text.old ++ answer)) }
    ensures kept { OnErr result (StillHolds text.old text.new) }
    ensures known { OnOk result (IsEventLine role line.now) }
    ensures bad { result ≡ Err FaultKind.Line → IsEventLine role line.now → ⊥ }
    ensures memory { result ≡ Err FaultKind.Memory → IsEventLine role line.now }
    ensures fault { IfErr result (λ kind. IsOneOf kind (FaultKind.Line ∷ FaultKind.Memory ∷ [])) }
{
    let command = command_of(role, line, octets)?;
    obey(alloc, role, node, number, command, octets, text)?;
    match parcels {
        Parcels::Printed => append_outlets(&role, node, frame, text),
        Parcels::Dropped => {
            drop_all_waiting(node);
            Ok(())
        }
    }
}

/// Has the node of a session send the frame of the line at the front of a text, as `answer_unended` has it obey an arrival.
// speed: D-session-inlined. Out of line, so that a frame that comes in needs no stack space for an event.
#[inline(never)]
fn answer_sending<R: Role>(
    session: &mut NodeSession<R>,
    number: u64,
    front: &[u8],
    text: &mut Text,
) -> Result<Option<usize>, FaultKind>
    ensures ok { IfOk result (λ length. AnswersFront replay_dialogue (at_work session.old.role
        (state_of R.meaning session.old.node)) number front.now length text.old text.new
        (at_work session.new.role (state_of R.meaning session.new.node))) }
    ensures kept { OnErr result (StillHolds text.old text.new) }
    ensures known { OnErr result (KnowsFront replay_dialogue (at_work session.old.role
        (state_of R.meaning session.old.node)) front.now) }
    ensures err { IfErr result (λ kind. kind ≡ FaultKind.Memory) }
{
    let arriving = session.arriving.as_mut_slice();
    let Some(line) = sending_at(front, arriving) else {
        return Ok(None);
    };
    session.octets.clear();
    session.octets.extend_from_slice(&arriving[..line.count])?;
    obey_sending(
        session.alloc,
        &mut session.node,
        number,
        &mut session.octets,
        line.time,
        text,
    )?;
    append_outlets(&session.role, &mut session.node, &mut session.frame, text)?;
    Ok(Some(line.length))
}

/// Has the node of a session obey the line at the front of a text, where a frame arrives or the host sends one, then takes all that
/// waits, and appends what to print for the line. The answer is how many octets it has, without its LF. None where no such line can
/// be read there: nothing is done then.
///
/// # Errors
/// `Memory`.
// speed: D-session-unended, D-session-inlined
#[inline(always)]
pub(crate) fn answer_unended<R: Role>(
    session: &mut NodeSession<R>,
    number: u64,
    front: &[u8],
    text: &mut Text,
) -> Result<Option<usize>, FaultKind>
    ensures ok { IfOk result (λ length. AnswersFront replay_dialogue (at_work session.old.role
        (state_of R.meaning session.old.node)) number front.now length text.old text.new
        (at_work session.new.role (state_of R.meaning session.new.node))) }
    ensures kept { OnErr result (StillHolds text.old text.new) }
    ensures known { OnErr result (KnowsFront replay_dialogue (at_work session.old.role
        (state_of R.meaning session.old.node)) front.now) }
    ensures err { IfErr result (λ kind. kind ≡ FaultKind.Memory) }
{
    let arriving = session.arriving.as_mut_slice();
    let Some((port, line)) = arrival_at(session.role, front, arriving) else {
        return answer_sending(session, number, front, text);
    };
    let came = &arriving[..line.count];
    obey_arrival(
        session.role,
        &mut session.node,
        number,
        port,
        came,
        line.time,
        text,
    )?;
    append_outlets(&session.role, &mut session.node, &mut session.frame, text)?;
    Ok(Some(line.length))
}
