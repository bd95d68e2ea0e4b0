//! What a node knows of other nodes, as text.

ghost use Rattle.std.specs.Prelude.{◌≡◌, ◌++◌, ◌∷◌, [], OnOk, IfErr};
ghost use Rattle.std.specs.List.{flat_map};
ghost use Rattle.sr_node.specs.Images.{shown};
ghost use Rattle.sr_node_table.specs.Stating.{status_at};
ghost use Rattle.sr_session.specs.Octets.{spaced};
ghost use Rattle.sr_script.specs.Commands.{letter_of};
ghost use Rattle.sr_script.specs.StatusTexts.{redbox_part, age_words, number_words, node_line, alarm_line, status_line, status_text};

use sr_forwarding::Role;
use sr_frame::{Mac, Port};
use sr_node::NodeOf;
use sr_node_table::{Alarm, Status};
use sr_session::FaultKind;
use std::io::Write;

/// Appends the end of a node's line, with the RedBox that it stands behind.
fn append_redbox(text: &mut Vec<u8>, redbox: Option<Mac>) -> Result<(), FaultKind>
    ensures ok { OnOk result (text.new.items ≡ text.old.items ++ redbox_part redbox ++ 10 ∷ []) }
    ensures err { IfErr result (λ kind. kind ≡ FaultKind.Memory) }
{
    let written = match redbox {
        Some(redbox) => writeln!(text, " redbox {redbox}"),
        None => writeln!(text),
    };
    match written {
        Ok(()) => Ok(()),
        Err(_) => Err(FaultKind::Memory),
    }
}

/// Appends how long ago a node was heard at each port.
fn append_ages(text: &mut Vec<u8>, status: &Status) -> Result<(), FaultKind>
    ensures ok { OnOk result (text.new.items ≡ text.old.items ++ spaced (age_words status.now)) }
    ensures err { IfErr result (λ kind. kind ≡ FaultKind.Memory) }
{
    match write!(
        text,
        "node {} if1_age {} if2_age {}",
        status.addr, status.if1_age, status.if2_age
    ) {
        Ok(()) => Ok(()),
        Err(_) => Err(FaultKind::Memory),
    }
}

/// Appends the last numbers of a node, and the indices of the ports.
fn append_numbers(text: &mut Vec<u8>, status: &Status) -> Result<(), FaultKind>
    ensures ok { OnOk result (text.new.items ≡ text.old.items
        ++ 32 ∷ spaced (number_words status.now)) }
    ensures err { IfErr result (λ kind. kind ≡ FaultKind.Memory) }
{
    match write!(
        text,
        " if1_seq {} if2_seq {} if1_ifindex {} if2_ifindex {}",
        status.if1_seq, status.if2_seq, status.if1_ifindex, status.if2_ifindex
    ) {
        Ok(()) => Ok(()),
        Err(_) => Err(FaultKind::Memory),
    }
}

/// Appends the line of a node.
fn append_node(text: &mut Vec<u8>, status: &Status) -> Result<(), FaultKind>
    ensures ok { OnOk result (text.new.items ≡ text.old.items ++ node_line status.now) }
    ensures err { IfErr result (λ kind. kind ≡ FaultKind.Memory) }
{
    append_ages(text, status)?;
    append_numbers(text, status)?;
    append_redbox(text, status.redbox)
}

/// The name of a port.
pub(crate) fn name_of(port: Port) -> &'static str
    ensures { result.now ≡ letter_of port }
{
    match port {
        Port::H => "H",
        Port::A => "A",
        Port::B => "B",
        Port::C => "C",
    }
}

/// Appends the line of an alarm of this port.
fn append_ring_error(text: &mut Vec<u8>, mac: Mac, port: Port, at: u64) -> Result<(), FaultKind>
    ensures ok { OnOk result (text.new.items ≡ text.old.items
        ++ alarm_line (Alarm.RingError mac port at)) }
    ensures err { IfErr result (λ kind. kind ≡ FaultKind.Memory) }
{
    match writeln!(text, "alarm RingError {mac} port {} at {at}", name_of(port)) {
        Ok(()) => Ok(()),
        Err(_) => Err(FaultKind::Memory),
    }
}

/// Appends the line of an alarm of a node that is down.
fn append_node_down(text: &mut Vec<u8>, mac: Mac, at: u64) -> Result<(), FaultKind>
    ensures ok { OnOk result (text.new.items ≡ text.old.items
        ++ alarm_line (Alarm.NodeDown mac at)) }
    ensures err { IfErr result (λ kind. kind ≡ FaultKind.Memory) }
{
    match writeln!(text, "alarm NodeDown {mac} at {at}") {
        Ok(()) => Ok(()),
        Err(_) => Err(FaultKind::Memory),
    }
}

/// Appends the line of an alarm.
fn append_alarm(text: &mut Vec<u8>, alarm: Alarm) -> Result<(), FaultKind>
    ensures ok { OnOk result (text.new.items ≡ text.old.items ++ alarm_line alarm) }
    ensures err { IfErr result (λ kind. kind ≡ FaultKind.Memory) }
{
    match alarm {
        Alarm::RingError { mac, port, at } => append_ring_error(text, mac, port, at),
        Alarm::NodeDown { mac, at } => append_node_down(text, mac, at),
    }
}

/// Appends the line of an address, if anything is told of it.
fn append_status(text: &mut Vec<u8>, status: Option<Status>) -> Result<(), FaultKind>
    ensures ok { OnOk result (text.new.items ≡ text.old.items ++ status_line status) }
    ensures err { IfErr result (λ kind. kind ≡ FaultKind.Memory) }
{
    match status {
        Some(status) => append_node(text, &status),
        None => Ok(()),
    }
}

/// Appends the lines of these addresses, of each what the node knows of it.
fn append_nodes<R: Role>(
    text: &mut Vec<u8>,
    node: &NodeOf<R>,
    macs: &[Mac],
) -> Result<(), FaultKind>
    ensures ok { OnOk result (text.new.items ≡ text.old.items
        ++ flat_map (λ mac. status_line
        (status_at (shown node.now.core).nodes mac (shown node.now.core).time)) macs.now) }
    ensures err { IfErr result (λ kind. kind ≡ FaultKind.Memory) }
{
    for mac in macs {
        append_status(text, node.status(*mac))?;
    }
    Ok(())
}

/// Appends the lines of these alarms.
fn append_alarms(text: &mut Vec<u8>, alarms: &[Alarm]) -> Result<(), FaultKind>
    ensures ok { OnOk result (text.new.items ≡ text.old.items ++ flat_map alarm_line alarms.now) }
    ensures err { IfErr result (λ kind. kind ≡ FaultKind.Memory) }
{
    for alarm in alarms {
        append_alarm(text, *alarm)?;
    }
    Ok(())
}

/// Tells what a node knows of other nodes: a line for each that is not forgotten, in the order of first hearing, and then the
/// alarms, the oldest first.
pub(crate) fn tell_status<R: Role>(node: &NodeOf<R>, text: &mut Vec<u8>) -> Result<(), FaultKind>
    requires { text.old.items ≡ [] }
    ensures ok { OnOk result (text.new.items ≡ status_text (shown node.now.core)) }
    ensures err { IfErr result (λ kind. kind ≡ FaultKind.Memory) }
{
    let Ok(macs) = node.nodes() else {
        return Err(FaultKind::Memory);
    };
    let Ok(alarms) = node.alarms() else {
        return Err(FaultKind::Memory);
    };
    append_nodes(text, node, &macs)?;
    append_alarms(text, &alarms)
}
