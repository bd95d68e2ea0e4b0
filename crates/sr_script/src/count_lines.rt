//! What a run counted, as text.

ghost use Rattle.std.specs.Prelude.{◌≡◌, ◌++◌, ◌∷◌, [], OnOk, IfErr};
ghost use Rattle.sr_node.specs.Images.{shown};
ghost use Rattle.sr_session.specs.Octets.{spaced};
ghost use Rattle.sr_script.specs.CountTexts.{port_words, port_line, interlink_line, left_out_line, counts_text};

use crate::counts::Counts;
use crate::status_lines::name_of;
use sr_forwarding::{Role, RoleKind};
use sr_frame::Port;
use sr_node::NodeOf;
use sr_session::FaultKind;
use std::io::Write;

/// Appends the words of a port.
fn append_words(
    text: &mut Vec<u8>,
    port: Port,
    frames: u64,
    wrong_lan: u64,
    refused: u64,
) -> Result<(), FaultKind>
    ensures ok { OnOk result (text.new.items ≡ text.old.items
        ++ spaced (port_words port frames wrong_lan refused)) }
    ensures err { IfErr result (λ kind. kind ≡ FaultKind.Memory) }
{
    match write!(
        text,
        "port {} frames {frames} wrong_lan {wrong_lan} refused {refused}",
        name_of(port)
    ) {
        Ok(()) => Ok(()),
        Err(_) => Err(FaultKind::Memory),
    }
}

/// Appends the line of a port.
fn append_port<R: Role>(
    text: &mut Vec<u8>,
    node: &NodeOf<R>,
    counts: &Counts,
    port: Port,
) -> Result<(), FaultKind>
    ensures ok { OnOk result (text.new.items ≡ text.old.items
        ++ port_line (shown node.now.core) counts.now port) }
    ensures err { IfErr result (λ kind. kind ≡ FaultKind.Memory) }
{
    let frames = *counts.frames.at(port);
    let refused = *counts.refused.at(port);
    append_words(text, port, frames, node.wrong_lan(port), refused)?;
    match text.push(b'\n') {
        Ok(()) => Ok(()),
        Err(_) => Err(FaultKind::Memory),
    }
}

/// Appends the line of the interlink, where the role has one.
fn append_interlink<R: Role>(
    text: &mut Vec<u8>,
    role: RoleKind,
    node: &NodeOf<R>,
    counts: &Counts,
) -> Result<(), FaultKind>
    ensures ok { OnOk result (text.new.items ≡ text.old.items
        ++ interlink_line role (shown node.now.core) counts.now) }
    ensures err { IfErr result (λ kind. kind ≡ FaultKind.Memory) }
{
    if role.has_interlink() {
        append_port(text, node, counts, Port::C)
    } else {
        Ok(())
    }
}

/// Appends the line for sources that were left out, where there were some.
fn append_left_out(text: &mut Vec<u8>, count: u64) -> Result<(), FaultKind>
    ensures ok { OnOk result (text.new.items ≡ text.old.items ++ left_out_line count) }
    ensures err { IfErr result (λ kind. kind ≡ FaultKind.Memory) }
{
    if count == 0 {
        return Ok(());
    }
    match writeln!(text, "sources left out {count}") {
        Ok(()) => Ok(()),
        Err(_) => Err(FaultKind::Memory),
    }
}

/// Appends what a run counted: a line for each port at which frames come in, and one for sources that were left out.
pub(crate) fn append_counts<R: Role>(
    text: &mut Vec<u8>,
    role: RoleKind,
    node: &NodeOf<R>,
    counts: &Counts,
) -> Result<(), FaultKind>
    ensures ok { OnOk result (text.new.items ≡ text.old.items
        ++ counts_text role (shown node.now.core) counts.now) }
    ensures err { IfErr result (λ kind. kind ≡ FaultKind.Memory) }
{
    append_port(text, node, counts, Port::A)?;
    append_port(text, node, counts, Port::B)?;
    append_interlink(text, role, node, counts)?;
    append_left_out(text, counts.left_out)
}
