//! Lines of a script whose nodes run on threads: what a host is to send, and nothing else.

ghost use Rattle.std.specs.Prelude.{◌≡◌, ◌∷◌, ◌↔◌, [], IsTrue, Err, IfOk, IfErr};
ghost use Rattle.sr_session.specs.Lines.{IsOneOf};
ghost use Rattle.sr_threaded_script.specs.Lines.{IsThreadedLine, Asks};

use sr_plant_script::{Command, Receiver, command_of};
use sr_session::FaultKind;
use std::alloc::Global;

/// What a line asks for: that the host of a node sends the octets that are then in `octets`, or nothing.
///
/// # Errors
/// `Line` where the line is not a line of such a script, whatever memory there is; `Memory`.
pub(crate) fn sending_of(
    line: &[u8],
    octets: &mut Vec<u8>,
) -> Result<Option<(usize, Receiver)>, FaultKind>
    ensures found { IfOk result (λ asked. Asks line.now asked octets.new.items) }
    ensures bad { result ≡ Err FaultKind.Line → IsThreadedLine line.now → ⊥ }
    ensures memory { result ≡ Err FaultKind.Memory → IsThreadedLine line.now }
    ensures fault { IfErr result (λ kind. IsOneOf kind (FaultKind.Line ∷ FaultKind.Memory ∷ [])) }
{
    match command_of(line, octets) {
        Ok(Command::Skip) => Ok(None),
        Ok(Command::Send(node, receiver)) => Ok(Some((node, receiver))),
        Ok(Command::On(_, _) | Command::Tick(_, _) | Command::Flow) => Err(FaultKind::Line),
        Err(kind) => Err(kind),
    }
}

/// Whether a line is one of a script whose nodes run on threads.
pub fn is_threaded_line(alloc: Global, line: &[u8]) -> bool
    ensures { IsTrue result ↔ IsThreadedLine line.now }
{
    let mut octets = Vec::new(alloc);
    match sending_of(line, &mut octets) {
        Ok(_) => true,
        Err(kind) => kind != FaultKind::Line,
    }
}
