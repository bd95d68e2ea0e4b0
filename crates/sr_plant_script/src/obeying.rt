//! A plant obeys an event or a flow, and what comes of it is printed.

ghost use Rattle.std.specs.Prelude.{◌≡◌, ◌++◌, ℕ, List, OnOk, IfErr};
ghost use Rattle.sr_plant_script.specs.Happenings.{Happens, Flows};

use crate::printing::append_flow;
use crate::refusing::tell_refusal;
use crate::served::Served;
use sr_plant::PlantEvent;
use sr_session::FaultKind;
use sr_text::Text;

/// The most carries of one flow.
const MAX_CARRIES: usize = 100_000;

/// An event of the line with this number happens, and what is handed up is printed; or it is refused, which is printed too.
pub(crate) fn happen(
    network: &mut Served,
    number: u64,
    event: &PlantEvent,
    text: &mut Text,
) -> Result<(), FaultKind>
    ensures ok { OnOk result ((told : List ℕ)
        × Happens network.old number event.now told network.new
        × (text.new ≡ text.old ++ told)) }
    ensures err { IfErr result (λ kind. kind ≡ FaultKind.Memory) }
{
    if let Err(fault) = network.serve(event, text) {
        return tell_refusal(text, number, fault);
    }
    Ok(())
}

/// The first copy is carried, again and again, until none is in flight or a flow has no carries left.
pub(crate) fn flow(network: &mut Served, number: u64, text: &mut Text) -> Result<(), FaultKind>
    ensures ok { OnOk result ((told : List ℕ) × Flows network.old number told network.new
        × (text.new ≡ text.old ++ told)) }
    ensures err { IfErr result (λ kind. kind ≡ FaultKind.Memory) }
{
    for carries in 0..MAX_CARRIES {
        if network.in_flight() == 0 {
            return append_flow(text, carries);
        }
        if let Err(fault) = network.serve(&PlantEvent::Carry(0), text) {
            return tell_refusal(text, number, fault);
        }
    }
    append_flow(text, MAX_CARRIES)
}
