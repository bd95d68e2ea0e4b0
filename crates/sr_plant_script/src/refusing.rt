//! The lines for events that a plant refuses.

ghost use Rattle.std.specs.Prelude.{◌≡◌, ◌++◌, ℕ, List, Some, OnOk, OnErr, IfErr};
ghost use Rattle.std.specs.Option.{option_copied};
ghost use Rattle.sr_session.specs.Octets.{StillHolds};
ghost use Rattle.sr_script.specs.Texts.{refusal_line};
ghost use Rattle.sr_plant_script.specs.Texts.{fault_name};

use sr_plant::PlantFault;
use sr_script::{append_refusal, name_of};
use sr_session::FaultKind;
use sr_text::Text;

// A refusal that has no name: an allocation of the plant or of a node failed.
#[derive(Clone, Copy)]
struct Nameless;

impl From<Nameless> for FaultKind {
    ghost use Rattle.sr_session.specs.declared.fault.FaultKind.TheVariants.{Memory};

    ghost from_gives = { λ _ kind. kind ≡ Memory };

    fn from(_refusal: Nameless) -> FaultKind {
        FaultKind::Memory
    }
}

// What a refusal is called. None: an allocation failed.
fn fault_name(fault: PlantFault) -> Option<&'static str>
    ensures { option_copied result ≡ fault_name fault }
{
    match fault {
        PlantFault::NoSuchNode => Some("NoSuchNode"),
        PlantFault::NoSuchCopy => Some("NoSuchCopy"),
        PlantFault::ClockBack => Some("ClockBack"),
        PlantFault::Node(fault) => name_of(fault),
        PlantFault::BadPlant => Some("BadPlant"),
        PlantFault::NoMemory => None,
    }
}

/// Appends the line for an event that is refused for this reason.
///
/// # Errors
/// `Memory`, also where the reason is a failed allocation, which has no line. The text may then have a part of the line.
pub fn tell_refusal(text: &mut Text, number: u64, fault: PlantFault) -> Result<(), FaultKind>
    ensures ok { OnOk result ((name : List ℕ) × (fault_name fault ≡ Some name)
        × (text.new ≡ text.old ++ refusal_line number name)) }
    ensures kept { OnErr result (StillHolds text.old text.new) }
    ensures err { IfErr result (λ kind. kind ≡ FaultKind.Memory) }
{
    append_refusal(text, number, fault_name(fault).ok_or(Nameless)?)
}
