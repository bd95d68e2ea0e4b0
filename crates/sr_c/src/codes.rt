//! What the calls answer, as numbers.

ghost use Rattle.std.specs.Prelude.{◌≡◌};
ghost use Rattle.sr_c.specs.Codes.{snapshot_code, fault_code, port_number, port_of, received_code, stepped_code, taken_over_code};

use bitflags::Flags;
use sr_dup_table::DupFault;
use sr_forwarding::{Outlets, Port};
use sr_node::{Answer, StepFault};

/// An allocation failed.
pub(crate) const NO_MEMORY: u32 = 261;

/// As many other sources are remembered as there may be.
const TABLE_FULL: u32 = 259;

/// An argument that may not be given.
pub(crate) const ARGUMENT: u32 = 262;

/// The handle is closed.
pub(crate) const CLOSED: u32 = 263;

/// The handle is open already.
pub(crate) const OPEN: u32 = 264;

/// The octets are no snapshot.
const SNAPSHOT: u32 = 265;

/// What two nodes have noted of a source is half of all numbers apart.
const APART: u32 = 267;

/// The frame that came in was the node's own.
const OWN: u32 = 16;

/// The port of a number.
pub(crate) fn port_of(number: u32) -> Option<Port>
    ensures { result ≡ port_of number }
{
    match number {
        0 => Some(Port::H),
        1 => Some(Port::A),
        2 => Some(Port::B),
        3 => Some(Port::C),
        _ => None,
    }
}

/// The number of a port.
pub(crate) fn port_number(port: Port) -> u8
    ensures { result ≡ port_number port }
{
    match port {
        Port::H => 0,
        Port::A => 1,
        Port::B => 2,
        Port::C => 3,
    }
}

/// The number of a fault.
fn fault_code(fault: StepFault) -> u32
    ensures { result ≡ fault_code fault }
{
    match fault {
        StepFault::Reading(_) => 257,
        StepFault::Untagged => 258,
        StepFault::TableFull => 259,
        StepFault::OutboxFull(_) => 260,
        StepFault::NoMemory => NO_MEMORY,
    }
}

/// The number for a frame that came in.
pub(crate) fn received_code(outcome: Result<Option<Outlets>, StepFault>) -> u32
    ensures { result ≡ received_code outcome }
{
    match outcome {
        Ok(Some(outlets)) => u32::from(outlets.bits()),
        Ok(None) => OWN,
        Err(fault) => fault_code(fault),
    }
}

/// The number for an event.
pub(crate) fn stepped_code(outcome: Result<Answer, StepFault>) -> u32
    ensures { result ≡ stepped_code outcome }
{
    match outcome {
        Ok(_) => 0,
        Err(fault) => fault_code(fault),
    }
}

/// The number for a snapshot that is refused.
pub(crate) fn snapshot_code(fault: DupFault) -> u32
    ensures { result ≡ snapshot_code fault }
{
    match fault {
        DupFault::TableFull => TABLE_FULL,
        DupFault::NoMemory => NO_MEMORY,
        DupFault::Apart(_) => APART,
        DupFault::OtherWidth => ARGUMENT,
        DupFault::BadSnapshot => SNAPSHOT,
    }
}

/// The number for a snapshot that is taken over or refused.
pub(crate) fn taken_over_code(outcome: Result<(), DupFault>) -> u32
    ensures { result ≡ taken_over_code outcome }
{
    match outcome {
        Ok(()) => 0,
        Err(fault) => snapshot_code(fault),
    }
}
