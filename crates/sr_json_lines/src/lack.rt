//! Allocations that fail in a writer, which a run knows as failed writes.

ghost use Rattle.std.specs.Prelude.{◌≡◌, is_some};
ghost use Rattle.sr_json_lines.specs.Lacks.{fault_by};

use sr_session::{Fault, FaultKind};
use std::alloc::AllocError;

/// What ended a run: where an allocation failed in its writer, that, and not the write.
pub(crate) fn fault_by(lack: Option<AllocError>, fault: Fault) -> Fault
    ensures { result ≡ fault_by (is_some lack) fault }
{
    match lack {
        Some(lack) => Fault {
            kind: FaultKind::from(lack),
            ..fault
        },
        None => fault,
    }
}
