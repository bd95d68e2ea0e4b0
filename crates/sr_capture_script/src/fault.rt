//! Why going over captures ends early.

ghost use Rattle.std.specs.Prelude.{◌≡◌};

use crate::choice::Inlet;
use sr_capture::CaptureFault;
use sr_frame::NoMemory;
use std::alloc::AllocError;
use std::io;

/// What ended a script, or another pass over captures, and where.
#[derive(Clone, Copy, Debug, PartialEq, Eq)]
pub enum ScriptFault {
    /// The file of an inlet could not be read on.
    File(Inlet, CaptureFault),
    /// The writer failed.
    Write,
    /// There were more packets than 64 bits count.
    Endless,
    /// An allocation failed.
    NoMemory,
}

impl From<AllocError> for ScriptFault {
    ghost use Rattle.sr_capture_script.specs.declared.fault.ScriptFault.TheVariants.{NoMemory as OutOfMemory};

    ghost from_gives = { λ _ fault. fault ≡ OutOfMemory };

    fn from(_error: AllocError) -> ScriptFault {
        ScriptFault::NoMemory
    }
}

impl From<NoMemory> for ScriptFault {
    ghost use Rattle.sr_capture_script.specs.declared.fault.ScriptFault.TheVariants.{NoMemory as OutOfMemory};

    ghost from_gives = { λ _ fault. fault ≡ OutOfMemory };

    fn from(_refused: NoMemory) -> ScriptFault {
        ScriptFault::NoMemory
    }
}

impl From<io::Error> for ScriptFault {
    ghost use Rattle.sr_capture_script.specs.declared.fault.ScriptFault.TheVariants.{Write as Unwritten};

    ghost from_gives = { λ _ fault. fault ≡ Unwritten };

    fn from(_error: io::Error) -> ScriptFault {
        ScriptFault::Write
    }
}
