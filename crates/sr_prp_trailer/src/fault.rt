//! Why a trailer could not be taken off.

ghost use Rattle.std.specs.Prelude.{◌≡◌};
ghost use Rattle.sr_prp_trailer.specs.FaultCodes.{strip_code};

use sr_frame::NoMemory;
use std::alloc::AllocError;
use thiserror::Error;

/// Why a trailer could not be taken off.
#[derive(Clone, Copy, Debug, PartialEq, Eq, Error)]
pub enum StripFault {
    /// The last octets are no trailer.
    #[error("the frame has no trailer")]
    NoTrailer,
    /// An allocation failed.
    #[error("out of memory")]
    NoMemory,
}

impl StripFault {
    /// The code of the fault, as the README of this crate lists them (choice of this project).
    pub fn code(self) -> &'static str
        ensures { result.now ≡ strip_code self }
    {
        match self {
            StripFault::NoTrailer => "L1",
            StripFault::NoMemory => "F3",
        }
    }
}

impl From<NoMemory> for StripFault {
    ghost use Rattle.sr_prp_trailer.specs.declared.fault.StripFault.TheVariants.{NoMemory as OutOfMemory};

    ghost from_gives = { λ _ e. e ≡ OutOfMemory };

    fn from(_e: NoMemory) -> StripFault {
        StripFault::NoMemory
    }
}

impl From<AllocError> for StripFault {
    ghost use Rattle.sr_prp_trailer.specs.declared.fault.StripFault.TheVariants.{NoMemory as OutOfMemory};

    ghost from_gives = { λ _ e. e ≡ OutOfMemory };

    fn from(_e: AllocError) -> StripFault {
        StripFault::NoMemory
    }
}
