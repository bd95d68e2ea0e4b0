//! Why octets are no frame, and a failed allocation.

ghost use Rattle.std.specs.Prelude.{◌≡◌};
ghost use Rattle.sr_frame.specs.FaultCodes.{frame_code};

use std::alloc::AllocError;
use thiserror::Error;

/// An allocation failed: there was no memory for it.
#[derive(Clone, Copy, Debug, PartialEq, Eq, Error)]
#[error("out of memory")]
pub struct NoMemory;

/// Why octets are no frame.
#[derive(Clone, Copy, Debug, PartialEq, Eq, Error)]
pub enum FrameFault {
    /// Fewer than 14 octets, or fewer than 18 where a VLAN tag stands behind the addresses.
    #[error("the frame is too short")]
    TooShort,
    /// More than 1524 octets.
    #[error("the frame is too long")]
    TooLong,
    /// An allocation failed.
    #[error("out of memory")]
    NoMemory,
}

impl FrameFault {
    /// The code of the fault, as the README of this crate lists them (choice of this project).
    pub fn code(self) -> &'static str
        ensures { result.now ≡ frame_code self }
    {
        match self {
            FrameFault::TooShort => "F1",
            FrameFault::TooLong => "F2",
            FrameFault::NoMemory => "F3",
        }
    }
}

impl From<AllocError> for FrameFault {
    ghost use Rattle.sr_frame.specs.declared.fault.FrameFault.TheVariants.{NoMemory as OutOfMemory};

    ghost from_gives = { λ _ e. e ≡ OutOfMemory };

    fn from(_e: AllocError) -> FrameFault {
        FrameFault::NoMemory
    }
}

impl From<AllocError> for NoMemory {
    fn from(_e: AllocError) -> NoMemory {
        NoMemory
    }
}

impl From<NoMemory> for FrameFault {
    ghost use Rattle.sr_frame.specs.declared.fault.FrameFault.TheVariants.{NoMemory as OutOfMemory};

    ghost from_gives = { λ _ e. e ≡ OutOfMemory };

    fn from(_e: NoMemory) -> FrameFault {
        FrameFault::NoMemory
    }
}
