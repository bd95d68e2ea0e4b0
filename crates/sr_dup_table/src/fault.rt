//! Why a table of duplicate records refuses.
ghost use Rattle.std.specs.Prelude.{◌≡◌};
ghost use Rattle.sr_dup_table.specs.FaultCodes.{dup_code};

use sr_frame::{Mac, NoMemory};
use thiserror::Error;

/// 1024 other sources are live.
#[derive(Clone, Copy, PartialEq, Eq, Debug, Error)]
#[error("the duplicate table is full")]
pub struct TableFull;

/// Why a table of duplicate records refuses.
#[derive(Clone, Copy, PartialEq, Eq, Debug, Error)]
pub enum DupFault {
    /// 1024 other sources are live.
    #[error("the duplicate table is full")]
    TableFull,
    /// An allocation failed.
    #[error("out of memory")]
    NoMemory,
    /// Two records of this source are 32768 apart, so neither is ahead of the other.
    #[error("two records of a source are 32768 apart")]
    Apart(Mac),
    /// Two tables remember different counts of numbers of a source.
    #[error("the duplicate tables have different widths")]
    OtherWidth,
    /// What was given is no snapshot of a table.
    #[error("no snapshot of a duplicate table")]
    BadSnapshot,
}

impl DupFault {
    /// The code of the fault, as the README of this crate lists them (choice of this project).
    pub fn code(self) -> &'static str
        ensures { result.now ≡ dup_code self }
    {
        match self {
            DupFault::TableFull => "U1",
            DupFault::NoMemory => "U2",
            DupFault::Apart(_) => "U3",
            DupFault::BadSnapshot => "U4",
            DupFault::OtherWidth => "U5",
        }
    }
}

impl From<NoMemory> for DupFault {
    ghost use Rattle.sr_dup_table.specs.declared.fault.DupFault.TheVariants.{NoMemory as OutOfMemory};

    ghost from_gives = { λ _ e. e ≡ OutOfMemory };

    fn from(_e: NoMemory) -> DupFault {
        DupFault::NoMemory
    }
}
