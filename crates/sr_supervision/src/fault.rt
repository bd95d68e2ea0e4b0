//! Why a frame is no supervision that can be read.

ghost use Rattle.std.specs.Prelude.{◌≡◌};
ghost use Rattle.sr_supervision.specs.FaultCodes.{sup_code};

use thiserror::Error;

/// Why a frame is no supervision that can be read. Of two reasons the one that stands first in the frame is given.
#[derive(Clone, Copy, Debug, PartialEq, Eq, Error)]
pub enum SupFault {
    /// The destination or the type is not that of supervision.
    #[error("the frame is no supervision")]
    NotSupervision,
    /// The version is above 1.
    #[error("the supervision has an unknown version")]
    Version,
    /// The first TLV has a type other than 20 to 23, or a length other than 6 and 12.
    #[error("the supervision begins with an unknown TLV")]
    FirstTlv,
    /// The payload ends within the version and number, before the first TLV, or within a TLV.
    #[error("the supervision is cut short")]
    Truncated,
}

impl SupFault {
    /// The code of the fault, as the README of this crate lists them (choice of this project).
    pub fn code(self) -> &'static str
        ensures { result.now ≡ sup_code self }
    {
        match self {
            SupFault::NotSupervision => "S1",
            SupFault::Version => "S2",
            SupFault::FirstTlv => "S3",
            SupFault::Truncated => "S4",
        }
    }
}
