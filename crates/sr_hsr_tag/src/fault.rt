//! Why a tag could not be read or taken out.

ghost use Rattle.std.specs.Prelude.{◌≡◌};
ghost use Rattle.sr_hsr_tag.specs.FaultCodes.{tag_code, untag_code};

use sr_frame::NoMemory;
use thiserror::Error;

/// Why a frame shows no tag.
#[derive(Clone, Copy, Debug, PartialEq, Eq, Error)]
pub enum TagFault {
    /// The type is not that of a tagged frame.
    #[error("the frame has no HSR tag")]
    NotTagged,
    /// Fewer than six octets stand behind the type.
    #[error("the HSR tag is cut short")]
    Truncated,
}

impl TagFault {
    /// The code of the fault, as the README of this crate lists them (choice of this project).
    pub fn code(self) -> &'static str
        ensures { result.now ≡ tag_code self }
    {
        match self {
            TagFault::NotTagged => "H1",
            TagFault::Truncated => "H2",
        }
    }
}

/// Why a tag could not be taken out.
#[derive(Clone, Copy, Debug, PartialEq, Eq, Error)]
pub enum UntagFault {
    /// The type is not that of a tagged frame.
    #[error("the frame has no HSR tag")]
    NotTagged,
    /// Fewer than six octets stand behind the type.
    #[error("the HSR tag is cut short")]
    Truncated,
    /// The inner type is that of a VLAN tag, and too little stands behind it.
    #[error("the frame without its HSR tag is too short")]
    TooShort,
    /// An allocation failed.
    #[error("out of memory")]
    NoMemory,
}

impl UntagFault {
    /// The code of the fault, as the README of this crate lists them (choice of this project).
    pub fn code(self) -> &'static str
        ensures { result.now ≡ untag_code self }
    {
        match self {
            UntagFault::NotTagged => "H1",
            UntagFault::Truncated => "H2",
            UntagFault::TooShort => "F1",
            UntagFault::NoMemory => "F3",
        }
    }
}

impl From<TagFault> for UntagFault {
    ghost use Rattle.sr_hsr_tag.specs.Faults.{untag_fault_of};

    ghost from_gives = { λ fault e. e ≡ untag_fault_of fault };

    fn from(fault: TagFault) -> UntagFault {
        match fault {
            TagFault::NotTagged => UntagFault::NotTagged,
            TagFault::Truncated => UntagFault::Truncated,
        }
    }
}

impl From<NoMemory> for UntagFault {
    ghost use Rattle.sr_hsr_tag.specs.declared.fault.UntagFault.TheVariants.{NoMemory as OutOfMemory};

    ghost from_gives = { λ _ e. e ≡ OutOfMemory };

    fn from(_e: NoMemory) -> UntagFault {
        UntagFault::NoMemory
    }
}
