//! Why octets are not read, or a parcel is not written.

ghost use Rattle.std.specs.Prelude.{◌≡◌};

use sr_frame::NoMemory;
use thiserror::Error;

/// Why octets that came in are no parcel, or a parcel has no octets to go out.
#[derive(Clone, Copy, Debug, PartialEq, Eq, Error)]
pub enum ReadFault {
    /// Fewer octets than the fields of a frame take, or of the frame without its tag.
    #[error("the frame is too short")]
    TooShort,
    /// More octets than the port takes, or than a frame has.
    #[error("the frame is too long")]
    TooLong,
    /// The tag is cut off.
    #[error("the tag is cut off")]
    Truncated,
    /// A frame of the host with another source than the node's address.
    #[error("the source is not this node")]
    NotOwn,
    /// A frame without the tag or the trailer that the port asks for, or a parcel without a number for them.
    #[error("the frame has no tag")]
    Untagged,
    /// An allocation failed.
    #[error("out of memory")]
    NoMemory,
}

impl From<NoMemory> for ReadFault {
    ghost use Rattle.sr_forwarding.specs.declared.fault.ReadFault.TheVariants.{NoMemory as OutOfMemory};

    ghost from_gives = { λ _ e. e ≡ OutOfMemory };

    fn from(_e: NoMemory) -> ReadFault {
        ReadFault::NoMemory
    }
}
