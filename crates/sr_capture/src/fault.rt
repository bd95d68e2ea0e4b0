//! Why a capture is not read on.

ghost use Rattle.std.specs.Prelude.{◌≡◌};

use crate::listed::Listed;
use std::alloc::AllocError;
use thiserror::Error;

/// What is wrong with a capture.
#[derive(Clone, Copy, Debug, PartialEq, Eq, Error)]
pub enum Reason {
    /// The reader failed; an interrupted read is a failure too.
    #[error("the file can not be read")]
    Read,
    /// An allocation failed.
    #[error("out of memory")]
    NoMemory,
    /// The file begins as one that gzip compressed.
    #[error("the file is compressed: gunzip it")]
    Compressed,
    /// The file begins as no capture.
    #[error("the file is no capture")]
    Unknown,
    /// The file ends within its header.
    #[error("the file ends within its header")]
    Short,
    /// The version is not 2.4, or that of a section of a pcapng file not 1.
    #[error("the version of the format is not known")]
    Version,
    /// The link type is not Ethernet.
    #[error("link type {0} is not Ethernet")]
    Link(u16),
    /// The file ends within a packet.
    #[error("the file ends within a packet")]
    Unfinished,
    /// The lengths of a block of a pcapng file do not fit what it is, or one another.
    #[error("the lengths of a block do not fit")]
    Length,
    /// A block of a pcapng file is longer than 16 MiB.
    #[error("a block is longer than 16 MiB")]
    Long,
    /// The options of an interface are none.
    #[error("the options of an interface can not be read")]
    Options,
    /// These interfaces of a section are Ethernet, and none was named.
    #[error("interfaces {0} are Ethernet: name one, as FILE:N")]
    Several(Listed),
    /// A packet stands before any interface that is Ethernet, and no interface was named.
    #[error("a packet of an interface that is not Ethernet, and none before it is")]
    NoEthernet,
    /// A packet is of an interface that its section has not described.
    #[error("a packet of an interface that is not described")]
    Undescribed,
    /// There are more blocks than 64 bits count.
    #[error("there are more blocks than 64 bits count")]
    Endless,
}

impl From<AllocError> for Reason {
    ghost use Rattle.sr_capture.specs.declared.fault.Reason.TheVariants.{NoMemory as OutOfMemory};

    ghost from_gives = { λ _ e. e ≡ OutOfMemory };

    fn from(_e: AllocError) -> Reason {
        Reason::NoMemory
    }
}

/// What is wrong with a capture, and where.
#[derive(Clone, Copy, Debug, PartialEq, Eq, Error)]
#[error("{reason}, at octet {at}")]
pub struct CaptureFault {
    /// The offset of the octet: that of the field which is wrong, of the packet that is not whole, or of the octet that
    /// could not be read.
    pub at: u64,
    /// What is wrong.
    pub reason: Reason,
}
