//! Why a run ends early.

ghost use Rattle.std.specs.Prelude.{◌≡◌, Some};

use std::alloc::AllocError;
use std::error::Error;
use std::fmt;

/// What ends a run.
#[derive(Clone, Copy, Debug, PartialEq, Eq)]
pub enum FaultKind {
    /// The line is not a line of a script: not of its grammar, or not ASCII.
    Line,
    /// The line has more than 8000 octets, or comes behind 1,000,000 lines.
    Long,
    /// The reader failed; an interrupted read is a failure too.
    Read,
    /// The writer failed.
    Write,
    /// An allocation failed.
    Memory,
}

impl fmt::Display for FaultKind {
    ghost use Rattle.sr_session.specs.FaultTexts.{kind_text};

    ghost output = { λ kind. Some (kind_text kind) };

    fn fmt<W: fmt::Write>(&self, f: &mut fmt::Formatter<W>) -> fmt::Result {
        f.write_str(match self {
            FaultKind::Line => "line",
            FaultKind::Long => "long",
            FaultKind::Read => "read",
            FaultKind::Write => "write",
            FaultKind::Memory => "memory",
        })
    }
}

impl Error for FaultKind {}

impl From<AllocError> for FaultKind {
    ghost use Rattle.sr_session.specs.declared.fault.FaultKind.TheVariants.{Memory};

    ghost from_gives = { λ _ kind. kind ≡ Memory };

    fn from(_error: AllocError) -> FaultKind {
        FaultKind::Memory
    }
}

/// What ended a run, and the number of the line at work, counted from 1.
#[derive(Clone, Copy, Debug, PartialEq, Eq)]
pub struct Fault {
    /// The line at work; the count of lines plus 1 where the end is at work.
    pub line: u64,
    /// What ended the run.
    pub kind: FaultKind,
}

impl fmt::Display for Fault {
    ghost use Rattle.sr_session.specs.FaultTexts.{fault_text};

    ghost output = { λ fault. Some (fault_text fault) };

    fn fmt<W: fmt::Write>(&self, f: &mut fmt::Formatter<W>) -> fmt::Result {
        write!(f, "fault {} {}", self.line, self.kind)
    }
}

impl Error for Fault {}

/// An allocation failed before the first line was read.
pub const NOT_BEGUN: Fault = Fault {
    line: 1,
    kind: FaultKind::Memory,
};
