//! Why a threaded run ends early.

ghost use Rattle.std.specs.Prelude.{◌≡◌};
ghost use Rattle.sr_threaded_script.specs.Faults.{IsBehindLines, fault_on_line, fault_line};

use sr_frame::NoMemory;
use sr_session::{Fault, FaultKind};
use sr_threaded::NetworkFault;
use sr_workers::WorkerFault;
use std::alloc::AllocError;
use std::error::Error;
use std::fmt;

/// Why nodes are not reported.
#[derive(Clone, Copy, Debug)]
pub(crate) enum RunFault {
    /// No thread can be started.
    NoThread,
    /// An allocation failed. Workers over memory end early for that alone.
    NoMemory,
}

impl From<NetworkFault> for RunFault {
    ghost use Rattle.sr_threaded_script.specs.Faults.{run_fault};

    ghost from_gives = { λ fault made. made ≡ run_fault fault };

    fn from(fault: NetworkFault) -> RunFault {
        match fault {
            NetworkFault::NoThread => RunFault::NoThread,
            NetworkFault::Size | NetworkFault::NoMemory => RunFault::NoMemory,
        }
    }
}

impl From<WorkerFault> for RunFault {
    ghost use Rattle.sr_threaded_script.specs.declared.fault.RunFault.TheVariants.{NoMemory as OutOfMemory};

    ghost from_gives = { λ _ made. made ≡ OutOfMemory };

    fn from(_fault: WorkerFault) -> RunFault {
        RunFault::NoMemory
    }
}

impl From<AllocError> for RunFault {
    ghost use Rattle.sr_threaded_script.specs.declared.fault.RunFault.TheVariants.{NoMemory as OutOfMemory};

    ghost from_gives = { λ _ made. made ≡ OutOfMemory };

    fn from(_refused: AllocError) -> RunFault {
        RunFault::NoMemory
    }
}

impl From<NoMemory> for RunFault {
    ghost use Rattle.sr_threaded_script.specs.declared.fault.RunFault.TheVariants.{NoMemory as OutOfMemory};

    ghost from_gives = { λ _ made. made ≡ OutOfMemory };

    fn from(_refused: NoMemory) -> RunFault {
        RunFault::NoMemory
    }
}

impl From<RunFault> for FaultKind {
    ghost use Rattle.sr_session.specs.declared.fault.FaultKind.TheVariants.{Memory};

    ghost from_gives = { λ _ kind. kind ≡ Memory };

    fn from(_fault: RunFault) -> FaultKind {
        FaultKind::Memory
    }
}

/// What ended a threaded run.
#[derive(Clone, Copy, Debug, PartialEq, Eq)]
pub enum ThreadedFault {
    /// What ends any run of a script.
    Script(Fault),
    /// No thread can be started. The number is that of the end: the count of lines plus 1.
    NoThread(u64),
}

/// What a fault of a network is, at this line.
pub(crate) fn fault_on_line(fault: RunFault, line: u64) -> ThreadedFault
    ensures is { result ≡ fault_on_line fault line }
    ensures kind { IsBehindLines result }
    ensures line { fault_line result ≡ line }
{
    match fault {
        RunFault::NoThread => ThreadedFault::NoThread(line),
        lack @ RunFault::NoMemory => ThreadedFault::Script(Fault {
            line,
            kind: lack.into(),
        }),
    }
}

impl fmt::Display for ThreadedFault {
    fn fmt<W: fmt::Write>(&self, f: &mut fmt::Formatter<W>) -> fmt::Result {
        match self {
            ThreadedFault::Script(fault) => write!(f, "{fault}"),
            ThreadedFault::NoThread(line) => write!(f, "fault {line} thread"),
        }
    }
}

impl Error for ThreadedFault {}
