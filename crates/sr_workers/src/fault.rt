//! Why feeds, workers and crews stop.

ghost use Rattle.std.specs.Prelude.{◌≡◌, ◌≢◌, IfSome};
ghost use Rattle.sr_workers.specs.declared.fault.WorkerFault.TheVariants.{FeedFault as Failed};
ghost use Rattle.sr_workers.specs.Ends.{stop_of};

use sr_frame::NoMemory;
use sr_node::StepFault;
use sr_ports::EnterFault;
use thiserror::Error;

/// A feed failed.
#[derive(Clone, Copy, Debug, PartialEq, Eq, Error)]
#[error("the feed failed")]
pub struct FeedFault;

/// Why a worker stopped before its end.
#[derive(Clone, Copy, Debug, PartialEq, Eq, Error)]
pub enum WorkerFault {
    /// An allocation failed.
    #[error("out of memory")]
    NoMemory,
    /// The journal has as many entries as it may have.
    #[error("the journal is full")]
    JournalFull,
    /// The feed failed.
    #[error("the feed failed")]
    FeedFault,
}

impl From<NoMemory> for WorkerFault {
    ghost use Rattle.sr_workers.specs.declared.fault.WorkerFault.TheVariants.{NoMemory as OutOfMemory};

    ghost from_gives = { λ _ f. f ≡ OutOfMemory };

    fn from(_e: NoMemory) -> WorkerFault {
        WorkerFault::NoMemory
    }
}

impl From<FeedFault> for WorkerFault {
    ghost use Rattle.sr_workers.specs.declared.fault.WorkerFault.TheVariants.{FeedFault as Failed};

    ghost from_gives = { λ _ f. f ≡ Failed };

    fn from(_e: FeedFault) -> WorkerFault {
        WorkerFault::FeedFault
    }
}

/// Why a worker stops where an event is refused so. None: the worker goes on, and the event is lost.
pub(crate) fn stop_of(fault: EnterFault) -> Option<WorkerFault>
    ensures stop { result ≡ stop_of fault }
    ensures feed { IfSome result (λ f. f ≢ Failed) }
{
    match fault {
        EnterFault::JournalFull => Some(WorkerFault::JournalFull),
        EnterFault::Step(StepFault::NoMemory) => Some(WorkerFault::NoMemory),
        EnterFault::Step(_) => None,
    }
}

/// Why a crew of workers has no result.
#[derive(Clone, Copy, Debug, PartialEq, Eq, Error)]
pub enum CrewFault {
    /// 1: an allocation failed.
    #[error("out of memory")]
    NoMemory,
    /// 2: no thread could be started.
    #[error("no thread can be started")]
    NoThread,
}

impl From<NoMemory> for CrewFault {
    ghost use Rattle.sr_workers.specs.declared.fault.CrewFault.TheVariants.{NoMemory as OutOfMemory};

    ghost from_gives = { λ _ f. f ≡ OutOfMemory };

    fn from(_e: NoMemory) -> CrewFault {
        CrewFault::NoMemory
    }
}
