//! Why a network was not run.

ghost use Rattle.std.specs.Prelude.{◌≡◌};
ghost use Rattle.sr_threaded.specs.FaultNumbers.{network_number};

use sr_frame::NoMemory;
use sr_workers::CrewFault;
use thiserror::Error;

/// Why a network was not run.
#[derive(Clone, Copy, Debug, PartialEq, Eq, Error)]
pub enum NetworkFault {
    /// 1: there are fewer than 2 nodes, or more than 16.
    #[error("a network has 2 to 16 nodes")]
    Size,
    /// 2: an allocation failed.
    #[error("out of memory")]
    NoMemory,
    /// 3: no thread can be started.
    #[error("no thread can be started")]
    NoThread,
}

impl NetworkFault {
    /// The number of the fault, as the README of this crate lists them (choice of this project).
    pub fn number(self) -> u8
        ensures { result ≡ network_number self }
    {
        match self {
            NetworkFault::Size => 1,
            NetworkFault::NoMemory => 2,
            NetworkFault::NoThread => 3,
        }
    }
}

impl From<NoMemory> for NetworkFault {
    ghost use Rattle.sr_threaded.specs.declared.fault.NetworkFault.TheVariants.{NoMemory as OutOfMemory};

    ghost from_gives = { λ _ f. f ≡ OutOfMemory };

    fn from(_e: NoMemory) -> NetworkFault {
        NetworkFault::NoMemory
    }
}

// The fault of workers that have no result.
pub(crate) fn of_crew(fault: CrewFault) -> NetworkFault
    ensures memory { fault ≡ CrewFault.NoMemory → result ≡ NetworkFault.NoMemory }
    ensures thread { fault ≡ CrewFault.NoThread → result ≡ NetworkFault.NoThread }
    ensures size { result ≡ NetworkFault.Size → ⊥ }
{
    match fault {
        CrewFault::NoMemory => NetworkFault::NoMemory,
        CrewFault::NoThread => NetworkFault::NoThread,
    }
}
