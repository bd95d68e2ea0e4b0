//! Why a plant is not made, or refuses an event.

ghost use Rattle.std.specs.Prelude.{◌≡◌};
ghost use Rattle.sr_plant.specs.FaultNumbers.{plant_number};

use sr_frame::NoMemory;
use sr_node::StepFault;
use std::alloc::AllocError;
use thiserror::Error;

/// Why a plant is not made, or refuses an event. Where several reasons hold, the first in this order is returned, but
/// `NoMemory` for an allocation of the plant comes before `Node`.
#[derive(Clone, Copy, Debug, PartialEq, Eq, Error)]
pub enum PlantFault {
    /// 1: the plant has no such node, or no such link.
    #[error("no such node or link")]
    NoSuchNode,
    /// 2: no copy is in flight at this place.
    #[error("no such copy")]
    NoSuchCopy,
    /// 3: the time is before the plant's.
    #[error("the clock would go back")]
    ClockBack,
    /// 4: the node refuses the event.
    #[error("the node refuses it")]
    Node(#[source] StepFault),
    /// 5: the nodes make no plant.
    #[error("the nodes make no plant")]
    BadPlant,
    /// 6: an allocation failed.
    #[error("out of memory")]
    NoMemory,
}

impl PlantFault {
    /// The number of the fault, as the README of this crate lists them (choice of this project).
    pub fn number(self) -> u8
        ensures { result ≡ plant_number self }
    {
        match self {
            PlantFault::NoSuchNode => 1,
            PlantFault::NoSuchCopy => 2,
            PlantFault::ClockBack => 3,
            PlantFault::Node(_) => 4,
            PlantFault::BadPlant => 5,
            PlantFault::NoMemory => 6,
        }
    }
}

impl From<NoMemory> for PlantFault {
    ghost use Rattle.sr_plant.specs.declared.fault.PlantFault.TheVariants as fault;

    ghost from_gives = { λ e f. f ≡ fault.NoMemory };

    fn from(_e: NoMemory) -> PlantFault {
        PlantFault::NoMemory
    }
}

impl From<AllocError> for PlantFault {
    ghost use Rattle.sr_plant.specs.declared.fault.PlantFault.TheVariants as fault;

    ghost from_gives = { λ e f. f ≡ fault.NoMemory };

    fn from(_e: AllocError) -> PlantFault {
        PlantFault::NoMemory
    }
}

impl From<StepFault> for PlantFault {
    ghost use Rattle.sr_plant.specs.declared.fault.PlantFault.TheVariants as fault;

    ghost from_gives = { λ e f. f ≡ fault.Node e };

    fn from(e: StepFault) -> PlantFault {
        PlantFault::Node(e)
    }
}
