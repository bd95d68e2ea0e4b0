//! One event of a node of the plant: the node takes it, and all that it puts out leaves it.

ghost use Rattle.std.specs.Prelude.{◌≡◌, ◌<◌, ◌++◌, ◌⊎◌, IfOk, IfErr, OnOk, OnErr, length, option_to_list};
ghost use Rattle.std.specs.Vec.{vec_len, vec_capacity};
ghost use Rattle.sr_node.specs.Faults.{or_no_memory};
ghost use Rattle.sr_node.specs.Steps.{refusal_of};
ghost use Rattle.sr_node.specs.States.{state_of};
ghost use Rattle.sr_plant.specs.Images.{plant_state};
ghost use Rattle.sr_plant.specs.Plants.{IsEmptied, IsInOrder};
ghost use Rattle.sr_plant.specs.Given.{IsAtMostOneEach, GivesOut, StepsOut};
ghost use Rattle.sr_plant.specs.Steps.{Acts, NodeRefuses};

use crate::{PlantFault, PlantOf};
use sr_forwarding::{Parcel, Role};
use sr_frame::Port;
use sr_node::{Event, NodeOf};

/// What came out of a node at its ports.
#[derive(Drop)]
pub(crate) struct Given {
    pub(crate) a: Option<Parcel>,
    pub(crate) b: Option<Parcel>,
    pub(crate) c: Option<Parcel>,
}

// Puts the parcel, if there is one, behind all others.
fn append(list: &mut Vec<Parcel>, parcel: Option<Parcel>)
    requires { vec_len list.old < vec_capacity list.old }
    ensures { list.new.items ≡ list.old.items ++ option_to_list parcel }
{
    if let Some(parcel) = parcel {
        list.push_reserved(parcel);
    }
}

/// Takes out all that waits in a node, where at most one parcel waits at each outlet. The parcel for the host is appended
/// to `up`, and those of the ports are returned.
pub(crate) fn take_out<R: Role>(node: &mut NodeOf<R>, up: &mut Vec<Parcel>) -> Given
    requires few { IsAtMostOneEach (state_of R.meaning node.old).core.out }
    requires room { vec_len up.old < vec_capacity up.old }
    ensures { GivesOut (state_of R.meaning node.old) result
        up.old.items up.new.items (state_of R.meaning node.new) }
{
    append(up, node.take(Port::H));
    let a = node.take(Port::A);
    let b = node.take(Port::B);
    let c = node.take(Port::C);
    Given { a, b, c }
}

// A node takes an event. What it has for its host is appended to `up`, for which the allocation comes first, and what
// came out at its ports is returned.
fn step_out<R: Role>(
    node: &mut NodeOf<R>,
    up: &mut Vec<Parcel>,
    event: &Event,
) -> Result<Given, PlantFault>
    requires { IsEmptied (state_of R.meaning node.old) }
    ensures ok { IfOk result (λ g. StepsOut (state_of R.meaning node.old) event.now g
        up.old.items up.new.items (state_of R.meaning node.new)) }
    ensures err { IfErr result (λ f. (f ≡ PlantFault.NoMemory)
        ⊎ (f ≡ PlantFault.Node
        (or_no_memory (refusal_of (state_of R.meaning node.old) event.now)))) }
    ensures same { OnErr result ((state_of R.meaning node.new
        ≡ state_of R.meaning node.old) × (up.new.items ≡ up.old.items)) }
{
    up.reserve(1)?;
    let _answer = node.step(event)?;
    Ok(take_out(node, up))
}

impl<R: Role> PlantOf<R> {
    /// A node of the plant takes an event, and the plant's clock goes to this time. All allocations come first.
    pub(crate) fn act(&mut self, node: usize, event: &Event, now: u64) -> Result<(), PlantFault>
        requires in_order { IsInOrder (plant_state R.meaning self.old) }
        requires there { node < length self.old.nodes.items }
        ensures ok { OnOk result (Acts
            (plant_state R.meaning self.old) node event.now now
            (plant_state R.meaning self.new)) }
        ensures in_order { OnOk result (IsInOrder (plant_state R.meaning self.new)) }
        ensures err { IfErr result (λ f. (f ≡ PlantFault.NoMemory) ⊎ NodeRefuses
            (plant_state R.meaning self.old) node event.now f) }
        ensures same { OnErr result (plant_state R.meaning self.new
            ≡ plant_state R.meaning self.old) }
    {
        let nodes = self.nodes.len();
        self.traffic.reserve(nodes)?;
        let given = step_out(&mut self.nodes[node], &mut self.handed[node], event)?;
        self.traffic.put(self.topology, nodes, node, given);
        self.traffic.set_clock(now);
        Ok(())
    }
}
