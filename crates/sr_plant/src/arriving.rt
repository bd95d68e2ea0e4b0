//! Copies come to their receivers.

ghost use Rattle.std.specs.Prelude.{◌≡◌, true, false, Some, IfOk, IfErr, OnOk, OnErr};
ghost use Rattle.sr_node.specs.Arriving.{arrival_answer};
ghost use Rattle.sr_node.specs.Octets.{OctetsArrived, OctetsRefused};
ghost use Rattle.sr_node.specs.States.{state_of};
ghost use Rattle.sr_forwarding.specs.PortFramings.{carried_as};
ghost use Rattle.sr_plant.specs.Images.{plant_state};
ghost use Rattle.sr_plant.specs.Plants.{IsEmptied, IsInOrder};
ghost use Rattle.sr_plant.specs.Steps.{is_loss, Carried, Fails};
ghost use Rattle.sr_plant.specs.Flights.{hop_of};
ghost use Rattle.sr_plant.specs.Carrying.{ComesAs, OneComesAs, Lands, FailsToLand};

use crate::flight::Flying;
use crate::node_step::{Given, take_out};
use crate::{PlantEvent, PlantFault, PlantOf, Topology};
use sr_forwarding::{Framing, Outlets, Parcel, PortFraming, ReadFault, Role};
use sr_frame::{Frame, NoMemory, Port};
use sr_node::{NodeOf, StepFault};
use std::alloc::Global;

/// A copy as it comes to its receiver.
#[derive(Drop)]
pub(crate) struct Arriving {
    pub(crate) node: usize,
    pub(crate) port: Port,
    pub(crate) octets: Frame,
}

impl Arriving {
    /// The copy of this parcel, on its way from an outlet to a port. `None` where the outlet has no octets for the parcel.
    /// `NoMemory` where an allocation fails.
    pub(crate) fn of(
        alloc: Global,
        topology: Topology,
        flying: Flying,
        parcel: &Parcel,
    ) -> Result<Option<Arriving>, NoMemory>
        ensures { IfOk result (λ a. ComesAs topology
            (record {
              hop = hop_of flying.hop;
              from = flying.from;
              outlet = flying.outlet;
              parcel = parcel.now;
            }) a) }
    {
        let framing = topology.framing_of(flying.from, flying.outlet);
        match framing.encode(alloc, parcel) {
            Ok(octets) => Ok(Some(Arriving {
                node: flying.hop.node,
                port: flying.hop.port,
                octets,
            })),
            Err(ReadFault::NoMemory) => Err(NoMemory),
            Err(_) => Ok(None),
        }
    }
}

/// What becomes of a copy at its receiver.
#[derive(Drop)]
enum Landing {
    /// The receiver refuses it, and it is lost.
    Lost,
    /// The receiver takes it, and puts this out at its ports.
    Taken(Given),
}

// What comes of a refusal by the receiver: the copy is lost, or the plant refuses the event too.
fn refused(fault: StepFault) -> Result<Landing, PlantFault>
    ensures ok { IfOk result (λ l. (is_loss fault ≡ true) × (l ≡ Landing.Lost)) }
    ensures err { IfErr result (λ f. (is_loss fault ≡ false) × (f ≡ PlantFault.Node fault)) }
{
    match fault {
        StepFault::Reading(_) | StepFault::Untagged | StepFault::TableFull => Ok(Landing::Lost),
        StepFault::OutboxFull(_) | StepFault::NoMemory => Err(PlantFault::Node(fault)),
    }
}

// Octets come in at a port of a node of the plant.
fn arrive<R: Role>(
    framing: PortFraming,
    node: &mut NodeOf<R>,
    port: Port,
    octets: &[u8],
    now: u64,
) -> Result<Option<Outlets>, StepFault>
    ensures ok { IfOk result (λ outlets. OctetsArrived (carried_as framing)
        (state_of R.meaning node.old) port octets.now now (arrival_answer outlets)
        (state_of R.meaning node.new)) }
    ensures err { IfErr result (λ f. OctetsRefused (carried_as framing)
        (state_of R.meaning node.old) port octets.now now f) }
    ensures same { OnErr result (state_of R.meaning node.new
        ≡ state_of R.meaning node.old) }
{
    node.receive(&framing, port, octets, now)
}

// A copy comes to its receiver. What the receiver has for its host is appended to `up`, for which the allocation comes
// first, and what came out at its ports is returned.
fn arrive_out<R: Role>(
    framing: PortFraming,
    node: &mut NodeOf<R>,
    up: &mut Vec<Parcel>,
    arriving: &Arriving,
    now: u64,
) -> Result<Landing, PlantFault>
    requires { IsEmptied (state_of R.meaning node.old) }
    ensures ok { IfOk result (λ l. Lands (carried_as framing) (state_of R.meaning node.old)
        arriving.now.port arriving.now.octets now l up.old.items up.new.items
        (state_of R.meaning node.new)) }
    ensures err { IfErr result (λ f. FailsToLand (carried_as framing) (state_of R.meaning node.old)
        arriving.now.port arriving.now.octets now f) }
    ensures same { OnErr result ((state_of R.meaning node.new
        ≡ state_of R.meaning node.old) × (up.new.items ≡ up.old.items)) }
{
    up.reserve(1)?;
    if let Err(fault) = arrive(framing, node, arriving.port, arriving.octets.octets(), now) {
        return refused(fault);
    }
    Ok(Landing::Taken(take_out(node, up)))
}

impl<R: Role> PlantOf<R> {
    /// The copy at a place comes to its receiver. All allocations come first.
    pub(crate) fn bring(&mut self, place: usize, arriving: &Arriving) -> Result<(), PlantFault>
        requires in_order { IsInOrder (plant_state R.meaning self.old) }
        requires there { OneComesAs self.old.topology self.old.traffic.flight.copies place
            (Some arriving.now) }
        ensures ok { OnOk result (Carried
            (plant_state R.meaning self.old) place
            (plant_state R.meaning self.new)) }
        ensures in_order { OnOk result (IsInOrder (plant_state R.meaning self.new)) }
        ensures err { IfErr result (λ f. Fails
            (plant_state R.meaning self.old) (PlantEvent.Carry place) f) }
        ensures same { OnErr result (plant_state R.meaning self.new
            ≡ plant_state R.meaning self.old) }
    {
        let nodes = self.nodes.len();
        self.traffic.reserve(nodes)?;
        let node = arriving.node;
        let framing = self.topology.framing_of(node, arriving.port);
        let now = self.traffic.clock();
        let landing = arrive_out(
            framing,
            &mut self.nodes[node],
            &mut self.handed[node],
            arriving,
            now,
        )?;
        self.traffic.remove(place);
        if let Landing::Taken(given) = landing {
            self.traffic.put(self.topology, nodes, node, given);
        }
        Ok(())
    }
}
