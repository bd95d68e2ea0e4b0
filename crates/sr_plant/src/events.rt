//! The calls for the events of a plant: one for each kind of event, and `apply` for any event.

ghost use Rattle.std.specs.Prelude.{◌≡◌, IfErr, OnOk, None, Some};
ghost use Rattle.sr_plant.specs.Images.{plant_state};
ghost use Rattle.sr_plant.specs.declared.fault.PlantFault.TheVariants.{NoSuchNode, NoSuchCopy};
ghost use Rattle.sr_plant.specs.Plants.{IsInOrder};
ghost use Rattle.sr_plant.specs.Steps.{PlantTakes, lacks, clock_fault};

use crate::{PlantEvent, PlantFault, PlantOf};
use sr_forwarding::Role;
use sr_frame::Frame;
use sr_node::Event;

// Ok where the place is below the count, else this fault.
fn has(place: usize, count: usize, fault: PlantFault) -> Result<(), PlantFault>
    ensures ok { OnOk result (lacks place count fault ≡ None) }
    ensures err { IfErr result (λ f. lacks place count fault ≡ Some f) }
{
    if place < count { Ok(()) } else { Err(fault) }
}

// Ok where the time is not before the clock, else `ClockBack`.
fn follows(now: u64, clock: u64) -> Result<(), PlantFault>
    ensures ok { OnOk result (clock_fault now clock ≡ None) }
    ensures err { IfErr result (λ f. clock_fault now clock ≡ Some f) }
{
    if now < clock {
        Err(PlantFault::ClockBack)
    } else {
        Ok(())
    }
}

impl<R: Role> PlantOf<R> {
    /// The host of a node sends a frame, without tag and trailer, at the plant's time.
    ///
    /// `NoSuchNode`, then `NoMemory` where an allocation of the plant fails, then `Node` where the node refuses it.
    pub fn send(&mut self, node: usize, frame: &Frame) -> Result<(), PlantFault>
        requires { IsInOrder (plant_state R.meaning self.old) }
        ensures { PlantTakes (plant_state R.meaning self.old) (PlantEvent.Send node frame.now)
            result (plant_state R.meaning self.new) }
    {
        has(node, self.nodes.len(), PlantFault::NoSuchNode)?;
        let now = self.traffic.clock();
        let frame = frame.try_clone(self.traffic.alloc())?;
        self.act(node, &Event::Send { frame, now }, now)
    }

    /// Time passes for a node, and the plant's clock becomes this.
    ///
    /// `NoSuchNode`, then `ClockBack` where the time is before the plant's, then `NoMemory` where an allocation of the plant
    /// fails, then `Node` where the node refuses it.
    pub fn tick(&mut self, node: usize, now: u64) -> Result<(), PlantFault>
        requires { IsInOrder (plant_state R.meaning self.old) }
        ensures { PlantTakes (plant_state R.meaning self.old) (PlantEvent.Tick node now)
            result (plant_state R.meaning self.new) }
    {
        has(node, self.nodes.len(), PlantFault::NoSuchNode)?;
        follows(now, self.traffic.clock())?;
        self.act(node, &Event::Tick { now }, now)
    }

    /// The copy at a place comes to its receiver as the octets that the framing of its outlet writes, at the plant's time.
    /// It is lost where it has no octets there, and where the receiver refuses it for reading, `Untagged` or `TableFull`.
    ///
    /// `NoSuchCopy`, then `NoMemory` where an allocation of the plant fails, then `Node` where an outbox of the receiver is
    /// full or an allocation fails there.
    pub fn carry(&mut self, place: usize) -> Result<(), PlantFault>
        requires { IsInOrder (plant_state R.meaning self.old) }
        ensures { PlantTakes (plant_state R.meaning self.old) (PlantEvent.Carry place)
            result (plant_state R.meaning self.new) }
    {
        has(place, self.traffic.len(), PlantFault::NoSuchCopy)?;
        let Some(arriving) = self.traffic.arriving(self.topology, place)? else {
            self.traffic.remove(place);
            return Ok(());
        };
        self.bring(place, &arriving)
    }

    /// The copy at a place is lost. `NoSuchCopy` where there is none.
    pub fn lose(&mut self, place: usize) -> Result<(), PlantFault>
        requires { IsInOrder (plant_state R.meaning self.old) }
        ensures { PlantTakes (plant_state R.meaning self.old) (PlantEvent.Drop place)
            result (plant_state R.meaning self.new) }
    {
        has(place, self.traffic.len(), PlantFault::NoSuchCopy)?;
        self.traffic.remove(place);
        Ok(())
    }

    /// The copy at a place is doubled, and the double goes last. `NoSuchCopy` where there is none, then `NoMemory` where the
    /// allocation fails.
    pub fn repeat(&mut self, place: usize) -> Result<(), PlantFault>
        requires { IsInOrder (plant_state R.meaning self.old) }
        ensures { PlantTakes (plant_state R.meaning self.old) (PlantEvent.Repeat place)
            result (plant_state R.meaning self.new) }
    {
        has(place, self.traffic.len(), PlantFault::NoSuchCopy)?;
        self.traffic.repeat(place)?;
        Ok(())
    }

    /// A link is cut: the copies on it are lost, and so is what is put on it until it is mended. `NoSuchNode` where there is
    /// no such link. A link may be cut again.
    pub fn cut(&mut self, link: usize) -> Result<(), PlantFault>
        requires { IsInOrder (plant_state R.meaning self.old) }
        ensures { PlantTakes (plant_state R.meaning self.old) (PlantEvent.Cut link)
            result (plant_state R.meaning self.new) }
    {
        has(link, self.traffic.links(), PlantFault::NoSuchNode)?;
        self.traffic.cut(link);
        Ok(())
    }

    /// A link is mended. `NoSuchNode` where there is no such link. A whole link may be mended.
    pub fn mend(&mut self, link: usize) -> Result<(), PlantFault>
        requires { IsInOrder (plant_state R.meaning self.old) }
        ensures { PlantTakes (plant_state R.meaning self.old) (PlantEvent.Mend link)
            result (plant_state R.meaning self.new) }
    {
        has(link, self.traffic.links(), PlantFault::NoSuchNode)?;
        self.traffic.mend(link);
        Ok(())
    }

    /// Takes an event whole, or refuses it and changes nothing.
    ///
    /// Refusals come in this order: `NoSuchNode`, `NoSuchCopy`, `ClockBack`, `NoMemory` where an allocation of the plant
    /// fails, and `Node` where the node refuses the event. A copy that its receiver refuses for reading, `Untagged` or
    /// `TableFull` is lost, and that is no refusal.
    pub fn apply(&mut self, event: &PlantEvent) -> Result<(), PlantFault>
        requires { IsInOrder (plant_state R.meaning self.old) }
        ensures { PlantTakes (plant_state R.meaning self.old) event.now
            result (plant_state R.meaning self.new) }
    {
        match event {
            PlantEvent::Send { node, frame } => self.send(*node, frame),
            PlantEvent::Carry(place) => self.carry(*place),
            PlantEvent::Drop(place) => self.lose(*place),
            PlantEvent::Repeat(place) => self.repeat(*place),
            PlantEvent::Cut(link) => self.cut(*link),
            PlantEvent::Mend(link) => self.mend(*link),
            PlantEvent::Tick { node, now } => self.tick(*node, *now),
        }
    }
}
