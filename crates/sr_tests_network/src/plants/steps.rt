//! One driver for all tests: it makes a plant, takes it through a table of steps, and answers at which step it differs.

ghost use Rattle.std.specs.Prelude.{IfOk};
ghost use Rattle.sr_plant.specs.Images.{plant_state};
ghost use Rattle.sr_plant.specs.Plants.{IsInOrder};

use super::frames::{ETHERTYPE, To, destination, mac_of, octets_of};
use super::makers::{
    danhs, danhs_of_both, danhs_of_which_one_is_crowded, danps, new_lans, new_ring,
};
use crate::settings::{MODE_X, WIDE};
use sr_forwarding::{Parcel, Role};
use sr_frame::{Frame, FrameFault};
use sr_plant::{PlantEvent, PlantFault, PlantOf};
use std::alloc::Global;
use std::process::Abort;

/// What happens to a plant.
#[derive(Clone, Copy)]
pub enum Act {
    /// The host of a node sends a frame of its own.
    Send(u8, To),
    /// The host of a node sends the frame of another to all.
    SendOf(usize, u8),
    /// The host of a node sends so many zeros.
    SendZeros(usize, usize),
    Carry(usize),
    Lose(usize),
    Repeat(usize),
    Cut(usize),
    Mend(usize),
    Tick(usize, u64),
}

/// What the steps are taken by.
#[derive(Clone, Copy)]
pub enum Network {
    /// A ring of so many nodes.
    Ring(u8),
    /// A ring of so many nodes, whose node 1 has no room for another source.
    CrowdedRing(u8),
    /// A ring of so many nodes, of which those with an odd number are in mode X.
    MixedRing(u8),
    /// A ring of so many nodes, of which those with an odd number remember 2048 numbers of a source.
    RingOfBothWidths(u8),
    /// Two LANs of so many nodes.
    TwinLan(u8),
}

/// A step of a plant's life, and what it has to come to.
#[derive(Clone, Copy)]
pub enum Step {
    /// This happens.
    Does(Act),
    /// This is refused, and the plant stays.
    Refuses(Act, PlantFault),
    /// So many copies are in flight.
    InFlight(usize),
    /// The first copy is carried again and again, so many times, and then none is in flight.
    Flow(usize),
    /// A node handed up these frames and no others, oldest first.
    Up(usize, &'static [(u8, To)]),
    /// The host of a node sends so many frames to a neighbour, and both copies of each are carried, past one that is in flight.
    Later(usize, u8, u8),
    /// A node handed up so many frames.
    UpCount(usize, usize),
}

// A frame of the host of a node, of 15 octets.
fn frame_of(alloc: Global, from: u8, to: To) -> Result<Frame, FrameFault> {
    Frame::copy(alloc, &octets_of(from, to)[..15])
}

// So many zeros.
fn zeros(alloc: Global, count: usize) -> Result<Frame, FrameFault> {
    let octets = Vec::from_elem(alloc, 0u8, count)?;
    Frame::copy(alloc, &octets)
}

// The event. None where an allocation failed.
fn event_of(alloc: Global, act: Act) -> Option<PlantEvent> {
    Some(match act {
        Act::Send(node, to) => PlantEvent::Send {
            node: usize::from(node),
            frame: frame_of(alloc, node, to).ok()?,
        },
        Act::SendOf(node, other) => PlantEvent::Send {
            node,
            frame: frame_of(alloc, other, To::All).ok()?,
        },
        Act::SendZeros(node, count) => PlantEvent::Send {
            node,
            frame: zeros(alloc, count).ok()?,
        },
        Act::Carry(place) => PlantEvent::Carry(place),
        Act::Lose(place) => PlantEvent::Drop(place),
        Act::Repeat(place) => PlantEvent::Repeat(place),
        Act::Cut(link) => PlantEvent::Cut(link),
        Act::Mend(link) => PlantEvent::Mend(link),
        Act::Tick(node, now) => PlantEvent::Tick { node, now },
    })
}

// It happens, or why not.
fn happens<R: Role>(alloc: Global, plant: &mut PlantOf<R>, act: Act) -> Result<(), PlantFault>
    requires { IsInOrder (plant_state R.meaning plant.old) }
    ensures { IsInOrder (plant_state R.meaning plant.new) }
{
    match event_of(alloc, act) {
        Some(event) => plant.apply(&event),
        None => Err(PlantFault::NoMemory),
    }
}

// How many copies are in flight, and how many frames were handed up.
fn counts<R: Role>(plant: &PlantOf<R>) -> (usize, usize) {
    let mut up = 0usize;
    for list in plant.all_handed() {
        up = up.saturating_add(list.len());
    }
    (plant.in_flight(), up)
}

// Whether it comes to this. Where an allocation fails nothing may have changed, and it comes again.
fn comes_to<R: Role>(
    alloc: Global,
    plant: &mut PlantOf<R>,
    act: Act,
    wanted: Result<(), PlantFault>,
) -> bool
    requires { IsInOrder (plant_state R.meaning plant.old) }
    ensures { IsInOrder (plant_state R.meaning plant.new) }
{
    let before = counts(plant);
    let first = happens(alloc, plant, act);
    if first.is_ok() || first == wanted {
        return first == wanted && (first.is_ok() || counts(plant) == before);
    }
    counts(plant) == before && happens(alloc, plant, act) == wanted
}

// Whether so many carries of the first copy leave none in flight.
fn flows<R: Role>(alloc: Global, plant: &mut PlantOf<R>, count: usize) -> bool
    requires { IsInOrder (plant_state R.meaning plant.old) }
    ensures { IsInOrder (plant_state R.meaning plant.new) }
{
    for _ in 0..count {
        if !comes_to(alloc, plant, Act::Carry(0), Ok(())) {
            return false;
        }
    }
    plant.in_flight() == 0
}

// Whether a frame goes past the first copy in flight.
fn goes_past<R: Role>(alloc: Global, plant: &mut PlantOf<R>, from: u8, to: u8) -> bool
    requires { IsInOrder (plant_state R.meaning plant.old) }
    ensures { IsInOrder (plant_state R.meaning plant.new) }
{
    comes_to(alloc, plant, Act::Send(from, To::Node(to)), Ok(()))
        && comes_to(alloc, plant, Act::Carry(1), Ok(()))
        && comes_to(alloc, plant, Act::Carry(1), Ok(()))
}

// Whether so many frames go past it.
fn go_past<R: Role>(alloc: Global, plant: &mut PlantOf<R>, count: usize, from: u8, to: u8) -> bool
    requires { IsInOrder (plant_state R.meaning plant.old) }
    ensures { IsInOrder (plant_state R.meaning plant.new) }
{
    for _ in 0..count {
        if !goes_past(alloc, plant, from, to) {
            return false;
        }
    }
    true
}

// How many frames a node handed up.
fn up_count<R: Role>(plant: &PlantOf<R>, node: usize) -> usize {
    if node < plant.all_handed().len() {
        plant.handed(node).len()
    } else {
        0
    }
}

// Whether the plain form of a parcel is this node's frame.
fn is_plain(parcel: &Parcel, from: u8, to: To) -> bool {
    let plain = parcel.plain();
    plain.dst == destination(to)
        && plain.src == mac_of(from)
        && plain.vlan.is_none()
        && plain.ethertype == ETHERTYPE
        && plain.payload == &octets_of(from, to)[14..]
}

// Whether a node handed up these frames.
fn handed_up<R: Role>(plant: &PlantOf<R>, node: usize, frames: &[(u8, To)]) -> bool {
    if node >= plant.all_handed().len() {
        return false;
    }
    let up = plant.handed(node);
    if up.len() != frames.len() {
        return false;
    }
    for index in 0..frames.len() {
        let (from, to) = frames[index];
        if !is_plain(&up[index], from, to) {
            return false;
        }
    }
    true
}

// Whether a step comes to what it has to.
fn holds<R: Role>(alloc: Global, plant: &mut PlantOf<R>, step: Step) -> bool
    requires { IsInOrder (plant_state R.meaning plant.old) }
    ensures { IsInOrder (plant_state R.meaning plant.new) }
{
    match step {
        Step::Does(act) => comes_to(alloc, plant, act, Ok(())),
        Step::Refuses(act, fault) => comes_to(alloc, plant, act, Err(fault)),
        Step::InFlight(count) => plant.in_flight() == count,
        Step::Flow(count) => flows(alloc, plant, count),
        Step::Up(node, frames) => handed_up(plant, node, frames),
        Step::Later(count, from, to) => go_past(alloc, plant, count, from, to),
        Step::UpCount(node, count) => up_count(plant, node) == count,
    }
}

// The number of the first step that differs.
fn play<R: Role>(alloc: Global, plant: &mut PlantOf<R>, steps: &[Step]) -> Option<usize>
    requires { IsInOrder (plant_state R.meaning plant.old) }
{
    for index in 0..steps.len() {
        if !holds(alloc, plant, steps[index]) {
            return Some(index);
        }
    }
    None
}

// The place of the first step at which this plant differs. A plant that was not made differs behind the last.
fn first_wrong<R: Role>(
    alloc: Global,
    made: Result<PlantOf<R>, PlantFault>,
    steps: &[Step],
) -> Option<usize>
    requires { IfOk made (λ p. IsInOrder (plant_state R.meaning p)) }
{
    match made {
        Ok(mut plant) => play(alloc, &mut plant, steps),
        Err(_) => Some(steps.len()),
    }
}

// The place of the first step at which a new network differs.
fn first_wrong_of(alloc: Global, network: Network, steps: &[Step]) -> Option<usize> {
    match network {
        Network::Ring(count) => first_wrong(alloc, new_ring(alloc, danhs(alloc, count)), steps),
        Network::CrowdedRing(count) => first_wrong(
            alloc,
            new_ring(alloc, danhs_of_which_one_is_crowded(alloc, count)),
            steps,
        ),
        Network::MixedRing(count) => first_wrong(
            alloc,
            new_ring(alloc, danhs_of_both(alloc, count, MODE_X)),
            steps,
        ),
        Network::RingOfBothWidths(count) => first_wrong(
            alloc,
            new_ring(alloc, danhs_of_both(alloc, count, WIDE)),
            steps,
        ),
        Network::TwinLan(count) => first_wrong(alloc, new_lans(alloc, danps(alloc, count)), steps),
    }
}

/// Fails the test at the place of the first step at which a new network differs. Where an allocation fails as it is made,
/// it is made again.
pub fn expect_steps(rt: &impl Abort, alloc: Global, network: Network, steps: &[Step]) {
    let mut wrong = first_wrong_of(alloc, network, steps);
    if wrong == Some(steps.len()) {
        wrong = first_wrong_of(alloc, network, steps);
    }
    assert_eq!(rt; wrong, None);
}
