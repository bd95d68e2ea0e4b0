//! What happens to plants.

use super::frames::To;
use super::steps::{Act, Network, Step, expect_steps};
use sr_forwarding::ReadFault;
use sr_node::StepFault;
use sr_plant::PlantFault;

// Each refusal in the order in which it is looked for; nothing happens with any.
const REFUSALS: &[Step] = &[
    Step::Refuses(Act::Lose(0), PlantFault::NoSuchCopy),
    Step::Does(Act::Tick(0, 5)),
    Step::InFlight(2),
    Step::Refuses(Act::Tick(4, 4), PlantFault::NoSuchNode),
    Step::Refuses(Act::Tick(0, 4), PlantFault::ClockBack),
    Step::Does(Act::Tick(0, 5)),
    Step::Refuses(Act::SendZeros(4, 1519), PlantFault::NoSuchNode),
    Step::Refuses(
        Act::SendZeros(0, 1519),
        PlantFault::Node(StepFault::Reading(ReadFault::TooLong)),
    ),
    Step::Refuses(
        Act::SendOf(0, 1),
        PlantFault::Node(StepFault::Reading(ReadFault::NotOwn)),
    ),
    Step::Refuses(Act::Cut(4), PlantFault::NoSuchNode),
    Step::Refuses(Act::Mend(4), PlantFault::NoSuchNode),
    Step::Refuses(Act::Carry(2), PlantFault::NoSuchCopy),
    Step::Refuses(Act::Lose(2), PlantFault::NoSuchCopy),
    Step::Refuses(Act::Repeat(2), PlantFault::NoSuchCopy),
    Step::InFlight(2),
];

#[test]
fn refusals(rt: HostRuntime) {
    expect_steps(&rt, rt.alloc(), Network::Ring(4), REFUSALS);
}

// Both copies go round a whole ring, and every other node hands one up.
const WHOLE_RING: &[Step] = &[
    Step::Does(Act::Send(0, To::All)),
    Step::InFlight(2),
    Step::Flow(8),
    Step::Up(0, &[]),
    Step::Up(1, &[(0, To::All)]),
    Step::Up(2, &[(0, To::All)]),
    Step::Up(3, &[(0, To::All)]),
];

// With a link cut each copy goes as far as it can, and nothing is lost to anyone.
const CUT_RING: &[Step] = &[
    Step::Does(Act::Cut(1)),
    Step::Does(Act::Send(0, To::All)),
    Step::InFlight(2),
    Step::Flow(3),
    Step::Up(1, &[(0, To::All)]),
    Step::Up(2, &[(0, To::All)]),
    Step::Up(3, &[(0, To::All)]),
];

// A frame for one node goes no further than that, and a copy that comes twice goes on once.
const ONE_NODE: &[Step] = &[
    Step::Does(Act::Send(0, To::Node(2))),
    Step::Does(Act::Repeat(1)),
    Step::InFlight(3),
    Step::Flow(5),
    Step::Up(1, &[]),
    Step::Up(2, &[(0, To::Node(2))]),
    Step::Up(3, &[]),
];

// The copy at B is lost, and that at A goes round.
const LOST: &[Step] = &[
    Step::Does(Act::Send(0, To::All)),
    Step::Does(Act::Lose(1)),
    Step::Flow(4),
    Step::Up(1, &[(0, To::All)]),
    Step::Up(3, &[(0, To::All)]),
    Step::Does(Act::Send(1, To::Node(1))),
    Step::InFlight(2),
    Step::Does(Act::Lose(0)),
    Step::Does(Act::Lose(0)),
    Step::InFlight(0),
    Step::Up(1, &[(0, To::All)]),
];

// What is on a link that is cut is lost, and so is what is put there until it is mended.
const CUTS: &[Step] = &[
    Step::Does(Act::Cut(0)),
    Step::Does(Act::Cut(0)),
    Step::Does(Act::Send(0, To::All)),
    Step::InFlight(1),
    Step::Does(Act::Mend(0)),
    Step::Does(Act::Mend(0)),
    Step::Does(Act::Send(0, To::All)),
    Step::InFlight(3),
    Step::Does(Act::Repeat(2)),
    Step::InFlight(4),
    Step::Does(Act::Cut(0)),
    Step::InFlight(2),
    Step::Does(Act::Carry(1)),
    Step::InFlight(2),
    Step::Up(1, &[]),
    Step::Up(3, &[(0, To::All)]),
];

// What goes up stays, in order, however much of it there is.
const MANY_UP: &[Step] = &[
    Step::Does(Act::Send(0, To::Node(1))),
    Step::Flow(2),
    Step::Does(Act::Send(0, To::All)),
    Step::Flow(4),
    Step::Does(Act::Send(0, To::Node(1))),
    Step::Flow(2),
    Step::Does(Act::Send(0, To::All)),
    Step::Flow(4),
    Step::Does(Act::Send(0, To::Node(1))),
    Step::Flow(2),
    Step::Up(
        1,
        &[
            (0, To::Node(1)),
            (0, To::All),
            (0, To::Node(1)),
            (0, To::All),
            (0, To::Node(1)),
        ],
    ),
];

#[test]
fn rings(rt: HostRuntime) {
    expect_steps(&rt, rt.alloc(), Network::Ring(2), MANY_UP);
    expect_steps(&rt, rt.alloc(), Network::Ring(4), WHOLE_RING);
    expect_steps(&rt, rt.alloc(), Network::Ring(4), CUT_RING);
    expect_steps(&rt, rt.alloc(), Network::Ring(4), ONE_NODE);
    expect_steps(&rt, rt.alloc(), Network::Ring(4), LOST);
    expect_steps(&rt, rt.alloc(), Network::Ring(4), CUTS);
}

// The last of 16 nodes is a neighbour of the first.
const SIXTEEN: &[Step] = &[
    Step::Does(Act::Cut(15)),
    Step::Does(Act::Send(15, To::All)),
    Step::InFlight(1),
    Step::Does(Act::Mend(15)),
    Step::Flow(16),
    Step::Up(0, &[(15, To::All)]),
    Step::Does(Act::Send(0, To::Node(15))),
    Step::Flow(16),
    Step::Up(15, &[(0, To::Node(15))]),
];

#[test]
fn rings_of_sixteen(rt: HostRuntime) {
    expect_steps(&rt, rt.alloc(), Network::Ring(16), SIXTEEN);
}

// Node 1 has no room for another source: its copy is lost, and the node stays. That is no refusal.
const CROWDED: &[Step] = &[
    Step::Does(Act::Send(0, To::All)),
    Step::InFlight(2),
    Step::Does(Act::Carry(1)),
    Step::InFlight(1),
    Step::Up(1, &[]),
    Step::Flow(3),
    Step::Up(1, &[]),
    Step::Up(2, &[(0, To::All)]),
    Step::Up(3, &[(0, To::All)]),
];

#[test]
fn crowded_rings(rt: HostRuntime) {
    expect_steps(&rt, rt.alloc(), Network::CrowdedRing(4), CROWDED);
}

// Of nodes in mode H and in mode X in turn, those in mode X send no copy back; each other node hands one up.
const MIXED: &[Step] = &[
    Step::Does(Act::Send(0, To::All)),
    Step::Flow(6),
    Step::Does(Act::Send(1, To::All)),
    Step::Flow(6),
    Step::Up(0, &[(1, To::All)]),
    Step::Up(1, &[(0, To::All)]),
    Step::Up(2, &[(0, To::All), (1, To::All)]),
    Step::Up(3, &[(0, To::All), (1, To::All)]),
    Step::Does(Act::Cut(1)),
    Step::Does(Act::Send(0, To::All)),
    Step::Flow(3),
    Step::Up(1, &[(0, To::All), (0, To::All)]),
    Step::Up(2, &[(0, To::All), (1, To::All), (0, To::All)]),
    Step::Up(3, &[(0, To::All), (1, To::All), (0, To::All)]),
];

#[test]
fn rings_of_both_modes(rt: HostRuntime) {
    expect_steps(&rt, rt.alloc(), Network::MixedRing(4), MIXED);
}

// Of a narrow node and a wide one each tells a late copy from a new frame as far as its own table reaches: node 0 among 1023 later
// frames, node 1 among 2047.
const BOTH_WIDTHS: &[Step] = &[
    Step::Does(Act::Send(1, To::Node(0))),
    Step::Does(Act::Carry(0)),
    Step::Later(1023, 1, 0),
    Step::Does(Act::Repeat(0)),
    Step::Does(Act::Carry(0)),
    Step::UpCount(0, 1024),
    Step::Later(1, 1, 0),
    Step::Does(Act::Carry(0)),
    Step::UpCount(0, 1026),
    Step::Does(Act::Send(0, To::Node(1))),
    Step::Does(Act::Carry(0)),
    Step::Later(2047, 0, 1),
    Step::Does(Act::Repeat(0)),
    Step::Does(Act::Carry(0)),
    Step::UpCount(1, 2048),
    Step::Later(1, 0, 1),
    Step::Does(Act::Carry(0)),
    Step::UpCount(1, 2050),
];

#[test]
fn rings_of_both_widths(rt: HostRuntime) {
    expect_steps(&rt, rt.alloc(), Network::RingOfBothWidths(2), BOTH_WIDTHS);
}

// A copy goes to each other node in each LAN.
const WHOLE_LANS: &[Step] = &[
    Step::Does(Act::Send(0, To::All)),
    Step::InFlight(4),
    Step::Flow(4),
    Step::Up(0, &[]),
    Step::Up(1, &[(0, To::All)]),
    Step::Up(2, &[(0, To::All)]),
    Step::Does(Act::Send(2, To::Node(1))),
    Step::Flow(4),
    Step::Up(0, &[]),
    Step::Up(1, &[(0, To::All), (2, To::Node(1))]),
];

// Link 1 is that of node 1 in LAN A, link 4 that in LAN B: a copy is on its sender's and its receiver's.
const CUT_LANS: &[Step] = &[
    Step::Does(Act::Cut(1)),
    Step::Does(Act::Send(0, To::All)),
    Step::InFlight(3),
    Step::Does(Act::Repeat(0)),
    Step::Does(Act::Cut(0)),
    Step::InFlight(2),
    Step::Flow(2),
    Step::Up(1, &[(0, To::All)]),
    Step::Up(2, &[(0, To::All)]),
    Step::Does(Act::Mend(0)),
    Step::Does(Act::Send(0, To::Node(1))),
    Step::Does(Act::Cut(4)),
    Step::InFlight(2),
    Step::Flow(2),
    Step::Up(1, &[(0, To::All)]),
    Step::Refuses(Act::Mend(6), PlantFault::NoSuchNode),
];

#[test]
fn two_lans(rt: HostRuntime) {
    expect_steps(&rt, rt.alloc(), Network::TwinLan(3), WHOLE_LANS);
    expect_steps(&rt, rt.alloc(), Network::TwinLan(3), CUT_LANS);
}

// Life checks go to all, and no host hears of them.
const LIFE_CHECKS: &[Step] = &[
    Step::Does(Act::Tick(15, 2000)),
    Step::InFlight(30),
    Step::Flow(30),
    Step::Up(0, &[]),
    Step::Does(Act::Send(15, To::Node(0))),
    Step::Flow(30),
    Step::Up(0, &[(15, To::Node(0))]),
];

#[test]
fn two_lans_of_sixteen(rt: HostRuntime) {
    expect_steps(&rt, rt.alloc(), Network::TwinLan(16), LIFE_CHECKS);
}
