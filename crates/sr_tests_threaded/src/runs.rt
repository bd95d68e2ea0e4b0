//! Rings and LANs of threads: what a node sends is handed up by the others, once each, and all settles.

use super::networks::Step::{self, All, Each, Refused};
use super::networks::expect_steps;
use sr_threaded_script::ThreadedNet::{Ring, TwinLan};

// Three nodes, of which the first sends a frame to all, as often as it takes until both others hand it up in one run.
const THREE: &[Step] = &[All(Ring, 3, 10_000, 100), All(TwinLan, 3, 10_000, 100)];

// The fewest and the most nodes: 64 threads.
const FEWEST_AND_MOST: &[Step] = &[
    Each(Ring, 2, 1_000),
    Each(Ring, 16, 100),
    Each(Ring, 3, 0),
    Each(TwinLan, 2, 1_000),
    Each(TwinLan, 16, 100),
    Each(TwinLan, 3, 0),
];

// No network has so few nodes, or so many.
const SIZES: &[Step] = &[
    Refused(Ring, 0),
    Refused(Ring, 1),
    Refused(Ring, 17),
    Refused(TwinLan, 0),
    Refused(TwinLan, 1),
    Refused(TwinLan, 17),
];

#[test]
fn three_nodes_hand_up_what_one_sends(rt: HostRuntime) {
    expect_steps(&rt, THREE);
}

#[test]
fn networks_of_two_and_of_sixteen_settle(rt: HostRuntime) {
    expect_steps(&rt, FEWEST_AND_MOST);
}

#[test]
fn a_network_has_two_to_sixteen_nodes(rt: HostRuntime) {
    expect_steps(&rt, SIZES);
}
