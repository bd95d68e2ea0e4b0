//! Three workers at a node: what comes of them whatever the order in which they enter, and where their feeds stop.

use super::hand::Halt::{Ends, Fails, Refuses};
use super::runs::expect_steps;
use super::steps::Outcome::{Holds, Stops, Whole};
use super::steps::Step::{
    self, Flood, Free, FreeInBoxes, Gate, GateInBoxes, Halts, Turns, WriteGate, WriteGateInBoxes,
};
use sr_ports::Worker::{A, B, Host};

// The framing of one port waits as it reads until the host was given the other's frame. So the other worker ran meanwhile, and
// the lock was free.
const ONE_WAITS: &[Step] = &[Gate(A, B), Gate(B, A), GateInBoxes(A, B), GateInBoxes(B, A)];

// The framing of one port waits as it writes until two frames were given elsewhere, of which the other worker reads one only then.
// So that worker ran meanwhile, and the lock was free.
const ONE_WRITES: &[Step] = &[
    WriteGate(A, B),
    WriteGate(B, A),
    WriteGate(Host, A),
    WriteGate(Host, B),
    WriteGateInBoxes(A, B),
    WriteGateInBoxes(Host, A),
];

// Nobody waits.
const NOBODY_WAITS: &[Step] = &[Free, FreeInBoxes];

// Both ports bring more nodes than a node remembers.
const FLOODS: &[Step] = &[Flood(3000, 40)];

// Each for so many turns, past the end of all feeds.
const SO_MANY_TURNS: &[Step] = &[Turns(0), Turns(1), Turns(2), Turns(3), Turns(4)];

// A feed ends at each of its calls. What it would have handed out is waited for nowhere.
const A_FEED_ENDS: &[Step] = &[
    Halts(A, Ends(1), [0, 1, 1], Whole),
    Halts(A, Ends(2), [0, 1, 2], Whole),
    Halts(A, Ends(3), [0, 1, 2], Whole),
    Halts(B, Ends(1), [1, 0, 1], Whole),
    Halts(B, Ends(2), [1, 0, 2], Whole),
    Halts(B, Ends(3), [1, 0, 2], Whole),
    Halts(Host, Ends(1), [0, 0, 0], Whole),
    Halts(Host, Ends(2), [1, 1, 0], Whole),
    Halts(Host, Ends(3), [1, 1, 0], Whole),
];

// A feed fails as it is asked, at each of its calls. Its log then has the takes of the turns before.
const A_FEED_FAILS: &[Step] = &[
    Halts(A, Fails(1), [0, 1, 1], Stops(A, 0)),
    Halts(A, Fails(2), [0, 1, 2], Stops(A, 1)),
    Halts(A, Fails(3), [0, 1, 2], Stops(A, 2)),
    Halts(B, Fails(1), [1, 0, 1], Stops(B, 0)),
    Halts(B, Fails(2), [1, 0, 2], Stops(B, 1)),
    Halts(B, Fails(3), [1, 0, 2], Stops(B, 2)),
    Halts(Host, Fails(1), [0, 0, 0], Stops(Host, 0)),
    Halts(Host, Fails(2), [1, 1, 0], Stops(Host, 1)),
    Halts(Host, Fails(3), [1, 1, 0], Stops(Host, 2)),
];

// A feed fails as it is given a frame, at each of its calls. The parcel is held.
const A_FEED_REFUSES: &[Step] = &[
    Halts(A, Refuses(1), [1, 1, 2], Holds(A)),
    Halts(B, Refuses(1), [1, 1, 2], Holds(B)),
    Halts(Host, Refuses(1), [1, 1, 2], Holds(Host)),
    Halts(Host, Refuses(2), [1, 1, 2], Holds(Host)),
];

#[test]
fn one_worker_goes_on_while_another_reads(rt: HostRuntime) {
    expect_steps(&rt, ONE_WAITS);
}

#[test]
fn one_worker_goes_on_while_another_writes(rt: HostRuntime) {
    expect_steps(&rt, ONE_WRITES);
}

#[test]
fn what_was_taken_is_given_or_held_whatever_allocation_fails(rt: HostRuntime) {
    expect_steps(&rt, NOBODY_WAITS);
}

#[test]
fn what_the_host_sends_goes_out_while_frames_of_new_nodes_flood_in(rt: HostRuntime) {
    expect_steps(&rt, FLOODS);
}

#[test]
fn logs_settle_after_any_number_of_turns(rt: HostRuntime) {
    expect_steps(&rt, SO_MANY_TURNS);
}

#[test]
fn logs_settle_where_a_feed_ends(rt: HostRuntime) {
    expect_steps(&rt, A_FEED_ENDS);
}

#[test]
fn logs_settle_where_a_feed_fails(rt: HostRuntime) {
    expect_steps(&rt, A_FEED_FAILS);
}

#[test]
fn what_a_feed_refuses_is_held(rt: HostRuntime) {
    expect_steps(&rt, A_FEED_REFUSES);
}
