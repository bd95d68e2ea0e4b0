//! Nodes that take over what others have noted.

use super::frames::{EVERYONE, OTHER, Sent};
use super::steps::{
    Outcome, Step, Told, expect_ring_steps, expect_ring_steps_in_mode_x, expect_steps,
};
use sr_frame::Port;
use sr_node::MergeFault;
use sr_node_table::GREATEST_AGE;

// What the other node handed up goes up no more; what it did not hear does. The later time counts for both. Of what nodes
// it heard, nothing is taken over.
const TAKEN_OVER: &[Step] = &[
    Step::In(Port::A, Sent::InA(4), 100, Outcome::Up),
    Step::Absorb(Sent::InA(5), 200, None),
    Step::Time(200),
    Step::Status(OTHER, Some(Told(100, GREATEST_AGE, 4, 0, None))),
    Step::In(Port::A, Sent::InA(5), 200, Outcome::Nowhere),
    Step::In(Port::B, Sent::InB(5), 200, Outcome::Nowhere),
    Step::In(Port::B, Sent::InB(4), 200, Outcome::Nowhere),
    Step::In(Port::B, Sent::InB(6), 200, Outcome::Up),
    Step::Absorb(Sent::InA(6), 100, None),
    Step::Time(200),
    Step::Waiting(Port::H, 2),
];

#[test]
fn a_standby_hands_up_what_is_left(rt: HostRuntime) {
    expect_steps(&rt, TAKEN_OVER);
}

// A node that has noted nothing takes over.
const NOTHING_NOTED: &[Step] = &[
    Step::Absorb(Sent::InA(5), 200, None),
    Step::Time(200),
    Step::In(Port::B, Sent::InB(5), 200, Outcome::Nowhere),
    Step::In(Port::B, Sent::InB(6), 200, Outcome::Up),
    Step::Absorb(Sent::InA(5), 200, None),
    Step::In(Port::A, Sent::InA(6), 200, Outcome::Nowhere),
    Step::Waiting(Port::H, 1),
];

#[test]
fn a_new_node_takes_over(rt: HostRuntime) {
    expect_steps(&rt, NOTHING_NOTED);
}

// A node in mode X sends no copy back where the other node had the frame, though that one was in mode H; one in mode H
// does.
const HEARD_AT_A: Step = Step::Absorb(Sent::Tagged(EVERYONE, OTHER, 0, 7), 0, None);

const COPY_AT_B: Sent = Sent::Tagged(EVERYONE, OTHER, 1, 7);

#[test]
fn a_standby_keeps_its_mode(rt: HostRuntime) {
    expect_ring_steps_in_mode_x(
        &rt,
        &[
            HEARD_AT_A,
            Step::In(Port::B, COPY_AT_B, 0, Outcome::Nowhere),
        ],
    );
    expect_ring_steps(
        &rt,
        &[
            HEARD_AT_A,
            Step::In(Port::B, COPY_AT_B, 0, Outcome::To(Port::A)),
        ],
    );
}

// Of numbers that are half of all apart, neither is ahead: the node stays as it is.
const APART: &[Step] = &[
    Step::In(Port::A, Sent::InA(0), 100, Outcome::Up),
    Step::Absorb(Sent::InA(32768), 200, Some(MergeFault::Apart(OTHER))),
    Step::Time(100),
    Step::In(Port::B, Sent::InB(0), 100, Outcome::Nowhere),
    Step::Absorb(Sent::InA(32768), 499, Some(MergeFault::Apart(OTHER))),
    Step::Absorb(Sent::InA(32768), 500, None),
    Step::In(Port::B, Sent::InB(32768), 500, Outcome::Nowhere),
    Step::In(Port::B, Sent::InB(0), 500, Outcome::Up),
];

#[test]
fn numbers_half_of_all_apart_are_not_taken_over(rt: HostRuntime) {
    expect_steps(&rt, APART);
}

// What the other node had by both LANs does not come up again by either.
const HAD_BY_BOTH: &[Step] = &[
    Step::AbsorbBoth(Sent::InA(0), Sent::InB(0), 0),
    Step::In(Port::A, Sent::InA(0), 0, Outcome::Nowhere),
    Step::In(Port::B, Sent::InB(0), 0, Outcome::Nowhere),
    Step::Waiting(Port::H, 0),
    Step::In(Port::A, Sent::InA(1), 0, Outcome::Up),
];

#[test]
fn what_the_other_node_had_by_both_lans_goes_up_no_more(rt: HostRuntime) {
    expect_steps(&rt, HAD_BY_BOTH);
}

// Of many sources each record is copied; for a run in which one allocation fails.
const MANY: &[Step] = &[
    Step::Sources(20),
    Step::Absorb(Sent::OfSource(20), 399, None),
    Step::Time(399),
    Step::In(Port::B, Sent::OfSource(0), 399, Outcome::Nowhere),
    Step::In(Port::B, Sent::OfSource(19), 399, Outcome::Nowhere),
    Step::In(Port::B, Sent::OfSource(20), 399, Outcome::Nowhere),
    Step::In(Port::B, Sent::OfSource(21), 399, Outcome::Up),
];

#[test]
fn refused_growths_take_nothing_over(rt: HostRuntime) {
    expect_steps(&rt, MANY);
}
