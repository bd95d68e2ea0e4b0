//! Time that passes.

use super::frames::Sent;
use super::steps::{Outcome, Step, Taken, expect_steps};
use sr_frame::Port;
use sr_node::StepFault;
use sr_sequence::Seq;

// A life check goes out 2000 ms after the one before, under the next number of either counter.
const LIFE: &[Step] = &[
    Step::Tick(0, Outcome::Ticked(0, Some(Seq(64511)))),
    Step::Take(Port::A, Taken::Life(64511, 32255)),
    Step::Take(Port::B, Taken::Life(64511, 32255)),
    Step::Tick(1999, Outcome::Ticked(0, None)),
    Step::Take(Port::A, Taken::Nothing),
    Step::Take(Port::B, Taken::Nothing),
    Step::Tick(2000, Outcome::Ticked(0, Some(Seq(64512)))),
    Step::Take(Port::A, Taken::Life(64512, 32256)),
    Step::Take(Port::B, Taken::Life(64512, 32256)),
    Step::Tick(1000, Outcome::Ticked(0, None)),
    Step::Take(Port::A, Taken::Nothing),
    Step::Take(Port::B, Taken::Nothing),
    Step::Tick(3999, Outcome::Ticked(0, None)),
    Step::Take(Port::A, Taken::Nothing),
    Step::Take(Port::B, Taken::Nothing),
    Step::Tick(4000, Outcome::Ticked(0, Some(Seq(64513)))),
    Step::Take(Port::A, Taken::Life(64513, 32257)),
    Step::Take(Port::B, Taken::Life(64513, 32257)),
];

#[test]
fn life_checks_go_out_every_two_seconds(rt: HostRuntime) {
    expect_steps(&rt, LIFE);
}

// A life check goes out whichever port has more that waits.
const UNEVEN_OUTBOXES: &[Step] = &[
    Step::Tick(0, Outcome::Ticked(0, Some(Seq(64511)))),
    Step::Take(Port::B, Taken::Life(64511, 32255)),
    Step::Tick(2000, Outcome::Ticked(0, Some(Seq(64512)))),
    Step::Take(Port::A, Taken::Life(64511, 32255)),
    Step::Take(Port::A, Taken::Life(64512, 32256)),
    Step::Tick(4000, Outcome::Ticked(0, Some(Seq(64513)))),
    Step::Take(Port::B, Taken::Life(64512, 32256)),
    Step::Take(Port::B, Taken::Life(64513, 32257)),
    Step::Take(Port::A, Taken::Life(64513, 32257)),
];

#[test]
fn life_checks_go_out_at_uneven_outboxes(rt: HostRuntime) {
    expect_steps(&rt, UNEVEN_OUTBOXES);
}

// 256 life checks wait at either port: a tick at which one more is due is refused, first for A, then for B.
const FULL_OUTBOXES: &[Step] = &[
    Step::LifeChecks(256),
    Step::Tick(511_999, Outcome::Ticked(0, None)),
    Step::Tick(512_000, Outcome::Refused(StepFault::OutboxFull(Port::A))),
    Step::Time(511_999),
    Step::Waiting(Port::B, 256),
    Step::Take(Port::A, Taken::Life(64511, 32255)),
    Step::Tick(512_000, Outcome::Refused(StepFault::OutboxFull(Port::B))),
    Step::Time(511_999),
    Step::Waiting(Port::B, 256),
    Step::Take(Port::B, Taken::Life(64511, 32255)),
    Step::Tick(512_000, Outcome::Ticked(0, Some(Seq(64767)))),
    Step::Waiting(Port::A, 256),
    Step::Waiting(Port::B, 256),
];

#[test]
fn full_outboxes_refuse_a_tick(rt: HostRuntime) {
    expect_steps(&rt, FULL_OUTBOXES);
}

// A source that was silent for 400 ms goes at a tick, and is heard anew.
const SILENCE: &[Step] = &[
    Step::In(Port::A, Sent::InA(5), 0, Outcome::Up),
    Step::Tick(399, Outcome::Ticked(0, Some(Seq(64511)))),
    Step::In(Port::B, Sent::InB(5), 399, Outcome::Nowhere),
    Step::Tick(798, Outcome::Ticked(0, None)),
    Step::Tick(799, Outcome::Ticked(1, None)),
    Step::In(Port::B, Sent::InB(5), 799, Outcome::Up),
];

#[test]
fn ticks_forget_silent_sources(rt: HostRuntime) {
    expect_steps(&rt, SILENCE);
}
