//! What is entered, in journals and in segments.

use super::steps::Step::{
    Enter, Exchange, Fill, Forget, Holds, Rotate, Settles, SettlesAll, Ticks,
};
use super::steps::{Act, Outcome, Step, expect_steps};
use sr_frame::Port;
use sr_node::StepFault;
use sr_ports::{EnterFault, Settlement, Worker};
use sr_prp_trailer::Lan;

// What the node refuses is refused, and is no entry. The frame is taken once there is room for it.
const A_FULL_OUTBOX: &[Step] = &[
    Fill(256),
    Enter(
        Worker::A,
        Act::In(Lan::A, 256),
        Outcome::Refused(EnterFault::Step(StepFault::OutboxFull(Port::H))),
    ),
    Holds(256, 0),
    Enter(Worker::Host, Act::Take(Port::H), Outcome::TookFrame(0)),
    Enter(Worker::A, Act::In(Lan::A, 256), Outcome::Up),
    Holds(258, 0),
    Settles(Settlement::Settled),
    Rotate,
    Holds(0, 258),
    SettlesAll(Settlement::Settled),
    Forget(Worker::A, 256),
    SettlesAll(Settlement::Disagrees(Worker::A)),
];

// A frame from LAN B and then one from LAN A: each worker empties its outbox behind what it brings.
const TWO_FRAMES: &[Step] = &[
    Enter(Worker::B, Act::In(Lan::B, 5), Outcome::Up),
    Enter(Worker::B, Act::Take(Port::B), Outcome::Nothing),
    Enter(Worker::Host, Act::Take(Port::H), Outcome::TookFrame(5)),
    Enter(Worker::Host, Act::Take(Port::H), Outcome::Nothing),
    Enter(Worker::A, Act::In(Lan::A, 6), Outcome::Up),
    Enter(Worker::A, Act::Take(Port::A), Outcome::Nothing),
    Enter(Worker::Host, Act::Take(Port::H), Outcome::TookFrame(6)),
    Enter(Worker::Host, Act::Take(Port::H), Outcome::Nothing),
    Holds(8, 0),
    Settles(Settlement::Settled),
    Forget(Worker::A, 0),
    Settles(Settlement::Disagrees(Worker::A)),
];

// A journal of each event. With the first and the last exchanged, the second does not follow what stands before it.
const A_SEGMENT_EACH: &[Step] = &[
    Enter(Worker::B, Act::In(Lan::B, 5), Outcome::Up),
    Rotate,
    Enter(Worker::B, Act::Take(Port::B), Outcome::Nothing),
    Rotate,
    Enter(Worker::Host, Act::Take(Port::H), Outcome::TookFrame(5)),
    Rotate,
    Enter(Worker::Host, Act::Take(Port::H), Outcome::Nothing),
    Rotate,
    Enter(Worker::A, Act::In(Lan::A, 6), Outcome::Up),
    Rotate,
    Enter(Worker::A, Act::Take(Port::A), Outcome::Nothing),
    Rotate,
    Enter(Worker::Host, Act::Take(Port::H), Outcome::TookFrame(6)),
    Rotate,
    Enter(Worker::Host, Act::Take(Port::H), Outcome::Nothing),
    Rotate,
    Holds(0, 8),
    SettlesAll(Settlement::Settled),
    Exchange,
    SettlesAll(Settlement::Torn(1)),
];

// Each of the five workers enters an event. The first is named, in the order A, B, C, Ager, Host, whose log lacks it.
const EACH_WORKER: &[Step] = &[
    Enter(Worker::Ager, Act::Tick(0), Outcome::Lived(64511)),
    Rotate,
    Enter(Worker::A, Act::Take(Port::A), Outcome::TookLife(64511)),
    Enter(Worker::B, Act::Take(Port::B), Outcome::TookLife(64511)),
    Rotate,
    Enter(Worker::C, Act::Take(Port::C), Outcome::Nothing),
    Enter(Worker::Host, Act::Take(Port::H), Outcome::Nothing),
    Rotate,
    SettlesAll(Settlement::Settled),
    Forget(Worker::Host, 0),
    SettlesAll(Settlement::Disagrees(Worker::Host)),
    Forget(Worker::Ager, 0),
    SettlesAll(Settlement::Disagrees(Worker::Ager)),
    Forget(Worker::C, 0),
    SettlesAll(Settlement::Disagrees(Worker::C)),
    Forget(Worker::B, 0),
    SettlesAll(Settlement::Disagrees(Worker::B)),
    Forget(Worker::A, 0),
    SettlesAll(Settlement::Disagrees(Worker::A)),
];

// A journal has 1,000,000 entries at most. Ticks of one time send one life check in all.
const A_MILLION: &[Step] = &[
    Enter(Worker::Ager, Act::Tick(0), Outcome::Lived(64511)),
    Ticks(999_998),
    Holds(999_999, 0),
    Enter(Worker::Ager, Act::Tick(0), Outcome::Ticked),
    Enter(
        Worker::Ager,
        Act::Tick(0),
        Outcome::Refused(EnterFault::JournalFull),
    ),
    Holds(1_000_000, 0),
    Rotate,
    Enter(Worker::Ager, Act::Tick(0), Outcome::Ticked),
    Holds(1, 1_000_000),
    Enter(Worker::A, Act::Take(Port::A), Outcome::TookLife(64511)),
    Enter(Worker::A, Act::Take(Port::A), Outcome::Nothing),
];

#[test]
fn what_the_node_refuses_is_no_entry(rt: HostRuntime) {
    expect_steps(&rt, A_FULL_OUTBOX);
}

#[test]
fn an_arrival_that_a_log_lacks_is_seen(rt: HostRuntime) {
    expect_steps(&rt, TWO_FRAMES);
}

#[test]
fn segments_of_one_event_settle_until_they_are_exchanged(rt: HostRuntime) {
    expect_steps(&rt, A_SEGMENT_EACH);
}

#[test]
fn the_first_worker_whose_log_lacks_an_event_is_named(rt: HostRuntime) {
    expect_steps(&rt, EACH_WORKER);
}

#[test]
fn a_journal_is_full_at_a_million(rt: HostRuntime) {
    expect_steps(&rt, A_MILLION);
}
