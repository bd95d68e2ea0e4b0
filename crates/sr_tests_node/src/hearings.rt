//! What a node hears of others.

use super::frames::{OTHER, OWN, Sent, THIRD};
use super::steps::{Outcome, Step, Told, expect_ring_steps, expect_steps};
use sr_frame::{Mac, Port};
use sr_node_table::{Alarm, GREATEST_AGE};
use sr_sequence::Seq;

// LAN A falls silent: its age grows, an alarm is raised once it is more than 3000 ms behind, and another where the node
// was silent for 60000 ms.
const SILENT_LAN: &[Step] = &[
    Step::Status(OTHER, None),
    Step::In(Port::A, Sent::InA(5), 0, Outcome::Up),
    Step::Status(OTHER, Some(Told(0, GREATEST_AGE, 5, 0, None))),
    Step::In(Port::B, Sent::InB(5), 0, Outcome::Nowhere),
    Step::In(Port::B, Sent::InB(6), 3000, Outcome::Up),
    Step::Tick(3000, Outcome::Ticked(0, Some(Seq(64511)))),
    Step::Alarms(&[]),
    Step::In(Port::B, Sent::InB(7), 3001, Outcome::Up),
    Step::Tick(3001, Outcome::Ticked(0, None)),
    Step::Knows(&[OTHER]),
    Step::Status(OTHER, Some(Told(3001, 0, 5, 7, None))),
    Step::Alarms(&[Alarm::RingError {
        mac: OTHER,
        port: Port::A,
        at: 3001,
    }]),
    Step::Tick(63_001, Outcome::Forgot(1)),
    Step::Knows(&[]),
    Step::Alarms(&[
        Alarm::RingError {
            mac: OTHER,
            port: Port::A,
            at: 3001,
        },
        Alarm::NodeDown {
            mac: OTHER,
            at: 63_001,
        },
    ]),
];

#[test]
fn a_silent_lan_raises_alarms(rt: HostRuntime) {
    expect_steps(&rt, SILENT_LAN);
}

// The source of a supervision frame is heard under its number, and what the frame says is taken up; nobody tells the
// node of itself, and its own frames say nothing.
const ANNOUNCED: &[Step] = &[
    Step::In(
        Port::A,
        Sent::Announcing(THIRD, 0x34),
        0,
        Outcome::To(Port::B),
    ),
    Step::Knows(&[OTHER, THIRD]),
    Step::Status(OTHER, Some(Told(0, GREATEST_AGE, 64511, 0, None))),
    Step::Status(THIRD, Some(Told(0, GREATEST_AGE, 0, 0, Some(OTHER)))),
    Step::In(
        Port::B,
        Sent::Announcing(OWN, 0x34),
        7,
        Outcome::To(Port::A),
    ),
    Step::Knows(&[OTHER, THIRD]),
    Step::Status(OTHER, Some(Told(7, 0, 64511, 64511, None))),
    Step::Status(OWN, None),
    Step::In(Port::B, Sent::Tagged(OTHER, OWN, 0, 9), 8, Outcome::Own),
    Step::Status(OWN, None),
    Step::Alarms(&[]),
];

#[test]
fn supervision_tells_of_nodes(rt: HostRuntime) {
    expect_ring_steps(&rt, ANNOUNCED);
}

// Of 1024 live nodes none makes room: the next one goes up unheard, and is heard once they are forgotten.
const MANY: &[Step] = &[
    Step::Sources(1024),
    Step::In(Port::A, Sent::OfSource(1024), 400, Outcome::Up),
    Step::Status(Mac([6, 0, 0, 0, 4, 0]), None),
    Step::In(Port::A, Sent::OfSource(1024), 60_000, Outcome::Up),
    Step::Knows(&[Mac([6, 0, 0, 0, 4, 0])]),
    Step::Status(
        Mac([6, 0, 0, 0, 4, 0]),
        Some(Told(0, GREATEST_AGE, 5, 0, None)),
    ),
];

#[test]
fn a_full_table_hears_no_new_node(rt: HostRuntime) {
    expect_steps(&rt, MANY);
}
