//! Nodes of a ring, frames of the host, and a role that is exchanged.

use super::frames::{EVERYONE, IP, OTHER, OWN, Sent, THIRD, VLAN};
use super::steps::{Outcome, Step, Taken, expect_ring_steps, expect_steps};
use sr_forwarding::{ReadFault, RoleKind};
use sr_frame::Port;
use sr_node::StepFault;
use sr_node_table::Alarm;
use sr_sequence::Seq;

// The host's frame goes both ways round under the next number, with the path of each port. Another's group frame goes up
// and on with its octets, its copy from the other side goes nowhere but back against its way; one for another node goes on.
const RING: &[Step] = &[
    Step::Send(EVERYONE, OWN, 60, 0, Outcome::Sent(64511)),
    Step::Take(Port::H, Taken::Nothing),
    Step::Take(Port::A, Taken::As(Sent::Tagged(EVERYONE, OWN, 0, 64511))),
    Step::Take(Port::B, Taken::As(Sent::Tagged(EVERYONE, OWN, 1, 64511))),
    Step::In(
        Port::A,
        Sent::Tagged(EVERYONE, OWN, 1, 64511),
        0,
        Outcome::Own,
    ),
    Step::In(
        Port::A,
        Sent::Tagged(EVERYONE, OTHER, 0, 7),
        0,
        Outcome::UpAndB,
    ),
    Step::In(
        Port::B,
        Sent::Tagged(EVERYONE, OTHER, 1, 7),
        0,
        Outcome::To(Port::A),
    ),
    Step::In(
        Port::A,
        Sent::Tagged(EVERYONE, OTHER, 0, 7),
        0,
        Outcome::Nowhere,
    ),
    Step::Take(Port::B, Taken::As(Sent::Tagged(EVERYONE, OTHER, 0, 7))),
    Step::Take(Port::A, Taken::As(Sent::Tagged(EVERYONE, OTHER, 1, 7))),
    Step::Waiting(Port::H, 1),
    Step::Take(
        Port::H,
        Taken::Untagged(Sent::Tagged(EVERYONE, OTHER, 0, 7)),
    ),
    Step::In(Port::A, Sent::Tagged(OWN, OTHER, 0, 8), 0, Outcome::Up),
    Step::In(Port::B, Sent::Tagged(OWN, OTHER, 1, 8), 0, Outcome::Nowhere),
    Step::In(
        Port::A,
        Sent::Tagged(THIRD, OTHER, 0, 9),
        0,
        Outcome::To(Port::B),
    ),
    Step::In(Port::A, Sent::Supervision(10), 0, Outcome::To(Port::B)),
    Step::In(
        Port::A,
        Sent::InA(0),
        0,
        Outcome::Refused(StepFault::Untagged),
    ),
];

#[test]
fn frames_go_round_a_ring(rt: HostRuntime) {
    expect_ring_steps(&rt, RING);
}

// Supervision goes on and not up, with its octets, whatever size its tag names.
const SUPERVISED: &[Step] = &[
    Step::In(
        Port::A,
        Sent::Announcing(THIRD, 0x34),
        0,
        Outcome::To(Port::B),
    ),
    Step::Take(Port::B, Taken::As(Sent::Announcing(THIRD, 0x34))),
    Step::Take(Port::H, Taken::Nothing),
    Step::In(
        Port::B,
        Sent::Announcing(THIRD, 0x2e),
        0,
        Outcome::To(Port::A),
    ),
    Step::Take(Port::A, Taken::As(Sent::Announcing(THIRD, 0x2e))),
    Step::In(Port::A, Sent::Announcing(THIRD, 0x34), 0, Outcome::Nowhere),
];

#[test]
fn supervision_goes_round_a_ring(rt: HostRuntime) {
    expect_ring_steps(&rt, SUPERVISED);
}

const TOO_SHORT: Outcome = Outcome::Refused(StepFault::Reading(ReadFault::TooShort));

const TRUNCATED: Outcome = Outcome::Refused(StepFault::Reading(ReadFault::Truncated));

// A tag wants six octets behind its type, and a frame without it; a frame without tag comes from no ring.
const CUT: &[Step] = &[
    Step::Cut(Port::A, Sent::TaggedAround(IP), 13, 5, TOO_SHORT),
    Step::Cut(Port::A, Sent::TaggedAround(IP), 14, 5, TRUNCATED),
    Step::Cut(Port::A, Sent::TaggedAround(IP), 19, 5, TRUNCATED),
    Step::Cut(Port::B, Sent::TaggedAround(VLAN), 20, 5, TOO_SHORT),
    Step::In(
        Port::A,
        Sent::NoNumber(OWN, IP),
        5,
        Outcome::Refused(StepFault::Untagged),
    ),
    Step::Time(0),
    Step::Cut(Port::A, Sent::TaggedAround(IP), 20, 5, Outcome::Up),
    Step::Time(5),
];

#[test]
fn cut_frames_are_not_read(rt: HostRuntime) {
    expect_ring_steps(&rt, CUT);
}

// Decoded first and handed over as an event, a frame comes to the same.
const HANDED: &[Step] = &[
    Step::Handed(
        Port::A,
        Sent::Tagged(EVERYONE, OTHER, 0, 7),
        3,
        Outcome::UpAndB,
    ),
    Step::Handed(
        Port::A,
        Sent::Tagged(EVERYONE, OTHER, 0, 7),
        2,
        Outcome::Nowhere,
    ),
    Step::Handed(
        Port::B,
        Sent::Tagged(EVERYONE, OTHER, 1, 7),
        2,
        Outcome::To(Port::A),
    ),
    Step::Handed(Port::B, Sent::Tagged(EVERYONE, OWN, 1, 9), 4, Outcome::Own),
    Step::Handed(
        Port::H,
        Sent::NoNumber(OWN, IP),
        9,
        Outcome::Refused(StepFault::Untagged),
    ),
    Step::Time(4),
    Step::TakeEvent(Port::H),
    Step::TakeEvent(Port::A),
    Step::TakeEvent(Port::B),
    Step::TakeEvent(Port::C),
    Step::Waiting(Port::H, 0),
];

#[test]
fn frames_handed_over_as_events(rt: HostRuntime) {
    expect_ring_steps(&rt, HANDED);
}

// For a run in which one allocation fails: supervision of a new node that speaks of another new one, a frame with two copies,
// one of the host, a life check, a frame at a port that the role has not, and a life check at which all is forgotten.
const GROWTHS: &[Step] = &[
    Step::In(
        Port::A,
        Sent::Announcing(THIRD, 0x34),
        0,
        Outcome::To(Port::B),
    ),
    Step::Knows(&[OTHER, THIRD]),
    Step::Handed(
        Port::A,
        Sent::Tagged(EVERYONE, OTHER, 0, 7),
        1,
        Outcome::UpAndB,
    ),
    Step::Send(EVERYONE, OWN, 60, 2, Outcome::Sent(64511)),
    Step::Tick(3, Outcome::Ticked(0, Some(Seq(64512)))),
    Step::Send(EVERYONE, OWN, 60, 4, Outcome::Sent(64513)),
    Step::In(
        Port::B,
        Sent::Tagged(EVERYONE, THIRD, 1, 7),
        5,
        Outcome::UpAndA,
    ),
    Step::Take(
        Port::H,
        Taken::Untagged(Sent::Tagged(EVERYONE, OTHER, 0, 7)),
    ),
    Step::Take(Port::A, Taken::As(Sent::Tagged(EVERYONE, OWN, 0, 64511))),
    Step::In(Port::C, Sent::OfSource(3), 6, Outcome::Nowhere),
    Step::Waiting(Port::H, 1),
    Step::Waiting(Port::A, 3),
    Step::Waiting(Port::B, 5),
    Step::Knows(&[OTHER, THIRD]),
    Step::Tick(60_005, Outcome::Forgot(2)),
    Step::Waiting(Port::A, 4),
    Step::Waiting(Port::B, 6),
    Step::Knows(&[]),
    Step::Alarms(&[
        Alarm::RingError {
            mac: OTHER,
            port: Port::B,
            at: 3,
        },
        Alarm::RingError {
            mac: THIRD,
            port: Port::B,
            at: 3,
        },
        Alarm::NodeDown {
            mac: OTHER,
            at: 60_005,
        },
        Alarm::NodeDown {
            mac: THIRD,
            at: 60_005,
        },
    ]),
];

#[test]
fn refused_growths_of_each_event_change_nothing(rt: HostRuntime) {
    expect_ring_steps(&rt, GROWTHS);
}

// A frame of the host has at most 1518 octets, and the node's address as its source; a refused one takes no number.
const SENT: &[Step] = &[
    Step::Send(
        OTHER,
        OWN,
        1519,
        5,
        Outcome::Refused(StepFault::Reading(ReadFault::TooLong)),
    ),
    Step::Send(
        OTHER,
        OTHER,
        60,
        5,
        Outcome::Refused(StepFault::Reading(ReadFault::NotOwn)),
    ),
    Step::Time(0),
    Step::Send(OTHER, OWN, 1518, 5, Outcome::Sent(64511)),
    Step::Send(OTHER, OWN, 14, 5, Outcome::Sent(64512)),
    Step::Time(5),
    Step::Waiting(Port::A, 2),
    Step::Waiting(Port::B, 2),
    Step::Waiting(Port::H, 0),
];

#[test]
fn what_the_host_may_send(rt: HostRuntime) {
    expect_steps(&rt, SENT);
    expect_ring_steps(&rt, SENT);
}

// A node of a PRP network becomes one of a ring, and one of a PRP network again: what was noted before goes nowhere where
// it went.
const EXCHANGED: &[Step] = &[
    Step::In(Port::A, Sent::InA(5), 0, Outcome::Up),
    Step::Become(RoleKind::Danh),
    Step::In(Port::A, Sent::Tagged(OWN, OTHER, 0, 5), 0, Outcome::Nowhere),
    Step::In(Port::A, Sent::Tagged(OWN, OTHER, 0, 6), 0, Outcome::Up),
    Step::Become(RoleKind::Danp),
    Step::In(Port::B, Sent::InB(6), 0, Outcome::Nowhere),
    Step::In(Port::B, Sent::InB(7), 0, Outcome::Up),
    Step::Waiting(Port::H, 3),
];

#[test]
fn an_exchanged_role_keeps_what_was_noted(rt: HostRuntime) {
    expect_steps(&rt, EXCHANGED);
}
