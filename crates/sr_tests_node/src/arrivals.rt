//! Frames that come in from the LANs.

use super::frames::{EVERYONE, IP, OTHER, OWN, PRP, SUPERVISION, Sent};
use super::steps::{Outcome, Step, Taken, expect_steps};
use sr_forwarding::ReadFault;
use sr_frame::Port;
use sr_node::StepFault;
use sr_sequence::Seq;

// The second copy brings nothing, at whichever port; what is handed up has no trailer, and keeps its padding.
const COPIES: &[Step] = &[
    Step::In(Port::A, Sent::InA(0), 0, Outcome::Up),
    Step::In(Port::B, Sent::InB(0), 0, Outcome::Nowhere),
    Step::Waiting(Port::H, 1),
    Step::Take(Port::H, Taken::Plain(Sent::InA(0), 0, 0, false)),
    Step::Take(Port::H, Taken::Nothing),
];

#[test]
fn copies_go_up_once(rt: HostRuntime) {
    expect_steps(&rt, COPIES);
}

// 53 is not the size 52: a frame of a node without redundancy, whole and each time.
const NO_NUMBER: &[Step] = &[
    Step::In(Port::A, Sent::NoNumber(OWN, IP), 0, Outcome::Up),
    Step::Take(Port::H, Taken::Whole(Sent::NoNumber(OWN, IP))),
    Step::In(Port::B, Sent::NoNumber(OWN, IP), 0, Outcome::Up),
    Step::Take(Port::H, Taken::Whole(Sent::NoNumber(OWN, IP))),
    Step::In(Port::A, Sent::NoNumber(OWN, IP), 0, Outcome::Up),
    Step::Take(Port::H, Taken::Whole(Sent::NoNumber(OWN, IP))),
];

#[test]
fn frames_without_number_go_up_each_time(rt: HostRuntime) {
    expect_steps(&rt, NO_NUMBER);
}

const LATE: &[Step] = &[
    Step::In(Port::A, Sent::InA(3), 0, Outcome::Up),
    Step::In(Port::A, Sent::InA(2), 0, Outcome::Up),
    Step::In(Port::A, Sent::InA(1), 0, Outcome::Up),
    Step::In(Port::B, Sent::InB(1), 0, Outcome::Nowhere),
    Step::In(Port::B, Sent::InB(2), 0, Outcome::Nowhere),
    Step::In(Port::B, Sent::InB(3), 0, Outcome::Nowhere),
    Step::Take(Port::H, Taken::Plain(Sent::InA(3), 3, 0, false)),
    Step::Take(Port::H, Taken::Plain(Sent::InA(2), 2, 0, false)),
    Step::Take(Port::H, Taken::Plain(Sent::InA(1), 1, 0, false)),
    Step::Waiting(Port::H, 0),
];

#[test]
fn late_first_copies_go_up(rt: HostRuntime) {
    expect_steps(&rt, LATE);
}

const FULL_OUTBOX: &[Step] = &[
    Step::Fill(256, 5),
    Step::In(
        Port::A,
        Sent::InA(256),
        9,
        Outcome::Refused(StepFault::OutboxFull(Port::H)),
    ),
    Step::Waiting(Port::H, 256),
    Step::Time(5),
    Step::Take(Port::H, Taken::Plain(Sent::InA(0), 0, 0, false)),
    Step::In(Port::A, Sent::InA(256), 9, Outcome::Up),
    Step::Waiting(Port::H, 256),
    Step::Time(9),
];

#[test]
fn a_full_outbox_refuses(rt: HostRuntime) {
    expect_steps(&rt, FULL_OUTBOX);
}

// Which frames are for the host, at a port of a LAN.
const ROUTES: &[Step] = &[
    Step::In(Port::A, Sent::NoNumber(OWN, IP), 0, Outcome::Up),
    Step::Take(Port::H, Taken::Something),
    Step::In(Port::C, Sent::NoNumber(OWN, IP), 0, Outcome::Nowhere),
    Step::In(Port::A, Sent::NoNumber(EVERYONE, IP), 0, Outcome::Up),
    Step::Take(Port::H, Taken::Something),
    Step::In(Port::C, Sent::NoNumber(EVERYONE, IP), 0, Outcome::Nowhere),
    Step::In(Port::A, Sent::NoNumber(OTHER, IP), 0, Outcome::Nowhere),
    Step::Take(Port::H, Taken::Nothing),
    Step::In(Port::C, Sent::NoNumber(OTHER, IP), 0, Outcome::Nowhere),
    Step::In(
        Port::A,
        Sent::NoNumber(SUPERVISION, PRP),
        0,
        Outcome::Nowhere,
    ),
    Step::Take(Port::H, Taken::Nothing),
    Step::In(
        Port::C,
        Sent::NoNumber(SUPERVISION, PRP),
        0,
        Outcome::Nowhere,
    ),
    Step::In(Port::A, Sent::NoNumber(SUPERVISION, IP), 0, Outcome::Up),
    Step::Take(Port::H, Taken::Something),
    Step::In(
        Port::C,
        Sent::NoNumber(SUPERVISION, IP),
        0,
        Outcome::Nowhere,
    ),
    Step::In(Port::A, Sent::NoNumber(OWN, PRP), 0, Outcome::Up),
    Step::Take(Port::H, Taken::Something),
    Step::In(Port::C, Sent::NoNumber(OWN, PRP), 0, Outcome::Nowhere),
];

#[test]
fn routes_of_a_lan(rt: HostRuntime) {
    expect_steps(&rt, ROUTES);
}

// The node's own frames and the other LAN's trailer. A time that goes back counts as the latest one.
const WRONG_LAN: &[Step] = &[
    Step::In(Port::A, Sent::Own, 3, Outcome::Own),
    Step::Time(3),
    Step::In(Port::A, Sent::InB(7), 2, Outcome::Up),
    Step::Take(Port::H, Taken::Plain(Sent::InB(7), 7, 0, true)),
    Step::In(Port::B, Sent::InB(8), 2, Outcome::Up),
    Step::Take(Port::H, Taken::Plain(Sent::InB(8), 8, 1, false)),
    Step::Time(3),
    Step::In(Port::A, Sent::InB(7), 2, Outcome::Nowhere),
    Step::WrongLan(Port::A, 2),
    Step::In(Port::B, Sent::Own, 3, Outcome::Own),
    Step::WrongLan(Port::B, 0),
    Step::WrongLan(Port::H, 0),
    Step::WrongLan(Port::C, 0),
];

#[test]
fn own_source_and_wrong_lan(rt: HostRuntime) {
    expect_steps(&rt, WRONG_LAN);
}

const TOO_SHORT: Outcome = Outcome::Refused(StepFault::Reading(ReadFault::TooShort));

const TOO_LONG: Outcome = Outcome::Refused(StepFault::Reading(ReadFault::TooLong));

// Too few or too many octets are told before all else, and change nothing. 0x81 begins the type of a VLAN tag.
const LENGTHS: &[Step] = &[
    Step::Zeros(Port::A, 13, 0, 4, TOO_SHORT),
    Step::Zeros(Port::H, 13, 0, 4, TOO_SHORT),
    Step::Zeros(Port::B, 1525, 0, 4, TOO_LONG),
    Step::Zeros(Port::C, 1519, 0, 4, TOO_LONG),
    Step::Zeros(Port::H, 1519, 0, 4, TOO_LONG),
    Step::Zeros(Port::H, 1518, 0, 4, Outcome::Refused(StepFault::Untagged)),
    Step::Zeros(Port::A, 17, 0x81, 4, TOO_SHORT),
    Step::Time(0),
    Step::Zeros(Port::A, 1524, 0x81, 4, Outcome::Nowhere),
    Step::Zeros(Port::A, 18, 0x81, 4, Outcome::Nowhere),
    Step::Zeros(Port::C, 1518, 0x81, 4, Outcome::Nowhere),
    Step::Time(4),
];

#[test]
fn octets_that_are_not_read(rt: HostRuntime) {
    expect_steps(&rt, LENGTHS);
}

// For a run in which one allocation fails: the call that meets it is refused, changes nothing, and goes well the
// next time.
const GROWTHS: &[Step] = &[
    Step::In(Port::A, Sent::InA(0), 1, Outcome::Up),
    Step::In(Port::B, Sent::InB(0), 0, Outcome::Nowhere),
    Step::In(Port::A, Sent::InA(1), 2, Outcome::Up),
    Step::In(Port::B, Sent::InB(1), 0, Outcome::Nowhere),
    Step::In(Port::A, Sent::InA(2), 3, Outcome::Up),
    Step::In(Port::B, Sent::InB(2), 0, Outcome::Nowhere),
    Step::In(Port::A, Sent::InA(3), 4, Outcome::Up),
    Step::In(Port::B, Sent::InB(3), 0, Outcome::Nowhere),
    Step::In(Port::A, Sent::InA(4), 5, Outcome::Up),
    Step::In(Port::B, Sent::InB(4), 0, Outcome::Nowhere),
    Step::In(Port::A, Sent::InA(5), 6, Outcome::Up),
    Step::In(Port::B, Sent::InB(5), 0, Outcome::Nowhere),
    Step::Take(Port::H, Taken::Plain(Sent::InA(0), 0, 0, false)),
    Step::Take(Port::H, Taken::Plain(Sent::InA(1), 1, 0, false)),
    Step::Take(Port::H, Taken::Plain(Sent::InA(2), 2, 0, false)),
    Step::Take(Port::H, Taken::Plain(Sent::InA(3), 3, 0, false)),
    Step::Take(Port::H, Taken::Plain(Sent::InA(4), 4, 0, false)),
    Step::Take(Port::H, Taken::Plain(Sent::InA(5), 5, 0, false)),
    Step::Waiting(Port::H, 0),
];

#[test]
fn refused_growths_change_nothing(rt: HostRuntime) {
    expect_steps(&rt, GROWTHS);
}

// A source is forgotten 400 ms after its last arrival, and a time that goes back counts as the latest one.
const STAYS: &[Step] = &[
    Step::In(Port::A, Sent::InA(5), 1000, Outcome::Up),
    Step::In(Port::B, Sent::InB(5), 1399, Outcome::Nowhere),
    Step::In(Port::B, Sent::InB(5), 1798, Outcome::Nowhere),
];

const BEGINS_ANEW: &[Step] = &[
    Step::In(Port::A, Sent::InA(5), 1000, Outcome::Up),
    Step::In(Port::B, Sent::InB(5), 1400, Outcome::Up),
    Step::In(Port::A, Sent::InA(5), 1400, Outcome::Nowhere),
];

const TIME_GOES_BACK: &[Step] = &[
    Step::In(Port::A, Sent::InA(5), 1000, Outcome::Up),
    Step::In(Port::B, Sent::InB(5), 900, Outcome::Nowhere),
    Step::In(Port::B, Sent::InB(5), 1350, Outcome::Nowhere),
];

#[test]
fn epochs(rt: HostRuntime) {
    expect_steps(&rt, STAYS);
    expect_steps(&rt, BEGINS_ANEW);
    expect_steps(&rt, TIME_GOES_BACK);
}

// With 1024 sources live, a frame of another is refused, and changes nothing. Once they are forgotten they make room.
// Of all those sources the table has the last one alone in the end.
const FULL_TABLE: &[Step] = &[
    Step::Sources(1024),
    Step::In(
        Port::A,
        Sent::OfSource(1024),
        399,
        Outcome::Refused(StepFault::TableFull),
    ),
    Step::Time(0),
    Step::Waiting(Port::H, 0),
    Step::In(Port::B, Sent::OfSource(7), 0, Outcome::Nowhere),
    Step::In(Port::A, Sent::OfSourceNoNumber(1024), 399, Outcome::Up),
    Step::In(Port::A, Sent::OfSource(1024), 400, Outcome::Up),
    Step::Tick(800, Outcome::Ticked(1, Some(Seq(64511)))),
];

#[test]
fn a_full_table_refuses(rt: HostRuntime) {
    expect_steps(&rt, FULL_TABLE);
}
