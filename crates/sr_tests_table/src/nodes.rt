//! The nodes that are heard: ages, late ports, alarms and limits.

use super::node_steps::{At, Step, differs};
use super::steps::mac;
use sr_frame::{LearnOutcome, Port};
use sr_node_table::Alarm;

const fn ring_error(node: u16, port: Port, at: u64) -> Option<Alarm> {
    Some(Alarm::RingError {
        mac: mac(node),
        port,
        at,
    })
}

const fn node_down(node: u16, at: u64) -> Option<Alarm> {
    Some(Alarm::NodeDown { mac: mac(node), at })
}

const NEVER: u32 = 2147483647;

// A port falls behind, is reported once, and the node goes down.
#[test]
fn a_port_falls_behind(rt: HostRuntime) {
    let steps = [
        Step::Heard(2, At::A, 5, 0, LearnOutcome::New),
        Step::Heard(2, At::B, 5, 0, LearnOutcome::Known),
        Step::Heard(2, At::B, 6, 3000, LearnOutcome::Known),
        Step::Prune(3000, 0),
        Step::Alarms(0, None, None),
        Step::Heard(2, At::B, 7, 3001, LearnOutcome::Known),
        Step::Prune(3001, 0),
        Step::Tells(2, 3001, Some((3001, 0, 5, 7))),
        Step::Alarms(
            1,
            ring_error(2, Port::A, 3001),
            ring_error(2, Port::A, 3001),
        ),
        Step::Prune(3001, 0),
        Step::Alarms(
            1,
            ring_error(2, Port::A, 3001),
            ring_error(2, Port::A, 3001),
        ),
        Step::Prune(63000, 0),
        Step::Prune(63001, 1),
        Step::Tells(2, 63001, None),
        Step::Alarms(2, ring_error(2, Port::A, 3001), node_down(2, 63001)),
    ];
    assert_eq!(rt; differs(rt.alloc(), &steps), None);
}

// The edges of the times, each on both sides.
#[test]
fn edges(rt: HostRuntime) {
    let behind_2999 = [
        Step::Heard(2, At::A, 5, 0, LearnOutcome::New),
        Step::Heard(2, At::B, 5, 2999, LearnOutcome::Known),
        Step::Prune(2999, 0),
        Step::Alarms(0, None, None),
    ];
    let never_heard = [
        Step::Heard(2, At::A, 5, 100, LearnOutcome::New),
        Step::Tells(2, 100, Some((0, NEVER, 5, 0))),
        Step::Prune(4599, 0),
        Step::Alarms(
            1,
            ring_error(2, Port::B, 4599),
            ring_error(2, Port::B, 4599),
        ),
    ];
    let not_heard_lately = [
        Step::Heard(2, At::A, 5, 100, LearnOutcome::New),
        Step::Prune(4600, 0),
        Step::Alarms(0, None, None),
        Step::Has(2, 60099, true),
        Step::Has(2, 60100, false),
        Step::Prune(60099, 0),
        Step::Prune(60100, 1),
    ];
    let old = [
        Step::Heard(2, At::B, 65535, 100, LearnOutcome::New),
        Step::Has(2, 50, true),
        Step::Tells(2, 50, Some((NEVER, 0, 0, 65535))),
        Step::Has(3, 100, false),
        Step::Lists(100, &[2]),
        Step::Lists(60100, &[]),
    ];
    assert_eq!(rt; differs(rt.alloc(), &behind_2999), None);
    assert_eq!(rt; differs(rt.alloc(), &never_heard), None);
    assert_eq!(rt; differs(rt.alloc(), &not_heard_lately), None);
    assert_eq!(rt; differs(rt.alloc(), &old), None);
}

// An announcement replaces the one before it whole, and has no number. A new life forgets all, and keeps its place.
#[test]
fn lives(rt: HostRuntime) {
    let steps = [
        Step::Announce(3, Some(2), At::A, 0, LearnOutcome::New),
        Step::Tells(3, 0, Some((0, NEVER, 0, 0))),
        Step::RedBox(3, 0, Some(2)),
        Step::Heard(4, At::B, 7, 0, LearnOutcome::New),
        Step::Announce(3, None, At::B, 10, LearnOutcome::Known),
        Step::RedBox(3, 10, None),
        Step::Announce(3, Some(4), At::B, 20, LearnOutcome::Known),
        Step::Heard(3, At::A, 8, 30, LearnOutcome::Known),
        Step::RedBox(3, 30, Some(4)),
        Step::Heard(4, At::A, 9, 59999, LearnOutcome::Known),
        Step::Tells(4, 59999, Some((0, 59999, 9, 7))),
        Step::Heard(3, At::B, 6, 60030, LearnOutcome::New),
        Step::Tells(3, 60030, Some((NEVER, 0, 0, 6))),
        Step::RedBox(3, 60030, None),
        Step::Lists(60030, &[3, 4]),
        Step::Alarms(0, None, None),
        Step::Heard(4, At::A, 1, 120029, LearnOutcome::New),
        Step::Prune(120030, 1),
        Step::Heard(3, At::A, 1, 120030, LearnOutcome::New),
        Step::Lists(120030, &[4, 3]),
    ];
    assert_eq!(rt; differs(rt.alloc(), &steps), None);
}

// The 65th alarm overwrites the oldest.
#[test]
fn alarms_are_few(rt: HostRuntime) {
    let steps = [
        Step::FillA(1, 64, 0),
        Step::Prune(0, 0),
        Step::Alarms(64, ring_error(1, Port::B, 0), ring_error(64, Port::B, 0)),
        Step::FillA(65, 1, 1),
        Step::Prune(1, 0),
        Step::Alarms(64, ring_error(2, Port::B, 0), ring_error(65, Port::B, 1)),
    ];
    assert_eq!(rt; differs(rt.alloc(), &steps), None);
}

// A full table refuses while all are live, and lets the forgotten go in its order.
#[test]
fn a_full_table(rt: HostRuntime) {
    let steps = [
        Step::Fill(1, 1023, 0),
        Step::FullFor(2000, 0, false),
        Step::Fill(1024, 1, 0),
        Step::FullFor(2000, 59999, true),
        Step::FullFor(5, 59999, false),
        Step::Heard(2000, At::A, 1, 400, LearnOutcome::Full),
        Step::Announce(2000, None, At::A, 59999, LearnOutcome::Full),
        Step::Has(2000, 59999, false),
        Step::Counts(59999, 1024),
        Step::Alarms(0, None, None),
        Step::FullFor(2000, 60000, false),
        Step::Heard(2000, At::A, 2, 60000, LearnOutcome::New),
        Step::Tells(2000, 60000, Some((0, NEVER, 2, 0))),
        Step::Lists(60000, &[2000]),
        Step::Alarms(64, node_down(961, 60000), node_down(1024, 60000)),
    ];
    assert_eq!(rt; differs(rt.alloc(), &steps), None);
}

// What a prune found late is not reported again, though the entry went and came back in between. A hearing of a node that
// stands in a full table, forgotten, removes nothing.
#[test]
fn lateness_outlives_its_entry(rt: HostRuntime) {
    let steps = [
        Step::FillA(1, 2, 0),
        Step::Prune(0, 0),
        Step::Alarms(2, ring_error(1, Port::B, 0), ring_error(2, Port::B, 0)),
        Step::Fill(3, 1022, 1),
        Step::Heard(2000, At::A, 1, 60000, LearnOutcome::New),
        Step::Alarms(4, ring_error(1, Port::B, 0), node_down(2, 60000)),
        Step::Heard(2000, At::B, 1, 60000, LearnOutcome::Known),
        Step::Heard(1, At::A, 1, 60000, LearnOutcome::New),
        Step::Prune(60000, 0),
        Step::Alarms(4, ring_error(1, Port::B, 0), node_down(2, 60000)),
        Step::Heard(3, At::A, 2, 60001, LearnOutcome::New),
        Step::Counts(60001, 3),
        Step::Alarms(4, ring_error(1, Port::B, 0), node_down(2, 60000)),
    ];
    assert_eq!(rt; differs(rt.alloc(), &steps), None);
}

// Held places show nothing; one that is used goes last.
#[test]
fn places(rt: HostRuntime) {
    let steps = [
        Step::Reserve(5, Some(6)),
        Step::Reserve(5, None),
        Step::Has(5, 0, false),
        Step::Lists(0, &[]),
        Step::Prune(0, 0),
        Step::Heard(7, At::A, 1, 0, LearnOutcome::New),
        Step::Heard(6, At::A, 1, 0, LearnOutcome::New),
        Step::Release,
        Step::Heard(5, At::A, 1, 0, LearnOutcome::New),
        Step::Lists(0, &[7, 6, 5]),
    ];
    assert_eq!(rt; differs(rt.alloc(), &steps), None);
}

// A clone has the entries, the alarms and what was found late, and no held place. What a table holds doesn't count, and what it
// found late does: at 5000 no port is late any more, and nothing else differs.
#[test]
fn clones_are_equal(rt: HostRuntime) {
    let steps = [
        Step::Clones(0, true),
        Step::Heard(2, At::A, 5, 0, LearnOutcome::New),
        Step::Announce(3, Some(2), At::B, 0, LearnOutcome::New),
        Step::Reserve(9, None),
        Step::Clones(0, false),
        Step::Prune(0, 0),
        Step::Alarms(2, ring_error(2, Port::B, 0), ring_error(3, Port::A, 0)),
        Step::Clones(0, true),
        Step::Clones(4499, true),
        Step::Clones(4500, false),
        Step::Prune(5000, 0),
        Step::Clones(5000, true),
        Step::Clones(60000, false),
    ];
    assert_eq!(rt; differs(rt.alloc(), &steps), None);
}
