//! Nodes over boxes: octets in at the ports, octets out.

use super::exchanges::differs_after_exchange;
use super::node_steps::{Kind, Sent, Step, first_wrong};
use sr_forwarding::Port;
use sr_frame::Mac;
use sr_prp_trailer::Lan;

const GROUP: Mac = Mac([0xff; 6]);

const OWN: Mac = Mac([2, 0, 0, 0, 0, 1]);

const M2: Mac = Mac([2, 0, 0, 0, 0, 2]);

const M3: Mac = Mac([2, 0, 0, 0, 0, 3]);

const M4: Mac = Mac([2, 0, 0, 0, 0, 4]);

const M5: Mac = Mac([2, 0, 0, 0, 0, 5]);

const M8: Mac = Mac([2, 0, 0, 0, 0, 8]);

const M9: Mac = Mac([2, 0, 0, 0, 0, 9]);

// A plain frame at the interlink takes the node's next number, and goes out with it both ways; its copy that comes round goes
// nowhere. What is for a proxied node goes to the interlink alone.
const SAN: &[Step] = &[
    Step::In(
        Port::C,
        Sent::Plain(GROUP, M9),
        0,
        &[Port::H, Port::A, Port::B],
    ),
    Step::Out(Port::H, Sent::Plain(GROUP, M9)),
    Step::Out(Port::A, Sent::Tagged(GROUP, M9, 0, 0xfbff)),
    Step::Out(Port::B, Sent::Tagged(GROUP, M9, 1, 0xfbff)),
    Step::In(Port::B, Sent::Tagged(GROUP, M9, 0, 0xfbff), 1, &[]),
    Step::In(Port::C, Sent::Plain(M9, M8), 2, &[]),
    Step::In(Port::A, Sent::Tagged(M9, M2, 0, 5), 3, &[Port::C]),
    Step::Out(Port::C, Sent::Plain(M9, M2)),
];

// A group frame of the ring goes on, up and to the interlink. What is for its source stays in the ring, until that is heard
// at the interlink and proxied: then the other copy goes there.
const SAN_MOVES: &[Step] = &[
    Step::In(
        Port::A,
        Sent::Tagged(GROUP, M9, 0, 1),
        0,
        &[Port::H, Port::B, Port::C],
    ),
    Step::Out(Port::H, Sent::Plain(GROUP, M9)),
    Step::Out(Port::B, Sent::Tagged(GROUP, M9, 0, 1)),
    Step::Out(Port::C, Sent::Plain(GROUP, M9)),
    Step::In(Port::A, Sent::Tagged(M9, M2, 0, 5), 1, &[Port::B]),
    Step::Out(Port::B, Sent::Tagged(M9, M2, 0, 5)),
    Step::In(Port::C, Sent::Plain(M8, M9), 2, &[Port::A, Port::B]),
    Step::Out(Port::A, Sent::Tagged(M8, M9, 0, 0xfbff)),
    Step::Out(Port::B, Sent::Tagged(M8, M9, 1, 0xfbff)),
    Step::In(Port::B, Sent::Tagged(M9, M2, 1, 5), 3, &[Port::C]),
    Step::Out(Port::C, Sent::Plain(M9, M2)),
];

// A node is proxied for 60000 ms. What is for a node that was heard in the ring stays off the interlink.
const SAN_FORGETS: &[Step] = &[
    Step::In(Port::C, Sent::Plain(M8, M9), 0, &[Port::A, Port::B]),
    Step::Tick(59999, 0),
    Step::In(Port::A, Sent::Tagged(M9, M2, 0, 5), 59999, &[Port::C]),
    Step::Tick(60000, 1),
    Step::In(
        Port::B,
        Sent::Tagged(M8, M9, 0, 6),
        60000,
        &[Port::A, Port::C],
    ),
    Step::In(Port::B, Sent::Tagged(M2, M9, 0, 7), 60000, &[Port::A]),
];

// Whether a frame is for a node of the ring is asked before it is heard itself, and a node is of the ring for 60000 ms.
const SAN_KNOWS: &[Step] = &[
    Step::In(Port::A, Sent::Tagged(M9, M9, 0, 1), 0, &[Port::B, Port::C]),
    Step::In(Port::A, Sent::Tagged(M9, M9, 0, 2), 1, &[Port::B]),
    Step::In(Port::A, Sent::Tagged(M9, M2, 0, 5), 60000, &[Port::B]),
    Step::In(
        Port::A,
        Sent::Tagged(M9, M2, 0, 6),
        60001,
        &[Port::B, Port::C],
    ),
];

// With 256 others proxied, the group frame of one more goes out all the same, and its copy that comes round goes nowhere. But
// it is heard in the ring then: what is for it comes out no more.
const SAN_FULL: &[Step] = &[
    Step::Sans(256),
    Step::In(
        Port::C,
        Sent::Plain(GROUP, M9),
        0,
        &[Port::H, Port::A, Port::B],
    ),
    Step::Out(Port::B, Sent::Tagged(GROUP, M9, 1, 0xfcff)),
    Step::Proxies(256),
    Step::In(Port::A, Sent::Tagged(M9, M2, 0, 5), 0, &[Port::B, Port::C]),
    Step::In(Port::B, Sent::Tagged(GROUP, M9, 0, 0xfcff), 0, &[]),
    Step::In(Port::A, Sent::Tagged(M9, M2, 0, 6), 0, &[Port::B]),
    Step::Tick(60000, 256),
];

#[test]
fn a_node_for_sans(rt: HostRuntime) {
    assert_eq!(rt; first_wrong(rt.alloc(), Kind::San, SAN), None);
    assert_eq!(rt; first_wrong(rt.alloc(), Kind::San, SAN_MOVES), None);
    assert_eq!(rt; first_wrong(rt.alloc(), Kind::San, SAN_FORGETS), None);
    assert_eq!(rt; first_wrong(rt.alloc(), Kind::San, SAN_KNOWS), None);
    assert_eq!(rt; first_wrong(rt.alloc(), Kind::San, SAN_FULL), None);
}

// A frame of the LAN keeps its number, and gets a path that names the network and the LAN. A frame of the same network stays
// off the interlink, one of another network gets a trailer there. The other LAN's trailer is counted.
const PRP: &[Step] = &[
    Step::In(
        Port::C,
        Sent::Trailed(M3, M2, 5, 0xa0),
        0,
        &[Port::A, Port::B],
    ),
    Step::Out(Port::A, Sent::Tagged(M3, M2, 2, 5)),
    Step::Out(Port::B, Sent::Tagged(M3, M2, 2, 5)),
    Step::In(Port::A, Sent::Tagged(M3, M4, 3, 5), 0, &[Port::B]),
    Step::Out(Port::B, Sent::Tagged(M3, M4, 3, 5)),
    Step::In(Port::A, Sent::Tagged(M3, M4, 4, 6), 0, &[Port::B, Port::C]),
    Step::Out(Port::B, Sent::Tagged(M3, M4, 4, 6)),
    Step::Out(Port::C, Sent::Trailed(M3, M4, 6, 0xa0)),
    Step::WrongLan(Port::C, 0),
    Step::In(
        Port::C,
        Sent::Trailed(M3, M2, 6, 0xb0),
        0,
        &[Port::A, Port::B],
    ),
    Step::WrongLan(Port::C, 1),
];

#[test]
fn a_node_for_a_lan(rt: HostRuntime) {
    assert_eq!(rt; first_wrong(rt.alloc(), Kind::Prp(Lan::A), PRP), None);
}

// Frames go from ring to ring with their octets, and none comes back.
const HSR: &[Step] = &[
    Step::In(Port::C, Sent::Tagged(M3, M4, 0, 5), 0, &[Port::A, Port::B]),
    Step::Out(Port::A, Sent::Tagged(M3, M4, 0, 5)),
    Step::Out(Port::B, Sent::Tagged(M3, M4, 0, 5)),
    Step::In(Port::A, Sent::Tagged(M3, M4, 0, 5), 1, &[]),
    Step::In(Port::A, Sent::Tagged(M3, M5, 0, 6), 2, &[Port::B, Port::C]),
    Step::Out(Port::B, Sent::Tagged(M3, M5, 0, 6)),
    Step::Out(Port::C, Sent::Tagged(M3, M5, 0, 6)),
];

#[test]
fn a_node_between_rings(rt: HostRuntime) {
    assert_eq!(rt; first_wrong(rt.alloc(), Kind::Hsr, HSR), None);
}

// For a run in which one allocation fails: each event of a box that learns and forgets, and then of the other two.
const SAN_GROWTHS: &[Step] = &[
    Step::In(
        Port::C,
        Sent::Plain(GROUP, M9),
        0,
        &[Port::H, Port::A, Port::B],
    ),
    Step::In(
        Port::A,
        Sent::Tagged(GROUP, M2, 0, 1),
        1,
        &[Port::H, Port::B, Port::C],
    ),
    Step::In(Port::B, Sent::Tagged(M9, M3, 1, 5), 2, &[Port::C]),
    Step::In(
        Port::C,
        Sent::Plain(GROUP, M8),
        3,
        &[Port::H, Port::A, Port::B],
    ),
    Step::Send(M8, 4, 0xfc01),
    Step::Tick(5, 0),
    Step::Send(GROUP, 6, 0xfc03),
    Step::In(Port::C, Sent::Plain(M2, M8), 7, &[Port::A, Port::B]),
    Step::Tick(60_003, 1),
    Step::Tick(60_007, 1),
    Step::Out(Port::C, Sent::Plain(GROUP, M2)),
    Step::Out(Port::C, Sent::Plain(M9, M3)),
    Step::Out(Port::C, Sent::Plain(M8, OWN)),
    Step::Out(Port::C, Sent::Plain(GROUP, OWN)),
];

const PRP_GROWTHS: &[Step] = &[
    Step::In(
        Port::C,
        Sent::Trailed(M3, M2, 5, 0xa0),
        0,
        &[Port::A, Port::B],
    ),
    Step::In(Port::A, Sent::Tagged(M3, M4, 4, 6), 1, &[Port::B, Port::C]),
    Step::In(Port::B, Sent::Tagged(M3, M5, 0, 7), 2, &[Port::A, Port::C]),
    Step::Send(M2, 3, 0xfbff),
    Step::Tick(4, 0),
    Step::Out(Port::C, Sent::Trailed(M3, M4, 6, 0xa0)),
    Step::Out(Port::C, Sent::Trailed(M3, M5, 7, 0xa0)),
    Step::Out(Port::C, Sent::Trailed(M2, OWN, 0xfbff, 0xa0)),
];

const HSR_GROWTHS: &[Step] = &[
    Step::In(Port::C, Sent::Tagged(M3, M2, 0, 5), 0, &[Port::A, Port::B]),
    Step::In(Port::A, Sent::Tagged(M3, M4, 0, 6), 1, &[Port::B, Port::C]),
    Step::In(Port::B, Sent::Tagged(M3, M5, 1, 7), 2, &[Port::A, Port::C]),
    Step::Send(M2, 3, 0xfbff),
    Step::Tick(4, 0),
    Step::Out(Port::C, Sent::Tagged(M3, M4, 0, 6)),
    Step::Out(Port::C, Sent::Tagged(M3, M5, 1, 7)),
    Step::Out(Port::C, Sent::Tagged(M2, OWN, 0, 0xfbff)),
];

#[test]
fn refused_growths_change_nothing(rt: HostRuntime) {
    assert_eq!(rt; first_wrong(rt.alloc(), Kind::San, SAN_GROWTHS), None);
    assert_eq!(rt;
        first_wrong(rt.alloc(), Kind::Prp(Lan::A), PRP_GROWTHS),
        None
    );
    assert_eq!(rt; first_wrong(rt.alloc(), Kind::Hsr, HSR_GROWTHS), None);
}

// A node of a ring becomes a box for nodes without redundancy: copies of what it noted go nowhere where it went.
const BEFORE: &[Step] = &[Step::In(
    Port::A,
    Sent::Tagged(GROUP, M2, 0, 7),
    0,
    &[Port::H, Port::B],
)];

const AFTER: &[Step] = &[
    Step::In(Port::A, Sent::Tagged(GROUP, M2, 0, 7), 0, &[Port::C]),
    Step::In(Port::B, Sent::Tagged(GROUP, M2, 1, 7), 0, &[Port::A]),
    Step::In(Port::B, Sent::Tagged(GROUP, M2, 1, 7), 0, &[]),
];

#[test]
fn a_node_becomes_a_box(rt: HostRuntime) {
    assert_eq!(rt; differs_after_exchange(rt.alloc(), BEFORE, AFTER), None);
}
