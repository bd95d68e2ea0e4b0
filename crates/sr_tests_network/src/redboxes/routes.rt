//! Where frames go, line by line of the three tables.

use sr_forwarding::{Header, Port, Role};
use sr_frame::Mac;
use sr_prp_trailer::Lan;
use sr_redbox::{HsrBox, PrpBox, SanBox};
use std::alloc::Global;

/// The box.
const OWN: Mac = Mac([2, 0, 0, 0, 0, 1]);

/// A node that it proxies, and one that it does not.
const PROXIED: Mac = Mac([2, 0, 0, 0, 0, 9]);

const OTHER: Mac = Mac([2, 0, 0, 0, 0, 2]);

/// A group address that it learned, as it would that of a node, and one that it did not.
const LEARNED_GROUP: Mac = Mac([3, 0, 0, 0, 0, 9]);

const GROUP: Mac = Mac([0xff; 6]);

/// A frame, as far as routes read it; where nothing else is said, of another node, and to an unknown destination.
#[derive(Clone, Copy)]
enum Sent {
    To(Mac),
    /// The destination is known in the ring.
    Known(Mac),
    /// Supervision, to this destination.
    Life(Mac),
    /// Of this source, to this destination.
    By(Mac, Mac),
    /// Supervision of this source.
    LifeBy(Mac, Mac),
    /// With this path.
    Path(u8, Mac),
}

/// A frame, its inlet, and its outlets.
type Row = (Sent, Port, &'static [Port]);

fn header(sent: Sent) -> Header {
    let (src, dst) = match sent {
        Sent::To(dst) | Sent::Known(dst) | Sent::Life(dst) | Sent::Path(_, dst) => (OTHER, dst),
        Sent::By(src, dst) | Sent::LifeBy(src, dst) => (src, dst),
    };
    Header {
        dst,
        src,
        seq: None,
        path: match sent {
            Sent::Path(path, _) => path,
            _ => 0,
        },
        supervision: matches!(sent, Sent::Life(_) | Sent::LifeBy(_, _)),
        dst_known: matches!(sent, Sent::Known(_)),
    }
}

// Whether a frame goes to these outlets, in the order H, A, B, C, and to no other.
fn goes<R: Role>(alloc: Global, role: &R, row: &Row, now: u64) -> bool {
    let (sent, inlet, outlets) = *row;
    let wanted = role.wants(&header(sent), inlet, now).ports(alloc);
    wanted.as_slice() == outlets
}

// The first row that differs.
fn differs<R: Role>(alloc: Global, role: &R, rows: &[Row], now: u64) -> Option<usize> {
    rows.iter().position(|row| !goes(alloc, role, row, now))
}

/// The time at which the box learned what it proxies.
const LEARNED: u64 = 1000;

// A box that proxies a node and a group address. Where an allocation failed, it is asked once more.
fn san_box(alloc: Global) -> Option<SanBox> {
    let mut role = SanBox::new(alloc, OWN);
    for src in [PROXIED, LEARNED_GROUP] {
        let frame = header(Sent::By(src, GROUP));
        if role.learn(alloc, &frame, Port::C, LEARNED).is_err()
            && role.learn(alloc, &frame, Port::C, LEARNED).is_err()
        {
            return None;
        }
    }
    Some(role)
}

const SAN: &[Row] = &[
    (Sent::Life(GROUP), Port::H, &[Port::A, Port::B]),
    (Sent::To(GROUP), Port::H, &[Port::A, Port::B, Port::C]),
    (
        Sent::To(LEARNED_GROUP),
        Port::H,
        &[Port::A, Port::B, Port::C],
    ),
    (Sent::Known(PROXIED), Port::H, &[Port::C]),
    (Sent::Known(OTHER), Port::H, &[Port::A, Port::B]),
    (Sent::To(OTHER), Port::H, &[Port::A, Port::B, Port::C]),
    (Sent::By(OWN, GROUP), Port::A, &[]),
    (Sent::By(PROXIED, OWN), Port::A, &[]),
    (Sent::LifeBy(PROXIED, GROUP), Port::B, &[]),
    (Sent::Life(GROUP), Port::A, &[Port::B]),
    (Sent::Life(OWN), Port::B, &[Port::A]),
    (Sent::To(OWN), Port::A, &[Port::H]),
    (Sent::To(GROUP), Port::A, &[Port::H, Port::B, Port::C]),
    (Sent::To(GROUP), Port::B, &[Port::H, Port::A, Port::C]),
    (Sent::Known(PROXIED), Port::A, &[Port::C]),
    (Sent::Known(OTHER), Port::A, &[Port::B]),
    (Sent::Known(OTHER), Port::B, &[Port::A]),
    (Sent::To(OTHER), Port::A, &[Port::B, Port::C]),
    (Sent::To(OTHER), Port::B, &[Port::A, Port::C]),
    (Sent::Life(GROUP), Port::C, &[]),
    (Sent::To(OWN), Port::C, &[Port::H]),
    (Sent::By(OWN, GROUP), Port::C, &[Port::H, Port::A, Port::B]),
    (Sent::To(GROUP), Port::C, &[Port::H, Port::A, Port::B]),
    (Sent::To(PROXIED), Port::C, &[]),
    (Sent::Known(OTHER), Port::C, &[Port::A, Port::B]),
    (Sent::To(OTHER), Port::C, &[Port::A, Port::B]),
];

// What is proxied no more is as any other.
const SAN_LATER: &[Row] = &[
    (Sent::Known(PROXIED), Port::H, &[Port::A, Port::B]),
    (Sent::By(PROXIED, OWN), Port::A, &[Port::H]),
    (Sent::To(PROXIED), Port::A, &[Port::B, Port::C]),
    (Sent::To(PROXIED), Port::C, &[Port::A, Port::B]),
];

// Whether such a box goes by these rows, and in a box too.
fn san_box_goes(alloc: Global, rows: &[Row], now: u64) -> bool {
    let Some(role) = san_box(alloc) else {
        return false;
    };
    if differs(alloc, &role, rows, now).is_some() {
        return false;
    }
    let Ok(boxed) = Box::new(alloc, role) else {
        return false;
    };
    let boxed: Box<dyn Role + Send> = boxed;
    differs(alloc, &boxed, rows, now).is_none()
}

#[test]
fn routes_of_a_san_box(rt: HostRuntime) {
    let alloc = rt.alloc();
    let (last, next) = (LEARNED + 59999, LEARNED + 60000);
    assert!(rt; san_box_goes(alloc, SAN, last) || san_box_goes(alloc, SAN, last));
    assert!(rt; san_box_goes(alloc, SAN_LATER, next) || san_box_goes(alloc, SAN_LATER, next));
}

// The rows of a box whose interlink is open to all.
const OPEN: &[Row] = &[
    (Sent::By(OWN, GROUP), Port::H, &[Port::A, Port::B, Port::C]),
    (
        Sent::LifeBy(OWN, GROUP),
        Port::H,
        &[Port::A, Port::B, Port::C],
    ),
    (Sent::By(OWN, OTHER), Port::H, &[Port::A, Port::B, Port::C]),
    (Sent::By(OWN, GROUP), Port::A, &[]),
    (Sent::By(OWN, OWN), Port::B, &[]),
    (Sent::To(OWN), Port::A, &[Port::H]),
    (Sent::Life(OWN), Port::B, &[Port::H]),
    (Sent::Life(GROUP), Port::A, &[Port::B, Port::C]),
    (Sent::Life(GROUP), Port::B, &[Port::A, Port::C]),
    (Sent::To(GROUP), Port::A, &[Port::H, Port::B, Port::C]),
    (Sent::To(GROUP), Port::B, &[Port::H, Port::A, Port::C]),
    (Sent::Known(OTHER), Port::A, &[Port::B, Port::C]),
    (Sent::To(OTHER), Port::B, &[Port::A, Port::C]),
    (Sent::By(OWN, GROUP), Port::C, &[]),
    (Sent::To(OWN), Port::C, &[Port::H]),
    (Sent::Life(GROUP), Port::C, &[Port::A, Port::B]),
    (Sent::To(GROUP), Port::C, &[Port::H, Port::A, Port::B]),
    (Sent::To(OTHER), Port::C, &[Port::A, Port::B]),
];

// Paths of network 3 and its neighbours, at its boxes.
const OF_NETS: &[Row] = &[
    (Sent::Path(5, GROUP), Port::A, &[Port::H, Port::B, Port::C]),
    (Sent::Path(6, GROUP), Port::A, &[Port::H, Port::B]),
    (Sent::Path(7, GROUP), Port::B, &[Port::H, Port::A]),
    (Sent::Path(8, GROUP), Port::B, &[Port::H, Port::A, Port::C]),
    (Sent::Path(7, OTHER), Port::A, &[Port::B]),
    (Sent::Path(7, OWN), Port::A, &[Port::H]),
    (Sent::Path(6, GROUP), Port::H, &[Port::A, Port::B, Port::C]),
    (Sent::Path(6, GROUP), Port::C, &[Port::H, Port::A, Port::B]),
];

// The rows of a box of network 3 and of one between rings; what differs where, if any.
fn ring_boxes_differ(alloc: Global) -> Option<usize> {
    let boxes: [PrpBox; 2] = [Lan::A, Lan::B].map(|lan| PrpBox::new(OWN, lan, 3));
    for role in boxes.iter() {
        if let Some(place) = differs(alloc, role, OPEN, 0).or(differs(alloc, role, OF_NETS, 0)) {
            return Some(place);
        }
    }
    let role = HsrBox::new(OWN);
    differs(alloc, &role, OPEN, 0)
}

#[test]
fn routes_of_the_other_boxes(rt: HostRuntime) {
    assert_eq!(rt; ring_boxes_differ(rt.alloc()), None);
}
