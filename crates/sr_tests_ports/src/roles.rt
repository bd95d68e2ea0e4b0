//! A shared node gets another role: what was noted stays noted, and the old role comes back.

ghost use Rattle.std.specs.Prelude.{◌≡◌};

use super::frames::{EVERYONE, OTHER, OWN, in_ring};
use sr_forwarding::{Danh, Role, RoleKind};
use sr_frame::{Mac, Port};
use sr_node::{Answer, Event, Node, NodeOf};
use sr_ports::{EnterFault, Kept, Pass, SharedNode, SwapFault, enter};
use sr_redbox::SanBox;
use std::alloc::Global;
use std::marker::Brand;
use std::sync::Wait;
use std::sync::ledger::{Blank, Ledger};

// A ring frame of the other node: its destination, its number, the port at which it comes in, and whether it goes to each of
// H, A, B and C.
#[derive(Clone, Copy)]
struct Arrival(Mac, u16, Port, [bool; 4]);

// What a node of a ring does with first copies.
const FIRST: &[Arrival] = &[
    Arrival(OWN, 5, Port::A, [true, false, false, false]),
    Arrival(EVERYONE, 6, Port::A, [true, false, true, false]),
];

// What a RedBox for SANs does with further copies: none goes where the first went.
const FURTHER: &[Arrival] = &[
    Arrival(OWN, 5, Port::B, [false, false, false, false]),
    Arrival(EVERYONE, 6, Port::B, [false, true, false, true]),
    Arrival(EVERYONE, 6, Port::A, [false, false, false, false]),
];

// None where the event is refused.
fn outlets_of(entered: &Result<Answer, EnterFault>) -> Option<[bool; 4]> {
    match entered {
        Ok(Answer::Passed(ports)) => {
            let ports = ports.as_slice();
            Some([
                ports.contains(&Port::H),
                ports.contains(&Port::A),
                ports.contains(&Port::B),
                ports.contains(&Port::C),
            ])
        }
        _ => None,
    }
}

// None where an allocation failed.
fn comes_in<R: Role, L: Ledger>(
    alloc: Global,
    kept: &mut Kept<R, L>,
    pass: &mut Pass<L>,
    arrival: Arrival,
) -> Option<[bool; 4]> {
    let Arrival(dst, seq, port, _) = arrival;
    let parcel = in_ring(alloc, port, dst, seq).ok()?;
    let event = Event::Arrive {
        port,
        parcel,
        now: 0,
    };
    let entered = enter(kept, pass, &event);
    drop(event);
    let outlets = outlets_of(&entered);
    drop(entered);
    outlets
}

// Whether each goes where it has to. An allocation that fails is met by another try.
fn go<R: Role, L: Ledger>(
    alloc: Global,
    kept: &mut Kept<R, L>,
    pass: &mut Pass<L>,
    arrivals: &[Arrival],
) -> bool {
    for arrival in arrivals {
        let wanted = Some(arrival.3);
        if comes_in(alloc, kept, pass, *arrival) != wanted
            && comes_in(alloc, kept, pass, *arrival) != wanted
        {
            return false;
        }
    }
    true
}

// The kind of a role that is let go.
fn kind_of<R: Role>(role: R) -> RoleKind {
    let kind = role.kind();
    drop(role);
    kind
}

// The kind of the role that comes back, and why it is the given one, if it is.
fn given_back<R: Role, L: Ledger>(kept: &mut Kept<R, L>, role: R) -> (RoleKind, Option<SwapFault>) {
    match kept.replace_role(role) {
        Ok((segment, old)) => {
            drop(segment);
            (kind_of(old), None)
        }
        Err((fault, given)) => (kind_of(given), Some(fault)),
    }
}

// What a node of a ring does that is given two other roles, the first one of another address.
fn lives<R: Role, L: Ledger>(
    alloc: Global,
    kept: &mut Kept<R, L>,
    pass: &mut Pass<L>,
    foreign: R,
    san: R,
) -> bool {
    let begins = go(alloc, kept, pass, FIRST);
    let is_refused = given_back(kept, foreign) == (RoleKind::Danh, Some(SwapFault::OtherMac))
        && kept.journal.len() == FIRST.len();
    let is_taken = given_back(kept, san) == (RoleKind::Danh, None)
        && kept.journal.is_empty()
        && kept.node.kind() == RoleKind::San;
    begins && is_refused && is_taken && go(alloc, kept, pass, FURTHER)
}

fn lived<R: Role, L: Ledger, W: Wait>(
    rt: &W,
    alloc: Global,
    node: NodeOf<R>,
    foreign: R,
    san: R,
    blank: Blank,
) -> bool
    requires name { blank.name ≡ L.name }
    requires parts { blank.parts ≡ L.parts }
    requires five { L.parts ≡ 5 }
{
    match SharedNode::<R, L>::new(alloc, node, blank) {
        Ok((shared, mut passes)) => {
            let is_right = {
                let mut kept = shared.kept.lock(rt);
                lives(alloc, &mut *kept, &mut passes.a, foreign, san)
            };
            drop(shared);
            drop(passes);
            is_right
        }
        Err(_) => {
            drop((foreign, san));
            false
        }
    }
}

// Passes a box for the role.
fn lived_in_boxes<W: Wait>(
    rt: &W,
    alloc: Global,
    node: Node,
    foreign: Box<dyn Role + Send>,
    san: Box<dyn Role + Send>,
) -> bool {
    lived::<Box<dyn Role + Send>, Brand, W>(rt, alloc, node, foreign, san, Blank::new(5))
}

// None where an allocation failed, here and below.
fn with_roles<W: Wait>(
    rt: &W,
    alloc: Global,
    danh: Box<dyn Role + Send>,
    foreign: Box<dyn Role + Send>,
    san: Box<dyn Role + Send>,
) -> Option<bool> {
    match Node::new(alloc, danh) {
        Ok(node) => Some(lived_in_boxes(rt, alloc, node, foreign, san)),
        Err(_) => {
            drop((foreign, san));
            None
        }
    }
}

fn told<W: Wait>(rt: &W, alloc: Global) -> Option<bool> {
    let danh = Box::new(alloc, Danh::new(OWN)).ok()?;
    let foreign = Box::new(alloc, Danh::new(OTHER)).ok()?;
    let san = Box::new(alloc, SanBox::new(alloc, OWN)).ok()?;
    with_roles(rt, alloc, danh, foreign, san)
}

// An allocation that fails is met by another try.
#[test]
fn another_role_knows_what_was_noted(rt: HostRuntime) {
    let alloc = rt.alloc();
    assert!(&rt; told(&rt, alloc) == Some(true) || told(&rt, alloc) == Some(true));
}
