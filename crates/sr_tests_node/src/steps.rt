//! One driver for all tests: it makes a node, takes it through a table of steps, and answers at which step it differs.
//! No test holds a node, an answer or a parcel itself, which would make its proof long.

use super::calls::{
    alarmed, arrive, arrive_zeros, hand, knows, send, takes_by_event, tick, told_of,
};
use super::frames::{OWN, Sent, octets_of};
use super::makers::{danh, danp};
use super::many::{fills, hears_sources, lives};
use super::others::{Heard, absorbs, becomes};
use super::resumed::resumed;
use super::taken::takes;
use sr_dup_table::Width;
use sr_forwarding::RoleKind;
use sr_frame::{Mac, Port};
use sr_node::{MergeFault, Mode, Node, Settings, StepFault};
use sr_node_table::Alarm;
use sr_sequence::Seq;
use std::alloc::Global;
use std::process::Abort;

/// What an event came to.
#[derive(Clone, Copy, PartialEq, Eq)]
pub enum Outcome {
    /// The frame went to the host alone.
    Up,
    /// The frame went to no outlet.
    Nowhere,
    /// The frame was the node's own.
    Own,
    /// A tick that forgot so many sources, and the number of its life check.
    Ticked(usize, Option<Seq>),
    /// A tick that forgot so many nodes.
    Forgot(usize),
    /// The host's frame went out under this number.
    Sent(u16),
    /// The frame went to the host and to port B.
    UpAndB,
    /// The frame went to the host and to port A.
    UpAndA,
    /// The frame went to this port alone.
    To(Port),
    /// The node refused it, and is as it was.
    Refused(StepFault),
    /// The node refused it, and is another than it was.
    Changed,
    /// None of these.
    Other,
}

/// What was taken out at a port.
#[derive(Clone, Copy)]
pub enum Taken {
    Nothing,
    /// Some parcel.
    Something,
    /// A plain parcel of a frame without its trailer, under its number, with its path, and whether its LAN was wrong.
    Plain(Sent, u16, u8, bool),
    /// A plain parcel of a whole frame without a number.
    Whole(Sent),
    /// A parcel that goes out at the port as this frame.
    As(Sent),
    /// A parcel that goes out at the port as this ring frame without its tag.
    Untagged(Sent),
    /// A life check with its number, and that among the life checks. It names the LAN of the port.
    Life(u16, u16),
}

/// What is told of another node: the ages and the last numbers at A and B, and its RedBox.
#[derive(Clone, Copy, PartialEq, Eq)]
pub struct Told(pub u32, pub u32, pub u16, pub u16, pub Option<Mac>);

/// A step of a node's life, and what it has to come to.
#[derive(Clone, Copy)]
pub enum Step {
    /// A frame comes in at a port, at this time.
    In(Port, Sent, u64, Outcome),
    /// A frame comes in at a port, decoded first and handed over as an event.
    Handed(Port, Sent, u64, Outcome),
    /// So many octets of a frame come in, and not the rest.
    Cut(Port, Sent, usize, u64, Outcome),
    /// So many zeros come in, and behind the addresses, where the type begins, this octet.
    Zeros(Port, usize, u8, u64, Outcome),
    /// The host sends zeros to this destination with this source, so many octets in all.
    Send(Mac, Mac, usize, u64, Outcome),
    /// Time passes.
    Tick(u64, Outcome),
    /// What waits first at a port is taken out.
    Take(Port, Taken),
    /// So too, as an event.
    TakeEvent(Port),
    /// How many parcels wait at a port.
    Waiting(Port, usize),
    /// How many frames came in at a port with the other LAN's trailer.
    WrongLan(Port, u64),
    /// Which nodes are known, in the order of first hearing.
    Knows(&'static [Mac]),
    /// What is told of a node.
    Status(Mac, Option<Told>),
    /// Which alarms are kept, the oldest first.
    Alarms(&'static [Alarm]),
    /// The node's time.
    Time(u64),
    /// The node gets another role of its address, of this kind.
    Become(RoleKind),
    /// The node takes over what a new node of its address has noted, in mode H, that heard this frame at port A at this time, or why not.
    Absorb(Sent, u64, Option<MergeFault>),
    /// The node takes over what such a node has noted that heard the first frame at port A and the second, its copy, at port B.
    AbsorbBoth(Sent, Sent, u64),
    /// So many frames of one node come in at port A at this time, under the numbers from 0 on, and each goes up.
    Fill(u16, u64),
    /// So many sources send a frame each at time 0, and each is taken out for the host.
    Sources(u16),
    /// So many life checks go out, every 2000 ms from time 0 on.
    LifeChecks(u16),
}

// What a node answers without a change. None of another step.
fn is_so(node: &Node, step: Step) -> Option<bool> {
    match step {
        Step::WrongLan(port, wanted) => Some(node.wrong_lan(port) == wanted),
        Step::Knows(wanted) => Some(knows(node, wanted)),
        Step::Status(mac, wanted) => Some(told_of(node, mac) == wanted),
        Step::Alarms(wanted) => Some(alarmed(node, wanted)),
        Step::Waiting(port, wanted) => Some(node.waiting(port) == wanted),
        Step::Time(wanted) => Some(node.time() == wanted),
        _ => None,
    }
}

fn arrive_cut(node: &mut Node, port: Port, sent: Sent, len: usize, now: u64) -> Outcome {
    arrive(node, port, &octets_of(sent)[..len.min(66)], now)
}

// What an event comes to, and what it has to come to. None of another step.
fn comes_to(alloc: Global, node: &mut Node, step: Step) -> Option<(Outcome, Outcome)> {
    match step {
        Step::In(port, sent, now, wanted) => {
            Some((arrive(node, port, &octets_of(sent), now), wanted))
        }
        Step::Handed(port, sent, now, wanted) => {
            Some((hand(alloc, node, port, &octets_of(sent), now), wanted))
        }
        Step::Cut(port, sent, len, now, wanted) => {
            Some((arrive_cut(node, port, sent, len, now), wanted))
        }
        Step::Zeros(port, len, first, now, wanted) => {
            Some((arrive_zeros(node, port, len, first, now), wanted))
        }
        Step::Tick(now, wanted) => Some((tick(alloc, node, now), wanted)),
        Step::Send(dst, src, len, now, wanted) => {
            Some((send(alloc, node, dst, src, len, now), wanted))
        }
        _ => None,
    }
}

// Whether what else is done to a node succeeds.
fn succeeds(alloc: Global, node: &mut Node, step: Step) -> bool {
    match step {
        Step::Take(port, wanted) => takes(alloc, node, port, wanted),
        Step::TakeEvent(port) => takes_by_event(alloc, node, port),
        Step::Become(kind) => becomes(alloc, node, kind),
        Step::Absorb(sent, now, wanted) => {
            let copy = None;
            absorbs(alloc, node, Heard { sent, copy, now }, wanted)
        }
        Step::AbsorbBoth(sent, copy, now) => {
            let copy = Some(copy);
            absorbs(alloc, node, Heard { sent, copy, now }, None)
        }
        Step::Fill(count, now) => fills(node, count, now),
        Step::Sources(count) => hears_sources(node, count),
        Step::LifeChecks(count) => lives(alloc, node, count),
        _ => false,
    }
}

// A match of all steps at once would be dear: each of its arms has the node.
fn goes(alloc: Global, node: &mut Node, step: Step) -> bool {
    if let Some(is_right) = is_so(node, step) {
        return is_right;
    }
    match comes_to(alloc, node, step) {
        Some((outcome, wanted)) => outcome == wanted,
        None => succeeds(alloc, node, step),
    }
}

/// The place of the first step at which a node differs, and the number of steps where it has not its address.
fn first_wrong_of(alloc: Global, node: &mut Node, steps: &[Step]) -> Option<usize> {
    if node.mac() != OWN {
        return Some(steps.len());
    }
    for (place, step) in steps.iter().enumerate() {
        if !goes(alloc, node, *step) {
            return Some(place);
        }
    }
    None
}

/// The place of the first step at which a new node of a PRP network differs, or None, and the number of steps where it
/// is no node with its address.
fn first_wrong_of_danp(alloc: Global, steps: &[Step]) -> Option<usize> {
    match danp(alloc) {
        Some(mut node) => first_wrong_of(alloc, &mut node, steps),
        None => Some(steps.len()),
    }
}

/// So for a new node of a ring.
fn first_wrong_of_danh(alloc: Global, settings: Settings, steps: &[Step]) -> Option<usize> {
    match danh(alloc, settings) {
        Some(mut node) => first_wrong_of(alloc, &mut node, steps),
        None => Some(steps.len()),
    }
}

/// So for a node that is resumed with a table.
fn first_wrong_of_resumed(alloc: Global, steps: &[Step]) -> Option<usize> {
    match resumed(alloc) {
        Some(mut node) => first_wrong_of(alloc, &mut node, steps),
        None => Some(steps.len()),
    }
}

// Where an allocation fails as the node is made, it is made again.
fn wrong_danp(alloc: Global, steps: &[Step]) -> Option<usize> {
    let wrong = first_wrong_of_danp(alloc, steps);
    if wrong == Some(steps.len()) {
        first_wrong_of_danp(alloc, steps)
    } else {
        wrong
    }
}

fn wrong_danh(alloc: Global, settings: Settings, steps: &[Step]) -> Option<usize> {
    let wrong = first_wrong_of_danh(alloc, settings, steps);
    if wrong == Some(steps.len()) {
        first_wrong_of_danh(alloc, settings, steps)
    } else {
        wrong
    }
}

fn wrong_resumed(alloc: Global, steps: &[Step]) -> Option<usize> {
    let wrong = first_wrong_of_resumed(alloc, steps);
    if wrong == Some(steps.len()) {
        first_wrong_of_resumed(alloc, steps)
    } else {
        wrong
    }
}

/// Fails the test at the place of the first step at which a new node of a PRP network differs.
pub fn expect_steps<R: Abort + AllocGlobal>(rt: &R, steps: &[Step]) {
    let wrong = wrong_danp(rt.alloc(), steps);
    assert_eq!(rt; wrong, None);
}

/// So for a new node of a ring.
pub fn expect_ring_steps<R: Abort + AllocGlobal>(rt: &R, steps: &[Step]) {
    let wrong = wrong_danh(rt.alloc(), Settings::PLAIN, steps);
    assert_eq!(rt; wrong, None);
}

/// Mode X, and 1024 numbers of a source.
const MODE_X: Settings = Settings {
    mode: Mode::X,
    width: Width::Narrow,
};

/// So for a new node of a ring in mode X.
pub fn expect_ring_steps_in_mode_x<R: Abort + AllocGlobal>(rt: &R, steps: &[Step]) {
    let wrong = wrong_danh(rt.alloc(), MODE_X, steps);
    assert_eq!(rt; wrong, None);
}

/// So for one that is resumed with a table.
pub fn expect_resumed_steps<R: Abort + AllocGlobal>(rt: &R, steps: &[Step]) {
    let wrong = wrong_resumed(rt.alloc(), steps);
    assert_eq!(rt; wrong, None);
}
