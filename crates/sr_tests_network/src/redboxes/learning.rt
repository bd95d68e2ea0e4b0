//! What boxes learn and forget, and for whom they stand.

use sr_forwarding::{Header, LearnOutcome, Port, Role, RoleImage};
use sr_frame::{Mac, NoMemory};
use sr_redbox::SanBox;
use std::alloc::Global;

const OWN: Mac = Mac([2, 0, 0, 0, 0, 1]);

/// What is done to a box, or asked of it, and what it has to answer.
#[derive(Clone, Copy)]
enum Step {
    /// A frame of this source comes in at this port and time.
    Learn(u16, Port, u64, LearnOutcome),
    /// So many sources from this one on send a frame at the interlink.
    Fill(u16, u16, u64),
    Owns(u16, u64, bool),
    Prune(u64, usize),
    /// How many addresses the image has, and the time of the last of them.
    Image(usize, u64),
}

fn mac(number: u16) -> Mac {
    let [high, low] = number.to_be_bytes();
    Mac([4, 0, 0, 0, high, low])
}

fn header(src: Mac) -> Header {
    Header {
        dst: Mac([0xff; 6]),
        src,
        seq: None,
        path: 0,
        supervision: false,
        dst_known: false,
    }
}

// The box as data, asked for again where an allocation fails.
fn image_of(alloc: Global, role: &SanBox) -> Option<RoleImage> {
    match role.image(alloc) {
        Ok(image) => Some(image),
        Err(_) => role.image(alloc).ok(),
    }
}

// Whether this is the box as data.
fn is_image(alloc: Global, role: &SanBox, before: &RoleImage) -> bool {
    match image_of(alloc, role) {
        Some(image) => image == *before,
        None => false,
    }
}

// Whether a box is as it was.
fn is_as(alloc: Global, role: &SanBox, before: Option<RoleImage>) -> bool {
    match before {
        Some(before) => is_image(alloc, role, &before),
        None => false,
    }
}

// What a call comes to.
#[derive(Clone, Copy)]
enum Came {
    Answered(LearnOutcome),
    NoMemory,
    Otherwise,
}

// A failed allocation is to leave the box as it was.
fn came_of(call: Result<LearnOutcome, NoMemory>, is_same: bool) -> Came {
    match call {
        Ok(learnt) => Came::Answered(learnt),
        Err(_) if is_same => Came::NoMemory,
        Err(_) => Came::Otherwise,
    }
}

// What is learned. The images are compared each time, so that none is alive where the call's answers part.
fn learn_whole(alloc: Global, role: &mut SanBox, header: &Header, port: Port, now: u64) -> Came {
    let before = image_of(alloc, role);
    let call = role.learn(alloc, header, port, now);
    came_of(call, is_as(alloc, role, before))
}

// What is learned, asked once more where an allocation failed.
fn learn(
    alloc: Global,
    role: &mut SanBox,
    number: u16,
    port: Port,
    now: u64,
) -> Option<LearnOutcome> {
    let header = header(mac(number));
    let came = match learn_whole(alloc, role, &header, port, now) {
        Came::NoMemory => learn_whole(alloc, role, &header, port, now),
        came => came,
    };
    match came {
        Came::Answered(learnt) => Some(learnt),
        Came::NoMemory | Came::Otherwise => None,
    }
}

fn fills(alloc: Global, role: &mut SanBox, first: u16, count: u16, now: u64) -> bool {
    for number in 0..count {
        if learn(alloc, role, first.wrapping_add(number), Port::C, now) != Some(LearnOutcome::New) {
            return false;
        }
    }
    true
}

fn has_addresses(image: &RoleImage, count: usize, last: u64) -> bool {
    let addresses = image.proxied.addresses();
    image.mac == OWN
        && addresses.len() == count
        && addresses.last().map(|entry| entry.1) == Some(last)
}

fn image_has(alloc: Global, role: &SanBox, count: usize, last: u64) -> bool {
    match image_of(alloc, role) {
        Some(image) => has_addresses(&image, count, last),
        None => false,
    }
}

fn holds(alloc: Global, role: &mut SanBox, step: Step) -> bool {
    match step {
        Step::Learn(number, port, now, want) => {
            learn(alloc, role, number, port, now) == Some(want)
        }
        Step::Fill(first, count, now) => fills(alloc, role, first, count, now),
        Step::Owns(number, now, want) => role.owns(mac(number), now) == want,
        Step::Prune(now, want) => role.prune(now) == want,
        Step::Image(count, last) => image_has(alloc, role, count, last),
    }
}

// The place of the first step that differs.
fn differs(alloc: Global, steps: &[Step]) -> Option<usize> {
    let mut role = SanBox::new(alloc, OWN);
    for (place, step) in steps.iter().enumerate() {
        if !holds(alloc, &mut role, *step) {
            return Some(place);
        }
    }
    if role.owns(OWN, 0) {
        None
    } else {
        Some(steps.len())
    }
}

// At the interlink alone; the age is that of the last frame.
const LEARNS: &[Step] = &[
    Step::Learn(9, Port::A, 0, LearnOutcome::Known),
    Step::Learn(9, Port::H, 0, LearnOutcome::Known),
    Step::Owns(9, 0, false),
    Step::Learn(9, Port::C, 0, LearnOutcome::New),
    Step::Learn(8, Port::C, 0, LearnOutcome::New),
    Step::Owns(9, 59999, true),
    Step::Owns(9, 60000, false),
    Step::Learn(9, Port::B, 40000, LearnOutcome::Known),
    Step::Prune(59999, 0),
    Step::Learn(8, Port::C, 59999, LearnOutcome::Known),
    Step::Image(2, 59999),
    Step::Prune(60000, 1),
    Step::Image(1, 59999),
    Step::Owns(8, 119998, true),
    Step::Prune(119999, 1),
];

// One of 257 is not kept until the others are forgotten.
const FULL: &[Step] = &[
    Step::Fill(1, 256, 100),
    Step::Learn(257, Port::C, 100, LearnOutcome::Full),
    Step::Learn(257, Port::C, 60099, LearnOutcome::Full),
    Step::Owns(257, 60099, false),
    Step::Learn(1, Port::C, 60099, LearnOutcome::Known),
    Step::Image(256, 100),
    Step::Learn(257, Port::C, 60100, LearnOutcome::New),
    Step::Image(2, 60100),
    Step::Owns(257, 60100, true),
];

#[test]
fn a_san_box_learns(rt: HostRuntime) {
    assert_eq!(rt; differs(rt.alloc(), LEARNS), None);
    assert_eq!(rt; differs(rt.alloc(), FULL), None);
}
