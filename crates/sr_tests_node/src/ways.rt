//! How the ports of a node read and write frames.

use super::steps::Outcome;
use sr_forwarding::{Framing, Parcel, PortFraming, framing_at};
use sr_frame::Port;
use sr_node::{Answer, Node, StepFault};
use std::alloc::Global;

// In the order H, A, B, C.
fn outcome_of_ports(ports: &[Port]) -> Outcome {
    match ports {
        [] => Outcome::Nowhere,
        [Port::H] => Outcome::Up,
        [Port::H, Port::A] => Outcome::UpAndA,
        [Port::H, Port::B] => Outcome::UpAndB,
        [Port::A] => Outcome::To(Port::A),
        [Port::B] => Outcome::To(Port::B),
        [Port::C] => Outcome::To(Port::C),
        _ => Outcome::Other,
    }
}

fn outcome_of(answer: &Answer) -> Outcome {
    match answer {
        Answer::Passed(ports) => outcome_of_ports(ports.as_slice()),
        Answer::Own => Outcome::Own,
        Answer::Sent(seq) => Outcome::Sent(seq.0),
        Answer::Ticked {
            sources,
            nodes: 0,
            proxies: 0,
            life,
        } => Outcome::Ticked(*sources, *life),
        Answer::Ticked { nodes, .. } => Outcome::Forgot(*nodes),
        _ => Outcome::Other,
    }
}

/// What a call came to.
pub fn ended(call: Result<Answer, StepFault>) -> Outcome {
    match call {
        Ok(answer) => outcome_of(&answer),
        Err(fault) => Outcome::Refused(fault),
    }
}

/// Octets come in once.
pub fn read(node: &mut Node, port: Port, octets: &[u8], now: u64) -> Outcome {
    ended(node.arrive(&framing_at(node.kind(), port), port, octets, now))
}

/// The parcel that octets are.
pub fn decoded(alloc: Global, framing: PortFraming, octets: &[u8]) -> Option<Parcel> {
    framing.decode(alloc, octets).ok()
}

// Whether a parcel is written as these octets. None where an allocation failed.
fn is_written(alloc: Global, framing: PortFraming, parcel: &Parcel, octets: &[u8]) -> Option<bool> {
    match framing.encode(alloc, parcel) {
        Ok(frame) => Some(frame.octets() == octets),
        Err(_) => None,
    }
}

/// Whether a parcel is written as these octets. A failed allocation for the frame is met by another try.
pub fn goes_as(alloc: Global, framing: PortFraming, parcel: &Parcel, octets: &[u8]) -> bool {
    match is_written(alloc, framing, parcel, octets) {
        Some(is_same) => is_same,
        None => is_written(alloc, framing, parcel, octets) == Some(true),
    }
}
