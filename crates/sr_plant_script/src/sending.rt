//! Frames that hosts of a plant send.

ghost use Rattle.std.specs.Prelude.{◌≡◌, ◌<◌, ◌≤◌, ℕ, List, length, true, Some, None, IfOk};
ghost use Rattle.sr_plant.specs.Limits.{most_members};
ghost use Rattle.sr_plant_script.specs.Sendings.{is_there, send_refusal, receiver_address, sent_octets, most_payload};

use crate::command::Receiver;
use crate::members::mac_of;
use sr_forwarding::{MAX_PLAIN_LEN, ReadFault};
use sr_frame::{Frame, HEADER_LEN, Mac};
use sr_node::StepFault;
use sr_plant::PlantFault;
use std::alloc::{AllocError, Global};

/// The type of the frames: the first that IEEE 802 leaves to local experiments.
const SENT_ETHERTYPE: u16 = 0x88b5;

/// The address of all nodes.
const BROADCAST: Mac = Mac([0xff; 6]);

/// Whether there is such a receiver among so many nodes.
fn is_there(count: usize, receiver: Receiver) -> bool
    ensures { result ≡ is_there count receiver }
{
    match receiver {
        Receiver::All => true,
        Receiver::Node(node) => node < count,
    }
}

/// Why a sending is refused before the plant is asked, of so many nodes.
pub fn send_refusal(
    count: usize,
    node: usize,
    receiver: Receiver,
    payload: &[u8],
) -> Option<PlantFault>
    ensures { result ≡ send_refusal count node receiver (length payload.now) }
{
    if node >= count || !is_there(count, receiver) {
        return Some(PlantFault::NoSuchNode);
    }
    if payload.len() > MAX_PLAIN_LEN - HEADER_LEN {
        return Some(PlantFault::Node(StepFault::Reading(ReadFault::TooLong)));
    }
    None
}

/// The address of a receiver.
fn address_of(receiver: Receiver) -> Mac
    requires { is_there most_members receiver ≡ true }
    ensures { result.0 ≡ receiver_address receiver }
{
    match receiver {
        Receiver::All => BROADCAST,
        Receiver::Node(node) => mac_of(node),
    }
}

/// The frame with this payload that the host of a node sends. An error: the allocation failed.
pub fn sent_frame(
    alloc: Global,
    node: usize,
    receiver: Receiver,
    payload: &[u8],
) -> Result<Frame, AllocError>
    requires sender { node < most_members }
    requires receiver { is_there most_members receiver ≡ true }
    requires short { length payload.now ≤ most_payload }
    ensures { IfOk result (λ f. f ≡ sent_octets node receiver payload.now) }
{
    let mut octets = Vec::with_capacity(alloc, HEADER_LEN + payload.len())?;
    octets.extend_from_slice(&address_of(receiver).0)?;
    octets.extend_from_slice(&mac_of(node).0)?;
    octets.extend_from_slice(&SENT_ETHERTYPE.to_be_bytes())?;
    octets.extend_from_slice(payload)?;
    Ok(Frame::of(octets))
}
