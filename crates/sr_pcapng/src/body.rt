//! What the blocks of packets have in common.

ghost use Rattle.std.specs.Prelude.{◌≡◌, ◌≤◌, ◌<◌, ◌+◌, ◌-◌, ◌^◌, ◌↔◌, None, length, vec_len, vec_capacity, IfOk, IfErr, OnOk, IsOk, IsTrue};
ghost use Rattle.sr_capture.specs.declared.fault.Reason.TheVariants.{NoEthernet};
ghost use Rattle.sr_capture.specs.Records.{Captured, Shows};
ghost use Rattle.sr_pcapng.specs.declared.track.Wanted.TheVariants.{Only};
ghost use Rattle.sr_pcapng.specs.PacketBlocks.{extent_of, body_at, Holds, of_number, IsTold};

use crate::options::padded;
use crate::track::{Interface, Wanted};
use sr_capture::{Extent, MAX_KEPT, Packet, Reason};
use std::alloc::AllocError;

/// The length of the length at the end of a block.
const TAIL_LEN: u64 = 4;

/// Whether so many octets of a packet fit behind a place of a block.
pub(crate) fn holds(at: usize, held: u32, octets: &[u8]) -> bool
    requires { at ≤ 28 }
    ensures { IsTrue result ↔ Holds at held octets.now }
{
    at as u64 + padded(held) + TAIL_LEN <= octets.len() as u64
}

/// The interface that was taken, if it has this number.
pub(crate) fn of_number(taken: Option<Interface>, number: u32) -> Option<Interface>
    ensures { result ≡ of_number taken number }
{
    match taken {
        Some(interface) if interface.number == number => Some(interface),
        _ => None,
    }
}

/// The interface of a packet of this number, if it is wanted.
///
/// # Errors
/// `NoEthernet` where none was taken, and no number is wanted.
pub(crate) fn interface_of(
    wanted: Wanted,
    taken: Option<Interface>,
    number: u32,
) -> Result<Option<Interface>, Reason>
    ensures found { IfOk result (λ interface.
        IsTold wanted taken × (interface ≡ of_number taken number)) }
    ensures refused { IfErr result (λ reason.
        (reason ≡ NoEthernet) × (wanted ≡ Only) × (taken ≡ None)) }
{
    if wanted == Wanted::Only && taken.is_none() {
        return Err(Reason::NoEthernet);
    }
    Ok(of_number(taken, number))
}

/// What of a packet is held in its block.
#[derive(Clone, Copy)]
pub(crate) struct Body {
    /// Where its octets begin.
    pub at: usize,
    /// How many there are.
    pub held: u32,
    /// How many there were.
    pub len: u32,
    /// How many octets at the end are a check sequence.
    pub check_len: u8,
}

/// Whether all octets are held.
fn extent_of(held: u32, len: u32) -> Extent
    ensures { result ≡ extent_of held len }
{
    if held < len {
        Extent::Cut
    } else {
        Extent::Whole
    }
}

/// Shows the packet of a block.
pub(crate) fn show(
    body: Body,
    time: u64,
    octets: &[u8],
    packet: &mut Packet,
) -> Result<(), AllocError>
    requires early { time < 2 ^ 63 }
    requires near { body.at ≤ 28 }
    requires whole { Holds body.at body.held octets.now }
    ensures kept { IfErr result (λ _. body.held - body.check_len ≤ 1524) }
    ensures few { vec_len packet.new.octets ≤ 1524 }
    ensures room { 1524 ≤ vec_capacity packet.old.octets → IsOk result }
    ensures capacity { vec_capacity packet.old.octets ≤ vec_capacity packet.new.octets }
    ensures shown { OnOk result ((captured : Captured) → captured.time ≡ time
        → captured.extent ≡ extent_of body.held body.len
        → captured.octets ≡ body_at body.at body.held body.check_len octets.now
        → Shows packet.new captured) }
{
    let wanted = body.held.saturating_sub(u32::from(body.check_len));
    packet.octets.clear();
    if wanted as usize <= MAX_KEPT {
        packet
            .octets
            .extend_from_slice(&octets[body.at..body.at + wanted as usize])?;
    }
    packet.time = time;
    packet.extent = extent_of(body.held, body.len);
    packet.len = u64::from(wanted);
    Ok(())
}
