//! Packets that have an interface and a time: enhanced ones, and the obsolete ones that these replace.

ghost use Rattle.std.specs.Prelude.{◌≡◌, ◌≤◌, ℕ, List, length, IfOk, IfErr};
ghost use Rattle.sr_capture.specs.Records.{Captured};
ghost use Rattle.sr_pcapng.specs.PacketBlocks.{InTimed, IsWrongTimed, InEnhanced, IsWrongEnhanced, InObsolete, IsWrongObsolete, Gives};

use crate::body::{Body, holds, interface_of, show};
use crate::times::time_of;
use crate::track::{Section, Wanted};
use sr_capture::{Packet, Reason, half_at, word_at};

/// The length of such a packet without octets.
const MIN_LEN: usize = 32;

/// Where its octets begin.
const BODY_AT: usize = 28;

/// Reads a packet of the interface of this number. False where that is not wanted.
fn read_timed(
    number: u32,
    wanted: Wanted,
    section: &Section,
    octets: &[u8],
    packet: &mut Packet,
) -> Result<bool, Reason>
    requires { 32 ≤ length octets.now }
    ensures read { IfOk result (λ more. (shown : List Captured)
        × InTimed number wanted section.now octets.now shown × Gives more shown packet.new) }
    ensures refused { IfErr result (λ reason.
        IsWrongTimed number wanted section.now octets.now reason) }
{
    if number >= section.count {
        return Err(Reason::Undescribed);
    }
    let interface = match interface_of(wanted, section.taken, number) {
        Ok(Some(interface)) => interface,
        Ok(None) => return Ok(false),
        Err(reason) => return Err(reason),
    };
    let order = section.order;
    let body = Body {
        at: BODY_AT,
        held: word_at(order, octets, 20),
        len: word_at(order, octets, 24),
        check_len: interface.check_len,
    };
    if !holds(body.at, body.held, octets) {
        return Err(Reason::Length);
    }
    let high = u64::from(word_at(order, octets, 12));
    let ticks = high * 0x1_0000_0000 + u64::from(word_at(order, octets, 16));
    match show(body, time_of(&interface, ticks), octets, packet) {
        Ok(()) => Ok(true),
        Err(_) => Err(Reason::NoMemory),
    }
}

/// Reads an enhanced packet. False where its interface is not wanted.
///
/// # Errors
/// `Length` where its octets do not fit into its block, `Undescribed` where its interface is not described, `NoEthernet` where
/// no interface is known, `NoMemory`.
pub(crate) fn read_enhanced(
    wanted: Wanted,
    section: &Section,
    octets: &[u8],
    packet: &mut Packet,
) -> Result<bool, Reason>
    ensures read { IfOk result (λ more. (shown : List Captured)
        × InEnhanced wanted section.now octets.now shown × Gives more shown packet.new) }
    ensures refused { IfErr result (λ reason.
        IsWrongEnhanced wanted section.now octets.now reason) }
{
    if octets.len() < MIN_LEN {
        return Err(Reason::Length);
    }
    let number = word_at(section.order, octets, 8);
    read_timed(number, wanted, section, octets, packet)
}

/// Reads an obsolete packet. False where its interface is not wanted.
///
/// # Errors
/// Those of an enhanced packet.
pub(crate) fn read_obsolete(
    wanted: Wanted,
    section: &Section,
    octets: &[u8],
    packet: &mut Packet,
) -> Result<bool, Reason>
    ensures read { IfOk result (λ more. (shown : List Captured)
        × InObsolete wanted section.now octets.now shown × Gives more shown packet.new) }
    ensures refused { IfErr result (λ reason.
        IsWrongObsolete wanted section.now octets.now reason) }
{
    if octets.len() < MIN_LEN {
        return Err(Reason::Length);
    }
    let number = u32::from(half_at(section.order, octets, 8));
    read_timed(number, wanted, section, octets, packet)
}
