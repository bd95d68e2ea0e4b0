//! Simple packets, which are of interface 0 and have no time.

ghost use Rattle.std.specs.Prelude.{◌≡◌, ◌≤◌, ℕ, List, length, IfOk, IfErr};
ghost use Rattle.sr_capture.specs.Records.{Captured};
ghost use Rattle.sr_pcapng.specs.PacketBlocks.{held_of, InSimple, IsWrongSimple, Gives};

use crate::body::{Body, holds, interface_of, show};
use crate::track::{Section, Wanted};
use sr_capture::{Packet, Reason, word_at};

/// The length of a simple packet without octets.
const MIN_LEN: usize = 16;

/// Where its octets begin.
const BODY_AT: usize = 12;

/// How many octets are held of so many, where a snap length of 0 is none.
fn held_of(snap: u32, len: u32) -> u32
    ensures { result ≡ held_of snap len }
{
    if snap == 0 { len } else { len.min(snap) }
}

/// Reads a simple packet. False where interface 0 is not wanted.
///
/// # Errors
/// `Length` where its octets do not fit into its block, `Undescribed` where no interface is described, `NoEthernet` where none
/// is known, `NoMemory`.
pub(crate) fn read_simple(
    wanted: Wanted,
    section: &Section,
    octets: &[u8],
    packet: &mut Packet,
) -> Result<bool, Reason>
    ensures read { IfOk result (λ more. (shown : List Captured)
        × InSimple wanted section.now octets.now shown × Gives more shown packet.new) }
    ensures refused { IfErr result (λ reason. IsWrongSimple wanted section.now octets.now reason) }
{
    if octets.len() < MIN_LEN {
        return Err(Reason::Length);
    }
    if section.count == 0 {
        return Err(Reason::Undescribed);
    }
    let interface = match interface_of(wanted, section.taken, 0) {
        Ok(Some(interface)) => interface,
        Ok(None) => return Ok(false),
        Err(reason) => return Err(reason),
    };
    let len = word_at(section.order, octets, 8);
    let body = Body {
        at: BODY_AT,
        held: held_of(interface.snap, len),
        len,
        check_len: interface.check_len,
    };
    if !holds(body.at, body.held, octets) {
        return Err(Reason::Length);
    }
    match show(body, 0, octets, packet) {
        Ok(()) => Ok(true),
        Err(_) => Err(Reason::NoMemory),
    }
}
