//! The packets of a file.

ghost use Rattle.std.specs.Prelude.{◌≡◌, ◌-◌, ◌^◌, [], min, ℕ, List, length, IfOk, IfErr, IfSome, IfNone};
ghost use Rattle.sr_capture.specs.Taking.{Loses};
ghost use Rattle.sr_pcapng.specs.Steps.{order_in, place_of, IsNoStep, TakesStep, Takes, IsNoPacket};

use crate::block::{enhanced_at_hand, take_block};
use crate::enhanced::read_enhanced;
use crate::listing::told;
use crate::reading::read_block;
use crate::track::{Section, Track};
use sr_capture::{ByteOrder, CaptureFault, Packet, Reason};
use std::io::BufRead;

/// What came of a block, of so many octets.
#[derive(Clone, Copy, PartialEq, Eq)]
enum Step {
    /// There was none.
    End,
    /// It has no packet that is wanted.
    Passed(usize),
    /// It has a packet.
    Packet(usize),
}

/// The order of octets of a section, if there is one.
fn order_in(section: Option<Section>) -> Option<ByteOrder>
    ensures { result ≡ order_in section }
{
    match section {
        Some(section) => Some(section.order),
        None => None,
    }
}

/// Where in a block the field is that is wrong.
fn place_of(reason: Reason) -> u64
    ensures { result ≡ place_of reason }
{
    match reason {
        Reason::Version => 12,
        Reason::Link(_) => 8,
        _ => 0,
    }
}

/// Takes the next block where the reader has all of it at hand, and it is an enhanced packet. None where it is not so, or where it is
/// refused, and then nothing is taken.
///
/// # Errors
/// `Read` where the reader fails.
// speed: D-capture-at-hand
fn take_at_hand<R: BufRead>(
    reader: &mut R,
    track: &Track,
    packet: &mut Packet,
) -> Result<Option<Step>, Reason>
    ensures taken { IfOk result (λ found. IfSome found (λ step. TakesStep step track.now track.now
        packet.new (R.remaining reader.old) (R.remaining reader.new))) }
    ensures left { IfOk result (λ found.
        IfNone found (Loses [] (R.remaining reader.old) (R.remaining reader.new))) }
    ensures err { IfErr result (λ reason. (reason ≡ Reason.Read)
        × Loses [] (R.remaining reader.old) (R.remaining reader.new)) }
{
    let Ok(available) = reader.fill_buf() else {
        return Err(Reason::Read);
    };
    let Some(section) = track.section else {
        return Ok(None);
    };
    let Some(block) = enhanced_at_hand(section.order, available) else {
        return Ok(None);
    };
    let size = block.len();
    match read_enhanced(track.wanted, &section, block, packet) {
        Ok(true) => {
            reader.consume(size);
            Ok(Some(Step::Packet(size)))
        }
        Ok(false) => {
            reader.consume(size);
            Ok(Some(Step::Passed(size)))
        }
        Err(_) => Ok(None),
    }
}

/// Takes the next block into a list, and reads it there.
fn take_in_list<R: BufRead>(
    reader: &mut R,
    track: &mut Track,
    block: &mut Vec<u8>,
    packet: &mut Packet,
) -> Result<Step, CaptureFault>
    ensures taken { IfOk result (λ step. TakesStep step track.old track.new packet.new
        (R.remaining reader.old) (R.remaining reader.new)) }
    ensures fault { IfErr result (λ fault.
        IsNoStep track.old fault (R.remaining reader.old) (R.remaining reader.new)) }
{
    let section = track.section;
    let order = match take_block(reader, order_in(section), block) {
        Ok(Some(order)) => order,
        Ok(None) => return Ok(Step::End),
        Err(fault) => return Err(fault),
    };
    match read_block(track, order, block, packet) {
        Ok(true) => Ok(Step::Packet(block.len())),
        Ok(false) => Ok(Step::Passed(block.len())),
        Err(own) => Err(CaptureFault {
            at: place_of(own),
            reason: told(reader, section, own, block),
        }),
    }
}

/// Takes the next block.
fn take_step<R: BufRead>(
    reader: &mut R,
    track: &mut Track,
    block: &mut Vec<u8>,
    packet: &mut Packet,
) -> Result<Step, CaptureFault>
    ensures taken { IfOk result (λ step. TakesStep step track.old track.new packet.new
        (R.remaining reader.old) (R.remaining reader.new)) }
    ensures fault { IfErr result (λ fault.
        IsNoStep track.old fault (R.remaining reader.old) (R.remaining reader.new)) }
{
    match take_at_hand(reader, track, packet) {
        Ok(Some(step)) => Ok(step),
        Ok(None) => take_in_list(reader, track, block, packet),
        Err(reason) => Err(CaptureFault { at: 0, reason }),
    }
}

/// Takes the next packet of the interface that is wanted, with the blocks before it. False where nothing is left. `block` is
/// used for it.
///
/// # Errors
/// Of the first block that can not be read: `Unfinished` where the input ends within it, `Unknown` where its order of octets
/// can not be told, `Length` and `Long` for its lengths, `Several`, `Options`, `NoEthernet` and `Undescribed` for what
/// it says of interfaces, all at its first octet; `Version` and `Link` at the field that is wrong; `Read` where the reader fails and
/// `NoMemory`, at the octet that could not be taken, or at the first of a packet that could not be kept, or of a second
/// interface that is Ethernet, where those behind it could not be listed. The place is counted from the first octet that was
/// left. What `track` and `packet` then hold says nothing. `Endless` behind 2^64 - 1 blocks without a packet.
pub fn next_packet<R: BufRead>(
    reader: &mut R,
    track: &mut Track,
    block: &mut Vec<u8>,
    packet: &mut Packet,
) -> Result<bool, CaptureFault>
    ensures taken { IfOk result (λ more. Takes more track.old track.new packet.new
        (R.remaining reader.old) (R.remaining reader.new)) }
    ensures fault { IfErr result (λ fault.
        IsNoPacket track.old fault (R.remaining reader.old) (R.remaining reader.new)) }
{
    let mut size: u64 = 0;
    'steps: for _ in 0..u64::MAX {
        match take_step(reader, track, block, packet) {
            Ok(Step::Passed(len)) => size = size.saturating_add(len as u64),
            Ok(Step::Packet(len)) => {
                packet.size = size.saturating_add(len as u64);
                return Ok(true);
            }
            Ok(Step::End) => {
                packet.size = size;
                return Ok(false);
            }
            Err(fault) => {
                return Err(CaptureFault {
                    at: size.saturating_add(fault.at),
                    reason: fault.reason,
                });
            }
        }
    }
    Err(CaptureFault {
        at: u64::MAX,
        reason: Reason::Endless,
    })
}
