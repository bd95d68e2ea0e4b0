//! The packets of a pcap file.

ghost use Rattle.std.specs.Prelude.{◌≡◌, ◌≢◌, ◌≤◌, ◌<◌, ◌+◌, ◌-◌, ◌*◌, ◌++◌, ◌^◌, ◌⊎◌, ℕ, true, false, [], List, length, take, IfOk, IfErr, IfSome, MatchOption, vec_len, vec_capacity};
ghost use Rattle.sr_capture.specs.Taking.{Loses, LosesBelow};
ghost use Rattle.sr_capture.specs.Headers.{IsLack};
ghost use Rattle.sr_capture.specs.Records.{nanoseconds_of, IsHead, TakesBody, TakesPacket, LosesRecord, WasAtEnd, IsNoRecord};

use crate::fault::{CaptureFault, Reason};
use crate::header::{Form, TimeUnit};
use crate::numbers::word_at;
use crate::packet::{Extent, Head, MAX_KEPT, Packet};
use crate::taking::{keep, skip};
use std::io::BufRead;

/// The length of a packet's head.
const HEAD_LEN: usize = 16;

/// How many nanoseconds a unit has.
fn nanoseconds_of(unit: TimeUnit) -> u64
    ensures value { result ≡ nanoseconds_of unit }
    ensures most { result ≤ 1000 }
{
    match unit {
        TimeUnit::Micro => 1000,
        TimeUnit::Nano => 1,
    }
}

/// What the octets of a head say.
fn head_of(form: Form, octets: &[u8]) -> Head
    requires { length octets.now ≡ 16 }
    ensures { IsHead form octets.now result }
{
    let seconds = u64::from(word_at(form.order, octets, 0));
    let fraction = u64::from(word_at(form.order, octets, 4));
    let held = word_at(form.order, octets, 8);
    let len = word_at(form.order, octets, 12);
    Head {
        time: seconds * 1_000_000_000 + fraction * nanoseconds_of(form.unit),
        held,
        extent: if held < len {
            Extent::Cut
        } else {
            Extent::Whole
        },
    }
}

/// Takes the head of a packet. None where nothing is left. `octets` is used for it.
fn take_head<R: BufRead>(
    reader: &mut R,
    form: Form,
    octets: &mut Vec<u8>,
) -> Result<Option<Head>, CaptureFault>
    ensures taken { IfOk result (λ head.
        MatchOption head (WasAtEnd (R.remaining reader.old) (R.remaining reader.new))
        (λ head. (front : List ℕ) × Loses front (R.remaining reader.old) (R.remaining reader.new)
        × IsHead form front head)) }
    ensures fault { IfErr result (λ fault.
        IsNoRecord form fault (R.remaining reader.old) (R.remaining reader.new)) }
    ensures few { vec_len octets.new ≤ 16 }
    ensures room { 16 ≤ vec_capacity octets.old
        → IfErr result (λ fault. fault.reason ≢ Reason.NoMemory) }
    ensures capacity { vec_capacity octets.old ≤ vec_capacity octets.new }
{
    match keep(reader, HEAD_LEN, octets) {
        Ok(true) => Ok(Some(head_of(form, octets))),
        Ok(false) => {
            if octets.is_empty() {
                return Ok(None);
            }
            Err(CaptureFault {
                at: 0,
                reason: Reason::Unfinished,
            })
        }
        Err(reason) => Err(CaptureFault {
            at: octets.len() as u64,
            reason,
        }),
    }
}

/// How many octets of a packet are wanted: those before the check sequence.
fn wanted_of(form: Form, head: Head) -> u32
    ensures { result ≡ head.held - form.check_len }
{
    head.held.saturating_sub(u32::from(form.check_len))
}

/// How many octets are kept of so many: all, or none where no frame is as long.
fn kept_of(wanted: u32) -> usize
    ensures few { result ≤ wanted }
    ensures frame { result ≤ 1524 }
    ensures all { wanted ≤ 1524 → result ≡ wanted }
{
    let wanted = wanted as usize;
    if wanted <= MAX_KEPT { wanted } else { 0 }
}

/// Takes the body of a packet, and keeps what is wanted of it, if a frame can be as long. False where the input ends before.
///
/// # Errors
/// `Read` where the reader fails, `NoMemory`; counted from the first octet of the body.
fn take_body<R: BufRead>(
    reader: &mut R,
    held: u32,
    wanted: u32,
    kept: &mut Vec<u8>,
) -> Result<bool, CaptureFault>
    requires { wanted ≤ held }
    ensures taken { IfOk result (λ whole. TakesBody whole held wanted kept.new.items
        (R.remaining reader.old) (R.remaining reader.new)) }
    ensures fault { IfErr result (λ fault.
        IsLack fault.reason × ((octets : List ℕ) × (length octets ≡ fault.at)
        × LosesBelow held octets (R.remaining reader.old) (R.remaining reader.new))) }
    ensures few { vec_len kept.new ≤ 1524 }
    ensures room { 1524 ≤ vec_capacity kept.old
        → IfErr result (λ fault. fault.reason ≡ Reason.Read) }
    ensures capacity { vec_capacity kept.old ≤ vec_capacity kept.new }
{
    let near = kept_of(wanted);
    match keep(reader, near, kept) {
        Ok(true) => {}
        Ok(false) => return Ok(false),
        Err(reason) => {
            return Err(CaptureFault {
                at: kept.len() as u64,
                reason,
            });
        }
    }
    let far = u64::from(held) - near as u64;
    match skip(reader, far) {
        Ok(skipped) if skipped < far => Ok(false),
        Ok(_) => Ok(true),
        Err(skipped) => Err(CaptureFault {
            at: near as u64 + skipped,
            reason: Reason::Read,
        }),
    }
}

/// The head of the packet at the front of these octets, where they have all of it.
fn head_at_hand(form: Form, octets: &[u8]) -> Option<Head>
    ensures { IfSome result (λ head.
        IsHead form (take 16 octets.now) head × (16 + head.held ≤ length octets.now)) }
{
    if octets.len() < HEAD_LEN {
        return None;
    }
    let head = head_of(form, &octets[..HEAD_LEN]);
    if octets.len() - HEAD_LEN < head.held as usize {
        return None;
    }
    Some(head)
}

/// Takes the next packet where the reader has all of it at hand, and the list has room for it. False where it is not so, and then
/// nothing is taken.
///
/// # Errors
/// `Read` where the reader fails.
// speed: D-capture-at-hand
fn take_at_hand<R: BufRead>(reader: &mut R, form: Form, packet: &mut Packet) -> Result<bool, Reason>
    ensures taken { IfOk result (λ taken. taken ≡ true
        → LosesRecord form packet.new (R.remaining reader.old) (R.remaining reader.new)) }
    ensures left { IfOk result (λ taken. taken ≡ false
        → Loses [] (R.remaining reader.old) (R.remaining reader.new)) }
    ensures err { IfErr result (λ reason. (reason ≡ Reason.Read)
        × Loses [] (R.remaining reader.old) (R.remaining reader.new)) }
    ensures few { vec_len packet.new.octets ≤ 1524 }
    ensures capacity { vec_capacity packet.old.octets ≤ vec_capacity packet.new.octets }
{
    packet.octets.clear();
    let Ok(available) = reader.fill_buf() else {
        return Err(Reason::Read);
    };
    let Some(head) = head_at_hand(form, available) else {
        return Ok(false);
    };
    let wanted = wanted_of(form, head);
    let near = kept_of(wanted);
    if packet.octets.capacity() < near {
        return Ok(false);
    }
    packet
        .octets
        .extend_from_slice(&available[HEAD_LEN..HEAD_LEN + near])
        .unwrap();
    let size = HEAD_LEN + head.held as usize;
    reader.consume(size);
    packet.time = head.time;
    packet.extent = head.extent;
    packet.len = u64::from(wanted);
    packet.size = size as u64;
    Ok(true)
}

/// Takes the next packet, its head first and then its body.
///
/// # Errors
/// Those of `next_packet`.
fn take_in_parts<R: BufRead>(
    reader: &mut R,
    form: Form,
    packet: &mut Packet,
) -> Result<bool, CaptureFault>
    ensures taken { IfOk result (λ more.
        TakesPacket more form packet.new (R.remaining reader.old) (R.remaining reader.new)) }
    ensures fault { IfErr result (λ fault.
        IsNoRecord form fault (R.remaining reader.old) (R.remaining reader.new)) }
    ensures few { vec_len packet.new.octets ≤ 1524 }
    ensures room { 1524 ≤ vec_capacity packet.old.octets
        → IfErr result (λ fault. fault.reason ≢ Reason.NoMemory) }
    ensures capacity { vec_capacity packet.old.octets ≤ vec_capacity packet.new.octets }
{
    let Some(head) = take_head(reader, form, &mut packet.octets)? else {
        return Ok(false);
    };
    let wanted = wanted_of(form, head);
    match take_body(reader, head.held, wanted, &mut packet.octets) {
        Ok(true) => {
            packet.time = head.time;
            packet.extent = head.extent;
            packet.len = u64::from(wanted);
            packet.size = HEAD_LEN as u64 + u64::from(head.held);
            Ok(true)
        }
        Ok(false) => Err(CaptureFault {
            at: 0,
            reason: Reason::Unfinished,
        }),
        Err(fault) => Err(CaptureFault {
            at: HEAD_LEN as u64 + fault.at,
            reason: fault.reason,
        }),
    }
}

/// Takes the next packet. False where nothing is left. A packet whose list has room for 1524 octets takes no memory.
///
/// # Errors
/// `Unfinished` where the input ends within a packet, at 0; `Read` where the reader fails and `NoMemory`, at the octet that
/// could not be taken. The place is counted from the first octet of the packet. What `packet` then holds says nothing.
pub fn next_packet<R: BufRead>(
    reader: &mut R,
    form: Form,
    packet: &mut Packet,
) -> Result<bool, CaptureFault>
    ensures taken { IfOk result (λ more.
        TakesPacket more form packet.new (R.remaining reader.old) (R.remaining reader.new)) }
    ensures fault { IfErr result (λ fault.
        IsNoRecord form fault (R.remaining reader.old) (R.remaining reader.new)) }
    ensures few { vec_len packet.new.octets ≤ 1524 }
    ensures room { 1524 ≤ vec_capacity packet.old.octets
        → IfErr result (λ fault. fault.reason ≢ Reason.NoMemory) }
    ensures capacity { vec_capacity packet.old.octets ≤ vec_capacity packet.new.octets }
{
    match take_at_hand(reader, form, packet) {
        Ok(true) => Ok(true),
        Ok(false) => take_in_parts(reader, form, packet),
        Err(reason) => Err(CaptureFault { at: 0, reason }),
    }
}
