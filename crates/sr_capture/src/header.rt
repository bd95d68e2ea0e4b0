//! The header of a pcap file.

ghost use Rattle.std.specs.Prelude.{◌≡◌, ◌≢◌, ◌≤◌, ◌<◌, ◌+◌, ◌*◌, ◌%◌, ◌^◌, ◌↔◌, ℕ, List, length, IfOk, IfErr, IfSome, IfNone, IsTrue, vec_capacity};
ghost use Rattle.sr_capture.specs.Headers.{HasMagic, HasVersion, IsHeader, IsCompressed, IsRefused, check_len_of, place_of, IsNoHeader, LosesHeader};

use crate::fault::{CaptureFault, Reason};
use crate::numbers::{ByteOrder, half_at, word_at};
use crate::taking::keep;
use std::io::BufRead;

/// The length of the header.
pub const HEADER_LEN: usize = 24;

/// The link type of Ethernet.
const ETHERNET: u16 = 1;

/// The unit of the second part of a packet's time.
#[derive(Clone, Copy, Debug, PartialEq, Eq)]
pub enum TimeUnit {
    /// Microseconds.
    Micro,
    /// Nanoseconds.
    Nano,
}

/// What the header of a capture says of its packets.
#[derive(Clone, Copy, Debug, PartialEq, Eq)]
pub struct Form {
    /// The order of the octets of numbers.
    pub order: ByteOrder,
    /// The unit of times.
    pub unit: TimeUnit,
    /// How many octets of check sequence stand behind each packet.
    pub check_len: u8,
}

/// Whether octets begin as what gzip writes.
fn is_compressed(octets: &[u8]) -> bool
    ensures { IsTrue result ↔ IsCompressed octets.now }
{
    octets.len() >= 2 && octets[0] == 0x1F && octets[1] == 0x8B
}

/// The order and the unit that the magic number tells.
fn magic(octets: &[u8]) -> Option<(ByteOrder, TimeUnit)>
    ensures found { IfSome result (λ m. HasMagic octets.now m.0 m.1) }
    ensures none { IfNone result ((order : ByteOrder) (unit : TimeUnit)
        → HasMagic octets.now order unit → ⊥) }
{
    if octets.len() < 4 {
        return None;
    }
    match word_at(ByteOrder::Big, octets, 0) {
        0xA1B2_C3D4 => Some((ByteOrder::Big, TimeUnit::Micro)),
        0xA1B2_3C4D => Some((ByteOrder::Big, TimeUnit::Nano)),
        0xD4C3_B2A1 => Some((ByteOrder::Little, TimeUnit::Micro)),
        0x4D3C_B2A1 => Some((ByteOrder::Little, TimeUnit::Nano)),
        _ => None,
    }
}

/// Whether the version is 2.4.
fn has_version(order: ByteOrder, octets: &[u8]) -> bool
    requires { 24 ≤ length octets.now }
    ensures { IsTrue result ↔ HasVersion octets.now order }
{
    half_at(order, octets, 4) == 2 && half_at(order, octets, 6) == 4
}

/// How many octets of check sequence a link type tells.
fn check_len_of(link: u32) -> u8
    ensures { result ≡ check_len_of link }
{
    if link / 0x0400_0000 % 2 == 1 {
        (2 * (link / 0x1000_0000)) as u8
    } else {
        0
    }
}

/// The form that a header tells, of the octets at the front of a file: 24, or all that there are.
fn form_of(octets: &[u8]) -> Result<Form, Reason>
    requires { length octets.now ≤ 24 }
    ensures found { IfOk result (λ form. IsHeader octets.now form) }
    ensures refused { IfErr result (λ reason. IsRefused octets.now reason) }
{
    if is_compressed(octets) {
        return Err(Reason::Compressed);
    }
    let Some((order, unit)) = magic(octets) else {
        return Err(Reason::Unknown);
    };
    if octets.len() < HEADER_LEN {
        return Err(Reason::Short);
    }
    if !has_version(order, octets) {
        return Err(Reason::Version);
    }
    let word = word_at(order, octets, 20);
    let link = (word % 0x1_0000) as u16;
    if link != ETHERNET {
        return Err(Reason::Link(link));
    }
    Ok(Form {
        order,
        unit,
        check_len: check_len_of(word),
    })
}

/// The offset of the field that is wrong.
fn place_of(reason: Reason) -> u64
    ensures { result ≡ place_of reason }
{
    match reason {
        Reason::Version => 4,
        Reason::Link(_) => 20,
        _ => 0,
    }
}

/// Reads the header of a pcap file. `octets` is used for it.
///
/// # Errors
/// `Compressed`, `Unknown`, `Short`, `Version` or `Link` for what is no header of a capture of Ethernet, the first of
/// them that fits, at the field that is wrong; `Read` where the reader fails and `NoMemory`, at the octet that could not be
/// taken.
pub fn read_header<R: BufRead>(reader: &mut R, octets: &mut Vec<u8>) -> Result<Form, CaptureFault>
    ensures found { IfOk result (λ form.
        LosesHeader form (R.remaining reader.old) (R.remaining reader.new)) }
    ensures refused { IfErr result (λ fault.
        IsNoHeader fault (R.remaining reader.old) (R.remaining reader.new)) }
    ensures room { 24 ≤ vec_capacity octets.old
        → IfErr result (λ fault. fault.reason ≢ Reason.NoMemory) }
{
    match keep(reader, HEADER_LEN, octets) {
        Ok(_) => {}
        Err(reason) => {
            return Err(CaptureFault {
                at: octets.len() as u64,
                reason,
            });
        }
    }
    match form_of(octets) {
        Ok(form) => Ok(form),
        Err(reason) => Err(CaptureFault {
            at: place_of(reason),
            reason,
        }),
    }
}
