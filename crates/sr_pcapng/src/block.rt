//! The blocks of a file.

ghost use Rattle.std.specs.Prelude.{◌≡◌, ◌≢◌, ◌≤◌, ◌^◌, ℕ, List, length, vec_capacity, IfOk, IfErr, IfSome, IfNone, MatchOption};
ghost use Rattle.sr_capture.specs.Taking.{Loses};
ghost use Rattle.sr_capture.specs.Records.{WasAtEnd};
ghost use Rattle.sr_pcapng.specs.Blocks.{kind_of, numbered, HasOrder, IsSize, IsWrongSize, BeginsBlock, BeginsNone, IsBlock, IsAtHand, IsNoBlock};

use sr_capture::{ByteOrder, CaptureFault, Reason, fill, keep, word_at};
use std::io::BufRead;

/// The length of the front of a block: its type, its length, and four octets more, which tell the order of a section.
const FRONT_LEN: usize = 12;

/// The most octets of a block.
const MAX_LEN: u32 = 0x100_0000;

/// The type of a section header; it reads alike in both orders.
const SECTION_HEADER: u32 = 0x0A0D_0D0A;

/// What a block is.
#[derive(Clone, Copy, PartialEq, Eq)]
pub(crate) enum Kind {
    /// It begins a section.
    Section,
    /// It describes an interface.
    Interface,
    /// A packet with its interface and its time.
    Enhanced,
    /// What an enhanced packet was before the format had one.
    Obsolete,
    /// A packet of interface 0.
    Simple,
    /// What was counted of an interface.
    Statistics,
    /// Anything else.
    Other,
}

/// The kind of a type that is not a section header's.
fn numbered(number: u32) -> Kind
    ensures { result ≡ numbered number }
{
    match number {
        1 => Kind::Interface,
        6 => Kind::Enhanced,
        2 => Kind::Obsolete,
        3 => Kind::Simple,
        5 => Kind::Statistics,
        _ => Kind::Other,
    }
}

/// What kind of block begins so.
pub(crate) fn kind_of(order: ByteOrder, octets: &[u8]) -> Kind
    requires { 12 ≤ length octets.now }
    ensures { result ≡ kind_of order octets.now }
{
    if word_at(ByteOrder::Big, octets, 0) == SECTION_HEADER {
        Kind::Section
    } else {
        numbered(word_at(order, octets, 0))
    }
}

/// The order of octets of a block that begins so, where that of its section is `own`.
fn order_of(own: Option<ByteOrder>, octets: &[u8]) -> Option<ByteOrder>
    requires { 12 ≤ length octets.now }
    ensures found { IfSome result (λ order. HasOrder own octets.now order) }
    ensures none { IfNone result ((order : ByteOrder) → HasOrder own octets.now order → ⊥) }
{
    if word_at(ByteOrder::Big, octets, 0) != SECTION_HEADER {
        return own;
    }
    match word_at(ByteOrder::Big, octets, 8) {
        0x1A2B_3C4D => Some(ByteOrder::Big),
        0x4D3C_2B1A => Some(ByteOrder::Little),
        _ => None,
    }
}

/// The length that the front of a block tells.
fn size_of(order: ByteOrder, octets: &[u8]) -> Result<usize, Reason>
    requires { 12 ≤ length octets.now }
    ensures found { IfOk result (λ size. IsSize order octets.now size) }
    ensures refused { IfErr result (λ reason. IsWrongSize order octets.now reason) }
{
    let size = word_at(order, octets, 4);
    if size < FRONT_LEN as u32 || size % 4 != 0 {
        return Err(Reason::Length);
    }
    if size > MAX_LEN {
        return Err(Reason::Long);
    }
    Ok(size as usize)
}

/// The order and the length of a block that begins so.
fn front_of(own: Option<ByteOrder>, octets: &[u8]) -> Result<(ByteOrder, usize), Reason>
    requires { 12 ≤ length octets.now }
    ensures found { IfOk result (λ front. BeginsBlock own octets.now front.0 front.1) }
    ensures refused { IfErr result (λ reason. BeginsNone own octets.now reason) }
{
    let Some(order) = order_of(own, octets) else {
        return Err(Reason::Unknown);
    };
    match size_of(order, octets) {
        Ok(size) => Ok((order, size)),
        Err(reason) => Err(reason),
    }
}

/// The enhanced packet at the front of these octets, in a section of this order, where they have all of its block.
// speed: D-capture-at-hand
pub(crate) fn enhanced_at_hand(order: ByteOrder, octets: &[u8]) -> Option<&[u8]>
    ensures { IfSome result (λ block. IsAtHand order octets.now block.now) }
{
    if octets.len() < FRONT_LEN {
        return None;
    }
    let Kind::Enhanced = kind_of(order, octets) else {
        return None;
    };
    let Ok(size) = size_of(order, octets) else {
        return None;
    };
    if octets.len() < size {
        return None;
    }
    if word_at(order, octets, size - 4) as usize != size {
        return None;
    }
    Some(&octets[..size])
}

/// Takes the front of a block, and tells its order and its length. None where nothing is left.
fn take_front<R: BufRead>(
    reader: &mut R,
    own: Option<ByteOrder>,
    block: &mut Vec<u8>,
) -> Result<Option<(ByteOrder, usize)>, CaptureFault>
    ensures taken { IfOk result (λ found.
        MatchOption found (WasAtEnd (R.remaining reader.old) (R.remaining reader.new))
        (λ front. Loses block.new.items (R.remaining reader.old) (R.remaining reader.new)
        × BeginsBlock own block.new.items front.0 front.1 × (length block.new.items ≡ 12))) }
    ensures fault { IfErr result (λ fault.
        IsNoBlock own fault (R.remaining reader.old) (R.remaining reader.new)) }
    ensures room { 2 ^ 24 ≤ vec_capacity block.old
        → IfErr result (λ fault. fault.reason ≢ Reason.NoMemory) }
    ensures capacity { vec_capacity block.old ≤ vec_capacity block.new }
{
    match keep(reader, FRONT_LEN, block) {
        Ok(true) => {}
        Ok(false) => {
            if block.is_empty() {
                return Ok(None);
            }
            return Err(CaptureFault {
                at: 0,
                reason: Reason::Unfinished,
            });
        }
        Err(reason) => {
            return Err(CaptureFault {
                at: block.len() as u64,
                reason,
            });
        }
    }
    match front_of(own, block) {
        Ok(front) => Ok(Some(front)),
        Err(reason) => Err(CaptureFault { at: 0, reason }),
    }
}

/// Takes the next block into `block`, and tells its order of octets, where that of its section is `own`. None where nothing
/// is left. A list with room for 16 MiB takes no memory.
///
/// # Errors
/// `Unfinished` where the input ends within the block, `Unknown` where the order can not be told, `Length` and `Long` for
/// its length, all at 0; `Read` where the reader fails and `NoMemory`, at the octet that could not be taken. The place is
/// counted from the first octet of the block.
pub(crate) fn take_block<R: BufRead>(
    reader: &mut R,
    own: Option<ByteOrder>,
    block: &mut Vec<u8>,
) -> Result<Option<ByteOrder>, CaptureFault>
    ensures taken { IfOk result (λ found.
        MatchOption found (WasAtEnd (R.remaining reader.old) (R.remaining reader.new))
        (λ order. Loses block.new.items (R.remaining reader.old) (R.remaining reader.new)
        × IsBlock own block.new.items order)) }
    ensures fault { IfErr result (λ fault.
        IsNoBlock own fault (R.remaining reader.old) (R.remaining reader.new)) }
    ensures room { 2 ^ 24 ≤ vec_capacity block.old
        → IfErr result (λ fault. fault.reason ≢ Reason.NoMemory) }
    ensures capacity { vec_capacity block.old ≤ vec_capacity block.new }
{
    let Some((order, size)) = take_front(reader, own, block)? else {
        return Ok(None);
    };
    match fill(reader, size, block) {
        Ok(true) => {}
        Ok(false) => {
            return Err(CaptureFault {
                at: 0,
                reason: Reason::Unfinished,
            });
        }
        Err(reason) => {
            return Err(CaptureFault {
                at: block.len() as u64,
                reason,
            });
        }
    }
    if word_at(order, block, size - 4) as usize != size {
        return Err(CaptureFault {
            at: 0,
            reason: Reason::Length,
        });
    }
    Ok(Some(order))
}
