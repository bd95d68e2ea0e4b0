//! Statistics of interfaces: how many packets their recorder dropped.

ghost use Rattle.std.specs.Prelude.{◌≡◌, ◌≤◌, length, None, true};
ghost use Rattle.sr_pcapng.specs.Statistics.{counts_drops, is_end, option_len, is_option, with_option, drops_in, dropped_in};

use crate::body::of_number;
use crate::options::{HEAD_LEN, long_at, padded};
use crate::track::Section;
use sr_capture::{ByteOrder, half_at, word_at};

/// The length of a block of statistics without options.
const MIN_LEN: usize = 24;

/// Where its options begin.
const OPTIONS_AT: usize = 20;

/// The length of the length at the end of a block.
const TAIL_LEN: usize = 4;

/// The options that count dropped packets: by the interface, and by the operating system.
const BY_INTERFACE: u16 = 5;

const BY_SYSTEM: u16 = 7;

/// The length of a count.
const COUNT_LEN: u16 = 8;

/// Whether an option of this code counts dropped packets.
fn counts_drops(code: u16) -> bool
    ensures { result ≡ counts_drops code }
{
    code == BY_INTERFACE || code == BY_SYSTEM
}

/// Whether options end here.
fn is_end(order: ByteOrder, octets: &[u8]) -> bool
    ensures { result ≡ is_end order octets.now }
{
    if octets.len() < HEAD_LEN {
        octets.is_empty()
    } else {
        half_at(order, octets, 0) == 0
    }
}

/// The length of an option by its head.
fn option_len(order: ByteOrder, octets: &[u8]) -> usize
    requires { 4 ≤ length octets.now }
    ensures { result ≡ option_len order octets.now }
{
    HEAD_LEN + padded(u32::from(half_at(order, octets, 2))) as usize
}

/// Whether an option stands in front.
fn is_option(order: ByteOrder, octets: &[u8]) -> bool
    ensures { result ≡ is_option order octets.now }
{
    if octets.len() < HEAD_LEN {
        return false;
    }
    if counts_drops(half_at(order, octets, 0)) && half_at(order, octets, 2) != COUNT_LEN {
        return false;
    }
    octets.len() >= option_len(order, octets)
}

/// How many packets are known to be dropped behind an option.
fn with_option(order: ByteOrder, octets: &[u8], known: Option<u64>) -> Option<u64>
    requires { is_option order octets.now ≡ true }
    ensures { result ≡ with_option order octets.now known }
{
    if !counts_drops(half_at(order, octets, 0)) {
        return known;
    }
    let count = long_at(order, octets, HEAD_LEN);
    Some(known.unwrap_or(0).saturating_add(count))
}

/// How many packets options count as dropped. None where they count none, or are cut.
fn drops_in(order: ByteOrder, octets: &[u8]) -> Option<u64>
    ensures { result ≡ drops_in (length octets.now) order octets.now None }
{
    let mut rest = octets;
    let mut known = None;
    while !is_end(order, rest) {
        if !is_option(order, rest) {
            return None;
        }
        known = with_option(order, rest, known);
        rest = &rest[option_len(order, rest)..];
    }
    known
}

/// How many packets statistics say were dropped of the interface that is wanted.
pub(crate) fn dropped_in(section: &Section, octets: &[u8]) -> Option<u64>
    ensures { result ≡ dropped_in section.now octets.now }
{
    if octets.len() < MIN_LEN {
        return None;
    }
    match of_number(section.taken, word_at(section.order, octets, 8)) {
        Some(_) => drops_in(section.order, &octets[OPTIONS_AT..octets.len() - TAIL_LEN]),
        None => None,
    }
}
