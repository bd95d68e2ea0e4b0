//! Octets written as hexadecimal digits, sixteen or eight octets at a time, and fewer by the kit.

ghost use Rattle.std.specs.Prelude.{◌≡◌, ◌+◌, ◌*◌, ◌≤◌, ◌<◌, ◌++◌, length, OnOk, OnErr, slice_index, ◌^◌};
ghost use Rattle.hex.specs.Hex.{encode_lower};
ghost use Rattle.sr_hex.specs.Values.{AreWritten, AreKept};

use crate::vectors::{digits_of, in_turn_first, in_turn_last, load, lower, store, upper};
use std::alloc::AllocError;

/// Writes the digits of sixteen octets from a place on.
// speed: D-hex-blocks
#[inline(always)]
fn write_block(octets: &[u8], at: usize, digits: &mut [u8])
    requires pairs { length digits.old ≡ 2 * length octets.now }
    requires within { at + 16 ≤ length octets.now }
    ensures long { length digits.new ≡ length digits.old }
    ensures written { AreWritten octets.now digits.new at (at + 16) }
    ensures kept { AreKept digits.old digits.new (2 * at) }
{
    let block = load(octets, at);
    let high = digits_of(upper(block));
    let low = digits_of(lower(block));
    store(in_turn_first(high, low), digits, 2 * at);
    store(in_turn_last(high, low), digits, 2 * at + 16);
}

/// Writes the digits of eight octets from a place on.
// speed: D-hex-blocks
#[inline(always)]
fn write_half(octets: &[u8], at: usize, digits: &mut [u8])
    requires pairs { length digits.old ≡ 2 * length octets.now }
    requires within { at + 8 ≤ length octets.now }
    ensures long { length digits.new ≡ length digits.old }
    ensures written { AreWritten octets.now digits.new at (at + 8) }
    ensures kept { AreKept digits.old digits.new (2 * at) }
{
    let mut half = [0; 16];
    half[..8].copy_from_slice(&octets[at..at + 8]);
    let block = load(&half, 0);
    let high = digits_of(upper(block));
    let low = digits_of(lower(block));
    store(in_turn_first(high, low), digits, 2 * at);
}

/// Writes the digits of eight to sixteen octets, of eight at a time. Those of the last eight may be written twice.
fn write_halves(octets: &[u8], digits: &mut [u8])
    requires pairs { length digits.old ≡ 2 * length octets.now }
    requires enough { 8 ≤ length octets.now }
    requires few { length octets.now ≤ 16 }
    ensures { digits.new ≡ encode_lower octets.now }
{
    write_half(octets, 0, digits);
    write_half(octets, octets.len() - 8, digits);
}

/// Writes the digits of sixteen octets or more, of sixteen at a time. Those of the last sixteen may be written twice.
fn write_blocks(octets: &[u8], digits: &mut [u8])
    requires pairs { length digits.old ≡ 2 * length octets.now }
    requires enough { 16 ≤ length octets.now }
    ensures { digits.new ≡ encode_lower octets.now }
{
    let last = octets.len() - 16;
    let mut at = 0;

    // Two blocks a turn, since what they compare with is had once for both.
    while at + 16 < last {
        write_block(octets, at, digits);
        write_block(octets, at + 16, digits);
        at += 32;
    }
    if at < last {
        write_block(octets, at, digits);
        at += 16;
    }
    write_block(octets, last, digits);
}

/// Writes the digits of octets in lower case, two each.
pub fn write_hex(octets: &[u8], digits: &mut [u8])
    requires { length digits.old ≡ 2 * length octets.now }
    ensures { digits.new ≡ encode_lower octets.now }
{
    match octets.len() {
        0..8 => hex::encode_to_slice(octets, digits).unwrap(),
        8..16 => write_halves(octets, digits),
        _ => write_blocks(octets, digits),
    }
}

/// Appends octets as hexadecimal digits of lower case, two each.
pub fn append_hex(text: &mut Vec<u8>, octets: &[u8]) -> Result<(), AllocError>
    requires { length octets.now < 2 ^ 32 }
    ensures ok { OnOk result (text.new.items ≡ text.old.items ++ encode_lower octets.now) }
    ensures same { OnErr result (text.new.items ≡ text.old.items) }
{
    let start = text.len();
    text.resize(start + 2 * octets.len(), 0)?;
    write_hex(octets, &mut text[start..]);
    Ok(())
}
