//! Octets read from hexadecimal digits, thirty-two digits at a time, and fewer by the kit.

ghost use Rattle.std.specs.Prelude.{◌≡◌, ◌↔◌, ◌+◌, ◌*◌, ◌/◌, ◌≤◌, ◌<◌, ℕ, IsTrue, IsErr, IfSome, MatchBool, length, slice_index, take, min};
ghost use Rattle.std.specs.List.{AllPass};
ghost use Rattle.hex.specs.Hex.{decode_of, is_hex_digit};
ghost use Rattle.sr_hex.specs.Lanes.{HasLanes};
ghost use Rattle.sr_hex.specs.Values.{AreSpelled, AreDigits, AreKept, AreSmall, IsDigitFront, IsEndAt, IsReadTo, IsReadUpTo, value_of};

use crate::vectors::{
    are_small, larger, letters, load, numbers, octets_of, small_front, smaller, store,
};
use std::simd::prelude::*;

/// The values of digits; 16 or more where a code is none.
#[inline(always)]
fn values(codes: u8x16) -> u8x16
    ensures { HasLanes result (λ i. value_of (slice_index codes i)) }
{
    smaller(numbers(codes), letters(codes))
}

/// Small where both are.
#[inline(always)]
fn both(a: u8x16, b: u8x16) -> u8x16
    ensures { AreSmall result ↔ (AreSmall a × AreSmall b) }
{
    larger(a, b)
}

/// Reads sixteen octets from a place on. The results are the values of their digits.
// speed: D-hex-blocks
#[inline(always)]
fn read_block(digits: &[u8], at: usize, octets: &mut [u8]) -> (u8x16, u8x16)
    requires whole { 2 * at + 32 ≤ length digits.now }
    requires within { at + 16 ≤ length octets.old }
    ensures long { length octets.new ≡ length octets.old }
    ensures spelled { AreSpelled digits.now octets.new at (at + 16) }
    ensures kept { AreKept octets.old octets.new at }
    ensures first { HasLanes result.0 (λ i. value_of (slice_index digits.now (2 * at + i))) }
    ensures second { HasLanes result.1 (λ i. value_of (slice_index digits.now (2 * at + 16 + i))) }
{
    let first = values(load(digits, 2 * at));
    let second = values(load(digits, 2 * at + 16));
    store(octets_of(first, second), octets, at);
    (first, second)
}

/// Reads sixteen octets from a place on. The result is small where all of their digits are digits.
// speed: D-hex-blocks
#[inline(always)]
fn read_digits(digits: &[u8], at: usize, octets: &mut [u8]) -> u8x16
    requires pairs { length digits.now ≡ 2 * length octets.old }
    requires within { at + 16 ≤ length octets.old }
    ensures long { length octets.new ≡ length octets.old }
    ensures spelled { AreSpelled digits.now octets.new at (at + 16) }
    ensures kept { AreKept octets.old octets.new at }
    ensures small { AreSmall result ↔ AreDigits digits.now (2 * at) (2 * (at + 16)) }
{
    let (first, second) = read_block(digits, at, octets);
    both(first, second)
}

/// Reads sixteen octets from a place on. The result is the place of the first octet of the text from there on that is no digit;
/// None where all thirty-two are digits.
// speed: D-hex-blocks
#[inline(always)]
fn read_up_to(text: &[u8], at: usize, octets: &mut [u8]) -> Option<usize>
    requires whole { 2 * at + 32 ≤ length text.now }
    requires within { at + 16 ≤ length octets.old }
    ensures long { length octets.new ≡ length octets.old }
    ensures spelled { AreSpelled text.now octets.new at (at + 16) }
    ensures kept { AreKept octets.old octets.new at }
    ensures end { IfSome result (λ end. IsEndAt text.now (2 * at) end) }
    ensures none { result ≡ None → AreDigits text.now (2 * at) (2 * (at + 16)) }
{
    let (first, second) = read_block(text, at, octets);
    if are_small(both(first, second)) {
        return None;
    }
    let count = small_front(first);
    if count < 16 {
        return Some(2 * at + count);
    }
    Some(2 * at + 16 + small_front(second))
}

/// Reads sixteen octets or more, sixteen at a time. Of the last sixteen some may have been read before.
// speed: D-hex-blocks
fn read_blocks(digits: &[u8], octets: &mut [u8]) -> bool
    requires pairs { length digits.now ≡ 2 * length octets.old }
    requires enough { 16 ≤ length octets.old }
    ensures { MatchBool result (decode_of digits.now ≡ Ok octets.new)
        (IsErr (decode_of digits.now)) }
{
    let last = octets.len() - 16;
    let mut worst = u8x16::splat(0);
    let mut at = 0;
    while at < last {
        worst = both(worst, read_digits(digits, at, octets));
        at += 16;
    }
    are_small(both(worst, read_digits(digits, last, octets)))
}

/// Reads sixty-four octets from a place on, sixteen at a time, up to the first octet of the text from there on that is no digit. The
/// result is the place of that octet; None where all hundred and twenty-eight are digits.
// speed: D-hex-blocks. Four steps in a row, since what they compare with is had once for all.
#[inline(always)]
fn read_four(text: &[u8], at: usize, octets: &mut [u8]) -> Option<usize>
    requires whole { 2 * at + 128 ≤ length text.now }
    requires within { at + 64 ≤ length octets.old }
    ensures long { length octets.new ≡ length octets.old }
    ensures kept { AreKept octets.old octets.new at }
    ensures end { IfSome result (λ end. IsReadUpTo text.now octets.new at end) }
    ensures none { result ≡ None → IsReadTo text.now octets.old octets.new at (at + 64) }
{
    if let Some(end) = read_up_to(text, at, octets) {
        return Some(end);
    }
    if let Some(end) = read_up_to(text, at + 16, octets) {
        return Some(end);
    }
    if let Some(end) = read_up_to(text, at + 32, octets) {
        return Some(end);
    }
    read_up_to(text, at + 48, octets)
}

/// Writes the octets that the digits at the front of a text spell, two digits each, up to the first octet of the text that is no
/// digit. The answer is how many octets stand before that; a last digit without a second one spells nothing.
///
/// The text is read in steps of thirty-two octets, of which as many are read as are whole and `octets` has room for. None where
/// all octets of these steps are digits.
pub fn read_front(text: &[u8], octets: &mut [u8]) -> Option<usize>
    ensures long { length octets.new ≡ length octets.old }
    ensures found { IfSome result (λ count. IsDigitFront text.now count) }
    ensures spelled { IfSome result (λ count. decode_of (take (2 * (count / 2)) text.now)
        ≡ Ok (take (count / 2) octets.new)) }
    ensures room { IfSome result (λ count. count / 2 ≤ length octets.new) }
    ensures none { result ≡ None → AllPass is_hex_digit
        (take (32 * min (length text.now / 32) (length octets.old / 16)) text.now) }
{
    let mut at = 0;
    while text.len() / 2 >= at + 64 && octets.len() >= at + 64 {
        if let Some(end) = read_four(text, at, octets) {
            return Some(end);
        }
        at += 64;
    }
    while text.len() / 2 >= at + 16 && octets.len() >= at + 16 {
        if let Some(end) = read_up_to(text, at, octets) {
            return Some(end);
        }
        at += 16;
    }
    None
}

/// The values of sixteen octets from a place on. They are small where all of these octets are digits.
#[inline(always)]
fn values_at(octets: &[u8], at: usize) -> u8x16
    requires { at + 16 ≤ length octets.now }
    ensures { AreSmall result ↔ AreDigits octets.now at (at + 16) }
{
    values(load(octets, at))
}

/// Whether sixteen octets or more are digits, looked at sixteen at a time. Of the last sixteen some may have been looked at before.
fn are_blocks_digits(octets: &[u8]) -> bool
    requires { 16 ≤ length octets.now }
    ensures { IsTrue result ↔ AllPass is_hex_digit octets.now }
{
    let last = octets.len() - 16;
    let mut worst = values_at(octets, last);
    let mut at = 0;
    while at < last {
        worst = both(worst, values_at(octets, at));
        at += 16;
    }
    are_small(worst)
}

/// Whether fewer than sixteen octets are digits, looked at as a block that the digit 0 fills.
fn are_few_digits(octets: &[u8]) -> bool
    requires { length octets.now < 16 }
    ensures { IsTrue result ↔ AllPass is_hex_digit octets.now }
{
    let mut block = [b'0'; 16];
    block[..octets.len()].copy_from_slice(octets);
    are_small(values_at(&block, 0))
}

/// Whether all octets are hexadecimal digits of either case.
pub fn are_digits(octets: &[u8]) -> bool
    ensures { IsTrue result ↔ AllPass is_hex_digit octets.now }
{
    if octets.len() < 16 {
        are_few_digits(octets)
    } else {
        are_blocks_digits(octets)
    }
}

/// Writes the octets that digits of either case spell, two digits each. False where one is no digit: what is written
/// then says nothing.
pub fn read_hex(digits: &[u8], octets: &mut [u8]) -> bool
    requires { length digits.now ≡ 2 * length octets.old }
    ensures { MatchBool result (decode_of digits.now ≡ Ok octets.new)
        (IsErr (decode_of digits.now)) }
{
    if octets.len() < 16 {
        hex::decode_to_slice(digits, octets).is_ok()
    } else {
        read_blocks(digits, octets)
    }
}
