//! Vectors of sixteen octets.

ghost use Rattle.std.specs.Prelude.{◌≡◌, ◌↔◌, ◌+◌, ◌-◌, ◌*◌, ◌/◌, ◌%◌, ◌≤◌, ◌<◌, ◌++◌, ℕ, IsTrue, length, slice_index, min, max};
ghost use Rattle.sr_hex.specs.Lanes.{HasLanes};
ghost use Rattle.sr_hex.specs.Lanes.{first_set, IsSmallFront};
ghost use Rattle.sr_hex.specs.Values.{AreSmall, AreKept, decimal_value, above_a, digit_of, octet_of};

use std::simd::prelude::*;

/// The sixteen octets from a place on.
#[inline(always)]
pub(crate) fn load(octets: &[u8], at: usize) -> u8x16
    requires { at + 16 ≤ length octets.now }
    ensures { HasLanes result (λ i. slice_index octets.now (at + i)) }
{
    u8x16::from_slice(&octets[at..])
}

/// Writes sixteen octets from a place on.
#[inline(always)]
pub(crate) fn store(v: u8x16, octets: &mut [u8], at: usize)
    requires { at + 16 ≤ length octets.old }
    ensures long { length octets.new ≡ length octets.old }
    ensures stored { (i : ℕ) → i < 16 → slice_index octets.new (at + i) ≡ slice_index v i }
    ensures kept { AreKept octets.old octets.new at }
{
    v.copy_to_slice(&mut octets[at..]);
}

/// The smaller of each two lanes.
#[inline(always)]
pub(crate) fn smaller(a: u8x16, b: u8x16) -> u8x16
    ensures { HasLanes result (λ i. min (slice_index a i) (slice_index b i)) }
{
    a.simd_min(b)
}

/// The larger of each two lanes.
#[inline(always)]
pub(crate) fn larger(a: u8x16, b: u8x16) -> u8x16
    ensures { HasLanes result (λ i. max (slice_index a i) (slice_index b i)) }
{
    a.simd_max(b)
}

/// So much more in each lane, but no more than 255.
#[inline(always)]
pub(crate) fn raised(a: u8x16, by: u8) -> u8x16
    ensures { HasLanes result (λ i. min (slice_index a i + by) 255) }
{
    a.simd_min(u8x16::splat(255 - by)) + u8x16::splat(by)
}

/// So much less in each lane, but no less than 0.
#[inline(always)]
pub(crate) fn lowered(a: u8x16, by: u8) -> u8x16
    ensures { HasLanes result (λ i. slice_index a i - by) }
{
    a.simd_max(u8x16::splat(by)) - u8x16::splat(by)
}

/// The values of codes from `0` to `9`; 16 or more for every other code.
#[inline(always)]
pub(crate) fn numbers(codes: u8x16) -> u8x16
    ensures { HasLanes result (λ i. decimal_value (slice_index codes i)) }
{
    // When lowered, these ten are 240 and more, and no other code is.
    lowered(codes + u8x16::splat(255 - b'9'), 6) + u8x16::splat(16)
}

/// How far codes in lower case stand above that of `a`, and ten more.
#[inline(always)]
pub(crate) fn letters(codes: u8x16) -> u8x16
    ensures { HasLanes result (λ i. above_a (slice_index codes i)) }
{
    raised((codes | u8x16::splat(0x20)) - u8x16::splat(b'a'), 10)
}

/// The octet of each two neighbouring values, at the place of the first.
// speed: D-hex-blocks
#[inline(always)]
fn joined(values: u8x16) -> u8x16
    ensures long { length result ≡ 16 }
    ensures octets { (i : ℕ) → i < 8 → slice_index result (2 * i)
        ≡ octet_of (slice_index values (2 * i)) (slice_index values (2 * i + 1)) }
{
    // As a number of sixteen bits, a pair has its first value in the lower eight. Multiplied so, the upper eight are the octet.
    let pairs = u16x8::from_le_bytes(values) * u16x8::splat(0x1001);
    (pairs >> u16x8::splat(8)).to_le_bytes()
}

/// The octets of values, two neighbouring ones each.
#[inline(always)]
pub(crate) fn octets_of(first: u8x16, second: u8x16) -> u8x16
    ensures { HasLanes result (λ i. octet_of (slice_index (first ++ second) (2 * i))
        (slice_index (first ++ second) (2 * i + 1))) }
{
    joined(first).shuffle(
        joined(second),
        [0, 2, 4, 6, 8, 10, 12, 14, 16, 18, 20, 22, 24, 26, 28, 30],
    )
}

/// Whether each lane is less than 16.
// speed: D-hex-blocks
#[inline(always)]
pub(crate) fn are_small(v: u8x16) -> bool
    ensures { IsTrue result ↔ AreSmall v }
{
    // The upper four bits of two lanes at a time, which the processor asks of all pairs in one step.
    let upper = u16x8::from_le_bytes(v) & u16x8::splat(0xf0f0);
    upper.simd_ne(u16x8::splat(0)).to_bitmask() == 0
}

/// The place of the lowest bit that is set; 16 where none is.
#[inline(always)]
fn first_set(mask: u64) -> usize
    ensures { result ≡ first_set mask }
{
    if mask == 0 {
        16
    } else {
        mask.trailing_zeros() as usize
    }
}

/// How many lanes stand before the first that is 16 or more: all sixteen where none is.
#[inline(always)]
pub(crate) fn small_front(v: u8x16) -> usize
    ensures { IsSmallFront v result }
{
    first_set(v.simd_ge(u8x16::splat(16)).to_bitmask())
}

/// The upper four bits of octets.
#[inline(always)]
pub(crate) fn upper(octets: u8x16) -> u8x16
    ensures { HasLanes result (λ i. slice_index octets i / 16) }
{
    octets >> u8x16::splat(4)
}

/// The lower four bits of octets.
#[inline(always)]
pub(crate) fn lower(octets: u8x16) -> u8x16
    ensures { HasLanes result (λ i. slice_index octets i % 16) }
{
    octets & u8x16::splat(15)
}

/// The digits of numbers below 16.
#[inline(always)]
pub(crate) fn digits_of(numbers: u8x16) -> u8x16
    requires { AreSmall numbers }
    ensures { HasLanes result (λ i. digit_of (slice_index numbers i)) }
{
    u8x16::from_array(*b"0123456789abcdef").swizzle_dyn(numbers)
}

/// Lanes of one and of the other in turn, of the first eight of each.
#[inline(always)]
pub(crate) fn in_turn_first(high: u8x16, low: u8x16) -> u8x16
    ensures { HasLanes result (λ i. slice_index (high ++ low) (i / 2 + 16 * (i % 2))) }
{
    high.shuffle(
        low,
        [0, 16, 1, 17, 2, 18, 3, 19, 4, 20, 5, 21, 6, 22, 7, 23],
    )
}

/// Lanes of one and of the other in turn, of the last eight of each.
#[inline(always)]
pub(crate) fn in_turn_last(high: u8x16, low: u8x16) -> u8x16
    ensures { HasLanes result (λ i. slice_index (high ++ low) (8 + i / 2 + 16 * (i % 2))) }
{
    high.shuffle(
        low,
        [8, 24, 9, 25, 10, 26, 11, 27, 12, 28, 13, 29, 14, 30, 15, 31],
    )
}
