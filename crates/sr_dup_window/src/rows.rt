//! A row: the words of the six lanes for the same 64 numbers, side by side. Bit b of the six says on which lanes a number is noted.
ghost use Rattle.std.specs.Prelude.{◌≡◌, ◌==◌, ◌||◌, ◌&&◌, not, nat_le, nat_lt, ℕ, ◌+◌, ◌*◌, ◌<◌, ◌≤◌, if◌then◌else◌, slice_index, bit_and};
ghost use Rattle.std.specs.Int.{bit_at};
ghost use Rattle.sr_dup_window.specs.LaneSets.{flag, none, union};
ghost use Rattle.sr_dup_window.specs.Bins.{lanes_in, IsRow};

use crate::lane_sets::Lanes;
use bitflags::Flags;
use std::simd::prelude::*;

/// A word of 64 bits for each lane, in the order of the lanes.
pub(crate) type Row = [u64; 6];

/// The highest bit of a word.
const HIGHEST: u64 = 1 << 63;

/// Whether two words have a bit, as bits 0 and 1.
// speed: D-record-pairs
#[inline(always)]
fn bits_of(first: u64, second: u64, bit: u32) -> u8
    requires { bit < 64 }
    ensures few { result < 4 }
    ensures value { result ≡ flag (bit_at first bit == 1) + 2 * flag (bit_at second bit == 1) }
{
    // The highest bits of two words are told by one instruction.
    let raised = u64x2::from_array([first, second]) << u64x2::splat((63 - bit) as u64);
    raised.simd_ge(u64x2::splat(HIGHEST)).to_bitmask() as u8
}

/// Two words with a bit set in each whose lane is in a set.
// speed: D-record-pairs
#[inline(always)]
fn with_bit(first: u64, second: u64, bit: u32, set: Lanes, lane: Lanes, next: Lanes) -> [u64; 2]
    requires { bit < 64 }
    ensures first { (b : ℕ) → (bit_at (slice_index result 0) b == 1)
        ≡ ((b == bit && bit_and set.0 lane.0 == lane.0) || bit_at first b == 1) }
    ensures second { (b : ℕ) → (bit_at (slice_index result 1) b == 1)
        ≡ ((b == bit && bit_and set.0 next.0 == next.0) || bit_at second b == 1) }
{
    let lanes = u64x2::from_array([lane.bits() as u64, next.bits() as u64]);
    let marks = (u64x2::splat(set.bits() as u64) & lanes)
        .simd_eq(lanes)
        .select(u64x2::splat(1 << bit), u64x2::splat(0));
    (u64x2::from_array([first, second]) | marks).to_array()
}

/// The bits that a word and a mask both have.
fn kept(word: u64, mask: u64) -> u64
    ensures { (b : ℕ) → (bit_at result b == 1) ≡ (bit_at mask b == 1 && bit_at word b == 1) }
{
    word & mask
}

/// The bits of either word.
fn united(word: u64, other: u64) -> u64
    ensures { (b : ℕ) → (bit_at result b == 1) ≡ (bit_at word b == 1 || bit_at other b == 1) }
{
    word | other
}

/// All bits but one.
fn all_but_one(bit: u32) -> u64
    requires { bit < 64 }
    ensures { (b : ℕ) → b < 64 → (bit_at result b == 1) ≡ not (b == bit) }
{
    !(1 << bit)
}

/// All bits but `count` from `low` on.
fn all_but(low: u32, count: u32) -> u64
    requires some { 0 < count }
    requires within { low + count ≤ 64 }
    ensures { (b : ℕ) → b < 64 → (bit_at result b == 1)
        ≡ not (nat_le low b && nat_lt b (low + count)) }
{
    !((u64::MAX << low) & (u64::MAX >> (64 - low - count)))
}

/// The lanes on which a row has a bit.
// speed: D-record-pairs
#[inline(always)]
pub(crate) fn lanes_in(row: &Row, bit: u32) -> Lanes
    requires { bit < 64 }
    ensures { result ≡ lanes_in row.now bit }
{
    let [h, a, b, c, got_a, got_b] = *row;
    Lanes::from_bits_retain(
        bits_of(h, a, bit) + 4 * bits_of(b, c, bit) + 16 * bits_of(got_a, got_b, bit),
    )
}

/// Sets a bit on some lanes.
// speed: D-record-pairs
#[inline(always)]
pub(crate) fn mark_in(row: &mut Row, bit: u32, lanes: Lanes)
    requires { bit < 64 }
    ensures whole { IsRow row.new }
    ensures lanes { (b : ℕ) → lanes_in row.new b
        ≡ (if b == bit then union (lanes_in row.old b) lanes else lanes_in row.old b) }
{
    let [h, a, b, c, got_a, got_b] = *row;
    let [h, a] = with_bit(h, a, bit, lanes, Lanes::H, Lanes::A);
    let [b, c] = with_bit(b, c, bit, lanes, Lanes::B, Lanes::C);
    let [got_a, got_b] = with_bit(got_a, got_b, bit, lanes, Lanes::GOT_A, Lanes::GOT_B);
    *row = [h, a, b, c, got_a, got_b];
}

/// Clears the bits that a mask lacks.
// speed: D-record-pairs
#[inline(always)]
fn keep_in(row: &mut Row, mask: u64)
    ensures whole { IsRow row.new }
    ensures lanes { (b : ℕ) → lanes_in row.new b
        ≡ (if bit_at mask b == 1 then lanes_in row.old b else none) }
{
    let [h, a, b, c, got_a, got_b] = *row;
    *row = [
        kept(h, mask),
        kept(a, mask),
        kept(b, mask),
        kept(c, mask),
        kept(got_a, mask),
        kept(got_b, mask),
    ];
}

/// Has a bit on just some lanes.
// speed: D-record-pairs
#[inline(always)]
pub(crate) fn put_in(row: &mut Row, bit: u32, lanes: Lanes)
    requires { bit < 64 }
    ensures whole { IsRow row.new }
    ensures lanes { (b : ℕ) → b < 64 → lanes_in row.new b
        ≡ (if b == bit then union none lanes else lanes_in row.old b) }
{
    keep_in(row, all_but_one(bit));
    mark_in(row, bit, lanes);
}

/// Clears `count` bits from `first` on.
pub(crate) fn clear_in(row: &mut Row, first: u32, count: u32)
    requires some { 0 < count }
    requires within { first + count ≤ 64 }
    ensures whole { IsRow row.new }
    ensures lanes { (b : ℕ) → b < 64 → lanes_in row.new b
        ≡ (if nat_le first b && nat_lt b (first + count) then none else lanes_in row.old b) }
{
    keep_in(row, all_but(first, count));
}

/// Sets the bits of another row too.
pub(crate) fn unite_row(row: &mut Row, other: &Row)
    ensures whole { IsRow row.new }
    ensures lanes { (b : ℕ) → lanes_in row.new b
        ≡ union (lanes_in row.old b) (lanes_in other.now b) }
{
    let [h, a, b, c, got_a, got_b] = *row;
    *row = [
        united(h, other[0]),
        united(a, other[1]),
        united(b, other[2]),
        united(c, other[3]),
        united(got_a, other[4]),
        united(got_b, other[5]),
    ];
}
