//! The octets of a record.
ghost use Rattle.std.specs.Prelude.{◌≡◌, ◌<◌, ◌≤◌, ◌+◌, ◌*◌, ◌/◌, ◌%◌, ◌==◌, ◌++◌, ◌⊎◌, false, min, length, vec_len, vec_capacity, slice_index_or, slice_set, OnOk, IsOk};
ghost use Rattle.std.specs.Int.{bit_at};
ghost use Rattle.sr_dup_window.specs.LaneSets.{flag, known, none, is_empty};
ghost use Rattle.sr_dup_window.specs.Windows.{window_of};
ghost use Rattle.sr_dup_table.specs.Widths.{numbers_in};
ghost use Rattle.sr_dup_snapshots.specs.Reading.{lanes_noted, window_in, window_cut};
ghost use Rattle.sr_dup_snapshots.specs.Snapshots.{is_noted, lane_len, lane_octet, lane_octets, record_octets};

use crate::fields::lane_len;
use bitflags::Flags;
use sr_dup_table::Width;
use sr_dup_window::{Lane, Lanes, Record};
use sr_frame::NoMemory;
use sr_sequence::Seq;

// Whether the number so far before the greatest one is noted on a lane, as a bit.
fn bit<const N: usize>(seen: &Record<N>, lane: Lane, back: u16) -> u8
    requires { back < 64 * N }
    ensures { result ≡ flag (is_noted (window_of seen.now).marks lane back) }
{
    let number = Seq(seen.reference().0.wrapping_sub(back));
    u8::from(seen.has(lane, number))
}

// An octet of a lane.
fn lane_octet<const N: usize>(seen: &Record<N>, lane: Lane, place: u16) -> u8
    requires place { place < 8 * N }
    requires small { place < 256 }
    ensures { result ≡ lane_octet (window_of seen.now).marks lane place }
{
    let first = 8 * place;
    bit(seen, lane, first)
        + 2 * bit(seen, lane, first + 1)
        + 4 * bit(seen, lane, first + 2)
        + 8 * bit(seen, lane, first + 3)
        + 16 * bit(seen, lane, first + 4)
        + 32 * bit(seen, lane, first + 5)
        + 64 * bit(seen, lane, first + 6)
        + 128 * bit(seen, lane, first + 7)
}

// Appends the octets of a lane. A list with room for them takes no memory.
fn put_lane<const N: usize>(out: &mut Vec<u8>, seen: &Record<N>, lane: Lane) -> Result<(), NoMemory>
    requires { (N ≡ 16) ⊎ (N ≡ 32) }
    ensures octets { OnOk result (out.new.items ≡ out.old.items
        ++ lane_octets (64 * N) (window_of seen.now).marks lane) }
    ensures len { OnOk result (vec_len out.new ≡ vec_len out.old + 8 * N) }
    ensures room { vec_len out.old + 8 * N ≤ vec_capacity out.old → IsOk result }
    ensures capacity { vec_capacity out.old ≤ vec_capacity out.new }
{
    for place in 0..8 * N as u16 {
        out.extend_from_slice(&[lane_octet(seen, lane, place)])?;
    }
    Ok(())
}

/// Appends the octets of a record. A list with room for them takes no memory.
pub fn put_record<const N: usize>(out: &mut Vec<u8>, seen: &Record<N>) -> Result<(), NoMemory>
    requires { (N ≡ 16) ⊎ (N ≡ 32) }
    ensures octets { OnOk result (out.new.items
        ≡ out.old.items ++ record_octets (64 * N) (window_of seen.now)) }
    ensures room { vec_len out.old + 2 + 48 * N ≤ vec_capacity out.old → IsOk result }
    ensures capacity { vec_capacity out.old ≤ vec_capacity out.new }
{
    out.extend_from_slice(&seen.reference().0.to_be_bytes())?;
    put_lane(out, seen, Lane::H)?;
    put_lane(out, seen, Lane::A)?;
    put_lane(out, seen, Lane::B)?;
    put_lane(out, seen, Lane::C)?;
    put_lane(out, seen, Lane::GotA)?;
    put_lane(out, seen, Lane::GotB)
}

// A bit of a lane, whose octets stand from this place on: whether the number so far before the greatest one is noted on it.
fn read_bit(lanes: &[u8], first: usize, back: u16) -> u8
    requires { first + back / 8 < length lanes.now }
    ensures { result
        ≡ flag (bit_at (slice_index_or lanes.now (first + back / 8) 0) (back % 8) == 1) }
{
    (lanes[first + usize::from(back / 8)] >> (back % 8)) & 1
}

/// The lanes on which the number so far before the greatest one is noted, by the octets of the six lanes.
pub fn lanes_noted(width: Width, lanes: &[u8], back: u16) -> Lanes
    requires six { length lanes.now ≡ 6 * lane_len (numbers_in width) }
    requires back { back < numbers_in width }
    ensures { result ≡ lanes_noted (numbers_in width) lanes.now back }
{
    let len = lane_len(width);
    Lanes::from_bits_retain(
        read_bit(lanes, 0, back)
            + 2 * read_bit(lanes, len, back)
            + 4 * read_bit(lanes, 2 * len, back)
            + 8 * read_bit(lanes, 3 * len, back)
            + 16 * read_bit(lanes, 4 * len, back)
            + 32 * read_bit(lanes, 5 * len, back),
    )
}

// Notes the number so far before the greatest one, which was noted on no lane.
fn note_back<const N: usize>(seen: &mut Record<N>, back: u16, noted: Lanes)
    requires back { back < 64 * N }
    requires new { slice_index_or (window_of seen.old).marks back none ≡ none }
    requires plain { known noted ≡ noted }
    ensures { window_of seen.new ≡ record {
      reference = (window_of seen.old).reference;
      marks = slice_set (window_of seen.old).marks back noted;
    } }
{
    if noted.is_empty() {
        return;
    }
    let _fresh = seen.note(Seq(seen.reference().0.wrapping_sub(back)), noted);
}

// How many numbers a record and octets of lanes both have: those of the narrower.
fn both_have<const N: usize>(width: Width) -> u16
    requires { (N ≡ 16) ⊎ (N ≡ 32) }
    ensures { result ≡ min (numbers_in width) (64 * N) }
{
    match width {
        Width::Narrow => 1024,
        Width::Wide => 64 * N as u16,
    }
}

/// The record of this width that octets of lanes of either width spell, up to its greatest number: of those that are spelled no
/// more than it remembers.
pub fn read_record<const N: usize>(width: Width, reference: Seq, lanes: &[u8]) -> Record<N>
    requires record { (N ≡ 16) ⊎ (N ≡ 32) }
    requires six { length lanes.now ≡ 6 * lane_len (numbers_in width) }
    requires some { is_empty (lanes_noted (numbers_in width) lanes.now 0) ≡ false }
    ensures { window_of result
        ≡ window_cut (64 * N) (window_in (numbers_in width) reference.0 lanes.now) }
{
    let mut seen = Record::<N>::begin(reference, lanes_noted(width, lanes, 0));
    for back in 1..both_have::<N>(width) {
        note_back::<N>(&mut seen, back, lanes_noted(width, lanes, back));
    }
    seen
}
