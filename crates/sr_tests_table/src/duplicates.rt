//! Duplicate records by source: times, edges and limits.

use super::steps::{handed_up, mac};
use sr_dup_table::{DupFault, DupTable, Look, MAX_SOURCES, TableFull};
use sr_dup_window::Lanes;
use sr_frame::Mac;
use sr_sequence::Seq;
use sr_slots::Hint;
use std::alloc::Global;

/// What becomes of number 5 of a source.
#[derive(Clone, Copy, PartialEq, Eq)]
enum Answer {
    New,
    Known,
    Full,
    /// Two calls disagree, or an allocation failed twice.
    Wrong,
}

fn answer_of(lanes: Option<Lanes>) -> Answer {
    match lanes {
        None => Answer::Full,
        Some(lanes) => {
            if lanes == handed_up() {
                Answer::New
            } else if lanes.is_empty() {
                Answer::Known
            } else {
                Answer::Wrong
            }
        }
    }
}

// What is told ahead, and where the source is; two calls tell it.
fn told(table: &mut DupTable, src: Mac, now: u64) -> (Answer, Option<Hint>) {
    let first = answer_of(table.fresh(src, Seq(5), handed_up(), now).ok());
    match table.look(src, Seq(5), handed_up(), now) {
        Ok(look) => {
            if answer_of(Some(look.fresh)) == first {
                (first, look.hint)
            } else {
                (Answer::Wrong, None)
            }
        }
        Err(TableFull) => (Answer::Full, None),
    }
}

// What the table answers to number 5 of a source. Where an allocation fails the table stays, and the call is repeated.
fn hear(table: &mut DupTable, number: u16, now: u64) -> Answer {
    let src = mac(number);
    let count = table.source_count();
    let (ahead, hint) = told(table, src, now);
    if hint.is_none()
        && table.reserve(src).is_err()
        && (table.source_count() != count || table.reserve(src).is_err())
    {
        return Answer::Wrong;
    }
    let answer = answer_of(table.arrive_at(hint, src, Seq(5), handed_up(), now).ok());
    table.release();
    if answer == ahead {
        answer
    } else {
        Answer::Wrong
    }
}

// The place of the first arrival that is answered otherwise, at a table of this many sources, all heard at the time 0.
fn first_wrong(alloc: Global, sources: u16, arrivals: &[(u16, u64, Answer)]) -> Option<usize> {
    let mut table = DupTable::new(alloc);
    for number in 0..sources {
        if hear(&mut table, number, 0) != Answer::New {
            return Some(arrivals.len());
        }
    }
    arrivals.iter().position(|(number, now, answer)| hear(&mut table, *number, *now) != *answer)
}

const KNOWN_WITHIN_400_MS: [(u16, u64, Answer); 3] = [
    (2, 1000, Answer::New),
    (2, 1399, Answer::Known),
    (2, 1798, Answer::Known),
];

const NEW_AFTER_400_MS: [(u16, u64, Answer); 3] = [
    (2, 1000, Answer::New),
    (2, 1400, Answer::New),
    (2, 1400, Answer::Known),
];

const NO_EARLIER_TIME_COUNTS: [(u16, u64, Answer); 3] = [
    (2, 1000, Answer::New),
    (2, 900, Answer::Known),
    (2, 1350, Answer::Known),
];

#[test]
fn epochs(rt: HostRuntime) {
    assert!(rt;
        first_wrong(rt.alloc(), 0, KNOWN_WITHIN_400_MS.as_slice()).is_none()
            && first_wrong(rt.alloc(), 0, NEW_AFTER_400_MS.as_slice()).is_none()
            && first_wrong(rt.alloc(), 0, NO_EARLIER_TIME_COUNTS.as_slice()).is_none()
    );
}

// At 399 source 1 is heard again: it stays when all others are forgotten at 400.
const A_FULL_TABLE: [(u16, u64, Answer); 8] = [
    (1024, 399, Answer::Full),
    (1025, 399, Answer::Full),
    (1, 399, Answer::Known),
    (1024, 400, Answer::New),
    (1, 400, Answer::Known),
    (0, 400, Answer::New),
    (2, 400, Answer::New),
    (1025, 400, Answer::New),
];

#[test]
fn a_full_table(rt: HostRuntime) {
    assert!(rt; first_wrong(rt.alloc(), MAX_SOURCES as u16, A_FULL_TABLE.as_slice()).is_none());
}

// How many are forgotten at 399, at 400, and at 800, where one of eight is heard again at 400.
fn aged(alloc: Global) -> (usize, usize, usize) {
    let mut table = DupTable::new(alloc);
    for number in 0..8 {
        let _new = hear(&mut table, number, 0);
    }
    let first = table.age(399);
    let _again = hear(&mut table, 3, 400);
    (first, table.age(400), table.age(800))
}

#[test]
fn ages(rt: HostRuntime) {
    assert!(rt; aged(rt.alloc()) == (0, 7, 1));
}

// A clone. Where an allocation fails it is asked for again.
fn cloned(table: &DupTable) -> Option<DupTable> {
    match table.try_clone() {
        Ok(own) => Some(own),
        Err(_) => table.try_clone().ok(),
    }
}

// These sources are heard, in this order.
fn hear_in_order(table: &mut DupTable, numbers: &[u16]) {
    for number in numbers {
        hear(table, *number, 0);
    }
}

fn heard_in_order(alloc: Global, numbers: &[u16]) -> DupTable {
    let mut table = DupTable::new(alloc);
    hear_in_order(&mut table, numbers);
    table
}

// Whether a clone is equal to its table until it hears more, and a table with the same sources in another order is not.
fn is_clone(own: &mut DupTable, table: &DupTable, turned: &DupTable) -> bool {
    let was_equal = *own == *table && *turned != *table && turned.source_count() == 3;
    was_equal && hear(own, 2, 1) == Answer::Known && *own != *table
}

fn clones_are_equal(alloc: Global) -> bool {
    let table = heard_in_order(alloc, [1, 2, 3].as_slice());
    let turned = heard_in_order(alloc, [3, 2, 1].as_slice());
    match cloned(&table) {
        Some(mut own) => is_clone(&mut own, &table, &turned),
        None => false,
    }
}

#[test]
fn clones(rt: HostRuntime) {
    assert!(rt; clones_are_equal(rt.alloc()));
}

// Whether a source whose place is held is heard without memory after a merge that leaves all records out. What is refused before
// that is asked for again.
fn is_heard_after_a_merge(alloc: Global, number: u16) -> bool {
    let mut table = heard_in_order(alloc, [1, 2].as_slice());
    let other = heard_in_order(alloc, [3].as_slice());
    let src = mac(number);
    let is_held = table.reserve(src).is_ok() || table.reserve(src).is_ok();
    let is_merged = table.merge(&other, 400).is_ok() || table.merge(&other, 400).is_ok();
    is_held
        && is_merged
        && table.source_count() == 0
        && answer_of(table.arrive(src, Seq(5), handed_up(), 400).ok()) == Answer::New
}

// One that had a record, and one that had none.
fn are_heard_after_a_merge(alloc: Global) -> bool {
    is_heard_after_a_merge(alloc, 1) && is_heard_after_a_merge(alloc, 9)
}

#[test]
fn a_merge_keeps_held_places(rt: HostRuntime) {
    assert!(rt; are_heard_after_a_merge(rt.alloc()));
}
