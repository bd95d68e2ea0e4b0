//! Which empty places a table lets go. No answer tells; it shows in where a newcomer stands.

use sr_aged_slots::AgedSlots;
use sr_frame::Mac;
use sr_slots::Hint;
use std::alloc::Global;

/// How long an address is remembered here.
const SPAN: u64 = 40;

/// How many addresses can be. Eight empty places before a value are enough to go, where the table is aged and before a newcomer.
const MOST: usize = 64;

type Small = AgedSlots<u32, SPAN, MOST>;

/// When the addresses are heard that are forgotten where the newcomer comes, when those that are not, and when it comes.
const EARLY: u64 = 0;

const LATE: u64 = 30;

const AT_LAST: u64 = 40;

const NEWCOMER: u8 = 255;

/// So many addresses are forgotten and so many are live; the table is aged, or it is not; a newcomer comes. Whether it then
/// stands where it would if the forgotten ones had never come.
#[derive(Clone, Copy)]
struct Case {
    forgotten: u8,
    live: u8,
    is_aged: bool,
    is_swept: bool,
}

const CASES: [Case; 6] = [
    Case {
        forgotten: 7,
        live: 8,
        is_aged: true,
        is_swept: false,
    },
    Case {
        forgotten: 8,
        live: 8,
        is_aged: true,
        is_swept: true,
    },
    Case {
        forgotten: 64,
        live: 0,
        is_aged: true,
        is_swept: true,
    },
    Case {
        forgotten: 2,
        live: 8,
        is_aged: false,
        is_swept: false,
    },
    // A full table forgets where the newcomer comes.
    Case {
        forgotten: 7,
        live: 57,
        is_aged: false,
        is_swept: false,
    },
    Case {
        forgotten: 8,
        live: 56,
        is_aged: false,
        is_swept: true,
    },
];

fn mac(number: u8) -> Mac {
    Mac([2, 0, 0, 0, 0, number])
}

// Adds an address that has no value, where there is room.
fn add(table: &mut Small, number: u8, now: u64) -> bool {
    let key = mac(number);
    table.get(key).is_none() && !table.is_full(now) && table.append(key, 0, now).is_ok()
}

// Adds so many addresses. Where an allocation fails the table is as it was, and the call is repeated.
fn fills(table: &mut Small, first: u8, count: u8, now: u64) -> bool {
    for number in 0..count {
        let number = first.wrapping_add(number);
        if !add(table, number, now) && !add(table, number, now) {
            return false;
        }
    }
    true
}

// Where the newcomer stands.
fn hint_of_newcomer(alloc: Global, forgotten: u8, live: u8, is_aged: bool) -> Option<Hint> {
    let mut table = Small::new(alloc);
    if !fills(&mut table, 0, forgotten, EARLY) || !fills(&mut table, forgotten, live, LATE) {
        return None;
    }
    if is_aged {
        let _gone = table.age(AT_LAST);
    }
    if !fills(&mut table, NEWCOMER, 1, AT_LAST) {
        return None;
    }
    table.find(mac(NEWCOMER)).map(|found| found.0)
}

fn holds(alloc: Global, case: Case) -> bool {
    let hint = hint_of_newcomer(alloc, case.forgotten, case.live, case.is_aged);
    let alone = hint_of_newcomer(alloc, 0, case.live, false);
    hint.is_some() && alone.is_some() && (hint == alone) == case.is_swept
}

// The first case that does not hold.
fn first_difference(alloc: Global, cases: &[Case]) -> Option<usize> {
    cases.iter().position(|case| !holds(alloc, *case))
}

#[test]
fn empty_places_go_once_they_are_many(rt: HostRuntime) {
    assert_eq!(rt; first_difference(rt.alloc(), &CASES), None);
}
