//! The addresses that a RedBox stands for.

use super::steps::mac;
use sr_frame::{LearnOutcome, Mac};
use sr_proxy_table::ProxyTable;
use std::alloc::Global;

// What is done to a table, or asked of it, and what it has to answer.
#[derive(Clone, Copy)]
enum Step {
    Learn(u16, u64, LearnOutcome),
    // So many addresses from this one on.
    Fill(u16, u16, u64),
    Has(u16, u64, bool),
    Prune(u64, usize),
    Lists(u64, &'static [u16]),
    // So many addresses from this one on are listed, in order.
    ListsFrom(u64, u16, u16),
}

// All that a table has, asked for again where an allocation fails.
fn times_of(table: &ProxyTable) -> Option<Vec<(Mac, u64)>> {
    match table.times() {
        Ok(times) => Some(times),
        Err(_) => table.times().ok(),
    }
}

// Whether a table is as it was.
fn is_as(table: &ProxyTable, before: Option<Vec<(Mac, u64)>>) -> bool {
    match (times_of(table), before) {
        (Some(times), Some(before)) => times == before,
        _ => false,
    }
}

// What is learned. A failed allocation leaves the table as it was, and the call is made once more.
fn learn(table: &mut ProxyTable, number: u16, now: u64) -> Option<LearnOutcome> {
    let before = times_of(table);
    match table.learn(mac(number), now) {
        Ok(learnt) => Some(learnt),
        Err(_) if is_as(table, before) => table.learn(mac(number), now).ok(),
        Err(_) => None,
    }
}

fn fills(table: &mut ProxyTable, first: u16, count: u16, now: u64) -> bool {
    for number in 0..count {
        if learn(table, first.wrapping_add(number), now) != Some(LearnOutcome::New) {
            return false;
        }
    }
    true
}

fn lists_from(table: &ProxyTable, now: u64, first: u16, count: u16) -> bool {
    for _ in 0..2u8 {
        if let Ok(macs) = table.list(now) {
            let want = (0..count).map(|number| mac(first.wrapping_add(number)));
            return macs.iter().copied().eq(want);
        }
    }
    false
}

fn lists(table: &ProxyTable, now: u64, want: &[u16]) -> bool {
    for _ in 0..4u8 {
        if let Ok(macs) = table.list(now) {
            let numbers = macs
                .iter()
                .map(|mac| mac.0[4] as u16 * 256 + mac.0[5] as u16);
            return numbers.eq(want.iter().copied());
        }
    }
    false
}

fn holds(table: &mut ProxyTable, step: Step) -> bool {
    match step {
        Step::Learn(number, now, want) => learn(table, number, now) == Some(want),
        Step::Fill(first, count, now) => fills(table, first, count, now),
        Step::Has(number, now, want) => table.has(mac(number), now) == want,
        Step::Prune(now, want) => table.prune(now) == want,
        Step::Lists(now, want) => lists(table, now, want),
        Step::ListsFrom(now, first, count) => lists_from(table, now, first, count),
    }
}

// The place of the first step that differs.
fn differs(alloc: Global, steps: &[Step]) -> Option<usize> {
    let mut table = ProxyTable::new(alloc);
    for (place, step) in steps.iter().enumerate() {
        if !holds(&mut table, *step) {
            return Some(place);
        }
    }
    None
}

#[test]
fn addresses_are_learned_renewed_and_forgotten(rt: HostRuntime) {
    let steps = [
        Step::Has(9, 0, false),
        Step::Learn(9, 0, LearnOutcome::New),
        Step::Prune(59999, 0),
        Step::Has(9, 59999, true),
        Step::Has(9, 60000, false),
        Step::Prune(60000, 1),
        Step::Learn(9, 100, LearnOutcome::New),
        Step::Learn(8, 100, LearnOutcome::New),
        Step::Learn(9, 60099, LearnOutcome::Known),
        Step::Learn(9, 50, LearnOutcome::Known),
        Step::Has(9, 120098, true),
        Step::Lists(60099, &[9, 8]),
        Step::Lists(60100, &[9]),
        Step::Learn(8, 60100, LearnOutcome::New),
        Step::Lists(60100, &[9, 8]),
    ];
    assert_eq!(rt; differs(rt.alloc(), &steps), None);
}

#[test]
fn a_full_table(rt: HostRuntime) {
    let steps = [
        Step::Fill(1, 255, 0),
        Step::Learn(256, 1, LearnOutcome::New),
        Step::Learn(257, 59999, LearnOutcome::Full),
        Step::Has(257, 59999, false),
        Step::ListsFrom(59999, 1, 256),
        Step::Learn(257, 60000, LearnOutcome::New),
        Step::Lists(60000, &[256, 257]),
    ];
    assert_eq!(rt; differs(rt.alloc(), &steps), None);
}
