//! Logs that are compared with entries: which worker disagrees first. No node is asked, so the entries are written out.

use sr_frame::NoMemory;
use sr_node::{Answer, Event};
use sr_ports::{Entry, Log, Settlement, Worker, settle};
use std::alloc::Global;

// What is answered.
#[derive(Clone, Copy)]
enum Said {
    Own,
    Nothing,
}

// A tick of this time and what is answered.
#[derive(Clone, Copy)]
struct Pair(u64, Said);

// Which logs there are.
#[derive(Clone, Copy)]
enum Logs {
    // One of each worker, which has both pairs.
    Whole,
    // So, but this worker's log has these pairs.
    Other(Worker, &'static [Pair]),
    // So, but this worker has none.
    Lacking(Worker),
    // So, and another one that names this worker.
    Further(Worker),
    // None.
    None,
}

// What workers entered, and what it settles to beside which logs.
struct Case(&'static [(Worker, Pair)], Logs, Settlement);

fn event_of(pair: Pair) -> Event {
    Event::Tick { now: pair.0 }
}

fn answer_of(pair: Pair) -> Answer {
    match pair.1 {
        Said::Own => Answer::Own,
        Said::Nothing => Answer::Taken(None),
    }
}

fn add_entries(entries: &mut Vec<Entry>, rows: &[(Worker, Pair)]) -> Result<(), NoMemory> {
    for (worker, pair) in rows {
        entries.reserve(1)?;
        entries.push_reserved(Entry {
            worker: *worker,
            event: event_of(*pair),
            answer: answer_of(*pair),
        });
    }
    Ok(())
}

fn add_pairs(log: &mut Log, pairs: &[Pair]) -> Result<(), NoMemory> {
    for pair in pairs {
        log.reserve()?;
        log.push(event_of(*pair), answer_of(*pair));
    }
    Ok(())
}

// The pairs of a worker's log, if it has one.
fn pairs_of(worker: Worker, logs: Logs) -> Option<&'static [Pair]> {
    match logs {
        Logs::None => None,
        Logs::Lacking(other) if other == worker => None,
        Logs::Other(other, pairs) if other == worker => Some(pairs),
        _ => Some(BOTH),
    }
}

// A log that lacks pairs for which an allocation failed is added too.
fn add_log(
    alloc: Global,
    logs: &mut Vec<Log>,
    worker: Worker,
    pairs: &[Pair],
) -> Result<(), NoMemory> {
    logs.reserve(1)?;
    let mut log = Log::new(alloc, worker);
    let added = add_pairs(&mut log, pairs);
    logs.push_reserved(log);
    added
}

// Each worker's log, in another order than that of the workers.
fn add_logs(alloc: Global, logs: &mut Vec<Log>, which: Logs) -> Result<(), NoMemory> {
    for worker in [Worker::Host, Worker::B, Worker::A, Worker::Ager, Worker::C] {
        if let Some(pairs) = pairs_of(worker, which) {
            add_log(alloc, logs, worker, pairs)?;
        }
    }
    match which {
        Logs::Further(worker) => add_log(alloc, logs, worker, &[]),
        _ => Ok(()),
    }
}

// What the logs settle to. None where an allocation failed, here and below.
fn settled_beside(alloc: Global, entries: &[Entry], case: &Case) -> Option<Settlement> {
    let mut logs = Vec::new(alloc);
    let settled = match add_logs(alloc, &mut logs, case.1) {
        Ok(()) => Some(settle(entries, logs.as_slice())),
        Err(_) => None,
    };
    drop(logs);
    settled
}

fn settled(alloc: Global, case: &Case) -> Option<Settlement> {
    let mut entries = Vec::new(alloc);
    let settled = match add_entries(&mut entries, case.0) {
        Ok(()) => settled_beside(alloc, entries.as_slice(), case),
        Err(_) => None,
    };
    drop(entries);
    settled
}

// An allocation that fails is met by another try.
fn is_right(alloc: Global, case: &Case) -> bool {
    match settled(alloc, case) {
        Some(found) => found == case.2,
        None => settled(alloc, case) == Some(case.2),
    }
}

fn first_wrong(alloc: Global, cases: &[Case]) -> Option<usize> {
    for (place, case) in cases.iter().enumerate() {
        if !is_right(alloc, case) {
            return Some(place);
        }
    }
    None
}

const ONE: Pair = Pair(1, Said::Own);

const TWO: Pair = Pair(2, Said::Nothing);

// Two entries of each worker.
const ALL: &[(Worker, Pair)] = &[
    (Worker::A, ONE),
    (Worker::B, ONE),
    (Worker::Host, ONE),
    (Worker::C, ONE),
    (Worker::Ager, ONE),
    (Worker::A, TWO),
    (Worker::Ager, TWO),
    (Worker::C, TWO),
    (Worker::Host, TWO),
    (Worker::B, TWO),
];

const BOTH: &[Pair] = &[ONE, TWO];

const CASES: &[Case] = &[
    // Each log is its worker's part, in whatever order the logs stand.
    Case(ALL, Logs::Whole, Settlement::Settled),
    // Nothing was entered, and nobody has a log.
    Case(&[], Logs::None, Settlement::Settled),
    // No log counts as an empty one.
    Case(
        &[(Worker::B, ONE)],
        Logs::None,
        Settlement::Disagrees(Worker::B),
    ),
    // The first worker is named.
    Case(ALL, Logs::None, Settlement::Disagrees(Worker::A)),
    // A entered one that its log lacks.
    Case(
        ALL,
        Logs::Other(Worker::A, &[TWO]),
        Settlement::Disagrees(Worker::A),
    ),
    // B was answered something else.
    Case(
        ALL,
        Logs::Other(Worker::B, &[ONE, Pair(2, Said::Own)]),
        Settlement::Disagrees(Worker::B),
    ),
    // C has the two in another order.
    Case(
        ALL,
        Logs::Other(Worker::C, &[TWO, ONE]),
        Settlement::Disagrees(Worker::C),
    ),
    // The ager's log has one that it did not enter.
    Case(
        ALL,
        Logs::Other(Worker::Ager, &[ONE, TWO, TWO]),
        Settlement::Disagrees(Worker::Ager),
    ),
    // The host has two logs, of which one is empty.
    Case(
        ALL,
        Logs::Further(Worker::Host),
        Settlement::Disagrees(Worker::Host),
    ),
    // C has none.
    Case(
        ALL,
        Logs::Lacking(Worker::C),
        Settlement::Disagrees(Worker::C),
    ),
];

#[test]
fn logs_settle_or_the_first_that_differs_is_named(rt: HostRuntime) {
    assert_eq!(&rt; first_wrong(rt.alloc(), CASES), None);
}
