//! What shows of workers that ended.

use super::hand::Hand;
use sr_frame::Port;
use sr_node::{Answer, Event};
use sr_ports::{Entry, Log, Pass, Settlement, Worker};
use sr_workers::{Feed, WorkerEnd, WorkerFault};
use std::sync::ledger::Ledger;

/// What shows of a worker's end.
#[derive(Clone, Copy)]
pub(super) struct Mark {
    pub fault: Option<WorkerFault>,
    /// Whether the feed failed.
    pub failed: bool,
    /// Whether a parcel is held, and whether that is the last one of the log.
    pub held: bool,
    pub held_last: bool,
    pub unread: u64,
    /// Takes that found nothing.
    pub nones: usize,
    /// Takes that found a parcel.
    pub taken: usize,
    /// What the feed was given.
    pub given: u64,
    /// Arrivals that were handed up.
    pub ups: usize,
    /// Frames that were sent.
    pub sent: usize,
}

/// What shows of the workers and of the journal.
#[derive(Clone, Copy)]
pub(super) struct Shown {
    pub marks: [Mark; 3],
    pub settlement: Settlement,
    /// Whose the first arrival of the journal is.
    pub first: Option<Worker>,
    /// What waits at A, B and the host.
    pub waiting: [usize; 3],
}

/// What shows of a run.
#[derive(Clone, Copy)]
pub(super) struct Report {
    pub shown: Shown,
    /// How many gates were missed.
    pub missed: u64,
}

const BLANK_MARK: Mark = Mark {
    fault: None,
    failed: false,
    held: false,
    held_last: false,
    unread: 0,
    nones: 0,
    taken: 0,
    given: 0,
    ups: 0,
    sent: 0,
};

fn is_up(answer: &Answer) -> bool {
    match answer {
        Answer::Passed(ports) => ports.as_slice().contains(&Port::H),
        _ => false,
    }
}

fn ups_in(pairs: &[(Event, Answer)]) -> usize {
    let mut ups = 0usize;
    for (event, answer) in pairs {
        if matches!(event, Event::Arrive { .. }) && is_up(answer) {
            ups = ups.saturating_add(1);
        }
    }
    ups
}

// How many answers are as wanted.
fn answers_in(pairs: &[(Event, Answer)], wanted: Wanted) -> usize {
    let mut count = 0usize;
    for (_, answer) in pairs {
        if is_wanted(answer, wanted) {
            count = count.saturating_add(1);
        }
    }
    count
}

// An answer of this kind.
#[derive(Clone, Copy)]
enum Wanted {
    Nothing,
    Parcel,
    Sent,
}

fn is_wanted(answer: &Answer, wanted: Wanted) -> bool {
    match wanted {
        Wanted::Nothing => matches!(answer, Answer::Taken(None)),
        Wanted::Parcel => matches!(answer, Answer::Taken(Some(_))),
        Wanted::Sent => matches!(answer, Answer::Sent(_)),
    }
}

// Whether the parcel that is held is what the last entry took out.
fn is_held_last(end: &WorkerEnd<Hand>) -> bool {
    match (&end.held, end.log.pairs.last()) {
        (Some(held), Some((_, Answer::Taken(Some(last))))) => held == last,
        _ => false,
    }
}

fn mark_of(end: &WorkerEnd<Hand>) -> Mark {
    Mark {
        fault: end.fault,
        failed: end.feed.failures() > 0,
        held: end.held.is_some(),
        held_last: is_held_last(end),
        unread: end.unread,
        nones: answers_in(&end.log.pairs, Wanted::Nothing),
        taken: answers_in(&end.log.pairs, Wanted::Parcel),
        given: end.feed.given,
        ups: ups_in(&end.log.pairs),
        sent: answers_in(&end.log.pairs, Wanted::Sent),
    }
}

/// The marks of workers that ended. Their logs are kept.
pub(super) fn marks_of<L: Ledger>(
    ends: Vec<(Pass<L>, WorkerEnd<Hand>)>,
    logs: &mut Vec<Log>,
) -> Option<[Mark; 3]> {
    let mut marks = [BLANK_MARK; 3];
    let mut place = 0usize;
    for (_pass, end) in ends {
        if place >= 3 {
            return None;
        }
        marks[place] = mark_of(&end);
        place += 1;
        logs.push(end.log).ok()?;
    }
    Some(marks)
}

/// Whose the first arrival of a journal is.
pub(super) fn first_arrival(journal: &[Entry]) -> Option<Worker> {
    for entry in journal {
        if let Event::Arrive { .. } = &entry.event {
            return Some(entry.worker);
        }
    }
    None
}
