//! What came of a single worker.

use super::OCTETS;
use super::steps::Counts;
use sr_frame::Frame;
use sr_node::Answer;
use sr_ports::Log;
use sr_workers::{Feed, Script, WorkerEnd, WorkerFault};

// What comes of a worker.
#[derive(Clone, Copy)]
pub(super) enum Came {
    // An allocation failed.
    Short,
    // Something does not hold that holds of each worker.
    Wrong,
    Whole(Counts),
}

// The last six octets of a frame that is the host's with six behind it. None of another frame.
fn end_of(frame: &[u8]) -> Option<[u8; 6]> {
    if frame.len() != 66 || !frame.starts_with(&OCTETS) {
        return None;
    }
    let mut end = [0; 6];
    end.copy_from_slice(&frame[60..]);
    Some(end)
}

// The ends of the first two frames that a feed was given. None where there are more.
fn ends_of(given: &[Frame]) -> Option<(Option<[u8; 6]>, Option<[u8; 6]>)> {
    match given {
        [] => Some((None, None)),
        [first] => Some((end_of(first.octets()), None)),
        [first, second] => Some((end_of(first.octets()), end_of(second.octets()))),
        _ => None,
    }
}

fn counts_of(end: &WorkerEnd<Script>) -> Option<Counts> {
    let (first, second) = ends_of(end.feed.given())?;
    let mut counts = Counts {
        unread: end.unread,
        ticks: 0,
        sent: 0,
        takes: 0,
        first,
        second,
    };
    for (_, answer) in &end.log.pairs {
        match answer {
            Answer::Ticked { .. } => counts.ticks = counts.ticks.saturating_add(1),
            Answer::Sent(_) => counts.sent = counts.sent.saturating_add(1),
            Answer::Taken(_) => counts.takes = counts.takes.saturating_add(1),
            _ => {}
        }
    }
    Some(counts)
}

// How many parcels a worker took out.
fn parcels_in(log: &Log) -> usize {
    let mut parcels = 0usize;
    for (_, answer) in &log.pairs {
        if matches!(answer, Answer::Taken(Some(_))) {
            parcels = parcels.saturating_add(1);
        }
    }
    parcels
}

// What holds of each worker: its fault is its feed's just where that failed, it holds a parcel there alone, and gave its feed all
// others.
fn is_sound(end: &WorkerEnd<Script>) -> bool {
    let has_failed = end.feed.failures() > 0;
    let held = match end.held {
        Some(_) => 1usize,
        None => 0usize,
    };
    has_failed == (end.fault == Some(WorkerFault::FeedFault))
        && (has_failed || held == 0)
        && parcels_in(&end.log) == end.feed.given().len().saturating_add(held)
}

pub(super) fn came_of(end: &WorkerEnd<Script>) -> Came {
    if !is_sound(end) {
        return Came::Wrong;
    }
    match (end.fault, counts_of(end)) {
        (None, Some(counts)) => Came::Whole(counts),
        (Some(WorkerFault::JournalFull), _) | (_, None) => Came::Wrong,
        _ => Came::Short,
    }
}
