//! What is left of what workers wrote down, behind entries that were walked.

ghost use Rattle.std.specs.Prelude.{◌≡◌, ◌↔◌, ◌<◌, ◌∷◌, ◌++◌, [], IsTrue, MatchOption, None, List, slice_set};
ghost use Rattle.sr_node.specs.declared.event.Event.{Event as AnEvent};
ghost use Rattle.sr_node.specs.declared.event.Answer.{Answer as AnAnswer};
ghost use Rattle.sr_ports.specs.declared.entry.Entry.{Entry as AnEntry};
ghost use Rattle.sr_ports.specs.declared.log.Log.{Log as ALog};
ghost use Rattle.sr_ports.specs.declared.worker.Worker.{Worker as AWorker};
ghost use Rattle.sr_ports.specs.Parts.{is_same_worker, part, logs_of, IsLogged, Agrees};
ghost use Rattle.sr_ports.specs.Rests.{worker_place, rest_of, IsRest};
ghost use Rattle.sr_ports.specs.Settling.{IsSettlement};

use crate::sameness::{is_same_answer, is_same_event};
use crate::{Entry, Log, Settlement, Worker};
use sr_node::{Answer, Event};

/// How many workers there are.
const WORKERS: usize = 5;

/// What is left of the pairs of each worker, in the order A, B, C, Ager, Host. None where they did not begin with its part of
/// the entries that were walked.
// speed: D-ports-one-walk
#[derive(Clone, Copy)]
pub(crate) struct Rests<'a> {
    left: [Option<&'a [(Event, Answer)]>; WORKERS],
}

impl<'a> Rests<'a> {
    /// All that is logged, before any entry. None where two logs name the worker.
    pub(crate) fn of(logs: &'a [Log]) -> Rests<'a>
        ensures { (w : AWorker) (pairs : List (AnEvent × AnAnswer))
            → (IsLogged pairs (logs_of w logs.now)) ↔ (IsRest pairs (rest_of w result)) }
    {
        Rests {
            left: [
                logged(Worker::A, logs),
                logged(Worker::B, logs),
                logged(Worker::C, logs),
                logged(Worker::Ager, logs),
                logged(Worker::Host, logs),
            ],
        }
    }

    /// Walks these entries, whatever comes behind them.
    pub(crate) fn walk(&mut self, entries: &[Entry])
        ensures { (w : AWorker) (others : List AnEntry)
            → (IsRest (part w (entries.now ++ others)) (rest_of w self.old))
            ↔ (IsRest (part w others) (rest_of w self.new)) }
    {
        let mut entries_left = entries;
        while let Some((entry, behind)) = entries_left.split_first() {
            entries_left = behind;
            self.step(entry);
        }
    }

    // Walks one entry.
    // speed: D-ports-one-walk
    #[inline(always)]
    fn step(&mut self, entry: &Entry)
        ensures { (w : AWorker) (others : List AnEntry)
            → (IsRest (part w (entry.now ∷ others)) (rest_of w self.old))
            ↔ (IsRest (part w others) (rest_of w self.new)) }
    {
        let at = place(entry.worker);
        let rests = &mut self.left[..];
        match behind(rests[at], entry) {
            Some(rest) => rests[at] = Some(rest),
            None => self.end(at),
        }
    }

    // Nothing is left any more at this place.
    // speed: D-ports-one-walk. A call, so that a comparison clears nothing before each of its branches.
    #[cold]
    #[inline(never)]
    fn end(&mut self, at: usize)
        requires { at < 5 }
        ensures { self.new.left ≡ slice_set self.old.left at None }
    {
        let rests = &mut self.left[..];
        rests[at] = None;
    }

    /// The settlement of entries and logs with which each worker agrees exactly where nothing is left of its pairs.
    pub(crate) fn settlement(&self) -> Settlement
        ensures { (entries : List AnEntry) (logs : List ALog)
            → ((w : AWorker) → (Agrees w entries logs) ↔ (IsRest [] (rest_of w self.now)))
            → IsSettlement entries logs result }
    {
        if !self.has_nothing_left(Worker::A) {
            return Settlement::Disagrees(Worker::A);
        }
        if !self.has_nothing_left(Worker::B) {
            return Settlement::Disagrees(Worker::B);
        }
        if !self.has_nothing_left(Worker::C) {
            return Settlement::Disagrees(Worker::C);
        }
        if !self.has_nothing_left(Worker::Ager) {
            return Settlement::Disagrees(Worker::Ager);
        }
        if !self.has_nothing_left(Worker::Host) {
            return Settlement::Disagrees(Worker::Host);
        }
        Settlement::Settled
    }

    // Whether the worker's pairs were its part of the entries that were walked.
    fn has_nothing_left(&self, worker: Worker) -> bool
        ensures { IsTrue result ↔ (IsRest [] (rest_of worker self.now)) }
    {
        let rests = &self.left[..];
        match rests[place(worker)] {
            Some(rest) => rest.is_empty(),
            None => false,
        }
    }
}

// Where what is left of the worker's pairs stands.
// speed: D-ports-one-walk
#[inline(always)]
fn place(worker: Worker) -> usize
    ensures within { result < 5 }
    ensures place { result ≡ worker_place worker }
{
    match worker {
        Worker::A => 0,
        Worker::B => 1,
        Worker::C => 2,
        Worker::Ager => 3,
        Worker::Host => 4,
    }
}

// What is left behind this entry, where the pairs begin with it.
// speed: D-ports-one-walk
#[inline(always)]
fn behind<'a>(left: Option<&'a [(Event, Answer)]>, entry: &Entry) -> Option<&'a [(Event, Answer)]>
    ensures { (pairs : List (AnEvent × AnAnswer))
        → (IsRest ((entry.now.event, entry.now.answer) ∷ pairs) left.entry)
        ↔ (IsRest pairs result) }
{
    let (pair, rest) = left?.split_first()?;
    if is_same_event(&entry.event, &pair.0) && is_same_answer(&entry.answer, &pair.1) {
        Some(rest)
    } else {
        None
    }
}

// What the worker wrote down; nothing where it has no log. None where it has two.
fn logged<'a>(worker: Worker, logs: &'a [Log]) -> Option<&'a [(Event, Answer)]>
    ensures { (pairs : List (AnEvent × AnAnswer))
        → (IsLogged pairs (logs_of worker logs.now)) ↔ (IsRest pairs result) }
{
    let (found, others) = next_log(worker, logs);
    let Some(log) = found else {
        return Some(&[]);
    };
    match next_log(worker, others).0 {
        Some(_) => None,
        None => Some(log.pairs.as_slice()),
    }
}

// The first log of the worker, and the logs behind it.
fn next_log<'a>(worker: Worker, logs: &'a [Log]) -> (Option<&'a Log>, &'a [Log])
    ensures { MatchOption result.0 (logs_of worker logs.now ≡ [])
        (λ l. logs_of worker logs.now ≡ l.now ∷ logs_of worker result.1.now) }
{
    let mut rest = logs;
    while let Some((log, behind)) = rest.split_first() {
        rest = behind;
        if is_same_worker(worker, log.worker) {
            return (Some(log), rest);
        }
    }
    (None, rest)
}

// Whether both are one worker.
fn is_same_worker(worker: Worker, other: Worker) -> bool
    ensures { result ≡ is_same_worker worker other }
{
    worker == other
}
