//! Whether the wires of a node's ports agree with their other ends.

ghost use Rattle.std.specs.Prelude.{◌≡◌, ◌<◌, ◌≤◌, ℕ, length, vec_len, vec_capacity, slice_index_or, IfOk};
ghost use Rattle.sr_ports.specs.Parts.{is_same_worker};
ghost use Rattle.sr_threaded.specs.Judged.{IsJudged, judgement_of, settlement_of, pairs_of, before, behind};

use crate::NodeEnd;
use sr_agreement::agree;
use sr_forwarding::HsrFraming;
use sr_frame::{MAX_FRAME_LEN, NoMemory};
use sr_node::{Answer, Event};
use sr_ports::{Log, Settlement, Worker};
use sr_workers::Feed;
use std::alloc::Global;

/// A ring, at A.
const RING_A: HsrFraming = HsrFraming { path: 0 };

/// A ring, at B.
const RING_B: HsrFraming = HsrFraming { path: 1 };

/// Whether the wires of a node's ports agree with their other ends.
#[derive(Clone, Copy, Debug, PartialEq, Eq)]
pub enum Judgement {
    /// At both.
    Agree,
    /// Not at A.
    DisagreesA,
    /// At A, and not at B.
    DisagreesB,
}

// Whether both are one worker.
fn is_same_worker(worker: Worker, other: Worker) -> bool
    ensures { result ≡ is_same_worker worker other }
{
    match (worker, other) {
        (Worker::A, Worker::A) => true,
        (Worker::B, Worker::B) => true,
        (Worker::C, Worker::C) => true,
        (Worker::Ager, Worker::Ager) => true,
        (Worker::Host, Worker::Host) => true,
        _ => false,
    }
}

/// What the first log of this worker has, and nothing where it has none.
pub(crate) fn pairs_of(worker: Worker, logs: &[Log]) -> &[(Event, Answer)]
    ensures { result.now ≡ pairs_of worker logs.now }
{
    let mut rest = logs;
    while let Some((log, behind)) = rest.split_first() {
        rest = behind;
        if is_same_worker(worker, log.worker) {
            return log.pairs.as_slice();
        }
    }
    &[]
}

/// The judgement of both ports, A before B.
pub(crate) fn judgement_of(a: bool, b: bool) -> Judgement
    ensures { result ≡ judgement_of a b }
{
    match (a, b) {
        (true, true) => Judgement::Agree,
        (true, false) => Judgement::DisagreesB,
        (false, _) => Judgement::DisagreesA,
    }
}

/// Judges the wires of a node of a ring by the logs of its workers and of those of the nodes before and behind it: what arrived at
/// A beside what the node before took out for B, and what arrived at B beside what the node behind took out for A. The list has
/// room for a frame.
pub(crate) fn judge(before: &[Log], own: &[Log], behind: &[Log], buffer: &mut Vec<u8>) -> Judgement
    requires { MAX_FRAME_LEN ≤ vec_capacity buffer.old }
    ensures room { MAX_FRAME_LEN ≤ vec_capacity buffer.new }
    ensures judged { IsJudged before.now own.now behind.now result }
{
    let arrived_a = pairs_of(Worker::A, own);
    let arrived_b = pairs_of(Worker::B, own);
    let sent_before = pairs_of(Worker::B, before);
    let sent_behind = pairs_of(Worker::A, behind);
    let a = agree(&RING_B, None, arrived_a, sent_before, buffer);
    let b = agree(&RING_A, None, arrived_b, sent_behind, buffer);
    judgement_of(a, b)
}

// The place before one in a ring of so many.
fn before(i: usize, count: usize) -> usize
    requires { i < count }
    ensures is { result ≡ before i count }
    ensures within { result < count }
{
    if i == 0 { count - 1 } else { i - 1 }
}

// The place behind one in a ring of so many.
fn behind(i: usize, count: usize) -> usize
    requires { i < count }
    ensures is { result ≡ behind i count }
    ensures within { result < count }
{
    if i + 1 == count { 0 } else { i + 1 }
}

/// Judges the wires of each node of a ring. NoMemory: an allocation failed.
pub(crate) fn judge_ring<F: Feed>(
    alloc: Global,
    ends: &[NodeEnd<F>],
) -> Result<Vec<Judgement>, NoMemory>
    ensures len { IfOk result (λ v. vec_len v ≡ length ends.now) }
    ensures each { IfOk result (λ v. (i : ℕ) (e : _) (j : _) → i < length ends.now → IsJudged
        (slice_index_or ends.now (before i (length ends.now)) e).logs.items
        (slice_index_or ends.now i e).logs.items
        (slice_index_or ends.now (behind i (length ends.now)) e).logs.items
        (slice_index_or v.items i j)) }
{
    let mut buffer = match Vec::with_capacity(alloc, MAX_FRAME_LEN) {
        Ok(buffer) => buffer,
        Err(refused) => return Err(refused.into()),
    };
    let mut all = Vec::new(alloc);
    let count = ends.len();
    for i in 0..count {
        let first = &ends[before(i, count)];
        let own = &ends[i];
        let last = &ends[behind(i, count)];
        let judged = judge(&first.logs, &own.logs, &last.logs, &mut buffer);
        if let Err(refused) = all.reserve(1) {
            return Err(refused.into());
        }
        all.push_reserved(judged);
    }
    Ok(all)
}

/// The settlement of a node by its logs and its wires: where the logs settle and the wires of a port disagree, it is that port's
/// worker that disagrees.
pub(crate) fn settlement_of(own: Settlement, judgement: Judgement) -> Settlement
    ensures { result ≡ settlement_of own judgement }
{
    match (own, judgement) {
        (Settlement::Settled, Judgement::DisagreesA) => Settlement::Disagrees(Worker::A),
        (Settlement::Settled, Judgement::DisagreesB) => Settlement::Disagrees(Worker::B),
        (own, _) => own,
    }
}
