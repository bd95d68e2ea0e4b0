//! Whether the wires of a node's ports in two LANs agree with the other nodes', each source by itself.

ghost use Rattle.std.specs.Prelude.{◌≡◌, ◌<◌, ◌≤◌, ℕ, length, vec_len, vec_capacity, slice_index_or, IfOk};
ghost use Rattle.sr_forwarding.specs.Framings.{Trailed};
ghost use Rattle.sr_threaded.specs.Sources.{address_of, is_others, comes_from_others, all_from_others, IsAgreementWith, AgreesWithAll, LanAgreement, IsJudgedInLans};

use crate::judging::{judgement_of, pairs_of};
use crate::{Judgement, NodeEnd};
use sr_agreement::agree;
use sr_forwarding::PrpFraming;
use sr_frame::{MAX_FRAME_LEN, Mac, NoMemory};
use sr_node::{Answer, Event};
use sr_ports::Worker;
use sr_prp_trailer::Lan;
use sr_workers::Feed;
use std::alloc::Global;

/// LAN A.
const LAN_A: PrpFraming = PrpFraming {
    lan: Lan::A,
    net: 0,
};

/// LAN B.
const LAN_B: PrpFraming = PrpFraming {
    lan: Lan::B,
    net: 0,
};

// The address of a node.
fn address_of<F: Feed>(end: &NodeEnd<F>) -> Mac
    ensures { result ≡ address_of end.now }
{
    end.segment.opening.role.mac
}

// Whether an address is that of one of these nodes, and not the own.
fn is_others<F: Feed>(own: Mac, ends: &[NodeEnd<F>], mac: Mac) -> bool
    ensures { result ≡ is_others own ends.now mac }
{
    let mut rest = ends;
    while let Some((end, behind)) = rest.split_first() {
        rest = behind;
        if address_of(end) != own && mac == address_of(end) {
            return true;
        }
    }
    false
}

// Whether what arrives comes from one of these nodes, and not from the own.
fn comes_from_others<F: Feed>(own: Mac, ends: &[NodeEnd<F>], event: &Event) -> bool
    ensures { result ≡ comes_from_others own ends.now event.now }
{
    match event {
        Event::Arrive { parcel, .. } => is_others(own, ends, parcel.header().src),
        _ => true,
    }
}

// Whether all that arrived does.
fn all_from_others<F: Feed>(own: Mac, ends: &[NodeEnd<F>], log: &[(Event, Answer)]) -> bool
    ensures { result ≡ all_from_others own ends.now log.now }
{
    let mut rest = log;
    while let Some((pair, behind)) = rest.split_first() {
        rest = behind;
        if !comes_from_others(own, ends, &pair.0) {
            return false;
        }
    }
    true
}

// Whether what arrived from a node, by itself, is among what it sent.
fn agrees_with<F: Feed>(
    framing: &PrpFraming,
    worker: Worker,
    own: Mac,
    arrivals: &[(Event, Answer)],
    end: &NodeEnd<F>,
    buffer: &mut Vec<u8>,
) -> bool
    requires { MAX_FRAME_LEN ≤ vec_capacity buffer.old }
    ensures room { MAX_FRAME_LEN ≤ vec_capacity buffer.new }
    ensures agreement { IsAgreementWith
        (Trailed framing.now.lan framing.now.net) worker own arrivals.now end.now result }
{
    let source = address_of(end);
    if source == own {
        return true;
    }
    let sent = pairs_of(worker, &end.logs);
    agree(framing, Some(source), arrivals, sent, buffer)
}

// Whether that is so of each of these nodes.
fn agrees_with_all<F: Feed>(
    framing: &PrpFraming,
    worker: Worker,
    own: Mac,
    arrivals: &[(Event, Answer)],
    ends: &[NodeEnd<F>],
    buffer: &mut Vec<u8>,
) -> bool
    requires { MAX_FRAME_LEN ≤ vec_capacity buffer.old }
    ensures room { MAX_FRAME_LEN ≤ vec_capacity buffer.new }
    ensures agreement { AgreesWithAll
        (Trailed framing.now.lan framing.now.net) worker own arrivals.now ends.now result }
{
    let mut all = true;
    let mut rest = ends;
    while let Some((end, behind)) = rest.split_first() {
        rest = behind;
        let agrees = agrees_with(framing, worker, own, arrivals, end, buffer);
        all = all && agrees;
    }
    all
}

// Whether the wires of a worker's port agree.
fn agrees_in_lan<F: Feed>(
    framing: &PrpFraming,
    worker: Worker,
    ends: &[NodeEnd<F>],
    own: &NodeEnd<F>,
    buffer: &mut Vec<u8>,
) -> bool
    requires { MAX_FRAME_LEN ≤ vec_capacity buffer.old }
    ensures room { MAX_FRAME_LEN ≤ vec_capacity buffer.new }
    ensures agreement { LanAgreement
        (Trailed framing.now.lan framing.now.net) worker ends.now own.now result }
{
    let mac = address_of(own);
    let arrivals = pairs_of(worker, &own.logs);
    let sent = agrees_with_all(framing, worker, mac, arrivals, ends, buffer);
    all_from_others(mac, ends, arrivals) && sent
}

/// Judges the wires of one of the nodes of two LANs: at each port, whether what arrived comes from other nodes, and that of each,
/// by itself, is in order among what it sent there. The list has room for a frame.
pub(crate) fn judge_in_lan<F: Feed>(
    ends: &[NodeEnd<F>],
    own: &NodeEnd<F>,
    buffer: &mut Vec<u8>,
) -> Judgement
    requires { MAX_FRAME_LEN ≤ vec_capacity buffer.old }
    ensures room { MAX_FRAME_LEN ≤ vec_capacity buffer.new }
    ensures judged { IsJudgedInLans ends.now own.now result }
{
    let a = agrees_in_lan(&LAN_A, Worker::A, ends, own, buffer);
    let b = agrees_in_lan(&LAN_B, Worker::B, ends, own, buffer);
    judgement_of(a, b)
}

/// Judges the wires of each node of two LANs. NoMemory: an allocation failed.
pub(crate) fn judge_twin<F: Feed>(
    alloc: Global,
    ends: &[NodeEnd<F>],
) -> Result<Vec<Judgement>, NoMemory>
    ensures len { IfOk result (λ v. vec_len v ≡ length ends.now) }
    ensures each { IfOk result (λ v. (i : ℕ) (e : _) (j : _) → i < length ends.now
        → IsJudgedInLans ends.now (slice_index_or ends.now i e) (slice_index_or v.items i j)) }
{
    let mut buffer = match Vec::with_capacity(alloc, MAX_FRAME_LEN) {
        Ok(buffer) => buffer,
        Err(refused) => return Err(refused.into()),
    };
    let mut all = Vec::new(alloc);
    for i in 0..ends.len() {
        let judged = judge_in_lan(ends, &ends[i], &mut buffer);
        if let Err(refused) = all.reserve(1) {
            return Err(refused.into());
        }
        all.push_reserved(judged);
    }
    Ok(all)
}
