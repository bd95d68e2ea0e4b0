//! How a node settles: by its history and its logs, and by its wires.

ghost use Rattle.std.specs.Prelude.{◌≡◌, ◌<◌, ◌↔◌, ℕ, IsTrue, IfOk, vec_len, slice_index_or, if◌then◌else◌};
ghost use Rattle.sr_node.specs.NodeImages.{image_state};
ghost use Rattle.sr_ports.specs.declared.settling.Settlement.TheVariants.{Torn};
ghost use Rattle.sr_threaded.specs.Ran.{EndsJudged, IsSettlementFrom};

use crate::judging::settlement_of;
use crate::lists::join_all;
use crate::{Judgement, NodeEnd};
use sr_frame::NoMemory;
use sr_node::{NodeImage, equal_where_the_states_are};
use sr_ports::{Log, Segment, Settlement, settle};
use sr_workers::Feed;
use std::alloc::Global;

// Whether two images are of one state.
fn is_same_state(one: &NodeImage, other: &NodeImage) -> bool
    ensures { IsTrue result ↔ (image_state one.now ≡ image_state other.now) }
{
    equal_where_the_states_are();
    one == other
}

// A history is torn at once unless it opens with the node that it is told of.
fn torn_unless(opens: bool, own: Settlement) -> Settlement
    ensures { result ≡ (if opens then own else Torn 0) }
{
    if opens { own } else { Settlement::Torn(0) }
}

/// The settlement of a node's history by the logs of its workers. `Torn(0)` exactly where it opens with another node than was given.
pub(crate) fn settlement_from(given: &NodeImage, history: &Segment, logs: &[Log]) -> Settlement
    ensures { IsSettlementFrom (image_state given.now) history.now logs.now result }
{
    let opens = is_same_state(&history.opening, given);
    let own = settle(history.entries.as_slice(), logs);
    torn_unless(opens, own)
}

// A node's end, and what is judged of its wires.
fn judged_end<F: Feed>(end: NodeEnd<F>, judgement: Judgement) -> NodeEnd<F>
    ensures { EndsJudged end judgement result }
{
    let NodeEnd {
        segment,
        logs,
        ends,
        settlement,
        lost,
    } = end;
    NodeEnd {
        segment,
        logs,
        ends,
        settlement: settlement_of(settlement, judgement),
        lost,
    }
}

/// The ends of nodes, of each of whose wires this is judged. NoMemory: an allocation failed.
pub(crate) fn judged_ends<F: Feed>(
    alloc: Global,
    ends: Vec<NodeEnd<F>>,
    judgements: Vec<Judgement>,
) -> Result<Vec<NodeEnd<F>>, NoMemory>
    requires { vec_len ends ≡ vec_len judgements }
    ensures len { IfOk result (λ v. vec_len v ≡ vec_len ends) }
    ensures each { IfOk result (λ v. (i : ℕ) (was : _) (j : _) (e : _) → i < vec_len ends
        → EndsJudged (slice_index_or ends.items i was) (slice_index_or judgements.items i j)
        (slice_index_or v.items i e)) }
{
    let join = |end: NodeEnd<F>, judgement: Judgement| -> NodeEnd<F>
        ensures { EndsJudged end judgement result }
    { judged_end(end, judgement) };
    join_all(alloc, ends, judgements, &join)
}
