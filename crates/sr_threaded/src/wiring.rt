//! The wires of networks.

ghost use Rattle.std.specs.Prelude.{◌≡◌, ◌<◌, ◌+◌, ◌++◌, ◌∷◌, [], IfOk, vec_len};
ghost use Rattle.std.specs.Arc.{arc_value};
ghost use Rattle.sr_lines.specs.Names.{end_wires};
ghost use Rattle.sr_lines.specs.Pairs.{AreLinked};
ghost use Rattle.sr_threaded.specs.Joined.{IsRing, IsLan, AllUnused, AreAllUnused, IsUnused, ring_wires, lan_wires};

use sr_frame::NoMemory;
use sr_lines::Ends;
use sr_wires::Wire;
use std::alloc::{AllocError, Global};
use std::sync::Arc;

// What two threads share.
fn shared(alloc: Global, wire: Wire) -> Result<Arc<Wire>, NoMemory>
    ensures { IfOk result (λ w. arc_value w ≡ wire) }
{
    match Arc::new(alloc, wire) {
        Ok(wire) => Ok(wire),
        Err(refused) => Err(AllocError::from(refused).into()),
    }
}

// The two ends of a link of two wires, one each way.
fn link(alloc: Global) -> Result<(Ends, Ends), NoMemory>
    ensures joined { IfOk result (λ r. AreLinked (end_wires r.0) (end_wires r.1)) }
    ensures first { IfOk result (λ r. IsUnused r.0) }
    ensures second { IfOk result (λ r. IsUnused r.1) }
{
    let (on, on_send, on_take) = Wire::new(alloc)?;
    let (back, back_send, back_take) = Wire::new(alloc)?;
    let on = shared(alloc, on)?;
    let back = shared(alloc, back)?;
    let on_too = Arc::try_clone(&on)?;
    let back_too = Arc::try_clone(&back)?;
    let first = Ends::new(on, on_send, back, back_take);
    let second = Ends::new(back_too, back_send, on_too, on_take);
    Ok((first, second))
}

/// The ends at A and at B of each node of a ring of so many: from B of each to A of the next. NoMemory: an allocation failed.
pub(crate) fn ring_wires(alloc: Global, count: usize) -> Result<Vec<(Ends, Ends)>, NoMemory>
    requires { 0 < count }
    ensures len { IfOk result (λ v. vec_len v ≡ count) }
    ensures ring { IfOk result (λ v. IsRing (ring_wires v.items)) }
    ensures unused { IfOk result (λ v. AllUnused v.items) }
{
    let mut all = Vec::new(alloc);
    let (last_b, first_a) = link(alloc)?;
    let mut at_a = first_a;
    for _next in 1..count {
        let (at_b, next_a) = link(alloc)?;
        all.reserve(1)?;
        all.push_reserved((at_a, at_b));
        at_a = next_a;
    }
    all.reserve(1)?;
    all.push_reserved((at_a, last_b));
    Ok(all)
}

// The ends of a node, and one more.
fn with_end(row: Vec<Ends>, end: Ends) -> Result<Vec<Ends>, NoMemory>
    ensures { IfOk result (λ v. v.items ≡ row.items ++ end ∷ []) }
{
    let mut row = row;
    row.reserve(1)?;
    row.push_reserved(end);
    Ok(row)
}

// The ends of these nodes of a LAN and of one more, which is joined to each of them.
fn with_node(alloc: Global, rows: Vec<Vec<Ends>>) -> Result<Vec<Vec<Ends>>, NoMemory>
    requires lan { IsLan (lan_wires rows.items) }
    requires unused { AreAllUnused rows.items }
    ensures len { IfOk result (λ v. vec_len v ≡ vec_len rows + 1) }
    ensures lan { IfOk result (λ v. IsLan (lan_wires v.items)) }
    ensures unused { IfOk result (λ v. AreAllUnused v.items) }
{
    let mut all = Vec::new(alloc);
    let mut own = Vec::new(alloc);
    for row in rows {
        let (there, here) = link(alloc)?;
        let row = with_end(row, there)?;
        all.reserve(1)?;
        all.push_reserved(row);
        own = with_end(own, here)?;
    }
    all.reserve(1)?;
    all.push_reserved(own);
    Ok(all)
}

/// The ends of each of so many nodes at a LAN: the wires to and from each other node, in the order of the nodes. NoMemory: an
/// allocation failed.
pub(crate) fn lan_wires(alloc: Global, count: usize) -> Result<Vec<Vec<Ends>>, NoMemory>
    ensures len { IfOk result (λ v. vec_len v ≡ count) }
    ensures lan { IfOk result (λ v. IsLan (lan_wires v.items)) }
    ensures unused { IfOk result (λ v. AreAllUnused v.items) }
{
    let mut rows = Vec::new(alloc);
    for _node in 0..count {
        rows = with_node(alloc, rows)?;
    }
    Ok(rows)
}
