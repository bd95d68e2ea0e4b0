//! A node that was at work comes under its lock and out of it as it was, which no clause says: a lock shows nothing.

ghost use Rattle.std.specs.Prelude.{◌≡◌};

use super::frames::{OWN, in_lan};
use sr_forwarding::{Danp, Role};
use sr_frame::Port;
use sr_node::{Event, NodeImage, NodeOf};
use sr_ports::{Kept, SharedNode};
use sr_prp_trailer::Lan;
use std::alloc::Global;
use std::marker::Brand;
use std::sync::Wait;
use std::sync::ledger::{Blank, Ledger};

// Whether the node takes the event.
fn takes<R: Role>(node: &mut NodeOf<R>, event: Event) -> bool {
    let stepped = node.step(&event);
    drop(event);
    let is_taken = stepped.is_ok();
    drop(stepped);
    is_taken
}

// The other node's frame comes in. None where an allocation failed, here and below.
fn arrival(alloc: Global) -> Option<Event> {
    let parcel = in_lan(alloc, Lan::B, 5).ok()?;
    Some(Event::Arrive {
        port: Port::B,
        parcel,
        now: 2500,
    })
}

// The node sends a life check, and another node's frame comes in.
fn works<R: Role>(alloc: Global, node: &mut NodeOf<R>) -> Option<()> {
    let is_sent = takes(node, Event::Tick { now: 2000 });
    let is_heard = takes(node, arrival(alloc)?);
    (is_sent && is_heard).then_some(())
}

// Whether it is the node as it was, with an empty journal that opens with it.
fn is_as_it_was<R: Role, L: Ledger>(kept: &Kept<R, L>, before: &NodeImage) -> Option<bool> {
    let now = kept.node.image().ok()?;
    let is_same = now == *before;
    drop(now);
    Some(is_same && kept.opening == *before && kept.journal.is_empty() && kept.closed == 0)
}

// Whether it is so under the lock, and behind it.
fn stays<R: Role, L: Ledger, W: Wait>(
    rt: &W,
    shared: SharedNode<R, L>,
    before: &NodeImage,
) -> Option<bool> {
    let under = {
        let kept = shared.kept.lock(rt);
        is_as_it_was(&*kept, before)
    };
    let kept = shared.into_kept();
    let behind = is_as_it_was(&kept, before);
    drop(kept);
    Some(under? && behind?)
}

fn stays_as<R: Role, L: Ledger, W: Wait>(
    rt: &W,
    alloc: Global,
    node: NodeOf<R>,
    before: &NodeImage,
    blank: Blank,
) -> Option<bool>
    requires name { blank.name ≡ L.name }
    requires parts { blank.parts ≡ L.parts }
    requires five { L.parts ≡ 5 }
{
    match SharedNode::<R, L>::new(alloc, node, blank) {
        Ok((shared, passes)) => {
            drop(passes);
            stays(rt, shared, before)
        }
        Err(_) => None,
    }
}

fn told<R: Role, L: Ledger, W: Wait>(
    rt: &W,
    alloc: Global,
    node: NodeOf<R>,
    blank: Blank,
) -> Option<bool>
    requires name { blank.name ≡ L.name }
    requires parts { blank.parts ≡ L.parts }
    requires five { L.parts ≡ 5 }
{
    let mut node = node;
    let works = works(alloc, &mut node);
    match (works, node.image()) {
        (Some(()), Ok(before)) => {
            let stays = stays_as::<R, L, W>(rt, alloc, node, &before, blank);
            drop(before);
            stays
        }
        (_, image) => {
            drop(image);
            drop(node);
            None
        }
    }
}

fn told_of_danp<W: Wait>(rt: &W, alloc: Global) -> Option<bool> {
    match NodeOf::new(alloc, Danp::new(OWN)) {
        Ok(node) => told::<Danp, Brand, W>(rt, alloc, node, Blank::new(5)),
        Err(_) => None,
    }
}

// An allocation that fails is met by another try.
#[test]
fn a_node_comes_under_its_lock_as_it_is(rt: HostRuntime) {
    let alloc = rt.alloc();
    assert!(&rt; told_of_danp(&rt, alloc) == Some(true) || told_of_danp(&rt, alloc) == Some(true));
}
