//! Workers over a role and framings in boxes.

use super::gate::Carriage;
use super::gear::{Gear, Gears};
use super::marks::Shown;
use super::runs::{OWN, ran};
use sr_forwarding::{Danp, Framing, Role};
use sr_node::Node;
use std::alloc::Global;
use std::marker::Brand;
use std::sync::Wait;
use std::sync::ledger::Blank;
use std::thread::Threads;

fn with_node<W: Threads + Wait + Sync>(
    rt: &W,
    alloc: Global,
    node: Node,
    gears: Gears<Box<dyn Framing + Send>>,
    turns: u64,
) -> Option<Shown> {
    ran::<Box<dyn Role + Send>, Brand, Box<dyn Framing + Send>, W>(
        rt,
        alloc,
        node,
        gears,
        turns,
        Blank::new(5),
    )
}

// None where an allocation failed, here and below.
fn with_role<W: Threads + Wait + Sync>(
    rt: &W,
    alloc: Global,
    danp: Box<dyn Role + Send>,
    gears: Gears<Box<dyn Framing + Send>>,
    turns: u64,
) -> Option<Shown> {
    match Node::new(alloc, danp) {
        Ok(node) => with_node(rt, alloc, node, gears, turns),
        Err(_) => None,
    }
}

fn with_framings<W: Threads + Wait + Sync>(
    rt: &W,
    alloc: Global,
    gears: Gears<Box<dyn Framing + Send>>,
    turns: u64,
) -> Option<Shown> {
    let danp = Box::new(alloc, Danp::new(OWN)).ok()?;
    with_role(rt, alloc, danp, gears, turns)
}

fn boxed(alloc: Global, gear: Gear<Carriage>) -> Option<Gear<Box<dyn Framing + Send>>> {
    let Gear { feed, framing } = gear;
    let framing: Box<dyn Framing + Send> = Box::new(alloc, framing).ok()?;
    Some(Gear { feed, framing })
}

/// What comes of these gears where role and framings are in boxes.
pub(super) fn ran_boxed<W: Threads + Wait + Sync>(
    rt: &W,
    alloc: Global,
    gears: Gears<Carriage>,
    turns: u64,
) -> Option<Shown> {
    let Gears { a, b, host } = gears;
    let a = boxed(alloc, a)?;
    let b = boxed(alloc, b)?;
    let host = boxed(alloc, host)?;
    with_framings(rt, alloc, Gears { a, b, host }, turns)
}
