//! A node that is resumed with a wide table, which was read from the snapshot that another node's narrow table left.

ghost use Rattle.std.specs.Prelude.{◌≡◌, false};
ghost use Rattle.sr_dup_window.specs.LaneSets.{is_empty};

use super::frames::{EVERYONE, OTHER, OWN, Sent};
use super::makers::resumed_danp;
use super::steps::{Outcome, Step, expect_resumed_steps};
use sr_dup_snapshots::Snapshots;
use sr_dup_table::{DupTable, Width};
use sr_dup_window::Lanes;
use sr_frame::Port;
use sr_node::Node;
use sr_sequence::Seq;
use std::alloc::Global;

fn handed_up() -> Lanes
    ensures { is_empty result ≡ false }
{
    Lanes::H.union(Lanes::GOT_A)
}

// What a node left that handed number 5 of the other node up at 1000. None where an allocation failed.
fn text_left(alloc: Global) -> Option<Vec<u8>> {
    let mut table = DupTable::new(alloc);
    match table.arrive(OTHER, Seq(5), handed_up(), 1000) {
        Ok(_) => table.snapshot(alloc).ok(),
        Err(_) => None,
    }
}

// That as a wide table, which holds a place. None where an allocation failed.
fn table_left(alloc: Global) -> Option<DupTable> {
    let text = text_left(alloc)?;
    let mut table = DupTable::read_snapshot(alloc, text.as_slice(), Width::Wide).ok()?;
    match table.reserve(OWN) {
        Ok(()) => Some(table),
        Err(_) => None,
    }
}

/// A node of a PRP network that is resumed with that table. None where an allocation failed.
pub fn resumed(alloc: Global) -> Option<Node> {
    resumed_danp(alloc, table_left(alloc)?)
}

// Within 400 ms the copy that comes in by the other LAN goes up to nobody, and all else is as in a new node.
const WITHIN: &[Step] = &[
    Step::Time(1000),
    Step::Knows(&[]),
    Step::In(Port::B, Sent::InB(5), 1399, Outcome::Nowhere),
    Step::In(Port::B, Sent::InB(6), 1399, Outcome::Up),
    Step::Send(EVERYONE, OWN, 60, 1399, Outcome::Sent(64511)),
    Step::Waiting(Port::H, 1),
];

// After 400 ms it is another frame.
const LATER: &[Step] = &[
    Step::In(Port::B, Sent::InB(5), 1400, Outcome::Up),
    Step::Waiting(Port::H, 1),
];

// A time that was handed in before counts as that of the source.
const EARLIER: &[Step] = &[
    Step::In(Port::B, Sent::InB(5), 0, Outcome::Nowhere),
    Step::Time(1000),
    Step::Tick(1399, Outcome::Ticked(0, Some(Seq(64511)))),
    Step::Tick(1400, Outcome::Ticked(1, None)),
];

// The node has the width of the table: 1024 numbers further on it still knows number 5.
const WIDE: &[Step] = &[
    Step::In(Port::A, Sent::InA(1029), 1100, Outcome::Up),
    Step::In(Port::B, Sent::InB(5), 1100, Outcome::Nowhere),
];

#[test]
fn what_the_table_noted_goes_up_to_nobody(rt: HostRuntime) {
    expect_resumed_steps(&rt, WITHIN);
}

#[test]
fn what_the_table_forgot_goes_up(rt: HostRuntime) {
    expect_resumed_steps(&rt, LATER);
}

#[test]
fn no_time_goes_back_before_that_of_the_table(rt: HostRuntime) {
    expect_resumed_steps(&rt, EARLIER);
}

#[test]
fn a_resumed_node_has_the_width_of_its_table(rt: HostRuntime) {
    expect_resumed_steps(&rt, WIDE);
}
