//! One driver for the tests of the nodes that are heard: it takes a table of them through steps, and answers at which step it differs.

use super::steps::mac;
use sr_frame::{LearnOutcome, Mac, Port};
use sr_node_table::{Alarm, NodeTable};
use sr_sequence::Seq;
use sr_supervision::{Life, Supervision};
use std::alloc::Global;

/// A ring port.
#[derive(Clone, Copy)]
pub enum At {
    A,
    B,
}

/// What is done to a table, or asked of it, and what it has to answer.
#[derive(Clone, Copy)]
pub enum Step {
    // Node, port, number, time.
    Heard(u16, At, u16, u64, LearnOutcome),
    // Node, its RedBox, port, time.
    Announce(u16, Option<u16>, At, u64, LearnOutcome),
    // So many nodes from this one on, each heard at both ports at this time.
    Fill(u16, u16, u64),
    // So many nodes from this one on, each heard at A alone.
    FillA(u16, u16, u64),
    Prune(u64, usize),
    Has(u16, u64, bool),
    // Node, time, whether a hearing would find no room.
    FullFor(u16, u64, bool),
    // Node, time, ages and numbers.
    Tells(u16, u64, Option<(u32, u32, u16, u16)>),
    RedBox(u16, u64, Option<u16>),
    Lists(u64, &'static [u16]),
    Counts(u64, usize),
    // How many alarms are kept, the oldest and the latest of them.
    Alarms(usize, Option<Alarm>, Option<Alarm>),
    Reserve(u16, Option<u16>),
    Release,
    // A clone is equal; and after a prune at this time it is so still, or not.
    Clones(u64, bool),
}

// A call is made once more where an allocation failed.
fn heard(table: &mut NodeTable, node: u16, at: At, seq: u16, now: u64) -> Option<LearnOutcome> {
    for _ in 0..2u8 {
        let answer = match at {
            At::A => table.heard(mac(node), Port::A, Seq(seq), now),
            At::B => table.heard(mac(node), Port::B, Seq(seq), now),
        };
        if let Ok(learnt) = answer {
            return Some(learnt);
        }
    }
    None
}

fn announce(
    table: &mut NodeTable,
    node: u16,
    redbox: Option<u16>,
    at: At,
    now: u64,
) -> Option<LearnOutcome> {
    let supervision = Supervision {
        seq: Seq(9),
        life: Life::PrpDiscard,
        mac: mac(node),
        redbox: redbox.map(|number| mac(number)),
    };
    for _ in 0..2u8 {
        let answer = match at {
            At::A => table.announce(&supervision, Port::A, now),
            At::B => table.announce(&supervision, Port::B, now),
        };
        if let Ok(learnt) = answer {
            return Some(learnt);
        }
    }
    None
}

fn fills(table: &mut NodeTable, first: u16, count: u16, now: u64, both: bool) -> bool {
    for number in 0..count {
        let node = first.wrapping_add(number);
        if heard(table, node, At::A, 1, now) != Some(LearnOutcome::New) {
            return false;
        }
        if both && heard(table, node, At::B, 1, now) != Some(LearnOutcome::Known) {
            return false;
        }
    }
    true
}

fn reserves(table: &mut NodeTable, node: u16, other: Option<u16>) -> bool {
    let other = other.map(|number| mac(number));
    table.reserve(mac(node), other).is_ok() || table.reserve(mac(node), other).is_ok()
}

fn tells(table: &NodeTable, node: u16, now: u64, want: Option<(u32, u32, u16, u16)>) -> bool {
    match (table.status(mac(node), now), want) {
        (Some(is), Some(want)) => {
            is.addr == mac(node)
                && (is.if1_age, is.if2_age, is.if1_seq, is.if2_seq) == want
                && (is.if1_ifindex, is.if2_ifindex) == (1, 2)
        }
        (is, want) => is.is_none() && want.is_none(),
    }
}

fn redbox_is(table: &NodeTable, node: u16, now: u64, want: Option<u16>) -> bool {
    match table.status(mac(node), now) {
        Some(is) => is.redbox == want.map(|number| mac(number)),
        None => false,
    }
}

fn counts(table: &NodeTable, now: u64, want: usize) -> bool {
    for _ in 0..2u8 {
        if let Ok(macs) = table.list(now) {
            return macs.len() == want;
        }
    }
    false
}

fn lists(table: &NodeTable, now: u64, want: &[u16]) -> bool {
    for _ in 0..4u8 {
        if let Ok(macs) = table.list(now) {
            let numbers = macs
                .iter()
                .map(|mac| mac.0[4] as u16 * 256 + mac.0[5] as u16);
            return numbers.eq(want.iter().copied());
        }
    }
    false
}

fn alarms_are(table: &NodeTable, count: usize, first: Option<Alarm>, last: Option<Alarm>) -> bool {
    for _ in 0..2u8 {
        if let Ok(alarms) = table.alarms() {
            return alarms.len() == count
                && alarms.first().copied() == first
                && alarms.last().copied() == last;
        }
    }
    false
}

fn cloned(table: &NodeTable) -> Option<NodeTable> {
    for _ in 0..8u8 {
        if let Ok(own) = table.try_clone() {
            return Some(own);
        }
    }
    None
}

fn clones(table: &NodeTable, now: u64, want: bool) -> bool {
    let Some(mut own) = cloned(table) else {
        return false;
    };
    let was_equal = own == *table;
    let _gone = own.prune(now);
    was_equal && (own == *table) == want
}

fn holds(table: &mut NodeTable, step: Step) -> bool {
    match step {
        Step::Heard(node, at, seq, now, want) => heard(table, node, at, seq, now) == Some(want),
        Step::Announce(node, redbox, at, now, want) => {
            announce(table, node, redbox, at, now) == Some(want)
        }
        Step::Fill(first, count, now) => fills(table, first, count, now, true),
        Step::FillA(first, count, now) => fills(table, first, count, now, false),
        Step::Prune(now, want) => table.prune(now) == want,
        Step::Has(node, now, want) => table.has(mac(node), now) == want,
        Step::FullFor(node, now, want) => table.is_full_for(mac(node), now) == want,
        Step::Tells(node, now, want) => tells(table, node, now, want),
        Step::RedBox(node, now, want) => redbox_is(table, node, now, want),
        Step::Lists(now, want) => lists(table, now, want),
        Step::Counts(now, want) => counts(table, now, want),
        Step::Alarms(count, first, last) => alarms_are(table, count, first, last),
        Step::Reserve(node, other) => reserves(table, node, other),
        Step::Release => {
            table.release();
            true
        }
        Step::Clones(now, want) => clones(table, now, want),
    }
}

fn made(alloc: Global) -> Option<NodeTable> {
    for _ in 0..2u8 {
        if let Ok(table) = NodeTable::new(alloc) {
            return Some(table);
        }
    }
    None
}

/// The place of the first step that differs; the number of steps where no table could be made.
pub fn differs(alloc: Global, steps: &[Step]) -> Option<usize> {
    let Some(mut table) = made(alloc) else {
        return Some(steps.len());
    };
    for (place, step) in steps.iter().enumerate() {
        if !holds(&mut table, *step) {
            return Some(place);
        }
    }
    None
}
