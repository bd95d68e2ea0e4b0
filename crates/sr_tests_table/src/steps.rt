//! One driver for all tests: it makes three narrow tables and a wide one, takes them through a table of steps, and answers at which step they differ.
ghost use Rattle.std.specs.Prelude.{◌≡◌, false};
ghost use Rattle.sr_dup_window.specs.LaneSets.{is_empty};

use super::snapshot_steps::{
    damaged, has_same_text, has_text, is_never_made_up, is_never_misread, is_read, reads_back,
    restore, text_of, was_handed_up,
};
use sr_dup_table::{DupFault, DupTable, Width};
use sr_dup_window::Lanes;
use sr_frame::Mac;
use sr_sequence::Seq;
use sr_slots::Keys;
use std::alloc::Global;
use std::process::Abort;

/// One of the tables.
#[derive(Clone, Copy, PartialEq, Eq)]
pub enum Which {
    One,
    Two,
    Three,
    /// The one that remembers 2048 numbers of a source.
    Wide,
}

/// What a merge came to.
#[derive(Clone, Copy, PartialEq, Eq)]
pub enum Merged {
    Joined,
    Full,
    /// The records of this source are apart.
    Apart(u16),
    OtherWidth,
    /// Something else, or a refusal that changed a table.
    Wrong,
}

/// A step, and what it has to come to.
#[derive(Clone, Copy)]
pub enum Step {
    /// A table hears a number of a source at port A, which goes to the host, at this time.
    Hear(Which, u16, u16, u64),
    /// It hears number 5 of so many sources, from one on, at this time.
    Fill(Which, u16, u16, u64),
    /// Room for so many more sources is made in the first table, or there is no memory for so many. Either way nothing shows of it.
    MakeRoom(usize, bool),
    /// The first table takes in the second at this time.
    Merge(Which, Which, u64, Merged),
    /// So many sources stand in a table.
    Count(Which, usize),
    /// Whether a number of a source was heard, at this time.
    Knows(Which, u16, u16, u64, bool),
    /// Whether two tables are the same in any order.
    Same(Which, Which, bool),
    /// Whether two tables are equal.
    Equal(Which, Which, bool),
    /// The snapshot of a table has so many octets, and zeros but at these places.
    Text(Which, usize, &'static [(usize, u8)]),
    /// A table's snapshot is read at its width as a table that is the same.
    Reads(Which),
    /// The first table becomes, at its own width, what the snapshot of the second is read as.
    Restore(Which, Which),
    /// The snapshot of a table with other octets at these places is one, or none.
    Damaged(Which, &'static [(usize, u8)], bool),
    /// The snapshot of a table with other octets at these places is one of a table by which the host got a number of a source already.
    DamagedKnows(Which, &'static [(usize, u8)], u16, u16, u64),
    /// A snapshot of so many octets, cut or with zeros behind it, is one, or none.
    Resized(Which, usize, bool),
    /// No damage of a table's snapshot is read as a table with another snapshot: 64 octets one by one, and then all behind its
    /// head, by a seed.
    NeverMisread(Which, u32),
    /// Whether two tables have one snapshot.
    SameText(Which, Which, bool),
}

#[derive(Drop)]
struct Tables {
    one: DupTable,
    two: DupTable,
    three: DupTable,
    wide: DupTable,
}

/// The address of a source or a node.
pub const fn mac(number: u16) -> Mac {
    Mac([2, 0, 0, 0, (number / 256) as u8, (number % 256) as u8])
}

fn number_of(mac: Mac) -> u16 {
    u16::from_be_bytes([mac.0[4], mac.0[5]])
}

/// Handed up, and received at port A.
pub fn handed_up() -> Lanes
    ensures { is_empty result ≡ false }
{
    Lanes::H.union(Lanes::GOT_A)
}

fn table(tables: &Tables, which: Which) -> &DupTable {
    match which {
        Which::One => &tables.one,
        Which::Two => &tables.two,
        Which::Three => &tables.three,
        Which::Wide => &tables.wide,
    }
}

// A number that is heard, asked for again where an allocation fails.
fn hear(table: &mut DupTable, src: u16, seq: u16, now: u64) -> bool {
    match table.arrive(mac(src), Seq(seq), handed_up(), now) {
        Ok(_) => true,
        Err(_) => table.arrive(mac(src), Seq(seq), handed_up(), now).is_ok(),
    }
}

fn fill(table: &mut DupTable, from: u16, count: u16, now: u64) -> bool {
    for more in 0..count {
        if !hear(table, from.wrapping_add(more), 5, now) {
            return false;
        }
    }
    true
}

fn outcome_of(answer: Result<(), DupFault>) -> Merged {
    match answer {
        Ok(()) => Merged::Joined,
        Err(DupFault::TableFull) => Merged::Full,
        Err(DupFault::Apart(src)) => Merged::Apart(number_of(src)),
        Err(DupFault::OtherWidth) => Merged::OtherWidth,
        Err(_) => Merged::Wrong,
    }
}

// A clone. Where an allocation fails it is asked for again.
fn cloned(table: &DupTable) -> Option<DupTable> {
    match table.try_clone() {
        Ok(own) => Some(own),
        Err(_) => table.try_clone().ok(),
    }
}

// A merge that is done again where an allocation fails. What is refused changes nothing.
fn merge(table: &mut DupTable, other: &DupTable, now: u64) -> Merged {
    let Some(before) = cloned(table) else {
        return Merged::Wrong;
    };
    let mut answer = table.merge(other, now);
    if answer.is_err() && *table != before {
        return Merged::Wrong;
    }
    if answer == Err(DupFault::NoMemory) {
        answer = table.merge(other, now);
    }
    if answer.is_err() && *table != before {
        return Merged::Wrong;
    }
    outcome_of(answer)
}

// Room that is asked for again where an allocation fails.
fn make_room(table: &mut DupTable, more: usize, answer: bool) -> bool {
    let Some(before) = cloned(table) else {
        return false;
    };
    let is_made = table.make_room(more).is_ok();
    if *table != before {
        return false;
    }
    (is_made || table.make_room(more).is_ok()) == answer && *table == before
}

fn merge_tables(tables: &mut Tables, into: Which, from: Which, now: u64) -> Merged {
    let Some(other) = cloned(table(tables, from)) else {
        return Merged::Wrong;
    };
    match into {
        Which::One => merge(&mut tables.one, &other, now),
        Which::Two => merge(&mut tables.two, &other, now),
        Which::Three => merge(&mut tables.three, &other, now),
        Which::Wide => merge(&mut tables.wide, &other, now),
    }
}

fn knows(table: &DupTable, src: u16, seq: u16, now: u64) -> Option<bool> {
    match table.fresh(mac(src), Seq(seq), handed_up(), now) {
        Ok(lanes) => Some(lanes.is_empty()),
        Err(_) => None,
    }
}

fn restore_tables(alloc: Global, tables: &mut Tables, into: Which, from: Which) -> bool {
    let Some(other) = cloned(table(tables, from)) else {
        return false;
    };
    match into {
        Which::One => restore(alloc, &mut tables.one, &other),
        Which::Two => restore(alloc, &mut tables.two, &other),
        Which::Three => restore(alloc, &mut tables.three, &other),
        Which::Wide => restore(alloc, &mut tables.wide, &other),
    }
}

fn holds(alloc: Global, tables: &mut Tables, step: Step) -> bool {
    match step {
        Step::Hear(Which::One, src, seq, now) => hear(&mut tables.one, src, seq, now),
        Step::Hear(Which::Two, src, seq, now) => hear(&mut tables.two, src, seq, now),
        Step::Hear(Which::Three, src, seq, now) => hear(&mut tables.three, src, seq, now),
        Step::Hear(Which::Wide, src, seq, now) => hear(&mut tables.wide, src, seq, now),
        Step::Fill(Which::One, from, count, now) => fill(&mut tables.one, from, count, now),
        Step::Fill(Which::Two, from, count, now) => fill(&mut tables.two, from, count, now),
        Step::Fill(Which::Three, from, count, now) => fill(&mut tables.three, from, count, now),
        Step::Fill(Which::Wide, from, count, now) => fill(&mut tables.wide, from, count, now),
        Step::MakeRoom(more, answer) => make_room(&mut tables.one, more, answer),
        Step::Merge(into, from, now, answer) => merge_tables(tables, into, from, now) == answer,
        Step::Count(which, count) => table(tables, which).source_count() == count,
        Step::Knows(which, src, seq, now, answer) => knows(table(tables, which), src, seq, now)
            == Some(answer),
        Step::Same(one, other, answer) => table(tables, one).same(table(tables, other)) == answer,
        Step::Equal(one, other, answer) => (table(tables, one) == table(tables, other)) == answer,
        Step::Text(which, len, places) => has_text(alloc, table(tables, which), len, places),
        Step::Reads(which) => reads_back(alloc, table(tables, which)),
        Step::Restore(into, from) => restore_tables(alloc, tables, into, from),
        Step::Damaged(which, places, answer) => match damaged(alloc, table(tables, which), places) {
            Some(text) => is_read(alloc, text.as_slice()) == Some(answer),
            None => false,
        },
        Step::DamagedKnows(which, places, src, seq, now) => {
            let table = table(tables, which);
            match damaged(alloc, table, places) {
                Some(text) => was_handed_up(alloc, text.as_slice(), table.width(), src, seq, now),
                None => false,
            }
        }
        Step::Resized(which, len, answer) => {
            let Some(mut text) = text_of(alloc, table(tables, which)) else {
                return false;
            };
            let is_resized = text.resize(len, 0).is_ok() || text.resize(len, 0).is_ok();
            is_resized && is_read(alloc, text.as_slice()) == Some(answer)
        }
        Step::NeverMisread(which, seed) => {
            let table = table(tables, which);
            is_never_misread(alloc, table, seed) && is_never_made_up(alloc, table, seed)
        }
        Step::SameText(one, other, answer) => {
            has_same_text(alloc, table(tables, one), table(tables, other)) == answer
        }
    }
}

// The place of the first step that comes to something else.
fn first_wrong(alloc: Global, steps: &[Step]) -> Option<usize> {
    let mut tables = Tables {
        one: DupTable::new(alloc),
        two: DupTable::new(alloc),
        three: DupTable::new(alloc),
        wide: DupTable::with_width(alloc, Width::Wide, Keys::FIXED),
    };
    steps
        .iter()
        .position(|step| !holds(alloc, &mut tables, *step))
}

/// Fails at the first step that comes to something else.
pub fn expect_steps<R: Abort + AllocGlobal>(rt: &R, steps: &[Step]) {
    let wrong = first_wrong(rt.alloc(), steps);
    assert_eq!(rt; wrong, None);
}
