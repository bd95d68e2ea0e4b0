//! Duplicate records: worked values.

use bitflags::Flags;
use sr_dup_window::{Apart, Lane, Lanes, Record};
use sr_sequence::Seq;

// A record of 5 and of `last`, the furthest number behind 5 that its window holds; the one before `last` is ahead.
fn ends_at<const N: usize>(mut r: Record<N>, last: u16) -> bool {
    let before = Seq(last.wrapping_sub(1));
    r.note(Seq(last), Lanes::H) == Lanes::H
        && r.note(Seq(last), Lanes::H) == Lanes::NONE
        && r.has(Lane::H, Seq(5))
        && r.fresh(before, Lanes::H) == Lanes::H
        && r.note(before, Lanes::H) == Lanes::H
        && r.reference() == before
        && !r.has(Lane::H, Seq(5))
}

#[test]
fn window_ends(rt: HostRuntime) {
    assert!(rt; ends_at(Record::<16>::begin(Seq(5), Lanes::H), 64518));
    assert!(rt; ends_at(Record::<32>::begin(Seq(5), Lanes::H), 63494));
}

/// One of the records.
#[derive(Clone, Copy, PartialEq, Eq)]
enum Which {
    One,
    Two,
    Three,
}

/// A step of three records, and what it has to come to.
#[derive(Clone, Copy)]
enum Step {
    /// A record begins anew, with this number for the host.
    Begin(Which, u16),
    /// It is the same as the other from now on.
    Copy(Which, Which),
    /// A number for the host is new to a record, which notes it.
    Note(Which, u16),
    /// The first takes in the second, or they are apart and the first is as it was.
    Merge(Which, Which, bool),
    /// Whether a number is noted on a lane.
    Has(Which, Lane, u16, bool),
    /// The greatest number of a record.
    Reference(Which, u16),
    /// Two records are equal.
    Same(Which, Which),
    /// New records of these numbers are this one when they are merged, from the left and from the right.
    Joins(Which, u16, u16, u16),
}

const MERGES_OVER_THE_END_OF_THE_NUMBERS: [Step; 11] = [
    Step::Begin(Which::One, 10),
    Step::Copy(Which::Two, Which::One),
    Step::Merge(Which::One, Which::Two, true),
    Step::Same(Which::One, Which::Two),
    Step::Begin(Which::Two, 65530),
    Step::Merge(Which::One, Which::Two, true),
    Step::Reference(Which::One, 10),
    Step::Has(Which::One, Lane::H, 10, true),
    Step::Has(Which::One, Lane::H, 65530, true),
    Step::Has(Which::One, Lane::A, 10, false),
    Step::Has(Which::One, Lane::H, 65529, false),
];

const REFUSES_HALF_OF_THE_NUMBERS: [Step; 6] = [
    Step::Begin(Which::One, 0),
    Step::Begin(Which::Two, 32768),
    Step::Merge(Which::One, Which::Two, false),
    Step::Begin(Which::Two, 32767),
    Step::Merge(Which::One, Which::Two, true),
    Step::Reference(Which::One, 32767),
];

const CUTS_WHAT_IS_JOINED: [Step; 16] = [
    Step::Begin(Which::One, 2000),
    Step::Begin(Which::Two, 900),
    Step::Note(Which::Two, 976),
    Step::Note(Which::Two, 977),
    Step::Note(Which::Two, 1000),
    Step::Copy(Which::Three, Which::Two),
    Step::Merge(Which::Three, Which::One, true),
    Step::Merge(Which::One, Which::Two, true),
    Step::Same(Which::One, Which::Three),
    Step::Reference(Which::One, 2000),
    Step::Has(Which::One, Lane::H, 977, true),
    Step::Has(Which::One, Lane::H, 1000, true),
    Step::Has(Which::One, Lane::H, 976, false),
    Step::Has(Which::One, Lane::H, 900, false),
    Step::Note(Which::One, 900),
    Step::Reference(Which::One, 900),
];

const MERGES_IN_ANY_ORDER_AND_GROUPING: [Step; 12] = [
    Step::Begin(Which::One, 0),
    Step::Begin(Which::Two, 20000),
    Step::Merge(Which::One, Which::Two, true),
    Step::Begin(Which::Two, 32767),
    Step::Merge(Which::One, Which::Two, true),
    Step::Reference(Which::One, 32767),
    Step::Joins(Which::One, 0, 20000, 32767),
    Step::Joins(Which::One, 0, 32767, 20000),
    Step::Joins(Which::One, 20000, 0, 32767),
    Step::Joins(Which::One, 20000, 32767, 0),
    Step::Joins(Which::One, 32767, 0, 20000),
    Step::Joins(Which::One, 32767, 20000, 0),
];

#[derive(Clone, Copy)]
struct Three {
    one: Record<16>,
    two: Record<16>,
    three: Record<16>,
}

fn begun(seq: u16) -> Record<16> {
    Record::begin(Seq(seq), Lanes::H)
}

impl Three {
    fn of(self, which: Which) -> Record<16> {
        match which {
            Which::One => self.one,
            Which::Two => self.two,
            Which::Three => self.three,
        }
    }

    fn set(&mut self, which: Which, record: Record<16>) {
        match which {
            Which::One => self.one = record,
            Which::Two => self.two = record,
            Which::Three => self.three = record,
        }
    }
}

// A record that took in another. None where they are apart, and it is as it was.
fn merged(record: Record<16>, other: Record<16>) -> Option<Record<16>> {
    let mut own = record;
    match own.merge(&other) {
        Ok(()) => Some(own),
        Err(Apart) => None,
    }
}

fn joins(wanted: Record<16>, a: u16, b: u16, c: u16) -> bool {
    let (Some(front), Some(back)) = (merged(begun(a), begun(b)), merged(begun(b), begun(c))) else {
        return false;
    };
    merged(front, begun(c)) == Some(wanted) && merged(begun(a), back) == Some(wanted)
}

// Whether a record took in the other. None where they are apart and it changed all the same.
fn merges(three: &mut Three, into: Which, from: Which) -> Option<bool> {
    let before = three.of(into);
    let mut own = before;
    let is_merged = own.merge(&three.of(from)).is_ok();
    three.set(into, own);
    if is_merged || own == before {
        Some(is_merged)
    } else {
        None
    }
}

fn notes(three: &mut Three, which: Which, seq: u16) -> bool {
    let mut own = three.of(which);
    let fresh = own.note(Seq(seq), Lanes::H);
    three.set(which, own);
    fresh == Lanes::H
}

fn holds(three: &mut Three, step: Step) -> bool {
    match step {
        Step::Begin(which, seq) => three.set(which, begun(seq)),
        Step::Copy(which, from) => three.set(which, three.of(from)),
        Step::Note(which, seq) => return notes(three, which, seq),
        Step::Merge(into, from, answer) => return merges(three, into, from) == Some(answer),
        Step::Has(which, lane, seq, answer) => {
            return three.of(which).has(lane, Seq(seq)) == answer;
        }
        Step::Reference(which, seq) => return three.of(which).reference() == Seq(seq),
        Step::Same(one, other) => return three.of(one) == three.of(other),
        Step::Joins(wanted, a, b, c) => return joins(three.of(wanted), a, b, c),
    }
    true
}

// The place of the first step that comes to something else.
fn first_wrong(steps: &[Step]) -> Option<usize> {
    let mut three = Three {
        one: begun(0),
        two: begun(0),
        three: begun(0),
    };
    steps.iter().position(|step| !holds(&mut three, *step))
}

#[test]
fn merges_over_the_end_of_the_numbers(rt: HostRuntime) {
    assert_eq!(rt;
        first_wrong(MERGES_OVER_THE_END_OF_THE_NUMBERS.as_slice()),
        None
    );
}

#[test]
fn refuses_half_of_the_numbers(rt: HostRuntime) {
    assert_eq!(rt; first_wrong(REFUSES_HALF_OF_THE_NUMBERS.as_slice()), None);
}

#[test]
fn cuts_what_is_joined(rt: HostRuntime) {
    assert_eq!(rt; first_wrong(CUTS_WHAT_IS_JOINED.as_slice()), None);
}

#[test]
fn merges_in_any_order_and_grouping(rt: HostRuntime) {
    assert_eq!(rt;
        first_wrong(MERGES_IN_ANY_ORDER_AND_GROUPING.as_slice()),
        None
    );
}

// Which of these is not so, from 0 on.
fn first_false(facts: &[bool]) -> Option<usize> {
    facts.iter().position(|fact| !*fact)
}

fn only_has(lane: Lane) -> bool {
    let ends = Lanes::H.union(Lanes::GOT_B);
    ends.has(lane) == matches!(lane, Lane::H | Lane::GotB)
        && Lanes::only(lane).has(lane)
        && !Lanes::NONE.has(lane)
}

#[test]
fn sets_of_lanes(rt: HostRuntime) {
    let ends = Lanes::H.union(Lanes::GOT_B);
    let facts = [
        Lane::ALL == [Lane::H, Lane::A, Lane::B, Lane::C, Lane::GotA, Lane::GotB],
        Lane::ALL.iter().all(|lane| only_has(*lane)),
        ends.difference(Lanes::H) == Lanes::GOT_B,
        ends.difference(ends).is_empty() && !ends.is_empty(),
        Lanes::from_bits_retain(192).is_empty(),
    ];
    assert_eq!(rt; first_false(facts.as_slice()), None);
}
