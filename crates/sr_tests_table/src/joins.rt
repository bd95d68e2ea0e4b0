//! Merges, and tables of either width: what each remembers, and that two widths don't merge.

use super::steps::Merged::{Apart, Full, Joined, OtherWidth};
use super::steps::Step::{Count, Equal, Fill, Hear, Knows, Merge, Same};
use super::steps::Which::{One, Three, Two, Wide};
use super::steps::{Step, expect_steps};

// One source each: two sources, in either order the same.
const TWO_SOURCES: &[Step] = &[
    Hear(One, 2, 5, 1000),
    Hear(Two, 3, 7, 1100),
    Merge(Three, One, 1100, Joined),
    Merge(Three, Two, 1100, Joined),
    Merge(Two, One, 1100, Joined),
    Count(Three, 2),
    Knows(Three, 2, 5, 1399, true),
    Knows(Three, 2, 5, 1400, false),
    Knows(Three, 3, 7, 1499, true),
    Same(Two, Three, true),
    Equal(Two, Three, false),
    Merge(Three, Three, 1100, Joined),
    Same(Two, Three, true),
    Same(One, Three, false),
];

// The numbers of both records stay, as far as the greater one's window goes, and the later time.
const ONE_SOURCE: &[Step] = &[
    Hear(One, 2, 2000, 1000),
    Hear(Two, 2, 900, 1200),
    Hear(Two, 2, 976, 1200),
    Hear(Two, 2, 977, 1200),
    Hear(Two, 2, 1000, 1200),
    Merge(Three, Two, 1200, Joined),
    Merge(Three, One, 1200, Joined),
    Merge(One, Two, 1200, Joined),
    Equal(One, Three, true),
    Knows(One, 2, 2000, 1599, true),
    Knows(One, 2, 977, 1599, true),
    Knows(One, 2, 1000, 1599, true),
    Knows(One, 2, 976, 1599, false),
    Knows(One, 2, 900, 1599, false),
    Knows(One, 2, 2000, 1600, false),
];

// The silent of either table are left out: one that is heard in the other alone begins there.
const SILENT_SOURCES: &[Step] = &[
    Hear(One, 2, 5, 1000),
    Hear(One, 3, 5, 1000),
    Hear(Two, 2, 7, 1300),
    Hear(Two, 4, 5, 900),
    Merge(One, Two, 1400, Joined),
    Count(One, 1),
    Knows(One, 2, 7, 1400, true),
    Knows(One, 2, 5, 1400, false),
];

// Half of all numbers apart: the first such source of the other table is named, whatever stands first in this one.
const APART_SOURCES: &[Step] = &[
    Hear(One, 2, 0, 1000),
    Hear(One, 3, 0, 1000),
    Hear(One, 4, 0, 1000),
    Hear(Two, 4, 32767, 1000),
    Hear(Two, 3, 32768, 1000),
    Hear(Two, 2, 32768, 1000),
    Merge(One, Two, 1000, Apart(3)),
    Merge(Two, One, 1000, Apart(2)),
    Merge(One, Two, 1400, Joined),
    Count(One, 0),
];

// 1024 sources in each of two tables, the same ones; then one more than there can be, which goes before any that are apart.
const FULL_TABLES: &[Step] = &[
    Fill(One, 0, 1024, 1000),
    Fill(Two, 0, 1024, 1100),
    Merge(One, Two, 1100, Joined),
    Count(One, 1024),
    Same(One, Two, true),
    Equal(One, Two, true),
    Hear(Three, 2, 32773, 1100),
    Merge(One, Three, 1100, Apart(2)),
    Hear(Three, 1024, 5, 1100),
    Merge(One, Three, 1100, Full),
    Merge(One, Three, 1500, Joined),
    Count(One, 0),
];

// No time is too late: a source that was heard behind 2^32 ms, which are 49.7 days, at 2^40 ms, and at the end of all time.
const LATE_SOURCES: &[Step] = &[
    Hear(Two, 2, 5, 4294967296),
    Merge(One, Two, 4294967296, Joined),
    Knows(One, 2, 5, 4294967695, true),
    Hear(Two, 3, 5, 1099511627776),
    Merge(One, Two, 1099511627776, Joined),
    Count(One, 1),
    Knows(One, 3, 5, 1099511627776, true),
    Hear(Two, 4, 5, 18446744073709551615),
    Merge(One, Two, 18446744073709551615, Joined),
    Count(One, 1),
    Knows(One, 4, 5, 18446744073709551615, true),
];

// A full table goes into one that lacks all its sources, the 1024th among them.
const FULL_INTO_EMPTY: &[Step] = &[
    Fill(One, 0, 1024, 1000),
    Merge(Two, One, 1100, Joined),
    Count(Two, 1024),
    Same(One, Two, true),
];

// Numbers 1024 to 2047 behind are remembered where the table is wide, and are new where it is narrow.
const REMEMBERED: &[Step] = &[
    Hear(One, 1, 952, 0),
    Hear(One, 1, 953, 0),
    Hear(One, 1, 1976, 0),
    Hear(One, 1, 1977, 0),
    Hear(One, 1, 3000, 0),
    Hear(Wide, 1, 952, 0),
    Hear(Wide, 1, 953, 0),
    Hear(Wide, 1, 1976, 0),
    Hear(Wide, 1, 1977, 0),
    Hear(Wide, 1, 3000, 0),
    Knows(One, 1, 1977, 399, true),
    Knows(One, 1, 1976, 399, false),
    Knows(One, 1, 953, 399, false),
    Knows(Wide, 1, 1977, 399, true),
    Knows(Wide, 1, 1976, 399, true),
    Knows(Wide, 1, 953, 399, true),
    Knows(Wide, 1, 952, 399, false),
    Knows(Wide, 1, 3000, 400, false),
];

// Over the end of the 16-bit numbers too: 5 comes 2047 after 63494.
const OVER_THE_END: &[Step] = &[
    Hear(Wide, 1, 63493, 0),
    Hear(Wide, 1, 63494, 0),
    Hear(Wide, 1, 5, 0),
    Knows(Wide, 1, 63494, 0, true),
    Knows(Wide, 1, 63493, 0, false),
];

// Tables of two widths are never equal nor the same, and don't merge either way; no other refusal comes first.
const TWO_WIDTHS: &[Step] = &[
    Equal(One, Wide, false),
    Same(One, Wide, false),
    Equal(Wide, Wide, true),
    Same(Wide, Wide, true),
    Merge(One, Wide, 0, OtherWidth),
    Merge(Wide, One, 0, OtherWidth),
    Hear(Two, 1, 0, 0),
    Hear(Wide, 1, 32768, 0),
    Merge(Two, Wide, 0, OtherWidth),
    Merge(Wide, Two, 0, OtherWidth),
    Merge(Wide, Wide, 0, Joined),
    Knows(Wide, 1, 32768, 399, true),
    Fill(One, 1, 1024, 0),
    Fill(Wide, 2000, 1, 0),
    Merge(One, Wide, 0, OtherWidth),
    Merge(Wide, One, 0, OtherWidth),
    Count(One, 1024),
    Count(Wide, 2),
];

#[test]
fn two_sources(rt: HostRuntime) {
    expect_steps(&rt, TWO_SOURCES);
}

#[test]
fn one_source(rt: HostRuntime) {
    expect_steps(&rt, ONE_SOURCE);
}

#[test]
fn silent_sources(rt: HostRuntime) {
    expect_steps(&rt, SILENT_SOURCES);
}

#[test]
fn apart_sources(rt: HostRuntime) {
    expect_steps(&rt, APART_SOURCES);
}

#[test]
fn late_sources(rt: HostRuntime) {
    expect_steps(&rt, LATE_SOURCES);
}

#[test]
fn full_tables(rt: HostRuntime) {
    expect_steps(&rt, FULL_TABLES);
}

#[test]
fn full_into_empty(rt: HostRuntime) {
    expect_steps(&rt, FULL_INTO_EMPTY);
}

#[test]
fn remembered(rt: HostRuntime) {
    expect_steps(&rt, REMEMBERED);
}

#[test]
fn over_the_end(rt: HostRuntime) {
    expect_steps(&rt, OVER_THE_END);
}

#[test]
fn two_widths(rt: HostRuntime) {
    expect_steps(&rt, TWO_WIDTHS);
}
