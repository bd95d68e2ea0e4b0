use super::steps::Merged::Joined;
use super::steps::Step::{
    Count, Damaged, DamagedKnows, Fill, Hear, Knows, MakeRoom, Merge, NeverMisread, Reads, Resized,
    Restore, SameText, Text,
};
use super::steps::Which::{One, Three, Two, Wide};
use super::steps::{Step, expect_steps};

// No source: the four octets, the version, and the number 0.
const EMPTY: &[Step] = &[Text(
    One,
    7,
    &[(0, 0x53), (1, 0x52), (2, 0x44), (3, 0x57), (4, 1)],
)];

// Number 5, handed up and received at A, at 1000.
const ONE_SOURCE: &[Step] = &[
    Hear(One, 2, 5, 1000),
    Text(
        One,
        791,
        &[
            (0, 0x53),
            (1, 0x52),
            (2, 0x44),
            (3, 0x57),
            (4, 1),
            (6, 1),
            (7, 2),
            (12, 2),
            (19, 0x03),
            (20, 0xe8),
            (22, 5),
            (23, 1),
            (535, 1),
        ],
    ),
];

// Numbers that are 1, 8 and 1023 before the greatest one, over the end of the 16 bits.
const EARLIER_NUMBERS: &[Step] = &[
    Hear(One, 2, 64518, 1000),
    Hear(One, 2, 65533, 1000),
    Hear(One, 2, 4, 1000),
    Hear(One, 2, 5, 1000),
    Text(
        One,
        791,
        &[
            (0, 0x53),
            (1, 0x52),
            (2, 0x44),
            (3, 0x57),
            (4, 1),
            (6, 1),
            (7, 2),
            (12, 2),
            (19, 0x03),
            (20, 0xe8),
            (22, 5),
            (23, 3),
            (24, 1),
            (150, 128),
            (535, 3),
            (536, 1),
            (662, 128),
        ],
    ),
];

// Two tables of equal sources in different orders have one text.
const ANY_ORDER: &[Step] = &[
    Hear(One, 3, 7, 1100),
    Hear(One, 258, 7, 1100),
    Hear(One, 2, 5, 1000),
    Hear(Two, 2, 5, 1000),
    Hear(Two, 3, 7, 1100),
    SameText(One, Two, false),
    Hear(Two, 258, 7, 1100),
    SameText(One, Two, true),
    Hear(Two, 258, 7, 1101),
    SameText(One, Two, false),
];

// 1024 sources, and the same ones heard the other way round.
const FULL_TABLES: &[Step] = &[
    Fill(One, 0, 1024, 1000),
    Fill(Two, 512, 512, 1000),
    Fill(Three, 0, 512, 1000),
    Merge(Two, Three, 1000, Joined),
    SameText(One, Two, true),
];

#[test]
fn empty(rt: HostRuntime) {
    expect_steps(&rt, EMPTY);
}

#[test]
fn one_source(rt: HostRuntime) {
    expect_steps(&rt, ONE_SOURCE);
}

#[test]
fn earlier_numbers(rt: HostRuntime) {
    expect_steps(&rt, EARLIER_NUMBERS);
}

#[test]
fn any_order(rt: HostRuntime) {
    expect_steps(&rt, ANY_ORDER);
}

#[test]
fn full_tables(rt: HostRuntime) {
    expect_steps(&rt, FULL_TABLES);
}

// Version 2: the same table as above, read at the other width and written, and read at the first again. What is restored forgets
// its sources as the first table did.
const RESTORED: &[Step] = &[
    Hear(One, 2, 5, 1000),
    Restore(Wide, One),
    Text(
        Wide,
        1559,
        &[
            (0, 0x53),
            (1, 0x52),
            (2, 0x44),
            (3, 0x57),
            (4, 2),
            (6, 1),
            (7, 2),
            (12, 2),
            (19, 0x03),
            (20, 0xe8),
            (22, 5),
            (23, 1),
            (1047, 1),
        ],
    ),
    Knows(Wide, 2, 5, 1399, true),
    Knows(Wide, 2, 5, 1400, false),
    Restore(Two, Wide),
    SameText(One, Two, true),
];

// Numbers that are 1023, 1024 and 2047 before the greatest one. A narrow table takes the first of them over, and a wide one that
// takes over what a narrow one has knows no more than that.
const CUT: &[Step] = &[
    Hear(Wide, 2, 63494, 1000),
    Hear(Wide, 2, 64517, 1000),
    Hear(Wide, 2, 64518, 1000),
    Hear(Wide, 2, 5, 1000),
    Text(
        Wide,
        1559,
        &[
            (0, 0x53),
            (1, 0x52),
            (2, 0x44),
            (3, 0x57),
            (4, 2),
            (6, 1),
            (7, 2),
            (12, 2),
            (19, 0x03),
            (20, 0xe8),
            (22, 5),
            (23, 1),
            (150, 128),
            (151, 1),
            (278, 128),
            (1047, 1),
            (1174, 128),
            (1175, 1),
            (1302, 128),
        ],
    ),
    Reads(Wide),
    Restore(One, Wide),
    Text(
        One,
        791,
        &[
            (0, 0x53),
            (1, 0x52),
            (2, 0x44),
            (3, 0x57),
            (4, 1),
            (6, 1),
            (7, 2),
            (12, 2),
            (19, 0x03),
            (20, 0xe8),
            (22, 5),
            (23, 1),
            (150, 128),
            (535, 1),
            (662, 128),
        ],
    ),
    Knows(One, 2, 64518, 1000, true),
    Knows(Wide, 2, 64517, 1000, true),
    Knows(Wide, 2, 63494, 1000, true),
    Restore(Wide, One),
    Knows(Wide, 2, 64518, 1000, true),
    Knows(Wide, 2, 64517, 1000, false),
    Knows(Wide, 2, 63494, 1000, false),
];

// No source, and as many as there can be.
const EDGES: &[Step] = &[
    Text(
        Wide,
        7,
        &[(0, 0x53), (1, 0x52), (2, 0x44), (3, 0x57), (4, 2)],
    ),
    Reads(Wide),
    Fill(Wide, 0, 1024, 1000),
    Reads(Wide),
    Restore(One, Wide),
    Count(One, 1024),
    Restore(Wide, Two),
    Count(Wide, 0),
];

#[test]
fn restored(rt: HostRuntime) {
    expect_steps(&rt, RESTORED);
}

#[test]
fn cut(rt: HostRuntime) {
    expect_steps(&rt, CUT);
}

#[test]
fn edges(rt: HostRuntime) {
    expect_steps(&rt, EDGES);
}

// Each octet that a reader has to look at.
const DAMAGED: &[Step] = &[
    Hear(One, 2, 5, 1000),
    Reads(One),
    Damaged(One, &[(0, 0x54)], false),
    Damaged(One, &[(4, 0)], false),
    Damaged(One, &[(4, 2)], false),
    Damaged(One, &[(4, 3)], false),
    Damaged(One, &[(6, 2)], false),
    Damaged(One, &[(5, 4)], false),
    Resized(One, 792, false),
    Resized(One, 790, false),
    Resized(One, 6, false),
    Resized(One, 0, false),
    Damaged(One, &[(23, 0)], true),
    Damaged(One, &[(535, 0)], true),
    Damaged(One, &[(23, 0), (535, 0)], false),
    DamagedKnows(One, &[(23, 3)], 2, 4, 1000),
    Damaged(One, &[(12, 77)], true),
    Hear(One, 3, 5, 1000),
    Reads(One),
    Damaged(One, &[(796, 2)], false),
    Damaged(One, &[(12, 3)], false),
    Damaged(One, &[(12, 4)], false),
    Hear(Wide, 2, 5, 1000),
    Damaged(Wide, &[(4, 1)], false),
    Damaged(Wide, &[(4, 3)], false),
    Damaged(Wide, &[(5, 4)], false),
    Resized(Wide, 1560, false),
    Resized(Wide, 791, false),
    Damaged(Wide, &[(23, 0)], true),
    Damaged(Wide, &[(278, 128)], true),
];

#[test]
fn damaged(rt: HostRuntime) {
    expect_steps(&rt, DAMAGED);
}

const MISREAD: &[Step] = &[
    NeverMisread(One, 1),
    Hear(One, 2, 5, 1000),
    Hear(One, 2, 6, 1001),
    NeverMisread(One, 2),
    Hear(One, 3, 5, 1000),
    NeverMisread(One, 3),
    Hear(Wide, 2, 5, 1000),
    NeverMisread(Wide, 4),
];

#[test]
fn misread(rt: HostRuntime) {
    expect_steps(&rt, MISREAD);
}

const THERE_AND_BACK: &[Step] = &[
    Reads(One),
    MakeRoom(0, true),
    MakeRoom(3, true),
    Fill(One, 0, 3, 1000),
    MakeRoom(usize::MAX, false),
    Reads(One),
    Fill(One, 3, 1021, 1000),
    Reads(One),
    Hear(Two, 2, 64518, 1000),
    Hear(Two, 2, 65533, 1000),
    Hear(Two, 2, 4, 1000),
    Hear(Two, 2, 5, 1000),
    Reads(Two),
];

#[test]
fn there_and_back(rt: HostRuntime) {
    expect_steps(&rt, THERE_AND_BACK);
}
