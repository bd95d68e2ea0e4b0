//! What worked cases tell of clocks.

use sr_clocks::{Clocks, Line, Pair, clocks_of};
use std::alloc::Global;

/// Frames that both recorders saw, and what they tell.
#[derive(Clone, Copy)]
struct Case {
    pairs: &'static [Pair],
    clocks: Clocks,
}

const CASES: &[Case] = &[
    Case {
        pairs: &[],
        clocks: Clocks::Unknown,
    },
    // One frame tells an offset.
    Case {
        pairs: &[Pair {
            time: 7000000,
            ahead: 5000300000,
        }],
        clocks: Clocks::One(
            Line {
                at: 7_000_000,
                ahead: 5_000_300_000,
                drift: 0,
            },
            1,
        ),
    },
    // Three frames and two that are a wrap of 16.384 s apart.
    Case {
        pairs: &[
            Pair {
                time: 1000000,
                ahead: 0,
            },
            Pair {
                time: 2000000,
                ahead: 16384000000,
            },
            Pair {
                time: 3000000,
                ahead: 100000,
            },
            Pair {
                time: 4000000,
                ahead: 16384100000,
            },
            Pair {
                time: 5000000,
                ahead: 50000,
            },
        ],
        clocks: Clocks::Two(3, 2),
    },
    // Of three and one the three tell.
    Case {
        pairs: &[
            Pair {
                time: 1000000,
                ahead: 10000,
            },
            Pair {
                time: 2000000,
                ahead: 16384000000,
            },
            Pair {
                time: 3000000,
                ahead: 30000,
            },
            Pair {
                time: 5000000,
                ahead: 20000,
            },
        ],
        clocks: Clocks::One(
            Line {
                at: 3_000_000,
                ahead: 20_000,
                drift: 0,
            },
            3,
        ),
    },
    // A frame a second, and a clock that gains 12 us in each.
    Case {
        pairs: &[
            Pair {
                time: 0,
                ahead: 1000000,
            },
            Pair {
                time: 1000000000,
                ahead: 1012000,
            },
            Pair {
                time: 2000000000,
                ahead: 1024000,
            },
            Pair {
                time: 3000000000,
                ahead: 1036000,
            },
            Pair {
                time: 4000000000,
                ahead: 1048000,
            },
            Pair {
                time: 5000000000,
                ahead: 1060000,
            },
            Pair {
                time: 6000000000,
                ahead: 1072000,
            },
            Pair {
                time: 7000000000,
                ahead: 1084000,
            },
            Pair {
                time: 8000000000,
                ahead: 1096000,
            },
            Pair {
                time: 9000000000,
                ahead: 1108000,
            },
        ],
        clocks: Clocks::One(
            Line {
                at: 2_000_000_000,
                ahead: 1_024_000,
                drift: 12_000,
            },
            10,
        ),
    },
];

/// What frames tell, of two tries.
fn told(alloc: Global, pairs: &[Pair]) -> Option<Clocks> {
    match clocks_of(alloc, pairs) {
        Ok(clocks) => Some(clocks),
        Err(_) => clocks_of(alloc, pairs).ok(),
    }
}

/// The first case that tells something else.
fn first_wrong(alloc: Global, cases: &[Case]) -> Option<usize> {
    for (index, case) in cases.iter().enumerate() {
        if told(alloc, case.pairs) != Some(case.clocks) {
            return Some(index);
        }
    }
    None
}

#[test]
fn worked_cases_tell_what_they_do(rt: HostRuntime) {
    let wrong = first_wrong(rt.alloc(), CASES);
    assert_eq!(rt; wrong, None);
}

#[test]
fn a_clock_that_drifts_is_put_right(rt: HostRuntime) {
    let line = Line {
        at: 2_000_000_000,
        ahead: 1_024_000,
        drift: 12_000,
    };
    // Ten seconds on it has gained 120 us more.
    assert_eq!(rt; line.ahead_at(12_000_000_000), 1_144_000);
    assert_eq!(rt; line.corrected(12_000_000_000), 11_998_856_000);
    // Before its own beginning a time is 0.
    assert_eq!(rt; line.corrected(1_000_000), 0);
}
