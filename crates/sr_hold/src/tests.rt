//! That arrivals are taken, where there is memory, and lists of calls worked out by hand.

use super::*;
use std::alloc::Global;

/// A call, and what has to come of it. Times are nanoseconds.
#[derive(Clone, Copy)]
enum Step {
    /// An arrival of this capture time, at this real time, with this item.
    Came(Recorder, u64, u64, u32),
    /// Another packet of this capture time, at this real time.
    Heard(Recorder, u64, u64),
    /// Nothing by this real time.
    Silent(Recorder, u64),
    Ended(Recorder),
    Begun(Recorder, u64),
    /// What is released: of whom, its moment, its item.
    Gives(Recorder, u64, u32),
    /// Nothing is to be released.
    Nothing,
    /// So many arrivals of a recorder wait, and so many were behind the mark.
    Has(Recorder, usize, u64),
}

use Recorder::{A, B};
use Step::{Begun, Came, Ended, Gives, Has, Heard, Nothing, Silent};

/// For how long a recorder may keep a packet in these lists.
const SLACK: u64 = 5;

const IN_STEP: &[Step] = &[
    Came(A, 10, 1, 1),
    Nothing,
    Came(B, 12, 2, 2),
    // 10 is the mark: A may have more at that time.
    Nothing,
    Came(A, 20, 3, 3),
    Gives(A, 10, 1),
    Nothing,
    Came(B, 25, 4, 4),
    Gives(B, 12, 2),
    Nothing,
    Ended(B),
    Nothing,
    Ended(A),
    Has(A, 1, 0),
    Gives(A, 20, 3),
    Gives(B, 25, 4),
    Nothing,
];

const EQUAL: &[Step] = &[
    Came(B, 10, 1, 1),
    Came(A, 10, 1, 2),
    Nothing,
    Came(B, 11, 2, 3),
    Heard(A, 11, 2),
    Gives(A, 10, 2),
    Gives(B, 10, 1),
    Nothing,
];

const SILENT: &[Step] = &[
    Came(A, 10, 1, 1),
    Silent(B, 4),
    Nothing,
    // The capture clock is at 14, and at 16: B has told all up to 9, and to 11.
    Silent(B, 5),
    Nothing,
    Silent(B, 7),
    Nothing,
    Silent(A, 7),
    Gives(A, 10, 1),
    // The mark is at 11.
    Came(B, 8, 8, 2),
    Has(B, 1, 1),
    Heard(A, 20, 9),
    Nothing,
    Heard(B, 12, 9),
    Gives(B, 11, 2),
    Has(A, 0, 0),
];

const GOES_BACK: &[Step] = &[
    Came(A, 10, 1, 1),
    Came(A, 7, 1, 2),
    Came(B, 20, 2, 3),
    Came(A, 30, 3, 4),
    Gives(A, 10, 1),
    Gives(A, 10, 2),
    Nothing,
    Has(A, 1, 0),
];

const BEGINS_ONCE_MORE: &[Step] = &[
    Came(A, 10, 1, 1),
    Ended(A),
    Ended(B),
    Gives(A, 10, 1),
    Begun(A, 5),
    // 10 was released.
    Came(A, 10, 6, 2),
    Has(A, 1, 1),
    Gives(A, 10, 2),
    Came(A, 15, 7, 3),
    Nothing,
    Came(A, 16, 8, 4),
    Gives(A, 15, 3),
    Has(A, 1, 1),
];

/// Takes an arrival. Where an allocation fails the item is given back, and the call is repeated.
fn takes(hold: &mut Hold<u32>, recorder: Recorder, time: u64, now: u64, item: u32) -> bool {
    match hold.came(recorder, time, now, item) {
        Ok(()) => true,
        Err(Refused::AllocFailed(back)) => {
            back == item && hold.came(recorder, time, now, back).is_ok()
        }
        Err(Refused::Full(_)) => false,
    }
}

/// Whether a release gives this, or nothing.
fn gives(hold: &mut Hold<u32>, wanted: Option<(Recorder, u64, u32)>) -> bool {
    let given = match hold.release() {
        Some(released) => Some((released.recorder, released.moment, released.item)),
        None => None,
    };
    given == wanted
}

/// Whether a call comes to what it has to.
fn comes(hold: &mut Hold<u32>, step: Step) -> bool {
    match step {
        Came(recorder, time, now, item) => return takes(hold, recorder, time, now, item),
        Heard(recorder, time, now) => hold.heard(recorder, time, now),
        Silent(recorder, now) => hold.silent(recorder, now),
        Ended(recorder) => hold.ended(recorder),
        Begun(recorder, now) => hold.begun(recorder, now),
        Gives(recorder, moment, item) => return gives(hold, Some((recorder, moment, item))),
        Nothing => return gives(hold, None),
        Has(recorder, waiting, behind) => {
            return hold.waiting(recorder) == waiting && hold.behind(recorder) == behind;
        }
    }
    true
}

/// The first call of a list that comes to something else.
fn first_wrong(alloc: Global, steps: &[Step]) -> Option<usize> {
    let mut hold = Hold::new(alloc, SLACK, 0);
    for (index, step) in steps.iter().enumerate() {
        if !comes(&mut hold, *step) {
            return Some(index);
        }
    }
    None
}

#[test]
fn arrivals_go_on_in_one_order(rt: HostRuntime) {
    for steps in [IN_STEP, EQUAL, SILENT, GOES_BACK, BEGINS_ONCE_MORE] {
        assert_eq!(rt; first_wrong(rt.alloc(), steps), None);
    }
}
