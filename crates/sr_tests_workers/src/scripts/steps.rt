//! Scripts of single workers, and what comes of them.

// What a script hands out.
#[derive(Clone, Copy)]
pub(super) enum Say {
    Frame(u64),
    Tick(u64),
    Idle,
}

// Who works.
#[derive(Clone, Copy, PartialEq, Eq)]
pub(super) enum Who {
    A,
    Ager,
    Host,
}

// A worker with a script, for so many turns. Before it begins the host has sent so many frames.
#[derive(Clone, Copy)]
pub(super) struct Step {
    pub(super) who: Who,
    pub(super) sends: u64,
    pub(super) script: &'static [Say],
    pub(super) turns: u64,
    pub(super) wanted: Counts,
}

// What comes of it: frames and times that were unread, ticks, frames that were sent, takes, and the ends of the frames that the feed
// was given.
#[derive(Clone, Copy, PartialEq, Eq)]
pub(super) struct Counts {
    pub(super) unread: u64,
    pub(super) ticks: usize,
    pub(super) sent: usize,
    pub(super) takes: usize,
    pub(super) first: Option<[u8; 6]>,
    pub(super) second: Option<[u8; 6]>,
}

const MIXED: &[Say] = &[
    Say::Frame(0),
    Say::Tick(10),
    Say::Idle,
    Say::Frame(20),
    Say::Tick(30),
];

// The trailers of the first two frames that the node sends, at LAN A.
const FIRST: Option<[u8; 6]> = Some([0xfb, 0xff, 0xa0, 52, 0x88, 0xfb]);

const SECOND: Option<[u8; 6]> = Some([0xfc, 0x00, 0xa0, 52, 0x88, 0xfb]);

pub(super) const STEPS: &[Step] = &[
    Step {
        who: Who::Ager,
        sends: 0,
        script: MIXED,
        turns: 9,
        wanted: Counts {
            unread: 2,
            ticks: 2,
            sent: 0,
            takes: 0,
            first: None,
            second: None,
        },
    },
    Step {
        who: Who::Host,
        sends: 0,
        script: MIXED,
        turns: 9,
        wanted: Counts {
            unread: 0,
            ticks: 2,
            sent: 2,
            takes: 5,
            first: None,
            second: None,
        },
    },
    Step {
        who: Who::Host,
        sends: 0,
        script: MIXED,
        turns: 1,
        wanted: Counts {
            unread: 0,
            ticks: 0,
            sent: 1,
            takes: 1,
            first: None,
            second: None,
        },
    },
    Step {
        who: Who::A,
        sends: 1,
        script: &[Say::Idle],
        turns: 1,
        wanted: Counts {
            unread: 0,
            ticks: 0,
            sent: 0,
            takes: 2,
            first: FIRST,
            second: None,
        },
    },
    Step {
        who: Who::A,
        sends: 2,
        script: &[Say::Idle, Say::Idle],
        turns: 9,
        wanted: Counts {
            unread: 0,
            ticks: 0,
            sent: 0,
            takes: 4,
            first: FIRST,
            second: SECOND,
        },
    },
    Step {
        who: Who::A,
        sends: 2,
        script: &[],
        turns: 9,
        wanted: Counts {
            unread: 0,
            ticks: 0,
            sent: 0,
            takes: 0,
            first: None,
            second: None,
        },
    },
];
