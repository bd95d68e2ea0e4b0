//! Readers that fail or give a line in pieces, writers that fail, and the calls that writers get.

use super::runs::Told::{Frames, Status};
use super::steps::{Step, expect_steps};
use sr_session::FaultKind;
use std::io::ErrorKind;

const READERS: &[Step] = &[
    Step::Broken(b"", ErrorKind::Other, b"", 1),
    Step::Broken(b"", ErrorKind::Interrupted, b"", 1),
    Step::Broken(b"in A 0 00\n", ErrorKind::Other, b"refused 1 TooShort\n", 2),
    Step::Broken(
        b"in A 0 00\n",
        ErrorKind::Interrupted,
        b"refused 1 TooShort\n",
        2,
    ),
    Step::Broken(
        b"in A 0 00\nin A 0 00",
        ErrorKind::Other,
        b"refused 1 TooShort\n",
        2,
    ),
    Step::Broken(
        b"in A 0 00\nin A 0 00",
        ErrorKind::Interrupted,
        b"refused 1 TooShort\n",
        2,
    ),
    Step::Broken(
        b"\nin A 0 00\n#",
        ErrorKind::Other,
        b"refused 2 TooShort\n",
        3,
    ),
    Step::Broken(
        b"\nin A 0 00\n#",
        ErrorKind::Interrupted,
        b"refused 2 TooShort\n",
        3,
    ),
];

// A line may come in any pieces.
const PIECES: &[Step] = &[
    Step::Sparse(
        b"in A 0 00\n\n#\nin A 0 00",
        b"refused 1 TooShort\nrefused 4 TooShort\n",
        None,
    ),
    Step::Sparse(
        b"in A 0 00\n\r\nin A 0 00\n",
        b"refused 1 TooShort\n",
        Some((2, FaultKind::Line)),
    ),
];

#[test]
fn lines_in_pieces(rt: HostRuntime) {
    expect_steps(&rt, PIECES);
}

#[test]
fn reader_fails(rt: HostRuntime) {
    expect_steps(&rt, READERS);
}

/// Frames with empty lines between.
const FRAMES_APART: &[u8] = b"\nin A 0 00\n\n\nin A 0 00\n\n";

/// Frames with a line that is not a line of a script.
const A_FAULT_BEHIND: &[u8] = b"in A 0 00\nin A 0 00\nno line\nin A 0 00\n";

/// Each line prints 19 octets.
const TWO_FRAMES: &[u8] = b"in A 0 00\nin A 0 00\n";

const WRITERS: &[Step] = &[
    Step::Narrow(Frames, TWO_FRAMES, 0, Some((1, FaultKind::Write))),
    Step::Narrow(Frames, TWO_FRAMES, 18, Some((1, FaultKind::Write))),
    Step::Narrow(Frames, TWO_FRAMES, 19, Some((2, FaultKind::Write))),
    Step::Narrow(Frames, TWO_FRAMES, 37, Some((2, FaultKind::Write))),
    Step::Narrow(Frames, TWO_FRAMES, 38, None),
    Step::Unflushed(Frames, TWO_FRAMES, Some((2, FaultKind::Write))),
    // Lines that print nothing stand between and behind those that do.
    Step::Narrow(Frames, FRAMES_APART, 18, Some((2, FaultKind::Write))),
    Step::Narrow(Frames, FRAMES_APART, 19, Some((5, FaultKind::Write))),
    Step::Unflushed(Frames, FRAMES_APART, Some((5, FaultKind::Write))),
    // What waits is written before a fault is told, and its own fault goes before that.
    Step::Narrow(Frames, A_FAULT_BEHIND, 38, Some((3, FaultKind::Line))),
    Step::Narrow(Frames, A_FAULT_BEHIND, 37, Some((2, FaultKind::Write))),
    Step::Narrow(Frames, A_FAULT_BEHIND, 18, Some((1, FaultKind::Write))),
    Step::Unflushed(Frames, A_FAULT_BEHIND, Some((2, FaultKind::Write))),
    // What was obeyed is not left to be read, though it was not written.
    Step::Left(TWO_FRAMES, 18, 0),
    Step::Left(A_FAULT_BEHIND, 18, 18),
    // An interrupted write is made again, and goes on where it was; a writer that takes nothing has failed.
    Step::Interrupted(Frames, 1, TWO_FRAMES),
    // However often: the text of a thousand lines goes out in pieces of seven octets.
    Step::Interrupted(Frames, 1000, b"in A 0 00\n"),
    Step::Stuck(Frames, TWO_FRAMES, Some((1, FaultKind::Write))),
];

#[test]
fn writer_fails(rt: HostRuntime) {
    expect_steps(&rt, WRITERS);
}

// What is printed for the whole lines at hand is written at once, and then passed on; a last line without LF is read for
// itself, and what is printed for it goes out too. Where nothing is printed, nothing is called.
const CALLS: &[Step] = &[
    Step::Recorded(Frames, 1, b"in A 0 00\n\nin A 0 00\n#", b"wf"),
    Step::Recorded(Frames, 1, b"in A 0 00\nin A 0 00\nin A 0 00", b"wfwf"),
    Step::Recorded(Frames, 1, b"in A 0 00", b"wf"),
    Step::Recorded(Frames, 1, b"\n#\n", b""),
    // No more waits than 65536 octets: the first 3030 lines print so many, and the next one is read for itself.
    Step::Recorded(Frames, 4000, b"in A 0 00\n", b"wfwfwf"),
];

#[test]
fn answers_are_passed_on_together(rt: HostRuntime) {
    expect_steps(&rt, CALLS);
}

/// A node is heard, of which a line is told at the end.
const HEARD: &[u8] = b"in A 0 02000000000102000000000208005c0005a00788fb\n";

/// Before that 19 octets are printed for a frame that is refused.
const HEARD_AND_REFUSED: &[u8] = b"in A 0 02000000000102000000000208005c0005a00788fb\nin A 0 00\n";

// What is told at the end is written and passed on for itself; the line of a fault is then the one behind the last.
const ENDS: &[Step] = &[
    Step::Recorded(Status, 1, HEARD, b"wf"),
    Step::Recorded(Status, 1, HEARD_AND_REFUSED, b"wfwf"),
    Step::Recorded(Status, 1, b"\n#\n", b""),
    Step::Narrow(Status, HEARD_AND_REFUSED, 18, Some((2, FaultKind::Write))),
    Step::Narrow(Status, HEARD_AND_REFUSED, 19, Some((3, FaultKind::Write))),
    Step::Unflushed(Status, HEARD, Some((2, FaultKind::Write))),
    Step::Unflushed(Status, HEARD_AND_REFUSED, Some((2, FaultKind::Write))),
    Step::Interrupted(Status, 1, HEARD_AND_REFUSED),
    Step::Stuck(Status, HEARD, Some((2, FaultKind::Write))),
];

#[test]
fn the_end_is_passed_on(rt: HostRuntime) {
    expect_steps(&rt, ENDS);
}
