//! Whether the files of a capture are named in the order of their times.

use crate::files::open_captures;
use crate::progress::Progress;
use sr_advice::letter_of;
use sr_capture_script::{Captures, Inlet, Options};
use sr_options::Paths;
use sr_pcapng::Wanted;
use std::fs::File;
use std::io::BufRead;
use std::rt::Files;

/// When a file begins and ends: the moments of its first packet and of its latest, in nanoseconds.
#[derive(Clone, Copy)]
struct Range {
    first: u64,
    last: u64,
}

/// When a capture begins and ends, as far as it can be read.
fn range_in<R: BufRead + Drop>(captures: &mut Captures<R>) -> Option<Range> {
    let first = captures.front()?.moment;
    let mut last = first;
    for _ in 0..u64::MAX {
        let Some(front) = captures.front() else {
            break;
        };
        last = front.moment;
        if captures.advance(front.inlet).is_err() {
            break;
        }
    }
    Some(Range { first, last })
}

/// When a file begins and ends. None: it has no packets, or can't be opened, which standard error is told where it is read.
fn range_of<R: AllocGlobal + Eprint + Files>(
    rt: &R,
    paths: Paths<'_>,
    wanted: Wanted,
    options: &Options,
) -> Option<Range> {
    let mut interfaces = options.interfaces;
    interfaces.a = wanted;
    let options = Options {
        interfaces,
        ..*options
    };
    let mut captures = open_captures(rt, Some(paths), None, &options, Progress::Silent).ok()?;
    let range = range_in(&mut captures);
    drop(captures);
    range
}

/// Says that a file begins before the end of that before it. The error is that it begins before its beginning, so that they are named in
/// another order.
fn compare<R: Eprint>(
    rt: &R,
    letter: &str,
    before: (Range, &str),
    behind: (Range, &str),
) -> Result<(), ()> {
    let ((early, ahead), (late, path)) = (before, behind);
    if late.first < early.first {
        let _ = eprintln!(rt;
            "fault {letter} order 0\n{path} begins before {ahead}, which is named ahead of it: name files in the order of their times"
        );
        return Err(());
    }
    if late.first < early.last {
        let _ = eprintln!(rt;
            "{letter}: {path} begins before the end of {ahead}, which is read before it: are they of one recorder?"
        );
    }
    Ok(())
}

/// Whether a path leads to a file that can be read, and read again.
fn is_file<R: Files>(rt: &R, path: &str) -> bool {
    std::fs::metadata(rt, path).is_ok_and(|metadata| metadata.is_file())
        && File::open(rt, path).is_ok()
}

/// Says where the files of a capture are not named in the order of their times. Where one of them begins before the one ahead of it, that is
/// a fault. Of what can be read once alone nothing is told.
pub fn check_order<R: AllocGlobal + Eprint + Files>(
    rt: &R,
    inlet: Inlet,
    paths: Option<Paths<'_>>,
    wanted: Wanted,
    options: &Options,
) -> Result<(), ()> {
    let Some(paths) = paths else {
        return Ok(());
    };
    if paths.count < 2 {
        return Ok(());
    }
    let letter = letter_of(inlet);
    let mut before = None;
    for place in 0..paths.count {
        let Some(path) = paths.path(place) else {
            break;
        };
        if !is_file(rt, path) {
            before = None;
            continue;
        }
        let Some(range) = range_of(rt, paths.alone(place), wanted, options) else {
            continue;
        };
        if let Some(ahead) = before {
            compare(rt, letter, ahead, (range, path))?;
        }
        before = Some((range, path));
    }
    Ok(())
}
