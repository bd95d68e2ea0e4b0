//! The line of a ring that is cut.

use crate::lines::{Frame, count, since};
use crate::place::{Neighbour, Place};
use crate::shared::Cut;
use sr_capture_audit::{Field, Format, Value, print_row};
use sr_capture_script::ScriptFault;
use std::io::Write;

/// The source next to a cut on one side of it, or the recorder, where none there has a place.
fn next_to(label: &'static str, key: &'static str, neighbour: Option<Neighbour>) -> Field {
    let value = match neighbour {
        Some(Neighbour { mac, .. }) => Value::Mac(mac),
        None => Value::Word("recorder"),
    };
    Field { label, key, value }
}

/// What the line of a cut has of the sources at it, and of its time.
#[derive(Clone, Copy)]
struct Sided {
    /// How many sources were heard by A alone.
    a: Field,
    /// How many by B alone.
    b: Field,
    /// How many frames of them came meanwhile.
    frames: Field,
    /// When the first of them came.
    begin: Field,
}

/// When the last frame came by one side alone, before a ring was mended.
fn until(time: u64) -> Field {
    Field {
        label: "until",
        key: "until_ms",
        value: Value::Time(Some(time)),
    }
}

/// Prints the line of a cut whose place is not known.
fn print_anywhere<W: Write>(
    writer: &mut W,
    format: Format,
    frame: Frame,
    sided: Sided,
    end: Option<u64>,
) -> Result<(), ScriptFault> {
    let Frame {
        severity,
        kind,
        advice,
    } = frame;
    let Sided {
        a,
        b,
        frames,
        begin,
    } = sided;
    match end {
        Some(end) => print_row(
            writer,
            format,
            severity,
            &[kind, a, b, frames, begin, until(end), advice],
        ),
        None => print_row(
            writer,
            format,
            severity,
            &[kind, a, b, frames, begin, advice],
        ),
    }
}

/// Prints the line of a cut with its place.
fn print_between<W: Write>(
    writer: &mut W,
    format: Format,
    frame: Frame,
    sided: Sided,
    end: Option<u64>,
    place: Place,
) -> Result<(), ScriptFault> {
    let Frame {
        severity,
        kind,
        advice,
    } = frame;
    let Sided {
        a,
        b,
        frames,
        begin,
    } = sided;
    let next_a = next_to("between", "next_a", place.at_a);
    let next_b = next_to("and", "next_b", place.at_b);
    match end {
        Some(end) => print_row(
            writer,
            format,
            severity,
            &[
                kind,
                a,
                b,
                frames,
                begin,
                until(end),
                next_a,
                next_b,
                advice,
            ],
        ),
        None => print_row(
            writer,
            format,
            severity,
            &[kind, a, b, frames, begin, next_a, next_b, advice],
        ),
    }
}

/// Prints the line of a cut: how many sources are on each side of it, since when, until when if it was mended, and between which two it
/// lies, if one of them is known.
pub(crate) fn print_cut<W: Write>(
    writer: &mut W,
    format: Format,
    frame: Frame,
    cut: Cut,
    place: Place,
) -> Result<(), ScriptFault> {
    let sided = Sided {
        a: count("sided_a", cut.at_a),
        b: count("sided_b", cut.at_b),
        frames: count("frames", cut.frames),
        begin: since(Some(cut.since)),
    };
    if place.at_a.is_none() && place.at_b.is_none() {
        return print_anywhere(writer, format, frame, sided, cut.until);
    }
    print_between(writer, format, frame, sided, cut.until, place)
}
