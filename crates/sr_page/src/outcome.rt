//! The verdict of a page, and what stands below it.

ghost use Rattle.std.specs.Prelude.{◌≡◌};
ghost use Rattle.sr_page.specs.Outcomes.{outcome_by};

use crate::elements::{put, put_all, put_count, put_escaped, put_some, word_for};
use crate::shown::Percent;
use crate::topology::Topology;
use crate::totals::Totals;
use sr_markup::Escaped;
use std::io::{self, Write};

/// How an audit ends.
#[derive(Clone, Copy, Debug, PartialEq, Eq)]
pub enum Outcome {
    /// No figure tells of a fault.
    Pass,
    /// A figure does.
    Fail,
    /// Nothing can be judged.
    Open,
}

/// The outcome by the exit status of a check: 0 of a network without a fault, 3 of one with faults, and any other where nothing can be
/// judged.
pub fn outcome_by(status: u8) -> Outcome
    ensures { result ≡ outcome_by status }
{
    match status {
        0 => Outcome::Pass,
        3 => Outcome::Fail,
        _ => Outcome::Open,
    }
}

/// The word for an outcome.
pub(crate) fn word_of(outcome: Outcome) -> &'static str {
    match outcome {
        Outcome::Pass => "PASS",
        Outcome::Fail => "FAIL",
        Outcome::Open => "NO VERDICT",
    }
}

/// The class of an outcome in the style.
fn class_of(outcome: Outcome) -> &'static str {
    match outcome {
        Outcome::Pass => "pass",
        Outcome::Fail => "fail",
        Outcome::Open => "open",
    }
}

/// The shape of an outcome: a tick in a disc, a cross in an octagon, or a question mark in a diamond.
fn shape_of(outcome: Outcome) -> &'static str {
    match outcome {
        Outcome::Pass => {
            "<circle cx=\"16\" cy=\"16\" r=\"15\"/><path class=\"ink\" d=\"M8 16.5l5.5 5.5L24 11\"/>"
        }
        Outcome::Fail => {
            "<path d=\"M10 1h12l9 9v12l-9 9H10l-9-9V10z\"/><path class=\"ink\" d=\"M10.5 10.5l11 11M21.5 10.5l-11 11\"/>"
        }
        Outcome::Open => {
            "<path d=\"M16 1l15 15-15 15L1 16z\"/><path class=\"ink\" d=\"M12 12.5a4 4 0 1 1 5 4q-1 .5-1 2.5M16 23v.5\"/>"
        }
    }
}

/// Writes what a customer reads first of a network without a fault.
fn put_passed<W: Write>(writer: &mut W, topology: Topology, totals: &Totals) -> io::Result<()> {
    put_all(
        writer,
        &[
            "No fault was found: while both captures ran, each frame that had to came by both ",
            topology.either("LANs", "ways of the ring"),
            ". ",
        ],
    )?;
    put_some(writer, totals.frames, "frame", "frames")?;
    put(writer, " of ")?;
    put_some(writer, totals.sources, "source", "sources")?;
    put(writer, ".")
}

/// Writes how many frames reached no receiver.
fn put_undelivered<W: Write>(
    writer: &mut W,
    topology: Topology,
    totals: &Totals,
) -> io::Result<()> {
    let share = totals.frames;
    let whole = totals.frames.saturating_add(totals.neither);
    let delivered = Percent { share, whole };
    write!(writer, "{delivered} of all frames were delivered; ")?;
    put_count(writer, totals.neither)?;
    put_all(
        writer,
        &[
            word_for(totals.neither, " was", " were"),
            topology.either(" lost on both LANs", " lost on both ways"),
            ", and reached no receiver.",
        ],
    )
}

/// Writes what a customer reads first of a network with faults.
fn put_failed<W: Write>(writer: &mut W, topology: Topology, totals: &Totals) -> io::Result<()> {
    if totals.neither > 0 {
        put_undelivered(writer, topology, totals)
    } else if totals.lost_a > 0 || totals.lost_b > 0 {
        put_all(
            writer,
            &[
                "No frame is seen to be lost on both ",
                topology.either("LANs", "ways"),
                ", but not each came by both: a second fault would have lost frames.",
            ],
        )
    } else {
        put(
            writer,
            "No frame is seen to be lost, but something is wrong with the network.",
        )
    }
}

/// Writes what a customer reads first.
fn put_lead<W: Write>(
    writer: &mut W,
    outcome: Outcome,
    topology: Topology,
    totals: &Totals,
) -> io::Result<()> {
    match outcome {
        Outcome::Pass => put_passed(writer, topology, totals),
        Outcome::Fail => put_failed(writer, topology, totals),
        Outcome::Open => put(writer, "These captures do not suffice for a verdict."),
    }
}

/// Opens the verdict: its word, its shape and a sentence. Behind it stand its reasons, each an item of a list.
///
/// # Errors
/// The writer fails.
pub fn open_verdict<W: Write>(
    writer: &mut W,
    outcome: Outcome,
    topology: Topology,
    totals: &Totals,
) -> io::Result<()> {
    put_all(
        writer,
        &[
            "<section id=\"verdict\" class=\"",
            class_of(outcome),
            "\" aria-labelledby=\"h-word\"><svg class=\"icon\" viewBox=\"0 0 32 32\" aria-hidden=\"true\">",
            shape_of(outcome),
            "</svg><div><h2 id=\"h-word\">",
            word_of(outcome),
            "</h2>\n<p class=\"lead\">",
        ],
    )?;
    put_lead(writer, outcome, topology, totals)?;
    put(writer, "</p>\n<ul class=\"reasons\">\n")
}

/// Writes a reason that has no number.
///
/// # Errors
/// The writer fails.
pub fn write_doubt<W: Write>(writer: &mut W, doubt: &Escaped) -> io::Result<()> {
    put(writer, "<li>")?;
    put_escaped(writer, doubt)?;
    put(writer, "</li>\n")
}

/// Writes a reason: how many of what are wrong. Of none nothing is written.
///
/// # Errors
/// The writer fails.
pub fn write_reason<W: Write>(
    writer: &mut W,
    count: u64,
    one: &'static str,
    many: &'static str,
) -> io::Result<()> {
    if count == 0 {
        return Ok(());
    }
    put(writer, "<li><b>")?;
    put_count(writer, count)?;
    put_all(writer, &["</b> ", word_for(count, one, many), "</li>\n"])
}

/// Ends the verdict.
///
/// # Errors
/// The writer fails.
pub fn close_verdict<W: Write>(writer: &mut W) -> io::Result<()> {
    put(writer, "</ul></div></section>\n")
}
