//! Metrics of a source as a whole.

use crate::families::{Kind, print_family, print_of_forgotten, print_of_source};
use sr_audit::Sides;
use sr_watch::{Forgotten, SourceLine};
use std::io::{self, Write};

/// A figure of a source as a whole.
#[derive(Clone, Copy)]
pub(crate) enum SourceFigure {
    Both,
    Numbers,
    Frames,
    Jumps,
    Restarts,
}

/// All of them.
pub(crate) const SOURCE_FIGURES: [SourceFigure; 5] = [
    SourceFigure::Both,
    SourceFigure::Numbers,
    SourceFigure::Frames,
    SourceFigure::Jumps,
    SourceFigure::Restarts,
];

/// The name of a figure.
fn name_of(figure: SourceFigure) -> &'static str {
    match figure {
        SourceFigure::Both => "seamless_frames_both_total",
        SourceFigure::Numbers => "seamless_numbers_total",
        SourceFigure::Frames => "seamless_frames_total",
        SourceFigure::Jumps => "seamless_jumps_total",
        SourceFigure::Restarts => "seamless_restarts_total",
    }
}

/// What a figure means.
fn help_of(figure: SourceFigure) -> &'static str {
    match figure {
        SourceFigure::Both => "Frames that came by both LANs within 400 ms.",
        SourceFigure::Numbers => "Numbers that the source gave, by the frames that came.",
        SourceFigure::Frames => "Frames of which a copy came.",
        SourceFigure::Jumps => "Times that numbers went on more than 1023 ahead.",
        SourceFigure::Restarts => "Times that numbers began anew behind a silence.",
    }
}

/// How many frames came, by one LAN or both: each LAN lost those that came by the other one alone.
fn frames_of(both: u64, lost: Sides, waiting: Sides) -> u64 {
    both.saturating_add(lost.a)
        .saturating_add(lost.b)
        .saturating_add(waiting.a)
        .saturating_add(waiting.b)
}

/// A figure of a source.
fn value_of(figure: SourceFigure, line: &SourceLine) -> u64 {
    let total = &line.total;
    let frames = frames_of(total.both, total.lost, line.waiting);
    match figure {
        SourceFigure::Both => total.both,
        SourceFigure::Numbers => frames.saturating_add(total.neither),
        SourceFigure::Frames => frames,
        SourceFigure::Jumps => total.jumps,
        SourceFigure::Restarts => total.restarts,
    }
}

/// A figure of the sources that were forgotten.
fn forgotten_of(figure: SourceFigure, forgotten: &Forgotten) -> u64 {
    let frames = frames_of(forgotten.both, forgotten.lost, Sides::NONE);
    match figure {
        SourceFigure::Both => forgotten.both,
        SourceFigure::Numbers => frames.saturating_add(forgotten.neither),
        SourceFigure::Frames => frames,
        SourceFigure::Jumps => forgotten.jumps,
        SourceFigure::Restarts => forgotten.restarts,
    }
}

/// Prints a figure of each source, and of those that were forgotten.
pub(crate) fn print_source_figure<W: Write>(
    writer: &mut W,
    figure: SourceFigure,
    sources: &[SourceLine],
    forgotten: &Forgotten,
) -> io::Result<()> {
    let name = name_of(figure);
    print_family(writer, name, Kind::Counter, help_of(figure))?;
    for line in sources {
        print_of_source(writer, name, line.source, value_of(figure, line))?;
    }
    print_of_forgotten(writer, name, forgotten_of(figure, forgotten))
}
