//! Metrics of a source that each LAN has.

use crate::families::{Kind, print_family, print_of_forgotten_sides, print_of_sides};
use crate::shown::Nanos;
use sr_audit::Sides;
use sr_frame::Mac;
use sr_watch::{Counts, Forgotten, SourceLine};
use std::io::{self, Write};

/// A figure of a source that each LAN has.
#[derive(Clone, Copy)]
pub(crate) enum SideFigure {
    Copies,
    Repeated,
    Overtaken,
    Lost,
    Late,
}

/// All of them.
pub(crate) const SIDE_FIGURES: [SideFigure; 5] = [
    SideFigure::Copies,
    SideFigure::Repeated,
    SideFigure::Overtaken,
    SideFigure::Lost,
    SideFigure::Late,
];

/// The name of a figure.
fn name_of(figure: SideFigure) -> &'static str {
    match figure {
        SideFigure::Copies => "seamless_copies_total",
        SideFigure::Repeated => "seamless_copies_repeated_total",
        SideFigure::Overtaken => "seamless_copies_overtaken_total",
        SideFigure::Lost => "seamless_frames_lost_total",
        SideFigure::Late => "seamless_frames_late_total",
    }
}

/// What a figure means.
fn help_of(figure: SideFigure) -> &'static str {
    match figure {
        SideFigure::Copies => "Copies that came by this LAN.",
        SideFigure::Repeated => "Copies behind an earlier one of their frame by this LAN.",
        SideFigure::Overtaken => "First copies behind one of a later frame by this LAN.",
        SideFigure::Lost => "Frames of which no copy came by this LAN within 400 ms.",
        SideFigure::Late => "Frames of which a copy came by this LAN later than that.",
    }
}

/// A figure of these counts.
fn value_of(figure: SideFigure, counts: &Counts) -> Sides {
    match figure {
        SideFigure::Copies => counts.rx,
        SideFigure::Repeated => counts.repeats,
        SideFigure::Overtaken => counts.order,
        SideFigure::Lost => counts.lost,
        SideFigure::Late => counts.late,
    }
}

/// A figure of the sources that were forgotten.
fn forgotten_of(figure: SideFigure, forgotten: &Forgotten) -> Sides {
    match figure {
        SideFigure::Copies => forgotten.rx,
        SideFigure::Repeated => forgotten.repeats,
        SideFigure::Overtaken => forgotten.order,
        SideFigure::Lost => forgotten.lost,
        SideFigure::Late => forgotten.late,
    }
}

/// Prints a figure of each source, and of those that were forgotten.
pub(crate) fn print_side_figure<W: Write>(
    writer: &mut W,
    figure: SideFigure,
    sources: &[SourceLine],
    forgotten: &Forgotten,
) -> io::Result<()> {
    let name = name_of(figure);
    print_family(writer, name, Kind::Counter, help_of(figure))?;
    for line in sources {
        print_of_sides(writer, name, line.source, value_of(figure, &line.total))?;
    }
    print_of_forgotten_sides(writer, name, forgotten_of(figure, forgotten))
}

/// Prints when the last copy of a source came by a LAN, if one came.
fn print_last<W: Write>(
    writer: &mut W,
    name: &'static str,
    mac: Mac,
    lan: &'static str,
    last: Option<u64>,
) -> io::Result<()> {
    match last {
        Some(last) => {
            let last = Nanos(last);
            writeln!(writer, "{name}{{source=\"{mac}\",lan=\"{lan}\"}} {last}")
        }
        None => Ok(()),
    }
}

/// Prints when the last copies of each source came.
pub(crate) fn print_lasts<W: Write>(writer: &mut W, sources: &[SourceLine]) -> io::Result<()> {
    let name = "seamless_source_last_copy_timestamp_seconds";
    let help = "The capture time of the last copy that came by this LAN.";
    print_family(writer, name, Kind::Gauge, help)?;
    for line in sources {
        print_last(writer, name, line.source, "a", line.last.a)?;
        print_last(writer, name, line.source, "b", line.last.b)?;
    }
    Ok(())
}
