//! Families of metrics in the text format 0.0.4 of Prometheus: a name, what it means, its type, and a sample in each line.

use crate::alarms::Raised;
use sr_audit::{Side, Sides};
use sr_frame::Mac;
use std::fmt;
use std::io::{self, Write};

/// What a family is.
#[derive(Clone, Copy)]
pub(crate) enum Kind {
    /// A count that only grows.
    Counter,
    /// A number that may fall.
    Gauge,
    /// Counts by bounds.
    Histogram,
}

/// The word of a kind.
fn kind_word(kind: Kind) -> &'static str {
    match kind {
        Kind::Counter => "counter",
        Kind::Gauge => "gauge",
        Kind::Histogram => "histogram",
    }
}

/// The letter of a LAN in a label.
fn lan_word(side: Side) -> &'static str {
    match side {
        Side::A => "a",
        Side::B => "b",
    }
}

/// Begins a family.
pub(crate) fn print_family<W: Write>(
    writer: &mut W,
    name: &'static str,
    kind: Kind,
    help: &'static str,
) -> io::Result<()> {
    let word = kind_word(kind);
    writeln!(writer, "# HELP {name} {help}")?;
    writeln!(writer, "# TYPE {name} {word}")
}

/// Prints the sample of a LAN.
pub(crate) fn print_of_lan<W: Write, V: fmt::Display + Copy>(
    writer: &mut W,
    name: &'static str,
    side: Side,
    value: V,
) -> io::Result<()> {
    let lan = lan_word(side);
    writeln!(writer, "{name}{{lan=\"{lan}\"}} {value}")
}

/// Prints the sample of a source.
pub(crate) fn print_of_source<W: Write>(
    writer: &mut W,
    name: &'static str,
    mac: Mac,
    value: u64,
) -> io::Result<()> {
    writeln!(writer, "{name}{{source=\"{mac}\"}} {value}")
}

/// Prints the samples of a source, one for each LAN.
pub(crate) fn print_of_sides<W: Write>(
    writer: &mut W,
    name: &'static str,
    mac: Mac,
    sides: Sides,
) -> io::Result<()> {
    let Sides { a, b } = sides;
    writeln!(writer, "{name}{{source=\"{mac}\",lan=\"a\"}} {a}")?;
    writeln!(writer, "{name}{{source=\"{mac}\",lan=\"b\"}} {b}")
}

/// Prints the sample of the sources that were forgotten, together.
pub(crate) fn print_of_forgotten<W: Write>(
    writer: &mut W,
    name: &'static str,
    value: u64,
) -> io::Result<()> {
    writeln!(writer, "{name}{{source=\"forgotten\"}} {value}")
}

/// Prints the samples of the sources that were forgotten, one for each LAN.
pub(crate) fn print_of_forgotten_sides<W: Write>(
    writer: &mut W,
    name: &'static str,
    sides: Sides,
) -> io::Result<()> {
    let Sides { a, b } = sides;
    writeln!(writer, "{name}{{source=\"forgotten\",lan=\"a\"}} {a}")?;
    writeln!(writer, "{name}{{source=\"forgotten\",lan=\"b\"}} {b}")
}

/// Prints the sample of an alarm that is raised. What it is not of has an empty label.
pub(crate) fn print_raised<W: Write>(writer: &mut W, raised: Raised) -> io::Result<()> {
    let word = raised.word();
    let lan = raised.lan().map_or("", |side| lan_word(side));
    match raised.source() {
        Some(mac) => writeln!(
            writer,
            "seamless_alarm{{alarm=\"{word}\",source=\"{mac}\",lan=\"{lan}\"}} 1"
        ),
        None => writeln!(
            writer,
            "seamless_alarm{{alarm=\"{word}\",source=\"\",lan=\"{lan}\"}} 1"
        ),
    }
}
