//! The lines of sources.

use sr_capture_audit::{Field, Format, Value, print_row};
use sr_capture_script::ScriptFault;
use sr_frame::Mac;
use sr_sources::{Lane, NodeKind, Source, Sources};
use std::io::Write;

/// A second, in nanoseconds.
const SECOND: u64 = 1_000_000_000;

/// A value that has no name in text.
const fn bare(key: &'static str, value: Value) -> Field {
    Field {
        label: "",
        key,
        value,
    }
}

/// A number under a name.
const fn count(key: &'static str, number: u64) -> Field {
    Field {
        label: key,
        key,
        value: Value::Count(number),
    }
}

/// The word for a kind of node.
fn kind_word(kind: NodeKind) -> &'static str {
    match kind {
        NodeKind::Danp => "danp",
        NodeKind::Danh => "danh",
        NodeKind::RedBox => "redbox",
        NodeKind::BehindRedBox(_) => "behind_redbox",
        NodeKind::San => "san",
        NodeKind::Untold => "untold",
    }
}

/// How many frames came in a second, in the mean of the whole seconds from the first one to the last.
fn per_second(lane: &Lane) -> u64 {
    match (lane.first, lane.rates.last) {
        (Some(first), Some(last)) => {
            lane.frames
                / (last / SECOND)
                    .saturating_sub(first / SECOND)
                    .saturating_add(1)
        }
        _ => 0,
    }
}

/// The line `node`, but for the RedBox.
fn node_fields(mac: Mac, source: &Source) -> [Field; 12] {
    let (a, b) = (&source.a, &source.b);
    [
        bare("source", Value::Mac(mac)),
        bare("kind", Value::Word(kind_word(source.kind()))),
        count("frames_a", a.frames),
        count("frames_b", b.frames),
        count("per_s_a", per_second(a)),
        count("per_s_b", per_second(b)),
        count("most_a", a.rates.fullest.frames),
        count("most_b", b.rates.fullest.frames),
        count("bare_a", a.bare),
        count("bare_b", b.bare),
        count("wrong_a", a.astray),
        count("wrong_b", b.astray),
    ]
}

/// The line of one that stands behind a RedBox.
fn behind_fields(fields: [Field; 12], redbox: Mac) -> [Field; 13] {
    let [a, b, c, d, e, f, g, h, i, j, k, l] = fields;
    let redbox = Field {
        label: "redbox",
        key: "redbox",
        value: Value::Mac(redbox),
    };
    [a, b, c, d, e, f, g, h, i, j, k, l, redbox]
}

/// Prints the line of a source.
fn print_node<W: Write>(
    writer: &mut W,
    format: Format,
    mac: Mac,
    source: &Source,
) -> Result<(), ScriptFault> {
    let fields = node_fields(mac, source);
    match source.kind() {
        NodeKind::BehindRedBox(redbox) => {
            print_row(writer, format, "node", &behind_fields(fields, redbox))
        }
        _ => print_row(writer, format, "node", &fields),
    }
}

/// Prints how much was told of sources that are not kept.
fn print_left_out<W: Write>(writer: &mut W, format: Format, told: u64) -> Result<(), ScriptFault> {
    if told == 0 {
        return Ok(());
    }
    print_row(writer, format, "nodes", &[count("left_out", told)])
}

/// Prints a line for each source, in the order in which they were first told of, and one for what was told of those beyond the 1024th. A table
/// has no place for them.
///
/// # Errors
/// `Write` where the writer fails.
pub fn print_nodes<W: Write>(
    writer: &mut W,
    format: Format,
    sources: &Sources,
) -> Result<(), ScriptFault> {
    if format == Format::Csv {
        return Ok(());
    }
    for (mac, source) in sources.sources() {
        print_node(writer, format, mac, source)?;
    }
    print_left_out(writer, format, sources.left_out())
}
