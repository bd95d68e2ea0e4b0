//! The lines of a report.

use crate::rows::{Field, Format, Value, bare, count, named, print_row};
use sr_audit::Sides;
use sr_dates::Moment;
use sr_intake::PacketCounts;
use sr_watch::{Changes, Header, LanCounts, SourceLine};
use std::io::{self, Write};

/// How many packets of each LAN came, by their kinds.
#[derive(Clone, Copy, Debug, PartialEq, Eq)]
pub struct Packets {
    /// Those of LAN A.
    pub a: PacketCounts,
    /// Those of LAN B.
    pub b: PacketCounts,
}

/// What a report tells.
#[derive(Clone, Copy, Debug)]
pub struct Told<'a> {
    /// When it is made: in capture time, or by the clock before a packet came.
    pub at: Moment,
    /// How long before that the report ahead of it was, or the first packet, in nanoseconds.
    pub elapsed: u64,
    /// What stands at its head.
    pub header: Header,
    /// How many packets of each kind came since the report before it.
    pub packets: Packets,
    /// The sources.
    pub sources: &'a [SourceLine],
}

/// What each object has behind its word.
fn head_of(told: &Told<'_>) -> [Field; 2] {
    [
        named("at", Value::At(told.at)),
        named("seconds", Value::Seconds(told.elapsed)),
    ]
}

/// How many frames of all sources wait for their other copy.
pub(crate) fn waiting_of(sources: &[SourceLine]) -> u64 {
    let mut sum: u64 = 0;
    for line in sources {
        let Sides { a, b } = line.waiting;
        sum = sum.saturating_add(a).saturating_add(b);
    }
    sum
}

/// Prints the line of the report as a whole.
fn print_head<W: Write>(writer: &mut W, format: Format, told: &Told<'_>) -> io::Result<()> {
    let header = &told.header;
    let [at, seconds] = head_of(told);
    let waiting = count("waiting", waiting_of(told.sources));
    let held = count("held", header.a.held.saturating_add(header.b.held));
    let sources = count("sources", header.sources);
    let forgotten = count("forgotten", header.forgotten);
    let left_out = count("left_out", header.left_out);
    match format {
        Format::Text => {
            print_row(
                writer,
                format,
                "report",
                &[],
                &[at, seconds, waiting, held, sources, forgotten, left_out],
            )
        }
        Format::Json => {
            print_row(
                writer,
                format,
                "report",
                &[at, seconds],
                &[waiting, held, sources, forgotten, left_out],
            )
        }
    }
}

/// Prints the line of a LAN's capture: its packets of the interval, and counts since the start of what is in no line of a source.
fn print_capture<W: Write>(
    writer: &mut W,
    format: Format,
    head: &[Field],
    name: &'static str,
    packets: &PacketCounts,
    lan: &LanCounts,
) -> io::Result<()> {
    let state = if lan.is_running { "running" } else { "stopped" };
    print_row(
        writer,
        format,
        "capture",
        head,
        &[
            bare("capture", Value::Word(name)),
            bare("state", Value::Word(state)),
            count("packets", packets.packets),
            count("numbered", packets.numbered),
            count("plain", packets.plain),
            count("misfit", packets.misfit),
            count("wrong_lan", packets.wrong_lan),
            count("cut", packets.cut),
            count("long", packets.long),
            count("empty", packets.empty),
            count("unwatched", lan.unwatched),
            count("behind", lan.behind),
        ],
    )
}

/// A change of a count under a name.
fn change(key: &'static str, number: i128) -> Field {
    named(key, Value::Change(number))
}

/// How long ago the last copy by a LAN was. None: none came.
fn age_of(mark: u64, last: Option<u64>) -> Value {
    Value::Time(last.map(|last| mark.saturating_sub(last)))
}

/// The mean skew of an interval, rounded down. None: it has no pair.
fn mean_of(interval: &Changes) -> Option<i128> {
    if interval.pairs > 0 {
        interval.skew_sum.checked_div_euclid(interval.pairs)
    } else {
        None
    }
}

/// What the line of a source has.
fn source_fields(mark: u64, line: &SourceLine) -> [Field; 20] {
    let interval = &line.interval;
    let least = line.spread.map(|spread| spread.least);
    let greatest = line.spread.map(|spread| spread.greatest);
    [
        bare("source", Value::Mac(line.source)),
        change("rx_a", interval.rx.a),
        change("rx_b", interval.rx.b),
        change("both", interval.both),
        change("lost_a", interval.lost.a),
        change("lost_b", interval.lost.b),
        change("late_a", interval.late.a),
        change("late_b", interval.late.b),
        change("neither", interval.neither),
        change("repeat_a", interval.repeats.a),
        change("repeat_b", interval.repeats.b),
        change("order_a", interval.order.a),
        change("order_b", interval.order.b),
        change("jumps", interval.jumps),
        change("restarts", interval.restarts),
        named("skew_least_us", Value::Skew(least)),
        named("skew_mean_us", Value::Skew(mean_of(interval))),
        named("skew_greatest_us", Value::Skew(greatest)),
        named("age_a_ms", age_of(mark, line.last.a)),
        named("age_b_ms", age_of(mark, line.last.b)),
    ]
}

/// Prints a report: a line for the whole, one for each capture, and one for each source.
///
/// # Errors
/// Where the writer fails.
pub fn print_report<W: Write>(writer: &mut W, format: Format, told: &Told<'_>) -> io::Result<()> {
    let head = head_of(told);
    print_head(writer, format, told)?;
    let Header { a, b, mark, .. } = told.header;
    print_capture(writer, format, &head, "A", &told.packets.a, &a)?;
    print_capture(writer, format, &head, "B", &told.packets.b, &b)?;
    for line in told.sources {
        print_row(writer, format, "source", &head, &source_fields(mark, line))?;
    }
    Ok(())
}
