//! The metrics of a watch: counts since its start, and what is known now.

use crate::alarms::Raised;
use crate::families::{Kind, print_family, print_of_lan, print_raised};
use crate::report::{Packets, waiting_of};
use crate::shown::Nanos;
use crate::sides::{SIDE_FIGURES, print_lasts, print_side_figure};
use crate::skews::print_skews;
use crate::whole::{SOURCE_FIGURES, print_source_figure};
use sr_audit::Side;
use sr_intake::PacketCounts;
use sr_watch::{Forgotten, Header, SourceLine};
use std::io::{self, Write};

/// What metrics tell.
#[derive(Clone, Copy, Debug)]
pub struct Metrics<'a> {
    /// When the report is made, in nanoseconds since 1970, by the clock.
    pub made: u64,
    /// What stands at its head.
    pub header: Header,
    /// How many packets of each kind came since the start.
    pub packets: Packets,
    /// The sources.
    pub sources: &'a [SourceLine],
    /// Those that were forgotten, together.
    pub forgotten: Forgotten,
    /// The alarms that are raised.
    pub raised: &'a [Raised],
}

/// Prints how many packets of each kind came by a LAN.
fn print_kinds<W: Write>(
    writer: &mut W,
    lan: &'static str,
    counts: &PacketCounts,
) -> io::Result<()> {
    let name = "seamless_packets_total";
    let kinds = [
        ("numbered", counts.numbered),
        ("plain", counts.plain),
        ("misfit", counts.misfit),
        ("cut", counts.cut),
        ("long", counts.long),
        ("empty", counts.empty),
    ];
    for (kind, count) in kinds {
        writeln!(writer, "{name}{{lan=\"{lan}\",kind=\"{kind}\"}} {count}")?;
    }
    Ok(())
}

/// Prints a count of each LAN.
fn print_lans<W: Write>(
    writer: &mut W,
    name: &'static str,
    help: &'static str,
    a: u64,
    b: u64,
) -> io::Result<()> {
    print_family(writer, name, Kind::Counter, help)?;
    print_of_lan(writer, name, Side::A, a)?;
    print_of_lan(writer, name, Side::B, b)
}

/// Prints what is known of the captures now.
fn print_captures<W: Write>(writer: &mut W, header: &Header) -> io::Result<()> {
    let name = "seamless_capture_up";
    print_family(
        writer,
        name,
        Kind::Gauge,
        "Whether the capture of this LAN runs.",
    )?;
    print_of_lan(writer, name, Side::A, u64::from(header.a.is_running))?;
    print_of_lan(writer, name, Side::B, u64::from(header.b.is_running))?;
    let name = "seamless_capture_last_packet_timestamp_seconds";
    let help = "The capture time of the last packet of this LAN.";
    print_family(writer, name, Kind::Gauge, help)?;
    if let Some(last) = header.a.last {
        print_of_lan(writer, name, Side::A, Nanos(last))?;
    }
    if let Some(last) = header.b.last {
        print_of_lan(writer, name, Side::B, Nanos(last))?;
    }
    Ok(())
}

/// Prints the counts of the packets of both LANs.
fn print_packets<W: Write>(writer: &mut W, header: &Header, packets: &Packets) -> io::Result<()> {
    let Packets { a, b } = *packets;
    let help = "Packets of this LAN by what they are.";
    print_family(writer, "seamless_packets_total", Kind::Counter, help)?;
    print_kinds(writer, "a", &a)?;
    print_kinds(writer, "b", &b)?;
    let help = "Numbered frames whose trailer names the other LAN.";
    print_lans(
        writer,
        "seamless_wrong_lan_total",
        help,
        a.wrong_lan,
        b.wrong_lan,
    )?;
    let help = "Copies that came later than a recorder may keep them.";
    print_lans(
        writer,
        "seamless_behind_total",
        help,
        header.a.behind,
        header.b.behind,
    )?;
    let help = "Copies that came while the capture of the other LAN did not run.";
    print_lans(
        writer,
        "seamless_unwatched_total",
        help,
        header.a.unwatched,
        header.b.unwatched,
    )
}

/// Prints the alarms that are raised.
fn print_alarms<W: Write>(writer: &mut W, raised: &[Raised]) -> io::Result<()> {
    print_family(
        writer,
        "seamless_alarm",
        Kind::Gauge,
        "An alarm that is raised.",
    )?;
    for alarm in raised {
        print_raised(writer, *alarm)?;
    }
    Ok(())
}

/// Prints a number of the watch as a whole.
fn print_one<W: Write>(
    writer: &mut W,
    name: &'static str,
    kind: Kind,
    help: &'static str,
    value: u64,
) -> io::Result<()> {
    print_family(writer, name, kind, help)?;
    writeln!(writer, "{name} {value}")
}

/// Prints what is known of the watch as a whole.
fn print_whole<W: Write>(writer: &mut W, metrics: &Metrics<'_>) -> io::Result<()> {
    let header = &metrics.header;
    let help = "Sources that are known.";
    print_one(
        writer,
        "seamless_sources",
        Kind::Gauge,
        help,
        header.sources,
    )?;
    let waiting = waiting_of(metrics.sources);
    let help = "Frames whose other copy may still come.";
    print_one(
        writer,
        "seamless_frames_waiting",
        Kind::Gauge,
        help,
        waiting,
    )?;
    let help = "Copies of sources beyond the 1024th.";
    print_one(
        writer,
        "seamless_left_out_total",
        Kind::Counter,
        help,
        header.left_out,
    )?;
    let name = "seamless_report_timestamp_seconds";
    print_family(
        writer,
        name,
        Kind::Gauge,
        "When these metrics were written.",
    )?;
    let made = Nanos(metrics.made);
    writeln!(writer, "{name} {made}")
}

/// Prints the families of the sources.
fn print_sources<W: Write>(
    writer: &mut W,
    sources: &[SourceLine],
    forgotten: &Forgotten,
) -> io::Result<()> {
    for figure in SIDE_FIGURES {
        print_side_figure(writer, figure, sources, forgotten)?;
    }
    for figure in SOURCE_FIGURES {
        print_source_figure(writer, figure, sources, forgotten)?;
    }
    print_skews(writer, sources)?;
    print_lasts(writer, sources)
}

/// Prints metrics in the text format 0.0.4 of Prometheus.
///
/// # Errors
/// Where the writer fails.
pub fn print_metrics<W: Write>(writer: &mut W, metrics: &Metrics<'_>) -> io::Result<()> {
    print_sources(writer, metrics.sources, &metrics.forgotten)?;
    print_packets(writer, &metrics.header, &metrics.packets)?;
    print_captures(writer, &metrics.header)?;
    print_alarms(writer, metrics.raised)?;
    print_whole(writer, metrics)
}
