//! Where a source lost frames, by numbers, times and packets.

use crate::teller::{Teller, put_numbers};
use sr_audit::Side;
use sr_audit_charts::{Losses, Packets, Stretch, Traced};
use sr_page::{Count, Seconds, put, put_all, put_packets, put_some};
use std::io::{self, Write};

/// Writes from when to when a stretch goes.
fn put_times<W: Write>(writer: &mut W, stretch: &Stretch) -> io::Result<()> {
    let (since, until) = (Seconds(stretch.since), Seconds(stretch.until));
    if stretch.since == stretch.until {
        write!(writer, " at {since}, ")
    } else {
        write!(writer, " from {since} to {until}, ")
    }
}

/// Writes a stretch of lost frames.
fn write_stretch<W: Write>(
    writer: &mut W,
    teller: Teller<'_>,
    traced: &Traced,
    lan: Option<Side>,
    stretch: &Stretch,
) -> io::Result<()> {
    put(writer, "<li>")?;
    put_some(writer, stretch.frames, "frame", "frames")?;
    put_times(writer, stretch)?;
    put_numbers(writer, stretch.first, stretch.last)?;
    if let (Some(Packets { first, last }), Some(lan)) = (stretch.packets, lan) {
        let capture = teller.capture_of(lan.other());
        put(writer, "; ")?;
        put_packets(writer, capture, traced.mac, first, last)?;
    }
    put(writer, "</li>\n")
}

/// Writes the frames that a source lost on a LAN, or on both.
fn write_stretches<W: Write>(
    writer: &mut W,
    teller: Teller<'_>,
    traced: &Traced,
    lan: Option<Side>,
    losses: &Losses,
) -> io::Result<()> {
    if losses.rows.is_empty() && losses.others.is_empty() {
        return Ok(());
    }
    let name = match lan {
        Some(_) => teller.lan_of(lan),
        None => teller.topology.either("both LANs", "both ways"),
    };
    put_all(
        writer,
        &["<h4>Lost on ", name, "</h4><ul class=\"stretches\">\n"],
    )?;
    for stretch in &losses.rows {
        write_stretch(writer, teller, traced, lan, stretch)?;
    }
    for stretch in &losses.others {
        write_stretch(writer, teller, traced, lan, stretch)?;
    }
    if losses.more > 0 {
        let more = Count(losses.more);
        writeln!(writer, "<li>{more} more in further rows.</li>")?;
    }
    put(writer, "</ul>\n")
}

/// Writes all stretches of lost frames of a source.
pub(crate) fn write_all_stretches<W: Write>(
    writer: &mut W,
    teller: Teller<'_>,
    traced: &Traced,
) -> io::Result<()> {
    write_stretches(writer, teller, traced, None, &traced.both)?;
    write_stretches(writer, teller, traced, Some(Side::A), &traced.a)?;
    write_stretches(writer, teller, traced, Some(Side::B), &traced.b)
}
