//! The table of single lost frames.

use crate::elements::{close_section, open_section, put, put_all, put_count, put_head};
use crate::names::{NodeName, put_node};
use crate::topology::{Topology, Way};
use sr_frame::Mac;
use std::io::{self, Write};

/// A lost frame.
#[derive(Clone, Copy, Debug, PartialEq, Eq)]
pub struct SingleRow {
    /// When its other copy came, in nanoseconds; of one that no way brought, when a frame with a greater number did.
    pub time: u64,
    /// Its source.
    pub mac: Mac,
    /// Its number.
    pub seq: u16,
    /// The LAN, or the way of a ring, that lost it. None: both did.
    pub lost_on: Option<Way>,
    /// The packet of the other copy. None: no copy came.
    pub packet: Option<u64>,
}

/// Writes a number in a head.
fn put_number_head<W: Write>(writer: &mut W, name: &'static str) -> io::Result<()> {
    put_all(writer, &["<th scope=\"col\" class=\"num\">", name, "</th>"])
}

/// Opens the table of single lost frames, which has some of all. It is folded.
///
/// # Errors
/// The writer fails.
pub fn open_singles<W: Write>(writer: &mut W, shown: u64, all: u64) -> io::Result<()> {
    open_section(writer, "single", "Lost frames one by one")?;
    put(writer, "<p class=\"note\">The first ")?;
    put_count(writer, shown)?;
    put(writer, " of ")?;
    put_count(writer, all)?;
    put(
        writer,
        ", as it was decided what became of them; <code>--list lost</code> has all of them.</p>\n<details><summary>Show the list</summary><div class=\"scroll\"><table class=\"sortable\"><thead><tr>",
    )?;
    put_number_head(writer, "Time in ms")?;
    put_head(writer, "Source")?;
    put_number_head(writer, "Number")?;
    put_head(writer, "Lost on")?;
    put_head(writer, "Came by")?;
    put_number_head(writer, "Packet")?;
    put(writer, "</tr></thead><tbody>\n")
}

/// The way by which a frame came that one lost.
fn other_of(way: Way) -> Way {
    match way {
        Way::A => Way::B,
        Way::B => Way::A,
    }
}

/// Writes where a frame was lost, and by which way it came.
fn put_ways<W: Write>(writer: &mut W, topology: Topology, lost_on: Option<Way>) -> io::Result<()> {
    match lost_on {
        Some(way) => put_all(
            writer,
            &[
                "<td>",
                topology.name_of(way),
                "</td><td>",
                topology.name_of(other_of(way)),
                "</td>",
            ],
        ),
        None => put(writer, "<td>both</td><td>–</td>"),
    }
}

/// Writes a lost frame.
///
/// # Errors
/// The writer fails.
pub fn write_single<W: Write>(
    writer: &mut W,
    names: &[NodeName],
    topology: Topology,
    row: &SingleRow,
) -> io::Result<()> {
    let SingleRow {
        time,
        mac,
        seq,
        lost_on,
        packet,
    } = *row;
    let (millis, nanos) = (time / 1_000_000, time % 1_000_000);
    write!(
        writer,
        "<tr><td class=\"num\" data-v=\"{time}\">{millis}.{nanos:06}</td><td data-v=\"{mac}\">"
    )?;
    put_node(writer, names, mac)?;
    write!(writer, "</td><td class=\"num\">{seq}</td>")?;
    put_ways(writer, topology, lost_on)?;
    match packet {
        Some(packet) => writeln!(writer, "<td class=\"num\">{packet}</td></tr>"),
        None => put(writer, "<td class=\"num nil\" data-v=\"\">–</td></tr>\n"),
    }
}

/// Ends the table of single lost frames.
///
/// # Errors
/// The writer fails.
pub fn close_singles<W: Write>(writer: &mut W) -> io::Result<()> {
    put(writer, "</tbody></table></div></details>\n")?;
    close_section(writer)
}
