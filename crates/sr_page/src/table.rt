//! The table of the sources.

use crate::elements::{
    close_section, open_section, put, put_cell, put_count, put_head, put_number_heads,
};
use crate::names::{NodeName, put_node};
use crate::shown::{Count, Skew};
use sr_frame::Mac;
use std::io::{self, Write};

/// The row of a source.
#[derive(Clone, Copy, Debug, PartialEq, Eq)]
pub struct SourceRow {
    /// Its address.
    pub mac: Mac,
    /// How many frames came, by whichever LAN.
    pub frames: u64,
    /// How many came by both.
    pub pairs: u64,
    /// How many LAN A lost.
    pub lost_a: u64,
    /// How many LAN B lost.
    pub lost_b: u64,
    /// How many both lost.
    pub neither: u64,
    /// How many copies came again by the same LAN.
    pub repeated: u64,
    /// How many came behind one with a greater number.
    pub order: u64,
    /// How often its numbers went on far ahead.
    pub jumps: u64,
    /// How often they began anew.
    pub restarts: u64,
    /// The least skew of its pairs, in nanoseconds. None: it has none.
    pub least: Option<i128>,
    /// The mean of them.
    pub mean: Option<i128>,
    /// The greatest one.
    pub greatest: Option<i128>,
    /// The longest time between two of its signs of life, in nanoseconds.
    pub gap: Option<u64>,
}

/// Opens the table of the sources.
///
/// # Errors
/// The writer fails.
pub fn open_sources<W: Write>(writer: &mut W) -> io::Result<()> {
    open_section(writer, "sources", "Sources")?;
    put(
        writer,
        "<div class=\"scroll\"><table class=\"sortable\"><caption>The most serious faults first</caption><thead><tr>",
    )?;
    put_head(writer, "Source")?;
    put_number_heads(
        writer,
        &[
            "Frames",
            "By both",
            "Lost on A",
            "Lost on B",
            "On both",
            "Repeated",
            "Out of order",
            "Jumps",
            "Restarts",
            "Skew, least",
            "mean",
            "greatest",
            "Life gap",
        ],
    )?;
    put(writer, "</tr></thead><tbody>\n")
}

/// Writes a cell with a skew.
fn put_skew<W: Write>(writer: &mut W, skew: Option<i128>) -> io::Result<()> {
    let shown = Skew(skew);
    match skew {
        Some(skew) => write!(writer, "<td class=\"num\" data-v=\"{skew}\">{shown}</td>"),
        None => write!(writer, "<td class=\"num nil\" data-v=\"\">{shown}</td>"),
    }
}

/// Writes a cell with the longest time between two signs of life.
fn put_gap<W: Write>(writer: &mut W, gap: Option<u64>) -> io::Result<()> {
    match gap {
        Some(gap) => {
            let shown = Count(gap / 1_000_000);
            write!(
                writer,
                "<td class=\"num\" data-v=\"{gap}\">{shown}\u{a0}ms</td>"
            )
        }
        None => put(writer, "<td class=\"num nil\" data-v=\"\">–</td>"),
    }
}

/// Writes the cells of what was lost.
fn put_losses<W: Write>(writer: &mut W, row: &SourceRow) -> io::Result<()> {
    put_cell(writer, row.frames, "")?;
    put_cell(writer, row.pairs, "")?;
    put_cell(writer, row.lost_a, "a")?;
    put_cell(writer, row.lost_b, "b")?;
    put_cell(writer, row.neither, "both")?;
    put_cell(writer, row.repeated, "bad")
}

/// Writes the cells of what decides nothing.
fn put_others<W: Write>(writer: &mut W, row: &SourceRow) -> io::Result<()> {
    put_cell(writer, row.order, "")?;
    put_cell(writer, row.jumps, "")?;
    put_cell(writer, row.restarts, "")?;
    put_skew(writer, row.least)?;
    put_skew(writer, row.mean)?;
    put_skew(writer, row.greatest)?;
    put_gap(writer, row.gap)
}

/// Writes the row of a source.
///
/// # Errors
/// The writer fails.
pub fn write_source<W: Write>(
    writer: &mut W,
    names: &[NodeName],
    row: &SourceRow,
) -> io::Result<()> {
    let mac = row.mac;
    write!(writer, "<tr><th scope=\"row\" data-v=\"{mac}\">")?;
    put_node(writer, names, mac)?;
    put(writer, "</th>")?;
    put_losses(writer, row)?;
    put_others(writer, row)?;
    put(writer, "</tr>\n")
}

/// Ends the table of the sources. It says how many packets were of sources that have no row.
///
/// # Errors
/// The writer fails.
pub fn close_sources<W: Write>(writer: &mut W, left_out: u64) -> io::Result<()> {
    put(writer, "</tbody></table></div>\n")?;
    if left_out > 0 {
        put(writer, "<p class=\"note\">")?;
        put_count(writer, left_out)?;
        put(
            writer,
            " packets of sources beyond the 1024th are left out.</p>\n",
        )?;
    }
    close_section(writer)
}
