//! The table of the captures.

use crate::elements::{
    close_section, open_section, put, put_all, put_cell, put_count, put_escaped, put_head,
    put_number_heads,
};
use crate::shown::{Hexadecimal, Seconds};
use crate::topology::Topology;
use sr_markup::Escaped;
use std::io::{self, Write};

/// A file of a capture.
#[derive(Drop)]
pub struct CaptureFile {
    /// Its path.
    pub path: Escaped,
    /// How many octets it has. None: that can't be told.
    pub size: Option<u64>,
    /// The SHA-256 digest of them. None: it can't be read.
    pub digest: Option<[u8; 32]>,
}

/// The figures of a capture.
#[derive(Clone, Copy, Debug, PartialEq, Eq)]
pub struct CaptureCounts {
    /// All packets.
    pub packets: u64,
    /// Frames with a number.
    pub numbered: u64,
    /// Frames without a number.
    pub plain: u64,
    /// Frames that end as one with a trailer, whose trailer is none.
    pub misfit: u64,
    /// Frames whose trailer names the other LAN.
    pub wrong_lan: u64,
    /// Packets that the recorder cut.
    pub cut: u64,
    /// Packets that are longer than a frame.
    pub long: u64,
    /// Packets without octets.
    pub empty: u64,
    /// When the first packet came, in nanoseconds.
    pub first: Option<u64>,
    /// When the last one did.
    pub last: Option<u64>,
}

/// Writes a file of a capture.
fn put_file<W: Write>(writer: &mut W, file: &CaptureFile) -> io::Result<()> {
    put(writer, "<div><span class=\"file\">")?;
    put_escaped(writer, &file.path)?;
    put(writer, "</span>")?;
    if let Some(size) = file.size {
        put(writer, " <span class=\"sub\">")?;
        put_count(writer, size)?;
        put(writer, "\u{a0}octets</span>")?;
    }
    if let Some(digest) = file.digest {
        let shown = Hexadecimal(digest);
        write!(
            writer,
            "<div class=\"sub\">SHA-256 <code>{shown}</code></div>"
        )?;
    }
    put(writer, "</div>")
}

/// Writes a cell with a time.
fn put_time<W: Write>(writer: &mut W, time: Option<u64>) -> io::Result<()> {
    match time {
        Some(time) => {
            let time = Seconds(time);
            write!(writer, "<td class=\"num\">{time}</td>")
        }
        None => put(writer, "<td class=\"num\">–</td>"),
    }
}

/// Writes how many packets of each kind a capture has.
fn put_counts<W: Write>(writer: &mut W, counts: &CaptureCounts) -> io::Result<()> {
    put_cell(writer, counts.packets, "")?;
    put_cell(writer, counts.numbered, "")?;
    put_cell(writer, counts.plain, "")?;
    put_cell(writer, counts.misfit, "bad")?;
    put_cell(writer, counts.wrong_lan, "bad")?;
    put_cell(writer, counts.cut, "")?;
    put_cell(writer, counts.long, "")?;
    put_cell(writer, counts.empty, "")?;
    put_time(writer, counts.first)?;
    put_time(writer, counts.last)
}

/// Opens the table of the captures.
///
/// # Errors
/// The writer fails.
pub fn open_captures<W: Write>(writer: &mut W, topology: Topology) -> io::Result<()> {
    open_section(writer, "captures", "Captures")?;
    put(writer, "<div class=\"scroll\"><table><thead><tr>")?;
    put_head(writer, "Capture")?;
    put_head(writer, "File")?;
    put_number_heads(
        writer,
        &[
            "Packets",
            "With number",
            "Without",
            "Misfit",
            topology.either("Wrong LAN", "Wrong way"),
            "Cut",
            "Long",
            "Empty",
            "From",
            "To",
        ],
    )?;
    put(writer, "</tr></thead><tbody>\n")
}

/// Writes the row of a capture, of a class of the style.
///
/// # Errors
/// The writer fails.
pub fn write_capture<W: Write>(
    writer: &mut W,
    name: &'static str,
    class: &'static str,
    files: &[CaptureFile],
    counts: &CaptureCounts,
) -> io::Result<()> {
    put_all(
        writer,
        &[
            "<tr><th scope=\"row\"><span class=\"",
            class,
            "\">",
            name,
            "</span></th><td class=\"files\">",
        ],
    )?;
    for file in files {
        put_file(writer, file)?;
    }
    put(writer, "</td>")?;
    put_counts(writer, counts)?;
    put(writer, "</tr>\n")
}

/// Ends the table of the captures.
///
/// # Errors
/// The writer fails.
pub fn close_captures<W: Write>(writer: &mut W) -> io::Result<()> {
    put(writer, "</tbody></table></div>\n")?;
    close_section(writer)
}
