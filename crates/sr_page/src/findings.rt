//! The list of findings: each a sentence, where it is seen, and what to do.

use crate::elements::{put, put_all, put_escaped};
use crate::names::{NodeName, put_node};
use crate::shown::Seconds;
use sr_frame::Mac;
use sr_markup::Escaped;
use std::io::{self, Write};

/// How much a finding weighs.
#[derive(Clone, Copy, Debug, PartialEq, Eq)]
pub enum Weight {
    /// Frames reached no receiver, or the network is not what it is to be.
    Grave,
    /// It is a fault.
    Fault,
    /// It decides nothing.
    Remark,
}

/// The class of a weight in the style.
fn class_of(weight: Weight) -> &'static str {
    match weight {
        Weight::Grave => "w0",
        Weight::Fault => "w1",
        Weight::Remark => "w2",
    }
}

/// Opens a list of findings.
///
/// # Errors
/// The writer fails.
pub fn open_findings<W: Write>(writer: &mut W) -> io::Result<()> {
    put(writer, "<ol class=\"findings\">\n")
}

/// Ends a list of findings.
///
/// # Errors
/// The writer fails.
pub fn close_findings<W: Write>(writer: &mut W) -> io::Result<()> {
    put(writer, "</ol>\n")
}

/// Opens a finding of a kind. Behind it stands its sentence.
///
/// # Errors
/// The writer fails.
pub fn open_finding<W: Write>(
    writer: &mut W,
    weight: Weight,
    kind: &'static str,
) -> io::Result<()> {
    put_all(
        writer,
        &[
            "<li class=\"",
            class_of(weight),
            "\"><span class=\"kind\">",
            kind,
            "</span><div><p>",
        ],
    )
}

/// Writes the node that a finding tells of.
///
/// # Errors
/// The writer fails.
pub fn put_subject<W: Write>(writer: &mut W, names: &[NodeName], mac: Mac) -> io::Result<()> {
    put_node(writer, names, mac)?;
    put(writer, ": ")
}

/// Writes since when a finding holds.
///
/// # Errors
/// The writer fails.
pub fn put_since<W: Write>(writer: &mut W, time: u64) -> io::Result<()> {
    let time = Seconds(time);
    write!(writer, ", since {time}")
}

/// Goes on from the sentence of a finding to what to do.
///
/// # Errors
/// The writer fails.
pub fn put_advice<W: Write>(writer: &mut W, advice: &'static str) -> io::Result<()> {
    put_all(writer, &[".</p><p class=\"where\">", advice, ".</p>"])
}

/// Writes the display filter of Wireshark that shows the frames of a node.
///
/// # Errors
/// The writer fails.
pub fn put_filter<W: Write>(writer: &mut W, mac: Mac) -> io::Result<()> {
    write!(
        writer,
        "<p class=\"where\">In Wireshark: <code class=\"filter\">eth.src == {mac}</code></p>"
    )
}

/// Writes a packet of a capture, and the display filter of Wireshark that shows it.
fn put_packet<W: Write>(
    writer: &mut W,
    capture: &'static str,
    mac: Mac,
    packet: u64,
) -> io::Result<()> {
    write!(
        writer,
        "capture {capture}, packet {packet}: <code class=\"filter\">eth.src == {mac} &amp;&amp; frame.number == {packet}</code>"
    )
}

/// Writes which packets of a capture tell of a finding, and the display filter of Wireshark that shows them. Numbers have no spaces, so that
/// they can be pasted.
///
/// # Errors
/// The writer fails.
pub fn put_packets<W: Write>(
    writer: &mut W,
    capture: &'static str,
    mac: Mac,
    first: u64,
    last: u64,
) -> io::Result<()> {
    if first == last {
        return put_packet(writer, capture, mac, first);
    }
    write!(
        writer,
        "capture {capture}, packets {first} to {last}: <code class=\"filter\">eth.src == {mac} &amp;&amp; frame.number &gt;= {first} &amp;&amp; frame.number &lt;= {last}</code>"
    )
}

/// Writes a display filter of Wireshark.
///
/// # Errors
/// The writer fails.
pub fn put_expression<W: Write>(writer: &mut W, filter: &'static str) -> io::Result<()> {
    put_all(
        writer,
        &[
            "<p class=\"where\">In Wireshark: <code class=\"filter\">",
            filter,
            "</code></p>",
        ],
    )
}

/// Ends a finding.
///
/// # Errors
/// The writer fails.
pub fn close_finding<W: Write>(writer: &mut W) -> io::Result<()> {
    put(writer, "</div></li>\n")
}

/// Writes a paragraph of a few words.
///
/// # Errors
/// The writer fails.
pub fn write_note<W: Write>(writer: &mut W, text: &'static str) -> io::Result<()> {
    put_all(writer, &["<p class=\"note\">", text, "</p>\n"])
}

/// Writes a note of who made the page.
///
/// # Errors
/// The writer fails.
pub fn write_remark<W: Write>(writer: &mut W, text: &Escaped) -> io::Result<()> {
    put(writer, "<p class=\"remark\">")?;
    put_escaped(writer, text)?;
    put(writer, "</p>\n")
}

/// Writes an address in a list of several.
///
/// # Errors
/// The writer fails.
pub fn put_named<W: Write>(writer: &mut W, names: &[NodeName], mac: Option<Mac>) -> io::Result<()> {
    match mac {
        Some(mac) => {
            put(writer, " ")?;
            put_node(writer, names, mac)
        }
        None => Ok(()),
    }
}
