//! The six figures of a page.

use crate::elements::{put, put_all, put_count, put_some};
use crate::shown::{Percent, Skew};
use std::io::{self, Write};

/// The figures of all sources together.
#[derive(Clone, Copy, Debug, PartialEq, Eq)]
pub struct Totals {
    /// How many sources there are.
    pub sources: u64,
    /// How many frames came, by whichever LAN.
    pub frames: u64,
    /// How many came by both.
    pub pairs: u64,
    /// How many of all frames tell of losses: those of single addresses beside others tell of none, and neither do those that came while one
    /// capture did not run.
    pub judged: u64,
    /// How many LAN A lost.
    pub lost_a: u64,
    /// How many LAN B lost.
    pub lost_b: u64,
    /// How many both lost.
    pub neither: u64,
    /// The least skew, in nanoseconds. None: no frame came by both.
    pub least: Option<i128>,
    /// The greatest one.
    pub greatest: Option<i128>,
}

/// Opens the tile of a figure.
fn open_tile<W: Write>(writer: &mut W, class: &'static str, name: &'static str) -> io::Result<()> {
    put_all(
        writer,
        &[
            "<dl class=\"tile ",
            class,
            "\"><dt>",
            name,
            "</dt><dd><span class=\"value\">",
        ],
    )
}

/// Goes on to what stands below the figure of a tile.
fn go_below<W: Write>(writer: &mut W) -> io::Result<()> {
    put(writer, "</span> <span class=\"sub\">")
}

/// Ends the tile of a figure.
fn close_tile<W: Write>(writer: &mut W) -> io::Result<()> {
    put(writer, "</span></dd></dl>\n")
}

/// Writes how many frames came.
fn put_frames<W: Write>(writer: &mut W, totals: &Totals) -> io::Result<()> {
    open_tile(writer, "all", "Frames")?;
    put_count(writer, totals.frames)?;
    go_below(writer)?;
    put(writer, "of ")?;
    put_some(writer, totals.sources, "source", "sources")?;
    close_tile(writer)
}

/// Writes how many frames came by both LANs.
fn put_pairs<W: Write>(writer: &mut W, totals: &Totals) -> io::Result<()> {
    open_tile(writer, "all", "By both")?;
    let share = Percent {
        share: totals.pairs,
        whole: totals.judged,
    };
    write!(writer, "{share}")?;
    go_below(writer)?;
    put_count(writer, totals.pairs)?;
    put(writer, " of ")?;
    put_count(writer, totals.judged)?;
    put(writer, " that tell")?;
    close_tile(writer)
}

/// Writes how many frames were lost.
fn put_lost<W: Write>(
    writer: &mut W,
    class: &'static str,
    name: &'static str,
    lost: u64,
    whole: u64,
) -> io::Result<()> {
    open_tile(writer, class, name)?;
    put_count(writer, lost)?;
    go_below(writer)?;
    if lost == 0 {
        put(writer, "none")?;
    } else {
        let share = Percent { share: lost, whole };
        write!(writer, "{share}")?;
    }
    close_tile(writer)
}

/// Writes how many frames reached no receiver.
fn put_neither<W: Write>(writer: &mut W, totals: &Totals) -> io::Result<()> {
    open_tile(writer, "both", "Lost on both")?;
    put_count(writer, totals.neither)?;
    go_below(writer)?;
    if totals.neither == 0 {
        put(writer, "none")?;
    } else {
        put(writer, "reached no receiver")?;
    }
    close_tile(writer)
}

/// Writes the greatest skew.
fn put_skew<W: Write>(writer: &mut W, totals: &Totals) -> io::Result<()> {
    open_tile(writer, "all", "Skew")?;
    let (least, greatest) = (Skew(totals.least), Skew(totals.greatest));
    write!(writer, "{greatest}")?;
    go_below(writer)?;
    write!(writer, "greatest; least {least}")?;
    close_tile(writer)
}

/// Writes the six figures.
///
/// # Errors
/// The writer fails.
pub fn write_totals<W: Write>(writer: &mut W, totals: &Totals) -> io::Result<()> {
    put(
        writer,
        "<section aria-label=\"Summary\"><div class=\"tiles\">\n",
    )?;
    put_frames(writer, totals)?;
    put_pairs(writer, totals)?;
    put_lost(writer, "a", "Lost on A", totals.lost_a, totals.judged)?;
    put_lost(writer, "b", "Lost on B", totals.lost_b, totals.judged)?;
    put_neither(writer, totals)?;
    put_skew(writer, totals)?;
    put(writer, "</div></section>\n")
}
