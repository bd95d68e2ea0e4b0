//! The elements of charts: figures, legends, plots whose labels do not grow with them, and axes of time.

use crate::elements::{put, put_all};
use crate::scales::{Extent, Place, unit_of};
use crate::shown::Count;
use std::io::{self, Write};

/// What a colour of a chart stands for.
#[derive(Clone, Copy, Debug, PartialEq, Eq)]
pub struct Key {
    /// The class of the colour in the style.
    pub class: &'static str,
    /// What it stands for.
    pub text: &'static str,
}

/// Opens a chart of a class of the style, up to its caption.
///
/// # Errors
/// The writer fails.
pub fn open_figure<W: Write>(writer: &mut W, class: &'static str) -> io::Result<()> {
    put_all(
        writer,
        &["<figure class=\"chart ", class, "\"><figcaption>"],
    )
}

/// Ends a chart.
///
/// # Errors
/// The writer fails.
pub fn close_figure<W: Write>(writer: &mut W) -> io::Result<()> {
    put(writer, "</figure>\n")
}

/// Writes what the colours of a chart stand for, behind its caption.
///
/// # Errors
/// The writer fails.
pub fn put_legend<W: Write>(writer: &mut W, keys: &[Key]) -> io::Result<()> {
    put(writer, "</figcaption><div class=\"legend\">")?;
    for key in keys {
        put_all(
            writer,
            &["<span class=\"key ", key.class, "\">", key.text, "</span> "],
        )?;
    }
    put(writer, "</div>\n")
}

/// Opens a row of a chart: what stands left of a plot.
///
/// # Errors
/// The writer fails.
pub fn open_row<W: Write>(writer: &mut W) -> io::Result<()> {
    put(writer, "<div class=\"row\"><div class=\"side\">")
}

/// Opens the plot of a row, of some pixels' height and a class of the style, up to its description.
///
/// # Errors
/// The writer fails.
pub fn open_plot<W: Write>(writer: &mut W, class: &'static str, height: u64) -> io::Result<()> {
    write!(
        writer,
        "</div><svg class=\"plot {class}\" height=\"{height}\" role=\"img\" aria-label=\""
    )
}

/// Goes on from the description of a plot to what grows with its width: 500 columns.
///
/// # Errors
/// The writer fails.
pub fn open_columns<W: Write>(writer: &mut W, height: u64) -> io::Result<()> {
    write!(
        writer,
        "<svg viewBox=\"0 0 500 {height}\" preserveAspectRatio=\"none\" width=\"100%\" height=\"{height}\" aria-hidden=\"true\">"
    )
}

/// Opens a path of a class of the style.
///
/// # Errors
/// The writer fails.
pub fn open_path<W: Write>(writer: &mut W, class: &'static str) -> io::Result<()> {
    put_all(writer, &["<path class=\"", class, "\" d=\""])
}

/// Ends a path.
///
/// # Errors
/// The writer fails.
pub fn close_path<W: Write>(writer: &mut W) -> io::Result<()> {
    put(writer, "\"/>")
}

/// Ends what grows with the width of a plot.
///
/// # Errors
/// The writer fails.
pub fn close_columns<W: Write>(writer: &mut W) -> io::Result<()> {
    put(writer, "</svg>")
}

/// Ends a plot, and goes on to what stands right of it.
///
/// # Errors
/// The writer fails.
pub fn close_plot<W: Write>(writer: &mut W) -> io::Result<()> {
    put(writer, "</svg><div class=\"end\">")
}

/// Ends a row.
///
/// # Errors
/// The writer fails.
pub fn close_row<W: Write>(writer: &mut W) -> io::Result<()> {
    put(writer, "</div></div>\n")
}

/// Writes a count beside a plot, of a class of the style, unless it is 0.
///
/// # Errors
/// The writer fails.
pub fn put_beside<W: Write>(
    writer: &mut W,
    class: &'static str,
    name: &'static str,
    count: u64,
) -> io::Result<()> {
    if count == 0 {
        return Ok(());
    }
    let shown = Count(count);
    write!(
        writer,
        "<span class=\"n {class}\" title=\"{name}\">{shown}</span> "
    )
}

/// Writes the lines of a plot at the marks of its axis.
///
/// # Errors
/// The writer fails.
pub fn put_grid<W: Write>(writer: &mut W, extent: Extent, height: u64) -> io::Result<()> {
    for number in 0..=10 {
        if let Some(time) = extent.tick(number) {
            let x = extent.place_of(time);
            write!(
                writer,
                "<line class=\"grid\" x1=\"{x}\" x2=\"{x}\" y1=\"0\" y2=\"{height}\"/>"
            )?;
        }
    }
    Ok(())
}

/// Writes a bar of a plot, from a time to another one, so many pixels below its top.
///
/// # Errors
/// The writer fails.
pub fn put_bar<W: Write>(
    writer: &mut W,
    class: &'static str,
    extent: Extent,
    bar: Extent,
    y: u64,
) -> io::Result<()> {
    let (x, end) = (extent.place_of(bar.first), extent.place_of(bar.last));
    let width = Place(end.0.saturating_sub(x.0).max(100));
    write!(
        writer,
        "<rect class=\"{class}\" x=\"{x}\" width=\"{width}\" y=\"{y}\" height=\"7\"/>"
    )
}

/// Writes a mark of an axis and its time.
fn put_tick<W: Write>(
    writer: &mut W,
    extent: Extent,
    number: u64,
    time: u64,
    nanos: u64,
) -> io::Result<()> {
    let x = extent.place_of(time);
    let shown = Count(time.checked_div(nanos).unwrap_or(time));
    let class = if number % 2 == 0 { "even" } else { "odd" };
    write!(
        writer,
        "<g class=\"{class}\"><line x1=\"{x}\" x2=\"{x}\" y1=\"0\" y2=\"5\"/><text x=\"{x}\" y=\"17\" text-anchor=\"middle\">{shown}</text></g>"
    )
}

/// Writes the axis of time of a chart, as its last row.
///
/// # Errors
/// The writer fails.
pub fn write_axis<W: Write>(writer: &mut W, extent: Extent) -> io::Result<()> {
    let unit = unit_of(extent.step());
    put(
        writer,
        "<div class=\"row\"><div class=\"side\"></div><svg class=\"axis labels\" height=\"20\" aria-hidden=\"true\">",
    )?;
    for number in 0..=10 {
        if let Some(time) = extent.tick(number) {
            put_tick(writer, extent, number, time, unit.nanos)?;
        }
    }
    put_all(
        writer,
        &[
            "</svg><div class=\"end unit\">",
            unit.name,
            "</div></div>\n",
        ],
    )
}
