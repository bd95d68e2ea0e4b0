//! The losses of the network, and of its worst sources, by time.

use crate::page::Page;
use sr_audit::{Sides, Span};
use sr_audit_charts::{
    COLUMNS, Kept, Shape, SourceLine, Stand, Strip, draw_bars, draw_lane, greatest_of,
};
use sr_capture_audit::Ports;
use sr_frame::Mac;
use sr_page::{
    Count, Extent, Key, NodeName, Skew, close_columns, close_figure, close_path, close_plot,
    close_row, close_section, open_columns, open_figure, open_path, open_plot, open_row,
    open_section, put, put_bar, put_beside, put_grid, put_legend, put_node, rounded_up, write_axis,
    write_note,
};
use std::io::{self, Write};

/// The height of the plot of losses, and of a lane, in pixels.
const PLOT: u64 = 114;

const LANE: u64 = 22;

/// The greatest height of a bar, and where bars begin, in tenths of a pixel.
const BAR: u64 = 550;

const MIDDLE: u64 = 560;

/// The boxes of marks: of what is missing on A, on B and on both.
const UPPER: Shape = Shape {
    top: 0,
    height: 100,
};

const LOWER: Shape = Shape {
    top: 120,
    height: 100,
};

const WHOLE: Shape = Shape {
    top: 0,
    height: 220,
};

/// What colours of charts of losses stand for.
pub(crate) const KEYS: [Key; 3] = [
    Key {
        class: "a",
        text: "missing on A",
    },
    Key {
        class: "b",
        text: "missing on B",
    },
    Key {
        class: "both",
        text: "missing on both",
    },
];

/// From when to when charts show what came.
pub(crate) fn extent_of(kept: &Kept) -> Extent {
    Extent {
        first: kept.times.first,
        last: kept.times.last,
    }
}

/// Writes what a plot of losses shows, for readers who do not see it.
pub(crate) fn put_losses_in_words<W: Write>(
    writer: &mut W,
    lost: Sides,
    neither: u64,
) -> io::Result<()> {
    let (a, b, both) = (Count(lost.a), Count(lost.b), Count(neither));
    write!(writer, "lost on A {a}, on B {b}, on both {both}\">")
}

/// Writes the bars of what was lost: of A upwards, of B downwards, and through both of what both lost.
fn put_bars<W: Write>(writer: &mut W, strip: &Strip, greatest: u64) -> io::Result<()> {
    open_columns(writer, PLOT)?;
    open_path(writer, "both")?;
    draw_bars(writer, &strip.both, greatest, BAR, Stand::On(MIDDLE))?;
    draw_bars(writer, &strip.both, greatest, BAR, Stand::From(MIDDLE + 20))?;
    close_path(writer)?;
    open_path(writer, "a")?;
    draw_bars(writer, &strip.a, greatest, BAR, Stand::On(MIDDLE))?;
    close_path(writer)?;
    open_path(writer, "b")?;
    draw_bars(writer, &strip.b, greatest, BAR, Stand::From(MIDDLE + 20))?;
    close_path(writer)?;
    close_columns(writer)
}

/// Writes the bar of a capture: from when to when it ran.
fn put_span<W: Write>(
    writer: &mut W,
    class: &'static str,
    extent: Extent,
    span: Option<Span>,
    y: u64,
) -> io::Result<()> {
    let Some(Span { first, last }) = span else {
        return Ok(());
    };
    put_bar(writer, class, extent, Extent { first, last }, y)
}

/// Writes when each capture ran, and the axis of time.
fn write_spans<W: Write>(writer: &mut W, page: &Page<'_>, extent: Extent) -> io::Result<()> {
    open_row(writer)?;
    match page.ports {
        Ports::Two => {
            put(
                writer,
                "<span class=\"spans-name\">capture </span>A<br><span class=\"spans-name\">capture </span>B",
            )?;
            open_plot(writer, "spans", 18)?;
            put(writer, "When each capture ran\">")?;
            put_span(writer, "a", extent, page.spans.a, 0)?;
            put_span(writer, "b", extent, page.spans.b, 10)?;
        }
        Ports::Mirror => {
            put(writer, "capture")?;
            open_plot(writer, "spans", 18)?;
            put(writer, "When the capture ran\">")?;
            put_span(writer, "range", extent, page.spans.a, 5)?;
        }
    }
    close_plot(writer)?;
    close_row(writer)?;
    write_axis(writer, extent)
}

/// How long a column is.
fn column_in(extent: Extent) -> u64 {
    (extent.length() / COLUMNS as u64).saturating_add(1)
}

/// Writes how many frames were lost, by time.
fn write_losses<W: Write>(writer: &mut W, page: &Page<'_>, extent: Extent) -> io::Result<()> {
    let strip = &page.kept.network;
    let most = greatest_of(&strip.a)
        .max(greatest_of(&strip.b))
        .max(greatest_of(&strip.both));
    let top = rounded_up(u64::from(most));
    let (shown, width) = (Count(top), Skew(Some(i128::from(column_in(extent)))));
    open_figure(writer, "net")?;
    write!(
        writer,
        "Frames lost in each {width}; heights grow with the logarithm"
    )?;
    put_legend(writer, KEYS.as_slice())?;
    open_row(writer)?;
    write!(
        writer,
        "<div class=\"tall\"><span>{shown}</span><span>A ↑</span><span>B ↓</span><span>{shown}</span></div>"
    )?;
    open_plot(writer, "", PLOT)?;
    put(writer, "Frames lost by time: ")?;
    put_losses_in_words(writer, page.lost(), page.neither())?;
    put_grid(writer, extent, PLOT)?;
    put_bars(writer, strip, top)?;
    put(
        writer,
        "<line class=\"zero\" x1=\"0\" x2=\"100%\" y1=\"57\" y2=\"57\"/>",
    )?;
    close_plot(writer)?;
    close_row(writer)?;
    write_spans(writer, page, extent)?;
    close_figure(writer)
}

/// Writes marks where a source lost frames: on A above, on B below.
pub(crate) fn put_marks<W: Write>(writer: &mut W, strip: &Strip) -> io::Result<()> {
    open_columns(writer, LANE)?;
    open_path(writer, "a")?;
    draw_lane(writer, &strip.a, UPPER)?;
    close_path(writer)?;
    open_path(writer, "b")?;
    draw_lane(writer, &strip.b, LOWER)?;
    close_path(writer)?;
    open_path(writer, "both")?;
    draw_lane(writer, &strip.both, WHOLE)?;
    close_path(writer)?;
    close_columns(writer)
}

/// Writes how many frames a source lost, beside a plot.
pub(crate) fn put_lost_beside<W: Write>(writer: &mut W, line: &SourceLine) -> io::Result<()> {
    put_beside(writer, "a", "lost on A", line.lost.a)?;
    put_beside(writer, "b", "lost on B", line.lost.b)?;
    put_beside(writer, "both", "lost on both", line.neither)
}

/// Writes a source, as a link to its card where it has one.
fn put_linked<W: Write>(
    writer: &mut W,
    names: &[NodeName],
    mac: Mac,
    has_card: bool,
) -> io::Result<()> {
    if !has_card {
        return put_node(writer, names, mac);
    }
    write!(writer, "<a href=\"#s-{mac}\">")?;
    put_node(writer, names, mac)?;
    put(writer, "</a>")
}

/// Whether a source lost frames.
pub(crate) fn has_lost(line: &SourceLine) -> bool {
    line.lost.a > 0 || line.lost.b > 0 || line.neither > 0
}

/// Writes the lane of a source.
fn write_lane<W: Write>(
    writer: &mut W,
    page: &Page<'_>,
    at: usize,
    line: &SourceLine,
    strip: &Strip,
) -> io::Result<()> {
    let has_card = at < page.kept.cards.len();
    let mac = line.mac;
    open_row(writer)?;
    put_linked(writer, page.given.names.as_slice(), mac, has_card)?;
    open_plot(writer, "lane", LANE)?;
    write!(writer, "{mac}: ")?;
    put_losses_in_words(writer, line.lost, line.neither)?;
    put_marks(writer, strip)?;
    close_plot(writer)?;
    put_lost_beside(writer, line)?;
    close_row(writer)
}

/// How many sources lost frames.
fn losers_in(lines: &[SourceLine]) -> usize {
    let mut count: usize = 0;
    for line in lines {
        if has_lost(line) {
            count = count.saturating_add(1);
        }
    }
    count
}

/// Says how many more sources lost frames than have a lane.
fn write_further<W: Write>(writer: &mut W, losers: usize, lanes: usize) -> io::Result<()> {
    if losers <= lanes {
        return Ok(());
    }
    let more = Count(losers.saturating_sub(lanes) as u64);
    writeln!(
        writer,
        "<p class=\"note\">{more} further sources that lost frames, of less weight, are in the table of the sources alone.</p>"
    )
}

/// Writes a lane for each of the worst sources that lost frames.
fn write_lanes<W: Write>(writer: &mut W, page: &Page<'_>, extent: Extent) -> io::Result<()> {
    open_figure(writer, "lanes")?;
    put(
        writer,
        "Each source that lost frames: on A above, on B below",
    )?;
    put_legend(writer, KEYS.as_slice())?;
    let mut lanes: usize = 0;
    for at in 0..page.lines.len() {
        if let (Some(line), Some(strip)) = (page.lines.get(at), page.kept.strips.get(at)) {
            if has_lost(line) {
                lanes = lanes.saturating_add(1);
                write_lane(writer, page, at, line, strip)?;
            }
        }
    }
    write_axis(writer, extent)?;
    write_further(writer, losers_in(page.lines), lanes)?;
    close_figure(writer)
}

/// Writes when the captures ran, where nothing was lost.
fn write_quiet<W: Write>(writer: &mut W, page: &Page<'_>, extent: Extent) -> io::Result<()> {
    write_note(writer, "No frame is seen to be lost.")?;
    open_figure(writer, "net")?;
    put(writer, "When the captures ran</figcaption>\n")?;
    write_spans(writer, page, extent)?;
    close_figure(writer)
}

/// Writes the losses of the network by time.
pub(crate) fn write_network<W: Write>(writer: &mut W, page: &Page<'_>) -> io::Result<()> {
    let extent = extent_of(page.kept);
    open_section(writer, "network", "The network")?;
    if page.kept.lost == 0 {
        write_quiet(writer, page, extent)?;
    } else {
        write_losses(writer, page, extent)?;
        write_lanes(writer, page, extent)?;
    }
    close_section(writer)
}
