//! The lines of a picture (SVG 1.1).

use crate::cards::Card;
use crate::histogram::Histogram;
use crate::paths::{Shape, draw_lane};
use crate::ranges::Range;
use crate::scales::{Division, Scale};
use crate::skews::draw_ranges;
use crate::sources::SourceLine;
use crate::strips::Strip;
use crate::times::{COLUMNS, Times};
use sr_capture_audit::Value;
use sr_capture_script::ScriptFault;
use std::io::Write;

/// The height of what stands above the charts, in pixels.
const HEAD: usize = 84;

/// The height of a chart.
const CHART: usize = 116;

/// The height of what stands below the charts.
const FOOT: usize = 56;

/// The height of a chart's plot of skews, in tenths of a pixel.
const PLOT: u32 = 600;

/// The left side of all plots, and the width of a column.
const LEFT: usize = 110;

const STEP: usize = 2;

/// The colours of skews and of what was lost. Of the palette of Okabe and Ito, blue and vermilion are the two that colour-blind readers tell
/// apart best.
const SKEW: &str = "#6b7785";

const LOST_A: &str = "#0072b2";

const LOST_B: &str = "#d55e00";

const LOST_BOTH: &str = "#000000";

/// The box of a mark of lost frames.
const LANE: Shape = Shape { top: 0, height: 80 };

/// Draws an entry of the legend.
fn draw_key<W: Write>(
    writer: &mut W,
    x: usize,
    colour: &str,
    text: &str,
) -> Result<(), ScriptFault> {
    let behind = x.saturating_add(16);
    writeln!(
        writer,
        "<rect x=\"{x}\" y=\"52\" width=\"10\" height=\"10\" fill=\"{colour}\"/>"
    )?;
    writeln!(writer, "<text x=\"{behind}\" y=\"61\">{text}</text>")?;
    Ok(())
}

/// Writes a description of the picture, for readers who cannot see it.
fn draw_words<W: Write>(
    writer: &mut W,
    charts: usize,
    sources: usize,
    times: Times,
) -> Result<(), ScriptFault> {
    let (first, last) = (
        Value::Time(Some(times.first)),
        Value::Time(Some(times.last)),
    );
    writeln!(
        writer,
        "<title>Skew of the copies of each frame, and lost frames</title>"
    )?;
    writeln!(
        writer,
        "<desc>The worst {charts} of {sources} sources, from {first} to {last} ms. Of each: skew against time, and where frames are missing on A, on B and on both. The figures stand above each chart.</desc>"
    )?;
    Ok(())
}

/// Draws what stands above the charts: what is shown, and the legend.
pub(crate) fn draw_head<W: Write>(
    writer: &mut W,
    charts: usize,
    sources: usize,
    times: Times,
) -> Result<(), ScriptFault> {
    let height = charts
        .saturating_mul(CHART)
        .saturating_add(HEAD)
        .saturating_add(FOOT);
    writeln!(
        writer,
        "<svg xmlns=\"http://www.w3.org/2000/svg\" width=\"1200\" height=\"{height}\" viewBox=\"0 0 1200 {height}\" font-family=\"sans-serif\" font-size=\"12\" role=\"img\">"
    )?;
    draw_words(writer, charts, sources, times)?;
    writeln!(
        writer,
        "<rect width=\"1200\" height=\"{height}\" fill=\"#ffffff\"/>"
    )?;
    writeln!(
        writer,
        "<text x=\"{LEFT}\" y=\"28\" font-size=\"18\">Skew of the copies of each frame, and lost frames: the worst {charts} of {sources} sources</text>"
    )?;
    let text = "skew, LAN B minus LAN A, in us: least to greatest of a column";
    draw_key(writer, LEFT, SKEW, text)?;
    draw_key(writer, 520, LOST_A, "lost on A")?;
    draw_key(writer, 620, LOST_B, "lost on B")?;
    draw_key(writer, 720, LOST_BOTH, "lost on both")
}

/// The skews that a plot shows: those of the source, and 0.
fn shown_scale(line: &SourceLine) -> Scale {
    let skews = &line.figures.skews;
    let (least, greatest) = if skews.count == 0 {
        (0, 0)
    } else {
        (skews.least.min(0), skews.greatest.max(0))
    };
    Scale {
        range: Range { least, greatest },
        division: Division::Even,
        height: PLOT,
    }
}

/// Draws a path of boxes that stands so far below the top of the picture.
fn open_path<W: Write>(writer: &mut W, y: usize, colour: &str) -> Result<(), ScriptFault> {
    write!(
        writer,
        "<path transform=\"translate({LEFT} {y}) scale({STEP} 1)\" fill=\"{colour}\" d=\""
    )?;
    Ok(())
}

/// Draws where frames are missing, if some are.
fn draw_losses<W: Write>(
    writer: &mut W,
    y: usize,
    colour: &str,
    lost: &Histogram,
) -> Result<(), ScriptFault> {
    open_path(writer, y, colour)?;
    draw_lane(writer, lost, LANE)?;
    writeln!(writer, "\"/>")?;
    Ok(())
}

/// Draws a text that ends left of the plots.
fn draw_label<W: Write>(writer: &mut W, y: usize, text: &str) -> Result<(), ScriptFault> {
    writeln!(
        writer,
        "<text x=\"104\" y=\"{y}\" font-size=\"10\" text-anchor=\"end\">{text}</text>"
    )?;
    Ok(())
}

/// Draws a skew left of the plots.
fn draw_skew<W: Write>(writer: &mut W, y: usize, skew: i128) -> Result<(), ScriptFault> {
    let shown = Value::Skew(Some(skew));
    writeln!(
        writer,
        "<text x=\"104\" y=\"{y}\" font-size=\"10\" text-anchor=\"end\">{shown} us</text>"
    )?;
    Ok(())
}

/// Draws what stands around a plot: the source, its counts, and the units.
fn draw_frame<W: Write>(
    writer: &mut W,
    y: usize,
    whole: Range,
    line: &SourceLine,
) -> Result<(), ScriptFault> {
    let SourceLine {
        mac,
        lost,
        neither,
        ..
    } = *line;
    let pairs = line.figures.tally.pairs;
    let (lost_a, lost_b) = (lost.a, lost.b);
    let title = y.saturating_sub(5);
    writeln!(
        writer,
        "<text x=\"{LEFT}\" y=\"{title}\">{mac}: {pairs} pairs, lost on A {lost_a}, on B {lost_b}, on both {neither}</text>"
    )?;
    writeln!(
        writer,
        "<rect x=\"{LEFT}\" y=\"{y}\" width=\"1000\" height=\"62\" fill=\"none\" stroke=\"#999999\"/>"
    )?;
    draw_skew(writer, y.saturating_add(8), whole.greatest)?;
    draw_skew(writer, y.saturating_add(62), whole.least)?;
    draw_label(writer, y.saturating_add(74), "lost on A")?;
    draw_label(writer, y.saturating_add(84), "on B")?;
    draw_label(writer, y.saturating_add(94), "on both")
}

/// Draws the line of no skew, where it does not lie at a side of the plot.
fn draw_zero<W: Write>(writer: &mut W, top: usize, scale: Scale) -> Result<(), ScriptFault> {
    if scale.range.least == 0 || scale.range.greatest == 0 {
        return Ok(());
    }
    let y = top.saturating_add((scale.depth_of(0) / 10) as usize);
    writeln!(
        writer,
        "<line x1=\"{LEFT}\" y1=\"{y}\" x2=\"1110\" y2=\"{y}\" stroke=\"#cccccc\"/>"
    )?;
    writeln!(
        writer,
        "<text x=\"1114\" y=\"{y}\" font-size=\"10\">0 us</text>"
    )?;
    Ok(())
}

/// Draws the chart of a source, at this place from the top.
pub(crate) fn draw_chart<W: Write>(
    writer: &mut W,
    place: usize,
    line: &SourceLine,
    card: &Card,
    strip: &Strip,
) -> Result<(), ScriptFault> {
    let y = place
        .saturating_mul(CHART)
        .saturating_add(HEAD)
        .saturating_add(16);
    let scale = shown_scale(line);
    draw_frame(writer, y, scale.range, line)?;
    draw_zero(writer, y, scale)?;
    open_path(writer, y, SKEW)?;
    draw_ranges(writer, scale, card)?;
    writeln!(writer, "\"/>")?;
    draw_losses(writer, y.saturating_add(66), LOST_A, &strip.a)?;
    draw_losses(writer, y.saturating_add(76), LOST_B, &strip.b)?;
    draw_losses(writer, y.saturating_add(86), LOST_BOTH, &strip.both)
}

/// Draws a mark of the axis of time, at so many fifths of it.
fn draw_tick<W: Write>(
    writer: &mut W,
    y: usize,
    times: Times,
    fifths: u64,
) -> Result<(), ScriptFault> {
    let width = (COLUMNS * STEP / 5) as u64;
    let x = fifths.saturating_mul(width).saturating_add(LEFT as u64);
    let part = times.last.saturating_sub(times.first) / 5;
    let time = Value::Time(Some(times.first.saturating_add(part.saturating_mul(fifths))));
    let end = y.saturating_add(6);
    let text = y.saturating_add(20);
    writeln!(
        writer,
        "<line x1=\"{x}\" y1=\"{y}\" x2=\"{x}\" y2=\"{end}\" stroke=\"#333333\"/>"
    )?;
    writeln!(
        writer,
        "<text x=\"{x}\" y=\"{text}\" font-size=\"10\" text-anchor=\"middle\">{time}</text>"
    )?;
    Ok(())
}

/// Draws what stands below the charts: the axis of time.
pub(crate) fn draw_foot<W: Write>(
    writer: &mut W,
    charts: usize,
    times: Times,
) -> Result<(), ScriptFault> {
    let y = charts.saturating_mul(CHART).saturating_add(HEAD);
    writeln!(
        writer,
        "<line x1=\"{LEFT}\" y1=\"{y}\" x2=\"1110\" y2=\"{y}\" stroke=\"#333333\"/>"
    )?;
    for fifths in 0..6 {
        draw_tick(writer, y, times, fifths)?;
    }
    let text = y.saturating_add(40);
    writeln!(
        writer,
        "<text x=\"610\" y=\"{text}\" text-anchor=\"middle\">time in ms from the earliest packet on</text>"
    )?;
    writeln!(writer, "</svg>")?;
    Ok(())
}
