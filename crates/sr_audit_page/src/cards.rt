//! A card for each of the worst sources: its skews by time, and where it lost frames.

use crate::marks::{PLOT, division_in_words, put_labels, put_lines, scale_of};
use crate::network::{extent_of, has_lost, put_losses_in_words, put_lost_beside, put_marks};
use crate::page::Page;
use crate::stretches::write_all_stretches;
use crate::teller::Teller;
use sr_audit::Side;
use sr_audit_charts::{
    Card, Profile, Scale, SourceLine, Strip, Traced, draw_halves, draw_medians, draw_ranges,
};
use sr_page::{
    Count, Extent, Key, Skew, close_columns, close_figure, close_path, close_plot, close_row,
    close_section, open_columns, open_figure, open_path, open_plot, open_row, open_section, put,
    put_all, put_grid, put_legend, put_node, put_some, write_axis,
};
use std::io::{self, Write};

/// What colours of charts of skews stand for.
const KEYS: [Key; 3] = [
    Key {
        class: "range",
        text: "least to greatest",
    },
    Key {
        class: "half",
        text: "middle half",
    },
    Key {
        class: "median",
        text: "median",
    },
];

/// Writes the paths of skews.
fn put_paths<W: Write>(writer: &mut W, scale: Scale, card: &Card) -> io::Result<()> {
    open_columns(writer, PLOT)?;
    open_path(writer, "range")?;
    draw_ranges(writer, scale, card)?;
    close_path(writer)?;
    open_path(writer, "half")?;
    draw_halves(writer, scale, card)?;
    close_path(writer)?;
    open_path(writer, "median")?;
    draw_medians(writer, scale, card)?;
    close_path(writer)?;
    close_columns(writer)
}

/// Writes how many pairs have skews of each size, right of their plot.
fn put_profile<W: Write>(writer: &mut W, scale: Scale, card: &Card) -> io::Result<()> {
    put(
        writer,
        "<svg class=\"histogram\" viewBox=\"0 0 100 110\" preserveAspectRatio=\"none\" aria-hidden=\"true\"><path d=\"",
    )?;
    Profile::of(card, scale).draw(writer)?;
    put(writer, "\"/></svg>")
}

/// Writes what a plot of skews shows, for readers who do not see it.
fn put_skews_in_words<W: Write>(writer: &mut W, line: &SourceLine) -> io::Result<()> {
    let skews = line.figures.skews;
    let (least, mean, greatest) = (
        Skew(Some(skews.least)),
        Skew(skews.mean()),
        Skew(Some(skews.greatest)),
    );
    write!(
        writer,
        "Skew by time: least {least}, mean {mean}, greatest {greatest}\">"
    )
}

/// Writes the plot of the skews of a source.
fn write_skews<W: Write>(
    writer: &mut W,
    extent: Extent,
    line: &SourceLine,
    card: &Card,
    scale: Scale,
) -> io::Result<()> {
    open_row(writer)?;
    put_labels(writer, scale)?;
    open_plot(writer, "", PLOT)?;
    put_skews_in_words(writer, line)?;
    put_grid(writer, extent, PLOT)?;
    put_lines(writer, scale)?;
    put_paths(writer, scale, card)?;
    close_plot(writer)?;
    put_profile(writer, scale, card)?;
    close_row(writer)
}

/// Writes where a source lost frames, below its skews.
fn write_lost<W: Write>(writer: &mut W, line: &SourceLine, strip: &Strip) -> io::Result<()> {
    open_row(writer)?;
    put(writer, "lost")?;
    open_plot(writer, "lane", 22)?;
    put(writer, "Frames lost by time: ")?;
    put_losses_in_words(writer, line.lost, line.neither)?;
    put_marks(writer, strip)?;
    close_plot(writer)?;
    put_lost_beside(writer, line)?;
    close_row(writer)
}

/// Writes the chart of a source.
fn write_chart<W: Write>(
    writer: &mut W,
    extent: Extent,
    teller: Teller<'_>,
    line: &SourceLine,
    card: &Card,
    strip: &Strip,
) -> io::Result<()> {
    let scale = scale_of(line, card);
    open_figure(writer, "skew")?;
    put_all(
        writer,
        &[
            "Skew: ",
            teller.lan_of(Some(Side::B)),
            " minus ",
            teller.lan_of(Some(Side::A)),
            division_in_words(scale),
        ],
    )?;
    put_legend(writer, KEYS.as_slice())?;
    if line.figures.skews.count > 0 {
        write_skews(writer, extent, line, card, scale)?;
    }
    if has_lost(line) {
        write_lost(writer, line, strip)?;
    }
    write_axis(writer, extent)?;
    close_figure(writer)
}

/// Writes a count of a card, unless it is 0.
fn put_chip<W: Write>(
    writer: &mut W,
    class: &'static str,
    count: u64,
    name: &'static str,
) -> io::Result<()> {
    if count == 0 {
        return Ok(());
    }
    let shown = Count(count);
    write!(
        writer,
        "<span class=\"chip {class}\"><b>{shown}</b> {name}</span> "
    )
}

/// Writes the figures of a source, above its chart.
fn put_figures<W: Write>(writer: &mut W, line: &SourceLine) -> io::Result<()> {
    let tally = line.figures.tally;
    put(writer, "<p class=\"bits\"><span>")?;
    put_some(writer, tally.pairs, "frame by both", "frames by both")?;
    put(writer, "</span> ")?;
    put_chip(writer, "a", line.lost.a, "lost on A")?;
    put_chip(writer, "b", line.lost.b, "lost on B")?;
    put_chip(writer, "both", line.neither, "lost on both")?;
    let repeated = tally.repeats.a.saturating_add(tally.repeats.b);
    put_chip(writer, "", repeated, "repeated")?;
    put_chip(writer, "", line.figures.restarts, "times begun anew")?;
    if !has_lost(line) && repeated == 0 {
        put(writer, "<span class=\"chip ok\">✓ nothing lost</span>")?;
    }
    put(writer, "</p>\n")
}

/// Writes the card of a source.
fn write_card<W: Write>(
    writer: &mut W,
    extent: Extent,
    teller: Teller<'_>,
    line: &SourceLine,
    card: &Card,
    strip: &Strip,
    traced: &Traced,
) -> io::Result<()> {
    let mac = line.mac;
    write!(writer, "<article class=\"card\" id=\"s-{mac}\"><h3>")?;
    put_node(writer, teller.names, mac)?;
    put(writer, "</h3>\n")?;
    put_figures(writer, line)?;
    write_chart(writer, extent, teller, line, card, strip)?;
    write_all_stretches(writer, teller, traced)?;
    put(writer, "</article>\n")
}

/// Says how many sources have no card.
fn write_left_out<W: Write>(writer: &mut W, page: &Page<'_>) -> io::Result<()> {
    let (lines, cards) = (page.lines.len(), page.kept.cards.len());
    if lines <= cards {
        return Ok(());
    }
    let more = Count(lines.saturating_sub(cards) as u64);
    writeln!(
        writer,
        "<p class=\"note\">{more} further sources, with fewer faults, are in the table of the sources alone.</p>"
    )
}

/// Writes a card for each of the worst sources.
pub(crate) fn write_cards<W: Write>(
    writer: &mut W,
    page: &Page<'_>,
    teller: Teller<'_>,
) -> io::Result<()> {
    let (kept, extent) = (page.kept, extent_of(page.kept));
    if kept.cards.is_empty() {
        return Ok(());
    }
    open_section(writer, "each", "Each source")?;
    for at in 0..kept.cards.len() {
        if let (Some(line), Some(card), Some(strip), Some(traced)) = (
            page.lines.get(at),
            kept.cards.get(at),
            kept.strips.get(at),
            kept.traced.get(at),
        ) {
            write_card(writer, extent, teller, line, card, strip, traced)?;
        }
    }
    write_left_out(writer, page)?;
    close_section(writer)
}
