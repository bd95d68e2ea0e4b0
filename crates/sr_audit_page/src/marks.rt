//! The scale of a plot of skews, and its marks.

use sr_audit_charts::{Card, Division, Profile, Range, Scale, SourceLine};
use sr_page::{Skew, put};
use std::io::{self, Write};

/// The height of a plot of skews, in pixels, and in tenths of them that of what its scale divides.
pub(crate) const PLOT: u64 = 110;

const SCALED: u32 = 1080;

/// How far one label is from the next at least, in tenths of a pixel.
const APART: u64 = 140;

/// The least range of skews that is divided by doublings, in nanoseconds.
const LEAST_WIDE: i128 = 25_000;

/// How many bars of 55 the middle half of skews has at most where they are divided by doublings.
const FEW_BARS: usize = 2;

/// An even scale of the skews of a source.
fn even_scale(line: &SourceLine) -> Scale {
    let skews = &line.figures.skews;
    Scale {
        range: Range {
            least: skews.least,
            greatest: skews.greatest,
        },
        division: Division::Even,
        height: SCALED,
    }
}

/// A scale of the skews of a source. It is one of doublings, with 0, where few skews lie far from the middle half, so that both are seen.
pub(crate) fn scale_of(line: &SourceLine, card: &Card) -> Scale {
    let even = even_scale(line);
    let Range { least, greatest } = even.range;
    let is_wide = greatest.saturating_sub(least) > LEAST_WIDE;
    if !is_wide || Profile::of(card, even).middle() > FEW_BARS {
        return even;
    }
    Scale {
        range: Range {
            least: least.min(0),
            greatest: greatest.max(0),
        },
        division: Division::Doubling,
        ..even
    }
}

/// The skews that have a mark on a scale of doublings, in nanoseconds, the greatest first.
const DECADES: [i128; 13] = [
    100_000_000,
    10_000_000,
    1_000_000,
    100_000,
    10_000,
    1_000,
    0,
    -1_000,
    -10_000,
    -100_000,
    -1_000_000,
    -10_000_000,
    -100_000_000,
];

/// Whether a skew has a mark on a scale.
fn is_mark(scale: Scale, skew: i128) -> bool {
    let Range { least, greatest } = scale.range;
    least < skew && skew < greatest && (skew == 0 || scale.division == Division::Doubling)
}

/// How far below the top a skew has a mark, if it has one, and lies far enough from the mark above, and from the top and the bottom.
fn mark_below(scale: Scale, skew: i128, above: u64) -> Option<u64> {
    let depth = scale.depth_of(skew);
    let end = u64::from(SCALED).saturating_sub(APART);
    if is_mark(scale, skew) && depth >= above.saturating_add(APART) && depth <= end {
        Some(depth)
    } else {
        None
    }
}

/// Writes the label of a skew left of a plot.
fn put_label<W: Write>(writer: &mut W, depth: u64, skew: i128) -> io::Result<()> {
    let y = (depth / 10).saturating_add(4).max(10).min(PLOT - 2);
    let shown = Skew(Some(skew));
    write!(
        writer,
        "<text x=\"100%\" y=\"{y}\" text-anchor=\"end\">{shown}</text>"
    )
}

/// Writes the labels left of a plot of skews: the greatest, the least, and marks between them.
pub(crate) fn put_labels<W: Write>(writer: &mut W, scale: Scale) -> io::Result<()> {
    write!(
        writer,
        "<svg class=\"labels\" height=\"{PLOT}\" aria-hidden=\"true\">"
    )?;
    put_label(writer, 0, scale.range.greatest)?;
    let mut above: u64 = 0;
    for skew in DECADES {
        if let Some(depth) = mark_below(scale, skew, above) {
            above = depth;
            put_label(writer, depth, skew)?;
        }
    }
    put_label(writer, u64::from(SCALED), scale.range.least)?;
    put(writer, "</svg>")
}

/// Writes the lines of a plot at its marks.
pub(crate) fn put_lines<W: Write>(writer: &mut W, scale: Scale) -> io::Result<()> {
    let mut above: u64 = 0;
    for skew in DECADES {
        if let Some(depth) = mark_below(scale, skew, above) {
            above = depth;
            let (y, class) = (depth / 10, if skew == 0 { "zero" } else { "grid" });
            write!(
                writer,
                "<line class=\"{class}\" x1=\"0\" x2=\"100%\" y1=\"{y}\" y2=\"{y}\"/>"
            )?;
        }
    }
    Ok(())
}

/// What is said of a scale that is not even.
pub(crate) fn division_in_words(scale: Scale) -> &'static str {
    match scale.division {
        Division::Even => "",
        Division::Doubling => "; beyond 1\u{a0}µs heights grow with the logarithm",
    }
}
