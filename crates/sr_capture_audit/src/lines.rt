//! The lines of captures and sources.

use crate::counts::SideCounts;
use crate::flows::Sight;
use crate::network::letter_of;
use crate::rows::{Field, Format, Value, bare, count, named, print_names, print_row};
use sr_audit::{Alive, Figures, Row, Sides, Skews, Source, Span, Spans};
use sr_capture_script::ScriptFault;
use sr_frame::Mac;
use std::io::Write;

/// The line of a capture.
fn capture_fields(name: &'static str, counts: &SideCounts, span: Option<Span>) -> [Field; 11] {
    let from = Value::Time(span.map(|span| span.first));
    let to = Value::Time(span.map(|span| span.last));
    [
        bare("capture", Value::Word(name)),
        count("packets", counts.packets),
        count("numbered", counts.numbered),
        count("plain", counts.plain),
        count("misfit", counts.misfit),
        count("wrong_lan", counts.wrong_lan),
        count("cut", counts.cut),
        count("long", counts.long),
        count("empty", counts.empty),
        named("from", "from_ms", from),
        named("to", "to_ms", to),
    ]
}

/// How many numbers of a source no frame had.
#[derive(Clone, Copy)]
pub(crate) struct Missing {
    /// Numbers of frames that were lost.
    neither: u64,
    /// Those of frames that may have gone past no recorder.
    unseen: u64,
}

impl Missing {
    /// None.
    const NONE: Missing = Missing {
        neither: 0,
        unseen: 0,
    };

    /// So many, where the captures have all that was sent, or a part.
    pub(crate) fn by(sight: Sight, numbers: u64) -> Missing {
        match sight {
            Sight::All => Missing {
                neither: numbers,
                unseen: 0,
            },
            Sight::Part => Missing {
                neither: 0,
                unseen: numbers,
            },
        }
    }
}

/// What is lost of a source.
#[derive(Clone, Copy)]
pub(crate) struct Lost {
    /// How many frames came while the capture of the other side ran.
    only: Sides,
    /// How many came while it did not.
    edges: Sides,
    /// How many that tell of no loss: they were sent to a single address, and it is not known that both captures see their flow.
    single: Sides,
    /// How many numbers no frame had.
    missing: Missing,
    /// The side by which alone the source is heard at last.
    sided: Option<Row>,
}

impl Lost {
    /// No frame, and so many numbers.
    pub(crate) fn none(missing: Missing) -> Lost {
        Lost {
            only: Sides::NONE,
            edges: Sides::NONE,
            single: Sides::NONE,
            missing,
            sided: None,
        }
    }

    /// What the figures of a source tell, and so many numbers.
    pub(crate) fn of(source: &Source, spans: &Spans, missing: Missing) -> Lost {
        let figures = source.figures();
        Lost {
            only: figures.only(),
            edges: figures.edges,
            sided: source.sided(spans),
            ..Lost::none(missing)
        }
    }

    /// What is lost of some frames of a source, whose others that came by one side alone tell of no loss.
    pub(crate) fn beside(self, source: &Source) -> Lost {
        let alone = source.figures().tally.alone;
        let a = self.only.a.saturating_add(self.edges.a);
        let b = self.only.b.saturating_add(self.edges.b);
        let single = Sides {
            a: alone.a.saturating_sub(a),
            b: alone.b.saturating_sub(b),
        };
        Lost { single, ..self }
    }
}

/// The line `source`.
fn source_fields(mac: Mac, figures: &Figures, lost: &Lost) -> [Field; 15] {
    let tally = figures.tally;
    let Lost {
        only,
        edges,
        missing,
        ..
    } = *lost;
    [
        bare("source", Value::Mac(mac)),
        count("rx_a", tally.rx.a),
        count("rx_b", tally.rx.b),
        count("pairs", tally.pairs),
        count("only_a", only.a),
        count("only_b", only.b),
        count("edge_a", edges.a),
        count("edge_b", edges.b),
        count("neither", missing.neither),
        count("repeat_a", tally.repeats.a),
        count("repeat_b", tally.repeats.b),
        count("order_a", figures.order.a),
        count("order_b", figures.order.b),
        count("jumps", figures.jumps),
        count("restarts", figures.restarts),
    ]
}

/// The line `skew`.
fn skew_fields(mac: Mac, skews: &Skews) -> [Field; 12] {
    let mean = skews.mean();
    let least = mean.map(|_| skews.least);
    let greatest = mean.map(|_| skews.greatest);
    let [a, b, c, d, e, f, over] = skews.classes;
    [
        bare("source", Value::Mac(mac)),
        count("pairs", skews.count),
        named("least_us", "least_us", Value::Skew(least)),
        named("mean_us", "mean_us", Value::Skew(mean)),
        named("greatest_us", "greatest_us", Value::Skew(greatest)),
        count("under_10us", a),
        count("under_100us", b),
        count("under_1ms", c),
        count("under_10ms", d),
        count("under_100ms", e),
        count("under_400ms", f),
        count("over", over),
    ]
}

/// The line `single`.
fn single_fields(mac: Mac, single: Sides) -> [Field; 3] {
    [
        bare("source", Value::Mac(mac)),
        count("single_a", single.a),
        count("single_b", single.b),
    ]
}

/// The line `unseen`.
fn unseen_fields(mac: Mac, numbers: u64) -> [Field; 2] {
    [bare("source", Value::Mac(mac)), count("numbers", numbers)]
}

/// The line `alive`.
fn alive_fields(mac: Mac, alive: &Alive) -> [Field; 6] {
    [
        bare("source", Value::Mac(mac)),
        count("type", u64::from(alive.kind)),
        count("rx_a", alive.a.rx),
        count("rx_b", alive.b.rx),
        named("gap_a", "gap_a_ms", Value::Time(alive.a.gap)),
        named("gap_b", "gap_b_ms", Value::Time(alive.b.gap)),
    ]
}

/// The line `sided`.
fn sided_fields(mac: Mac, row: Row) -> [Field; 4] {
    [
        bare("lan", Value::Word(letter_of(row.side))),
        bare("source", Value::Mac(mac)),
        count("frames", row.frames),
        named("since", "since_ms", Value::Time(Some(row.since))),
    ]
}

/// Prints the line of a capture.
pub(crate) fn print_capture<W: Write>(
    writer: &mut W,
    format: Format,
    name: &'static str,
    counts: &SideCounts,
    span: Option<Span>,
) -> Result<(), ScriptFault> {
    print_row(
        writer,
        format,
        "capture",
        &capture_fields(name, counts, span),
    )
}

/// Prints the line of the side by which alone a source is heard at last, if it is one.
fn print_sided<W: Write>(
    writer: &mut W,
    format: Format,
    mac: Mac,
    sided: Option<Row>,
) -> Result<(), ScriptFault> {
    match sided {
        Some(row) => print_row(writer, format, "sided", &sided_fields(mac, row)),
        None => Ok(()),
    }
}

/// Prints the line of the frames to single addresses that came by one side and tell of no loss, if some did.
fn print_single<W: Write>(
    writer: &mut W,
    format: Format,
    mac: Mac,
    single: Sides,
) -> Result<(), ScriptFault> {
    if single == Sides::NONE {
        return Ok(());
    }
    print_row(writer, format, "single", &single_fields(mac, single))
}

/// Prints the line of the numbers that no frame had, and that may have gone past no recorder, if there are some.
fn print_unseen<W: Write>(
    writer: &mut W,
    format: Format,
    mac: Mac,
    numbers: u64,
) -> Result<(), ScriptFault> {
    if numbers == 0 {
        return Ok(());
    }
    print_row(writer, format, "unseen", &unseen_fields(mac, numbers))
}

/// Prints the lines of a source: that of the skews where there is a pair, those of frames to single addresses and of numbers that tell of no
/// loss, that of supervision frames where some came, and that of the side by which alone it is heard at last.
pub(crate) fn print_source<W: Write>(
    writer: &mut W,
    format: Format,
    mac: Mac,
    source: &Source,
    lost: &Lost,
) -> Result<(), ScriptFault> {
    let figures = source.figures();
    print_row(
        writer,
        format,
        "source",
        &source_fields(mac, &figures, lost),
    )?;
    if figures.skews.count > 0 {
        print_row(writer, format, "skew", &skew_fields(mac, &figures.skews))?;
    }
    print_single(writer, format, mac, lost.single)?;
    print_unseen(writer, format, mac, lost.missing.unseen)?;
    if let Some(alive) = source.alive() {
        print_row(writer, format, "alive", &alive_fields(mac, &alive))?;
    }
    print_sided(writer, format, mac, lost.sided)
}

/// What a table has of the line `sided`: its LAN, which is empty where there is no such line.
fn sided_cells(sided: Option<Row>) -> [Field; 3] {
    let (lan, frames, since) = match sided {
        Some(row) => (letter_of(row.side), row.frames, Some(row.since)),
        None => ("", 0, None),
    };
    [
        bare("sided", Value::Word(lan)),
        count("sided_frames", frames),
        named("sided_since_ms", "sided_since_ms", Value::Time(since)),
    ]
}

/// A line of the table of sources: the values of the line `source`, and behind them those of the lines `skew` and `sided`.
fn table_fields(mac: Mac, figures: &Figures, lost: &Lost) -> [Field; 28] {
    let [
        source,
        rx_a,
        rx_b,
        pairs,
        only_a,
        only_b,
        edge_a,
        edge_b,
        neither,
        repeat_a,
        repeat_b,
        order_a,
        order_b,
        jumps,
        restarts,
    ] = source_fields(mac, figures, lost);
    let [_, _, least, mean, greatest, a, b, c, d, e, f, over] = skew_fields(mac, &figures.skews);
    let [lan, frames, since] = sided_cells(lost.sided);
    [
        source, rx_a, rx_b, pairs, only_a, only_b, edge_a, edge_b, neither, repeat_a, repeat_b,
        order_a, order_b, jumps, restarts, least, mean, greatest, a, b, c, d, e, f, over, lan,
        frames, since,
    ]
}

/// Prints the names of the table of sources.
pub(crate) fn print_table_names<W: Write>(writer: &mut W) -> Result<(), ScriptFault> {
    print_names(
        writer,
        &table_fields(Mac([0; 6]), &Figures::NONE, &Lost::none(Missing::NONE)),
    )
}

/// Prints the line of a source in the table of sources.
pub(crate) fn print_table_row<W: Write>(
    writer: &mut W,
    mac: Mac,
    source: &Source,
    lost: &Lost,
) -> Result<(), ScriptFault> {
    let fields = table_fields(mac, &source.figures(), lost);
    print_row(writer, Format::Csv, "source", &fields)
}
