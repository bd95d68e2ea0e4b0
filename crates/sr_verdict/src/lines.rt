//! The lines of verdicts. A kind has so many lines at most, and one that tells how many more it has.

use crate::cutting::print_cut;
use crate::sharing::print_names;
use crate::verdict::{FAULTY, SOUND, Verdict, status_of};
use crate::why::Why;
use crate::words::{advice_on, kind_word, lan_word, severity_word};
use sr_audit::{Row, Side, Sides};
use sr_capture_audit::{Field, Format, Reason, Value, print_row};
use sr_capture_script::ScriptFault;
use sr_frame::Mac;
use std::io::Write;

/// How many lines a kind of verdicts has at most.
const MOST_LINES: u64 = 24;

/// A value that has no name in text.
pub(crate) const fn bare(key: &'static str, value: Value) -> Field {
    Field {
        label: "",
        key,
        value,
    }
}

/// A number under a name.
pub(crate) const fn count(key: &'static str, number: u64) -> Field {
    Field {
        label: key,
        key,
        value: Value::Count(number),
    }
}

/// The LAN of a verdict.
pub(crate) fn at_lan(lan: Option<Side>) -> Field {
    bare("lan", Value::Word(lan_word(lan)))
}

/// The source of a verdict.
pub(crate) fn at_source(mac: Mac) -> Field {
    bare("source", Value::Mac(mac))
}

/// When what a verdict tells of began.
pub(crate) fn since(time: Option<u64>) -> Field {
    Field {
        label: "since",
        key: "since_ms",
        value: Value::Time(time),
    }
}

/// How far the clock of B was ahead.
fn b_ahead(ahead: i128) -> Field {
    Field {
        label: "b_ahead_us",
        key: "b_ahead_us",
        value: Value::Skew(Some(ahead)),
    }
}

/// What each line of a verdict has.
#[derive(Clone, Copy)]
pub(crate) struct Frame {
    /// How severe it is.
    pub severity: &'static str,
    /// The kind of it.
    pub kind: Field,
    /// What to do.
    pub advice: Field,
}

/// What the line of a verdict has, whatever it tells.
fn frame_of(verdict: &Verdict) -> Frame {
    Frame {
        severity: severity_word(verdict),
        kind: bare("kind", Value::Word(kind_word(verdict))),
        advice: Field {
            label: "->",
            key: "do",
            value: Value::Word(advice_on(verdict)),
        },
    }
}

/// Prints the line of a verdict on the network as a whole.
fn print_whole<W: Write>(
    writer: &mut W,
    format: Format,
    frame: Frame,
    verdict: &Verdict,
) -> Result<(), ScriptFault> {
    let Frame {
        severity,
        kind,
        advice,
    } = frame;
    match *verdict {
        Verdict::Unjudged(Why::Figures(Reason::Unnumbered(side))) => {
            print_row(
                writer,
                format,
                severity,
                &[kind, at_lan(Some(side)), advice],
            )
        }
        Verdict::Unjudged(Why::Dropped(lan, packets)) | Verdict::RecorderDropped(lan, packets) => {
            print_row(
                writer,
                format,
                severity,
                &[kind, at_lan(lan), count("packets", packets), advice],
            )
        }
        Verdict::Clock(ahead) => {
            print_row(writer, format, severity, &[kind, b_ahead(ahead), advice])
        }
        Verdict::CutRing(cut, place) => print_cut(writer, format, frame, cut, place),
        _ => print_row(writer, format, severity, &[kind, advice]),
    }
}

/// Prints the line of a verdict on a LAN: what it lost of how many frames, of how many sources, and how many the other one lost; or how many
/// copies or frames of it are wrong.
fn print_on_lan<W: Write>(
    writer: &mut W,
    format: Format,
    frame: Frame,
    verdict: &Verdict,
) -> Result<(), ScriptFault> {
    let Frame {
        severity,
        kind,
        advice,
    } = frame;
    match *verdict {
        Verdict::Loss(lan, share, other) | Verdict::LossWithin(lan, share, other) => {
            let (frames, of) = (count("frames", share.frames), count("of", share.brought));
            let (sources, other) = (count("sources", share.sources), count("other_lan", other));
            print_row(
                writer,
                format,
                severity,
                &[kind, at_lan(Some(lan)), frames, of, sources, other, advice],
            )
        }
        Verdict::Crossed(sides, _) => {
            let (a, b) = (count("copies_a", sides.a), count("copies_b", sides.b));
            print_row(writer, format, severity, &[kind, a, b, advice])
        }
        Verdict::WrongLan(lan, copies, _) => {
            print_row(
                writer,
                format,
                severity,
                &[kind, at_lan(lan), count("copies", copies), advice],
            )
        }
        Verdict::Misfit(lan, frames) => {
            print_row(
                writer,
                format,
                severity,
                &[kind, at_lan(lan), count("frames", frames), advice],
            )
        }
        _ => print_whole(writer, format, frame, verdict),
    }
}

/// Prints a count of a source.
fn print_counted<W: Write>(
    writer: &mut W,
    format: Format,
    frame: Frame,
    mac: Mac,
    counted: Field,
) -> Result<(), ScriptFault> {
    let Frame {
        severity,
        kind,
        advice,
    } = frame;
    print_row(
        writer,
        format,
        severity,
        &[kind, at_source(mac), counted, advice],
    )
}

/// Prints the line of a verdict on the frames of a source.
fn print_on_node<W: Write>(
    writer: &mut W,
    format: Format,
    frame: Frame,
    verdict: &Verdict,
) -> Result<(), ScriptFault> {
    let Frame {
        severity,
        kind,
        advice,
    } = frame;
    match *verdict {
        Verdict::TwoSenders(mac, time) => {
            print_counted(writer, format, frame, mac, since(Some(time)))
        }
        Verdict::LostRedundancy(mac, lan, tail) => {
            let (source, frames) = (at_source(mac), count("frames", tail.frames));
            let begin = since(tail.since);
            print_row(
                writer,
                format,
                severity,
                &[kind, at_lan(lan), source, frames, begin, advice],
            )
        }
        Verdict::Babbling(mac, second) => {
            let (source, frames) = (at_source(mac), count("in_a_second", second.frames));
            let begin = since(Some(second.since));
            print_row(
                writer,
                format,
                severity,
                &[kind, source, frames, begin, advice],
            )
        }
        Verdict::San(mac, lan, frames) => {
            let (source, frames) = (at_source(mac), count("frames", frames));
            print_row(
                writer,
                format,
                severity,
                &[kind, at_lan(lan), source, frames, advice],
            )
        }
        _ => print_on_lan(writer, format, frame, verdict),
    }
}

/// Prints which LAN does not bring a source any more: the one by which its last frames did not come.
fn print_dead<W: Write>(
    writer: &mut W,
    format: Format,
    frame: Frame,
    mac: Mac,
    row: Row,
) -> Result<(), ScriptFault> {
    let lan = at_lan(Some(row.side.other()));
    let (source, frames) = (at_source(mac), count("frames", row.frames));
    let begin = since(Some(row.since));
    print_row(
        writer,
        format,
        frame.severity,
        &[frame.kind, lan, source, frames, begin, frame.advice],
    )
}

/// Prints how many copies of a source each LAN brought.
fn print_repeated<W: Write>(
    writer: &mut W,
    format: Format,
    frame: Frame,
    mac: Mac,
    sides: Sides,
) -> Result<(), ScriptFault> {
    let (a, b) = (count("copies_a", sides.a), count("copies_b", sides.b));
    print_row(
        writer,
        format,
        frame.severity,
        &[frame.kind, at_source(mac), a, b, frame.advice],
    )
}

/// Prints the greatest skew of a source, and the limit.
fn print_skew<W: Write>(
    writer: &mut W,
    format: Format,
    frame: Frame,
    mac: Mac,
    skew: i128,
    most: u64,
) -> Result<(), ScriptFault> {
    let skew = Field {
        label: "skew_us",
        key: "skew_us",
        value: Value::Skew(Some(skew)),
    };
    let limit = count("max_us", most);
    print_row(
        writer,
        format,
        frame.severity,
        &[frame.kind, at_source(mac), skew, limit, frame.advice],
    )
}

/// Prints the line of a verdict.
fn print_verdict<W: Write>(
    writer: &mut W,
    format: Format,
    verdict: &Verdict,
) -> Result<(), ScriptFault> {
    let frame = frame_of(verdict);
    match *verdict {
        Verdict::DeadPort(mac, row) => print_dead(writer, format, frame, mac, row),
        Verdict::Repeated(mac, sides) => print_repeated(writer, format, frame, mac, sides),
        Verdict::Skew(mac, skew, most) => print_skew(writer, format, frame, mac, skew, most),
        Verdict::BothLost(mac, numbers)
        | Verdict::BothLostWithin(mac, numbers)
        | Verdict::Unseen(mac, numbers) => {
            print_counted(writer, format, frame, mac, count("numbers", numbers))
        }
        Verdict::Late(mac, pairs) => {
            print_counted(writer, format, frame, mac, count("pairs", pairs))
        }
        Verdict::Restart(mac, times) => {
            print_counted(writer, format, frame, mac, count("times", times))
        }
        _ => print_on_node(writer, format, frame, verdict),
    }
}

/// How many verdicts are of this severity.
fn severe(verdicts: &[Verdict], word: &'static str) -> u64 {
    let mut found: u64 = 0;
    for verdict in verdicts {
        if severity_word(verdict) == word {
            found = found.saturating_add(1);
        }
    }
    found
}

/// How many verdicts are of this kind.
fn alike(verdicts: &[Verdict], word: &'static str) -> u64 {
    let mut found: u64 = 0;
    for verdict in verdicts {
        if kind_word(verdict) == word {
            found = found.saturating_add(1);
        }
    }
    found
}

/// Prints how many verdicts of a kind have no line.
fn print_more<W: Write>(
    writer: &mut W,
    format: Format,
    frame: Frame,
    all: u64,
) -> Result<(), ScriptFault> {
    let more = count("more", all.saturating_sub(MOST_LINES));
    print_row(writer, format, frame.severity, &[frame.kind, more])
}

/// Prints the lines of verdicts.
fn print_each<W: Write>(
    writer: &mut W,
    format: Format,
    verdicts: &[Verdict],
) -> Result<(), ScriptFault> {
    let (mut kind, mut of_kind) = ("", 0u64);
    for verdict in verdicts {
        let own = kind_word(verdict);
        of_kind = if own == kind {
            of_kind.saturating_add(1)
        } else {
            1
        };
        kind = own;
        if of_kind <= MOST_LINES {
            print_verdict(writer, format, verdict)?;
            print_names(writer, format, verdict)?;
        } else if of_kind == MOST_LINES + 1 {
            print_more(writer, format, frame_of(verdict), alike(verdicts, own))?;
        }
    }
    Ok(())
}

/// What is told of a network as a whole.
fn whole_word(verdicts: &[Verdict]) -> &'static str {
    match status_of(verdicts) {
        SOUND => "sound",
        FAULTY => "faulty",
        _ => "unjudged",
    }
}

/// Prints what is told of a network: a line for the whole, and one for each verdict, as far as a kind has lines. A table has no place for
/// it.
///
/// # Errors
/// `Write` where the writer fails.
pub fn print_verdicts<W: Write>(
    writer: &mut W,
    format: Format,
    verdicts: &[Verdict],
) -> Result<(), ScriptFault> {
    if format == Format::Csv {
        return Ok(());
    }
    let whole = bare("verdict", Value::Word(whole_word(verdicts)));
    let faults = count("faults", severe(verdicts, "fault"));
    let notices = count("notices", severe(verdicts, "notice"));
    print_row(writer, format, "verdict", &[whole, faults, notices])?;
    print_each(writer, format, verdicts)
}
