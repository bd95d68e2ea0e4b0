//! Audits of captures.

use crate::digest::Digest;
use crate::files::{Files, digest_of, files_of, options_of};
use crate::sink::Sink;
use sr_audit::Spans;
use sr_audit_charts::{Kept, MAX_CHARTS, lines_in, print_picture, rank, times_of};
use sr_capture_audit::{
    Format, Lists, Network, Ports, Report, Subject, Summary, figures_of, hint_of, print_lists,
    tell_fates,
};
use sr_capture_script::{Captures, Options, ScriptFault};
use sr_capture_sources::sources_beside;
use sr_capture_streams::StreamWatch;
use sr_slots::Keys;
use std::alloc::Global;

/// What is audited, and what is told of it.
#[derive(Clone, Copy)]
struct Audited<'a> {
    files: Files<'a>,
    options: Options,
    keys: Keys,
    subject: Subject,
    lists: Lists,
    /// None: a picture.
    format: Option<Format>,
}

/// The network that an octet names.
pub fn network_of(kind: u8) -> Network {
    if kind & 1 == 0 {
        Network::Prp
    } else {
        Network::Hsr
    }
}

/// Where the captures were made that an octet names.
fn ports_of(kind: u8) -> Ports {
    if kind & 2 == 0 {
        Ports::Two
    } else {
        Ports::Mirror
    }
}

/// The lists that an octet names.
fn lists_of(kind: u8) -> Lists {
    Lists {
        lost: kind & 4 != 0,
        wrong: kind & 8 != 0,
        pairs: kind & 0x10 != 0,
    }
}

/// The format that an octet names. None: a picture.
fn format_of(kind: u8) -> Option<Format> {
    match kind & 0x60 {
        0 => Some(Format::Text),
        0x20 => Some(Format::Json),
        0x40 => Some(Format::Csv),
        _ => None,
    }
}

/// Opens the captures for a pass.
fn open<'a>(alloc: Global, audited: &Audited<'a>) -> Result<Captures<&'a [u8]>, ScriptFault> {
    let Files { first, second } = audited.files;
    Captures::open(alloc, Some(first), second, None, &audited.options)
}

/// When the captures begin and end.
fn read_spans(alloc: Global, audited: &Audited<'_>) -> Result<Spans, ScriptFault> {
    let mut captures = open(alloc, audited)?;
    let told = sources_beside(
        alloc,
        audited.keys,
        &mut captures,
        &audited.options.choice,
        audited.subject,
        StreamWatch::new(alloc),
    )?;
    Ok(told.spans)
}

/// The figures.
fn read_figures(alloc: Global, audited: &Audited<'_>, spans: Spans) -> Result<Report, ScriptFault> {
    let mut captures = open(alloc, audited)?;
    figures_of(
        alloc,
        audited.keys,
        &mut captures,
        &audited.options.choice,
        audited.subject,
        spans,
    )
}

/// Puts in what is known of the captures as a whole.
fn put_summary(digest: &mut Digest, audited: &Audited<'_>, summary: &Summary) {
    let counts = summary.counts;
    let network = audited.subject.network;
    digest.put_number(summary.sources as u64);
    digest.put_number(summary.left_out);
    digest.put_octet(summary.judgement.status());
    digest.put_octet(u8::from(counts.are_swapped()));
    digest.put_octet(u8::from(hint_of(network, &counts.a).is_some()));
    digest.put_octet(u8::from(hint_of(network, &counts.of_mirror()).is_some()));
}

/// Draws the picture of the first sources that are listed at once.
fn draw(
    alloc: Global,
    audited: &Audited<'_>,
    spans: Spans,
    report: Report,
    sink: &mut Sink,
) -> Result<(), ScriptFault> {
    let mut lines = lines_in(alloc, &report)?;
    rank(&mut lines)?;
    let mut kept = Kept::new(alloc, times_of(spans), lines.as_slice(), MAX_CHARTS)?;
    let mut captures = open(alloc, audited)?;
    tell_fates(
        alloc,
        audited.keys,
        &mut captures,
        &audited.options.choice,
        audited.subject,
        spans,
        None,
        0,
        &mut kept,
    )?;
    kept.close()?;
    print_picture(sink, lines.as_slice(), &kept)
}

/// Prints the lists of the first sources.
fn list(
    alloc: Global,
    audited: &Audited<'_>,
    spans: Spans,
    format: Format,
    sink: &mut Sink,
) -> Result<(), ScriptFault> {
    let mut captures = open(alloc, audited)?;
    print_lists(
        alloc,
        audited.keys,
        &mut captures,
        &audited.options.choice,
        audited.subject,
        spans,
        None,
        0,
        audited.lists,
        format,
        sink,
    )
}

/// Tells what is wanted, as the program does.
fn tell(alloc: Global, audited: &Audited<'_>, sink: &mut Sink) -> Result<(), ScriptFault> {
    let spans = read_spans(alloc, audited)?;
    let report = read_figures(alloc, audited, spans)?;
    let summary = report.summary();
    put_summary(&mut sink.digest, audited, &summary);
    let Some(format) = audited.format else {
        return draw(alloc, audited, spans, report, sink);
    };
    report.print(sink, format)?;
    if audited.lists.is_some() {
        list(alloc, audited, spans, format, sink)?;
    }
    summary.print_end(sink, format)
}

impl<'a> Audited<'a> {
    /// What two octets name, of these files.
    fn new(choice: u8, kind: u8, files: Files<'a>) -> Audited<'a> {
        Audited {
            files,
            options: options_of(choice),
            keys: Keys::FIXED,
            subject: Subject {
                clock: None,
                network: network_of(kind),
                ports: ports_of(kind),
            },
            lists: lists_of(kind),
            format: format_of(kind),
        }
    }
}

/// What comes of an audit: the first octet names how captures are read, the second one what is told. None where an allocation failed.
pub fn come_of(alloc: Global, octets: &[u8]) -> Option<Digest> {
    let [choice, kind, rest @ ..] = octets else {
        return Some(Digest::new());
    };
    let audited = Audited::new(*choice, *kind, files_of(*choice, rest));
    let mut sink = Sink::new();
    let outcome = tell(alloc, &audited, &mut sink);
    digest_of(sink, outcome)
}
