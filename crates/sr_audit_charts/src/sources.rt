//! What a page and a picture tell of each source.

use crate::lists::append;
use sr_audit::{Alive, Audit, Figures, Row, Sides, Source, Spans};
use sr_capture_audit::{Report, Sight};
use sr_frame::{Mac, NoMemory};
use std::alloc::Global;

/// What is told of a source.
#[derive(Clone, Copy, Debug, PartialEq, Eq)]
pub struct SourceLine {
    /// Its address.
    pub mac: Mac,
    /// Its figures, by all its frames.
    pub figures: Figures,
    /// How many frames each LAN lost that the other one brought.
    pub lost: Sides,
    /// How many frames came by a LAN while the capture of the other one did not run.
    pub edges: Sides,
    /// How many came by a LAN alone and tell of no loss: they were sent to a single address.
    pub single: Sides,
    /// How many numbers of frames no LAN brought, which were lost.
    pub neither: u64,
    /// How many of those may have gone past no recorder.
    pub unseen: u64,
    /// Its signs of life.
    pub alive: Option<Alive>,
    /// The LAN by which alone it is heard at last.
    pub sided: Option<Row>,
}

/// What an audit has of a source.
fn source_in(audit: &Audit, mac: Mac) -> Option<&Source> {
    for (own, source) in audit.sources() {
        if own == mac {
            return Some(source);
        }
    }
    None
}

/// How many numbers of a source no frame had.
fn missing_in(report: &Report, mac: Mac, own: &Figures) -> u64 {
    match &report.counters {
        None => own.neither,
        Some(counters) => match source_in(counters, mac) {
            Some(counter) => counter.figures().neither,
            None => 0,
        },
    }
}

/// What the frames that tell of losses do: how many came by a LAN alone, how many of them while the other capture did not run, and the LAN
/// by which alone the source is heard at last.
#[derive(Clone, Copy)]
struct Telling {
    only: Sides,
    edges: Sides,
    sided: Option<Row>,
}

/// What a source tells of losses.
fn telling_of(source: &Source, spans: &Spans) -> Telling {
    let figures = source.figures();
    Telling {
        only: figures.only(),
        edges: figures.edges,
        sided: source.sided(spans),
    }
}

/// What is told of losses of a source.
fn telling_in(report: &Report, mac: Mac, source: &Source) -> Telling {
    let Some(judged) = &report.judged else {
        return telling_of(source, &report.spans);
    };
    match source_in(judged, mac) {
        Some(own) => telling_of(own, &report.spans),
        None => Telling {
            only: Sides::NONE,
            edges: Sides::NONE,
            sided: None,
        },
    }
}

/// How many frames came by one LAN alone and tell of no loss.
fn single_by(figures: &Figures, telling: Telling) -> Sides {
    let alone = figures.tally.alone;
    let Telling { only, edges, .. } = telling;
    Sides {
        a: alone.a.saturating_sub(only.a.saturating_add(edges.a)),
        b: alone.b.saturating_sub(only.b.saturating_add(edges.b)),
    }
}

/// What is told of a source.
fn line_of(report: &Report, mac: Mac, source: &Source) -> SourceLine {
    let figures = source.figures();
    let missing = missing_in(report, mac, &figures);
    let telling = telling_in(report, mac, source);
    let (neither, unseen) = match report.sight {
        Sight::All => (missing, 0),
        Sight::Part => (0, missing),
    };
    SourceLine {
        mac,
        figures,
        // What came by one LAN alone was lost on the other one.
        lost: Sides {
            a: telling.only.b,
            b: telling.only.a,
        },
        edges: telling.edges,
        single: single_by(&figures, telling),
        neither,
        unseen,
        alive: source.alive(),
        sided: telling.sided,
    }
}

/// What is told of each source of a report, in the order of first hearing.
///
/// # Errors
/// `NoMemory` where an allocation failed.
pub fn lines_in(alloc: Global, report: &Report) -> Result<Vec<SourceLine>, NoMemory> {
    let mut lines = Vec::new(alloc);
    for (mac, source) in report.audit.sources() {
        append(&mut lines, line_of(report, mac, source))?;
    }
    Ok(lines)
}
