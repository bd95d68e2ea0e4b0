//! What is found wrong, in words: each verdict as a sentence, with what to do and how to see it.

use crate::remarks::put_remark;
use crate::sources::put_fault;
use crate::teller::Teller;
use sr_page::{Count, close_finding, close_findings, open_findings, put, write_note};
use sr_verdict::Verdict;
use std::io::{self, Write};

/// How many faults are told.
const MOST_FAULTS: u64 = 200;

/// How many remarks are told.
const MOST_REMARKS: u64 = 100;

/// What a list tells of.
#[derive(Clone, Copy, PartialEq, Eq)]
enum Kind {
    /// Faults.
    Faults,
    /// Remarks, which decide nothing.
    Remarks,
}

/// The list that tells of a verdict. None: that it can't be judged is told with the verdict.
fn kind_of(verdict: &Verdict) -> Option<Kind> {
    match *verdict {
        Verdict::Unjudged(_) => None,
        Verdict::BothLostWithin(_, _)
        | Verdict::LossWithin(_, _, _)
        | Verdict::RecorderDropped(_, _)
        | Verdict::Restart(_, _)
        | Verdict::Babbling(_, _)
        | Verdict::Unseen(_, _)
        | Verdict::San(_, _, _)
        | Verdict::Clock(_) => Some(Kind::Remarks),
        _ => Some(Kind::Faults),
    }
}

/// How many verdicts a list tells of at most.
fn most_of(kind: Kind) -> u64 {
    match kind {
        Kind::Faults => MOST_FAULTS,
        Kind::Remarks => MOST_REMARKS,
    }
}

/// How many verdicts there are of a kind.
fn count_of(kind: Kind, verdicts: &[Verdict]) -> u64 {
    let mut count: u64 = 0;
    for verdict in verdicts {
        if kind_of(verdict) == Some(kind) {
            count = count.saturating_add(1);
        }
    }
    count
}

/// Says how many more there are than are told.
fn write_more<W: Write>(writer: &mut W, all: u64, most: u64) -> io::Result<()> {
    if all <= most {
        return Ok(());
    }
    let more = Count(all.saturating_sub(most));
    writeln!(
        writer,
        "<p class=\"note\">{more} more, of less weight, are left out; <code>--format text</code> tells of them.</p>"
    )
}

/// Tells of a verdict.
fn write_finding<W: Write>(
    writer: &mut W,
    teller: Teller<'_>,
    kind: Kind,
    verdict: &Verdict,
) -> io::Result<()> {
    match kind {
        Kind::Faults => put_fault(writer, teller, verdict)?,
        Kind::Remarks => put_remark(writer, teller, verdict)?,
    }
    close_finding(writer)
}

/// Writes the list of a kind: so many verdicts at most, and how many more there are.
fn write_list<W: Write>(
    writer: &mut W,
    teller: Teller<'_>,
    kind: Kind,
    verdicts: &[Verdict],
) -> io::Result<()> {
    let most = most_of(kind);
    let mut told: u64 = 0;
    open_findings(writer)?;
    for verdict in verdicts {
        if told < most && kind_of(verdict) == Some(kind) {
            told = told.saturating_add(1);
            write_finding(writer, teller, kind, verdict)?;
        }
    }
    close_findings(writer)?;
    write_more(writer, count_of(kind, verdicts), most)
}

/// Writes what is found wrong.
pub(crate) fn write_findings<W: Write>(
    writer: &mut W,
    teller: Teller<'_>,
    verdicts: &[Verdict],
) -> io::Result<()> {
    if count_of(Kind::Faults, verdicts) == 0 {
        return write_note(writer, "No fault was found.");
    }
    write_list(writer, teller, Kind::Faults, verdicts)
}

/// Writes what decides nothing.
pub(crate) fn write_notices<W: Write>(
    writer: &mut W,
    teller: Teller<'_>,
    verdicts: &[Verdict],
) -> io::Result<()> {
    if count_of(Kind::Remarks, verdicts) == 0 {
        return Ok(());
    }
    put(
        writer,
        "<h3>Remarks, which do not decide the verdict</h3>\n",
    )?;
    write_list(writer, teller, Kind::Remarks, verdicts)
}
