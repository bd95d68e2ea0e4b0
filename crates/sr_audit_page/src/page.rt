//! The page as a whole.

use crate::cards::write_cards;
use crate::findings::{write_findings, write_notices};
use crate::given::Given;
use crate::grounds::write_grounds;
use crate::network::write_network;
use crate::rows::counts_at;
use crate::singles::write_singles;
use crate::sums::sums_of;
use crate::teller::Teller;
use sr_audit::{Sides, Spans};
use sr_audit_charts::{Kept, SourceLine};
use sr_capture_audit::{Counts, Ports};
use sr_page::{
    Outcome, SourceRow, Topology, Totals, close_captures, close_page, close_section, close_sources,
    close_verdict, open_captures, open_page, open_section, open_sources, open_verdict, outcome_by,
    write_capture, write_head, write_remark, write_source, write_totals, write_words,
};
use sr_verdict::{Verdict, reason_in, status_of};
use std::io::{self, Write};

/// What a page tells.
#[derive(Clone, Copy)]
pub struct Page<'a> {
    /// Words from outside.
    pub given: &'a Given,
    /// What kind of network it is.
    pub topology: Topology,
    /// Where the captures were made.
    pub ports: Ports,
    /// When they begin and end.
    pub spans: Spans,
    /// How many packets of each kind they have.
    pub counts: Counts,
    /// How many packets were of sources that have no row.
    pub left_out: u64,
    /// What is told of the network.
    pub verdicts: &'a [Verdict],
    /// The figures of each source, the worst first.
    pub rows: &'a [SourceRow],
    /// What is told of each of them, in the same order.
    pub lines: &'a [SourceLine],
    /// What is kept of the worst of them.
    pub kept: &'a Kept,
}

impl<'a> Page<'a> {
    /// By what its findings are told.
    fn teller(&self) -> Teller<'a> {
        let (given, kept) = (self.given, self.kept);
        Teller {
            names: given.names.as_slice(),
            topology: self.topology,
            ports: self.ports,
            traced: kept.traced.as_slice(),
        }
    }

    /// How many frames each LAN lost.
    pub(crate) fn lost(&self) -> Sides {
        let totals = sums_of(self.rows);
        Sides {
            a: totals.lost_a,
            b: totals.lost_b,
        }
    }

    /// How many frames both lost.
    pub(crate) fn neither(&self) -> u64 {
        sums_of(self.rows).neither
    }
}

/// Writes the verdict and what it stands on.
fn write_verdict<W: Write>(
    writer: &mut W,
    page: &Page<'_>,
    outcome: Outcome,
    totals: &Totals,
) -> io::Result<()> {
    open_verdict(writer, outcome, page.topology, totals)?;
    if let Some(reason) = reason_in(page.verdicts) {
        writeln!(writer, "<li>{reason}</li>")?;
    }
    write_grounds(writer, page.topology, page.verdicts)?;
    close_verdict(writer)
}

/// Writes the table of the captures.
fn write_captures<W: Write>(writer: &mut W, page: &Page<'_>) -> io::Result<()> {
    let (given, counts, spans) = (page.given, page.counts, page.spans);
    open_captures(writer, page.topology)?;
    match page.ports {
        Ports::Two => {
            let (a, b) = (counts_at(&counts.a, spans.a), counts_at(&counts.b, spans.b));
            write_capture(writer, "A", "key a", &given.files_a, &a)?;
            write_capture(writer, "B", "key b", &given.files_b, &b)?;
        }
        Ports::Mirror => {
            let whole = counts_at(&counts.of_mirror(), spans.a);
            write_capture(writer, "Mirror port", "key", &given.files_a, &whole)?;
        }
    }
    close_captures(writer)
}

/// Writes what is found.
fn write_found<W: Write>(writer: &mut W, page: &Page<'_>) -> io::Result<()> {
    let teller = page.teller();
    open_section(writer, "findings", "Findings")?;
    write_findings(writer, teller, page.verdicts)?;
    write_notices(writer, teller, page.verdicts)?;
    close_section(writer)
}

/// Writes the table of the sources.
fn write_sources<W: Write>(writer: &mut W, page: &Page<'_>) -> io::Result<()> {
    let names = page.given.names.as_slice();
    open_sources(writer)?;
    for row in page.rows {
        write_source(writer, names, row)?;
    }
    close_sources(writer, page.left_out)
}

/// Writes the page.
///
/// # Errors
/// The writer fails.
pub fn write_page<W: Write>(writer: &mut W, page: &Page<'_>) -> io::Result<()> {
    let given = page.given;
    let outcome = outcome_by(status_of(page.verdicts));
    let totals = sums_of(page.rows);
    open_page(writer, outcome, &given.title)?;
    write_head(writer, &given.title, &given.facts)?;
    if let Some(note) = &given.note {
        write_remark(writer, note)?;
    }
    write_verdict(writer, page, outcome, &totals)?;
    write_totals(writer, &totals)?;
    write_captures(writer, page)?;
    write_network(writer, page)?;
    write_found(writer, page)?;
    write_sources(writer, page)?;
    write_cards(writer, page, page.teller())?;
    write_singles(writer, page, page.teller())?;
    write_words(writer, page.topology)?;
    close_page(writer)
}
