//! What is heard of the sources of a report that have one sender.

ghost use Rattle.std.specs.Prelude.{◌≡◌, IfOk};
ghost use Rattle.sr_verdict.specs.Heards.{AreHeard};
ghost use Rattle.sr_verdict.specs.Verdicts.{single_in, telling_entries, AreHeardIn, IsSingleHearing};

use crate::heard::{Heard, heard_in};
use crate::nodes::is_doubled;
use sr_audit::{Audit, Spans};
use sr_capture_audit::Report;
use sr_frame::NoMemory;
use sr_sources::Sources;
use std::alloc::Global;

/// What is heard of sources, by all frames, by those that tell what was lost, and by the counters.
#[derive(Drop)]
pub(crate) struct Hearing {
    /// By all frames.
    pub own: Vec<Heard>,
    /// By those that tell what was lost.
    pub telling: Vec<Heard>,
    /// By the counters.
    pub counters: Vec<Heard>,
}

/// Leaves out what is heard of sources that have two senders.
fn leave_doubled_out(heard: &mut Vec<Heard>, sources: &Sources)
    ensures { heard.new.items ≡ single_in sources.now.sources.entries heard.old.items }
{
    heard.retain(|own: &Heard| !is_doubled(sources, own.mac));
}

/// What is heard of the sources of an audit of its own, or else of the one of all frames.
fn heard_by(
    alloc: Global,
    own: &Option<Audit>,
    audit: &Audit,
    spans: &Spans,
) -> Result<Vec<Heard>, NoMemory>
    ensures { IfOk result (λ heard.
        AreHeard spans.now (telling_entries own.now audit.now) heard.items) }
{
    match own {
        Some(own) => heard_in(alloc, own, spans),
        None => heard_in(alloc, audit, spans),
    }
}

/// What is heard of the sources of a report.
fn hearing_of(alloc: Global, report: &Report) -> Result<Hearing, NoMemory>
    ensures { IfOk result (λ hearing. AreHeardIn report.now hearing.own.items
        hearing.telling.items hearing.counters.items) }
{
    let Report {
        audit,
        judged,
        counters,
        spans,
        ..
    } = report;
    Ok(Hearing {
        own: heard_in(alloc, audit, spans)?,
        telling: heard_by(alloc, judged, audit, spans)?,
        counters: heard_by(alloc, counters, audit, spans)?,
    })
}

/// What is heard of the sources of a report that have one sender.
pub(crate) fn single_hearing(
    alloc: Global,
    report: &Report,
    sources: &Sources,
) -> Result<Hearing, NoMemory>
    ensures { IfOk result (λ hearing. IsSingleHearing report.now sources.now.sources.entries
        hearing.own.items hearing.telling.items hearing.counters.items) }
{
    let mut hearing = hearing_of(alloc, report)?;
    leave_doubled_out(&mut hearing.own, sources);
    leave_doubled_out(&mut hearing.telling, sources);
    leave_doubled_out(&mut hearing.counters, sources);
    Ok(hearing)
}
