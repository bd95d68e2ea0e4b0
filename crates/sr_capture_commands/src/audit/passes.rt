//! The passes of an audit over its captures for figures: one where nothing was lost, and one or two more for what tells of losses.

use crate::audit::losses::{read_losses, read_missing};
use crate::audit::subjects::subject_at;
use crate::audit::ways::have_both_ways;
use sr_audit::{Audit, Span, Spans};
use sr_capture_audit::{
    Flows, Gathered, Report, Rule, Subject, flows_in, gathered_of, inner_spans, ruled_of,
};
use sr_capture_script::{Captures, Front};
use sr_clocks::Line;
use sr_command_io::{Ended, Opened, Progress, beside, open_captures};
use sr_options::AuditTask;
use sr_slots::Keys;
use std::rt::Files;

/// When the captures begin and end, and the parts of them in which a frame is missing that has no copy there.
#[derive(Clone, Copy)]
pub(crate) struct Times {
    /// When they begin and end.
    pub(crate) recorded: Spans,
    /// The parts that are judged.
    pub(crate) judged: Spans,
    /// By how much times of B differ from these.
    pub(crate) clock: Option<Line>,
    /// Whether some frames alone tell what was lost.
    pub(crate) judges_some: bool,
}

/// Opens the captures for a pass.
pub(crate) fn open<'a, R: AllocGlobal + Eprint + Files>(
    rt: &'a R,
    task: &AuditTask<'_>,
    progress: Progress,
) -> Result<Captures<Opened<'a, R>>, Ended> {
    open_captures(rt, task.a, task.b, &task.options, progress)
}

/// Where and when the earliest packet came in. None: there is none.
pub(crate) fn read_front<R: AllocGlobal + Eprint + Files>(
    rt: &R,
    task: &AuditTask<'_>,
) -> Result<Option<Front>, Ended> {
    let captures = open(rt, task, Progress::Silent)?;
    let front = captures.front();
    drop(captures);
    Ok(front)
}

/// From the beginning of the earlier capture to the end of the later one.
fn whole_span(spans: Spans) -> Option<Span> {
    match (spans.a, spans.b) {
        (Some(a), Some(b)) => Some(Span {
            first: a.first.min(b.first),
            last: a.last.max(b.last),
        }),
        (span, None) | (None, span) => span,
    }
}

/// When each recorder is taken to run: as its packets say, or both all the time.
fn audited_spans(task: &AuditTask<'_>, recorded: Spans) -> Spans {
    if task.is_whole {
        let whole = whole_span(recorded);
        Spans { a: whole, b: whole }
    } else {
        recorded
    }
}

/// The parts in which a frame is missing that has no copy: all of them where both recorders ran all the time.
pub(crate) fn judged_spans(task: &AuditTask<'_>, edge_width: u64, audited: Spans) -> Spans {
    if task.is_whole {
        audited
    } else {
        inner_spans(edge_width, audited)
    }
}

/// What one pass gathers: the figures of the captures, the RedBoxes that supervision names, and what is asked for under two rules.
pub(crate) fn read_gathered<R: AllocGlobal + Eprint + Files>(
    rt: &R,
    task: &AuditTask<'_>,
    subject: Subject,
    keys: Keys,
    spans: Spans,
    by_flow: Option<Rule>,
    by_counter: Option<Rule>,
) -> Result<Gathered, Ended> {
    let captures = open(rt, task, Progress::Silent);
    let (mut captures, (by_flow, by_counter)) = beside(captures, (by_flow, by_counter))?;
    let gathered = gathered_of(
        rt.alloc(),
        keys,
        &mut captures,
        &task.options.choice,
        subject,
        spans,
        by_flow,
        by_counter,
    );
    drop(captures);
    Ok(gathered?)
}

/// The figures of the captures under a rule, by a pass of their own.
pub(crate) fn read_ruled<R: AllocGlobal + Eprint + Files>(
    rt: &R,
    task: &AuditTask<'_>,
    subject: Subject,
    keys: Keys,
    judged: Spans,
    rule: Rule,
) -> Result<Audit, Ended> {
    let (mut captures, rule) = beside(open(rt, task, Progress::Silent), rule)?;
    let audit = ruled_of(
        rt.alloc(),
        keys,
        &mut captures,
        &task.options.choice,
        subject,
        judged,
        rule,
    );
    drop(captures);
    Ok(audit?)
}

/// The flows that both captures see, for lists, by a pass of their own, where not all frames tell what was lost.
pub(crate) fn read_flows<R: AllocGlobal + Eprint + Files>(
    rt: &R,
    task: &AuditTask<'_>,
    keys: Keys,
    times: Times,
) -> Result<Option<Flows>, Ended> {
    if !times.judges_some {
        return Ok(None);
    }
    let subject = subject_at(task, times);
    let by_flow = read_ruled(rt, task, subject, keys, times.judged, Rule::ByFlow)?;
    let flows = flows_in(rt.alloc(), keys, &by_flow);
    drop(by_flow);
    Ok(Some(flows?))
}

/// What is known of captures before anything is written.
#[derive(Drop)]
pub(crate) struct Read {
    /// When they begin and end.
    pub(crate) times: Times,
    /// Their figures.
    pub(crate) report: Report,
    /// Whether those of a ring each have both its ways.
    pub(crate) are_both_ways: bool,
}

/// What is known of captures that begin and end so, before anything is written.
pub(crate) fn read_all<R: AllocGlobal + Eprint + Files>(
    rt: &R,
    task: &AuditTask<'_>,
    subject: Subject,
    keys: Keys,
    recorded: Spans,
) -> Result<Read, Ended> {
    let audited = audited_spans(task, recorded);
    let first = read_gathered(rt, task, subject, keys, audited, None, None)?;
    let are_both_ways = have_both_ways(rt, task, keys, first.report.has_repeated());
    let (are_both_ways, first) = beside(are_both_ways, first)?;
    let (judged, report) = if first.report.has_lost() {
        read_losses(rt, task, subject, keys, audited, first)?
    } else {
        let report = read_missing(rt, task, subject, keys, audited, first)?;
        (audited, report)
    };
    Ok(Read {
        times: Times {
            recorded,
            judged,
            clock: subject.clock,
            judges_some: report.judged.is_some(),
        },
        report,
        are_both_ways,
    })
}
