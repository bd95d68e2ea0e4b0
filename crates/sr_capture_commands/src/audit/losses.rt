//! What tells of the losses of captures: the passes that are taken where frames came by one side alone, or numbers are missing.

use crate::audit::passes::{judged_spans, read_gathered, read_ruled};
use crate::meanings::network_of;
use sr_audit::{Audit, Spans};
use sr_capture_audit::{
    Flows, Gathered, Network, RedBoxes, Report, Rule, Ruling, Sight, Subject, flows_in, judges_all,
    sight_of,
};
use sr_command_io::{Ended, beside};
use sr_options::AuditTask;
use sr_slots::Keys;
use std::rt::Files;

/// How many sources captures have at most of which several audits are read at once. A source, a flow or a counter takes some 9 KiB, and there
/// may be 1024 of each.
const FEW_SOURCES: usize = 192;

/// Which frames are audited by the counters that numbered them.
fn counting_of(task: &AuditTask<'_>, judged: Spans, redboxes: RedBoxes) -> Rule {
    let are_two = judged.a.is_some() && judged.b.is_some();
    match network_of(task.network) {
        Network::Hsr if are_two => Rule::InnerCounters(redboxes),
        _ => Rule::Counters(redboxes),
    }
}

/// Whether the captures have all that was sent, but what was lost.
fn sight_on(task: &AuditTask<'_>, flows: &Flows, counters: &Audit) -> Sight {
    if task.is_complete {
        Sight::All
    } else {
        sight_of(network_of(task.network), flows, counters)
    }
}

/// A report in which the counters tell of numbers that no frame had, where they were asked for.
fn judged_by_counters(
    task: &AuditTask<'_>,
    flows: &Flows,
    counters: Option<Audit>,
    report: Report,
) -> Report {
    match counters {
        Some(counters) => {
            let sight = sight_on(task, flows, &counters);
            report.with_counters(counters, sight)
        }
        None => report,
    }
}

/// A report in which no frame tells of losses, and the counters do where they were asked for.
fn judged_by_counters_alone<R: AllocGlobal>(
    rt: &R,
    task: &AuditTask<'_>,
    keys: Keys,
    counters: Option<Audit>,
    report: Report,
) -> Report {
    let none = Flows::none(rt.alloc(), keys);
    let report = judged_by_counters(task, &none, counters, report);
    drop(none);
    report
}

/// The figures under a rule, where they were asked for.
fn audit_in(ruling: Option<Ruling>) -> Option<Audit> {
    match ruling {
        Some(ruling) => Some(ruling.audit),
        None => None,
    }
}

/// Which flows both captures see, and whether all frames tell of losses.
#[derive(Drop)]
struct Judges {
    flows: Flows,
    are_all: bool,
}

impl Judges {
    /// What an audit of frames by flow tells, which is let go.
    fn by<R: AllocGlobal>(rt: &R, keys: Keys, by_flow: Audit) -> Result<Judges, Ended> {
        let flows = flows_in(rt.alloc(), keys, &by_flow);
        let (flows, by_flow) = beside(flows, by_flow)?;
        let are_all = judges_all(&flows, &by_flow);
        drop(by_flow);
        Ok(Judges { flows, are_all })
    }

    /// Where no frame was lost.
    fn none<R: AllocGlobal>(rt: &R, keys: Keys) -> Judges {
        Judges {
            flows: Flows::none(rt.alloc(), keys),
            are_all: true,
        }
    }
}

/// What tells of the losses in the parts that are judged.
#[derive(Drop)]
struct Telling {
    report: Report,
    judges: Judges,
    counters: Option<Audit>,
}

/// What tells of the losses, by one pass: of few sources.
fn read_at_once<R: AllocGlobal + Eprint + Files>(
    rt: &R,
    task: &AuditTask<'_>,
    subject: Subject,
    keys: Keys,
    judged: Spans,
    by_counter: Option<Rule>,
) -> Result<Telling, Ended> {
    let Gathered {
        report,
        redboxes,
        flows,
        counters,
    } = read_gathered(
        rt,
        task,
        subject,
        keys,
        judged,
        Some(Rule::ByFlow),
        by_counter,
    )?;
    drop(redboxes);
    let judges = match audit_in(flows) {
        Some(by_flow) => Judges::by(rt, keys, by_flow),
        None => Ok(Judges::none(rt, keys)),
    };
    let (judges, (report, counters)) = beside(judges, (report, counters))?;
    Ok(Telling {
        report,
        judges,
        counters: audit_in(counters),
    })
}

/// The report of what was gathered.
fn report_in(gathered: Gathered) -> Report {
    let Gathered {
        report,
        redboxes,
        flows,
        counters,
    } = gathered;
    drop((redboxes, flows, counters));
    report
}

/// The figures under a rule, by a pass of their own, where they are asked for.
fn read_counters<R: AllocGlobal + Eprint + Files>(
    rt: &R,
    task: &AuditTask<'_>,
    subject: Subject,
    keys: Keys,
    judged: Spans,
    by_counter: Option<Rule>,
) -> Result<Option<Audit>, Ended> {
    match by_counter {
        Some(rule) => Ok(Some(read_ruled(rt, task, subject, keys, judged, rule)?)),
        None => Ok(None),
    }
}

/// What tells of the losses, by a pass for each audit, so that as few as can be are held at once: of many sources.
fn read_in_turn<R: AllocGlobal + Eprint + Files>(
    rt: &R,
    task: &AuditTask<'_>,
    subject: Subject,
    keys: Keys,
    judged: Spans,
    by_counter: Option<Rule>,
) -> Result<Telling, Ended> {
    let by_flow = read_ruled(rt, task, subject, keys, judged, Rule::ByFlow);
    let (by_flow, by_counter) = beside(by_flow, by_counter)?;
    let judges = Judges::by(rt, keys, by_flow);
    let (judges, by_counter) = beside(judges, by_counter)?;
    let gathered = read_gathered(rt, task, subject, keys, judged, None, None);
    let (gathered, (judges, by_counter)) = beside(gathered, (judges, by_counter))?;
    let report = report_in(gathered);
    let counters = read_counters(rt, task, subject, keys, judged, by_counter);
    let (counters, (report, judges)) = beside(counters, (report, judges))?;
    Ok(Telling {
        report,
        judges,
        counters,
    })
}

/// A report in which frames to groups, and those of flows that both captures see, tell what was lost. Where all frames do it does by itself.
fn judged_by_flows<R: AllocGlobal + Eprint + Files>(
    rt: &R,
    task: &AuditTask<'_>,
    subject: Subject,
    keys: Keys,
    judged: Spans,
    telling: Telling,
) -> Result<Report, Ended> {
    let Telling {
        report,
        judges,
        counters,
    } = telling;
    let Judges { flows, are_all } = judges;
    if !report.has_lost() {
        drop(flows);
        return Ok(judged_by_counters_alone(rt, task, keys, counters, report));
    }
    let report = judged_by_counters(task, &flows, counters, report);
    if are_all {
        drop(flows);
        return Ok(report);
    }
    let ruled = read_ruled(rt, task, subject, keys, judged, Rule::Judged(flows));
    let (ruled, report) = beside(ruled, report)?;
    Ok(report.with_judged(ruled))
}

/// What is asked of the report of all that was recorded, where frames came by one side alone.
#[derive(Clone, Copy)]
struct Losses {
    /// How wide the edges of the captures are.
    edge_width: u64,
    /// Whether numbers are missing.
    have_missing: bool,
    /// Whether so few sources have figures that several audits can be held at once.
    are_few: bool,
}

/// What a report tells of that, which is let go, so that others find room.
fn losses_of(report: Report) -> Losses {
    let losses = Losses {
        edge_width: report.edge_width(),
        have_missing: report.has_missing(),
        are_few: report.audit.len() <= FEW_SOURCES,
    };
    drop(report);
    losses
}

/// The rule of the counters, where numbers are missing.
fn counting_where(
    task: &AuditTask<'_>,
    have_missing: bool,
    judged: Spans,
    redboxes: RedBoxes,
) -> Option<Rule> {
    if have_missing {
        Some(counting_of(task, judged, redboxes))
    } else {
        drop(redboxes);
        None
    }
}

/// A report where frames came by one side alone, by passes that leave out the edges of the captures: the other recorder may have begun between
/// the copies of a frame, or ended there.
pub(crate) fn read_losses<R: AllocGlobal + Eprint + Files>(
    rt: &R,
    task: &AuditTask<'_>,
    subject: Subject,
    keys: Keys,
    audited: Spans,
    first: Gathered,
) -> Result<(Spans, Report), Ended> {
    let Gathered {
        report,
        redboxes,
        flows,
        counters,
    } = first;
    drop((flows, counters));
    let Losses {
        edge_width,
        have_missing,
        are_few,
    } = losses_of(report);
    let judged = judged_spans(task, edge_width, audited);
    let by_counter = counting_where(task, have_missing, judged, redboxes);
    let telling = if are_few {
        read_at_once(rt, task, subject, keys, judged, by_counter)?
    } else {
        read_in_turn(rt, task, subject, keys, judged, by_counter)?
    };
    let report = judged_by_flows(rt, task, subject, keys, judged, telling)?;
    Ok((judged, report))
}

/// A report where no frame came by one side alone: numbers of which no frame came are told by the counters, by a pass of their own.
pub(crate) fn read_missing<R: AllocGlobal + Eprint + Files>(
    rt: &R,
    task: &AuditTask<'_>,
    subject: Subject,
    keys: Keys,
    audited: Spans,
    first: Gathered,
) -> Result<Report, Ended> {
    let Gathered {
        report,
        redboxes,
        flows,
        counters,
    } = first;
    drop((flows, counters));
    let rule = counting_where(task, report.has_missing(), audited, redboxes);
    let counters = read_counters(rt, task, subject, keys, audited, rule);
    let (counters, report) = beside(counters, report)?;
    Ok(judged_by_counters_alone(rt, task, keys, counters, report))
}
