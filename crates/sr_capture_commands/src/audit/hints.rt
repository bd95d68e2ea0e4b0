//! What looks wrong in the captures of an audit, though there are figures: told on standard error.

use crate::meanings::network_of;
use sr_audit::{Span, Spans};
use sr_capture_audit::{Counts, SideCounts, Summary, hint_of};
use sr_options::{AuditTask, Ports};
use sr_pcapng::Wanted;

/// Says that no packet of a capture is wanted.
fn tell_empty<R: Eprint>(rt: &R, task: &AuditTask<'_>, name: &str, wanted: Wanted) {
    let choice = task.options.choice;
    if choice.from > 0 || choice.to.is_some() {
        let _ = eprintln!(rt; "{name}: no packets of the times that are wanted");
    } else if let Wanted::Number(number) = wanted {
        let _ = eprintln!(rt; "{name}: interface {number} has no packets");
    } else {
        let _ = eprintln!(rt; "{name}: no packets");
    }
}

/// Says what looks wrong in a capture.
fn tell_hint<R: Eprint>(
    rt: &R,
    task: &AuditTask<'_>,
    name: &str,
    wanted: Wanted,
    counts: &SideCounts,
) {
    if let Some(hint) = hint_of(network_of(task.network), counts) {
        let _ = eprintln!(rt; "{name}: {hint}");
    } else if counts.packets == 0 {
        tell_empty(rt, task, name, wanted);
    } else if counts.numbered == 0 && task.options.check_len > 0 {
        let _ = eprintln!(rt;
            "{name}: no number in {} packets: do they have check sequences, as --fcs 4 says?",
            counts.packets
        );
    }
}

/// Says that a mirror port sees the frames of one side alone.
fn tell_one_sided<R: Eprint>(rt: &R, counts: &Counts) {
    match (counts.a.numbered, counts.b.numbered) {
        (0, 0) => {}
        (_, 0) => {
            let _ = eprintln!(rt; "mirror: no frame of B: does the port see A alone?");
        }
        (0, _) => {
            let _ = eprintln!(rt; "mirror: no frame of A: does the port see B alone?");
        }
        _ => {}
    }
}

/// Says what looks wrong in each capture.
fn tell_hints<R: Eprint>(rt: &R, task: &AuditTask<'_>, counts: &Counts) {
    let wanted = task.options.interfaces;
    match task.ports {
        Ports::Two => {
            if task.a.is_some() {
                tell_hint(rt, task, "A", wanted.a, &counts.a);
            }
            if task.b.is_some() {
                tell_hint(rt, task, "B", wanted.b, &counts.b);
            }
        }
        Ports::Mirror => {
            tell_hint(rt, task, "mirror", wanted.a, &counts.of_mirror());
            tell_one_sided(rt, counts);
        }
    }
}

/// Says where a capture begins behind the end of the other one.
fn tell_apart<R: Eprint>(rt: &R, late: &str, early: &str, option: &str, from: Span, to: Span) {
    if to.last < from.first {
        let apart = (from.first - to.last) / 100_000_000;
        let seconds = apart / 10;
        let tenth = apart % 10;
        let _ = eprintln!(rt;
            "{late} begins {seconds}.{tenth} s behind the end of {early}: {option}?"
        );
    }
}

/// Says what a table has no place for.
fn tell_left_out<R: Eprint>(rt: &R, task: &AuditTask<'_>, packets: u64) {
    if task.format == sr_options::Format::Csv && packets > 0 {
        let _ = eprintln!(rt; "{packets} packets of sources beyond the 1024th are in no table");
    }
}

/// Says what looks wrong in the captures, though there are figures.
pub(crate) fn tell_odd<R: Eprint>(rt: &R, task: &AuditTask<'_>, spans: &Spans, summary: &Summary) {
    let choice = task.options.choice;
    if choice.to.is_some_and(|to| to < choice.from) {
        let _ = eprintln!(rt; "no time is wanted: --from is behind --to");
    }
    if task.is_same {
        let _ = eprintln!(rt; "A and B are the same capture");
    }
    let counts = summary.counts;
    tell_hints(rt, task, &counts);
    if counts.are_swapped() {
        let _ = eprintln!(rt;
            "more than half of A and of B have the other LAN's id: are the files swapped?"
        );
    }
    if task.ports == Ports::Two {
        if let (Some(a), Some(b)) = (spans.a, spans.b) {
            tell_apart(rt, "B", "A", "--shift-b", b, a);
            tell_apart(rt, "A", "B", "--shift-a", a, b);
        }
    }
    tell_left_out(rt, task, summary.left_out);
}
