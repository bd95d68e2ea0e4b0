//! What is told of a network by the figures of its captures, and how a check ends.

use crate::clocks::Known;
use sr_audit::Sides;
use sr_capture_audit::{Judgement, Reason, Report};
use sr_capture_script::ScriptFault;
use sr_command_io::Ended;
use sr_sources::Sources;
use sr_verdict::{Limits, Outside, Verdict, reason_in, status_of, verdicts_of};

/// Why nothing can be judged of captures whose clocks can't be told, or of a ring where each has both ways.
fn reason_outside(known: Known, are_both_ways: bool) -> Option<Reason> {
    match known {
        Known::Unjudged(Judgement::Unjudged(reason)) => Some(reason),
        _ if are_both_ways => Some(Reason::BothWays),
        _ => None,
    }
}

/// What is known of the captures besides their figures.
fn outside_of(known: Known, are_both_ways: bool, dropped: Sides, limits: Limits) -> Outside {
    Outside {
        reason: reason_outside(known, are_both_ways),
        ahead: match known {
            Known::Ahead(_, ahead, _) => Some(ahead),
            Known::Nothing | Known::Unjudged(_) => None,
        },
        dropped,
        limits,
    }
}

/// What is told of the network.
pub(crate) fn judge<R: AllocGlobal>(
    rt: &R,
    report: &Report,
    sources: &Sources,
    known: Known,
    are_both_ways: bool,
    dropped: Sides,
    limits: Limits,
) -> Result<Vec<Verdict>, Ended> {
    let outside = outside_of(known, are_both_ways, dropped, limits);
    match verdicts_of(rt.alloc(), report, sources, outside) {
        Ok(verdicts) => Ok(verdicts),
        Err(_) => Err(Ended::By(ScriptFault::NoMemory)),
    }
}

/// Says why nothing can be judged, where that is so. An error is the exit status of a check that does not pass.
pub(crate) fn check<R: Eprint>(rt: &R, verdicts: &[Verdict]) -> Result<(), u8> {
    if let Some(reason) = reason_in(verdicts) {
        let _ = eprintln!(rt; "nothing to judge: {reason}");
    }
    match status_of(verdicts) {
        0 => Ok(()),
        status => Err(status),
    }
}
