//! How a run of a script ends, and the answers that it writes.

use sr_session::{Fault, FaultKind};

/// How a run has to end: with the fault of a line, or well.
pub type Ending = Option<(u64, FaultKind)>;

/// Whether a run ends so. None where an allocation failed.
pub fn is_ended(outcome: Result<(), Fault>, ending: Ending) -> Option<bool> {
    match outcome {
        Ok(()) => Some(ending.is_none()),
        Err(
            Fault {
                kind: FaultKind::Memory,
                ..
            },
        ) => None,
        Err(Fault { line, kind }) => Some(ending == Some((line, kind))),
    }
}

/// Whether these are the first answers, so many.
pub fn are_answers(written: &[u8], answers: &[&[u8]], count: usize) -> bool {
    let mut rest = written;
    for answer in answers.iter().take(count) {
        match rest.strip_prefix(*answer) {
            Some(behind) => rest = behind,
            None => return false,
        }
    }
    rest.is_empty()
}
