//! The kinds of verdicts on sources.

ghost use Rattle.std.specs.Prelude.{◌≡◌};
ghost use Rattle.sr_audit.specs.Faults.{last_class};
ghost use Rattle.sr_verdict.specs.Verdicts.{when_counted, when_either, dead_by, verdict_on};

use crate::heard::{Heard, row_in};
use crate::verdict::Verdict;
use sr_audit::Skews;

/// A kind of verdicts on sources.
#[derive(Clone, Copy, Debug, PartialEq, Eq)]
pub(crate) enum Kind {
    /// No frame had a number, and it was lost.
    BothLost,
    /// It is heard by one LAN alone.
    DeadPort,
    /// Copies came before.
    Repeated,
    /// Copies came 400 ms apart or more.
    Late,
    /// Its numbers began anew.
    Restart,
    /// No frame had a number, which may have gone past no recorder.
    Unseen,
}

/// A verdict of a count, where it is not 0.
pub(crate) fn when_counted(count: u64, verdict: Verdict) -> Option<Verdict>
    ensures { result ≡ when_counted count verdict }
{
    if count > 0 { Some(verdict) } else { None }
}

/// A verdict of two counts, where one is not 0.
fn when_either(first: u64, second: u64, verdict: Verdict) -> Option<Verdict>
    ensures { result ≡ when_either first second verdict }
{
    if first > 0 {
        Some(verdict)
    } else {
        when_counted(second, verdict)
    }
}

/// How many pairs came 400 ms apart or more.
fn late_pairs(skews: &Skews) -> u64
    ensures { result ≡ last_class skews.now.classes }
{
    let [_, _, _, _, _, _, over] = skews.classes;
    over
}

/// The verdict of a kind on a source, if it stands.
pub(crate) fn verdict_on(kind: Kind, heard: &Heard) -> Option<Verdict>
    ensures { result ≡ verdict_on kind heard.now }
{
    let Heard { mac, figures, .. } = *heard;
    let repeats = figures.tally.repeats;
    let late = late_pairs(&figures.skews);
    match kind {
        Kind::BothLost => when_counted(figures.neither, Verdict::BothLost(mac, figures.neither)),
        Kind::DeadPort => match row_in(heard) {
            Some(row) => Some(Verdict::DeadPort(mac, row)),
            None => None,
        },
        Kind::Repeated => { when_either(repeats.a, repeats.b, Verdict::Repeated(mac, repeats)) }
        Kind::Late => when_counted(late, Verdict::Late(mac, late)),
        Kind::Restart => when_counted(figures.restarts, Verdict::Restart(mac, figures.restarts)),
        Kind::Unseen => when_counted(figures.neither, Verdict::Unseen(mac, figures.neither)),
    }
}
