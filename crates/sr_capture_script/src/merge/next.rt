//! Which packet comes next.

ghost use Rattle.std.specs.Prelude.{◌≡◌, ◌↔◌, IsTrue, MatchOption};
ghost use Rattle.sr_capture_script.specs.Picking.{NotBefore, IsEarliest, NoneDue};

use crate::choice::Inlet;

/// Whether the other moment, if there is one, is not earlier.
fn is_not_before(other: Option<u64>, moment: u64) -> bool
    ensures { IsTrue result ↔ NotBefore other moment }
{
    match other {
        Some(other) => moment <= other,
        None => true,
    }
}

/// The inlet, and its moment, whose moment is the earliest; of equal ones A goes before B, and B before C.
pub(crate) fn earliest(a: Option<u64>, b: Option<u64>, c: Option<u64>) -> Option<(Inlet, u64)>
    ensures { MatchOption result (NoneDue a b c) (λ next. IsEarliest next.0 next.1 a b c) }
{
    if let Some(moment) = a {
        if is_not_before(b, moment) && is_not_before(c, moment) {
            return Some((Inlet::A, moment));
        }
    }
    if let Some(moment) = b {
        if is_not_before(c, moment) {
            return Some((Inlet::B, moment));
        }
    }
    if let Some(moment) = c {
        return Some((Inlet::C, moment));
    }
    None
}
