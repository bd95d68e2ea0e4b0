//! How much was lost in all.

ghost use Rattle.std.specs.Prelude.{◌≡◌};
ghost use Rattle.sr_threaded.specs.Losses.{lost_from};

use crate::LineEnd;
use sr_workers::Feed;

/// How many frames were lost on these lines together, up to the greatest number.
pub(crate) fn lost_in_all<F: Feed>(ends: &[LineEnd<F>]) -> u64
    ensures { result ≡ lost_from 0 ends.now }
{
    let mut total = 0u64;
    let mut rest = ends;
    while let Some((end, behind)) = rest.split_first() {
        rest = behind;
        total = total.saturating_add(end.line.lost());
    }
    total
}
