//! Frames of which a copy came by one side alone so far, and whose other copy may still come in time.

ghost use Rattle.std.specs.Prelude.{◌≡◌, ◌<◌, ◌^◌};
ghost use Rattle.sr_dup_window.specs.Windows.{window_of};
ghost use Rattle.sr_audit.specs.Waiting.{alone_with, waits_with, waits_kept};

use crate::moments::Moments;
use crate::numbers::Numbers;
use crate::row::kept_number;
use crate::tally::{Came, Sides};

/// For how long the other copy of a frame is in time, in nanoseconds (choice of this project, as a source is silent for no longer within
/// a stretch).
const COPY_TIME: u64 = 400_000_000;

/// Counts with a frame more, of which copies came by some sides.
fn alone_with(came: Came, waits: Sides) -> Sides
    requires a { waits.a < 2 ^ 16 }
    requires b { waits.b < 2 ^ 16 }
    ensures { result ≡ alone_with came.a came.b waits }
{
    match (came.a, came.b) {
        (true, false) => Sides {
            a: waits.a + 1,
            b: waits.b,
        },
        (false, true) => Sides {
            a: waits.a,
            b: waits.b + 1,
        },
        _ => waits,
    }
}

/// Counts with a number more, of which copies came by some sides, the first at this time, where all came up to the mark.
fn waits_with(mark: u64, came: Came, time: u64, waits: Sides) -> Sides
    requires a { waits.a < 2 ^ 16 }
    requires b { waits.b < 2 ^ 16 }
    ensures { result ≡ waits_with mark came.a came.b time waits }
{
    if mark.saturating_sub(time) < COPY_TIME {
        alone_with(came, waits)
    } else {
        waits
    }
}

/// How many of so many numbers of a stretch wait, from the least of the last 1024 on.
pub(crate) fn waits_over(numbers: &Numbers, moments: &Moments, mark: u64, count: u16) -> Sides
    ensures { result ≡ waits_kept mark (window_of numbers.now.seen) moments.now.times.items count }
{
    let greatest = numbers.greatest();
    let mut waits = Sides::NONE;
    for steps in 0..count {
        let seq = kept_number(greatest, steps);
        waits = waits_with(mark, numbers.came(seq), moments.at(seq), waits);
    }
    waits
}
