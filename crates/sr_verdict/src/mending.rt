//! When a ring was cut and mended again.

ghost use Rattle.std.specs.Prelude.{◌≡◌, is_some};
ghost use Rattle.sr_verdict.specs.Mending.{
  one_more_where,
  sided_with,
  sided_at,
  ever_with,
  ever_sided,
  fuller,
  fuller_with,
  fullest,
  tells_of_cut,
  mended_by,
  cut_time,
};

use crate::heard::{Heard, When, closed_in, row_when};
use sr_capture_audit::Network;

/// How many sources have to be heard by one side alone at once where a ring is cut that was mended (choice of this project).
const LEAST_AT_ONCE: u64 = 2;

/// One more, where a test holds.
fn one_more_where(holds: bool, count: u64) -> u64
    ensures { result ≡ one_more_where holds count }
{
    if holds {
        count.saturating_add(1)
    } else {
        count
    }
}

/// How many sources were heard by one side alone at a time.
fn sided_at(time: u64, heard: &[Heard]) -> u64
    ensures { result ≡ sided_at time heard.now }
{
    let mut count: u64 = 0;
    for own in heard {
        count = one_more_where(row_when(When::At(time), own).is_some(), count);
    }
    count
}

/// How many sources were heard by one side alone at any time.
fn ever_sided(heard: &[Heard]) -> u64
    ensures { result ≡ ever_sided heard.now }
{
    let mut count: u64 = 0;
    for own in heard {
        count = one_more_where(closed_in(own).is_some(), count);
    }
    count
}

/// Of two times the one at which more sources were heard by one side alone.
fn fuller(heard: &[Heard], best: Option<u64>, time: u64) -> u64
    ensures { result ≡ fuller heard.now best time }
{
    match best {
        Some(best) if sided_at(best, heard) >= sided_at(time, heard) => best,
        _ => time,
    }
}

/// The time at which the most sources were, so far, with that at which the row of one more began.
fn fuller_with(heard: &[Heard], best: Option<u64>, own: &Heard) -> Option<u64>
    ensures { result ≡ fuller_with heard.now best own.now }
{
    match closed_in(own) {
        Some(row) => Some(fuller(heard, best, row.since)),
        None => best,
    }
}

/// Of the times at which rows began the one at which the most sources were heard by one side alone.
fn fullest(heard: &[Heard]) -> Option<u64>
    ensures { result ≡ fullest heard.now }
{
    let mut best = None;
    for own in heard {
        best = fuller_with(heard, best, own);
    }
    best
}

/// Whether so many sources at once tell of a cut, of so many that were ever heard by one side alone.
fn tells_of_cut(at_once: u64, ever: u64) -> bool
    ensures { result ≡ tells_of_cut at_once ever }
{
    LEAST_AT_ONCE <= at_once && ever <= at_once.saturating_add(at_once)
}

/// The time at which the most sources were heard by one side alone, where they tell of a cut.
fn mended_by(heard: &[Heard], fullest: Option<u64>) -> Option<u64>
    ensures { result ≡ mended_by heard.now fullest }
{
    match fullest {
        Some(time) if tells_of_cut(sided_at(time, heard), ever_sided(heard)) => Some(time),
        _ => None,
    }
}

/// When a ring was cut that was mended, at one time of it. None: it was not.
pub(crate) fn cut_time(network: Network, heard: &[Heard]) -> Option<u64>
    ensures { result ≡ cut_time network heard.now }
{
    match network {
        Network::Prp => None,
        Network::Hsr => mended_by(heard, fullest(heard)),
    }
}
