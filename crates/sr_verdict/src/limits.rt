//! The limits of a user: losses within one are notices, and skews beyond one are faults.

ghost use Rattle.std.specs.Prelude.{◌≡◌, ◌++◌, OnOk};
ghost use Rattle.std.specs.List.{filter_map};
ghost use Rattle.sr_verdict.specs.Limits.{
  when_within,
  within,
  notice_in_place,
  fault_beyond,
  limited,
  farthest,
  skew_on,
  skew_verdicts,
};

use crate::heard::Heard;
use crate::judging::note_one;
use crate::verdict::Verdict;
use sr_audit::Skews;
use sr_frame::NoMemory;

/// Nanoseconds of a microsecond.
const MICROSECOND: u128 = 1000;

/// What a user takes for no fault, and what for one (choice of this project).
#[derive(Clone, Copy, Debug, PartialEq, Eq)]
pub struct Limits {
    /// How many frames a LAN may lose that came by the other one, and how many numbers of a source both. None: no one.
    pub lost: Option<u64>,
    /// How many microseconds the copies of a frame may come apart. None: any.
    pub skew: Option<u64>,
}

/// A verdict, where a count is within a limit.
fn when_within(most: u64, count: u64, verdict: Verdict) -> Option<Verdict>
    ensures { result ≡ when_within most count verdict }
{
    if count <= most { Some(verdict) } else { None }
}

/// The notice that stands in the place of a fault by which so many were lost at most.
fn within(most: u64, verdict: &Verdict) -> Option<Verdict>
    ensures { result ≡ within most verdict.now }
{
    match *verdict {
        Verdict::BothLost(mac, numbers) => {
            when_within(most, numbers, Verdict::BothLostWithin(mac, numbers))
        }
        Verdict::Loss(lan, share, other) => {
            when_within(most, share.frames, Verdict::LossWithin(lan, share, other))
        }
        _ => None,
    }
}

/// The notice in the place of a fault. Without a limit there is none.
fn notice_in_place(limit: Option<u64>, verdict: &Verdict) -> Option<Verdict>
    ensures { result ≡ notice_in_place limit verdict.now }
{
    match limit {
        Some(most) => within(most, verdict),
        None => None,
    }
}

/// A fault that is beyond a limit.
fn fault_beyond(limit: Option<u64>, verdict: &Verdict) -> Option<Verdict>
    ensures { result ≡ fault_beyond limit verdict.now }
{
    match notice_in_place(limit, verdict) {
        Some(_) => None,
        None => Some(*verdict),
    }
}

/// Takes the faults that are beyond a limit.
fn note_beyond(
    verdicts: &mut Vec<Verdict>,
    limit: Option<u64>,
    faults: &[Verdict],
) -> Result<(), NoMemory>
    ensures { OnOk result (verdicts.new.items
        ≡ verdicts.old.items ++ filter_map (fault_beyond limit) faults.now) }
{
    for fault in faults {
        note_one(verdicts, fault_beyond(limit, fault))?;
    }
    Ok(())
}

/// Takes the notices in the places of those that are not.
fn note_within(
    verdicts: &mut Vec<Verdict>,
    limit: Option<u64>,
    faults: &[Verdict],
) -> Result<(), NoMemory>
    ensures { OnOk result (verdicts.new.items
        ≡ verdicts.old.items ++ filter_map (notice_in_place limit) faults.now) }
{
    for fault in faults {
        note_one(verdicts, notice_in_place(limit, fault))?;
    }
    Ok(())
}

/// Takes faults by a limit: those beyond it, and behind them the notices in the places of the others.
///
/// # Errors
/// `NoMemory` where an allocation failed.
pub(crate) fn note_limited(
    verdicts: &mut Vec<Verdict>,
    limit: Option<u64>,
    faults: &[Verdict],
) -> Result<(), NoMemory>
    ensures { OnOk result
        (verdicts.new.items ≡ verdicts.old.items ++ limited limit faults.now) }
{
    note_beyond(verdicts, limit, faults)?;
    note_within(verdicts, limit, faults)
}

/// The skew that is the greatest by its size.
fn farthest(skews: &Skews) -> i128
    ensures { result ≡ farthest skews.now }
{
    if skews.least.unsigned_abs() > skews.greatest.unsigned_abs() {
        skews.least
    } else {
        skews.greatest
    }
}

/// The fault of a source of which a pair is further apart than so many microseconds.
fn skew_on(most: u64, heard: &Heard) -> Option<Verdict>
    ensures { result ≡ skew_on most heard.now }
{
    let skew = farthest(&heard.figures.skews);
    if skew.unsigned_abs() > MICROSECOND * u128::from(most) {
        Some(Verdict::Skew(heard.mac, skew, most))
    } else {
        None
    }
}

/// Takes the sources of which a pair is further apart than so many microseconds.
fn note_wide(verdicts: &mut Vec<Verdict>, most: u64, heard: &[Heard]) -> Result<(), NoMemory>
    ensures { OnOk result
        (verdicts.new.items ≡ verdicts.old.items ++ filter_map (skew_on most) heard.now) }
{
    for own in heard {
        note_one(verdicts, skew_on(most, own))?;
    }
    Ok(())
}

/// Takes the sources whose copies are further apart than a limit allows.
///
/// # Errors
/// `NoMemory` where an allocation failed.
pub(crate) fn note_skews(
    verdicts: &mut Vec<Verdict>,
    limit: Option<u64>,
    heard: &[Heard],
) -> Result<(), NoMemory>
    ensures { OnOk result
        (verdicts.new.items ≡ verdicts.old.items ++ skew_verdicts limit heard.now) }
{
    match limit {
        Some(most) => note_wide(verdicts, most, heard),
        None => Ok(()),
    }
}
