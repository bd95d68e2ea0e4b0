//! What is raised once and cleared once.

ghost use Rattle.std.specs.Prelude.{◌≡◌, max};
ghost use Rattle.sr_watch.specs.Alarms.{alarm_between, raised_with, raised_at, with_raised, since_if, lost_behind, own_or_first, lan_lost, newest_of_both, is_silent, is_skewed, is_lossy};

use crate::counts::{Changes, Spread};
use crate::report::Lasts;

/// An alarm of a source.
#[derive(Clone, Copy, Debug, PartialEq, Eq)]
pub enum SourceAlarm {
    /// Copies come by LAN B alone, for `Settings::alone_for`.
    LanLostA,
    /// Copies come by LAN A alone, for `Settings::alone_for`.
    LanLostB,
    /// No copy came by either LAN for `Settings::silent_for`.
    Silent,
    /// A skew of the last interval is over `Settings::skew_over`.
    Skew,
    /// More frames of the last interval were lost by LAN A than `Settings::lost_over`.
    LostA,
    /// More frames of the last interval were lost by LAN B than `Settings::lost_over`.
    LostB,
}

impl SourceAlarm {
    /// All of them.
    pub const ALL: [SourceAlarm; 6] = [
        SourceAlarm::LanLostA,
        SourceAlarm::LanLostB,
        SourceAlarm::Silent,
        SourceAlarm::Skew,
        SourceAlarm::LostA,
        SourceAlarm::LostB,
    ];
}

/// An alarm of a LAN's capture.
#[derive(Clone, Copy, Debug, PartialEq, Eq)]
pub enum LanAlarm {
    /// It runs, and no packet came for `Settings::alone_for`.
    LanSilent,
    /// It has ended.
    CaptureEnded,
    /// A copy came behind the mark since the last check.
    Behind,
    /// As many copies wait as may: its reader has to wait too.
    Full,
}

impl LanAlarm {
    /// All of them.
    pub const ALL: [LanAlarm; 4] = [
        LanAlarm::LanSilent,
        LanAlarm::CaptureEnded,
        LanAlarm::Behind,
        LanAlarm::Full,
    ];
}

/// Whether an alarm begins or is over.
#[derive(Clone, Copy, Debug, PartialEq, Eq)]
pub enum Note {
    /// It holds, and did not hold at the check before.
    Raised,
    /// It holds no longer.
    Cleared,
}

/// What a check found to have changed.
#[derive(Clone, Copy, Debug, PartialEq, Eq)]
pub struct Alarm {
    /// Whether it begins or is over.
    pub note: Note,
    /// Since when it holds, or held, in nanoseconds of capture time.
    pub since: u64,
}

/// What a check tells of an alarm that was raised since then or not, and that holds since then now, or not.
pub(crate) fn alarm_between(raised: Option<u64>, holds: Option<u64>) -> Option<Alarm>
    ensures { result ≡ alarm_between raised holds }
{
    match (raised, holds) {
        (None, Some(since)) => Some(Alarm {
            note: Note::Raised,
            since,
        }),
        (Some(since), None) => Some(Alarm {
            note: Note::Cleared,
            since,
        }),
        _ => None,
    }
}

/// Since when it is raised behind the check.
pub(crate) fn raised_with(raised: Option<u64>, holds: Option<u64>) -> Option<u64>
    ensures { result ≡ raised_with raised holds }
{
    match (raised, holds) {
        (_, None) => None,
        (None, Some(since)) => Some(since),
        (Some(since), Some(_)) => Some(since),
    }
}

/// Since when each alarm of a source is raised, in nanoseconds of capture time. None: it is not.
#[derive(Clone, Copy, Debug, PartialEq, Eq)]
pub(crate) struct RaisedSince {
    pub lan_lost_a: Option<u64>,
    pub lan_lost_b: Option<u64>,
    pub silent: Option<u64>,
    pub skew: Option<u64>,
    pub lost_a: Option<u64>,
    pub lost_b: Option<u64>,
}

impl RaisedSince {
    /// None is raised.
    pub const NONE: RaisedSince = RaisedSince {
        lan_lost_a: None,
        lan_lost_b: None,
        silent: None,
        skew: None,
        lost_a: None,
        lost_b: None,
    };

    /// Since when an alarm is raised.
    pub fn at(&self, alarm: SourceAlarm) -> Option<u64>
        ensures { result ≡ raised_at alarm self.now }
    {
        match alarm {
            SourceAlarm::LanLostA => self.lan_lost_a,
            SourceAlarm::LanLostB => self.lan_lost_b,
            SourceAlarm::Silent => self.silent,
            SourceAlarm::Skew => self.skew,
            SourceAlarm::LostA => self.lost_a,
            SourceAlarm::LostB => self.lost_b,
        }
    }

    /// With an alarm that is raised since then, or not.
    pub fn with(mut self, alarm: SourceAlarm, since: Option<u64>) -> RaisedSince
        ensures { result ≡ with_raised alarm since self }
    {
        match alarm {
            SourceAlarm::LanLostA => self.lan_lost_a = since,
            SourceAlarm::LanLostB => self.lan_lost_b = since,
            SourceAlarm::Silent => self.silent = since,
            SourceAlarm::Skew => self.skew = since,
            SourceAlarm::LostA => self.lost_a = since,
            SourceAlarm::LostB => self.lost_b = since,
        }
        self
    }
}

/// Since when something holds, if it does.
pub(crate) fn since_if(holds: bool, since: u64) -> Option<u64>
    ensures { result ≡ since_if holds since }
{
    if holds { Some(since) } else { None }
}

/// Since when a LAN has no copies of a source, whose own last one came then, and that by the other one then.
fn lost_behind(alone_for: u64, since: u64, other: u64) -> Option<u64>
    ensures { result ≡ lost_behind alone_for since other }
{
    since_if(alone_for < other.saturating_sub(since), since)
}

/// When the last copy came by a LAN, or the first of the source where none came by it.
fn own_or_first(first: Option<u64>, own: Option<u64>) -> Option<u64>
    ensures { result ≡ own_or_first first own }
{
    match own {
        Some(own) => Some(own),
        None => first,
    }
}

/// Since when a LAN has no copies of a source any more: the newest copy by the other one lies further behind its own newest, or behind the
/// first of the source where none came by it, than a time. None: it has, or the other one has none either.
pub(crate) fn lan_lost(
    alone_for: u64,
    first: Option<u64>,
    own: Option<u64>,
    other: Option<u64>,
) -> Option<u64>
    ensures { result ≡ lan_lost alone_for first own other }
{
    match (own_or_first(first, own), other) {
        (Some(since), Some(other)) => lost_behind(alone_for, since, other),
        _ => None,
    }
}

/// The later one of two times.
fn newest_of_both(a: Option<u64>, b: Option<u64>) -> Option<u64>
    ensures { result ≡ newest_of_both a b }
{
    match (a, b) {
        (None, None) => None,
        (None, Some(b)) => Some(b),
        (Some(a), None) => Some(a),
        (Some(a), Some(b)) => Some(a.max(b)),
    }
}

/// Since when no copy of a source came, if that is longer than a time before the mark.
pub(crate) fn is_silent(silent_for: u64, mark: u64, last: Lasts) -> Option<u64>
    ensures { result ≡ is_silent silent_for mark last }
{
    match newest_of_both(last.a, last.b) {
        Some(last) => since_if(silent_for < mark.saturating_sub(last), last),
        None => None,
    }
}

/// Whether a skew of some frames is over a bound.
pub(crate) fn is_skewed(bound: Option<u64>, spread: Option<Spread>) -> bool
    ensures { result ≡ is_skewed bound spread }
{
    match (bound, spread) {
        (Some(bound), Some(spread)) => {
            let bound = i128::from(bound);
            bound < spread.greatest || spread.least.saturating_add(bound) < 0
        }
        _ => false,
    }
}

/// Whether a LAN lost more hundredths of the frames of an interval than a bound.
pub(crate) fn is_lossy(bound: Option<u64>, lost: i128, interval: &Changes) -> bool
    ensures { result ≡ is_lossy bound lost interval.now }
{
    let frames = interval
        .both
        .saturating_add(interval.lost.a)
        .saturating_add(interval.lost.b);
    match bound {
        Some(bound) => i128::from(bound).saturating_mul(frames) < lost.saturating_mul(100),
        None => false,
    }
}
