//! Whether the numbers of a source are those of two senders.

ghost use Rattle.std.specs.Prelude.{◌≡◌};
ghost use Rattle.sr_sources.specs.Senders.{are_near, is_near, leads_away, number_or, is_away, is_back, is_elsewhere, left_with, more_where, since_with};

use crate::glimpse::Glimpse;
use crate::rates::one_more;
use sr_sequence::{Distance, Seq, place};

/// How far apart numbers of one sender are at most: the window in which copies are known.
const NEAR: u16 = 1024;

/// How the numbers of a source go to and fro. A step is from one number to the next; it leads away if they are 1024 or more apart.
#[derive(Clone, Copy, Debug, PartialEq, Eq)]
pub struct Turns {
    /// The number of the last frame that has one.
    latest: Option<Seq>,
    /// The number that the last step away left.
    left: Option<Seq>,
    /// How many steps led back to the number that was left before. The count stays at 2^64 - 1.
    pub back: u64,
    /// How many led elsewhere.
    pub elsewhere: u64,
    /// When the first led back, in nanoseconds.
    pub since: Option<u64>,
}

/// Whether two numbers may be of one sender.
fn are_near(m: Seq, n: Seq) -> bool
    ensures { result ≡ are_near m n }
{
    match place(m, n, NEAR) {
        Distance::Behind(_) => true,
        Distance::Ahead(ahead) => ahead < NEAR,
    }
}

/// Whether there is a number that is near.
fn is_near(n: Seq, other: Option<Seq>) -> bool
    ensures { result ≡ is_near n other }
{
    match other {
        Some(m) => are_near(m, n),
        None => false,
    }
}

/// Whether there is a number that is not near.
fn leads_away(n: Seq, latest: Option<Seq>) -> bool
    ensures { result ≡ leads_away n latest }
{
    match latest {
        Some(m) => !are_near(m, n),
        None => false,
    }
}

/// One more, where a test holds.
pub(crate) fn more_where(test: bool, count: u64) -> u64
    ensures { result ≡ more_where test count }
{
    if test { one_more(count) } else { count }
}

/// The number, or else the one before.
fn number_or(number: Option<Seq>, before: Option<Seq>) -> Option<Seq>
    ensures { result ≡ number_or number before }
{
    match number {
        Some(n) => Some(n),
        None => before,
    }
}

/// When a test first held.
fn since_with(test: bool, time: u64, since: Option<u64>) -> Option<u64>
    ensures { result ≡ since_with test time since }
{
    match since {
        Some(first) => Some(first),
        None if test => Some(time),
        None => None,
    }
}

/// Whether a frame leads away.
fn is_away(number: Option<Seq>, latest: Option<Seq>) -> bool
    ensures { result ≡ is_away number latest }
{
    match number {
        Some(n) => leads_away(n, latest),
        None => false,
    }
}

/// Whether it leads back to the number that was left before.
fn is_back(number: Option<Seq>, latest: Option<Seq>, left: Option<Seq>) -> bool
    ensures { result ≡ is_back number latest left }
{
    match number {
        Some(n) => leads_away(n, latest) && is_near(n, left),
        None => false,
    }
}

/// Whether it leads elsewhere.
fn is_elsewhere(number: Option<Seq>, latest: Option<Seq>, left: Option<Seq>) -> bool
    ensures { result ≡ is_elsewhere number latest left }
{
    match number {
        Some(n) => leads_away(n, latest) && !is_near(n, left),
        None => false,
    }
}

/// The number that the last step away left.
fn left_with(away: bool, latest: Option<Seq>, left: Option<Seq>) -> Option<Seq>
    ensures { result ≡ left_with away latest left }
{
    if away { latest } else { left }
}

impl Turns {
    ghost use Rattle.std.specs.Prelude.{◌≡◌};
    ghost use Rattle.sr_sources.specs.Senders.{turns_with};

    /// No frame came.
    pub const NONE: Turns = Turns {
        latest: None,
        left: None,
        back: 0,
        elsewhere: 0,
        since: None,
    };

    /// With a frame more.
    pub(crate) fn with(self, x: Glimpse) -> Turns
        ensures { result ≡ turns_with x self }
    {
        let is_back = is_back(x.number, self.latest, self.left);
        let is_elsewhere = is_elsewhere(x.number, self.latest, self.left);
        Turns {
            latest: number_or(x.number, self.latest),
            left: left_with(is_away(x.number, self.latest), self.latest, self.left),
            back: more_where(is_back, self.back),
            elsewhere: more_where(is_elsewhere, self.elsewhere),
            since: since_with(is_back, x.time, self.since),
        }
    }
}
