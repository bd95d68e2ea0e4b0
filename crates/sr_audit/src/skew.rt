//! How far apart the copies of frames come.

ghost use Rattle.std.specs.Prelude.{◌≡◌, ◌<◌};
ghost use Rattle.sr_audit.specs.Skewing.{class_of, more_in, skew_by, least_with, greatest_with, skews_with, mean_of};

use crate::side::Side;

/// The bounds of the classes of skews, in nanoseconds: a skew is in the first class whose bound is above it.
pub const SKEW_BOUNDS: [u64; 6] = [
    10_000,
    100_000,
    1_000_000,
    10_000_000,
    100_000_000,
    400_000_000,
];

/// The skews of pairs, in nanoseconds: the time of the first copy at side B minus that of the first copy at side A.
#[derive(Clone, Copy, Debug, PartialEq, Eq)]
pub struct Skews {
    /// How many there are.
    pub count: u64,
    /// The least.
    pub least: i128,
    /// The greatest.
    pub greatest: i128,
    /// Their sum.
    pub sum: i128,
    /// How many are in each class, by their size. The last class has no bound.
    pub classes: [u64; 7],
}

/// The class of a skew of that size.
fn class_of(size: u128) -> usize
    ensures class { result ≡ class_of size }
    ensures few { result < 7 }
{
    let [a, b, c, d, e, f] = SKEW_BOUNDS;
    if size < u128::from(a) {
        0
    } else if size < u128::from(b) {
        1
    } else if size < u128::from(c) {
        2
    } else if size < u128::from(d) {
        3
    } else if size < u128::from(e) {
        4
    } else if size < u128::from(f) {
        5
    } else {
        6
    }
}

/// The skew of a pair whose second copy came by a side at this time.
pub(crate) fn skew_by(side: Side, time: u64, first: u64) -> i128
    ensures { result ≡ skew_by side time first }
{
    let time = i128::from(time);
    let first = i128::from(first);
    match side {
        Side::A => first - time,
        Side::B => time - first,
    }
}

/// The counts of the classes, with one more in a class.
fn more_in(mut counts: [u64; 7], class: usize) -> [u64; 7]
    requires { class < 7 }
    ensures { result ≡ more_in class counts }
{
    counts[class] = counts[class].saturating_add(1);
    counts
}

/// The least of so many skews and one more.
fn least_with(count: u64, least: i128, skew: i128) -> i128
    ensures { result ≡ least_with count least skew }
{
    if count == 0 { skew } else { least.min(skew) }
}

/// The greatest of so many skews and one more.
fn greatest_with(count: u64, greatest: i128, skew: i128) -> i128
    ensures { result ≡ greatest_with count greatest skew }
{
    if count == 0 { skew } else { greatest.max(skew) }
}

impl Skews {
    ghost use Rattle.std.specs.Prelude.{◌≡◌};

    /// No pair came.
    pub const NONE: Skews = Skews {
        count: 0,
        least: 0,
        greatest: 0,
        sum: 0,
        classes: [0; 7],
    };

    /// Takes the skew of a pair.
    pub(crate) fn note(&mut self, skew: i128)
        ensures { self.new ≡ skews_with skew self.old }
    {
        self.least = least_with(self.count, self.least, skew);
        self.greatest = greatest_with(self.count, self.greatest, skew);
        self.count = self.count.saturating_add(1);
        self.sum = self.sum.saturating_add(skew);
        self.classes = more_in(self.classes, class_of(skew.unsigned_abs()));
    }

    /// Their mean, rounded down. None: there is no pair.
    pub fn mean(&self) -> Option<i128>
        ensures { result ≡ mean_of self.now }
    {
        if self.count == 0 {
            return None;
        }
        Some(self.sum.div_euclid(i128::from(self.count)))
    }
}
