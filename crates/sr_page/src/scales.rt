//! Numbers and times along the sides of charts.

ghost use Rattle.std.specs.Prelude.{◌≡◌, ◌≤◌, ◌<◌, ◌-◌, ◌*◌, ◌/◌, min, max, IfSome};
ghost use Rattle.sr_page.specs.Units.{unit_nanos, unit_name};

use std::fmt;

/// The least of 1, 2, 5, 10, 20, 50 and so on that is no less than a number, up to 2^64 - 1.
pub fn rounded_up(number: u64) -> u64
    ensures { number ≤ result }
{
    let mut power: u64 = 1;
    for _ in 0..20 {
        for digit in [1, 2, 5] {
            let own = power.saturating_mul(digit);
            if own >= number {
                return own;
            }
        }
        power = power.saturating_mul(10);
    }
    u64::MAX
}

/// A place between the left side of a chart and its right one, in thousandths of a percent of its width.
#[derive(Clone, Copy, Debug, PartialEq, Eq)]
pub struct Place(pub u64);

impl fmt::Display for Place {
    fn fmt<W: fmt::Write>(&self, f: &mut fmt::Formatter<W>) -> fmt::Result {
        let (whole, part) = (self.0 / 1000, self.0 % 1000);
        if part == 0 {
            write!(f, "{whole}%")
        } else {
            write!(f, "{whole}.{part:03}%")
        }
    }
}

/// From when to when a chart shows what came, in nanoseconds.
#[derive(Clone, Copy, Debug, PartialEq, Eq)]
pub struct Extent {
    /// The first time.
    pub first: u64,
    /// The last one.
    pub last: u64,
}

/// The right side of a chart.
const WHOLE: u64 = 100_000;

/// How many marks an axis has at most, without that of its beginning.
const MOST_TICKS: u64 = 10;

impl Extent {
    /// How long it is.
    pub fn length(self) -> u64
        ensures { result ≡ self.last - self.first }
    {
        self.last.saturating_sub(self.first)
    }

    /// Where a time stands. What lies outside is at a side.
    pub fn place_of(self, time: u64) -> Place
        ensures within { result.0 ≤ 100000 }
        ensures place { result.0
            ≡ min ((time - self.first) * 100000 / max (self.last - self.first) 1) 100000 }
    {
        let past = u128::from(time.saturating_sub(self.first)) * u128::from(WHOLE);
        let whole = u128::from(self.length().max(1));
        let place = past / whole;
        Place(place.min(u128::from(WHOLE)) as u64)
    }

    /// The time between two marks of the axis, of which there are at most ten and that of the beginning.
    pub fn step(self) -> u64
        ensures { (self.last - self.first) / 10 < result }
    {
        rounded_up(self.length() / MOST_TICKS + 1)
    }

    /// The time of a mark of the axis, from 0 on. None: there are no more.
    pub fn tick(self, number: u64) -> Option<u64>
        ensures { IfSome result (λ time. time ≤ self.last) }
    {
        let step = self.step();
        let first = self.first.div_ceil(step.max(1));
        let time = first.saturating_add(number).saturating_mul(step);
        if time <= self.last && number <= MOST_TICKS {
            Some(time)
        } else {
            None
        }
    }
}

/// The unit in which times of an axis are told.
#[derive(Clone, Copy, Debug, PartialEq, Eq)]
pub struct Unit {
    /// How many nanoseconds it has.
    pub nanos: u64,
    /// Its name.
    pub name: &'static str,
}

/// The greatest unit of which a step of an axis has some.
pub fn unit_of(step: u64) -> Unit
    ensures some { 0 < result.nanos }
    ensures nanos { result.nanos ≡ unit_nanos step }
    ensures name { result.name.now ≡ unit_name step }
{
    match step {
        0..1_000 => Unit {
            nanos: 1,
            name: "ns",
        },
        1_000..1_000_000 => Unit {
            nanos: 1_000,
            name: "µs",
        },
        1_000_000..1_000_000_000 => Unit {
            nanos: 1_000_000,
            name: "ms",
        },
        _ => Unit {
            nanos: 1_000_000_000,
            name: "s",
        },
    }
}
