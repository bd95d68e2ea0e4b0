//! How many messages of a stream came, and are missing.

ghost use Rattle.std.specs.Prelude.{◌≡◌, ◌+◌, ◌-◌, ◌*◌, ◌^◌, ◌<◌, ◌≤◌};
ghost use Rattle.sr_streams.specs.Courses.{is_turn, between, turned, turned_at};

use crate::spot::Spot;

/// Of what a stream is.
#[derive(Clone, Copy, Debug, PartialEq, Eq)]
pub enum Kind {
    /// GOOSE (IEC 61850-8-1).
    Goose,
    /// Sampled values (IEC 61850-9-2).
    Sampled,
}

/// The sums of what is told of each message and the one behind it.
#[derive(Clone, Copy, Debug)]
pub(crate) struct Sums {
    /// How many messages came.
    pub came: u64,
    /// How many are missing between two.
    pub between: u128,
    /// How often a state or second ended.
    pub turned: u128,
    /// How many messages of these came and are missing.
    pub turned_at: u128,
    ghost small: { between ≤ came * 2 ^ 34 },
    ghost few: { turned ≤ came * 2 },
    ghost low: { turned_at ≤ came * 2 ^ 34 },
}

/// Whether two spots are of one run, and of different states or seconds.
fn is_turn(later: Spot, older: Spot) -> bool
    ensures { result ≡ is_turn later older }
{
    later.run == older.run && older.state < later.state
}

/// How many messages are missing between two neighbours.
fn between(later: Spot, older: Spot) -> u64
    ensures value { result ≡ between later older }
    ensures small { result ≤ 2 ^ 33 }
{
    if is_turn(later, older) {
        u64::from(later.state - older.state - 1) + u64::from(later.number)
    } else if later.run == older.run {
        u64::from(later.number.saturating_sub(older.number).saturating_sub(1))
    } else {
        0
    }
}

/// One for a turn.
fn turned(later: Spot, older: Spot) -> u64
    ensures value { result ≡ turned later older }
    ensures small { result ≤ 1 }
{
    u64::from(is_turn(later, older))
}

/// How many of its second came up to the older one of a turn.
fn turned_at(later: Spot, older: Spot) -> u64
    ensures value { result ≡ turned_at later older }
    ensures small { result ≤ 2 ^ 33 }
{
    if is_turn(later, older) {
        u64::from(older.number) + 1
    } else {
        0
    }
}

/// What a pair of neighbours tells.
#[derive(Clone, Copy, Debug)]
struct Pair {
    between: u64,
    turned: u64,
    turned_at: u64,
    ghost small: { between ≤ 2 ^ 33 },
    ghost few: { turned ≤ 1 },
    ghost low: { turned_at ≤ 2 ^ 33 },
}

/// What a pair of neighbours tells.
fn pair_of(later: Spot, older: Spot) -> Pair
    ensures between { result.between ≡ between later older }
    ensures turned { result.turned ≡ turned later older }
    ensures turned_at { result.turned_at ≡ turned_at later older }
{
    Pair {
        between: between(later, older),
        turned: turned(later, older),
        turned_at: turned_at(later, older),
    }
}

/// Nothing is told.
fn nothing() -> Pair
    ensures between { result.between ≡ 0 }
    ensures turned { result.turned ≡ 0 }
    ensures turned_at { result.turned_at ≡ 0 }
{
    Pair {
        between: 0,
        turned: 0,
        turned_at: 0,
    }
}

/// A sum with two numbers more, without one.
fn changed(sum: u128, first: u64, second: u64, less: u64) -> u128
    requires sum { sum < 2 ^ 100 }
    ensures value { result ≡ sum + (first + second) - less }
    ensures most { result ≤ sum + (first + second) }
{
    (sum + (u128::from(first) + u128::from(second))).saturating_sub(u128::from(less))
}

impl Sums {
    ghost use Rattle.std.specs.Prelude.{◌≡◌, ◌+◌, ◌-◌, ◌^◌, ◌<◌, [], ◌∷◌};
    ghost use Rattle.sr_streams.specs.Sums.{AreSumsWith, AreSumsOf, missing_by};

    /// The sums of no message.
    pub(crate) fn none() -> Sums
        ensures { AreSumsOf [] result }
    {
        Sums {
            came: 0,
            between: 0,
            turned: 0,
            turned_at: 0,
        }
    }

    /// The sums of one message.
    pub(crate) fn one(spot: Spot) -> Sums
        ensures { AreSumsOf (spot ∷ []) result }
    {
        let _spot = spot;
        Sums {
            came: 1,
            between: 0,
            turned: 0,
            turned_at: 0,
        }
    }

    /// The sums with one message more, of which two pairs are made, and one is parted.
    fn grown(self, first: Pair, second: Pair, less: Pair) -> Sums
        requires { self.came + 1 < 2 ^ 64 }
        ensures came { result.came ≡ self.came + 1 }
        ensures between { result.between
            ≡ self.between + (first.between + second.between) - less.between }
        ensures turned { result.turned
            ≡ self.turned + (first.turned + second.turned) - less.turned }
        ensures turned_at { result.turned_at
            ≡ self.turned_at + (first.turned_at + second.turned_at) - less.turned_at }
    {
        Sums {
            came: self.came + 1,
            between: changed(self.between, first.between, second.between, less.between),
            turned: changed(self.turned, first.turned, second.turned, less.turned),
            turned_at: changed(
                self.turned_at,
                first.turned_at,
                second.turned_at,
                less.turned_at,
            ),
        }
    }

    /// The sums with a spot between two. Behind 2^64 - 1 messages none is counted.
    pub(crate) fn with(self, newer: Option<Spot>, spot: Spot, older: Spot) -> Sums
        ensures { self.came + 1 < 2 ^ 64 → AreSumsWith newer spot older self result }
    {
        if self.came == u64::MAX {
            return self;
        }
        match newer {
            Some(newer) => self.grown(
                pair_of(newer, spot),
                pair_of(spot, older),
                pair_of(newer, older),
            ),
            None => self.grown(pair_of(spot, older), nothing(), nothing()),
        }
    }

    /// How many messages are missing, where the greatest number of a second is this.
    pub(crate) fn missing(self, kind: Kind, top: u32) -> u128
        ensures { result ≡ missing_by kind top self }
    {
        match kind {
            Kind::Goose => self.between,
            Kind::Sampled => {
                let whole = u128::from(top) + 1;
                self.between + (self.turned * whole).saturating_sub(self.turned_at)
            }
        }
    }
}
