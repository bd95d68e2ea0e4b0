//! Where a message stands in its stream.

ghost use Rattle.std.specs.Prelude.{◌≡◌, ◌-◌};
ghost use Rattle.sr_streams.specs.Spots.{spot_rank, next, number_in, run_begun, numbers_apart, is_other_second, nearest, following, goose_spot, sampled_spot, spot_of};

use crate::message::Counter;

/// How long a copy is known as one: EntryForgetTime, in nanoseconds (IEC 62439-3, clauses 4 and 5).
const FORGET_TIME: u64 = 400_000_000;

/// How long the numbers of samples tell a step, in nanoseconds: they begin anew each second.
const SECOND: u64 = 1_000_000_000;

/// How far numbers of different seconds are apart at least (choice of this project).
const FAR: u32 = 512;

/// Where a message stands in its stream.
#[derive(Clone, Copy, Debug)]
pub(crate) struct Spot {
    /// How often the sender began anew before.
    pub run: u32,
    /// The state of a GOOSE, or the second of samples, as far as they are counted.
    pub state: u32,
    /// The number in the state or second.
    pub number: u32,
}

/// What tells where the next message of a stream stands.
#[derive(Clone, Copy, Debug)]
pub(crate) struct Heard {
    /// Where the message stands that is furthest ahead.
    pub latest: Spot,
    /// When it came, in nanoseconds.
    pub time: u64,
    /// The greatest number so far.
    pub top: u32,
}

/// The number of a message of several samples in its second.
fn number_in(smp_cnt: u16, asdus: u16) -> u32
    ensures { result ≡ number_in smp_cnt asdus }
{
    u32::from(smp_cnt) / u32::from(asdus.max(1))
}

/// How far two numbers are apart.
fn apart(m: u32, n: u32) -> u32
    ensures { result ≡ numbers_apart m n }
{
    m.abs_diff(n)
}

/// Whether two numbers are of different seconds.
fn is_far(top: u32, m: u32, n: u32) -> bool
    ensures { result ≡ is_other_second top m n }
{
    let apart = apart(m, n);
    FAR <= apart && u64::from(top.max(m)) < 2 * u64::from(apart)
}

/// Where a sender begins anew.
pub(crate) fn begun(run: u32, counter: Counter) -> Spot
    ensures { result ≡ run_begun run counter }
{
    match counter {
        Counter::Goose { st_num, sq_num } => Spot {
            run,
            state: st_num,
            number: sq_num,
        },
        Counter::Sampled { smp_cnt, asdus } => Spot {
            run,
            state: 1,
            number: number_in(smp_cnt, asdus),
        },
    }
}

impl Spot {
    ghost use Rattle.std.specs.Prelude.{◌≡◌};
    ghost use Rattle.sr_streams.specs.Spots.{spot_rank, following};

    /// The order in a stream.
    pub(crate) fn rank(self) -> u128
        ensures { result ≡ spot_rank self }
    {
        (u128::from(self.run) * (1 << 32) + u128::from(self.state)) * (1 << 32)
            + u128::from(self.number)
    }

    /// The second of a number that comes within a second, too late for a copy.
    fn following(self, number: u32) -> u32
        ensures { result ≡ following self number }
    {
        if number < self.number {
            self.state.saturating_add(1)
        } else {
            self.state
        }
    }
}

impl Heard {
    ghost use Rattle.std.specs.Prelude.{◌≡◌, ◌-◌};
    ghost use Rattle.sr_streams.specs.Spots.{nearest, goose_spot, sampled_spot, spot_of};

    /// The second of a number that comes soon.
    fn nearest(self, number: u32) -> u32
        ensures { result ≡ nearest self number }
    {
        if !is_far(self.top, number, self.latest.number) {
            self.latest.state
        } else if number < self.latest.number {
            self.latest.state.saturating_add(1)
        } else {
            self.latest.state.saturating_sub(1)
        }
    }

    /// Where a GOOSE stands, if the sender did not begin anew, or else.
    fn goose_spot(self, time: u64, same: Spot) -> Spot
        ensures { result ≡ goose_spot self time same }
    {
        if self.latest.rank() < same.rank() || time.saturating_sub(self.time) < FORGET_TIME {
            return same;
        }
        Spot {
            run: self.latest.run.saturating_add(1),
            ..same
        }
    }

    /// Where samples stand, so long behind the latest ones.
    fn sampled_spot(self, silence: u64, number: u32) -> Spot
        ensures { result ≡ sampled_spot self silence number }
    {
        if silence < FORGET_TIME {
            Spot {
                run: self.latest.run,
                state: self.nearest(number),
                number,
            }
        } else if silence < SECOND && 0 < apart(number, self.latest.number) {
            Spot {
                run: self.latest.run,
                state: self.latest.following(number),
                number,
            }
        } else {
            Spot {
                run: self.latest.run.saturating_add(1),
                state: 1,
                number,
            }
        }
    }

    /// Where a message stands that comes at this time.
    pub(crate) fn spot_of(self, time: u64, counter: Counter) -> Spot
        ensures { result ≡ spot_of self time counter }
    {
        match counter {
            Counter::Goose { .. } => self.goose_spot(time, begun(self.latest.run, counter)),
            Counter::Sampled { smp_cnt, asdus } => self.sampled_spot(
                time.saturating_sub(self.time),
                number_in(smp_cnt, asdus),
            ),
        }
    }
}
