//! A comparison of duplicate records with a plain slow record, over random notes and merges.

ghost use Rattle.std.specs.Prelude.{◌≡◌, ◌⊎◌};

use bitflags::Flags;
use sr_dup_window::{Lane, Lanes, Record};
use sr_sequence::Seq;
use std::alloc::Global;
use std::test::Fail;

/// The first numbers lie this far from 0, so that none before them is below it.
const START: u64 = 1 << 40;

/// A record that forgets no number and answers of a window.
#[derive(Drop)]
pub struct Slow {
    window: u64,
    greatest: u64,
    noted: Vec<(u64, Lanes)>,
}

impl Slow {
    /// A record of one number, on these lanes.
    pub fn begin(alloc: Global, window: u64, seq: Seq, lanes: Lanes) -> Result<Slow, Fail> {
        let greatest = START.wrapping_add(u64::from(seq.0));
        let mut slow = Slow {
            window,
            greatest,
            noted: Vec::new(alloc),
        };
        let _ = slow.add(greatest, lanes)?;
        Ok(slow)
    }

    /// The greatest number's 16 bits.
    pub fn reference(&self) -> Seq {
        Seq((self.greatest % 65536) as u16)
    }

    /// The one number with these 16 bits among the 65536 above `greatest - window`.
    fn number(&self, seq: Seq) -> u64 {
        let least = self.greatest.wrapping_sub(self.window).wrapping_add(1);
        least.wrapping_add(u64::from(seq.0).wrapping_sub(least) % 65536)
    }

    /// The lanes on which a number was ever noted.
    fn lanes_of(&self, number: u64) -> Lanes {
        let mut lanes = Lanes::NONE;
        for at in self.noted.iter() {
            if at.0 == number {
                lanes = lanes.union(at.1);
            }
        }
        lanes
    }

    /// Adds a number to the asked lanes that lack it, and answers those.
    fn add(&mut self, number: u64, lanes: Lanes) -> Result<Lanes, Fail> {
        let fresh = lanes.difference(self.lanes_of(number));
        // What an allocation failed for is asked again.
        if !fresh.is_empty() && self.noted.push((number, fresh)).is_err() {
            self.noted.push((number, fresh))?;
        }
        Ok(fresh)
    }

    /// The lanes on which a number of the window is noted.
    pub fn noted_on(&self, seq: Seq) -> Lanes {
        let number = self.number(seq);
        if number <= self.greatest {
            self.lanes_of(number)
        } else {
            Lanes::NONE
        }
    }

    /// Notes a number on lanes, and answers those on which it was new.
    pub fn note(&mut self, seq: Seq, lanes: Lanes) -> Result<Lanes, Fail> {
        let number = self.number(seq);
        self.greatest = self.greatest.max(number);
        self.add(number, lanes)
    }

    /// Adds the other's numbers, counted so that the greatest of both are close; false where they are 32768 apart.
    pub fn merge(&mut self, other: &Slow) -> Result<bool, Fail> {
        let ahead = other.greatest.wrapping_sub(self.greatest) % 65536;
        if ahead == 32768 {
            return Ok(false);
        }
        let start = if ahead < 32768 {
            self.greatest
        } else {
            self.greatest.wrapping_sub(65536)
        };
        let greatest = start.wrapping_add(ahead);
        let moved = greatest.wrapping_sub(other.greatest);
        for at in other.noted.iter() {
            let _ = self.add(at.0.wrapping_add(moved), at.1)?;
        }
        self.greatest = self.greatest.max(greatest);
        Ok(true)
    }
}

// Numbers with no pattern, the same in each run.
#[derive(Drop)]
struct Chances(u64);

impl Chances {
    fn next(&mut self) -> u64 {
        self.0 = self
            .0
            .wrapping_mul(6364136223846793005)
            .wrapping_add(1442695040888963407);
        self.0 >> 33
    }

    // A number near an edge of the window, of the half or of all numbers, seen from another one.
    fn near(&mut self, reference: Seq) -> Seq {
        let edges = [
            0u16, 1, 64, 1023, 1024, 1088, 2047, 2048, 30000, 32767, 32768, 64511,
        ];
        let far = edges[(self.next() % 12) as usize].wrapping_add((self.next() % 4) as u16);
        if self.next() % 2 == 0 {
            Seq(reference.0.wrapping_add(far))
        } else {
            Seq(reference.0.wrapping_sub(far))
        }
    }

    fn lanes(&mut self) -> Lanes {
        Lanes::from_bits_retain((self.next() % 256) as u8).union(Lanes::A)
    }
}

// A record and the slow one, which agree.
#[derive(Drop)]
struct Both<const N: usize> {
    fast: Record<N>,
    slow: Slow,
}

impl<const N: usize> Both<N> {
    fn begin(alloc: Global, seq: Seq) -> Result<Self, Fail>
        requires { (N ≡ 16) ⊎ (N ≡ 32) }
    {
        Ok(Both {
            fast: Record::begin(seq, Lanes::H),
            slow: Slow::begin(alloc, 64 * N as u64, seq, Lanes::H)?,
        })
    }

    fn agree_at(&self, seq: Seq) -> bool {
        let noted = self.slow.noted_on(seq);
        let mut same = self.fast.reference() == self.slow.reference();
        for lane in Lane::ALL {
            same = same && self.fast.has(lane, seq) == noted.has(lane);
        }
        same
    }

    fn note(&mut self, seq: Seq, lanes: Lanes) -> Result<bool, Fail> {
        if lanes.is_empty() {
            return Ok(false);
        }
        let fresh = self.fast.fresh(seq, lanes);
        let answer = self.fast.note(seq, lanes);
        Ok(self.slow.note(seq, lanes)? == answer && fresh == answer && self.agree_at(seq))
    }

    fn merge(&mut self, other: &Both<N>) -> Result<bool, Fail> {
        let before = self.fast;
        let merged = self.fast.merge(&other.fast).is_ok();
        let unchanged = merged || self.fast == before;
        Ok(
            self.slow.merge(&other.slow)? == merged
                && unchanged
                && self.agree_at(other.fast.reference()),
        )
    }
}

// A random note or merge of two such pairs, with this number, and whether each agrees within itself.
fn moves<const N: usize>(
    chances: &mut Chances,
    first: &mut Both<N>,
    second: &mut Both<N>,
    seq: Seq,
) -> Result<bool, Fail> {
    match chances.next() % 16 {
        0 => first.merge(second),
        1 => second.merge(first),
        2..6 => second.note(seq, chances.lanes()),
        _ => first.note(seq, chances.lanes()),
    }
}

// Whether both agree on a random number, and on another one after it.
fn agrees_on<const N: usize>(
    chances: &mut Chances,
    first: &mut Both<N>,
    second: &mut Both<N>,
) -> Result<bool, Fail> {
    let seq = chances.near(first.fast.reference());
    let agree = moves(chances, first, second, seq)?;
    let other = chances.near(seq);
    Ok(agree && first.agree_at(other) && second.agree_at(other))
}

// The step of a run of them at which the two kinds of record disagree.
fn first_disagreement<const N: usize>(
    chances: &mut Chances,
    first: &mut Both<N>,
    second: &mut Both<N>,
) -> Result<Option<u64>, Fail> {
    for step in 0..100 {
        if !agrees_on(chances, first, second)? {
            return Ok(Some(step));
        }
    }
    Ok(None)
}

// The step at which two new pairs disagree, if they do.
fn disagreement<const N: usize>(alloc: Global, seed: u64) -> Result<Option<u64>, Fail>
    requires { (N ≡ 16) ⊎ (N ≡ 32) }
{
    let mut chances = Chances(seed);
    let mut first = Both::<N>::begin(alloc, Seq((chances.next() % 65536) as u16))?;
    let start = chances.near(first.fast.reference());
    let mut second = Both::<N>::begin(alloc, start)?;
    first_disagreement(&mut chances, &mut first, &mut second)
}

#[test]
fn agrees_with_the_slow_record(rt: HostRuntime) -> Result<(), Fail> {
    for seed in 0..20 {
        assert_eq!(rt;
            disagreement::<16>(rt.alloc(), seed)?,
            None,
            "16 rows, seed {seed}"
        );
        assert_eq!(rt;
            disagreement::<32>(rt.alloc(), seed)?,
            None,
            "32 rows, seed {seed}"
        );
    }
    Ok(())
}
