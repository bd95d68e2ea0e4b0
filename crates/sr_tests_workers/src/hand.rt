//! A feed that may stop at any of its calls.

ghost use Rattle.std.specs.Prelude.{◌≡◌};

use sr_workers::{Feed, FeedFault, Given, Turn};
use std::sync::atomic::{AtomicU64, Ordering};
use std::sync::{Arc, Wait};
use std::thread;

/// At which of its calls a feed stops, and how. The first is 1.
#[derive(Clone, Copy, PartialEq, Eq)]
pub enum Halt {
    /// At none.
    Never,
    /// It ends at this `next`.
    Ends(u64),
    /// It fails at this `next`.
    Fails(u64),
    /// It fails at this `give`.
    Refuses(u64),
}

/// A feed that hands out frames and then nothing for some turns, and then ends. While it waits for frames it goes on.
#[derive(Drop)]
pub struct Hand {
    /// What it hands out first.
    pub frame: [u8; 66],
    /// So many frames it hands out.
    pub frames: u64,
    /// Whether each is of another node.
    pub floods: bool,
    /// How many turns it has in all.
    pub turns: u64,
    /// For so many frames it waits.
    pub wanted: u64,
    /// So many turns it waits at most.
    pub patience: u64,
    /// Where it stops.
    pub halt: Halt,
    /// How often it was asked.
    pub asked: u64,
    /// How many frames it was given.
    pub given: u64,
    /// Counts what it is given, for others to see.
    pub seen: Arc<AtomicU64>,
    /// How often it failed.
    pub failures: u64,
}

impl Hand {
    // The next frame of a flood is of another node.
    fn turn_to_next(&mut self)
        ensures failures { self.new.failures ≡ self.old.failures }
        ensures asked { self.new.asked ≡ self.old.asked }
    {
        if self.floods {
            let [high, low] = ((self.asked % 65536) as u16).to_be_bytes();
            self.frame[9] = high;
            self.frame[10] = low;
        }
    }

    fn has_ended(&self) -> bool {
        self.asked > self.turns && (self.given >= self.wanted || self.asked > self.patience)
    }
}

impl Feed for Hand {
    ghost use Rattle.std.specs.Prelude.{[], false, true};

    ghost Name = { Unit {0} };

    ghost name = { λ _. tt };

    ghost tells = { λ _. false };

    ghost handed = { λ _. [] };

    ghost asked = { λ _. 0 };

    ghost given = { λ _. [] };

    ghost losses = { λ _. 0 };

    ghost ended = { λ _. true };

    ghost failed = { λ h. h.failures };

    fn next<W: Wait>(&mut self, _rt: &W, into: &mut Vec<u8>) -> Result<Turn, FeedFault> {
        self.asked = self.asked.saturating_add(1);
        if self.halt == Halt::Ends(self.asked) || self.failures == u64::MAX {
            return Ok(Turn::End);
        }
        if self.halt == Halt::Fails(self.asked) {
            self.failures += 1;
            return Err(FeedFault);
        }
        if self.asked <= self.frames {
            self.turn_to_next();
            into.clear();
            if into.extend_from_slice(&self.frame).is_err() {
                self.failures += 1;
                return Err(FeedFault);
            }
            return Ok(Turn::Frame(0));
        }
        if self.has_ended() {
            return Ok(Turn::End);
        }
        thread::yield_now();
        Ok(Turn::Idle)
    }

    fn give<W: Wait>(&mut self, _rt: &W, _octets: &[u8]) -> Result<Given, FeedFault> {
        self.given = self.given.saturating_add(1);
        if self.halt == Halt::Refuses(self.given) && self.failures < u64::MAX {
            self.failures += 1;
            return Err(FeedFault);
        }
        self.seen.fetch_add(1, Ordering::SeqCst);
        Ok(Given::Put)
    }

    fn failures(&self) -> u64 {
        self.failures
    }
}
