//! A host over memory.

use sr_frame::Frame;
use sr_workers::{Feed, FeedFault, Given, Turn};
use std::sync::atomic::{AtomicU64, Ordering};
use std::sync::{Arc, Wait};
use std::thread;

/// A host that sends a frame, or none, is idle ever after, and counts what it is given. In its first `next` it waits, for so
/// many looks, until so many hosts were asked.
#[derive(Drop)]
pub struct Host {
    /// What it sends first.
    pub frame: Option<Frame>,
    /// How many hosts were asked.
    pub asked: Arc<AtomicU64>,
    /// For how many it waits.
    pub until: u64,
    /// How often it looks.
    pub looks: u64,
    /// How many waited in vain.
    pub missed: Arc<AtomicU64>,
    /// Whether it was asked.
    pub begun: bool,
    /// How many frames it was given.
    pub given: u64,
}

impl Host {
    // Waits for the others.
    fn meet(&mut self) {
        if self.looks == 0 {
            return;
        }
        self.asked.fetch_add(1, Ordering::SeqCst);
        for _look in 0..self.looks {
            if self.asked.load(Ordering::SeqCst) >= self.until {
                return;
            }
            thread::yield_now();
        }
        if self.asked.load(Ordering::SeqCst) < self.until {
            self.missed.fetch_add(1, Ordering::SeqCst);
        }
    }
}

impl Feed for Host {
    ghost use Rattle.std.specs.Prelude.{[], false};

    ghost Name = { Unit {0} };

    ghost name = { λ _. tt };

    ghost tells = { λ _. false };

    ghost handed = { λ _. [] };

    ghost asked = { λ _. 0 };

    ghost given = { λ _. [] };

    ghost losses = { λ _. 0 };

    ghost ended = { λ _. false };

    ghost failed = { λ _. 0 };

    fn next<W: Wait>(&mut self, _rt: &W, into: &mut Vec<u8>) -> Result<Turn, FeedFault> {
        if !self.begun {
            self.begun = true;
            self.meet();
            into.clear();
            if let Some(frame) = &self.frame {
                if into.extend_from_slice(frame.octets()).is_ok() {
                    return Ok(Turn::Frame(0));
                }
            }
        }
        Ok(Turn::Idle)
    }

    fn give<W: Wait>(&mut self, _rt: &W, _octets: &[u8]) -> Result<Given, FeedFault> {
        self.given = self.given.saturating_add(1);
        Ok(Given::Put)
    }

    fn failures(&self) -> u64 {
        0
    }
}
