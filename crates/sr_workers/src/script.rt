//! A feed over memory: what it hands out lies in a list, and what it is given is kept.

ghost use Rattle.std.specs.Prelude.{◌≡◌, ◌+◌, ◌^◌, [], true, IfOk, OnOk, OnErr};
ghost use Rattle.sr_frame.specs.Frame.{HasFrameLength};
ghost use Rattle.sr_workers.specs.declared.feed.Given.TheVariants.{Lost};
ghost use Rattle.sr_workers.specs.Told.{told_of, lost_after, IsLastTurn};
ghost use Rattle.sr_workers.specs.Scripts.{told_by, IsSpent};

use crate::{Feed, FeedFault, Given, Turn};
use sr_frame::{Frame, FrameFault, NoMemory};
use std::alloc::Global;
use std::sync::Wait;

/// What a script hands out.
#[derive(Debug, Drop)]
pub enum Line {
    /// A frame, at this time.
    Frame(Frame, u64),
    /// A time.
    Tick(u64),
    /// Nothing now.
    Idle,
}

/// A feed over memory.
#[derive(Debug, Drop)]
pub struct Script {
    lines: Vec<Line>,
    next: usize,
    given: Vec<Frame>,
    lost: u64,
    ended: bool,
    failures: u64,
    alloc: Global,
}

impl Script {
    ghost use Rattle.sr_workers.specs.Scripts.{all_told, has_told, will_tell, was_given, has_lost};

    /// A feed that hands these out.
    pub fn new(alloc: Global, lines: Vec<Line>) -> Script
        ensures handed { has_told result ≡ [] }
        ensures left { will_tell result ≡ all_told lines.items }
        ensures given { was_given result ≡ [] }
        ensures lost { has_lost result ≡ 0 }
    {
        Script {
            lines,
            next: 0,
            given: Vec::new(alloc),
            lost: 0,
            ended: false,
            failures: 0,
            alloc,
        }
    }

    /// The frames that were put, in order.
    pub fn given(&self) -> &[Frame]
        ensures { result.now ≡ was_given self.now }
    {
        &self.given
    }

    // Nothing is left to hand out.
    fn end(&mut self) -> Turn
        requires { IsSpent self.old.lines.items self.old.next self.old.failures }
        ensures end { result ≡ Turn.End }
        ensures ended { self.new.ended ≡ true }
        ensures same { (self.new.lines ≡ self.old.lines) × (self.new.next ≡ self.old.next)
            × (self.new.given ≡ self.old.given) × (self.new.lost ≡ self.old.lost)
            × (self.new.failures ≡ self.old.failures) }
    {
        self.ended = true;
        Turn::End
    }

    // An allocation failed: that is a failure, or the end where there were as many as can be counted.
    fn fail(&mut self) -> Result<(), FeedFault>
        ensures same { (self.new.lines ≡ self.old.lines) × (self.new.next ≡ self.old.next)
            × (self.new.given ≡ self.old.given) × (self.new.lost ≡ self.old.lost) }
        ensures ok { OnOk result (self.new.failures ≡ self.old.failures) }
        ensures full { OnOk result (self.old.failures + 1 ≡ 2 ^ 64) }
        ensures err { OnErr result (self.new.failures ≡ self.old.failures + 1) }
        ensures ended { self.new.ended ≡ self.old.ended }
    {
        if self.failures == u64::MAX {
            return Ok(());
        }
        self.failures += 1;
        Err(FeedFault)
    }

    // Counts a frame that is lost: one that has no frame's length, or for which an allocation failed once more than can be
    // counted.
    fn lose(&mut self, octets: &[u8]) -> Given
        requires { HasFrameLength octets.now → self.old.failures + 1 ≡ 2 ^ 64 }
        ensures lost { self.new.lost ≡ lost_after self.old.lost Lost }
        ensures same { (self.new.lines ≡ self.old.lines) × (self.new.next ≡ self.old.next)
            × (self.new.given ≡ self.old.given) × (self.new.failures ≡ self.old.failures)
            × (self.new.ended ≡ self.old.ended) }
        ensures is { result ≡ Lost }
    {
        self.lost = self.lost.saturating_add(1);
        Given::Lost
    }
}

// Hands a line out.
fn show(line: &Line, into: &mut Vec<u8>) -> Result<Turn, NoMemory>
    ensures told { IfOk result (λ t. told_of t into.new.items ≡ told_by line.now) }
    ensures goes_on { IfOk result (λ t. IsLastTurn t → ⊥) }
{
    match line {
        Line::Frame(frame, now) => {
            into.clear();
            into.extend_from_slice(frame.octets())?;
            Ok(Turn::Frame(*now))
        }
        Line::Tick(now) => Ok(Turn::Tick(*now)),
        Line::Idle => Ok(Turn::Idle),
    }
}

impl Feed for Script {
    ghost use Rattle.std.specs.Prelude.{true};
    ghost use Rattle.sr_workers.specs.Scripts.{has_told, was_given, has_lost};

    ghost Name = { Unit {0} };

    ghost name = { λ _. tt };

    ghost tells = { λ _. true };

    ghost handed = { has_told };

    ghost asked = { λ s. s.next };

    ghost given = { was_given };

    ghost losses = { has_lost };

    ghost ended = { λ s. s.ended };

    ghost failed = { λ s. s.failures };

    fn next<W: Wait>(&mut self, _rt: &W, into: &mut Vec<u8>) -> Result<Turn, FeedFault> {
        if self.next >= self.lines.len() {
            return Ok(self.end());
        }
        let Ok(turn) = show(&self.lines[self.next], into) else {
            self.fail()?;
            return Ok(self.end());
        };
        self.next += 1;
        Ok(turn)
    }

    fn give<W: Wait>(&mut self, _rt: &W, octets: &[u8]) -> Result<Given, FeedFault> {
        if self.given.reserve(1).is_err() {
            self.fail()?;
            return Ok(self.lose(octets));
        }
        match Frame::copy(self.alloc, octets) {
            Ok(frame) => {
                self.given.push_reserved(frame);
                Ok(Given::Put)
            }
            Err(FrameFault::NoMemory) => {
                self.fail()?;
                Ok(self.lose(octets))
            }
            Err(_) => Ok(self.lose(octets)),
        }
    }

    fn failures(&self) -> u64 {
        self.failures
    }
}
