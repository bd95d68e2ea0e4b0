//! Two wires between a port and its neighbour's.

ghost use Rattle.std.specs.Prelude.{◌≡◌, ◌++◌, ◌<◌, ◌≤◌, IfOk, OnErr};
ghost use Rattle.sr_workers.specs.Told.{put_of, lost_after};
ghost use Rattle.sr_lines.specs.CableTurns.{LosesFor};

use crate::Ends;
use crate::counts::Counts;
use sr_frame::{Frame, FrameFault, MAX_FRAME_LEN};
use sr_workers::{Feed, FeedFault, Given, Turn};
use std::alloc::Global;
use std::sync::Wait;

/// The wires to and from a neighbour.
#[derive(Drop)]
pub struct Cable {
    /// Their ends.
    pub ends: Ends,
    counts: Counts,
    alloc: Global,
}

impl Cable {
    ghost use Rattle.sr_lines.specs.Handed.{asked_by, lost_by, failed_by};
    ghost use Rattle.sr_lines.specs.Names.{wires_of};

    /// These ends, of which nothing was asked and nothing was lost.
    pub fn new(alloc: Global, ends: Ends) -> Cable
        ensures ends { result.ends ≡ ends }
        ensures unasked { asked_by result ≡ 0 }
        ensures none { lost_by result ≡ 0 }
        ensures unfailed { failed_by result ≡ 0 }
    {
        Cable {
            ends,
            counts: Counts::NONE,
            alloc,
        }
    }

    /// How many frames were lost that it was given, up to the greatest number.
    pub fn lost(&self) -> u64
        ensures { result ≡ lost_by self.now }
    {
        self.counts.lost
    }

    // Sends a frame. One that is lost is counted.
    fn send<W: Wait>(&mut self, rt: &W, octets: &[u8]) -> Result<Given, FeedFault>
        ensures given { IfOk result (λ g. self.new.ends.send.frames
            ≡ self.old.ends.send.frames ++ put_of g octets.now) }
        ensures ungiven { OnErr result
            (self.new.ends.send.frames ≡ self.old.ends.send.frames) }
        ensures taken { self.new.ends.take ≡ self.old.ends.take }
        ensures wires { wires_of self.new ≡ wires_of self.old }
        ensures lost { IfOk result (λ g. self.new.counts.lost
            ≡ lost_after self.old.counts.lost g) }
        ensures kept { OnErr result (self.new.counts.lost ≡ self.old.counts.lost) }
        ensures why { IfOk result (λ g. LosesFor self.old octets.now g) }
        ensures asked { self.new.counts.asked ≡ self.old.counts.asked }
        ensures ended { self.new.counts.ended ≡ self.old.counts.ended }
        ensures failed { OnErr result (self.old.counts.failures < self.new.counts.failures) }
        ensures counted { self.old.counts.failures ≤ self.new.counts.failures }
    {
        match Frame::copy(self.alloc, octets) {
            Ok(frame) => match self.ends.put(rt, frame) {
                Ok(()) => Ok(Given::Put),
                Err(_) => {
                    self.counts.count(Given::Lost);
                    Ok(Given::Lost)
                }
            },
            Err(FrameFault::NoMemory) => {
                self.counts.fail()?;
                self.counts.count(Given::Lost);
                Ok(Given::Lost)
            }
            Err(_) => {
                self.counts.count(Given::Lost);
                Ok(Given::Lost)
            }
        }
    }
}

impl Feed for Cable {
    ghost use Rattle.std.specs.Prelude.{true};
    ghost use Rattle.sr_lines.specs.Handed.{frames_of};
    ghost use Rattle.sr_lines.specs.CableTurns.{AnswersAsItsWire, TakesForItsWire};
    ghost use Rattle.sr_lines.specs.Names.{wires_of};
    ghost use Rattle.sr_lines.specs.Pairs.{WirePair};

    ghost Name = { WirePair };

    ghost name = { wires_of };

    ghost tells = { λ _. true };

    ghost handed = { λ c. frames_of c.ends.take.frames };

    ghost asked = { λ c. c.counts.asked };

    ghost given = { λ c. c.ends.send.frames };

    ghost losses = { λ c. c.counts.lost };

    ghost ended = { λ c. c.counts.ended };

    ghost failed = { λ c. c.counts.failures };

    ghost hands = { AnswersAsItsWire };

    ghost takes = { TakesForItsWire };

    fn next<W: Wait>(&mut self, rt: &W, into: &mut Vec<u8>) -> Result<Turn, FeedFault> {
        // Nobody comes there: it would take 2^64 turns.
        if !self.counts.goes_on() {
            return Ok(Turn::End);
        }
        into.clear();
        if into.reserve(MAX_FRAME_LEN).is_err() {
            self.counts.fail_or_end()?;
            return Ok(Turn::End);
        }
        self.counts.asked += 1;
        match self.ends.take_next(rt) {
            None => Ok(Turn::Idle),
            Some(frame) => {
                into.extend_from_slice(frame.octets()).unwrap();
                Ok(Turn::Frame(0))
            }
        }
    }

    fn give<W: Wait>(&mut self, rt: &W, octets: &[u8]) -> Result<Given, FeedFault> {
        self.send(rt, octets)
    }

    fn failures(&self) -> u64 {
        self.counts.failures
    }
}
