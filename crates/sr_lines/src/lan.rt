//! The wires between a port and those of all other nodes of a LAN.

ghost use Rattle.std.specs.Prelude.{◌≡◌, ◌+◌, ◌<◌, ◌≤◌, ⊤, OnOk, OnErr, IfOk, MatchBool, MatchOption, true, false, [], length, get_or};
ghost use Rattle.sr_workers.specs.declared.feed.Turn.TheVariants.{Idle};
ghost use Rattle.sr_workers.specs.Told.{lost_after, told_of, turns_in, IsLastTurn};
ghost use Rattle.sr_wires.specs.Wired.{WasFull};
ghost use Rattle.sr_lines.specs.Losing.{MayLose};

use crate::Ends;
use crate::counts::Counts;
use sr_frame::{Frame, FrameFault, MAX_FRAME_LEN};
use sr_workers::{Feed, FeedFault, Given, Turn};
use std::alloc::Global;
use std::sync::Wait;

/// The wires to and from each other node of a LAN, which are read in turn.
#[derive(Drop)]
pub struct Lan {
    /// Their ends.
    pub ends: Vec<Ends>,
    turn: usize,
    counts: Counts,
    alloc: Global,
}

impl Lan {
    ghost use Rattle.sr_lines.specs.Handed.{asked_in, lost_in, failed_in};
    ghost use Rattle.sr_lines.specs.Names.{wires_in};
    ghost use Rattle.sr_lines.specs.Spreading.{sent_by_lan, taken_by_lan, seen_taken_of_lan, seen_sent_to_lan, grown_at, SpreadsTo, SpreadsToSome, TookBetween, TookOne, HandsOutOf, WereEmpty, is_put};

    /// These ends, of which nothing was asked and nothing was lost.
    pub fn new(alloc: Global, ends: Vec<Ends>) -> Lan
        ensures ends { result.ends ≡ ends }
        ensures unasked { asked_in result ≡ 0 }
        ensures none { lost_in result ≡ 0 }
        ensures unfailed { failed_in result ≡ 0 }
    {
        Lan {
            ends,
            turn: 0,
            counts: Counts::NONE,
            alloc,
        }
    }

    /// How many frames were lost that it was given, on one wire at least, up to the greatest number.
    pub fn lost(&self) -> u64
        ensures { result ≡ lost_in self.now }
    {
        self.counts.lost
    }

    // The next frame of those that wait at one of them.
    fn take_at<W: Wait>(&mut self, rt: &W, at: usize) -> Option<Frame>
        ensures taken { MatchOption result
            ((taken_by_lan self.new ≡ taken_by_lan self.old)
            × WereEmpty (λ i. i ≡ at) (taken_by_lan self.old) (seen_sent_to_lan self.old))
            (λ f. (at < length (taken_by_lan self.old))
            × (taken_by_lan self.new ≡ grown_at at f (taken_by_lan self.old))) }
        ensures seen { seen_sent_to_lan self.new ≡ seen_sent_to_lan self.old }
        ensures sent { sent_by_lan self.new ≡ sent_by_lan self.old }
        ensures turn { self.new.turn ≡ self.old.turn }
        ensures counts { self.new.counts ≡ self.old.counts }
        ensures wires { wires_in self.new ≡ wires_in self.old }
    {
        match self.ends.get_mut(at) {
            Some(wire) => wire.take_next(rt),
            None => None,
        }
    }

    // The next frame of those that wait at one of them from one place up to another. The turn is then the next one's.
    fn take_between<W: Wait>(&mut self, rt: &W, from: usize, to: usize) -> Option<Frame>
        ensures taken { MatchOption result
            ((taken_by_lan self.new ≡ taken_by_lan self.old)
            × WereEmpty (λ i. (from ≤ i) × (i < to)) (taken_by_lan self.old)
            (seen_sent_to_lan self.old))
            (λ f. TookBetween from to f (taken_by_lan self.old)
            (seen_sent_to_lan self.old) (taken_by_lan self.new) self.new.turn) }
        ensures seen { seen_sent_to_lan self.new ≡ seen_sent_to_lan self.old }
        ensures sent { sent_by_lan self.new ≡ sent_by_lan self.old }
        ensures counts { self.new.counts ≡ self.old.counts }
        ensures wires { wires_in self.new ≡ wires_in self.old }
    {
        for at in from..to {
            if let Some(frame) = self.take_at(rt, at) {
                self.turn = at + 1;
                return Some(frame);
            }
        }
        None
    }

    // The next frame of those that wait, from the wire whose turn it is on, each once round.
    fn take_any<W: Wait>(&mut self, rt: &W) -> Option<Frame>
        ensures taken { MatchOption result
            ((taken_by_lan self.new ≡ taken_by_lan self.old)
            × WereEmpty (λ i. ⊤) (taken_by_lan self.old) (seen_sent_to_lan self.old))
            (λ f. TookOne f self.old.turn (taken_by_lan self.old) (seen_sent_to_lan self.old)
            (taken_by_lan self.new) self.new.turn) }
        ensures sent { sent_by_lan self.new ≡ sent_by_lan self.old }
        ensures counts { self.new.counts ≡ self.old.counts }
        ensures wires { wires_in self.new ≡ wires_in self.old }
    {
        let first = self.turn;
        let count = self.ends.len();
        match self.take_between(rt, first, count) {
            Some(frame) => Some(frame),
            None => self.take_between(rt, 0, first),
        }
    }

    // Sends a frame to one of them. False where its wire is full.
    fn put_at<W: Wait>(&mut self, rt: &W, at: usize, frame: Frame) -> bool
        ensures sent { MatchBool result
            (sent_by_lan self.new ≡ grown_at at frame (sent_by_lan self.old))
            (sent_by_lan self.new ≡ sent_by_lan self.old) }
        ensures full { result ≡ false → at < length (sent_by_lan self.old)
            → WasFull (get_or (sent_by_lan self.old) at [])
            (get_or (seen_taken_of_lan self.old) at []) }
        ensures seen { seen_taken_of_lan self.new ≡ seen_taken_of_lan self.old }
        ensures taken { taken_by_lan self.new ≡ taken_by_lan self.old }
        ensures counts { self.new.counts ≡ self.old.counts }
        ensures wires { wires_in self.new ≡ wires_in self.old }
    {
        match self.ends.get_mut(at) {
            Some(wire) => wire.put(rt, frame).is_ok(),
            None => false,
        }
    }

    // Sends a copy to one of them. False where its wire is full.
    fn give_one<W: Wait>(&mut self, rt: &W, at: usize, octets: &[u8]) -> Result<bool, FeedFault>
        ensures sent { IfOk result (λ put. MatchBool put
            (sent_by_lan self.new ≡ grown_at at octets.now (sent_by_lan self.old))
            (sent_by_lan self.new ≡ sent_by_lan self.old)) }
        ensures why { IfOk result (λ put. put ≡ false → at < length (sent_by_lan self.old)
            → MayLose (get_or (sent_by_lan self.old) at [])
            (get_or (seen_taken_of_lan self.old) at []) octets.now self.old.counts.failures) }
        ensures seen { seen_taken_of_lan self.new ≡ seen_taken_of_lan self.old }
        ensures unsent { OnErr result (sent_by_lan self.new ≡ sent_by_lan self.old) }
        ensures taken { taken_by_lan self.new ≡ taken_by_lan self.old }
        ensures wires { wires_in self.new ≡ wires_in self.old }
        ensures lost { self.new.counts.lost ≡ self.old.counts.lost }
        ensures ended { self.new.counts.ended ≡ self.old.counts.ended }
        ensures ok { OnOk result (self.new.counts.failures ≡ self.old.counts.failures) }
        ensures err { OnErr result (self.new.counts.failures ≡ self.old.counts.failures + 1) }
    {
        match Frame::copy(self.alloc, octets) {
            Ok(frame) => Ok(self.put_at(rt, at, frame)),
            Err(FrameFault::NoMemory) => {
                self.counts.fail()?;
                Ok(false)
            }
            Err(_) => Ok(false),
        }
    }

    // Sends a copy to each of them. False where the wire of one is full.
    fn give_all<W: Wait>(&mut self, rt: &W, octets: &[u8]) -> Result<bool, FeedFault>
        ensures sent { IfOk result (λ all. SpreadsTo octets.now self.old.counts.failures
            (sent_by_lan self.old) (seen_taken_of_lan self.old) (sent_by_lan self.new) all) }
        ensures some { OnErr result (SpreadsToSome octets.now (sent_by_lan self.old)
            (sent_by_lan self.new)) }
        ensures taken { taken_by_lan self.new ≡ taken_by_lan self.old }
        ensures wires { wires_in self.new ≡ wires_in self.old }
        ensures lost { self.new.counts.lost ≡ self.old.counts.lost }
        ensures ended { self.new.counts.ended ≡ self.old.counts.ended }
        ensures err { OnErr result (self.old.counts.failures < self.new.counts.failures) }
        ensures counted { self.old.counts.failures ≤ self.new.counts.failures }
    {
        let mut all = true;
        for at in 0..self.ends.len() {
            match self.give_one(rt, at, octets) {
                Ok(put) => all = all && put,
                Err(fault) => return Err(fault),
            }
        }
        Ok(all)
    }

    // Sends a frame to all. One that is lost on one wire at least is counted.
    fn send<W: Wait>(&mut self, rt: &W, octets: &[u8]) -> Result<Given, FeedFault>
        ensures sent { IfOk result (λ g. SpreadsTo octets.now self.old.counts.failures
            (sent_by_lan self.old) (seen_taken_of_lan self.old) (sent_by_lan self.new)
            (is_put g)) }
        ensures some { OnErr result (SpreadsToSome octets.now (sent_by_lan self.old)
            (sent_by_lan self.new)) }
        ensures taken { taken_by_lan self.new ≡ taken_by_lan self.old }
        ensures wires { wires_in self.new ≡ wires_in self.old }
        ensures lost { IfOk result (λ g. self.new.counts.lost
            ≡ lost_after self.old.counts.lost g) }
        ensures kept { OnErr result (self.new.counts.lost ≡ self.old.counts.lost) }
        ensures ended { self.new.counts.ended ≡ self.old.counts.ended }
        ensures failed { OnErr result (self.old.counts.failures < self.new.counts.failures) }
        ensures counted { self.old.counts.failures ≤ self.new.counts.failures }
    {
        match self.give_all(rt, octets) {
            Ok(true) => Ok(Given::Put),
            Ok(false) => {
                self.counts.count(Given::Lost);
                Ok(Given::Lost)
            }
            Err(fault) => Err(fault),
        }
    }

    // What comes next.
    fn read<W: Wait>(&mut self, rt: &W, into: &mut Vec<u8>) -> Result<Turn, FeedFault>
        ensures handed { IfOk result (λ t. HandsOutOf self.old.turn (taken_by_lan self.old)
            (seen_sent_to_lan self.old) (taken_by_lan self.new) self.new.turn
            (told_of t into.new.items)) }
        ensures looked { IfOk result (λ t. t ≡ Idle
            → WereEmpty (λ i. ⊤) (taken_by_lan self.old) (seen_sent_to_lan self.old)) }
        ensures unhanded { OnErr result (taken_by_lan self.new ≡ taken_by_lan self.old) }
        ensures asked { IfOk result (λ t. self.new.counts.asked
            ≡ self.old.counts.asked + turns_in t) }
        ensures unasked { OnErr result (self.new.counts.asked ≡ self.old.counts.asked) }
        ensures sent { sent_by_lan self.new ≡ sent_by_lan self.old }
        ensures wires { wires_in self.new ≡ wires_in self.old }
        ensures lost { self.new.counts.lost ≡ self.old.counts.lost }
        ensures ended { IfOk result (λ t. IsLastTurn t → self.new.counts.ended ≡ true) }
        ensures failed { OnErr result (self.old.counts.failures < self.new.counts.failures) }
        ensures counted { self.old.counts.failures ≤ self.new.counts.failures }
    {
        // Nobody comes there: it would take 2^64 turns.
        if !self.counts.goes_on() {
            return Ok(Turn::End);
        }
        into.clear();
        if into.reserve(MAX_FRAME_LEN).is_err() {
            self.counts.fail_or_end()?;
            return Ok(Turn::End);
        }
        self.counts.asked += 1;
        match self.take_any(rt) {
            None => Ok(Turn::Idle),
            Some(frame) => {
                into.extend_from_slice(frame.octets()).unwrap();
                Ok(Turn::Frame(0))
            }
        }
    }
}

impl Feed for Lan {
    ghost use Rattle.std.specs.Prelude.{false, List, []};
    ghost use Rattle.sr_lines.specs.LanTurns.{AnswersTurn, SendsToAll};
    ghost use Rattle.sr_lines.specs.Names.{wires_in};
    ghost use Rattle.sr_lines.specs.Pairs.{WirePair};

    ghost Name = { List WirePair };

    ghost name = { wires_in };

    ghost tells = { λ _. false };

    ghost handed = { λ _. [] };

    ghost asked = { λ _. 0 };

    ghost given = { λ _. [] };

    ghost losses = { λ c. c.counts.lost };

    ghost ended = { λ c. c.counts.ended };

    ghost failed = { λ c. c.counts.failures };

    ghost hands = { AnswersTurn };

    ghost takes = { SendsToAll };

    fn next<W: Wait>(&mut self, rt: &W, into: &mut Vec<u8>) -> Result<Turn, FeedFault> {
        self.read(rt, into)
    }

    fn give<W: Wait>(&mut self, rt: &W, octets: &[u8]) -> Result<Given, FeedFault> {
        self.send(rt, octets)
    }

    fn failures(&self) -> u64 {
        self.counts.failures
    }
}
