//! The feed of a worker: the host's, or the wires to a neighbour, or those to all other nodes.

ghost use Rattle.std.specs.Prelude.{◌≡◌};

use crate::{Cable, Lan};
use sr_workers::{Feed, FeedFault, Given, Turn};
use std::sync::Wait;

/// What a worker of a threaded network is fed by.
#[derive(Drop)]
pub enum Line<F: Feed> {
    /// The host's feed.
    Host(F),
    /// The wires to and from the neighbour in a ring.
    Ring(Cable),
    /// The wires to and from each other node of a LAN.
    Lan(Lan),
}

impl<F: Feed> Line<F> {
    ghost use Rattle.sr_lines.specs.Handed.{lost_of};

    /// How many frames were lost that it was given, up to the greatest number; of a host's feed none are counted.
    pub fn lost(&self) -> u64
        ensures { result ≡ lost_of self.now }
    {
        match self {
            Line::Host(_) => 0,
            Line::Ring(cable) => cable.lost(),
            Line::Lan(lan) => lan.lost(),
        }
    }
}

impl<F: Feed> Feed for Line<F> {
    ghost use Rattle.sr_lines.specs.Handed.{tells_of, handed_of, asked_of, given_of, losses_of, ended_of, failed_of};
    ghost use Rattle.sr_lines.specs.LanTurns.{LineAnswers, LineTakes};
    ghost use Rattle.sr_lines.specs.Names.{LineName, line_name};

    ghost Name = { LineName F.Name };

    ghost name = { line_name F.name };

    ghost tells = { tells_of F.tells };

    ghost handed = { handed_of F.handed };

    ghost asked = { asked_of F.asked };

    ghost given = { given_of F.given };

    ghost losses = { losses_of F.losses };

    ghost ended = { ended_of F.ended };

    ghost failed = { failed_of F.failed };

    ghost hands = { LineAnswers F.hands };

    ghost takes = { LineTakes F.takes };

    fn next<W: Wait>(&mut self, rt: &W, into: &mut Vec<u8>) -> Result<Turn, FeedFault> {
        match self {
            Line::Host(feed) => feed.next(rt, into),
            Line::Ring(cable) => cable.next(rt, into),
            Line::Lan(lan) => lan.next(rt, into),
        }
    }

    fn give<W: Wait>(&mut self, rt: &W, octets: &[u8]) -> Result<Given, FeedFault> {
        match self {
            Line::Host(feed) => feed.give(rt, octets),
            Line::Ring(cable) => cable.give(rt, octets),
            Line::Lan(lan) => lan.give(rt, octets),
        }
    }

    fn failures(&self) -> u64 {
        match self {
            Line::Host(feed) => feed.failures(),
            Line::Ring(cable) => cable.failures(),
            Line::Lan(lan) => lan.failures(),
        }
    }
}
