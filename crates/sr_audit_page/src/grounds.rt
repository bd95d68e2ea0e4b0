//! What the verdict of a page stands on: how many of what are wrong.

ghost use Rattle.std.specs.Prelude.{◌≡◌};
ghost use Rattle.sr_audit_page.specs.Grounds.{on_sources, on_lans, grounds_with, grounds_of};
ghost use Rattle.sr_audit_page.specs.Sums.{together};

use crate::sums::together;
use sr_audit::Side;
use sr_page::{Topology, write_reason};
use sr_verdict::Verdict;
use std::io::{self, Write};

/// How many of what are wrong. A count stays at 2^64 - 1.
#[derive(Clone, Copy, Debug, PartialEq, Eq)]
pub struct Grounds {
    /// Frames that no LAN brought.
    pub both_lost: u64,
    /// Sources whose numbers are those of two senders.
    pub two_senders: u64,
    /// Frames of sources beside a cut of a ring.
    pub cut_ring: u64,
    /// Sources that one LAN does not bring any more.
    pub dead_ports: u64,
    /// Copies with the other LAN's id, by both LANs.
    pub crossed: u64,
    /// Sources that have lost their redundancy.
    pub lost_redundancy: u64,
    /// Frames that LAN A lost, besides those of sources that it does not bring any more.
    pub lost_a: u64,
    /// Frames that LAN B lost.
    pub lost_b: u64,
    /// Copies with the other LAN's id, by one LAN.
    pub wrong_lan: u64,
    /// Frames whose trailer is none.
    pub misfit: u64,
    /// Copies that came before.
    pub repeated: u64,
    /// Pairs 400 ms or more apart.
    pub late: u64,
    /// Sources whose copies came further apart than the user allows.
    pub skew: u64,
}

/// Nothing is wrong.
const NONE: Grounds = Grounds {
    both_lost: 0,
    two_senders: 0,
    cut_ring: 0,
    dead_ports: 0,
    crossed: 0,
    lost_redundancy: 0,
    lost_a: 0,
    lost_b: 0,
    wrong_lan: 0,
    misfit: 0,
    repeated: 0,
    late: 0,
    skew: 0,
};

/// What is wrong, with what a verdict says of a source more.
fn on_sources(own: Grounds, verdict: &Verdict) -> Grounds
    ensures { result ≡ on_sources own verdict.now }
{
    match *verdict {
        Verdict::BothLost(_, count) => Grounds {
            both_lost: together(own.both_lost, count),
            ..own
        },
        Verdict::TwoSenders(_, _) => Grounds {
            two_senders: together(own.two_senders, 1),
            ..own
        },
        Verdict::DeadPort(_, _) => Grounds {
            dead_ports: together(own.dead_ports, 1),
            ..own
        },
        Verdict::LostRedundancy(_, _, _) => Grounds {
            lost_redundancy: together(own.lost_redundancy, 1),
            ..own
        },
        Verdict::Repeated(_, sides) => Grounds {
            repeated: together(own.repeated, together(sides.a, sides.b)),
            ..own
        },
        Verdict::Late(_, count) => Grounds {
            late: together(own.late, count),
            ..own
        },
        Verdict::Skew(_, _, _) => Grounds {
            skew: together(own.skew, 1),
            ..own
        },
        _ => own,
    }
}

/// What is wrong, with what a verdict says of a LAN or the network more.
fn on_lans(own: Grounds, verdict: &Verdict) -> Grounds
    ensures { result ≡ on_lans own verdict.now }
{
    match *verdict {
        Verdict::CutRing(cut, _) => Grounds {
            cut_ring: together(own.cut_ring, cut.frames),
            ..own
        },
        Verdict::Crossed(sides, _) => Grounds {
            crossed: together(own.crossed, together(sides.a, sides.b)),
            ..own
        },
        Verdict::Loss(Side::A, share, _) => Grounds {
            lost_a: together(own.lost_a, share.frames),
            ..own
        },
        Verdict::Loss(Side::B, share, _) => Grounds {
            lost_b: together(own.lost_b, share.frames),
            ..own
        },
        Verdict::WrongLan(_, count, _) => Grounds {
            wrong_lan: together(own.wrong_lan, count),
            ..own
        },
        Verdict::Misfit(_, count) => Grounds {
            misfit: together(own.misfit, count),
            ..own
        },
        _ => own,
    }
}

/// What is wrong, with what a verdict says more.
fn grounds_with(own: Grounds, verdict: &Verdict) -> Grounds
    ensures { result ≡ grounds_with own verdict.now }
{
    on_lans(on_sources(own, verdict), verdict)
}

/// What the verdicts say is wrong.
pub fn grounds_of(verdicts: &[Verdict]) -> Grounds
    ensures { result ≡ grounds_of verdicts.now }
{
    let mut own = NONE;
    for verdict in verdicts {
        own = grounds_with(own, verdict);
    }
    own
}

/// Writes what is wrong with sources.
fn write_of_sources<W: Write>(writer: &mut W, topology: Topology, own: &Grounds) -> io::Result<()> {
    write_reason(
        writer,
        own.both_lost,
        topology.either(
            "frame was delivered by neither LAN",
            "frame was delivered by neither way",
        ),
        topology.either(
            "frames were delivered by neither LAN",
            "frames were delivered by neither way",
        ),
    )?;
    write_reason(
        writer,
        own.two_senders,
        "address has two senders",
        "addresses have two senders each",
    )?;
    write_reason(
        writer,
        own.dead_ports,
        topology.either(
            "source is heard by one LAN alone at last",
            "source is heard by one way alone at last",
        ),
        topology.either(
            "sources are heard by one LAN alone at last",
            "sources are heard by one way alone at last",
        ),
    )?;
    write_reason(
        writer,
        own.lost_redundancy,
        "source had numbers, and has frames without since",
        "sources had numbers, and have frames without since",
    )
}

/// Writes what was lost.
fn write_of_losses<W: Write>(writer: &mut W, topology: Topology, own: &Grounds) -> io::Result<()> {
    write_reason(
        writer,
        own.cut_ring,
        "frame came by one way of the ring alone: the ring is cut",
        "frames came by one way of the ring alone: the ring is cut",
    )?;
    write_reason(
        writer,
        own.lost_a,
        topology.either(
            "frame was lost on LAN A, and came by LAN B",
            "frame was lost on way A, and came by way B",
        ),
        topology.either(
            "frames were lost on LAN A, and came by LAN B",
            "frames were lost on way A, and came by way B",
        ),
    )?;
    write_reason(
        writer,
        own.lost_b,
        topology.either(
            "frame was lost on LAN B, and came by LAN A",
            "frame was lost on way B, and came by way A",
        ),
        topology.either(
            "frames were lost on LAN B, and came by LAN A",
            "frames were lost on way B, and came by way A",
        ),
    )
}

/// Writes what is wrong with copies that came.
fn write_of_copies<W: Write>(writer: &mut W, topology: Topology, own: &Grounds) -> io::Result<()> {
    let wrong_lan = own.wrong_lan.saturating_add(own.crossed);
    write_reason(
        writer,
        wrong_lan,
        "copy has the id of the other LAN",
        "copies have the id of the other LAN",
    )?;
    write_reason(
        writer,
        own.misfit,
        "frame ends as one with a trailer, which is none",
        "frames end as those with a trailer, which is none",
    )?;
    write_reason(
        writer,
        own.repeated,
        topology.either(
            "copy came again by the LAN by which it had come",
            "copy came again by the way by which it had come",
        ),
        topology.either(
            "copies came again by the LAN by which they had come",
            "copies came again by the way by which they had come",
        ),
    )?;
    write_reason(
        writer,
        own.late,
        "pair of copies came 400 ms or more apart",
        "pairs of copies came 400 ms or more apart",
    )?;
    write_reason(
        writer,
        own.skew,
        "source has copies further apart than its limit",
        "sources have copies further apart than their limit",
    )
}

/// Writes what the verdict stands on.
pub(crate) fn write_grounds<W: Write>(
    writer: &mut W,
    topology: Topology,
    verdicts: &[Verdict],
) -> io::Result<()> {
    let own = grounds_of(verdicts);
    write_of_sources(writer, topology, &own)?;
    write_of_losses(writer, topology, &own)?;
    write_of_copies(writer, topology, &own)
}
