//! By what findings are told: names of nodes, words of the network, and where frames were lost.

ghost use Rattle.std.specs.Prelude.{◌≡◌};
ghost use Rattle.sr_audit_page.specs.Networks.{topology_of};

use sr_audit::Side;
use sr_audit_charts::{Astray, Losses, Packets, Stretch, Traced};
use sr_capture_audit::{Network, Ports};
use sr_frame::Mac;
use sr_page::{NodeName, Seconds, Topology, Way, put, put_node, put_packets};
use sr_sequence::Seq;
use std::io::{self, Write};

/// By what findings are told.
#[derive(Clone, Copy)]
pub(crate) struct Teller<'a> {
    /// Names of nodes.
    pub names: &'a [NodeName],
    /// What the two ways of a frame are called.
    pub topology: Topology,
    /// Where the captures were made.
    pub ports: Ports,
    /// What is traced of the worst sources.
    pub traced: &'a [Traced],
}

/// What the two ways of a frame are called in a network.
pub fn topology_of(network: Network) -> Topology
    ensures { result ≡ topology_of network }
{
    match network {
        Network::Prp => Topology::Lans,
        Network::Hsr => Topology::Ring,
    }
}

/// The way of a side.
pub(crate) fn way_of(side: Side) -> Way {
    match side {
        Side::A => Way::A,
        Side::B => Way::B,
    }
}

/// Writes the numbers of some frames.
pub(crate) fn put_numbers<W: Write>(writer: &mut W, first: Seq, last: Seq) -> io::Result<()> {
    let (own, next) = (first.0, last.0);
    if own == next {
        write!(writer, "number {own}")
    } else {
        write!(writer, "numbers {own} to {next}")
    }
}

/// Frames that a finding tells of: since when, and by which packets they are seen.
#[derive(Clone, Copy)]
struct Trace {
    since: u64,
    packets: Packets,
}

/// The earlier of the first of two lists of stretches.
pub(crate) fn first_of(losses: &Losses) -> Option<Stretch> {
    match (losses.rows.first(), losses.others.first()) {
        (Some(row), Some(other)) if other.since < row.since => Some(*other),
        (Some(row), _) => Some(*row),
        (None, Some(other)) => Some(*other),
        (None, None) => None,
    }
}

/// The first frames that a source lost on a LAN, by the copies of the other one.
fn trace_of_lost(losses: &Losses) -> Option<Trace> {
    let first = first_of(losses)?;
    Some(Trace {
        since: first.since,
        packets: first.packets?,
    })
}

/// Copies with the other LAN's id.
fn trace_of_astray(astray: Option<Astray>) -> Option<Trace> {
    let own = astray?;
    Some(Trace {
        since: own.since,
        packets: Packets {
            first: own.first,
            last: own.last,
        },
    })
}

impl<'a> Teller<'a> {
    /// What is traced of a source.
    pub(crate) fn traced_of(self, mac: Mac) -> Option<&'a Traced> {
        for traced in self.traced {
            if traced.mac == mac {
                return Some(traced);
            }
        }
        None
    }

    /// The name of a LAN or of a way of the ring, or of a mirror port.
    pub(crate) fn lan_of(self, lan: Option<Side>) -> &'static str {
        match lan {
            Some(side) => self.topology.name_of(way_of(side)),
            None => "the mirror port",
        }
    }

    /// The name of the capture that has the copies of a side.
    pub(crate) fn capture_of(self, side: Side) -> &'static str {
        match (self.ports, side) {
            (Ports::Mirror, _) => "of the mirror port",
            (Ports::Two, Side::A) => "A",
            (Ports::Two, Side::B) => "B",
        }
    }

    /// Writes since when something is seen of a source, and in which packets of a capture.
    fn put_trace<W: Write>(
        self,
        writer: &mut W,
        mac: Mac,
        capture: Side,
        trace: Trace,
    ) -> io::Result<()> {
        let since = Seconds(trace.since);
        put(writer, "<p class=\"where\">")?;
        put_node(writer, self.names, mac)?;
        write!(writer, ", first at {since}: ")?;
        let Packets { first, last } = trace.packets;
        put_packets(writer, self.capture_of(capture), mac, first, last)?;
        put(writer, "</p>")
    }

    /// Writes where a source first lost frames on a LAN, if that is known.
    pub(crate) fn put_lost<W: Write>(
        self,
        writer: &mut W,
        lan: Side,
        mac: Option<Mac>,
    ) -> io::Result<()> {
        let Some(mac) = mac else {
            return Ok(());
        };
        let Some(traced) = self.traced_of(mac) else {
            return Ok(());
        };
        let losses = match lan {
            Side::A => &traced.a,
            Side::B => &traced.b,
        };
        match trace_of_lost(losses) {
            Some(trace) => self.put_trace(writer, mac, lan.other(), trace),
            None => Ok(()),
        }
    }

    /// Writes where copies of a source by a LAN first had the other one's id, if that is known.
    pub(crate) fn put_astray<W: Write>(
        self,
        writer: &mut W,
        lan: Side,
        mac: Option<Mac>,
    ) -> io::Result<()> {
        let Some(mac) = mac else {
            return Ok(());
        };
        let Some(traced) = self.traced_of(mac) else {
            return Ok(());
        };
        let astray = match lan {
            Side::A => traced.astray_a,
            Side::B => traced.astray_b,
        };
        match trace_of_astray(astray) {
            Some(trace) => self.put_trace(writer, mac, lan, trace),
            None => Ok(()),
        }
    }
}
