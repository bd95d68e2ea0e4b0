//! The hops round a ring.

ghost use Rattle.std.specs.Prelude.{◌≡◌, ◌<◌, None, IfSome, option_map};
ghost use Rattle.sr_laws_plant.specs.RingParts.{onward, backward};
ghost use Rattle.sr_laws_plant.specs.Rings.{beyond};
ghost use Rattle.sr_plant.specs.Flights.{hop_of};
ghost use Rattle.sr_plant.specs.Puts.{ring_hop_to, LeadsOnlyTo};

use crate::hop::Hop;
use sr_frame::Port;

// The next node of a ring.
fn next(node: usize, nodes: usize) -> usize
    requires { node < nodes }
    ensures next { result ≡ beyond nodes onward node }
    ensures inside { result < nodes }
{
    if node + 1 == nodes { 0 } else { node + 1 }
}

// The previous node of a ring.
fn previous(node: usize, nodes: usize) -> usize
    requires { node < nodes }
    ensures previous { result ≡ beyond nodes backward node }
    ensures inside { result < nodes }
{
    if node == 0 { nodes - 1 } else { node - 1 }
}

/// The one node to which a port of a ring of so many nodes leads. `None` for the host's port and an interlink.
pub(crate) fn ring_neighbour(nodes: usize, node: usize, port: Port) -> Option<usize>
    requires { node < nodes }
    ensures inside { IfSome result (λ m. m < nodes) }
    ensures only { IfSome result (λ m. LeadsOnlyTo (ring_hop_to nodes node port) m) }
    ensures interlink { port ≡ Port.C → result ≡ None }
{
    match port {
        Port::A => Some(previous(node, nodes)),
        Port::B => Some(next(node, nodes)),
        Port::H | Port::C => None,
    }
}

/// The hop round a ring of so many nodes, from a port of one to another, if it leads there.
pub(crate) fn ring_hop(nodes: usize, node: usize, port: Port, to: usize) -> Option<Hop>
    requires { node < nodes }
    ensures hop { option_map hop_of result ≡ ring_hop_to nodes node port to }
    ensures inside { IfSome result (λ h.
        (h.node < nodes) × (h.first < nodes) × (h.second ≡ None)) }
{
    match port {
        Port::A if to == previous(node, nodes) => Some(Hop {
            node: to,
            port: Port::B,
            first: to,
            second: None,
        }),
        Port::B if to == next(node, nodes) => Some(Hop {
            node: to,
            port: Port::A,
            first: node,
            second: None,
        }),
        _ => None,
    }
}
