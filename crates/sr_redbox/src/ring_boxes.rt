//! What the RedBoxes share whose interlink is a LAN of a PRP network, or another ring.

ghost use Rattle.std.specs.Prelude.{◌≡◌, ◌++◌};
ghost use Rattle.sr_forwarding.specs.Outlets.{ring, to};
ghost use Rattle.sr_forwarding.specs.RoleImages.{role_of};
ghost use Rattle.sr_forwarding.specs.Routes.{box_from_interlink, box_from_ring, box_routes};
ghost use Rattle.sr_redbox.specs.Interlinks.{ports_of};

use bitflags::Flags;
use sr_forwarding::{Header, Outlets, Port, RoleKind};
use sr_frame::Mac;

/// Whether a frame of the ring goes on to the interlink.
#[derive(Clone, Copy, Debug, PartialEq, Eq)]
pub enum Interlink {
    Open,
    Closed,
}

// The other ring port than the inlet, and the interlink where it is open.
fn onward(inlet: Port, interlink: Interlink) -> Outlets
    ensures { result ≡ to (ring inlet ++ ports_of interlink) }
{
    let ring = Outlets::other_ring_port(inlet);
    match interlink {
        Interlink::Open => ring.union(Outlets::C),
        Interlink::Closed => ring,
    }
}

// Where a frame of the ring goes.
fn from_ring(mac: Mac, header: &Header, inlet: Port, interlink: Interlink) -> Outlets
    ensures { result
        ≡ box_from_ring (role_of RoleKind.Hsr mac) header.now inlet (ports_of interlink) }
{
    let onward = onward(inlet, interlink);
    if header.src == mac {
        Outlets::none()
    } else if header.dst == mac {
        Outlets::H
    } else if header.supervision {
        onward
    } else if header.dst.is_group() {
        Outlets::H.union(onward)
    } else {
        onward
    }
}

// Where a frame from the interlink goes.
fn from_interlink(mac: Mac, header: &Header) -> Outlets
    ensures { result ≡ box_from_interlink (role_of RoleKind.Hsr mac) header.now }
{
    let ring = Outlets::A.union(Outlets::B);
    if header.src == mac {
        Outlets::none()
    } else if header.dst == mac {
        Outlets::H
    } else if header.supervision {
        ring
    } else if header.dst.is_group() {
        Outlets::H.union(ring)
    } else {
        ring
    }
}

/// Where a frame goes at the node with this address.
pub fn outlets(mac: Mac, header: &Header, inlet: Port, interlink: Interlink) -> Outlets
    ensures { result ≡ box_routes (role_of RoleKind.Hsr mac) header.now inlet (ports_of interlink) }
{
    match inlet {
        Port::H => Outlets::A.union(Outlets::B).union(Outlets::C),
        Port::A | Port::B => from_ring(mac, header, inlet, interlink),
        Port::C => from_interlink(mac, header),
    }
}
