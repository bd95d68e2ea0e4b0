//! The role of a doubly attached node of an HSR ring.

ghost use Rattle.std.specs.Prelude.{◌≡◌};
ghost use Rattle.sr_forwarding.specs.RoleImages.{role_of};
ghost use Rattle.sr_forwarding.specs.Routes.{danh_from_ring};

use crate::{Header, Outlets, OwnRole, RoleKind, Routing};
use bitflags::Flags;
use sr_frame::{Mac, Port};

/// A doubly attached node of an HSR ring: frames go round both ways (IEC 62439-3 clause 5).
pub type Danh = OwnRole<DanhRouting>;

/// Where frames go at a doubly attached node of an HSR ring.
#[derive(Clone, Copy, Debug, Drop)]
pub struct DanhRouting;

impl OwnRole<DanhRouting> {
    /// The role of the node with this address.
    pub fn new(mac: Mac) -> Danh
        ensures { result.mac ≡ mac }
    {
        OwnRole::of(mac, DanhRouting)
    }
}

// Where a frame of the ring goes.
fn from_ring(mac: Mac, header: &Header, inlet: Port) -> Outlets
    ensures { result ≡ danh_from_ring (role_of RoleKind.Danh mac) header.now inlet }
{
    let ring = Outlets::other_ring_port(inlet);
    if header.src == mac {
        Outlets::none()
    } else if header.supervision {
        ring
    } else if header.dst == mac {
        Outlets::H
    } else if header.dst.is_group() {
        Outlets::H.union(ring)
    } else {
        ring
    }
}

impl Routing for DanhRouting {
    ghost use Rattle.std.specs.Prelude.{refl};
    ghost use Rattle.sr_forwarding.specs.declared.kind.RoleKind.TheVariants as kind;

    ghost routed = { λ _. kind.Danh };

    ghost alone = { λ _. refl };

    fn kind(&self) -> RoleKind {
        RoleKind::Danh
    }

    fn outlets(&self, mac: Mac, header: &Header, inlet: Port) -> Outlets {
        match inlet {
            Port::H => Outlets::A.union(Outlets::B),
            Port::A | Port::B => from_ring(mac, header, inlet),
            Port::C => Outlets::none(),
        }
    }
}
