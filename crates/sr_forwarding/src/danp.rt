//! The role of a doubly attached node of a PRP network.

ghost use Rattle.std.specs.Prelude.{◌≡◌};
ghost use Rattle.sr_forwarding.specs.RoleImages.{role_of};
ghost use Rattle.sr_forwarding.specs.Routes.{danp_from_lan};

use crate::{Header, Outlets, OwnRole, RoleKind, Routing};
use bitflags::Flags;
use sr_frame::{Mac, Port};

/// A doubly attached node of a PRP network: both LANs bring the host's frames (IEC 62439-3 clause 4).
pub type Danp = OwnRole<DanpRouting>;

/// Where frames go at a doubly attached node of a PRP network.
#[derive(Clone, Copy, Debug, Drop)]
pub struct DanpRouting;

impl OwnRole<DanpRouting> {
    /// The role of the node with this address.
    pub fn new(mac: Mac) -> Danp
        ensures { result.mac ≡ mac }
    {
        OwnRole::of(mac, DanpRouting)
    }
}

// Where a frame of a LAN goes.
fn from_lan(mac: Mac, header: &Header) -> Outlets
    ensures { result ≡ danp_from_lan (role_of RoleKind.Danp mac) header.now }
{
    if header.supervision {
        Outlets::none()
    } else if header.dst == mac || header.dst.is_group() {
        Outlets::H
    } else {
        Outlets::none()
    }
}

impl Routing for DanpRouting {
    ghost use Rattle.std.specs.Prelude.{refl};
    ghost use Rattle.sr_forwarding.specs.declared.kind.RoleKind.TheVariants as kind;

    ghost routed = { λ _. kind.Danp };

    ghost alone = { λ _. refl };

    fn kind(&self) -> RoleKind {
        RoleKind::Danp
    }

    fn outlets(&self, mac: Mac, header: &Header, inlet: Port) -> Outlets {
        match inlet {
            Port::H => Outlets::A.union(Outlets::B),
            Port::A | Port::B => from_lan(mac, header),
            Port::C => Outlets::none(),
        }
    }
}
