//! The role of a RedBox between two rings.

ghost use Rattle.std.specs.Prelude.{◌≡◌};
ghost use Rattle.sr_forwarding.specs.RoleImages.{role_of};
ghost use Rattle.sr_redbox.specs.RingBoxes.{hsr_role_of};

use crate::ring_boxes::{Interlink, outlets};
use sr_forwarding::{
    Header, LearnOutcome, Outlets, OwnRole, Port, Role, RoleImage, RoleKind, Routing,
};
use sr_frame::{Mac, NoMemory};
use std::alloc::Global;

/// A RedBox whose interlink joins another one in another ring: half of a QuadBox (IEC 62439-3 clause 5). All that goes round
/// its ring goes on to the other.
#[derive(Drop)]
pub struct HsrBox {
    role: OwnRole<HsrRouting>,
}

impl HsrBox {
    /// The role of the node with this address.
    pub fn new(mac: Mac) -> HsrBox
        ensures { hsr_role_of result ≡ role_of RoleKind.Hsr mac }
    {
        HsrBox {
            role: OwnRole::of(mac, HsrRouting),
        }
    }
}

/// Where frames go at a RedBox between two rings.
#[derive(Clone, Copy, Debug, Drop)]
pub struct HsrRouting;

impl Routing for HsrRouting {
    ghost use Rattle.std.specs.Prelude.{refl};
    ghost use Rattle.sr_forwarding.specs.declared.kind.RoleKind.TheVariants as kind;

    ghost routed = { λ _. kind.Hsr };

    ghost alone = { λ _. refl };

    fn kind(&self) -> RoleKind {
        RoleKind::Hsr
    }

    fn outlets(&self, mac: Mac, header: &Header, inlet: Port) -> Outlets {
        outlets(mac, header, inlet, Interlink::Open)
    }
}

impl Role for HsrBox {
    ghost use Rattle.sr_redbox.specs.RingBoxes.{hsr_role_of};

    ghost meaning = { hsr_role_of };

    fn mac(&self) -> Mac {
        self.role.mac()
    }

    fn kind(&self) -> RoleKind {
        self.role.kind()
    }

    fn owns(&self, mac: Mac, now: u64) -> bool {
        self.role.owns(mac, now)
    }

    fn wants(&self, header: &Header, inlet: Port, now: u64) -> Outlets {
        self.role.wants(header, inlet, now)
    }

    fn learn(
        &mut self,
        alloc: Global,
        header: &Header,
        inlet: Port,
        now: u64,
    ) -> Result<LearnOutcome, NoMemory> {
        self.role.learn(alloc, header, inlet, now)
    }

    fn prune(&mut self, now: u64) -> usize {
        self.role.prune(now)
    }

    fn image(&self, alloc: Global) -> Result<RoleImage, NoMemory> {
        self.role.image(alloc)
    }
}
