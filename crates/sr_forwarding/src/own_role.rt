//! Roles that stand for their own address alone: they differ in where frames go, and in nothing else.

ghost use Rattle.std.specs.Prelude.{◌≡◌, true, ℕ};
ghost use Rattle.sr_forwarding.specs.RoleImages.{role_of};
ghost use Rattle.sr_forwarding.specs.Routes.{routes};

use crate::{Header, Outlets, Proxied, Role, RoleImage, RoleKind};
use sr_frame::{LearnOutcome, Mac, NoMemory, Port};
use std::alloc::Global;

/// Where the frames go of a role that stands for its own address alone.
pub trait Routing: Drop {
    ghost use Rattle.sr_forwarding.specs.declared.kind.RoleKind.{RoleKind as Kind};
    ghost use Rattle.sr_forwarding.specs.Kinds.{stands_alone};

    ghost routed: { Self → Kind };

    ghost alone: { (r : Self) → stands_alone (routed r) ≡ true };

    /// Which table it is.
    fn kind(&self) -> RoleKind
        ensures { result ≡ routed self.now };

    /// Where a frame from this inlet goes, at the node with this address, by the first line that fits of the table.
    fn outlets(&self, mac: Mac, header: &Header, inlet: Port) -> Outlets
        ensures { (now : ℕ)
            → result ≡ routes (role_of (routed self.now) mac) header.now inlet now };
}

/// A role that stands for its own address alone.
#[derive(Drop)]
pub struct OwnRole<R: Routing> {
    /// The node's address.
    pub mac: Mac,
    /// Where frames go.
    pub routing: R,
}

impl<R: Routing> OwnRole<R> {
    /// The role of the node with this address.
    pub fn of(mac: Mac, routing: R) -> OwnRole<R>
        ensures mac { result.mac ≡ mac }
        ensures routing { result.routing ≡ routing }
    {
        OwnRole { mac, routing }
    }
}

impl<R: Routing> Role for OwnRole<R> {
    ghost use Rattle.sr_forwarding.specs.RoleImages.{role_of};

    ghost meaning = { λ r. role_of (R.routed r.routing) r.mac };

    fn mac(&self) -> Mac {
        self.mac
    }

    fn kind(&self) -> RoleKind {
        self.routing.kind()
    }

    fn owns(&self, mac: Mac, _now: u64) -> bool {
        mac == self.mac
    }

    fn wants(&self, header: &Header, inlet: Port, _now: u64) -> Outlets {
        self.routing.outlets(self.mac, header, inlet)
    }

    fn learn(
        &mut self,
        _alloc: Global,
        _header: &Header,
        _inlet: Port,
        _now: u64,
    ) -> Result<LearnOutcome, NoMemory> {
        Ok(LearnOutcome::Known)
    }

    fn prune(&mut self, _now: u64) -> usize {
        0
    }

    fn image(&self, alloc: Global) -> Result<RoleImage, NoMemory> {
        Ok(RoleImage {
            kind: self.routing.kind(),
            mac: self.mac,
            proxied: Proxied::of(Vec::new(alloc)),
        })
    }
}
