//! The role of a RedBox between a ring and one LAN of a PRP network.

ghost use Rattle.std.specs.Prelude.{◌≡◌, ◌<◌, ◌≤◌};
ghost use Rattle.sr_forwarding.specs.Limits.{greatest_net};
ghost use Rattle.sr_forwarding.specs.NetIds.{net_of, number_of};
ghost use Rattle.sr_forwarding.specs.RoleImages.{role_of};
ghost use Rattle.sr_forwarding.specs.Routes.{interlink_unless_from};
ghost use Rattle.sr_redbox.specs.Interlinks.{ports_of};
ghost use Rattle.sr_redbox.specs.RingBoxes.{prp_role_of};

use crate::ring_boxes::{Interlink, outlets};
use sr_forwarding::{
    Header, LearnOutcome, NetId, Outlets, OwnRole, Port, Role, RoleImage, RoleKind, Routing,
};
use sr_frame::{Mac, NoMemory};
use sr_prp_trailer::Lan;
use std::alloc::Global;

/// A RedBox whose interlink is one LAN of a PRP network. What came into the ring from the network does not go back into it
/// (IEC 62439-3 clause 5).
#[derive(Drop)]
pub struct PrpBox {
    role: OwnRole<PrpRouting>,
}

impl PrpBox {
    /// The role of the node with this address, at this LAN of the network of this number, 1 to 6.
    pub fn new(mac: Mac, lan: Lan, net: u8) -> PrpBox
        requires numbered { 0 < net }
        requires fits { net ≤ greatest_net }
        ensures { prp_role_of result ≡ role_of (RoleKind.Prp lan (net_of net)) mac }
    {
        PrpBox::of(mac, lan, NetId::new(net))
    }

    /// The role of the node with this address, at this LAN of this network.
    pub fn of(mac: Mac, lan: Lan, net: NetId) -> PrpBox
        ensures { prp_role_of result ≡ role_of (RoleKind.Prp lan net) mac }
    {
        PrpBox {
            role: OwnRole::of(mac, PrpRouting { lan, net }),
        }
    }
}

/// Where frames go at a RedBox between a ring and one LAN of a PRP network.
#[derive(Clone, Copy, Debug, Drop)]
pub struct PrpRouting {
    /// The LAN at the interlink.
    pub lan: Lan,
    /// The number of the network at the ring.
    pub net: NetId,
}

// Whether a ring frame goes on into the network of this number: the path of its tag tells the network that it came from.
fn interlink_for(net: NetId, header: &Header) -> Interlink
    ensures { ports_of result ≡ interlink_unless_from (number_of net) header.now }
{
    let number = net.number();
    if header.path / 2 == number {
        Interlink::Closed
    } else {
        Interlink::Open
    }
}

impl Routing for PrpRouting {
    ghost use Rattle.std.specs.Prelude.{refl};
    ghost use Rattle.sr_forwarding.specs.declared.kind.RoleKind.TheVariants as kind;

    ghost routed = { λ r. kind.Prp r.lan r.net };

    ghost alone = { λ _. refl };

    fn kind(&self) -> RoleKind {
        RoleKind::Prp {
            lan: self.lan,
            net: self.net,
        }
    }

    fn outlets(&self, mac: Mac, header: &Header, inlet: Port) -> Outlets {
        outlets(mac, header, inlet, interlink_for(self.net, header))
    }
}

impl Role for PrpBox {
    ghost use Rattle.sr_redbox.specs.RingBoxes.{prp_role_of};

    ghost meaning = { prp_role_of };

    fn mac(&self) -> Mac {
        self.role.mac()
    }

    fn kind(&self) -> RoleKind {
        self.role.kind()
    }

    fn owns(&self, mac: Mac, now: u64) -> bool {
        self.role.owns(mac, now)
    }

    fn wants(&self, header: &Header, inlet: Port, now: u64) -> Outlets {
        self.role.wants(header, inlet, now)
    }

    fn learn(
        &mut self,
        alloc: Global,
        header: &Header,
        inlet: Port,
        now: u64,
    ) -> Result<LearnOutcome, NoMemory> {
        self.role.learn(alloc, header, inlet, now)
    }

    fn prune(&mut self, now: u64) -> usize {
        self.role.prune(now)
    }

    fn image(&self, alloc: Global) -> Result<RoleImage, NoMemory> {
        self.role.image(alloc)
    }
}
