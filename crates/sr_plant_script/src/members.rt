//! The nodes of a script's plant.

ghost use Rattle.std.specs.Prelude.{◌≡◌, ◌<◌};
ghost use Rattle.sr_plant_script.specs.Members.{mac_of, routed_as, IsMemberKind};

use sr_forwarding::{DanhRouting, DanpRouting, Header, Outlets, OwnRole, Port, RoleKind, Routing};
use sr_frame::Mac;
use sr_redbox::{HsrRouting, PrpRouting};

/// Where frames go at a node of a plant.
#[derive(Clone, Copy, Drop)]
pub enum MemberRouting {
    /// A doubly attached node of a PRP network (IEC 62439-3 clause 4).
    Danp,
    /// A doubly attached node of an HSR ring (IEC 62439-3 clause 5).
    Danh,
    /// A RedBox between a ring and this LAN of this PRP network.
    Prp(PrpRouting),
    /// A RedBox between two rings.
    Hsr,
}

/// The role of a node of a plant.
pub type Member = OwnRole<MemberRouting>;

impl Routing for MemberRouting {
    ghost use Rattle.std.specs.Prelude.{◌≡◌, true, refl};
    ghost use Rattle.sr_forwarding.specs.Kinds.{stands_alone};
    ghost use Rattle.sr_plant_script.specs.Members.{routed_as};
    ghost use Rattle.sr_plant_script.specs.declared.members.MemberRouting.TheVariants as member;

    ghost routed = { routed_as };

    ghost alone = { λ r. elim r as (λ m. stands_alone (routed_as m) ≡ true)
        [ member.Danp ↦ refl | member.Danh ↦ refl | member.Prp p ↦ refl | member.Hsr ↦ refl ] };

    fn kind(&self) -> RoleKind {
        match self {
            MemberRouting::Danp => RoleKind::Danp,
            MemberRouting::Danh => RoleKind::Danh,
            MemberRouting::Prp(routing) => RoleKind::Prp {
                lan: routing.lan,
                net: routing.net,
            },
            MemberRouting::Hsr => RoleKind::Hsr,
        }
    }

    fn outlets(&self, mac: Mac, header: &Header, inlet: Port) -> Outlets {
        match self {
            MemberRouting::Danp => DanpRouting.outlets(mac, header, inlet),
            MemberRouting::Danh => DanhRouting.outlets(mac, header, inlet),
            MemberRouting::Prp(routing) => routing.outlets(mac, header, inlet),
            MemberRouting::Hsr => HsrRouting.outlets(mac, header, inlet),
        }
    }
}

impl MemberRouting {
    /// Where frames go at a node of this kind.
    pub fn of(kind: RoleKind) -> MemberRouting
        requires { IsMemberKind kind }
        ensures { routed_as result ≡ kind }
    {
        match kind {
            RoleKind::Danp => MemberRouting::Danp,
            RoleKind::Danh => MemberRouting::Danh,
            RoleKind::Prp { lan, net } => MemberRouting::Prp(PrpRouting { lan, net }),
            RoleKind::Hsr => MemberRouting::Hsr,
            _ => unreachable!(),
        }
    }
}

/// The address of the node of this number.
pub fn mac_of(node: usize) -> Mac
    requires { node < 256 }
    ensures { result ≡ mac_of node }
{
    Mac([2, 0, 0, 0, 0, node as u8])
}
