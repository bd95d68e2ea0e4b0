//! The kinds of roles, and what they differ in beside their routes: a method for each property.

ghost use Rattle.std.specs.Prelude.{◌≡◌, ◌<◌, false, true, unwrap_or};
ghost use Rattle.sr_forwarding.specs.Framings.{Ordinary, lane_of};
ghost use Rattle.sr_forwarding.specs.Kinds.{carriage, has_interlink, interlink_framing, life_of, side_framing, takes_unnumbered};
ghost use Rattle.sr_forwarding.specs.PortFramings.{carried_as};
ghost use Rattle.sr_forwarding.specs.Routes.{DropsOnlyOwnSources, IgnoresKnown};

use crate::{HsrFraming, NetId, PlainFraming, PortFraming, PrpFraming};
use sr_frame::Port;
use sr_prp_trailer::Lan;
use sr_supervision::Life;

/// The kinds of roles.
#[derive(Clone, Copy, Debug, PartialEq, Eq)]
pub enum RoleKind {
    /// A doubly attached node of a PRP network (IEC 62439-3 clause 4).
    Danp,
    /// A doubly attached node of an HSR ring (IEC 62439-3 clause 5).
    Danh,
    /// A RedBox between a ring and nodes that know no redundancy.
    San,
    /// A RedBox between a ring and one LAN of a PRP network of this number.
    Prp {
        /// The LAN at the interlink.
        lan: Lan,
        /// The number of the network.
        net: NetId,
    },
    /// A RedBox between two rings.
    Hsr,
}

impl RoleKind {
    /// Whether a node of this kind takes frames without a number at A and B.
    pub fn takes_unnumbered(self) -> bool
        ensures { result ≡ takes_unnumbered self }
    {
        match self {
            RoleKind::Danp => true,
            RoleKind::Danh | RoleKind::San | RoleKind::Prp { .. } | RoleKind::Hsr => false,
        }
    }

    /// The type of the life checks of a node of this kind.
    pub fn life(self) -> Life
        ensures { result ≡ life_of self }
    {
        match self {
            RoleKind::Danp => Life::PrpDiscard,
            RoleKind::Danh | RoleKind::San | RoleKind::Prp { .. } | RoleKind::Hsr => Life::Hsr,
        }
    }

    /// Whether a node of this kind has an interlink: it is a RedBox.
    pub fn has_interlink(self) -> bool
        ensures { result ≡ has_interlink self }
    {
        match self {
            RoleKind::Danp | RoleKind::Danh => false,
            RoleKind::San | RoleKind::Prp { .. } | RoleKind::Hsr => true,
        }
    }

    /// Whether the routes of such a role read whether the destination is known as a node.
    #[tactic(auto, using(crate::proofs::KindLemmas::ignores_known))]
    pub fn routes_by_dst_known(self) -> bool
        ensures { result ≡ false → IgnoresKnown self }
    {
        match self {
            RoleKind::San => true,
            RoleKind::Danp | RoleKind::Danh | RoleKind::Prp { .. } | RoleKind::Hsr => false,
        }
    }

    /// Whether roles of this kind drop a frame from A or B exactly where they own its source. The routes then tell who owns
    /// it, and no second look-up is needed.
    #[tactic(auto, using(crate::proofs::RouteLemmas::san_drops_only_own_sources))]
    pub fn drops_only_own_sources(self) -> bool
        ensures { result ≡ true → DropsOnlyOwnSources self }
    {
        matches!(self, RoleKind::San)
    }

    // The framing of the port of this side, A or B.
    // speed: D-framing-table
    #[inline(always)]
    fn side_framing(self, side: Lan) -> PortFraming
        ensures { carried_as result ≡ side_framing self side }
    {
        match self {
            RoleKind::Danp => PortFraming::Prp(PrpFraming { lan: side, net: 0 }),
            RoleKind::Danh | RoleKind::San | RoleKind::Prp { .. } | RoleKind::Hsr => {
                PortFraming::Hsr(HsrFraming {
                    path: path_at(side),
                })
            }
        }
    }

    // The framing of the interlink, and where there is none that of ordinary frames.
    // speed: D-framing-table
    #[inline(always)]
    fn interlink_framing(self) -> PortFraming
        ensures { carried_as result ≡ unwrap_or (interlink_framing self) Ordinary }
    {
        match self {
            RoleKind::Danp | RoleKind::Danh | RoleKind::San => PortFraming::Plain(PlainFraming),
            RoleKind::Prp { lan, net } => PortFraming::Prp(PrpFraming {
                lan,
                net: net.number(),
            }),
            RoleKind::Hsr => PortFraming::Hsr(HsrFraming { path: 0 }),
        }
    }
}

// The path of a frame of a ring's node that goes out at this side.
// speed: D-framing-table
#[inline(always)]
fn path_at(side: Lan) -> u8
    ensures path { result ≡ lane_of side }
    ensures fits { result < 16 }
{
    match side {
        Lan::A => 0,
        Lan::B => 1,
    }
}

/// The framing of a port of a node of this kind. Where the node has no such port nothing comes in and nothing goes out; it
/// then counts as one of ordinary frames.
// speed: D-framing-table
#[inline(always)]
pub fn framing_at(kind: RoleKind, port: Port) -> PortFraming
    ensures { carried_as result ≡ carriage kind port }
{
    match port {
        Port::H => PortFraming::Plain(PlainFraming),
        Port::A => kind.side_framing(Lan::A),
        Port::B => kind.side_framing(Lan::B),
        Port::C => kind.interlink_framing(),
    }
}
