//! What a run is told beside its script.

ghost use Rattle.std.specs.Prelude.{◌≡◌, ◌≤◌, ◌+◌, true};
ghost use Rattle.sr_plant.specs.Building.{is_size};
ghost use Rattle.sr_plant.specs.Limits.{fewest_nodes, most_nodes, fewest_with_boxes, most_in_lans};
ghost use Rattle.sr_plant_script.specs.Setups.{ring_lan_topology, two_rings_topology};

use sr_forwarding::NetId;
use sr_node::Settings;
use sr_plant::{Join, RingLanShape, Topology, TwoRingsShape};

/// The plant that a script is run on: new nodes of the kinds of its topology, node i with the address 02:00:00:00:00:XX, XX
/// being i.
#[derive(Clone, Copy, Debug)]
pub struct PlantSetup {
    /// How the nodes are joined.
    pub topology: Topology,
    /// How many there are.
    pub nodes: usize,
    /// Their mode, and how many numbers of a source each remembers.
    pub settings: Settings,
    ghost sized: { is_size topology nodes ≡ true },
}

/// How many links join two rings.
#[derive(Clone, Copy, Debug, PartialEq, Eq)]
pub enum Joins {
    /// One, from the first node of the one ring to the first of the other.
    One,
    /// Two, from the first two nodes of the one to the first two of the other.
    Two,
}

impl PlantSetup {
    /// A ring of so many nodes, 2 to 16.
    pub fn ring(nodes: usize, settings: Settings) -> PlantSetup
        requires least { fewest_nodes ≤ nodes }
        requires most { nodes ≤ most_nodes }
        ensures topology { result.topology ≡ Topology.Ring }
        ensures nodes { result.nodes ≡ nodes }
        ensures settings { result.settings ≡ settings }
    {
        PlantSetup {
            topology: Topology::Ring,
            nodes,
            settings,
        }
    }

    /// Two LANs of so many nodes, 2 to 16.
    pub fn twin_lan(nodes: usize, settings: Settings) -> PlantSetup
        requires least { fewest_nodes ≤ nodes }
        requires most { nodes ≤ most_nodes }
        ensures topology { result.topology ≡ Topology.TwinLan }
        ensures nodes { result.nodes ≡ nodes }
        ensures settings { result.settings ≡ settings }
    {
        PlantSetup {
            topology: Topology::TwinLan,
            nodes,
            settings,
        }
    }

    /// A ring of 3 to 16 nodes, of which node 0 is the box of LAN A and node 1 that of LAN B of network 1, and 1 to 14 nodes
    /// of these LANs.
    pub fn ring_lan(ring: usize, lan: usize, settings: Settings) -> PlantSetup
        requires least { fewest_with_boxes ≤ ring }
        requires most { ring ≤ most_nodes }
        requires some { 1 ≤ lan }
        requires few { lan ≤ most_in_lans }
        ensures topology { result.topology ≡ ring_lan_topology ring lan }
        ensures nodes { result.nodes ≡ ring + lan }
        ensures settings { result.settings ≡ settings }
    {
        let shape = RingLanShape {
            ring,
            lan,
            box_a: 0,
            box_b: 1,
            net: NetId::One,
        };
        PlantSetup {
            topology: Topology::RingLan(shape),
            nodes: ring + lan,
            settings,
        }
    }

    /// Two rings of 2 to 16 nodes each. The first node of each is a box, or the first two are, and they are joined in turn.
    pub fn two_rings(left: usize, right: usize, joins: Joins, settings: Settings) -> PlantSetup
        requires left_least { fewest_nodes ≤ left }
        requires left_most { left ≤ most_nodes }
        requires right_least { fewest_nodes ≤ right }
        requires right_most { right ≤ most_nodes }
        ensures topology { result.topology ≡ two_rings_topology left right joins }
        ensures nodes { result.nodes ≡ left + right }
        ensures settings { result.settings ≡ settings }
    {
        let first = Join {
            left: 0,
            right: left,
        };
        let second = match joins {
            Joins::One => None,
            Joins::Two => Some(Join {
                left: 1,
                right: left + 1,
            }),
        };
        let shape = TwoRingsShape {
            left,
            right,
            first,
            second,
        };
        PlantSetup {
            topology: Topology::TwoRings(shape),
            nodes: left + right,
            settings,
        }
    }
}
