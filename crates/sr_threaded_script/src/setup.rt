//! What a threaded run is told beside its script.

ghost use Rattle.std.specs.Prelude.{◌≤◌};
ghost use Rattle.sr_plant.specs.Limits.{fewest_nodes, most_nodes};

use sr_node::Settings;

/// What a network is whose nodes run on threads.
#[derive(Clone, Copy, Debug, PartialEq, Eq)]
pub enum ThreadedNet {
    /// An HSR ring (IEC 62439-3 clause 5).
    Ring,
    /// The two LANs of a PRP network (IEC 62439-3 clause 4).
    TwinLan,
}

/// The network that a script is run on: new doubly attached nodes, node i with the address 02:00:00:00:00:XX, XX being i.
#[derive(Clone, Copy, Debug)]
pub struct ThreadedSetup {
    /// What the network is.
    pub net: ThreadedNet,
    /// How many nodes there are, 2 to 16.
    pub nodes: usize,
    /// Their mode, and how many numbers of a source each remembers.
    pub settings: Settings,
    ghost enough: { fewest_nodes ≤ nodes },
    ghost few: { nodes ≤ most_nodes },
}
