//! What the two ways of a frame are called: LANs, or directions of a ring.

ghost use Rattle.std.specs.Prelude.{◌≡◌};
ghost use Rattle.sr_page.specs.Topologies.{way_name, text_for};

/// What kind of network a page tells of.
#[derive(Clone, Copy, Debug, PartialEq, Eq)]
pub enum Topology {
    /// Two LANs.
    Lans,
    /// A ring, in which each frame goes both ways.
    Ring,
}

/// One of the two ways of a frame.
#[derive(Clone, Copy, Debug, PartialEq, Eq)]
pub enum Way {
    /// By LAN A, or past port A.
    A,
    /// By LAN B, or past port B.
    B,
}

impl Topology {
    /// The name of a LAN, or of a way of the ring.
    pub fn name_of(self, way: Way) -> &'static str
        ensures { result.now ≡ way_name self way }
    {
        match (self, way) {
            (Topology::Lans, Way::A) => "LAN A",
            (Topology::Lans, Way::B) => "LAN B",
            (Topology::Ring, Way::A) => "way A",
            (Topology::Ring, Way::B) => "way B",
        }
    }

    /// One of two texts: that of LANs, or that of a ring.
    pub fn either(self, lans: &'static str, ring: &'static str) -> &'static str
        ensures { result.now ≡ text_for self lans.now ring.now }
    {
        match self {
            Topology::Lans => lans,
            Topology::Ring => ring,
        }
    }
}
