//! The kinds of redundant networks, and of captures of them.

use sr_audit::Side;
use sr_capture_script::Inlet;
use sr_clocks::Line;

/// How frames of a network have their numbers.
#[derive(Clone, Copy, Debug, PartialEq, Eq)]
pub enum Network {
    /// By a trailer, in a PRP network (IEC 62439-3 clause 4).
    Prp,
    /// By a tag, in an HSR ring (IEC 62439-3 clause 5).
    Hsr,
}

/// Where the captures were made.
#[derive(Clone, Copy, Debug, PartialEq, Eq)]
pub enum Ports {
    /// One at each side.
    Two,
    /// One at a mirror port, which sees the frames of both sides.
    Mirror,
}

/// Where one capture was made.
#[derive(Clone, Copy, Debug, PartialEq, Eq)]
pub(crate) enum Tap {
    /// At a side.
    Side(Side),
    /// At a mirror port.
    Mirror,
}

/// What is audited.
#[derive(Clone, Copy, Debug, PartialEq, Eq)]
pub struct Subject {
    /// How frames have their numbers.
    pub network: Network,
    /// Where the captures were made.
    pub ports: Ports,
    /// By how much times of B, as they are read, still differ from those of A's clock: where the clock of B drifts. None: not at all.
    pub clock: Option<Line>,
}

impl Subject {
    ghost use Rattle.std.specs.Prelude.{◌≡◌};
    ghost use Rattle.sr_capture_audit.specs.Auditing.{tap_at};

    /// Where the capture of an inlet was made. None: it is none of the audit.
    pub(crate) fn tap_at(self, inlet: Inlet) -> Option<Tap>
        ensures { result ≡ tap_at self.ports inlet }
    {
        match (self.ports, inlet) {
            (Ports::Two, Inlet::A) => Some(Tap::Side(Side::A)),
            (Ports::Two, Inlet::B) => Some(Tap::Side(Side::B)),
            (Ports::Mirror, Inlet::A) => Some(Tap::Mirror),
            _ => None,
        }
    }
}

/// The letter of a side.
pub(crate) fn letter_of(side: Side) -> &'static str {
    match side {
        Side::A => "A",
        Side::B => "B",
    }
}
