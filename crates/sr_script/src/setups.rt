//! What a run is told beside its script.

use sr_forwarding::RoleKind;
use sr_frame::Mac;
use sr_node::Settings;
use sr_slots::Keys;

/// The node that a script is run on.
#[derive(Clone, Copy, Debug)]
pub struct Setup {
    /// The kind of its role.
    pub role: RoleKind,
    /// The address of the node.
    pub mac: Mac,
    /// Its mode, and how many numbers of a source it remembers.
    pub settings: Settings,
    /// The keys of its tables. Nothing that is printed depends on them.
    pub keys: Keys,
}

/// What is printed of the node that a script is run on.
#[derive(Clone, Copy, Debug, PartialEq, Eq)]
pub enum Report {
    /// The frames that it puts out.
    Frames,
    /// What it knows of other nodes at the end.
    Status,
    /// What it knows of other nodes at the end, and what was counted of the lines.
    Tally,
}
