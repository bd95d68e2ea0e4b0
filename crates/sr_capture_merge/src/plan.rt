//! How captures are merged.

use sr_capture_audit::Network;

/// How frames are written.
#[derive(Clone, Copy, Debug, PartialEq, Eq)]
pub enum Spelling {
    /// Without the trailer or tag that has their number.
    Plain,
    /// As they came.
    Kept,
}

/// Which packets are written.
#[derive(Clone, Copy, Debug, PartialEq, Eq)]
pub enum Scope {
    /// All of them.
    All,
    /// Those that have a comment.
    Lost,
}

/// How captures are merged.
#[derive(Clone, Copy, Debug)]
pub struct Plan {
    /// How frames have their numbers.
    pub network: Network,
    /// How they are written.
    pub spelling: Spelling,
    /// Which are written.
    pub scope: Scope,
    /// How much the times of all packets were put off, in nanoseconds: so much less is written.
    pub early: u64,
}
