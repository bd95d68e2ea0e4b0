//! What a report says.

use crate::counts::{Changes, Counts, Spread};
use sr_audit::Sides;
use sr_frame::Mac;

/// When the last copy of a source came by each LAN, in nanoseconds of capture time. None: no copy came.
#[derive(Clone, Copy, Debug, PartialEq, Eq)]
pub struct Lasts {
    /// By LAN A.
    pub a: Option<u64>,
    /// By LAN B.
    pub b: Option<u64>,
}

/// What is told of a source.
#[derive(Clone, Copy, Debug, PartialEq, Eq)]
pub struct SourceLine {
    /// Its address.
    pub source: Mac,
    /// What no line before told.
    pub interval: Changes,
    /// The skews of the frames whose second copy came since the last line. None: there is none.
    pub spread: Option<Spread>,
    /// All since the start.
    pub total: Counts,
    /// Frames of which copies came by this LAN alone so far, and whose copy by the other one may still come in time.
    pub waiting: Sides,
    /// When its last copies came.
    pub last: Lasts,
}

/// What is told of the capture of a LAN. Counts stay at 2^64 - 1.
#[derive(Clone, Copy, Debug, PartialEq, Eq)]
pub struct LanCounts {
    /// Its capture runs: it has begun, and did not end since then.
    pub is_running: bool,
    /// The capture time of its last packet, in nanoseconds. None: no packet came.
    pub last: Option<u64>,
    /// Numbered copies that came while the capture of the other LAN did not run, since the start: they are in no line.
    pub unwatched: u64,
    /// Numbered copies that came behind the mark, since the start.
    pub behind: u64,
    /// Numbered copies that wait for the other LAN now.
    pub held: u64,
}

/// What is told at the head of a report.
#[derive(Clone, Copy, Debug, PartialEq, Eq)]
pub struct Header {
    /// The capture time up to which all is told, in nanoseconds.
    pub mark: u64,
    /// LAN A.
    pub a: LanCounts,
    /// LAN B.
    pub b: LanCounts,
    /// Sources that have a line.
    pub sources: u64,
    /// Sources that were forgotten, since the start.
    pub forgotten: u64,
    /// Numbered copies of sources without a line, since the start.
    pub left_out: u64,
}
