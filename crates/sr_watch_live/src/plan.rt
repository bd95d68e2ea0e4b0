//! How a watch runs.

use sr_capture_file::Reading;
use sr_intake::Network;
use sr_prp_trailer::Lan;
use sr_watch::Settings;
use sr_watch_lines::Format;

/// How the capture of a LAN is read.
#[derive(Clone, Copy, Debug)]
pub struct LanPlan {
    /// The LAN. None: both, at a mirror port.
    pub lan: Option<Lan>,
    /// How frames have their numbers.
    pub network: Network,
    /// How its file is read.
    pub reading: Reading,
    /// How far its times are put off, in nanoseconds.
    pub delay: u64,
    /// Whether its path is opened again where its capture ends, if that is a FIFO.
    pub reopens: bool,
}

/// How a watch runs. Times are in nanoseconds.
#[derive(Clone, Copy, Debug)]
pub struct Plan {
    /// How the capture of LAN A is read.
    pub a: LanPlan,
    /// How that of LAN B is. None: that of A has both LANs, as a mirror port sees them.
    pub b: Option<LanPlan>,
    /// How far reports are apart.
    pub every: u64,
    /// How lines are spelled.
    pub format: Format,
    /// What the watch is set to.
    pub settings: Settings,
    /// After how long it ends. None: where both captures end.
    pub lasts_for: Option<u64>,
}
