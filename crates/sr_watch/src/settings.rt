//! What a watch is set to.

/// What a watch is set to. Times are in nanoseconds.
#[derive(Clone, Copy, Debug, PartialEq, Eq)]
pub struct Settings {
    /// For how long a recorder may keep a packet before it hands it out.
    pub slack: u64,
    /// For how long a source is heard by one LAN alone before `SourceAlarm::LanLost` is raised; for how long nothing comes by a LAN before
    /// `LanAlarm::LanSilent` is.
    pub alone_for: u64,
    /// For how long a source is silent before `SourceAlarm::Silent` is raised.
    pub silent_for: u64,
    /// Over which skew of a report's interval `SourceAlarm::Skew` is raised. None: it is never.
    pub skew_over: Option<u64>,
    /// Over how many hundredths of the frames of a report's interval that a LAN lost `SourceAlarm::Lost` is raised. None: it is never.
    pub lost_over: Option<u64>,
}
