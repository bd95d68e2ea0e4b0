//! What ended a pass over captures.

use sr_capture_script::ScriptFault;

/// What ended a pass over captures early.
#[derive(Clone, Copy)]
pub enum Ended {
    /// A capture could not be opened, of which standard error has been told.
    Unopened,
    /// This fault.
    By(ScriptFault),
}

impl From<ScriptFault> for Ended {
    fn from(fault: ScriptFault) -> Ended {
        Ended::By(fault)
    }
}
