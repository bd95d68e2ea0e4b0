//! Who is told of the faults of captures.

use crate::message::End;
use sr_prp_trailer::Lan;

/// Who is told of the faults of captures.
pub trait Telling {
    /// The capture of a LAN ended by a fault.
    fn tell(&self, lan: Lan, end: End);
}
