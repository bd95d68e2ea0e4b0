//! A file whose packets are taken one by one.

ghost use Rattle.std.specs.Prelude.{◌≤◌, ◌^◌};

use crate::flaws::FlawCounts;
use sr_capture::Packet;
use sr_capture_file::Format;

/// A file whose packets are taken one by one, and the packet that is due.
#[derive(Drop)]
pub(crate) struct Source<R> {
    /// The reader behind the front. None: there is no file.
    pub reader: Option<R>,
    /// What its front says.
    pub form: Format,
    /// What is known of it behind what was taken.
    pub state: Format,
    /// How far its times are put off, in nanoseconds.
    pub delay: u64,
    /// How many octets of it were taken.
    pub place: u64,
    /// How many of its packets were taken.
    pub number: u64,
    /// How many of these are not used.
    pub flaws: FlawCounts,
    /// The latest moment of one, in nanoseconds.
    pub moment: u64,
    /// The moment of the packet that is due. None: it is at its end.
    pub due: Option<u64>,
    /// The packet that is due.
    pub packet: Packet,
    /// The octets of a block, while it is read.
    pub block: Vec<u8>,
    pub ghost bounded: { delay ≤ 2 ^ 62 },
}
