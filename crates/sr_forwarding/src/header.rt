//! What routes read of a frame.

ghost use Rattle.std.specs.Prelude.{◌≡◌};
ghost use Rattle.sr_frame.specs.Frame.{spelling};
ghost use Rattle.sr_frame.specs.View.{fields_of};
ghost use Rattle.sr_forwarding.specs.Headers.{header_in};

use sr_frame::{FrameView, Mac};
use sr_sequence::Seq;
use sr_supervision::is_supervision;

/// What routes read of a frame.
#[derive(Clone, Copy, Debug, PartialEq, Eq)]
pub struct Header {
    /// The destination.
    pub dst: Mac,
    /// The source.
    pub src: Mac,
    /// The number that its source gave it, where it has one.
    pub seq: Option<Seq>,
    /// The path, as in a parcel.
    pub path: u8,
    /// Whether its destination and type are those of supervision.
    pub supervision: bool,
    /// Whether the destination is known as a node of the ring.
    pub dst_known: bool,
}

impl Header {
    /// The header of a frame with this number, or none, and this path. Whether its destination is known as a node is for the
    /// caller to say: here it is not.
    pub fn of(frame: &FrameView<'_>, seq: Option<Seq>, path: u8) -> Header
        ensures { result ≡ header_in (spelling (fields_of frame.now)) seq path }
    {
        Header {
            dst: frame.dst,
            src: frame.src,
            seq,
            path,
            supervision: is_supervision(frame),
            dst_known: false,
        }
    }
}
