//! What comes from the thread of a LAN.

use sr_capture::CaptureFault;
use sr_intake::Kind;
use sr_prp_trailer::Lan;
use std::io::ErrorKind;

/// A packet that was taken.
#[derive(Clone, Copy, Debug)]
pub(crate) struct Taken {
    /// When it was captured, in nanoseconds since 1970, put off by the delay of its LAN.
    pub time: u64,
    /// The LAN for which it counts.
    pub lan: Lan,
    /// What it is.
    pub kind: Kind,
}

/// How a capture ended.
#[derive(Clone, Copy, Debug, PartialEq, Eq)]
pub enum End {
    /// At its end.
    Whole,
    /// It could not be opened.
    Unopened(ErrorKind),
    /// It could not be read on.
    Broken(CaptureFault),
}

/// What comes of a LAN behind the end of a capture.
#[derive(Clone, Copy, Debug, PartialEq, Eq)]
pub(crate) enum Then {
    /// Nothing more.
    Nothing,
    /// Another capture, once its path has a writer again.
    Another,
}

/// What comes from the thread of a LAN.
#[derive(Drop)]
pub(crate) enum Message {
    /// The capture begins: its front was read.
    Begun,
    /// Packets were taken.
    Came(Vec<Taken>),
    /// The capture ended, or none was opened behind the last one.
    Ended(End, Then),
}
