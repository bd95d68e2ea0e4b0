//! Laws about captures.

ghost use Rattle.sr_capture.specs.Laws.{PacketsAreUnique, BrokenFilesAreNone};

/// A file is the capture of one list of packets at most.
pub fn packets_are_unique()
    ensures { PacketsAreUnique }
{}

/// A file that ends within a packet is no capture.
pub fn broken_files_are_none()
    ensures { BrokenFilesAreNone }
{}
