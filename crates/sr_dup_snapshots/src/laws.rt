//! Laws on snapshots.
ghost use Rattle.sr_dup_snapshots.specs.Laws.{SnapshotsAreUnique, SnapshotsTell, ReadingsAreOne};

/// Tables of one width that are the same, in whatever order, have one snapshot.
pub fn snapshots_are_unique()
    ensures { SnapshotsAreUnique }
{}

/// No text is the snapshot of two tables that differ in more than their order: it tells their width too.
pub fn snapshots_tell()
    ensures { SnapshotsTell }
{}

/// What one text is read as at one width is the same, however it is read.
pub fn readings_are_one()
    ensures { ReadingsAreOne }
{}
