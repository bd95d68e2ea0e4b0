//! Laws of audits under rules.

ghost use Rattle.sr_capture_audit.specs.Laws.{JudgedFramesMayBeAll};

/// Where both recorders are mirrors, or no frame was sent to a single address, the frames that tell of losses are all frames, each of its own
/// source: an audit of these has the figures of the report, and need not be made.
pub fn judged_frames_may_be_all()
    ensures { JudgedFramesMayBeAll }
{}
