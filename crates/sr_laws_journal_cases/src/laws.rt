//! The laws of journals have journals that are worked out.

ghost use Rattle.sr_laws_journal_cases.specs.TwoWorkers.{JournalsMeetThePremises, SegmentsMeetThePremises};

/// The premises of the laws of journals and of logs can be met by a real node. The worker of A of a doubly attached node of two LANs
/// brings a frame, the host's sends one, takes out what came, and that of A takes out what was sent. The journal begins with a
/// new node, it is steady, the logs of the two settle it, and each frame went out once. So it is in every mode, at every width.
pub fn a_journal_of_two_workers_meets_the_premises()
    ensures { JournalsMeetThePremises }
{}

/// Two segments of a real node can meet the premises too. The journal is closed before the frames are taken out, and the role is exchanged
/// for that of a ring: the second segment follows the first, both are one run, the logs settle both, and each frame went out once.
pub fn two_journals_of_two_workers_meet_the_premises()
    ensures { SegmentsMeetThePremises }
{}
