//! Laws over runs of a merge.

ghost use Rattle.sr_merge.specs.MergeRuns.{EachFrameIsWrittenOnce, WhatIsNewIsWritten};
ghost use Rattle.sr_merge.specs.Copies.{WhatIsMetHasACopy, CopiesInTimeCount};
ghost use Rattle.sr_merge.specs.Verdicts.{EachFrameIsKeptOnce};
ghost use Rattle.sr_merge.specs.Due.{WhatIsDueIsWritten, AllIsWrittenAtTheEnd};

/// In every steady run what was written, and what waits behind it, are the packets that were taken without those of whose frame an
/// earlier copy came: each frame once, by its first copy, each packet without number each time, in the order in which they came, with
/// the octets that were given.
///
/// Numbers are whole numbers without bound, and every numbering under which the run is steady will do. A packet that finds 1024 other
/// sources live counts as one without number.
pub fn each_frame_is_written_once()
    ensures { EachFrameIsWrittenOnce }
{}

/// In every run, steady or not, these are the packets that the duplicate record answers as new, those without number, and those that
/// find it full.
pub fn what_is_new_is_written()
    ensures { WhatIsNewIsWritten }
{}

/// Of packets that are taken, what is to be written is the first copy of each frame and each packet without number, where their run is
/// steady: `kept_of_all`, of which the file of a whole merge is said, is the list that the other laws speak of.
pub fn each_frame_is_kept_once()
    ensures { EachFrameIsKeptOnce }
{}

/// Of each packet that counts as come by both sides a copy came by the other side, less than 400 ms behind it.
pub fn what_is_met_has_a_copy()
    ensures { WhatIsMetHasACopy }
{}

/// A copy that comes less than 400 ms behind the newest packet of its frame that came by the other side, and is no new packet itself, has
/// that one count as come by both sides.
pub fn copies_in_time_count()
    ensures { CopiesInTimeCount }
{}

/// Before a packet is taken, those that are due then were written: the first ones by whose sides it is known that they came, or behind
/// which so many wait that they are waited for no longer. What is left came less than 400 ms before, and fewer than 262144 packets.
pub fn what_is_due_is_written()
    ensures { WhatIsDueIsWritten }
{}

/// Where nothing waits any longer, all that is to be written was written: in a steady run each frame once, by its first copy, and each
/// packet without number.
pub fn all_is_written_at_the_end()
    ensures { AllIsWrittenAtTheEnd }
{}
