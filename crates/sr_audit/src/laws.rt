//! Laws of the figures of sources.

ghost use Rattle.sr_audit.specs.Calls.{CallsAddUp, NoCallIsTakenBack};
ghost use Rattle.sr_audit.specs.Laws.{CopiesAddUp, LostCopiesAddUp, NumbersAddUp, SourcesAddUp};

/// Of whatever arrivals, the copies that came in at a side are as many as the pairs, the frames that came by this side alone and the
/// repeats together, and the copies of both sides are all arrivals.
pub fn copies_add_up()
    ensures { CopiesAddUp }
{}

/// Of whatever arrivals, the copies that came in at a side are as many as the pairs, the frames that the other side lost, those at the
/// edges of the other side's capture and the repeats together.
pub fn lost_copies_add_up()
    ensures { LostCopiesAddUp }
{}

/// Of whatever arrivals, the pairs, the frames that one side lost, those at the edges of a capture and the numbers that no frame had are as
/// many as the numbers of the stretches, from the least to the greatest of each.
pub fn numbers_add_up()
    ensures { NumbersAddUp }
{}

/// The copies of a side, of all sources that have figures, are as many as the arrivals of these sources at that side.
pub fn sources_add_up()
    ensures { SourcesAddUp }
{}

/// Of whatever numbers of a stretch, up to whatever mark: the frames that came by a side alone, and those whose copy by the other side
/// came 400 ms or more behind, are those that wait and those that the other side is called to have lost, together.
pub fn calls_add_up()
    ensures { CallsAddUp }
{}

/// What is called lost stays so while the mark goes on, and with an arrival more at the mark or behind it.
pub fn no_call_is_taken_back()
    ensures { NoCallIsTakenBack }
{}
