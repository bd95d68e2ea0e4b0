//! Laws of lines.

ghost use Rattle.sr_clocks.specs.Rests.{ToldTimesKeepTheirOrder, RestsPutTimesRight};

/// Of two times of a clock the later one is by the other clock not before the earlier one: by a line that frames tell, and by what is left of
/// it where times were moved.
pub fn told_times_keep_their_order()
    ensures { ToldTimesKeepTheirOrder }
{}

/// What is left of a line puts the times of a clock that were moved by an offset right: it makes of each what the line makes of it as it was,
/// moved by as much as the times of the first clock are.
pub fn rests_put_times_right()
    ensures { RestsPutTimesRight }
{}
