//! Laws over trees of arrivals, ageings and merges.

ghost use Rattle.sr_laws_dup_joins.specs.Examples.{TakenOverIsSteady};
ghost use Rattle.sr_laws_dup_joins.specs.GrowthLaws.{TablesStand, AnswersByTheUnion, TablesAgree};

/// Along any steady tree of arrivals, ageings and merges, of tables that began empty or with what stood in a table, the record of a
/// live source stands for the union of all numbers that its parts took in that source's epoch, cut to the window; what stood in a
/// table counts as taken. Its time is that of the last of these arrivals. A source without a live record has no epoch.
///
/// Steady means: along each branch no time goes back, each number is one of the 65536 that may follow those of its source's
/// epoch, and of a source that both parts of a merge know, the greatest numbers are at most 32767 apart.
pub fn tables_stand()
    ensures { TablesStand }
{}

/// Along a steady tree an arrival is new on exactly the asked lanes on which the union of all that came before in its source's
/// epoch, never cut, lacks it.
pub fn answers_by_the_union()
    ensures { AnswersByTheUnion }
{}

/// Tables that took the same arrivals, times included, in any orders and steady trees, know the same of each source, where
/// nothing is forgotten.
pub fn tables_agree()
    ensures { TablesAgree }
{}

/// No premise is empty: a table that noted 1 and 2 and takes over from one that noted 3 and 2 grew steadily, and forgot nothing.
pub fn a_standby_is_steady()
    ensures { TakenOverIsSteady }
{}
