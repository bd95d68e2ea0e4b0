//! Laws of the audit of captures.

ghost use Rattle.sr_laws_capture.specs.Counted.{ReportsCountEachNumber, CountersCountEachNumber};
ghost use Rattle.sr_laws_capture.specs.Ending.{VerdictsEndAsJudged};
ghost use Rattle.sr_laws_capture.specs.Exact.{ChecksAreByArrivals};
ghost use Rattle.sr_laws_capture.specs.Limited.{VerdictsEndByLimits};
ghost use Rattle.sr_laws_capture.specs.LimitCases.{NoLimitsLeaveEachFault, PairsBeyondALimitAreTold, VerdictsAreOfTheRun, WorkedLimitsEndChecks, FalseEndsAreRefused};
ghost use Rattle.sr_laws_capture.specs.Lossless.{InnerSpansLeaveOut, EdgesAreWideEnough, MirrorsTellNoFault, RecordersTellNoFault, TwoReadingsTellNoFault};
ghost use Rattle.sr_laws_capture.specs.Seeing.{FlowsAreByArrivals, SightIsByArrivals};

/// The parts of captures that lie so far from the beginning and the end of each leave out whatever lies as near to what was not recorded.
pub fn inner_spans_leave_out()
    ensures { InnerSpansLeaveOut }
{}

/// Where frames take at most a millisecond to pass, the edges that a report has are as wide as that asks for.
pub fn edges_are_wide_enough()
    ensures { EdgesAreWideEnough }
{}

/// Where both recorders see all frames of each source, as two mirrors do, and nothing was dropped, cut or sent astray, the report tells
/// of no frame that one side lost and of no number that no frame had. A check of it ends with 0, or with 4 for a reason that it gives.
pub fn mirrors_tell_no_fault()
    ensures { MirrorsTellNoFault }
{}

/// So it is where the captures are read once, and again without their edges if that tells of frames by one side alone, as the program does.
pub fn two_readings_tell_no_fault()
    ensures { TwoReadingsTellNoFault }
{}

/// So does the report that the program judges, wherever the recorders are: if frames came by one side alone, those that are judged go past
/// both; and if numbers of a source are missing, the captures have but part of what was sent, or each counter is seen whole, by both or in
/// a ring.
pub fn recorders_tell_no_fault()
    ensures { RecordersTellNoFault }
{}

/// The figures of each source of a report count each of its numbers by its outcome; if some is of no frame, the report tells of missing
/// numbers, for which the program asks the counters.
pub fn reports_count_each_number()
    ensures { ReportsCountEachNumber }
{}

/// So do the figures of each counter; if some number is of no frame, the audit of counters tells so, and a report by it of captures that
/// have all that was sent tells of a fault.
pub fn counters_count_each_number()
    ensures { CountersCountEachNumber }
{}

/// What a check judges, and so whether it ends with 0, 3 or 4, is a function of the counts of all packets, of the arrivals of all sources,
/// of those of the frames that are judged and of the counters', and of whether the captures have all that was sent.
pub fn checks_are_by_arrivals()
    ensures { ChecksAreByArrivals }
{}

/// The verdicts on a report end a check as its figures judge: with 4, and for the same reason, where nothing can be judged, else with 3 where
/// the figures or the frames of sources tell of a fault, else with 0. Where something besides the figures says that nothing can be judged
/// they end it with 4; and so they may in place of 3 where recorders dropped packets, but only if they may have made each fault that is told.
/// So what these laws say of how a check ends holds of the status of its verdicts, where no source has two senders or lost its redundancy,
/// no recorder dropped packets, and the user has no limits of his own.
pub fn verdicts_end_as_judged()
    ensures { VerdictsEndAsJudged }
{}

/// With whatever limits of a user the verdicts end a check with 4 where nothing can be judged, by the figures, for something besides them, or
/// since recorders may have made each fault beyond the limits; else with 3 where such a fault stands: more lost than the limit, a pair of
/// copies further apart than the limit, or any fault of another kind; else with 0.
pub fn verdicts_end_by_limits()
    ensures { VerdictsEndByLimits }
{}

/// Where a user has no limits, a fault stands beyond them exactly where the figures, or the frames of sources, tell of one: so a check ends
/// then as `verdicts_end_as_judged` says.
pub fn no_limits_leave_each_fault()
    ensures { NoLimitsLeaveEachFault }
{}

/// The least or the greatest skew of a source is beyond a limit exactly where some pair of its copies came further apart than that.
pub fn pairs_beyond_a_limit_are_told()
    ensures { PairsBeyondALimitAreTold }
{}

/// A report of arrivals has one list of verdicts, and so one end of a check.
pub fn verdicts_are_of_the_run()
    ensures { VerdictsAreOfTheRun }
{}

/// Checks worked out: a loss of two sources of just the limit and of one frame more, and copies as far apart as a limit and further.
pub fn worked_limits_end_checks()
    ensures { WorkedLimitsEndChecks }
{}

/// No check takes a limit for one of each source, a loss of just the limit for a fault, or a pair for near since its copy by B came first; none
/// leaves out a dead port or a cut for a limit, none takes fewer dropped packets for an excuse of a loss, and none judges by limits where
/// nothing can be judged.
pub fn false_ends_are_refused()
    ensures { FalseEndsAreRefused }
{}

/// Which flows both captures see, whether both recorders are mirrors, and whether frames of a flow came by one side alone, is a function of
/// the arrivals of each flow, in whatever order flows were heard.
pub fn flows_are_by_arrivals()
    ensures { FlowsAreByArrivals }
{}

/// Whether captures have all that was sent is a function of that and of the arrivals of the counters.
pub fn sight_is_by_arrivals()
    ensures { SightIsByArrivals }
{}
