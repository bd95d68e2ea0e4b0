//! Laws of audits: beside runs of a table of duplicate records, of each number of a source and its line, and of the captures of a flawless
//! network.

ghost use Rattle.sr_laws_audit.specs.Cases.{ThreeFramesMeetThePremises, RingFramesMeetThePremises, TellsWhatIsLost};
ghost use Rattle.sr_laws_audit.specs.Exactly.{FiguresAreByArrivals, TestsAreByArrivals};
ghost use Rattle.sr_laws_audit.specs.ListCases.{ListsAsWorkedOut};
ghost use Rattle.sr_laws_audit.specs.Lists.{ListsEachOnce, ListsAsFiguresSay};
ghost use Rattle.sr_laws_audit.specs.Outcomes.{EachNumberIsTold, EachBreakIsTold};
ghost use Rattle.sr_laws_audit.specs.Records.{RecordsHaveNoRepeat, RecordsHaveNoLoss, RecordsLackNoNumber, RingRecordsLackNoNumber};
ghost use Rattle.sr_laws_audit.specs.Sources.{AuditsCountEachNumber, WholeAuditsTellNoFault};
ghost use Rattle.sr_laws_audit.specs.Steady.{SteadyAuditsCountWhatGoesUp};

/// In every steady run from the empty table, of a source that makes no jump, the pairs, the frames that one side lost and those at the
/// edges are as many as the frames of the source that go up to the host; and those that came by both sides, or by one alone, are as many
/// as those that were noted on the lanes of both, or of that one alone. Each frame that went up came by a side exactly where it was noted
/// on the lane of that side.
///
/// The table takes the arrivals that the audit counts, by a clock of whole milliseconds, and notes each for the host and at its side. A
/// source is silent for 400 ms by both clocks, or by neither. Where it goes on behind a silence, with a number 1 to 1023 ahead, the run
/// numbers it on too.
pub fn steady_audits_count_what_goes_up()
    ensures { SteadyAuditsCountWhatGoesUp }
{}

/// Of whatever arrivals of a source, each number of a stretch, from the least to the greatest, has one outcome: its frame came by both
/// sides, by one alone while the capture of the other side ran, by one alone while that did not, or by none. Each figure is how many
/// numbers have its outcome, so that a number between the first and the last of a stretch, of which neither side has a copy, is counted.
pub fn each_number_is_told()
    ensures { EachNumberIsTold }
{}

/// Of whatever arrivals of a source, no figure counts what lies between two stretches; but the stretches behind the first one are as many
/// as the jumps and the restarts that are told.
pub fn each_break_is_told()
    ensures { EachBreakIsTold }
{}

/// Of whatever copies a listing took, all that it listed of a source, with what it lists at the end of that, if no other was ended before,
/// are the lines of the source's numbers, each once: a frame that came by both sides as a pair, one that came by one side alone as lost, if it came while the capture of
/// the other side ran, and a number of no frame as that. Times and packets are those of first copies. Nothing is listed of a source that is
/// not one of the 512 from the first one on.
pub fn each_number_is_listed_once()
    ensures { ListsEachOnce }
{}

/// So of a source that is listed there are as many pairs, frames that one side lost and numbers of no frame among the lines as its figures
/// say.
pub fn lists_are_as_long_as_figures_say()
    ensures { ListsAsFiguresSay }
{}

/// Of the copies of a source's frames that two recorders have, with a true numbering, no copy is told as a repeat, no pair as 400 ms
/// apart, and no jump or restart.
///
/// The frames are sent in the order of their numbers, and pass a recorder less than 400 ms behind that. Each copy came once, in order of
/// time, and its number lies less than 1024 from the greatest one that came before.
pub fn records_have_no_repeat()
    ensures { RecordsHaveNoRepeat }
{}

/// If moreover each recorder has each frame that passes it while it runs, and each frame goes past both, no frame is told as lost by a
/// side, where the parts of the captures that are judged lie so far from what is not recorded as the frames pass behind their sending.
pub fn records_have_no_loss()
    ensures { RecordsHaveNoLoss }
{}

/// If moreover the source numbers its frames one apart, they pass each recorder in that order, and both run together for so long, no
/// number is told as one of no frame.
pub fn records_lack_no_number()
    ensures { RecordsLackNoNumber }
{}

/// So it is where each frame goes past one recorder at least, as in a ring one to a single address does: if both run from one time to
/// another, near which no frame passes them.
pub fn ring_records_lack_no_number()
    ensures { RingRecordsLackNoNumber }
{}

/// The figures of each source that an audit has count each number of its stretches by its outcome, of up to 2^53 arrivals of the source.
pub fn audits_count_each_number()
    ensures { AuditsCountEachNumber }
{}

/// Where each source has a true numbering, each of its frames goes past both recorders, and each recorder has all that passes it while it
/// runs, no figure of any source tells of a fault, where the captures are judged but for their edges.
pub fn whole_audits_tell_no_fault()
    ensures { WholeAuditsTellNoFault }
{}

/// Three frames that pass two recorders, of which one begins behind the first frame, meet all that the laws of records ask for.
pub fn three_frames_meet_the_premises()
    ensures { ThreeFramesMeetThePremises }
{}

/// Three frames of a ring, two of which pass one recorder alone, meet what the law of rings asks for.
pub fn ring_frames_meet_the_premises()
    ensures { RingFramesMeetThePremises }
{}

/// Of the copies of the first three without one of them, a frame is told as lost by a side; without both of a frame, a number as one of no frame; and
/// with one that came twice, a repeat.
pub fn what_is_lost_is_told()
    ensures { TellsWhatIsLost }
{}

/// The lines of a list of copies worked out: a pair, a frame that one side lost, a number of no frame, and none of a frame at the edge of a
/// capture. A repeat changes no line, a late copy makes a pair of a lost frame, and a source that is not listed has no line.
pub fn worked_lines_are_told()
    ensures { ListsAsWorkedOut }
{}

/// The figures of a source, of an audit that has each, are a function of its arrivals and of when the captures run.
pub fn figures_are_by_arrivals()
    ensures { FiguresAreByArrivals }
{}

/// Some source of such an audit passes a test of figures exactly where the source of some arrival does, by its arrivals alone.
pub fn tests_are_by_arrivals()
    ensures { TestsAreByArrivals }
{}
