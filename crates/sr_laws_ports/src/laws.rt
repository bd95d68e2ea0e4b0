//! The laws over runs of a node hold of histories that one thread could have made, and of what workers took out.

ghost use Rattle.sr_laws_ports.specs.JournalLaws.{HistoriesHaveTurns, HistoriesHappenOneWay, HistoriesAreRuns, SwapsAreTurns, SegmentsHaveTurns, SegmentsHappenOneWay, SegmentsAreRuns, EnteredOnce, EnteredOnceInAll};
ghost use Rattle.sr_laws_ports.specs.LogLaws.{LoggedOnce};

use sr_laws_node::each_frame_goes_out_once;
use sr_node::a_take_alone_is_answered_taken;
use sr_supervision::supervisions_are_unique;

/// A history that one thread could have made is one list of turns, whatever whole numbers its frames have, and on from a run
/// of a node it is a run. So is a role that is exchanged between two segments of which one follows the other.
pub fn histories_are_runs()
    ensures turns { HistoriesHaveTurns }
    ensures one { HistoriesHappenOneWay }
    ensures runs { HistoriesAreRuns }
    ensures swaps { SwapsAreTurns }
{
    supervisions_are_unique();
}

/// Segments are one list of turns, whatever whole numbers their frames have. Where none is torn and the first opens with a
/// new node, or with one that was resumed, they are one run of that node.
pub fn segments_are_runs()
    ensures turns { SegmentsHaveTurns }
    ensures one { SegmentsHappenOneWay }
    ensures runs { SegmentsAreRuns }
{
    supervisions_are_unique();
}

/// In every steady history from a new or resumed node on, in one segment or in several of which none is torn, what the entries
/// took at an outlet, followed by what waits there, is in order what went there, each pair of source and number once.
pub fn what_was_entered_goes_out_once()
    ensures one { EnteredOnce }
    ensures all { EnteredOnceInAll }
{
    each_frame_goes_out_once();
}

/// In every steady history from a node on, new or resumed, whose workers' logs settle, each of its own worker's events alone:
/// what the worker of a port took out, by its log, followed by what waits there, is in order what went there, each pair of source
/// and number once.
pub fn what_workers_took_out_goes_out_once()
    ensures { LoggedOnce }
{
    a_take_alone_is_answered_taken();
    what_was_entered_goes_out_once();
}
