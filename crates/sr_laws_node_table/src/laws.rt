//! Laws over runs of the table: lists of hearings and prunes from the empty table on, in the order of their times.

ghost use Rattle.sr_laws_node_table.specs.Examples.{AreWorkedOut};
ghost use Rattle.sr_laws_node_table.specs.FullExample.{FullIsWorkedOut};
ghost use Rattle.sr_laws_node_table.specs.TableLaws.{AlarmsAreTheLatest, AnswersAreOfKept, EachEventAddsItsAlarms, EntriesAreDistinct, EntriesAreOfKept, EntryIsOfKept, FullWhereOthersAreLive, HearingsAreKept, ListIsOfKept, NodeDownsAreExact, RingErrorsAreExact, StatusIsOfKept};

use sr_node_table::status_is_of_hearings;

/// In every run, a hearing is kept unless 1024 other addresses are live: unless of each of these a kept hearing is less
/// than 60000 ms old. Then it is answered `Full`, and nothing is kept of it. One of a live address is answered `Known`, and
/// one that begins a life `New`.
pub fn hearings_are_kept_where_there_is_room()
    ensures answers { AnswersAreOfKept }
    ensures full { FullWhereOthersAreLive }
    ensures kept { HearingsAreKept }
{}

/// In every run, an address is told of exactly where a kept hearing of it is less than 60000 ms old, and its status is what
/// its kept hearings say since its last silence.
///
/// An address has an entry where it was live when forgotten addresses were last removed, or was heard since. The list of
/// the live ones has the order in which their entries were made: one that is heard again after a silence keeps its entry,
/// and so its place, unless it was removed in between.
pub fn nodes_are_those_that_are_heard()
    ensures status { StatusIsOfKept }
    ensures list { ListIsOfKept }
    ensures entries { EntriesAreOfKept }
    ensures entry { EntryIsOfKept }
    ensures once { EntriesAreDistinct }
{
    status_is_of_hearings();
}

/// In every run, the alarms are the latest 64 of all that were raised, the oldest first: the 65th lets the oldest go.
///
/// An event raises `RingError` of a port exactly where it is a prune at which this port is late, and was not late at the
/// prune before. A port is late where its node was heard less than 4500 ms ago, and not at this port in the 3000 ms up to
/// its latest hearing. An event raises `NodeDown` exactly of the addresses whose entry it removes: a prune, and a hearing
/// that makes an entry where 1024 others have one, remove those that are not live.
pub fn alarms_are_of_what_was_heard()
    ensures latest { AlarmsAreTheLatest }
    ensures each { EachEventAddsItsAlarms }
    ensures ring_errors { RingErrorsAreExact }
    ensures node_downs { NodeDownsAreExact }
{}

/// Two runs worked out: a port that is late is told of once, and its node when it is silent; a node that is heard again after
/// a silence keeps its place, and no alarm is raised.
pub fn two_runs_are_worked_out()
    ensures { AreWorkedOut }
{}

/// A full table worked out: 1024 nodes are heard at time 0. Another one is refused at 59999. At 60000 it is taken, all of
/// them go, and the latest 64 of their alarms stand.
pub fn a_full_table_is_worked_out()
    ensures { FullIsWorkedOut }
{}
