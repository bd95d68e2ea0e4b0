//! Laws over all runs of a node.

ghost use Rattle.sr_laws_node.specs.NodeLaws.{EachTurn, EachOnce};
ghost use Rattle.sr_laws_node.specs.Emptying.{EmptiesNodes, EmptiesOutlets, TakesWhatWaits};
ghost use Rattle.sr_laws_node.specs.AnyRuns.{GoesWhereWanted, UnknownGoesEverywhere, HostGoesEverywhere, NetworksGetNumbers, NumbersCount, PairsOfAll};
ghost use Rattle.sr_laws_node.specs.SteadyExamples.{AreSteadyAtNodes, OriginsAreSteady};
ghost use Rattle.sr_laws_node.specs.Written.{WhatGoesOutIsWritten};
ghost use Rattle.sr_laws_node.specs.Alarms.{AlarmsAreOfWhatCameIn};
ghost use Rattle.sr_laws_node.specs.Heard.{TellsWhatItHeard, HappensOneWay};

use sr_forwarding::what_is_wanted_is_written;
use sr_laws_dup::{each_pair_is_new_after_a_start, starts_are_steady};
use sr_laws_node_table::{alarms_are_of_what_was_heard, nodes_are_those_that_are_heard};
use sr_node_table::status_is_of_hearings;
use sr_supervision::supervisions_are_unique;

/// In every steady run of a new node, what was taken at an outlet, followed by what waits there, is in order all that its
/// ports brought and its role wants there, each pair of source and number once.
///
/// So it is in every steady run of a node that was resumed with a table, where the pairs of that table, those of the node's
/// own address apart, stand before the run, each at the time of its source: each bars its frame from the outlets on whose lane
/// it is noted, and goes out itself at none.
pub fn each_frame_goes_out_once()
    ensures turns { EachTurn }
    ensures once { EachOnce }
    ensures up { PairsOfAll }
{
    each_pair_is_new_after_a_start();
    starts_are_steady();
}

/// What waits at an outlet, or at all of them, can be taken out parcel by parcel: these takes are turns of the run, after
/// which nothing waits there, and what was taken out there grew by what waited.
pub fn what_waits_can_be_taken()
    ensures outlets { EmptiesOutlets }
    ensures nodes { EmptiesNodes }
    ensures taken { TakesWhatWaits }
{}

/// In every run, steady or not, what goes out at an outlet came in with that event and is wanted there.
pub fn nothing_goes_where_it_is_not_wanted()
    ensures { GoesWhereWanted }
{}

/// In every run, a frame of which the node can tell nothing goes to all outlets that want it.
pub fn what_a_node_cannot_tell_goes_everywhere()
    ensures { UnknownGoesEverywhere }
{}

/// In every run, a frame of the host and a life check go to all outlets that want them, under the node's next number.
pub fn what_the_host_sends_goes_everywhere()
    ensures everywhere { HostGoesEverywhere }
    ensures numbers { NumbersCount }
{}

/// Numbers of one source that are steady at a table are steady at every node that begins with nothing of that source, of a
/// PRP network or of a ring, by whatever of its two ports each copy comes in. What a node begins with is steady by itself.
pub fn steady_numbers_are_steady_at_nodes()
    ensures numbers { AreSteadyAtNodes }
    ensures origins { OriginsAreSteady }
{
    starts_are_steady();
}

/// In every run in which what comes in is what a framing can read, each parcel that goes to a network, which is each but
/// those for the host, has a number: so a tag or a trailer can be written for it.
pub fn what_goes_to_the_networks_has_a_number()
    ensures { NetworksGetNumbers }
{}

/// In every run in which what comes in is read by the framings of the role's ports, all that goes out is written by the
/// framing of its port, a failed allocation apart.
pub fn what_goes_out_is_written()
    ensures { WhatGoesOutIsWritten }
{
    what_is_wanted_is_written();
}

/// In every run, what the node tells of an address is what its hearings in that run say since its last silence: per port
/// the latest time and the last number, and the last announcement. A frame with a number at A or B is a hearing of its
/// source, unless the role owns that, and of the node of which it speaks, unless that is this one.
pub fn status_is_of_what_was_heard()
    ensures tells { TellsWhatItHeard }
    ensures one { HappensOneWay }
{
    status_is_of_hearings();
    supervisions_are_unique();
}

/// In every run, the node has the latest 64 of the alarms that its hearings and ticks raised, the oldest first. It tells of
/// exactly the addresses of which a kept hearing is less than 60000 ms old, and lists them in the order in which their
/// entries were made. Each tick is a prune. Which hearings are kept, and when each alarm is raised, is told by
/// `sr_laws_node_table`.
pub fn alarms_are_of_what_came_in()
    ensures { AlarmsAreOfWhatCameIn }
{
    alarms_are_of_what_was_heard();
    nodes_are_those_that_are_heard();
}
