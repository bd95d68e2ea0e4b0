//! Laws over all runs of a plant.

ghost use Rattle.sr_laws_plant_runs.specs.RunLaws.{RingsAreTold, TwinLansAreTold};
ghost use Rattle.sr_plant.specs.declared.topology.Topology.TheVariants.{Ring, TwinLan};
ghost use Rattle.sr_laws_plant_runs.specs.Sent.{HandsUpWhatOthersSent};
ghost use Rattle.sr_laws_plant_runs.specs.Once.{HandsUpEachOnce, HandsUpOnce};
ghost use Rattle.sr_laws_plant_runs.specs.NodeTurns.{NodesPutOutOnce, NodesRun};
ghost use Rattle.sr_laws_plant_runs.specs.NodeSteady.{NodesPutOutWithin, NodesRunSteadily};
ghost use Rattle.sr_laws_plant_runs.specs.Taken.{TakenRunsAreRuns};
ghost use Rattle.sr_laws_plant_runs.specs.Unbroken.{HandsUpAll, LossesAreDropsAndCuts};
ghost use Rattle.sr_laws_plant_runs.specs.OneHistory.{HaveOneHistory};
ghost use Rattle.sr_laws_plant_runs.specs.WorkedRun.{PremisesAreMet};

use sr_laws_node::{each_frame_goes_out_once, what_waits_can_be_taken};
use sr_laws_plant::{
    lans_are_steady, lans_hand_up_once, lans_hand_up_the_ideal, lans_lose_nothing,
    members_are_steady, ring_hands_up_once, ring_hands_up_the_ideal, ring_is_steady,
    ring_loses_nothing,
};

/// Over every list of events of a network of any topology, a node hands up nothing but what hosts of other nodes sent to it
/// or to a group: each frame as it was sent, padded, under the number that it was sent with.
///
/// Asked is only that the plant began with new nodes whose addresses have six octets, and where there are RedBoxes none is
/// a group's. Nothing is asked of numbers, times, losses or repeats.
pub fn only_what_others_sent_is_handed_up()
    ensures { HandsUpWhatOthersSent }
{}

/// Over every list of events of a ring that begins with new nodes, each with an address of its own that is no group's: the
/// run has a history by the whole numbers of its frames, with the same events, in which each parcel that a node handed up
/// shows, in order, a frame that the history hands up there; and each of these is ideal for the node: the host of another
/// node sent it to this one or to a group.
///
/// Where the traffic is within its limits, the run of each node is steady, with a number to spare, and no node hands up
/// two frames of one source and number. Where nothing is in flight besides, each frame that is ideal for a node, and for
/// which one of the two arcs from its source is whole, was handed up; where that is all of them, it is the ideal that the
/// node handed up.
///
/// The limits, by the plant's clock and the counts of what its nodes numbered, frames of hosts and life checks: each copy
/// is carried while its node has numbered fewer later frames than any node's table remembers numbers of a source (1024
/// where one is narrow, else 2048), and less than 400 ms after its frame was numbered; at no event a node has numbered
/// more frames less than 400 ms ago than 65536 less twice what any table remembers (61440 where one is wide, else 63488).
pub fn rings_hand_up_the_ideal()
    ensures { RingsAreTold }
{
    ring_hands_up_the_ideal();
    ring_is_steady();
    ring_hands_up_once();
    ring_loses_nothing();
}

/// What `rings_hand_up_the_ideal` says of a ring, over every list of events of two LANs. There a frame is whole for a node where
/// not all copies for it were lost in both LANs together.
pub fn twin_lans_hand_up_the_ideal()
    ensures { TwinLansAreTold }
{
    lans_hand_up_the_ideal();
    lans_are_steady();
    lans_hand_up_once();
    lans_lose_nothing();
}

/// A run has one history. Two that tell the same run are equal: they give each frame the same whole number, they lose and
/// bring the same copies at each event, and the same copies are in flight at the end.
pub fn a_run_has_one_history()
    ensures { HaveOneHistory }
{}

/// In no run of a network, of any topology, a copy is refused where it comes in: not for its octets, not for want of a number, not by a full
/// table. So a copy is lost by nothing else than that it was dropped, was put on a link that is cut, or was on a link when it was cut.
pub fn losses_are_drops_and_cuts()
    ensures { LossesAreDropsAndCuts }
{}

/// In every run of a ring or of two LANs, within the limits, in which no copy is dropped and no link is cut, and at whose end nothing
/// is in flight: each frame that a host sent was handed up, padded, under the number that it was sent with, at each other node for
/// which it is meant, alone or among a group. Supervision is not handed up.
pub fn an_unbroken_network_hands_up_all()
    ensures ring { HandsUpAll Ring }
    ensures lans { HandsUpAll TwinLan }
{
    rings_hand_up_the_ideal();
    twin_lans_hand_up_the_ideal();
}

/// In every run of a ring or of two LANs within the limits, whatever is lost, cut or repeated: each parcel that a node handed up is of
/// one send of a host, and no two are of one send.
pub fn no_send_is_handed_up_twice()
    ensures ring { HandsUpOnce Ring }
    ensures lans { HandsUpOnce TwinLan }
{
    ring_hands_up_the_ideal();
    ring_hands_up_once();
    lans_hand_up_the_ideal();
    lans_hand_up_once();
}

/// In every run of a ring or of two LANs within the limits in which no copy is dropped and no link is cut, and at whose end nothing is
/// in flight: each frame that a host sent was handed up exactly once at each other node for which it is meant, supervision apart, and
/// nothing else was handed up.
pub fn an_unbroken_network_hands_up_each_once()
    ensures ring { HandsUpEachOnce Ring }
    ensures lans { HandsUpEachOnce TwinLan }
{
    ring_hands_up_the_ideal();
    ring_hands_up_once();
    ring_loses_nothing();
    lans_hand_up_the_ideal();
    lans_hand_up_once();
    lans_lose_nothing();
}

/// Where what nodes handed up is taken away after each event, as the program does, all that was ever handed up is what a run with the
/// same events hands up in which nothing is taken away. So each law here is one of it.
pub fn runs_with_all_taken_are_runs()
    ensures { TakenRunsAreRuns }
{}

/// In every run of a network, of any topology, what happens at a node is a run of that node, from its own start on: the frames of
/// its host, its ticks, the copies that it takes, and after each the takes of all that waits. So each law of runs of a node
/// holds of each node of a network.
pub fn what_happens_at_a_node_is_a_run()
    ensures { NodesRun }
{
    what_waits_can_be_taken();
}

/// Where the traffic is within the limits, that run is steady at the width of the node's table: under the whole numbers of the frames that the copies carry, as
/// the run of the network counts them.
pub fn each_node_runs_steadily()
    ensures { NodesRunSteadily }
{
    members_are_steady();
}

/// What a node put out at an outlet in the whole run of the network is, in order, what came in and is wanted there, each pair of
/// source and number once: under all numbers that make its run steady, and so wherever the traffic is within the limits.
pub fn each_node_puts_out_each_frame_once()
    ensures steady { NodesPutOutOnce }
    ensures within { NodesPutOutWithin }
{
    what_waits_can_be_taken();
    each_frame_goes_out_once();
    each_node_runs_steadily();
}

/// The premises of the laws of networks can be met by real nodes. In two LANs of two nodes a host sends a frame, and both copies
/// are carried: the traffic is within the limits, nothing is dropped or cut, nothing is in flight at the end, and the other host
/// was handed that frame, padded, under the first number, once. So it is for every mixture of modes and of widths of tables.
pub fn two_nodes_meet_all_premises()
    ensures { PremisesAreMet }
{}
