//! Laws over every list of events of a plant.

ghost use Rattle.sr_laws_plant.specs.CoupledExample.{CutJoinedRingLosesNothing, CutLanLosesNothing};
ghost use Rattle.sr_laws_plant.specs.Examples.{CopiesStopInModeX, CutRingLosesNothing, LostCopyLosesNothing};
ghost use Rattle.sr_laws_plant.specs.LanLaws.{ExactLansLoseNothing, LansAreSteady, LansHandUpOnce, LansHandUpTheIdeal, LansLoseNothing};
ghost use Rattle.sr_laws_plant.specs.LanWays.{WholeChainsBring};
ghost use Rattle.sr_laws_plant.specs.Lossless.{LosslessRingLanIsIdeal, LosslessTwoRingsAreIdeal};
ghost use Rattle.sr_laws_plant.specs.PlantEvents.{CopiesAreAccountedFor, CutLinksCarryNothing};
ghost use Rattle.sr_laws_plant.specs.RingLaws.{ExactRingLosesNothing, RingHandsUpOnce, RingHandsUpTheIdeal, RingIsSteady, RingLosesNothing};
ghost use Rattle.sr_laws_plant.specs.RingLans.{NoneGoesBack, RingLanHandsUpTheIdeal, RingLanLosesNothing};
ghost use Rattle.sr_laws_plant.specs.RingParts.{WholeArcsBring};
ghost use Rattle.sr_laws_plant.specs.TwoRings.{JoinsLeadOver, TwoRingsHandUpTheIdeal, TwoRingsLoseNothing};
ghost use Rattle.sr_laws_plant.specs.Steadiness.{MembersAreSteady};
ghost use Rattle.sr_laws_plant.specs.Ways.{BoxSends, WholeWaysBring};

/// In every plant each copy that was made is in flight, or was lost, or came in at its member, and there are no others.
pub fn copies_are_accounted_for()
    ensures { CopiesAreAccountedFor }
{}

/// In every plant no copy in flight is on a link that is cut: what is put on it is lost, and what was on it when it was
/// cut.
pub fn cut_links_carry_nothing()
    ensures { CutLinksCarryNothing }
{}

/// The run of each member is steady, and of the 65536 numbers that may come next the last never does.
///
/// Premises: no two members have one address (addressed). Each copy comes in while its source has numbered fewer than
/// 1024 later frames (early), and less than 400 ms after its frame was sent (young). No member numbers more than 63488
/// frames in 400 ms (few sent).
pub fn members_are_steady()
    ensures { MembersAreSteady }
{}

/// Over every list of events of a ring the run of each member is steady, under the same premises.
pub fn ring_is_steady()
    ensures { RingIsSteady }
{}

/// Over every list of events of a ring a member hands up nothing but what is ideal for it: frames that hosts of other
/// members sent to it or to a group.
///
/// Premise: each frame is for one member or for a group, so that members have addresses of their own and none of a group
/// (addressed). Nothing is asked of numbers, times, losses or repeats.
pub fn ring_hands_up_the_ideal()
    ensures { RingHandsUpTheIdeal }
{}

/// Over every list of events of a ring each member hands up each frame once at most.
///
/// Premises: members are addressed and have tables of duplicate records, and what comes in is early and young, and few
/// frames are sent.
pub fn ring_hands_up_once()
    ensures { RingHandsUpOnce }
{}

/// Over every list of events of a ring, with nothing in flight: each frame that is ideal for a member, and for which
/// one of the two arcs from its source is whole, was handed up there; where that is all of them, it is the ideal that
/// the member handed up. From whichever member has a frame at the first link, a whole arc brings it to its end.
///
/// The premises are those of [`ring_hands_up_once`].
pub fn ring_loses_nothing()
    ensures { RingLosesNothing }
{}

/// What `ring_loses_nothing` says, of members that do not send back at further ports what came in there. In place of tables and of premises on
/// traffic the law of one node is asked: what comes in goes to each outlet that wants it, unless an earlier copy was
/// wanted there, or came in there and does not go back.
pub fn ring_loses_nothing_with_more_bars()
    ensures { ExactRingLosesNothing }
{}

/// Over every list of events of two LANs the run of each member is steady, under the premises of
/// [`members_are_steady`].
pub fn lans_are_steady()
    ensures { LansAreSteady }
{}

/// Over every list of events of two LANs a member hands up nothing but what is ideal for it, with nothing asked of
/// numbers, times, losses or repeats.
pub fn lans_hand_up_the_ideal()
    ensures { LansHandUpTheIdeal }
{}

/// Over every list of events of two LANs each member hands up each frame once at most, under the premises of
/// [`ring_hands_up_once`].
pub fn lans_hand_up_once()
    ensures { LansHandUpOnce }
{}

/// Over every list of events of two LANs, with nothing in flight: each frame that is ideal for a member, and of which
/// not all copies for that member were lost in both LANs together, was handed up there; where that is all of them, it is
/// the ideal that the member handed up. Whichever member put the copies out, one of them came in.
///
/// The premises are those of [`ring_hands_up_once`].
pub fn lans_lose_nothing()
    ensures { LansLoseNothing }
{}

/// What `lans_lose_nothing` says, of members that do not send back at further ports what came in there, as in
/// [`ring_loses_nothing_with_more_bars`].
pub fn lans_lose_nothing_with_more_bars()
    ensures { ExactLansLoseNothing }
{}

/// In any plant with nothing in flight, round any part of it that is a ring: from whichever member has a frame at the
/// first link, source or box, an arc that is whole brings it to its end, or to the one member for which it is meant.
pub fn whole_arcs_bring_frames()
    ensures { WholeArcsBring }
{}

/// In any plant with nothing in flight: over every way that is whole, round rings and over the interlinks of boxes, a
/// frame reaches the way's end, or the one member for which it is meant.
pub fn whole_ways_bring_frames()
    ensures { WholeWaysBring }
{}

/// The table of routes of a box between two rings sends round and over what the law of ways asks.
pub fn boxes_send_round_and_over()
    ensures { BoxSends }
{}

/// An example that computes: in a ring of three with a cut link a frame for all goes the other way round, and both other
/// members hand it up. All premises of [`ring_loses_nothing`] hold of it.
pub fn a_cut_ring_loses_nothing()
    ensures { CutRingLosesNothing }
{}

/// An example that computes: of two LANs one loses a copy and brings another; each of two members hands the frame up
/// once. All premises of [`lans_lose_nothing`] hold of it.
pub fn a_lost_copy_loses_nothing()
    ensures { LostCopyLosesNothing }
{}

/// An example that computes: a ring of three in mode X, in which each of two members gets the frame from both sides, and
/// hands it up once; neither sends the second copy on to the member that sent the first. All premises of
/// [`ring_loses_nothing`] hold of it.
pub fn copies_stop_in_mode_x()
    ensures { CopiesStopInModeX }
{}

/// In a ring with two boxes of one PRP network, over every list of events: no frame that a node of the LANs numbered is put
/// into a LAN by a box.
pub fn no_frame_goes_back()
    ensures { NoneGoesBack }
{}

/// Over every list of events of a ring coupled with two LANs a member hands up nothing but what is ideal for it.
pub fn ring_lan_hands_up_the_ideal()
    ensures { RingLanHandsUpTheIdeal }
{}

/// Over every list of events of a ring coupled with two LANs each member hands up each frame once at most; and with nothing
/// in flight, each frame that is ideal for it and for which a way is whole.
pub fn ring_lan_loses_nothing()
    ensures { RingLanLosesNothing }
{}

/// Over every list of events of two rings that are joined by boxes a member hands up nothing but what is ideal for it.
pub fn two_rings_hand_up_the_ideal()
    ensures { TwoRingsHandUpTheIdeal }
{}

/// Over every list of events of two rings that are joined by boxes each member hands up each frame once at most; and with
/// nothing in flight, each frame that is ideal for it and for which a way is whole.
pub fn two_rings_lose_nothing()
    ensures { TwoRingsLoseNothing }
{}

/// Each interlink of two rings leads over both ways, where it is open.
pub fn joins_lead_over()
    ensures { JoinsLeadOver }
{}

/// Over every list of events of a ring coupled with two LANs, with nothing in flight: over every chain of arcs and LANs each
/// of which is whole, from its source to a member for which it is ideal, a frame was handed up there, however often the
/// chain changes between ring and LANs.
///
/// The premises are those of [`ring_hands_up_once`], with the narrowest and the widest table.
pub fn whole_chains_bring_frames()
    ensures { WholeChainsBring }
{}

/// Over every list of events of a ring coupled with two LANs, with nothing in flight, in which no copy was lost: what each
/// member handed up is what is ideal for it.
///
/// The premises are those of [`whole_chains_bring_frames`].
pub fn a_lossless_ring_lan_hands_up_the_ideal()
    ensures { LosslessRingLanIsIdeal }
{}

/// What [`a_lossless_ring_lan_hands_up_the_ideal`] says, of two rings that have a join.
pub fn lossless_two_rings_hand_up_the_ideal()
    ensures { LosslessTwoRingsAreIdeal }
{}

/// An example that computes: a ring with two RedBoxes and two LANs, of which a node of the LANs has one link cut; its frame
/// reaches a node of the ring through the other LAN. All premises of [`ring_lan_loses_nothing`] hold of it.
pub fn a_cut_lan_loses_nothing()
    ensures { CutLanLosesNothing }
{}

/// An example that computes: two rings with one join, of which one has a cut link; a frame of one ring reaches a node of the
/// other. All premises of [`two_rings_lose_nothing`] hold of it.
pub fn a_cut_joined_ring_loses_nothing()
    ensures { CutJoinedRingLosesNothing }
{}
