//! Laws over all runs of coupled networks.

ghost use Rattle.sr_laws_coupled_runs.specs.CoupledLaws.{RingLansAreTold, TwoRingsAreTold};
ghost use Rattle.sr_laws_coupled_runs.specs.NoneBack.{NoneGoesBackInto};
ghost use Rattle.sr_plant.specs.declared.shapes.RingLanShape.{RingLanShape};
ghost use Rattle.sr_plant.specs.declared.shapes.TwoRingsShape.{TwoRingsShape};
ghost use Rattle.sr_plant.specs.declared.topology.Topology.TheVariants.{RingLan, TwoRings};
ghost use Rattle.sr_laws_plant_runs.specs.Once.{HandsUpEachOnce, HandsUpOnce};

use sr_laws_plant::{
    a_lossless_ring_lan_hands_up_the_ideal, lossless_two_rings_hand_up_the_ideal,
    members_are_steady, no_frame_goes_back, ring_lan_hands_up_the_ideal, ring_lan_loses_nothing,
    two_rings_lose_nothing, whole_chains_bring_frames,
};

/// Over every list of events of a ring with two LANs that begins with new nodes, each with an address of its own that is no
/// group's: the run has a history by the whole numbers of its frames, with the same events, in which each parcel that a
/// node handed up shows, in order, a frame that the history hands up there; and each of these is ideal for the node: the
/// host of another node, of the ring or of the LANs, sent it to this one or to a group. No frame that a node of the LANs
/// numbered is put into a LAN by a RedBox.
///
/// Where the traffic is within its limits, the run of each node is steady, with a number to spare, and no node hands up
/// two frames of one source and number. Where nothing is in flight besides, each frame that is ideal for a node, and to
/// which a way from its source is whole, was handed up, however often the way changes between ring and LANs; where that is
/// all of them, it is the ideal that the node handed up. The limits are those of a ring, with the narrowest and the widest
/// table of all nodes.
pub fn ring_lans_hand_up_the_ideal()
    ensures { RingLansAreTold }
{
    ring_lan_hands_up_the_ideal();
    members_are_steady();
    ring_lan_loses_nothing();
    whole_chains_bring_frames();
    no_frame_goes_back();
}

/// What `ring_lans_hand_up_the_ideal` says of a ring with two LANs, over every list of events of two rings that one or two
/// joins of RedBoxes join.
pub fn two_rings_hand_up_the_ideal()
    ensures { TwoRingsAreTold }
{
    sr_laws_plant::two_rings_hand_up_the_ideal();
    members_are_steady();
    two_rings_lose_nothing();
}

/// In every run of a ring with two LANs or of two rings within the limits, whatever is lost, cut or repeated: each parcel
/// that a node handed up is of one send of a host, and no two are of one send.
pub fn coupled_networks_hand_up_no_send_twice()
    ensures ring_lans { (s : RingLanShape) → HandsUpOnce (RingLan s) }
    ensures two_rings { (s : TwoRingsShape) → HandsUpOnce (TwoRings s) }
{
    ring_lan_hands_up_the_ideal();
    ring_lan_loses_nothing();
    sr_laws_plant::two_rings_hand_up_the_ideal();
    two_rings_lose_nothing();
}

/// In every run of a ring with two LANs or of two rings within the limits in which no copy is dropped and no link is cut, and
/// at whose end nothing is in flight: each frame that a host sent was handed up exactly once at each other node for which
/// it is meant, supervision apart, and nothing else was handed up. So it is in whichever modes and of whichever widths.
pub fn an_unbroken_coupled_network_hands_up_each_once()
    ensures ring_lans { (s : RingLanShape) → HandsUpEachOnce (RingLan s) }
    ensures two_rings { (s : TwoRingsShape) → HandsUpEachOnce (TwoRings s) }
{
    ring_lan_hands_up_the_ideal();
    ring_lan_loses_nothing();
    a_lossless_ring_lan_hands_up_the_ideal();
    sr_laws_plant::two_rings_hand_up_the_ideal();
    two_rings_lose_nothing();
    lossless_two_rings_hand_up_the_ideal();
}

/// In every run of a ring with two LANs, whatever a RedBox puts into a LAN was numbered by a node of the ring. So no frame of
/// a node of the LANs goes back into a LAN.
pub fn no_frame_goes_back_into_a_lan()
    ensures { NoneGoesBackInto }
{}
