//! Each law has a run that is worked out.

ghost use Rattle.sr_laws_network_cases.specs.CutRing.{CutRingsMeetThePremises};
ghost use Rattle.sr_laws_network_cases.specs.CutNetworks.{CutLansMeetThePremises, CutRingLansMeetThePremises, CutTwoRingsMeetThePremises};

/// The premises of the laws of rings can be met by real nodes also where a copy is lost. In a ring of two nodes a link is cut, a host sends
/// a frame, and the copy that goes the other way is carried: the traffic is within the limits, nothing is in flight at the end, and the
/// other host was handed that frame, padded, under the first number, once. So it is for every mixture of modes and of widths of tables.
pub fn a_cut_ring_of_two_meets_the_premises()
    ensures { CutRingsMeetThePremises }
{}

/// The premises of the laws of two LANs can be met by real nodes also where a copy is lost. Of two nodes one is cut off LAN A, and its host
/// sends the other a frame: the copy over LAN B is carried, and was handed up once. So it is for every mixture of modes and of widths.
pub fn a_cut_lan_of_two_meets_the_premises()
    ensures { CutLansMeetThePremises }
{}

/// The premises of the laws of a ring with LANs can be met by real nodes also where copies are lost. A node of the LANs is cut off LAN A, and the boxes from each other; its host sends a frame to a node of
/// the ring. One copy comes over LAN B to the box there, and one from the box to that node, whose host was handed the frame once. So it is
/// for every mixture of modes and of widths.
pub fn a_cut_ring_with_lans_meets_the_premises()
    ensures { CutRingLansMeetThePremises }
{}

/// The premises of the laws of two rings can be met too. A link of each is cut, and a host of one sends a frame to one of the other: it comes to the box, over the
/// join and to the receiver, one copy each time, and was handed up once. So it is for every mixture of modes and of widths.
pub fn two_cut_rings_meet_the_premises()
    ensures { CutTwoRingsMeetThePremises }
{}
