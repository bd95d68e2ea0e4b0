//! Laws of roles as members, and of frames that cross between networks.

ghost use Rattle.sr_laws_box.specs.Crossings.{LanToRing, NewInLan, NewInRing, PaddedOnce, RingToLan, StaysTagged};
ghost use Rattle.sr_laws_box.specs.Members.{DanhsAreMembers, DanpsAreMembers, HsrBoxesAreMembers, PrpBoxesAreMembers};

/// A doubly attached node of a ring wants each frame where the table of the laws says.
pub fn danhs_are_members()
    ensures { DanhsAreMembers }
{}

/// A doubly attached node of two LANs wants each frame where the table of the laws says.
pub fn danps_are_members()
    ensures { DanpsAreMembers }
{}

/// A RedBox between a ring and a LAN of a PRP network wants each frame where the table of the laws says: into its LAN goes
/// what a node of the ring numbered, and nothing that a node of the LANs did.
///
/// Premise: the path of a frame in the ring names the box's network exactly where a node of the LANs numbered it.
pub fn prp_boxes_are_members()
    ensures { PrpBoxesAreMembers }
{}

/// A RedBox between two rings wants each frame where the table of the laws says, whatever its path.
pub fn hsr_boxes_are_members()
    ensures { HsrBoxesAreMembers }
{}

/// A frame that its node numbered is read in the ring as that frame, padded, under its number, with the path of the outlet.
pub fn new_frames_are_read_in_rings()
    ensures { NewInRing }
{}

/// A frame that its node numbered is read in a LAN as that frame, padded, under its number, with the path of the port.
pub fn new_frames_are_read_in_lans()
    ensures { NewInLan }
{}

/// What has a tag goes out with a tag as the octets that came in: round a ring, and over the interlink of two rings. So
/// plain form, number and path are read again.
pub fn tagged_frames_stay_as_they_are()
    ensures { StaysTagged }
{}

/// A frame that a RedBox puts from a LAN into its ring is read there as the same frame, padded, under the same number, and its
/// path names the LAN and the network.
pub fn frames_cross_from_lan_to_ring()
    ensures { LanToRing }
{}

/// A frame that a RedBox puts from its ring into a LAN is read there as the same frame, padded, under the same number.
pub fn frames_cross_from_ring_to_lan()
    ensures { RingToLan }
{}

/// A frame that is padded stays as it is where it is padded again: so it keeps its octets each time that it crosses.
pub fn padding_is_done_once()
    ensures { PaddedOnce }
{}
