//! Of which nodes coupled networks are made, worked out by the checker.

ghost use Rattle.std.specs.Prelude.{◌≡◌, true, false};
ghost use Rattle.sr_forwarding.specs.declared.kind.RoleKind.TheVariants.{Danh, Danp, Hsr, Prp, San};
ghost use Rattle.sr_forwarding.specs.declared.net_id.NetId.TheVariants.{One, Six, Two};
ghost use Rattle.sr_prp_trailer.specs.declared.trailer.Lan.TheVariants as lan;
ghost use Rattle.sr_tests_network.specs.Boxes.{join_lans, join_rings};

// A box of each LAN of one network joins a ring with these LANs, in either order, and nothing else does.
fn boxes_of_a_ring_with_two_lans()
    ensures both { join_lans (Prp lan.A One) (Prp lan.B One) ≡ true }
    ensures crossed { join_lans (Prp lan.B Six) (Prp lan.A Six) ≡ true }
    ensures one_lan { join_lans (Prp lan.A One) (Prp lan.A One) ≡ false }
    ensures two_networks { join_lans (Prp lan.A One) (Prp lan.B Two) ≡ false }
    ensures one_box { join_lans (Prp lan.A One) Danh ≡ false }
    ensures san { join_lans (Prp lan.A One) San ≡ false }
    ensures none { join_lans Danh Danh ≡ false }
{}

// As many boxes of the one ring as of the other, one or two, join them.
fn boxes_of_two_rings()
    ensures one { join_rings Hsr Danh Danh Hsr ≡ true }
    ensures two { join_rings Hsr Hsr Hsr Hsr ≡ true }
    ensures more_left { join_rings Hsr Hsr Hsr Danh ≡ false }
    ensures more_right { join_rings Danh Hsr Hsr Hsr ≡ false }
    ensures none { join_rings Danh Danh Danh Danh ≡ false }
    ensures lans { join_rings Hsr Danp Hsr Danh ≡ false }
{}
