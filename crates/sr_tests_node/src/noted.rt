//! On which lanes a frame is noted, worked out by the checker: what a node answers shows only some of them.

ghost use Rattle.std.specs.Prelude.{◌≡◌, ◌∷◌, []};
ghost use Rattle.sr_frame.specs.declared.ports.Port.TheVariants.{A, B};
ghost use Rattle.sr_dup_window.specs.declared.lane_sets.Lane.TheVariants as lane;
ghost use Rattle.sr_frame.specs.declared.ports.Port.TheVariants.{H};
ghost use Rattle.sr_forwarding.specs.Outlets.{to};
ghost use Rattle.sr_node.specs.Lanes.{lanes_noted};
ghost use Rattle.sr_tests_node.specs.Lanes.{listed};

// A frame for the host is noted on the host's lane, and on that which says by which port it came in.
fn lanes_of_a_frame_for_the_host()
    ensures at_a { listed (lanes_noted A (to (H ∷ []))) ≡ lane.H ∷ lane.GotA ∷ [] }
    ensures at_b { listed (lanes_noted B (to (H ∷ []))) ≡ lane.H ∷ lane.GotB ∷ [] }
{}
