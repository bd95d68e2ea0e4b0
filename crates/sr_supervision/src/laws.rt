//! Laws about supervision frames.

ghost use Rattle.std.specs.Prelude.{◌≡◌, List, ℕ};
ghost use Rattle.sr_supervision.specs.Supervised.{IsSupervision};
ghost use Rattle.sr_supervision.specs.declared.message.Supervision.{Supervision};

/// A list of octets says one thing at most.
pub fn supervisions_are_unique()
    ensures { (octets : List ℕ) (s t : Supervision) → IsSupervision octets s
        → IsSupervision octets t → s ≡ t }
{}
