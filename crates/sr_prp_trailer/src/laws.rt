//! Laws about frames with a trailer.

ghost use Rattle.std.specs.Prelude.{◌≡◌, List, ℕ};
ghost use Rattle.sr_prp_trailer.specs.Trailed.{IsTrailed};
ghost use Rattle.sr_prp_trailer.specs.declared.trailer.Trailer.{Trailer};

/// A list of octets is a frame with a trailer in one way at most.
pub fn trailers_are_unique()
    ensures { (octets plain others : List ℕ) (s t : Trailer)
        → IsTrailed octets plain s → IsTrailed octets others t → (plain ≡ others) × (s ≡ t) }
{}
