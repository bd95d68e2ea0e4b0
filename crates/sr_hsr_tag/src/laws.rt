//! Laws about tagged frames.

ghost use Rattle.std.specs.Prelude.{◌≡◌, List, ℕ};
ghost use Rattle.sr_hsr_tag.specs.Tagged.{IsTagged, octets_behind_type};
ghost use Rattle.sr_hsr_tag.specs.declared.tag.HsrTag.{HsrTag};

/// A list of octets is a tagged frame in one way at most.
pub fn tags_are_unique()
    ensures { (octets plain others : List ℕ) (s t : HsrTag) → IsTagged octets plain s
        → IsTagged octets others t → (plain ≡ others) × (s ≡ t) }
{}

/// A frame and a tag with the right size have one spelling at most.
pub fn spellings_are_unique()
    ensures { (octets others plain : List ℕ) (t : HsrTag) → IsTagged octets plain t
        → IsTagged others plain t
        → t.size ≡ octets_behind_type octets → t.size ≡ octets_behind_type others
        → octets ≡ others }
{}
