//! What is known of a packet that came in, but its octets.

ghost use Rattle.std.specs.Prelude.{◌≡◌};
ghost use Rattle.sr_merge.specs.Merging.{is_same_side, frame_at};

use sr_audit::Side;
use sr_frame::Mac;
use sr_sequence::Seq;
use std::hash::{Hash, Hasher};

/// What the copies of a frame have in common.
#[derive(Clone, Copy, Debug)]
pub struct FrameId {
    /// The source of the frame.
    pub src: Mac,
    /// The number that its source gave it.
    pub seq: Seq,
}

/// Where and when a packet came in, and of which frame it is a copy.
#[derive(Clone, Copy, Debug)]
pub struct Came {
    /// When it came, in nanoseconds from the earliest packet on. No time goes back.
    pub time: u64,
    /// The frame that it is a copy of. None: it has no number.
    pub frame: Option<FrameId>,
    /// The side by which it came.
    pub side: Side,
}

/// What the copies of a frame have in common that come by one side.
#[derive(Clone, Copy, Debug)]
pub(crate) struct FrameAt {
    pub frame: FrameId,
    pub side: Side,
}

/// Whether two sides are one.
fn is_same_side(own: Side, other: Side) -> bool
    ensures { result ≡ is_same_side own other }
{
    match (own, other) {
        (Side::A, Side::A) | (Side::B, Side::B) => true,
        (Side::A, Side::B) | (Side::B, Side::A) => false,
    }
}

impl PartialEq for FrameAt {
    ghost use Rattle.sr_merge.specs.KeyLemmas.{at_partial_laws};
    ghost use Rattle.sr_merge.specs.Merging.{at_eq};

    ghost eq = { at_eq };

    ghost laws = { at_partial_laws };

    fn eq(&self, other: &FrameAt) -> bool {
        self.frame.src == other.frame.src
            && (self.frame.seq.0 == other.frame.seq.0 && is_same_side(self.side, other.side))
    }
}

impl Eq for FrameAt {
    ghost use Rattle.sr_merge.specs.KeyLemmas.{at_laws};

    ghost laws = { at_laws };
}

// The eight octets of the address and the number: they are all that the keyed hasher keeps. A frame has two sides at most.
impl Hash for FrameAt {
    ghost use Rattle.std.specs.Prelude.{◌∷◌, []};
    ghost use Rattle.std.specs.Int.{w16, to_be_bytes};
    ghost use Rattle.sr_merge.specs.KeyLemmas.{hashes_as};

    ghost hash_input = { λ at. at.frame.src.0 ∷ to_be_bytes w16 at.frame.seq.0 ∷ [] };

    ghost respects_eq = { hashes_as };

    fn hash<H: Hasher>(&self, state: &mut H) {
        state.write(&self.frame.src.0);
        state.write(&self.frame.seq.0.to_be_bytes());
    }
}

impl Came {
    /// The frame of a packet and its side, where it has a number.
    pub(crate) fn at(&self) -> Option<FrameAt>
        ensures { result ≡ frame_at self.now.side self.now.frame }
    {
        let frame = self.frame?;
        let side = self.side;
        Some(FrameAt { frame, side })
    }
}
