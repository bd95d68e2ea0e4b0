//! Laws about the grammar of frames.

ghost use Rattle.std.specs.Prelude.{◌≡◌, List, ℕ};
ghost use Rattle.sr_frame.specs.Frame.{Fields, IsFrame, IsLegal, HasFrameLength, spelling};

/// A list of octets is the frame of one set of fields at most.
pub fn fields_are_unique()
    ensures { (octets : List ℕ) (f g : Fields) → IsFrame octets f → IsFrame octets g → f ≡ g }
{}

/// The octets of a frame have a frame's length.
pub fn frames_have_frame_length()
    ensures { (octets : List ℕ) (f : Fields) → IsFrame octets f → HasFrameLength octets }
{}
