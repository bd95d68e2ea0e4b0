//! Frames that own their octets.

ghost use Rattle.std.specs.Prelude.{◌≡◌, ◌↔◌, ◌<◌, length, IfOk, IsErrOf};

use crate::fault::{FrameFault, NoMemory};
use crate::fields::{FrameView, MAX_FRAME_LEN};
use crate::reading;
use std::alloc::Global;
use std::marker::Model;

/// A frame that owns its octets. Contracts see it as the list of them.
#[derive(Debug, Drop)]
pub struct Frame {
    octets: Vec<u8>,
}

impl Model for Frame {
    ghost use Rattle.std.specs.Prelude.{List, ℕ};
    ghost use Rattle.sr_frame.specs.Frame.{HasFrameLength};

    ghost Value = { List ℕ };

    ghost view = { λ f. f.octets.items };

    ghost invariant = { λ f. HasFrameLength f.octets.items };
}

impl PartialEq for Frame {
    ghost use Rattle.std.specs.Prelude.{nat_eq};
    ghost use Rattle.std.specs.Cmp.Lexicographic.{pointwise};
    ghost use Rattle.std.specs.Cmp.Rules.{comparing};
    ghost use Rattle.std.proofs.Common.{rules};

    ghost eq = { pointwise nat_eq };

    ghost laws = { Prim.search (comparing, rules) };

    fn eq(&self, other: &Frame) -> bool {
        self.octets == other.octets
    }
}

impl Eq for Frame {
    ghost use Rattle.std.specs.Cmp.Rules.{comparing};
    ghost use Rattle.std.proofs.Common.{rules};

    ghost laws = { Prim.search (comparing, rules) };
}

impl Frame {
    ghost use Rattle.sr_frame.specs.Frame.{IsFrame, least_len, HasFrameLength};
    ghost use Rattle.sr_frame.specs.View.{fields_of};

    /// A frame of its own with these octets.
    ///
    /// `TooShort` and `TooLong` exactly where [`view`](crate::view) answers them; `NoMemory` where its one
    /// allocation failed.
    pub fn copy(alloc: Global, octets: &[u8]) -> Result<Frame, FrameFault>
        ensures ok { IfOk result (λ f. (f ≡ octets.now) × HasFrameLength f) }
        ensures short { IsErrOf result FrameFault.TooShort
            ↔ (length octets.now < least_len octets.now) }
        ensures long { IsErrOf result FrameFault.TooLong ↔ (MAX_FRAME_LEN < length octets.now) }
    {
        let _ = reading::view(octets)?;
        let octets = Vec::from_slice(alloc, octets)?;
        Ok(Frame { octets })
    }

    /// The frame that these octets are, which it keeps without a copy.
    pub fn of(octets: Vec<u8>) -> Frame
        requires { HasFrameLength octets.items }
        ensures { result ≡ octets.items }
    {
        Self { octets }
    }

    /// An equal frame. `NoMemory` where its one allocation failed.
    pub fn try_clone(&self, alloc: Global) -> Result<Frame, NoMemory>
        ensures { IfOk result (λ f. f ≡ self.now) }
    {
        let octets = Vec::from_slice(alloc, &self.octets)?;
        Ok(Frame { octets })
    }

    /// The octets, in the list that the frame kept. Does not allocate.
    pub fn into_octets(self) -> Vec<u8>
        ensures { result.items ≡ self }
    {
        let Frame { octets: list } = self;
        list
    }

    /// All octets.
    pub fn octets(&self) -> &[u8]
        ensures whole { result.now ≡ self.now }
        ensures frame { HasFrameLength self.now }
    {
        self.octets.as_slice()
    }

    /// The fields, which the octets of a frame always have.
    pub fn view(&self) -> FrameView<'_>
        ensures { IsFrame self.now (fields_of result) }
    {
        reading::view(&self.octets).unwrap()
    }
}
