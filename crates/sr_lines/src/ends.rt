//! The sending end of one wire and the taking end of another.

ghost use Rattle.std.specs.Prelude.{◌≡◌, ◌++◌, ◌∷◌, [], MatchResult, MatchOption};
ghost use Rattle.std.specs.Arc.{arc_value};
ghost use Rattle.sr_wires.specs.Wired.{WasFull, WasEmpty};

use sr_frame::Frame;
use sr_wires::{SendPass, TakePass, Wire};
use std::sync::{Arc, Wait};

/// The sending end of one wire and the taking end of another.
#[derive(Drop)]
pub struct Ends {
    out: Arc<Wire>,
    /// The right to send, and all that was sent.
    pub send: SendPass,
    back: Arc<Wire>,
    /// The right to take, and all that was taken.
    pub take: TakePass,
    ghost sends: { send.wire ≡ arc_value out },
    ghost takes: { take.wire ≡ arc_value back },
}

impl Ends {
    ghost use Rattle.sr_lines.specs.Names.{end_wires};

    /// The ends of these two wires.
    pub fn new(out: Arc<Wire>, send: SendPass, back: Arc<Wire>, take: TakePass) -> Ends
        requires send { send.wire ≡ arc_value out }
        requires take { take.wire ≡ arc_value back }
        ensures send { result.send ≡ send }
        ensures take { result.take ≡ take }
    {
        Ends {
            out,
            send,
            back,
            take,
        }
    }

    /// Sends a frame, or hands it back where the wire was full.
    pub(crate) fn put<W: Wait>(&mut self, rt: &W, frame: Frame) -> Result<(), Frame>
        ensures put { MatchResult result
            (λ _. self.new.send.frames ≡ self.old.send.frames ++ frame ∷ [])
            (λ back. (back ≡ frame) × (self.new.send.frames ≡ self.old.send.frames)
            × WasFull self.old.send.frames self.old.send.seen) }
        ensures seen { self.new.send.seen ≡ self.old.send.seen }
        ensures same { self.new.take ≡ self.old.take }
        ensures wires { end_wires self.new ≡ end_wires self.old }
    {
        self.out.put(rt, &mut self.send, frame)
    }

    /// Takes the next frame, or none where none waited.
    pub(crate) fn take_next<W: Wait>(&mut self, rt: &W) -> Option<Frame>
        ensures take { MatchOption result
            ((self.new.take.frames ≡ self.old.take.frames)
            × WasEmpty self.old.take.frames self.old.take.seen)
            (λ f. self.new.take.frames ≡ self.old.take.frames ++ f ∷ []) }
        ensures seen { self.new.take.seen ≡ self.old.take.seen }
        ensures same { self.new.send ≡ self.old.send }
        ensures wires { end_wires self.new ≡ end_wires self.old }
    {
        self.back.take(rt, &mut self.take)
    }
}
