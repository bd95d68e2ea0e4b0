//! What obeys the lines of a script.

ghost use Rattle.std.specs.Prelude.{◌≡◌, ◌∷◌, [], ◌++◌, ℕ, List, IfOk, OnOk, OnErr, IfErr, Err};
ghost use Rattle.sr_session.specs.Octets.{StillHolds};
ghost use Rattle.sr_session.specs.Lines.{IsOneOf};

use crate::fault::FaultKind;
use sr_text::Text;

/// Obeys the lines of a script, and says what is printed for each line and at the end. It knows no reader and no writer.
pub trait Session: Drop {
    ghost use Rattle.sr_session.specs.Runs.{Dialogue};
    ghost use Rattle.sr_session.specs.Fronts.{AnswersFront, KnowsFront};

    // What clauses see of it.
    ghost State: { Type 0 };

    ghost state: { Self → State };

    // Which lines it knows, what it answers to them, and what it says at the end.
    ghost dialogue: { Dialogue State };

    /// Obeys the line with this number, and appends what is to be printed for it to `text`.
    ///
    /// Errors: `Line` where it does not know the line, whatever memory there is; `Memory`. On an error the previous contents of
    /// `text` are unchanged; anything appended after them is garbage and must be truncated.
    fn answer(&mut self, number: u64, line: &[u8], text: &mut Text) -> Result<(), FaultKind>
        ensures ok { OnOk result ((answer : List ℕ)
            × dialogue.Replied (state self.old) number line.now answer (state self.new)
            × (text.new ≡ text.old ++ answer)) }
        ensures kept { OnErr result (StillHolds text.old text.new) }
        ensures known { OnOk result (dialogue.Knows (state self.old) line.now) }
        ensures bad { result ≡ Err FaultKind.Line → dialogue.Knows (state self.old) line.now → ⊥ }
        ensures memory { result ≡ Err FaultKind.Memory → dialogue.Knows (state self.old) line.now }
        ensures fault { IfErr result
            (λ kind. IsOneOf kind (FaultKind.Line ∷ FaultKind.Memory ∷ [])) };

    /// Obeys the line at the front of a text whose end was not looked for, if the session finds the end itself as it reads the line.
    /// The answer is how many octets the line has, without the LF that ends it; what is to be printed for it is appended to `text`.
    /// None: the end of the line has to be looked for. Nothing is done then, and `answer` obeys the line.
    ///
    /// Errors: `Memory`. On an error the previous contents of `text` are unchanged; anything appended after them is garbage and must
    /// be truncated.
    // speed: D-session-unended
    fn answer_unended(
        &mut self,
        number: u64,
        front: &[u8],
        text: &mut Text,
    ) -> Result<Option<usize>, FaultKind>
        ensures ok { IfOk result (λ length. AnswersFront dialogue (state self.old) number front.now
            length text.old text.new (state self.new)) }
        ensures kept { OnErr result (StillHolds text.old text.new) }
        ensures known { OnErr result (KnowsFront dialogue (state self.old) front.now) }
        ensures err { IfErr result (λ kind. kind ≡ FaultKind.Memory) }
    {
        Ok(None)
    }

    /// What is to be printed at the end of the script.
    fn finish(&self, text: &mut Vec<u8>) -> Result<(), FaultKind>
        requires { text.old.items ≡ [] }
        ensures ok { OnOk result (dialogue.Ends (state self.now) text.new.items) }
        ensures err { IfErr result (λ kind. kind ≡ FaultKind.Memory) };
}
