//! The whole lines at the front of the octets that a reader has at hand.

ghost use Rattle.std.specs.Prelude.{◌≡◌, ◌≤◌, ◌∷◌, [], ℕ, List, OnOk, OnErr, Err, IfErr, IfSome, MatchOption, vec_capacity};
ghost use Rattle.sr_session.specs.Lines.{IsOneOf};
ghost use Rattle.sr_session.specs.Fronts.{IsFrontLine, ObeysFront};
ghost use Rattle.sr_session.specs.Turns.{AddsAnswer, IsFront};

use crate::fault::FaultKind;
use crate::lines::{MAX_LINE, place_of};
use crate::running::MAX_LINES;
use crate::session::Session;
use crate::waiting::Waiting;

/// As soon as so many octets wait they are written, before another line is obeyed.
const MAX_WAITING: usize = 65536;

/// How far the lines at hand are obeyed.
#[derive(Clone, Copy, Debug)]
pub(crate) struct Front {
    // The octets of the lines that are.
    pub(crate) used: usize,
    // The number of the line behind them.
    pub(crate) next: u64,
    // What is wrong with that line.
    pub(crate) fault: Option<FaultKind>,
}

/// The whole line, of no more than 8000 octets, at the front of octets. None where there is none.
fn front_line(octets: &[u8]) -> Option<&[u8]>
    ensures whole { IfSome result (λ line. IsFrontLine octets.now line.now) }
    ensures only { (line : List ℕ) → IsFrontLine octets.now line
        → MatchOption result ⊥ (λ found. found.now ≡ line) }
{
    let near = &octets[..octets.len().min(MAX_LINE + 1)];
    let at = place_of(b'\n', near)?;
    Some(&near[..at])
}

/// Leaves the whole line at the front of octets in a list that has room for it.
fn keep_line(line: &mut Vec<u8>, octets: &[u8])
    requires room { 8001 ≤ vec_capacity line.old }
    ensures kept { (front : List ℕ) → IsFrontLine octets.now front → line.new.items ≡ front }
    ensures room { vec_capacity line.old ≤ vec_capacity line.new }
{
    line.clear();
    if let Some(front) = front_line(octets) {
        line.extend_from_slice(front).unwrap();
    }
}

/// Has the session obey a line, and appends what is to be printed for it to what waits. On an error what waits is unchanged.
pub(crate) fn obey_line<S: Session>(
    session: &mut S,
    number: u64,
    line: &[u8],
    waiting: &mut Waiting,
) -> Result<(), FaultKind>
    ensures ok { OnOk result (AddsAnswer S.dialogue (S.state session.old) number line.now
        waiting.old.text waiting.old.marks.items
        waiting.new.text waiting.new.marks.items (S.state session.new)) }
    ensures bad { result ≡ Err FaultKind.Line
        → S.dialogue.Knows (S.state session.old) line.now → ⊥ }
    ensures memory { result ≡ Err FaultKind.Memory
        → S.dialogue.Knows (S.state session.old) line.now }
    ensures fault { IfErr result (λ kind. IsOneOf kind (FaultKind.Line ∷ FaultKind.Memory ∷ [])) }
    ensures same { OnErr result ((waiting.new.text ≡ waiting.old.text)
        × (waiting.new.marks.items ≡ waiting.old.marks.items)) }
{
    let start = waiting.text.len();
    let answered = match session.answer(number, line, &mut waiting.text) {
        Ok(()) => waiting.mark(number, start),
        Err(kind) => Err(kind),
    };
    if answered.is_err() {
        waiting.cut(start);
    }
    answered
}

/// Looks for the end of the line at the front of octets, and has the session obey the line. The answer is how many octets it has,
/// without its LF; None where there is no whole line.
// speed: D-session-unended. Out of line, so that a line whose end the session finds itself costs no call.
#[inline(never)]
fn obey_sought<S: Session>(
    session: &mut S,
    number: u64,
    octets: &[u8],
    waiting: &mut Waiting,
) -> Result<Option<usize>, FaultKind>
    ensures { ObeysFront S.dialogue (S.state session.old) number octets.now
        waiting.old.text waiting.old.marks.items waiting.new.text waiting.new.marks.items
        (S.state session.new) result }
{
    let Some(line) = front_line(octets) else {
        return Ok(None);
    };
    obey_line(session, number, line, waiting)?;
    Ok(Some(line.len()))
}

/// Has the session obey the whole line at the front of octets. The answer is how many octets it has, without its LF; None where
/// there is no whole line.
fn obey_whole<S: Session>(
    session: &mut S,
    number: u64,
    octets: &[u8],
    waiting: &mut Waiting,
) -> Result<Option<usize>, FaultKind>
    ensures { ObeysFront S.dialogue (S.state session.old) number octets.now
        waiting.old.text waiting.old.marks.items waiting.new.text waiting.new.marks.items
        (S.state session.new) result }
{
    let from = waiting.text.len();
    let answered = match session.answer_unended(number, octets, &mut waiting.text) {
        Ok(None) => return obey_sought(session, number, octets, waiting),
        Ok(Some(length)) => match waiting.mark(number, from) {
            Ok(()) => Ok(Some(length)),
            Err(kind) => Err(kind),
        },
        Err(kind) => Err(kind),
    };
    if answered.is_err() {
        waiting.cut(from);
    }
    answered
}

/// Has the session obey the whole lines at the front of octets, until enough waits to be written. `first` is the number of
/// the first. The line that ends it is left in `line`.
pub(crate) fn obey_front<S: Session>(
    session: &mut S,
    first: u64,
    octets: &[u8],
    line: &mut Vec<u8>,
    waiting: &mut Waiting,
) -> Front
    requires number { first ≤ 1000001 }
    requires room { 8001 ≤ vec_capacity line.old }
    requires text { waiting.old.text ≡ [] }
    requires marks { waiting.old.marks.items ≡ [] }
    ensures front { IsFront S.dialogue (S.state session.old) first octets.now waiting.new.text
        waiting.new.marks.items line.new.items result (S.state session.new) }
    ensures room { vec_capacity line.old ≤ vec_capacity line.new }
{
    let mut used = 0;
    let mut next = first;
    while next <= MAX_LINES && waiting.text.len() < MAX_WAITING {
        match obey_whole(session, next, &octets[used..], waiting) {
            Ok(Some(length)) => {
                used += length + 1;
                next += 1;
            }
            Ok(None) => break,
            Err(kind) => {
                keep_line(line, &octets[used..]);
                return Front {
                    used,
                    next,
                    fault: Some(kind),
                };
            }
        }
    }
    Front {
        used,
        next,
        fault: None,
    }
}
