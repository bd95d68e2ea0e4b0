//! A run of a script: the loop over its lines. It knows no node: the session obeys the lines.

ghost use Rattle.std.specs.Prelude.{◌≡◌, ◌≤◌, ◌∷◌, [], ℕ, List, Option, IfOk, IfErr, OnOk, IfSome, vec_capacity};
ghost use Rattle.std.specs.Io.KnownBytes.{Appends};
ghost use Rattle.sr_session.specs.Lines.{lines_of, IsOneOf};
ghost use Rattle.sr_session.specs.LeftLines.{IsLeftBy, Leaves};
ghost use Rattle.sr_session.specs.Runs.{IsAnsweredTo, EndsAt, EndsFrom, HeldSince, HasFault, Runs};
ghost use Rattle.sr_session.specs.Turns.{AreObeyed, Turned, AllAnswered};

use crate::fault::{Fault, FaultKind, NOT_BEGUN};
use crate::fronts::{obey_front, obey_line};
use crate::lines::{is_at_end, make_room, next_line};
use crate::session::Session;
use crate::waiting::{Waiting, write_out};
use std::alloc::Global;
use std::io::{BufRead, Write};

/// The most lines of a script.
pub(crate) const MAX_LINES: u64 = 1_000_000;

/// Has the session obey the whole lines that the reader has at hand, and writes what is to be printed for them. `first` is
/// the number of the first; the answer is the number behind them. The line that ends it is left in `line`.
// speed: D-session-at-hand
fn obey_at_hand<S: Session, R: BufRead, W: Write>(
    session: &mut S,
    first: u64,
    line: &mut Vec<u8>,
    waiting: &mut Waiting,
    reader: &mut R,
    writer: &mut W,
) -> Result<u64, Fault>
    requires number { first ≤ 1000001 }
    requires room { 8001 ≤ vec_capacity line.old }
    requires text { waiting.old.text ≡ [] }
    requires marks { waiting.old.marks.items ≡ [] }
    ensures obeyed { IfOk result (λ n. AreObeyed S.dialogue (S.state session.old) first n
        (R.remaining reader.old) (R.remaining reader.new)
        (W.contents writer.old) (W.contents writer.new) (S.state session.new)) }
    ensures count { IfOk result (λ n. n ≤ 1000001) }
    ensures ahead { IfOk result (λ n. first ≤ n) }
    ensures room { vec_capacity line.old ≤ vec_capacity line.new }
    ensures text { OnOk result (waiting.new.text ≡ []) }
    ensures marks { OnOk result (waiting.new.marks.items ≡ []) }
    ensures ended { IfErr result (λ fault. IfSome (R.remaining reader.old) (λ input.
        EndsFrom S.dialogue (S.state session.old) first (lines_of input) fault
        (R.remaining reader.new) (W.contents writer.old) (W.contents writer.new))) }
    ensures left { IfErr result (λ fault. IfSome (R.remaining reader.old) (λ input.
        IsLeftBy fault.kind first (lines_of input) fault.line line.new.items)) }
{
    let Ok(available) = reader.fill_buf() else {
        return Err(Fault {
            line: first,
            kind: FaultKind::Read,
        });
    };
    let front = obey_front(session, first, available, line, waiting);
    reader.consume(front.used);
    if let Err(fault) = waiting.send(writer) {
        return Err(fault);
    }
    match front.fault {
        Some(kind) => Err(Fault {
            line: front.next,
            kind,
        }),
        None => Ok(front.next),
    }
}

/// Reads the next line, however it comes, has the session obey it, and writes what is to be printed for it. False at the end.
fn obey_next<S: Session, R: BufRead, W: Write>(
    session: &mut S,
    number: u64,
    line: &mut Vec<u8>,
    waiting: &mut Waiting,
    reader: &mut R,
    writer: &mut W,
) -> Result<bool, Fault>
    requires number { number ≤ 1000000 }
    requires room { 8001 ≤ vec_capacity line.old }
    requires text { waiting.old.text ≡ [] }
    requires marks { waiting.old.marks.items ≡ [] }
    ensures turned { IfOk result (λ more.
        Turned S.dialogue more number (R.remaining reader.old) (R.remaining reader.new)
        (W.contents writer.old) (W.contents writer.new) (S.state session.old)
        (S.state session.new)) }
    ensures room { vec_capacity line.old ≤ vec_capacity line.new }
    ensures text { OnOk result (waiting.new.text ≡ []) }
    ensures marks { OnOk result (waiting.new.marks.items ≡ []) }
    ensures ended { IfErr result (λ fault. IfSome (R.remaining reader.old) (λ input.
        EndsFrom S.dialogue (S.state session.old) number (lines_of input) fault
        (R.remaining reader.new) (W.contents writer.old) (W.contents writer.new))) }
    ensures left { IfErr result (λ fault. IfSome (R.remaining reader.old) (λ input.
        IsLeftBy fault.kind number (lines_of input) fault.line line.new.items)) }
{
    match next_line(reader, line) {
        Ok(true) => {}
        Ok(false) => return Ok(false),
        Err(kind) => return Err(Fault { line: number, kind }),
    }
    if let Err(kind) = obey_line(session, number, line, waiting) {
        return Err(Fault { line: number, kind });
    }
    if let Err(fault) = waiting.send(writer) {
        return Err(fault);
    }
    Ok(true)
}

/// Has the session obey the lines that the reader has left. The answer is the number behind them. The line that ends it is left in
/// `line`.
fn obey_lines<S: Session, R: BufRead, W: Write>(
    session: &mut S,
    line: &mut Vec<u8>,
    waiting: &mut Waiting,
    reader: &mut R,
    writer: &mut W,
) -> Result<u64, Fault>
    requires room { 8001 ≤ vec_capacity line.old }
    requires text { waiting.old.text ≡ [] }
    requires marks { waiting.old.marks.items ≡ [] }
    ensures done { IfOk result (λ n. IfSome (R.remaining reader.old) (λ input.
        AllAnswered S.dialogue (S.state session.old) (lines_of input) (W.contents writer.old)
        (W.contents writer.new) (S.state session.new) n)) }
    ensures ended { IfErr result (λ fault. IfSome (R.remaining reader.old) (λ input.
        EndsAt S.dialogue (S.state session.old) (lines_of input) fault (R.remaining reader.new)
        (W.contents writer.old) (W.contents writer.new))) }
    ensures left { IfErr result (λ fault. IfSome (R.remaining reader.old) (λ input.
        IsLeftBy fault.kind 1 (lines_of input) fault.line line.new.items)) }
{
    let mut number = match obey_at_hand(session, 1, line, waiting, reader, writer) {
        Ok(next) => next,
        Err(fault) => return Err(fault),
    };
    while number <= MAX_LINES {
        match obey_next(session, number, line, waiting, reader, writer) {
            Ok(true) => {}
            Ok(false) => return Ok(number),
            Err(fault) => return Err(fault),
        }
        match obey_at_hand(session, number + 1, line, waiting, reader, writer) {
            Ok(next) => number = next,
            Err(fault) => return Err(fault),
        }
    }
    let behind = MAX_LINES + 1;
    match is_at_end(reader) {
        Ok(true) => Ok(behind),
        Ok(false) => Err(Fault {
            line: behind,
            kind: FaultKind::Long,
        }),
        Err(kind) => Err(Fault { line: behind, kind }),
    }
}

/// Writes what the session says at the end.
fn end<S: Session, W: Write>(
    session: &S,
    text: &mut Vec<u8>,
    writer: &mut W,
) -> Result<(), FaultKind>
    ensures ended { OnOk result ((last : List ℕ) × S.dialogue.Ends (S.state session.now) last
        × Appends (W.contents writer.old) (W.contents writer.new) last) }
    ensures failed { IfErr result (λ kind. IsOneOf kind (FaultKind.Write ∷ FaultKind.Memory ∷ [])) }
    ensures kept { IfErr result (λ kind. (number : ℕ) (rest : Option (List ℕ))
        → HeldSince S.dialogue (S.state session.now) number kind [] rest (W.contents writer.old)
        (W.contents writer.new)) }
{
    text.clear();
    session.finish(text)?;
    if text.is_empty() {
        return Ok(());
    }
    if write_out(writer, text) < text.len() || writer.flush().is_err() {
        return Err(FaultKind::Write);
    }
    Ok(())
}

/// Has the session obey the script that the reader has left, with nothing waiting yet. The line that ends it is left in `line`.
fn obey_script<S: Session, R: BufRead, W: Write>(
    session: &mut S,
    line: &mut Vec<u8>,
    text: &mut Vec<u8>,
    waiting: &mut Waiting,
    reader: &mut R,
    writer: &mut W,
) -> Result<(), Fault>
    requires room { 8001 ≤ vec_capacity line.old }
    requires text { waiting.old.text ≡ [] }
    requires marks { waiting.old.marks.items ≡ [] }
    ensures done { OnOk result (IfSome (R.remaining reader.old) (λ input.
        IsAnsweredTo S.dialogue (S.state session.old) (lines_of input) (W.contents writer.old)
        (W.contents writer.new) (S.state session.new))) }
    ensures ended { IfErr result (λ fault. IfSome (R.remaining reader.old) (λ input.
        EndsAt S.dialogue (S.state session.old) (lines_of input) fault (R.remaining reader.new)
        (W.contents writer.old) (W.contents writer.new))) }
    ensures left { IfErr result (λ fault. IfSome (R.remaining reader.old) (λ input.
        IsLeftBy fault.kind 1 (lines_of input) fault.line line.new.items)) }
{
    let number = obey_lines(session, line, waiting, reader, writer)?;
    match end(session, text, writer) {
        Ok(()) => Ok(()),
        Err(kind) => Err(Fault { line: number, kind }),
    }
}

/// Has the session obey the script that the reader has left, and writes what is to be printed for each line, and then at the
/// end. Lines are counted from 1. What is printed for lines that the reader has at hand is written together, and flushed,
/// before more is read, and before a fault.
///
/// # Errors
/// `Memory` comes at line 1, whatever that line is, where the allocation for the longest line fails. Then `Line` and `Long` come at
/// the first line that is not a line of a script, whatever memory there is. `Read`, `Write` and `Memory` come where the reader, the
/// writer or an allocation fails, and at no such line. The lines before that of the fault are answered, and nothing else is written,
/// but for text of that line where the writer failed: a part of it, or all where it could not be passed on.
pub fn run_session<S: Session, R: BufRead, W: Write>(
    alloc: Global,
    session: &mut S,
    reader: &mut R,
    writer: &mut W,
) -> Result<(), Fault>
    ensures runs { Runs S.dialogue (S.state session.old) (R.remaining reader.old)
        (R.remaining reader.new) (W.contents writer.old) (W.contents writer.new) result }
    // At the end the session is where the lines led it.
    ensures reached { OnOk result (IfSome (R.remaining reader.old) (λ input.
        IsAnsweredTo S.dialogue (S.state session.old) (lines_of input) (W.contents writer.old)
        (W.contents writer.new) (S.state session.new))) }
{
    let mut line = Vec::new(alloc);
    run_session_leaving(alloc, session, reader, writer, &mut line)
}

/// Has the session obey the script that the reader has left, as `run_session` does, and leaves the line that ended the run.
///
/// `line` is given up for memory. Where a line ends the run, it is then in `line`: whole with the fault `Line`, and its first 8001
/// octets with `Long` of a line of more than 8000.
///
/// # Errors
/// Those of `run_session`.
pub fn run_session_leaving<S: Session, R: BufRead, W: Write>(
    alloc: Global,
    session: &mut S,
    reader: &mut R,
    writer: &mut W,
    line: &mut Vec<u8>,
) -> Result<(), Fault>
    ensures runs { Runs S.dialogue (S.state session.old) (R.remaining reader.old)
        (R.remaining reader.new) (W.contents writer.old) (W.contents writer.new) result }
    // At the end the session is where the lines led it.
    ensures reached { OnOk result (IfSome (R.remaining reader.old) (λ input.
        IsAnsweredTo S.dialogue (S.state session.old) (lines_of input) (W.contents writer.old)
        (W.contents writer.new) (S.state session.new))) }
    // The line that ended it is left.
    ensures left { Leaves result (R.remaining reader.old) line.new.items }
{
    if make_room(line).is_err() {
        return Err(NOT_BEGUN);
    }
    let mut waiting = Waiting::new(alloc);
    let mut text = Vec::new(alloc);
    obey_script(session, line, &mut text, &mut waiting, reader, writer)
}
