//! What a line of a script of events at a node asks for.

ghost use Rattle.std.specs.Prelude.{◌≡◌, ◌↔◌, ◌<◌, ◌≤◌, length, ◌^◌, ℕ, List, codes, IfOk, IfErr, OnOk, IfSome, IsSomeAnd, IsTrue, ◌++◌, MatchResult, Err, ◌∷◌, []};
ghost use Rattle.std.specs.Fmt.{decimal};
ghost use Rattle.sr_session.specs.Lines.{IsOneOf};
ghost use Rattle.sr_session.specs.Octets.{spaced};
ghost use Rattle.sr_words.specs.Words.{IsComment, IsHex};
ghost use Rattle.sr_script.specs.Commands.{Says, IsEventLine, IsInlet, letter_of, IsTimed, IsArrival, IsSending, IsTick};
ghost use Rattle.sr_script.specs.FrontArrivals.{EndsAtFront, StandsAtFront};

use sr_forwarding::RoleKind;
use sr_frame::Port;
use sr_hex::read_front;
use sr_session::{FaultKind, MAX_LINE};
use sr_words::{behind_send, front_number, is_comment, number_of, read_hex, split_word};

/// No text that is shorter is read as a line whose end was not looked for, so that its room is asked for once.
const SHORTEST: usize = 32;

/// The octets of `in A`, `in B` and `in C`, each as one number, of which the first octet is the lowest.
const IN_A: u32 = 0x4120_6e69;

const IN_B: u32 = 0x4220_6e69;

const IN_C: u32 = 0x4320_6e69;

/// What a line asks for. The octets that it names are kept beside it.
#[derive(Clone, Copy, Debug)]
pub enum Command {
    /// Nothing: the line is empty or begins with `#`.
    Skip,
    /// Octets that arrive at a port, at a time in milliseconds.
    Arrive(Port, u64),
    /// The host sends octets, at a time in milliseconds.
    Send(u64),
    /// Time passes, in milliseconds.
    Tick(u64),
}

/// The text behind the word `in` and a space.
fn behind_in(line: &[u8]) -> Option<&[u8]>
    ensures found { IfSome result (λ rest. line.now ≡ codes "in " ++ rest.now) }
    ensures only { (rest : List ℕ) → line.now ≡ codes "in " ++ rest
        → IsSomeAnd result (λ r. r.now ≡ rest) }
{
    match line {
        [b'i', b'n', b' ', rest @ ..] => Some(rest),
        _ => None,
    }
}

/// The port that a text begins with, if frames come in there, and the text behind it and a space.
fn split_inlet(role: RoleKind, text: &[u8]) -> Option<(Port, &[u8])>
    ensures found { IfSome result (λ parts.
        (text.now ≡ letter_of parts.0 ++ 32 ∷ parts.1.now) × IsInlet role parts.0) }
    ensures only { (port : Port) (rest : List ℕ) → IsInlet role port
        → text.now ≡ letter_of port ++ 32 ∷ rest
        → IsSomeAnd result (λ parts. (parts.0 ≡ port) × (parts.1.now ≡ rest)) }
{
    match text {
        [b'A', b' ', rest @ ..] => Some((Port::A, rest)),
        [b'B', b' ', rest @ ..] => Some((Port::B, rest)),
        [b'C', b' ', rest @ ..] if role.has_interlink() => Some((Port::C, rest)),
        _ => None,
    }
}

/// Reads a time, and then octets.
fn timed(text: &[u8], octets: &mut Vec<u8>) -> Result<u64, FaultKind>
    ensures found { IfOk result (λ time. IsTimed text.now time octets.new.items) }
    ensures only { (time : ℕ) (os : List ℕ) → IsTimed text.now time os
        → MatchResult result (λ t. (t ≡ time) × (octets.new.items ≡ os)) (λ kind.
        kind ≡ FaultKind.Memory) }
    ensures memory { result ≡ Err FaultKind.Memory
        → (time : ℕ) × (os : List ℕ) × IsTimed text.now time os }
    ensures fault { IfErr result (λ kind. IsOneOf kind (FaultKind.Line ∷ FaultKind.Memory ∷ [])) }
{
    let Some((time, digits)) = split_word(text) else {
        return Err(FaultKind::Line);
    };
    let Some(time) = number_of(time) else {
        return Err(FaultKind::Line);
    };
    match read_hex(digits, octets) {
        Ok(()) => Ok(time),
        Err(kind) => Err(kind),
    }
}

/// Reads the text behind the word `in`: the port, the time and the octets.
fn arrival(role: RoleKind, text: &[u8], octets: &mut Vec<u8>) -> Result<Command, FaultKind>
    ensures found { IfOk result (λ command. IsArrival role text.now command octets.new.items) }
    ensures only { (port : Port) (time : ℕ) (os : List ℕ)
        → IsArrival role text.now (Command.Arrive port time) os
        → MatchResult result (λ command. (command ≡ Command.Arrive port time)
        × (octets.new.items ≡ os)) (λ kind. kind ≡ FaultKind.Memory) }
    ensures memory { result ≡ Err FaultKind.Memory → (port : Port) × (time : ℕ) × (os : List ℕ)
        × IsArrival role text.now (Command.Arrive port time) os }
    ensures fault { IfErr result (λ kind. IsOneOf kind (FaultKind.Line ∷ FaultKind.Memory ∷ [])) }
{
    let Some((port, rest)) = split_inlet(role, text) else {
        return Err(FaultKind::Line);
    };
    match timed(rest, octets) {
        Ok(time) => Ok(Command::Arrive(port, time)),
        Err(kind) => Err(kind),
    }
}

/// Reads the text behind the word `send`: the time and the octets.
fn sending(text: &[u8], octets: &mut Vec<u8>) -> Result<Command, FaultKind>
    ensures found { IfOk result (λ command. IsSending text.now command octets.new.items) }
    ensures only { (time : ℕ) (os : List ℕ) → IsSending text.now (Command.Send time) os
        → MatchResult result (λ command. (command ≡ Command.Send time)
        × (octets.new.items ≡ os)) (λ kind. kind ≡ FaultKind.Memory) }
    ensures memory { result ≡ Err FaultKind.Memory
        → (time : ℕ) × (os : List ℕ) × IsSending text.now (Command.Send time) os }
    ensures fault { IfErr result (λ kind. IsOneOf kind (FaultKind.Line ∷ FaultKind.Memory ∷ [])) }
{
    match timed(text, octets) {
        Ok(time) => Ok(Command::Send(time)),
        Err(kind) => Err(kind),
    }
}

/// The time of a line that says that time passes.
fn tick_of(line: &[u8]) -> Option<u64>
    ensures found { IfSome result (λ time. IsTick line.now time) }
    ensures only { (time : ℕ) → IsTick line.now time → result ≡ Some time }
{
    number_of(line.strip_prefix(b"tick ".as_slice())?)
}

/// What a line asks for at a node of this role. The octets that it names are then in `octets`, and nothing else is.
///
/// # Errors
/// `Line` where the line is not a line of a script, whatever memory there is; `Memory`.
pub(crate) fn command_of(
    role: RoleKind,
    line: &[u8],
    octets: &mut Vec<u8>,
) -> Result<Command, FaultKind>
    ensures found { IfOk result (λ command. Says role line.now command octets.new.items) }
    ensures only { (command : Command) (os : List ℕ) → Says role line.now command os
        → MatchResult result (λ found. (found ≡ command) × (octets.new.items ≡ os)) (λ kind.
        kind ≡ FaultKind.Memory) }
    ensures memory { result ≡ Err FaultKind.Memory → IsEventLine role line.now }
    ensures fault { IfErr result (λ kind. IsOneOf kind (FaultKind.Line ∷ FaultKind.Memory ∷ [])) }
{
    if line.is_empty() || is_comment(line) {
        octets.clear();
        return Ok(Command::Skip);
    }
    if let Some(rest) = behind_in(line) {
        return arrival(role, rest, octets);
    }
    if let Some(rest) = behind_send(line) {
        return sending(rest, octets);
    }
    octets.clear();
    match tick_of(line) {
        Some(time) => Ok(Command::Tick(time)),
        None => Err(FaultKind::Line),
    }
}

/// What a line with a time and octets says, which is whole at the front of a text.
#[derive(Clone, Copy)]
pub(crate) struct FrontLine {
    /// The time in milliseconds.
    pub(crate) time: u64,
    /// How many octets it names.
    pub(crate) count: usize,
    /// How many octets the line has, without the LF that ends it.
    pub(crate) length: usize,
}

/// The time and the octets at the front of a text, whose line ends where their digits end, so that its LF need not be looked for. So
/// many octets are left where the line begins. The octets that it names are then the first ones of `octets`. None: the line is to be
/// read as any other, since it has a fault, or ends too near to the end of the text.
// speed: D-session-unended
#[inline(always)]
fn timed_at(left: usize, text: &[u8], octets: &mut [u8]) -> Option<FrontLine>
    requires { length text.now ≤ left }
    ensures { IfSome result (λ f. EndsAtFront left text.now f octets.new) }
{
    let (time, used) = front_number(text)?;
    let rest = &text[used..];
    let digits = read_front(rest, octets)?;
    let length = left - text.len() + used + digits;
    if rest[digits] != b'\n' || digits == 0 || digits % 2 != 0 || length > MAX_LINE {
        return None;
    }
    Some(FrontLine {
        time,
        count: digits / 2,
        length,
    })
}

/// The port that four octets name, the word `in`, a space and the letter of a port, if frames come in there.
// speed: D-script-front-words
#[inline(always)]
fn inlet_of(role: RoleKind, word: [u8; 4]) -> Option<Port>
    ensures named { IfSome result (λ port. word ≡ codes "in " ++ letter_of port) }
    ensures inlet { IfSome result (λ port. IsInlet role port) }
{
    match u32::from_le_bytes(word) {
        IN_A => Some(Port::A),
        IN_B => Some(Port::B),
        IN_C if role.has_interlink() => Some(Port::C),
        _ => None,
    }
}

/// The port that a text names behind the word `in`, if frames come in there, and the text behind it and a space.
// speed: D-script-front-words
#[inline(always)]
fn split_front(role: RoleKind, text: &[u8]) -> Option<(Port, &[u8])>
    ensures found { IfSome result (λ parts.
        text.now ≡ codes "in " ++ (letter_of parts.0 ++ 32 ∷ parts.1.now)) }
    ensures inlet { IfSome result (λ parts. IsInlet role parts.0) }
{
    if text.len() < SHORTEST {
        return None;
    }
    let port = inlet_of(role, *text.first_chunk::<4>()?)?;
    if text[4] != b' ' {
        return None;
    }
    Some((port, &text[5..]))
}

/// The line of a frame that arrives at the front of a text, and where it comes in. None: no such line is read there.
// speed: D-session-unended
#[inline(always)]
pub(crate) fn arrival_at(
    role: RoleKind,
    text: &[u8],
    octets: &mut [u8],
) -> Option<(Port, FrontLine)>
    ensures { IfSome result (λ a.
        StandsAtFront role text.now (Command.Arrive a.0 a.1.time) a.1 octets.new) }
{
    let (port, rest) = split_front(role, text)?;
    let line = timed_at(text.len(), rest, octets)?;
    Some((port, line))
}

/// The line of a frame of the host at the front of a text. None: no such line is read there.
// speed: D-session-unended
#[inline(always)]
pub(crate) fn sending_at(text: &[u8], octets: &mut [u8]) -> Option<FrontLine>
    ensures { (role : RoleKind) → IfSome result (λ f.
        StandsAtFront role text.now (Command.Send f.time) f octets.new) }
{
    let line = timed_at(text.len(), behind_send(text)?, octets)?;
    Some(line)
}
