//! Reads what a line of a script of a plant asks for.

ghost use Rattle.std.specs.Prelude.{◌≡◌, ◌↔◌, IsTrue, ◌<◌, ◌^◌, ◌++◌, ◌∷◌, [], ℕ, List, codes, Some, IfSome, IfOk, IfErr, MatchResult, Err};
ghost use Rattle.std.specs.Fmt.{decimal};
ghost use Rattle.sr_session.specs.Lines.{IsOneOf};
ghost use Rattle.sr_plant_script.specs.Commands.{word_of, IsReceiver, IsPlaced, AreNumbers, IsTick, IsSending, Says, IsSendLine};

use crate::command::{Command, Receiver, Verb};
use sr_session::FaultKind;
use sr_words::{behind_send, is_comment, number_of, read_hex, split_word};

/// The number that a word spells, by the rules of a time.
fn count_of(word: &[u8]) -> Option<usize>
    ensures found { IfSome result (λ n. word.now ≡ decimal n) }
    ensures only { (n : ℕ) → n < 2 ^ 64 → word.now ≡ decimal n → result ≡ Some n }
{
    match number_of(word) {
        Some(number) => Some(number as usize),
        None => None,
    }
}

/// What a word says is to be done to a copy or a link.
fn verb_of(word: &[u8]) -> Option<Verb>
    ensures found { IfSome result (λ verb. word.now ≡ word_of verb) }
    ensures only { (verb : Verb) → word.now ≡ word_of verb → result ≡ Some verb }
{
    match word {
        b"carry" => Some(Verb::Carry),
        b"drop" => Some(Verb::Drop),
        b"repeat" => Some(Verb::Repeat),
        b"cut" => Some(Verb::Cut),
        b"mend" => Some(Verb::Mend),
        _ => None,
    }
}

/// Whether two texts are the same.
fn is_same(text: &[u8], other: &[u8]) -> bool
    ensures { IsTrue result ↔ (text.now ≡ other.now) }
{
    text == other
}

/// Whom a word names.
fn receiver_of(word: &[u8]) -> Option<Receiver>
    ensures found { IfSome result (λ receiver. IsReceiver word.now receiver) }
    ensures only { (receiver : Receiver) → IsReceiver word.now receiver → result ≡ Some receiver }
{
    if is_same(word, b"all") {
        return Some(Receiver::All);
    }
    match count_of(word) {
        Some(node) => Some(Receiver::Node(node)),
        None => None,
    }
}

/// What a line says is to be done, and at which place or to which link.
fn placed(line: &[u8]) -> Option<(Verb, usize)>
    ensures found { IfSome result (λ parts. IsPlaced line.now parts.0 parts.1) }
    ensures only { (verb : Verb) (place : ℕ) → IsPlaced line.now verb place
        → result ≡ Some (verb, place) }
{
    let (word, number) = split_word(line)?;
    let verb = verb_of(word)?;
    let place = count_of(number)?;
    Some((verb, place))
}

/// The numbers that two words spell.
fn two_numbers(text: &[u8]) -> Option<(usize, u64)>
    ensures found { IfSome result (λ parts. AreNumbers text.now parts.0 parts.1) }
    ensures only { (first second : ℕ) → AreNumbers text.now first second
        → result ≡ Some (first, second) }
{
    let Some((first, second)) = split_word(text) else {
        return None;
    };
    let Some(first) = count_of(first) else {
        return None;
    };
    match number_of(second) {
        Some(second) => Some((first, second)),
        None => None,
    }
}

/// The node and the time of a line that says that time passes.
fn tick_of(line: &[u8]) -> Option<(usize, u64)>
    ensures found { IfSome result (λ parts. IsTick line.now parts.0 parts.1) }
    ensures only { (node time : ℕ) → IsTick line.now node time → result ≡ Some (node, time) }
{
    two_numbers(line.strip_prefix(b"tick ".as_slice())?)
}

/// What a line without octets asks for.
fn bare_command(line: &[u8]) -> Option<Command>
    ensures found { IfSome result (λ command. Says line.now command []) }
    ensures only { (command : Command) → Says line.now command [] → result ≡ Some command }
{
    if line.is_empty() || is_comment(line) {
        return Some(Command::Skip);
    }
    if is_same(line, b"flow") {
        return Some(Command::Flow);
    }
    if let Some((node, time)) = tick_of(line) {
        return Some(Command::Tick(node, time));
    }
    let (verb, place) = placed(line)?;
    Some(Command::On(verb, place))
}

/// Reads the text behind the word `send`: the sender, the receiver and the octets.
fn sending(text: &[u8], octets: &mut Vec<u8>) -> Result<(usize, Receiver), FaultKind>
    ensures found { IfOk result (λ parts. IsSending text.now parts.0 parts.1 octets.new.items) }
    ensures only { (node : ℕ) (receiver : Receiver) (os : List ℕ)
        → IsSending text.now node receiver os
        → MatchResult result (λ parts. (parts ≡ (node, receiver))
        × (octets.new.items ≡ os)) (λ kind. kind ≡ FaultKind.Memory) }
    ensures memory { result ≡ Err FaultKind.Memory
        → (node : ℕ) × (receiver : Receiver) × (os : List ℕ) × IsSending text.now node receiver os }
    ensures fault { IfErr result (λ kind. IsOneOf kind (FaultKind.Line ∷ FaultKind.Memory ∷ [])) }
{
    let Some((node, rest)) = split_word(text) else {
        return Err(FaultKind::Line);
    };
    let Some((receiver, digits)) = split_word(rest) else {
        return Err(FaultKind::Line);
    };
    let Some(node) = count_of(node) else {
        return Err(FaultKind::Line);
    };
    let Some(receiver) = receiver_of(receiver) else {
        return Err(FaultKind::Line);
    };
    match read_hex(digits, octets) {
        Ok(()) => Ok((node, receiver)),
        Err(kind) => Err(kind),
    }
}

/// What a line asks for. The octets that it names are then in `octets`, and nothing else is.
///
/// # Errors
/// `Line` where the line is not a line of a script, whatever memory there is; `Memory`, of a line that asks that a host sends.
pub fn command_of(line: &[u8], octets: &mut Vec<u8>) -> Result<Command, FaultKind>
    ensures found { IfOk result (λ command. Says line.now command octets.new.items) }
    ensures only { (command : Command) (os : List ℕ) → Says line.now command os
        → MatchResult result (λ found. (found ≡ command) × (octets.new.items ≡ os)) (λ kind.
        kind ≡ FaultKind.Memory) }
    ensures memory { result ≡ Err FaultKind.Memory → IsSendLine line.now }
    ensures fault { IfErr result (λ kind. IsOneOf kind (FaultKind.Line ∷ FaultKind.Memory ∷ [])) }
{
    if let Some(rest) = behind_send(line) {
        return match sending(rest, octets) {
            Ok((node, receiver)) => Ok(Command::Send(node, receiver)),
            Err(kind) => Err(kind),
        };
    }
    octets.clear();
    match bare_command(line) {
        Some(command) => Ok(command),
        None => Err(FaultKind::Line),
    }
}
