//! Octets from the hexadecimal digits of a line.

ghost use Rattle.std.specs.Prelude.{◌≡◌, ◌∷◌, [], ℕ, List, length, IfErr, OnOk, Err};
ghost use Rattle.sr_session.specs.Lines.{IsOneOf};
ghost use Rattle.sr_words.specs.Words.{IsHex};
ghost use Rattle.std.specs.List.{AllPass};
ghost use Rattle.hex.specs.Hex.{is_hex_digit};

use sr_hex::are_digits;
use sr_session::FaultKind;

/// Gives a list more octets than it has. Where memory has to grow for them, the digits are looked at first. It stands apart,
/// so that octets that are no more than those of the line before cost no call.
// speed: D-words-hex-first
#[inline(never)]
fn lengthen(digits: &[u8], octets: &mut Vec<u8>, count: usize) -> Result<(), FaultKind>
    ensures ok { OnOk result (length octets.new.items ≡ count) }
    ensures bad { result ≡ Err FaultKind.Line → AllPass is_hex_digit digits.now → ⊥ }
    ensures memory { result ≡ Err FaultKind.Memory → AllPass is_hex_digit digits.now }
    ensures fault { IfErr result (λ kind. IsOneOf kind (FaultKind.Line ∷ FaultKind.Memory ∷ [])) }
{
    if octets.capacity() < count && !are_digits(digits) {
        return Err(FaultKind::Line);
    }
    match octets.resize(count, 0) {
        Ok(()) => Ok(()),
        Err(_) => Err(FaultKind::Memory),
    }
}

/// Gives a list so many octets.
// speed: D-words-hex-first
#[inline(always)]
fn make_room(digits: &[u8], octets: &mut Vec<u8>, count: usize) -> Result<(), FaultKind>
    ensures ok { OnOk result (length octets.new.items ≡ count) }
    ensures bad { result ≡ Err FaultKind.Line → AllPass is_hex_digit digits.now → ⊥ }
    ensures memory { result ≡ Err FaultKind.Memory → AllPass is_hex_digit digits.now }
    ensures fault { IfErr result (λ kind. IsOneOf kind (FaultKind.Line ∷ FaultKind.Memory ∷ [])) }
{
    if octets.len() < count {
        return lengthen(digits, octets, count);
    }
    octets.truncate(count);
    Ok(())
}

/// Reads hexadecimal digits of either case, two an octet, into `octets`, in place of what it held.
///
/// # Errors
/// `Line` where the digits are none, not even in number, or not all digits, whatever memory there is; `Memory`. What
/// `octets` then holds says nothing.
pub fn read_hex(digits: &[u8], octets: &mut Vec<u8>) -> Result<(), FaultKind>
    ensures found { OnOk result (IsHex digits.now octets.new.items) }
    ensures only { (os : List ℕ) → IsHex digits.now os
        → IfErr result (λ kind. kind ≡ FaultKind.Memory) }
    ensures memory { result ≡ Err FaultKind.Memory → (os : List ℕ) × IsHex digits.now os }
    ensures fault { IfErr result (λ kind. IsOneOf kind (FaultKind.Line ∷ FaultKind.Memory ∷ [])) }
{
    let count = digits.len() / 2;
    if digits.len() % 2 != 0 || count == 0 {
        return Err(FaultKind::Line);
    }
    if let Err(kind) = make_room(digits, octets, count) {
        return Err(kind);
    }
    if sr_hex::read_hex(digits, octets.as_mut_slice()) {
        Ok(())
    } else {
        Err(FaultKind::Line)
    }
}
