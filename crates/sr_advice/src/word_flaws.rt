//! What is wrong with a word of a line, and at which of its octets.

ghost use Rattle.std.specs.Prelude.{◌≤◌, length, IfSome};

use crate::flaws::{Flaw, Found};
use crate::forms::Part;

/// What is wrong with a number; `other` where it has another sign than digits.
fn number_in(word: &[u8], other: Flaw) -> Option<Found>
    ensures within { IfSome result (λ found. found.at ≤ length word.now) }
{
    let mut value: u64 = 0;
    for at in 0..word.len() {
        let octet = word[at];
        if !octet.is_ascii_digit() {
            return Some(Found { at, flaw: other });
        }
        let digit = u64::from(octet.saturating_sub(b'0'));
        match value
            .checked_mul(10)
            .and_then(|tens| tens.checked_add(digit))
        {
            Some(more) => value = more,
            None => {
                return Some(Found {
                    at: 0,
                    flaw: Flaw::Large,
                });
            }
        }
    }
    if word.len() > 1 && word[0] == b'0' {
        return Some(Found {
            at: 0,
            flaw: Flaw::Zero,
        });
    }
    None
}

/// What is wrong with hexadecimal digits.
fn digits_in(word: &[u8]) -> Option<Found>
    ensures within { IfSome result (λ found. found.at ≤ length word.now) }
{
    for at in 0..word.len() {
        if !word[at].is_ascii_hexdigit() {
            return Some(Found {
                at,
                flaw: Flaw::Digit,
            });
        }
    }
    if word.len() % 2 == 1 {
        return Some(Found {
            at: word.len() - 1,
            flaw: Flaw::Odd,
        });
    }
    None
}

/// What is wrong with a port; C is one where there is an interlink.
fn port_in(word: &[u8], has_interlink: bool, flaw: Flaw) -> Option<Found>
    ensures within { IfSome result (λ found. found.at ≤ length word.now) }
{
    match word {
        b"A" | b"B" => None,
        b"C" if has_interlink => None,
        _ => Some(Found { at: 0, flaw }),
    }
}

/// What is wrong with a destination.
fn destination_in(word: &[u8]) -> Option<Found>
    ensures within { IfSome result (λ found. found.at ≤ length word.now) }
{
    match word {
        b"all" => None,
        _ => number_in(word, Flaw::Destination),
    }
}

/// What is wrong with a word.
pub(crate) fn word_in(word: &[u8], part: Part) -> Option<Found>
    ensures within { IfSome result (λ found. found.at ≤ length word.now) }
{
    match part {
        Part::Port => port_in(word, false, Flaw::Port),
        Part::PortOrInterlink => port_in(word, true, Flaw::PortOrInterlink),
        Part::Time => number_in(word, Flaw::Time),
        Part::Number => number_in(word, Flaw::Number),
        Part::Destination => destination_in(word),
        Part::Octets => digits_in(word),
    }
}
