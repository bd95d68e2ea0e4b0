//! Pieces of objects, and the values that stand behind words of a line.

ghost use Rattle.std.specs.Prelude.{◌≡◌, ◌++◌, ◌∷◌, ℕ, List, IfOk, OnOk, IsSomeAnd};
ghost use Rattle.sr_session.specs.Octets.{Lacks};

use sr_text::Text;
use sr_words::split_word;
use std::alloc::AllocError;

/// Appends two pieces.
pub(crate) fn append_two(text: &mut Text, first: &[u8], second: &[u8]) -> Result<(), AllocError>
    ensures { OnOk result (text.new ≡ text.old ++ (first.now ++ second.now)) }
{
    text.extend_from_slice(first)?;
    text.extend_from_slice(second)
}

/// Appends a value, with octets before and behind it.
pub(crate) fn append_value(
    text: &mut Text,
    before: &[u8],
    value: &[u8],
    behind: &[u8],
) -> Result<(), AllocError>
    ensures { OnOk result (text.new ≡ text.old ++ (before.now ++ (value.now ++ behind.now))) }
{
    append_two(text, before, value)?;
    text.extend_from_slice(behind)
}

/// Appends two values, with octets before, between and behind them.
pub(crate) fn append_values(
    text: &mut Text,
    before: &[u8],
    first: &[u8],
    between: &[u8],
    second: &[u8],
    behind: &[u8],
) -> Result<(), AllocError>
    ensures { OnOk result (text.new ≡ text.old ++ (before.now ++ (first.now ++ (between.now
        ++ (second.now ++ behind.now))))) }
{
    append_two(text, before, first)?;
    append_two(text, between, second)?;
    text.extend_from_slice(behind)
}

/// The value behind a label, and what stands behind the space at its end. None where there is no such value.
pub(crate) fn value_behind<'a>(label: &[u8], text: &'a [u8]) -> Option<(&'a [u8], &'a [u8])>
    ensures { (value rest : List ℕ) → Lacks 32 value
        → text.now ≡ label.now ++ (value ++ 32 ∷ rest)
        → IsSomeAnd result (λ parts. (parts.0.now ≡ value) × (parts.1.now ≡ rest)) }
{
    let rest = text.strip_prefix(label)?;
    split_word(rest)
}

/// The first word, and what stands behind the space at its end; all, and nothing, where there is no space.
pub(crate) fn first_word(text: &[u8]) -> (&[u8], &[u8])
    ensures word { (word rest : List ℕ) → Lacks 32 word → text.now ≡ word ++ 32 ∷ rest
        → result.0.now ≡ word }
    ensures rest { (word rest : List ℕ) → Lacks 32 word → text.now ≡ word ++ 32 ∷ rest
        → result.1.now ≡ rest }
{
    match split_word(text) {
        Some(parts) => parts,
        None => (text, &[]),
    }
}

/// Appends a value behind a label, with octets before it; `null` where it is not there. The answer is what stands behind it.
pub(crate) fn append_labelled<'a>(
    text: &mut Text,
    before: &[u8],
    label: &[u8],
    line: &'a [u8],
) -> Result<&'a [u8], AllocError>
    ensures text { (value rest : List ℕ) → Lacks 32 value
        → line.now ≡ label.now ++ (value ++ 32 ∷ rest)
        → OnOk result (text.new ≡ text.old ++ (before.now ++ value)) }
    ensures rest { (value rest : List ℕ) → Lacks 32 value
        → line.now ≡ label.now ++ (value ++ 32 ∷ rest) → IfOk result (λ r. r.now ≡ rest) }
{
    let (value, rest): (&[u8], &'a [u8]) = match value_behind(label, line) {
        Some(parts) => parts,
        None => (b"null", line),
    };
    append_two(text, before, value)?;
    Ok(rest)
}
