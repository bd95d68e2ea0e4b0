//! Words of a line, and what it begins with.

ghost use Rattle.std.specs.Prelude.{◌≡◌, ◌↔◌, ◌++◌, ◌∷◌, ℕ, List, codes, IfSome, IsSomeAnd, IsTrue};
ghost use Rattle.sr_session.specs.Octets.{Lacks, IsPlaceOf};
ghost use Rattle.sr_words.specs.Words.{IsComment};

/// Where an octet stands first, sought one by one: for one that is near.
fn near_place_of(octet: u8, octets: &[u8]) -> Option<usize>
    ensures { IsPlaceOf octet octets.now result }
{
    for at in 0..octets.len() {
        if octets[at] == octet {
            return Some(at);
        }
    }
    None
}

/// The word before the first space, and what stands behind that space. None where there is no space.
pub fn split_word(text: &[u8]) -> Option<(&[u8], &[u8])>
    ensures found { IfSome result (λ parts. text.now ≡ parts.0.now ++ 32 ∷ parts.1.now) }
    ensures only { (word rest : List ℕ) → Lacks 32 word → text.now ≡ word ++ 32 ∷ rest
        → IsSomeAnd result (λ parts. (parts.0.now ≡ word) × (parts.1.now ≡ rest)) }
{
    let at = near_place_of(b' ', text)?;
    Some((&text[..at], &text[at + 1..]))
}

/// What stands behind the word `send` and a space.
pub fn behind_send(line: &[u8]) -> Option<&[u8]>
    ensures found { IfSome result (λ rest. line.now ≡ codes "send " ++ rest.now) }
    ensures only { (rest : List ℕ) → line.now ≡ codes "send " ++ rest
        → IsSomeAnd result (λ r. r.now ≡ rest) }
{
    match line {
        [b's', b'e', b'n', b'd', b' ', rest @ ..] => Some(rest),
        _ => None,
    }
}

/// Whether a line begins with `#`, and is ASCII.
pub fn is_comment(line: &[u8]) -> bool
    ensures { IsTrue result ↔ IsComment line.now }
{
    !line.is_empty() && line[0] == b'#' && line.is_ascii()
}
