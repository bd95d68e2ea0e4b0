//! The forms in which an address is written.

use hex::FromHex;
use sr_frame::Mac;

/// How many characters an address has that is written as six pairs with a sign between them.
const PAIRS_LEN: usize = 17;

/// The address that 12 hexadecimal digits of either case spell.
fn from_digits(digits: &[u8]) -> Option<Mac> {
    let octets = <[u8; 6] as FromHex>::from_hex(digits).ok()?;
    Some(Mac(octets))
}

/// The address that six pairs of digits spell which the same sign joins.
fn from_pairs(text: &[u8], sign: u8) -> Option<Mac> {
    if text.len() != PAIRS_LEN {
        return None;
    }
    let mut digits = [0; 12];
    for pair in 0..6 {
        if pair > 0 && text[3 * pair - 1] != sign {
            return None;
        }
        digits[2 * pair] = text[3 * pair];
        digits[2 * pair + 1] = text[3 * pair + 1];
    }
    from_digits(&digits)
}

/// The address that a word spells: 12 hexadecimal digits, or six pairs of them with colons or hyphens between them.
pub fn mac_of(word: &str) -> Option<Mac> {
    let text = word.as_bytes();
    from_digits(text)
        .or_else(|| from_pairs(text, b':'))
        .or_else(|| from_pairs(text, b'-'))
}
