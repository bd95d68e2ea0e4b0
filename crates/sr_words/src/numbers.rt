//! Decimal numbers.

ghost use Rattle.std.specs.Prelude.{◌≡◌, ◌<◌, ◌≤◌, ◌^◌, ◌↔◌, ◌++◌, ◌∷◌, ℕ, List, IfSome, IsSomeAnd, IsTrue, length, slice_index, take, drop, false};
ghost use Rattle.std.specs.Char.{is_ascii_digit};
ghost use Rattle.std.specs.Option.{SomeIff};
ghost use Rattle.std.specs.Fmt.{decimal};
ghost use Rattle.std.specs.Str.Parse.{AllDigits, digits_value};

/// The most digits whose value is never above 18446744073709551615.
const FEW: usize = 19;

/// The value of the decimal digits at the front of octets, and how many they are. No more than nineteen are read.
// speed: D-words-digits
#[inline(always)]
fn front_value(octets: &[u8]) -> (u64, usize)
    ensures within { result.1 ≤ length octets.now }
    ensures few { result.1 ≤ 19 }
    ensures all { AllDigits 10 (take result.1 octets.now) }
    ensures value { result.0 ≡ digits_value 10 (take result.1 octets.now) }
    ensures end { result.1 < 19 → result.1 < length octets.now
        → is_ascii_digit (slice_index octets.now result.1) ≡ false }
{
    let most = octets.len().min(FEW);
    let mut value = 0u64;
    for at in 0..most {
        let digit = octets[at];
        if !digit.is_ascii_digit() {
            return (value, at);
        }
        value = value * 10 + u64::from(digit - b'0');
    }
    (value, most)
}

/// The value of few decimal digits. None where an octet is no digit.
fn value_of_few(digits: &[u8]) -> Option<u64>
    requires { length digits.now ≤ 19 }
    ensures { SomeIff result (AllDigits 10 digits.now) (digits_value 10 digits.now) }
{
    let (value, count) = front_value(digits);
    if count < digits.len() {
        return None;
    }
    Some(value)
}

/// The value of decimal digits. None where an octet is no digit, or the value is above 18446744073709551615.
fn value_of_many(digits: &[u8]) -> Option<u64>
    ensures { SomeIff result (AllDigits 10 digits.now
        × (digits_value 10 digits.now < 2 ^ 64)) (digits_value 10 digits.now) }
{
    let mut value = 0u64;
    for digit in digits {
        if !digit.is_ascii_digit() {
            return None;
        }
        value = value
            .checked_mul(10)?
            .checked_add(u64::from(*digit - b'0'))?;
    }
    Some(value)
}

/// The number that decimal digits spell, whether they are few or many.
fn value_of(digits: &[u8]) -> Option<u64>
    ensures { SomeIff result (AllDigits 10 digits.now
        × (digits_value 10 digits.now < 2 ^ 64)) (digits_value 10 digits.now) }
{
    if digits.len() > FEW {
        return value_of_many(digits);
    }
    value_of_few(digits)
}

/// Whether a 0 stands before other octets.
fn has_leading_zero(word: &[u8]) -> bool
    ensures { IsTrue result ↔ ((1 < length word.now) × (slice_index word.now 0 ≡ 48)) }
{
    word.len() > 1 && word[0] == b'0'
}

/// The number that a word spells: decimal digits without a sign and without leading zeros.
/// None where it spells none, or one above 18446744073709551615.
pub fn number_of(word: &[u8]) -> Option<u64>
    ensures found { IfSome result (λ n. word.now ≡ decimal n) }
    ensures only { (n : ℕ) → n < 2 ^ 64 → word.now ≡ decimal n → result ≡ Some n }
{
    if word.is_empty() || has_leading_zero(word) {
        return None;
    }
    value_of(word)
}

/// The number of nineteen digits at most that a text begins with, and how many octets it has with the space that ends it. None where
/// there is none, or the text has fewer than twenty octets.
// speed: D-words-front-number
#[inline(always)]
pub fn front_number(text: &[u8]) -> Option<(u64, usize)>
    ensures found { IfSome result (λ front.
        text.now ≡ decimal front.0 ++ 32 ∷ drop front.1 text.now) }
    ensures within { IfSome result (λ front. front.1 ≤ length text.now) }
    ensures few { IfSome result (λ front. front.0 < 10 ^ 19) }
    ensures only { (n : ℕ) (rest : List ℕ) → n < 10 ^ 19 → 20 ≤ length text.now
        → text.now ≡ decimal n ++ 32 ∷ rest
        → IsSomeAnd result (λ front. (front.0 ≡ n) × (drop front.1 text.now ≡ rest)) }
{
    if text.len() <= FEW {
        return None;
    }
    let (value, count) = front_value(text);
    if count == 0 {
        return None;
    }
    if text[count] != b' ' || has_leading_zero(&text[..count]) {
        return None;
    }
    Some((value, count + 1))
}
