//! Characters that show nothing, as their numbers.

ghost use Rattle.std.specs.Prelude.{◌≡◌, ◌<◌, ◌++◌, ◌∷◌, [], OnOk, string_bytes};
ghost use Rattle.std.specs.Char.{digit_char};
ghost use Rattle.sr_markup.specs.Escapes.{lies_within, is_control, is_hidden, four_digits};

use std::alloc::AllocError;

/// Whether a character is one of these, from the first to the last.
fn lies_within(first: u32, last: u32, c: char) -> bool
    ensures { result ≡ lies_within first last c }
{
    let code = u32::from(c);
    first <= code && code <= last
}

/// Whether a character is a control.
fn is_control(c: char) -> bool
    ensures { result ≡ is_control c }
{
    lies_within(0, 0x1F, c) || lies_within(0x7F, 0x9F, c)
}

/// Whether a character shows nothing, or turns the direction of what stands beside it: controls, spaces without a width, and marks of
/// direction (choice of this project, by the categories Cc, Zl, Zp and most of Cf of Unicode).
pub(crate) fn is_hidden(c: char) -> bool
    ensures { result ≡ is_hidden c }
{
    is_control(c)
        || lies_within(0x200B, 0x200F, c)
        || lies_within(0x2028, 0x202E, c)
        || lies_within(0x2060, 0x206F, c)
}

/// Appends a hexadecimal digit.
fn push_digit(text: &mut String, digit: u8) -> Result<(), AllocError>
    requires { digit < 16 }
    ensures { OnOk result (string_bytes text.new ≡ string_bytes text.old ++ digit_char digit ∷ []) }
{
    let octet = if digit < 10 {
        b'0' + digit
    } else {
        b'a' + (digit - 10)
    };
    text.push(char::from(octet))
}

/// Appends the last four hexadecimal digits of the number of a character.
pub(crate) fn push_number(text: &mut String, c: char) -> Result<(), AllocError>
    ensures { OnOk result (string_bytes text.new ≡ string_bytes text.old ++ four_digits c) }
{
    let code = u32::from(c);
    push_digit(text, (code / 4096 % 16) as u8)?;
    push_digit(text, (code / 256 % 16) as u8)?;
    push_digit(text, (code / 16 % 16) as u8)?;
    push_digit(text, (code % 16) as u8)
}
