//! Text in which nothing is markup.

ghost use Rattle.std.specs.Prelude.{◌≡◌, ◌++◌, OnOk, IfOk, string_bytes, codes};
ghost use Rattle.sr_markup.specs.Escapes.{spelled_char, spelled_text, four_digits, AreWithoutMarkup};

use crate::hidden::{is_hidden, push_number};
use std::alloc::{AllocError, Global};
use std::fmt;
use std::marker::Model;

/// Text that stands in a page as it is, between tags or as the value of an attribute in quotes: nothing in it is markup. What shows nothing
/// is shown by its number, as `\u{202e}`.
#[derive(Drop)]
pub struct Escaped {
    text: String,
}

impl Model for Escaped {
    ghost use Rattle.std.specs.Prelude.{ℕ, List, string_bytes};

    ghost Value = { List ℕ };

    ghost view = { λ e. string_bytes e.text };
}

/// Appends a character that shows nothing, by its number.
fn push_hidden(text: &mut String, c: char) -> Result<(), AllocError>
    ensures { OnOk result (string_bytes text.new
        ≡ string_bytes text.old ++ (codes "\\u{" ++ (four_digits c ++ codes "}"))) }
{
    text.push_str("\\u{")?;
    push_number(text, c)?;
    text.push_str("}")
}

/// Appends a character as it is spelled in a page.
fn push_spelled(text: &mut String, c: char) -> Result<(), AllocError>
    ensures { OnOk result (string_bytes text.new ≡ string_bytes text.old ++ spelled_char c) }
{
    match c {
        '&' => text.push_str("&amp;"),
        '<' => text.push_str("&lt;"),
        '>' => text.push_str("&gt;"),
        '"' => text.push_str("&quot;"),
        '\'' => text.push_str("&#39;"),
        _ if is_hidden(c) => push_hidden(text, c),
        _ => text.push(c),
    }
}

/// A text as it is spelled in a page.
fn spelled(alloc: Global, text: &str) -> Result<String, AllocError>
    ensures { IfOk result (λ s. string_bytes s ≡ spelled_text text.now) }
{
    let mut out = String::new(alloc);
    for c in text.chars() {
        push_spelled(&mut out, c)?;
    }
    Ok(out)
}

impl Escaped {
    /// A text as it stands in a page.
    ///
    /// # Errors
    /// An allocation failed.
    pub fn of(alloc: Global, text: &str) -> Result<Escaped, AllocError>
        ensures exact { IfOk result (λ e. e ≡ spelled_text text.now) }
        ensures plain { IfOk result AreWithoutMarkup }
    {
        let text = spelled(alloc, text)?;
        Ok(Escaped { text })
    }

    /// Its octets, as they stand in a page.
    pub fn as_str(&self) -> &str
        ensures { result.now ≡ self.now }
    {
        &self.text
    }
}

impl fmt::Display for Escaped {
    fn fmt<W: fmt::Write>(&self, f: &mut fmt::Formatter<W>) -> fmt::Result {
        f.write_str(&self.text)
    }
}
