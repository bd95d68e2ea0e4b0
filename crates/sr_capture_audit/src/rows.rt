//! Lines of what is printed: each is a word, and values under names. The formats differ in how they spell the same lines.

use crate::shown::{Micros, Millis};
use sr_capture_script::ScriptFault;
use sr_frame::Mac;
use std::fmt;
use std::io::Write;

/// How lines are spelled.
#[derive(Clone, Copy, Debug, PartialEq, Eq)]
pub enum Format {
    /// The word, and names and values behind it.
    Text,
    /// An object of JSON for each line (RFC 8259).
    Json,
    /// The values of lines of one kind, behind their names (RFC 4180).
    Csv,
}

/// A value of a line.
#[derive(Clone, Copy)]
pub enum Value {
    /// A word or letter.
    Word(&'static str),
    /// An address.
    Mac(Mac),
    /// A number.
    Count(u64),
    /// A time in nanoseconds, shown in milliseconds. None: there is none.
    Time(Option<u64>),
    /// A difference of times in nanoseconds, shown in microseconds. None: there is none.
    Skew(Option<i128>),
}

/// A value, and its names in text and elsewhere. Text has no name for some.
#[derive(Clone, Copy)]
pub struct Field {
    /// Its name in text. Empty: it has none there.
    pub label: &'static str,
    /// Its name elsewhere.
    pub key: &'static str,
    /// The value.
    pub value: Value,
}

/// A value with a name in text, and one elsewhere.
pub(crate) const fn named(label: &'static str, key: &'static str, value: Value) -> Field {
    Field { label, key, value }
}

/// A number under a name.
pub(crate) const fn count(key: &'static str, number: u64) -> Field {
    named(key, key, Value::Count(number))
}

/// A value that has no name in text.
pub(crate) const fn bare(key: &'static str, value: Value) -> Field {
    named("", key, value)
}

impl Value {
    /// Whether it is one that is not there.
    fn is_none(self) -> bool {
        matches!(self, Value::Time(None) | Value::Skew(None))
    }

    /// Whether JSON quotes it.
    fn is_text(self) -> bool {
        matches!(self, Value::Word(_) | Value::Mac(_))
    }
}

impl fmt::Display for Value {
    fn fmt<W: fmt::Write>(&self, f: &mut fmt::Formatter<W>) -> fmt::Result {
        match *self {
            Value::Word(word) => f.write_str(word),
            Value::Mac(mac) => write!(f, "{mac}"),
            Value::Count(number) => write!(f, "{number}"),
            Value::Time(Some(time)) => {
                let time = Millis(time);
                write!(f, "{time}")
            }
            Value::Skew(Some(skew)) => {
                let skew = Micros(skew);
                write!(f, "{skew}")
            }
            Value::Time(None) | Value::Skew(None) => f.write_str("none"),
        }
    }
}

/// Prints a value in text, behind its name.
fn print_text<W: Write>(writer: &mut W, field: &Field) -> Result<(), ScriptFault> {
    let Field { label, value, .. } = *field;
    if label.is_empty() {
        write!(writer, " {value}")?;
    } else {
        write!(writer, " {label} {value}")?;
    }
    Ok(())
}

/// Prints a member of an object.
fn print_member<W: Write>(writer: &mut W, field: &Field) -> Result<(), ScriptFault> {
    let Field { key, value, .. } = *field;
    if value.is_none() {
        write!(writer, ",\"{key}\":null")?;
    } else if value.is_text() {
        write!(writer, ",\"{key}\":\"{value}\"")?;
    } else {
        write!(writer, ",\"{key}\":{value}")?;
    }
    Ok(())
}

/// Prints a value between commas. One that is not there is empty.
fn print_cell<W: Write>(writer: &mut W, at: usize, value: Value) -> Result<(), ScriptFault> {
    if at > 0 {
        write!(writer, ",")?;
    }
    if !value.is_none() {
        write!(writer, "{value}")?;
    }
    Ok(())
}

/// Prints the line of an object.
fn print_object<W: Write>(
    writer: &mut W,
    word: &'static str,
    fields: &[Field],
) -> Result<(), ScriptFault> {
    write!(writer, "{{\"line\":\"{word}\"")?;
    for field in fields {
        print_member(writer, field)?;
    }
    writeln!(writer, "}}")?;
    Ok(())
}

/// Prints the line of a table.
fn print_cells<W: Write>(writer: &mut W, fields: &[Field]) -> Result<(), ScriptFault> {
    for at in 0..fields.len() {
        print_cell(writer, at, fields[at].value)?;
    }
    writeln!(writer)?;
    Ok(())
}

/// Prints a line in words.
fn print_words<W: Write>(
    writer: &mut W,
    word: &'static str,
    fields: &[Field],
) -> Result<(), ScriptFault> {
    write!(writer, "{word}")?;
    for field in fields {
        print_text(writer, field)?;
    }
    writeln!(writer)?;
    Ok(())
}

/// Prints a line.
///
/// # Errors
/// `Write` where the writer fails.
pub fn print_row<W: Write>(
    writer: &mut W,
    format: Format,
    word: &'static str,
    fields: &[Field],
) -> Result<(), ScriptFault> {
    match format {
        Format::Text => print_words(writer, word, fields),
        Format::Json => print_object(writer, word, fields),
        Format::Csv => print_cells(writer, fields),
    }
}

/// Prints the names of the values of a table.
///
/// # Errors
/// `Write` where the writer fails.
pub(crate) fn print_names<W: Write>(writer: &mut W, fields: &[Field]) -> Result<(), ScriptFault> {
    for at in 0..fields.len() {
        print_cell(writer, at, Value::Word(fields[at].key))?;
    }
    writeln!(writer)?;
    Ok(())
}
