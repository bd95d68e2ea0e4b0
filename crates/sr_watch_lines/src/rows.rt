//! Lines of what is printed: each is a word, and values under names.

use crate::shown::{Micros, Millis, Seconds};
use sr_dates::Moment;
use sr_frame::Mac;
use std::fmt;
use std::io::{self, Write};

/// How lines are spelled.
#[derive(Clone, Copy, Debug, PartialEq, Eq)]
pub enum Format {
    /// The word, and names and values behind it.
    Text,
    /// An object of JSON for each line (RFC 8259).
    Json,
}

/// A value of a line.
#[derive(Clone, Copy)]
pub(crate) enum Value {
    /// A word or letter.
    Word(&'static str),
    /// An address.
    Mac(Mac),
    /// A number.
    Count(u64),
    /// A difference of numbers.
    Change(i128),
    /// A time of day.
    At(Moment),
    /// A time in nanoseconds, shown in seconds.
    Seconds(u64),
    /// A time in nanoseconds, shown in milliseconds. None: there is none.
    Time(Option<u64>),
    /// A difference of times in nanoseconds, shown in microseconds. None: there is none.
    Skew(Option<i128>),
}

/// A value, and its names in text and elsewhere. Text has no name for some.
#[derive(Clone, Copy)]
pub(crate) struct Field {
    /// Its name in text. Empty: it has none there.
    pub label: &'static str,
    /// Its name elsewhere.
    pub key: &'static str,
    /// The value.
    pub value: Value,
}

/// A value under a name.
pub(crate) const fn named(key: &'static str, value: Value) -> Field {
    Field {
        label: key,
        key,
        value,
    }
}

/// A number under a name.
pub(crate) const fn count(key: &'static str, number: u64) -> Field {
    named(key, Value::Count(number))
}

/// A value that has no name in text.
pub(crate) const fn bare(key: &'static str, value: Value) -> Field {
    Field {
        label: "",
        key,
        value,
    }
}

impl Value {
    /// Whether it is one that is not there.
    fn is_none(self) -> bool {
        matches!(self, Value::Time(None) | Value::Skew(None))
    }

    /// Whether JSON quotes it.
    fn is_text(self) -> bool {
        matches!(self, Value::Word(_) | Value::Mac(_) | Value::At(_))
    }
}

impl fmt::Display for Value {
    fn fmt<W: fmt::Write>(&self, f: &mut fmt::Formatter<W>) -> fmt::Result {
        match *self {
            Value::Word(word) => f.write_str(word),
            Value::Mac(mac) => write!(f, "{mac}"),
            Value::Count(number) => write!(f, "{number}"),
            Value::Change(number) => write!(f, "{number}"),
            Value::At(moment) => write!(f, "{moment}"),
            Value::Seconds(time) => {
                let time = Seconds(time);
                write!(f, "{time}")
            }
            Value::Time(Some(time)) => {
                let time = Millis(time);
                write!(f, "{time}")
            }
            Value::Skew(Some(skew)) => {
                let skew = Micros(skew);
                write!(f, "{skew}")
            }
            Value::Time(None) | Value::Skew(None) => f.write_str("none"),
        }
    }
}

/// Prints a value in text, behind its name.
fn print_text<W: Write>(writer: &mut W, field: &Field) -> io::Result<()> {
    let Field { label, value, .. } = *field;
    if label.is_empty() {
        write!(writer, " {value}")
    } else {
        write!(writer, " {label} {value}")
    }
}

/// Prints a member of an object.
fn print_member<W: Write>(writer: &mut W, field: &Field) -> io::Result<()> {
    let Field { key, value, .. } = *field;
    if value.is_none() {
        write!(writer, ",\"{key}\":null")
    } else if value.is_text() {
        write!(writer, ",\"{key}\":\"{value}\"")
    } else {
        write!(writer, ",\"{key}\":{value}")
    }
}

/// Prints values behind what a line begins with.
fn print_fields<W: Write>(writer: &mut W, format: Format, fields: &[Field]) -> io::Result<()> {
    for field in fields {
        match format {
            Format::Text => print_text(writer, field)?,
            Format::Json => print_member(writer, field)?,
        }
    }
    Ok(())
}

/// Prints a line. An object has the values of the head behind its word, and words have not: they stand behind a line that has them.
pub(crate) fn print_row<W: Write>(
    writer: &mut W,
    format: Format,
    word: &'static str,
    head: &[Field],
    fields: &[Field],
) -> io::Result<()> {
    match format {
        Format::Text => {
            write!(writer, "{word}")?;
            print_fields(writer, format, fields)?;
            writeln!(writer)
        }
        Format::Json => {
            write!(writer, "{{\"line\":\"{word}\"")?;
            print_fields(writer, format, head)?;
            print_fields(writer, format, fields)?;
            writeln!(writer, "}}")
        }
    }
}
