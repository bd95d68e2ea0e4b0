//! What all parts of a page are written by.

ghost use Rattle.std.specs.Prelude.{◌≡◌, ◌==◌, if◌then◌else◌};

use crate::shown::Count;
use sr_frame::Mac;
use sr_markup::Escaped;
use std::io::{self, Write};

/// Writes text of the page's own, in which tags are tags.
///
/// # Errors
/// The writer fails.
pub fn put<W: Write>(writer: &mut W, text: &str) -> io::Result<()> {
    writer.write_all(text.as_bytes())
}

/// Writes texts of the page's own, and escaped ones, one behind the other.
///
/// # Errors
/// The writer fails.
pub fn put_all<W: Write>(writer: &mut W, texts: &[&str]) -> io::Result<()> {
    for text in texts {
        put(writer, text)?;
    }
    Ok(())
}

/// Writes text from outside, in which nothing is a tag.
///
/// # Errors
/// The writer fails.
pub fn put_escaped<W: Write>(writer: &mut W, text: &Escaped) -> io::Result<()> {
    put(writer, text.as_str())
}

/// Writes a number.
///
/// # Errors
/// The writer fails.
pub fn put_count<W: Write>(writer: &mut W, count: u64) -> io::Result<()> {
    let count = Count(count);
    write!(writer, "{count}")
}

/// The word that fits a number: that for one, or that for any other.
pub fn word_for(count: u64, one: &'static str, many: &'static str) -> &'static str
    ensures { result.now ≡ (if count == 1 then one.now else many.now) }
{
    if count == 1 { one } else { many }
}

/// Writes a number and what is counted.
///
/// # Errors
/// The writer fails.
pub fn put_some<W: Write>(
    writer: &mut W,
    count: u64,
    one: &'static str,
    many: &'static str,
) -> io::Result<()> {
    put_count(writer, count)?;
    put_all(writer, &["\u{a0}", word_for(count, one, many)])
}

/// Writes an address, as a word that is not broken.
///
/// # Errors
/// The writer fails.
pub fn put_mac<W: Write>(writer: &mut W, mac: Mac) -> io::Result<()> {
    write!(writer, "<span class=\"mac\">{mac}</span>")
}

/// Opens a section with a heading, which `name` tells apart from others.
///
/// # Errors
/// The writer fails.
pub fn open_section<W: Write>(
    writer: &mut W,
    name: &'static str,
    heading: &'static str,
) -> io::Result<()> {
    put_all(
        writer,
        &[
            "<section aria-labelledby=\"h-",
            name,
            "\"><h2 id=\"h-",
            name,
            "\">",
            heading,
            "</h2>\n",
        ],
    )
}

/// Ends a section.
///
/// # Errors
/// The writer fails.
pub fn close_section<W: Write>(writer: &mut W) -> io::Result<()> {
    put(writer, "</section>\n")
}

/// Writes the head of a column of words.
pub(crate) fn put_head<W: Write>(writer: &mut W, name: &'static str) -> io::Result<()> {
    put_all(writer, &["<th scope=\"col\">", name, "</th>"])
}

/// Writes the heads of columns of numbers.
pub(crate) fn put_number_heads<W: Write>(writer: &mut W, names: &[&'static str]) -> io::Result<()> {
    for name in names {
        put(writer, "<th scope=\"col\" class=\"num\">")?;
        put(writer, name)?;
        put(writer, "</th>")?;
    }
    Ok(())
}

/// Writes a cell with a number, of this class where it is not 0.
pub(crate) fn put_cell<W: Write>(
    writer: &mut W,
    count: u64,
    class: &'static str,
) -> io::Result<()> {
    let own = if count == 0 { "nil" } else { class };
    let shown = Count(count);
    write!(
        writer,
        "<td class=\"num {own}\" data-v=\"{count}\">{shown}</td>"
    )
}
