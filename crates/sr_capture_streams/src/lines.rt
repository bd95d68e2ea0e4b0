//! The lines of streams.

use sr_capture_audit::Format;
use sr_capture_script::ScriptFault;
use sr_streams::{Kind, Stream, Streams};
use std::fmt;
use std::io::Write;

/// How a name is spelled.
#[derive(Clone, Copy, Debug, PartialEq, Eq)]
enum Spelling {
    /// Between spaces: each octet that is no visible ASCII is `\x` and two digits, and `\` is `\\`.
    Word,
    /// Between quotation marks of JSON (RFC 8259).
    Quoted,
}

/// A name, as it is spelled.
#[derive(Clone, Copy)]
struct Name<'a> {
    octets: &'a [u8],
    spelling: Spelling,
}

/// A digit of a number in base 16.
fn digit_of(value: u8) -> char {
    match value {
        0..=9 => char::from(b'0' + value),
        _ => char::from(b'a' + (value % 16).saturating_sub(10)),
    }
}

/// Writes an octet that stands for no character.
fn escape<W: fmt::Write>(f: &mut fmt::Formatter<W>, octet: u8, spelling: Spelling) -> fmt::Result {
    f.write_str(match spelling {
        Spelling::Word => "\\x",
        Spelling::Quoted => "\\u00",
    })?;
    f.write_char(digit_of(octet / 16))?;
    f.write_char(digit_of(octet % 16))
}

/// Writes an octet of a name.
fn write_octet<W: fmt::Write>(
    f: &mut fmt::Formatter<W>,
    octet: u8,
    spelling: Spelling,
) -> fmt::Result {
    match octet {
        b'\\' => f.write_str("\\\\"),
        b'"' if spelling == Spelling::Quoted => f.write_str("\\\""),
        b'!'..=b'~' => f.write_char(char::from(octet)),
        b' ' if spelling == Spelling::Quoted => f.write_char(' '),
        _ => escape(f, octet, spelling),
    }
}

impl fmt::Display for Name<'_> {
    fn fmt<W: fmt::Write>(&self, f: &mut fmt::Formatter<W>) -> fmt::Result {
        for octet in self.octets {
            write_octet(f, *octet, self.spelling)?;
        }
        Ok(())
    }
}

/// The word for what a stream is.
fn word_of(kind: Kind) -> &'static str {
    match kind {
        Kind::Goose => "goose",
        Kind::Sampled => "sv",
    }
}

/// Prints the line of a stream in words.
fn print_words<W: Write>(writer: &mut W, stream: &Stream) -> Result<(), ScriptFault> {
    let src = stream.src;
    let kind = word_of(stream.kind);
    let name = Name {
        octets: stream.name.as_slice(),
        spelling: Spelling::Word,
    };
    write!(writer, "stream {src} {kind} {name}")?;
    let frames = stream.numbers.came();
    let missing = stream.numbers.missing(stream.kind);
    let restarts = stream.numbers.restarts();
    writeln!(
        writer,
        " frames {frames} missing {missing} restarts {restarts}"
    )?;
    Ok(())
}

/// Prints the line of a stream as an object of JSON.
fn print_object<W: Write>(writer: &mut W, stream: &Stream) -> Result<(), ScriptFault> {
    let src = stream.src;
    let kind = word_of(stream.kind);
    let name = Name {
        octets: stream.name.as_slice(),
        spelling: Spelling::Quoted,
    };
    write!(
        writer,
        "{{\"line\":\"stream\",\"source\":\"{src}\",\"kind\":\"{kind}\",\"name\":\"{name}\""
    )?;
    let frames = stream.numbers.came();
    let missing = stream.numbers.missing(stream.kind);
    let restarts = stream.numbers.restarts();
    writeln!(
        writer,
        ",\"frames\":{frames},\"missing\":{missing},\"restarts\":{restarts}}}"
    )?;
    Ok(())
}

/// Prints how many messages came of streams that are not kept.
fn print_left_out<W: Write>(
    writer: &mut W,
    format: Format,
    frames: u64,
) -> Result<(), ScriptFault> {
    if frames == 0 {
        return Ok(());
    }
    match format {
        Format::Text => writeln!(writer, "streams left_out {frames}")?,
        Format::Json => writeln!(writer, "{{\"line\":\"streams\",\"left_out\":{frames}}}")?,
        Format::Csv => {}
    }
    Ok(())
}

/// Prints a line for each stream, in the order in which they were first heard, and one for the messages of those beyond the 1024th. A table
/// has no place for them.
///
/// # Errors
/// `Write` where the writer fails.
pub fn print_streams<W: Write>(
    writer: &mut W,
    format: Format,
    streams: &Streams,
) -> Result<(), ScriptFault> {
    for stream in streams.streams() {
        match format {
            Format::Text => print_words(writer, stream)?,
            Format::Json => print_object(writer, stream)?,
            Format::Csv => {}
        }
    }
    print_left_out(writer, format, streams.left_out())
}
