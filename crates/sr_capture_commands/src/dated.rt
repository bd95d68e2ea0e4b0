//! Lines whose times are told as times of day too.

use sr_dates::Moment;
use std::alloc::Global;
use std::io::{self, ErrorKind, Write};

/// How times are told.
#[derive(Clone, Copy, PartialEq, Eq)]
pub(crate) enum Dating {
    /// As they are: from the earliest packet on.
    Relative,
    /// In lines of words, by times of day in their places, of which the earliest packet has this one.
    Words(Moment),
    /// In lines of objects, by members that have times of day beside them.
    Objects(Moment),
}

/// A writer of lines, in which times are told so.
#[derive(Drop)]
pub(crate) struct Dated<W> {
    inner: W,
    dating: Dating,
    line: Vec<u8>,
}

/// The words behind which a line has a time.
const BEFORE: [&str; 5] = ["from", "to", "at", "since", "until"];

/// The nanoseconds of a time: milliseconds, a point and six digits.
fn nanoseconds_of(time: &str) -> Option<u64> {
    let (whole, part) = time.split_once('.')?;
    if part.len() != 6 || !part.bytes().all(|octet| octet.is_ascii_digit()) {
        return None;
    }
    let whole = whole.parse::<u64>().ok()?;
    let part = part.parse::<u64>().ok()?;
    whole.checked_mul(1_000_000)?.checked_add(part)
}

/// The moment of a time, where it is one.
fn moment_of(first: Moment, time: &str) -> Option<Moment> {
    Some(Moment(first.0.saturating_add(nanoseconds_of(time)?)))
}

/// Writes a line of words, with times of day in the places of its times.
fn write_words<W: Write>(inner: &mut W, first: Moment, line: &str) -> io::Result<()> {
    let mut is_time = false;
    let mut is_first = true;
    for word in line.split(' ') {
        if !is_first {
            inner.write_all(b" ")?;
        }
        is_first = false;
        match moment_of(first, word) {
            Some(moment) if is_time => write!(inner, "{moment}")?,
            _ => inner.write_all(word.as_bytes())?,
        }
        is_time = BEFORE.contains(&word);
    }
    Ok(())
}

/// The name of a member of an object that is a time, without the unit at its end, and the time.
fn time_in(member: &str) -> Option<(&str, &str)> {
    let (name, value) = member.split_once(':')?;
    let name = name
        .trim_start_matches('{')
        .strip_prefix("\"")?
        .strip_suffix("_ms\"")?;
    if BEFORE.contains(&name) {
        Some((name, value.trim_end_matches('}')))
    } else {
        None
    }
}

/// Writes a line of an object, with a member more behind each that is a time. A comma in a text parts it too, and what is parted is written as it
/// stands.
fn write_object<W: Write>(inner: &mut W, first: Moment, line: &str) -> io::Result<()> {
    let (members, end) = match line.strip_suffix("}") {
        Some(members) => (members, "}"),
        None => (line, ""),
    };
    let mut is_first = true;
    for member in members.split(',') {
        if !is_first {
            inner.write_all(b",")?;
        }
        is_first = false;
        inner.write_all(member.as_bytes())?;
        if let Some((name, time)) = time_in(member) {
            if let Some(moment) = moment_of(first, time) {
                write!(inner, ",\"{name}_utc\":\"{moment}\"")?;
            }
        }
    }
    inner.write_all(end.as_bytes())
}

impl<W: Write> Dated<W> {
    /// A writer to which nothing was written.
    pub(crate) fn new(alloc: Global, inner: W, dating: Dating) -> Dated<W> {
        Dated {
            inner,
            dating,
            line: Vec::new(alloc),
        }
    }

    /// What it writes to.
    pub(crate) fn get_ref(&self) -> &W {
        &self.inner
    }

    /// Writes the line that is whole.
    fn end_line(&mut self) -> io::Result<()> {
        let Ok(line) = str::from_utf8(self.line.as_slice()) else {
            return self.inner.write_all(self.line.as_slice());
        };
        match self.dating {
            Dating::Words(first) => write_words(&mut self.inner, first, line)?,
            Dating::Objects(first) => write_object(&mut self.inner, first, line)?,
            Dating::Relative => self.inner.write_all(line.as_bytes())?,
        }
        self.inner.write_all(b"\n")
    }
}

impl<W: Write> Write for Dated<W> {
    fn write(&mut self, buf: &[u8]) -> io::Result<usize> {
        if self.dating == Dating::Relative {
            return self.inner.write(buf);
        }
        for octet in buf {
            if *octet == b'\n' {
                self.end_line()?;
                self.line.clear();
            } else if self.line.push(*octet).is_err() {
                return Err(io::Error::from(ErrorKind::OutOfMemory));
            }
        }
        Ok(buf.len())
    }

    fn flush(&mut self) -> io::Result<()> {
        self.inner.flush()
    }
}
