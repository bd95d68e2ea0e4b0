//! Lines as words, or as objects.

use sr_json_lines::{JsonLines, JsonStatus};
use sr_options::LineFormat;
use sr_session::Fault;
use sr_text::Text;
use std::alloc::{AllocError, Global};
use std::io::{self, Write};

/// A writer of lines that are spelled so.
#[derive(Drop)]
pub enum Spelled<W> {
    /// As they are.
    Text(W),
    /// Each as an object.
    Lines(JsonLines<W>),
    /// Those of a status, as one object.
    Status(JsonStatus<W>),
}

impl<W> Spelled<W> {
    /// A writer to which nothing was written.
    pub fn new(alloc: Global, format: LineFormat, inner: W) -> Spelled<W> {
        match format {
            LineFormat::Text => Spelled::Text(inner),
            LineFormat::Json => Spelled::Lines(JsonLines::new(alloc, inner)),
        }
    }

    /// What it writes to.
    pub fn get_ref(&self) -> &W {
        match self {
            Spelled::Text(inner) => inner,
            Spelled::Lines(lines) => lines.get_ref(),
            Spelled::Status(status) => status.get_ref(),
        }
    }

    /// Whether all could be spelled. An error: an allocation failed, and not a write.
    pub fn spelt(&self) -> Result<(), AllocError> {
        match self {
            Spelled::Text(_) => Ok(()),
            Spelled::Lines(lines) => lines.spelt(),
            Spelled::Status(status) => status.spelt(),
        }
    }

    /// What ended a run that wrote to it: where an allocation failed here, that, and not the write.
    pub fn fault_of(&self, fault: Fault) -> Fault {
        match self {
            Spelled::Text(_) => fault,
            Spelled::Lines(lines) => lines.fault_of(fault),
            Spelled::Status(status) => status.fault_of(fault),
        }
    }
}

impl<W: Write> Write for Spelled<W> {
    fn write(&mut self, buf: &[u8]) -> io::Result<usize> {
        match self {
            Spelled::Text(inner) => inner.write(buf),
            Spelled::Lines(lines) => lines.write(buf),
            Spelled::Status(status) => status.write(buf),
        }
    }

    fn flush(&mut self) -> io::Result<()> {
        match self {
            Spelled::Text(inner) => inner.flush(),
            Spelled::Lines(lines) => lines.flush(),
            Spelled::Status(status) => status.flush(),
        }
    }
}
