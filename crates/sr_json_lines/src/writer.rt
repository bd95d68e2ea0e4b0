//! A writer that takes lines and writes an object for each.

ghost use Rattle.std.specs.Prelude.{◌≡◌, false, is_err};
ghost use Rattle.sr_json_lines.specs.Lacks.{fault_by, lines_have_lack};

use crate::events::append_line_object;
use crate::lack::fault_by;
use sr_session::{Fault, write_out};
use sr_text::Text;
use std::alloc::{AllocError, Global};
use std::io::{self, ErrorKind, Write};

/// So many octets of objects are written before more lines are taken.
const AT_ONCE: usize = 64 * 1024;

/// A writer that takes lines, and writes an object for each whole line: as it is flushed, or earlier where there are many.
#[derive(Drop)]
pub struct JsonLines<W> {
    inner: W,
    // The octets of the line that has not ended yet.
    line: Vec<u8>,
    // The objects that are not written yet.
    objects: Text,
    // That an allocation failed, if one did.
    lack: Option<AllocError>,
}

impl<W> JsonLines<W> {
    /// A writer that writes to this one.
    pub fn new(alloc: Global, inner: W) -> JsonLines<W>
        ensures { lines_have_lack result ≡ false }
    {
        JsonLines {
            inner,
            line: Vec::new(alloc),
            objects: Text::new(alloc),
            lack: None,
        }
    }

    /// What it writes to.
    pub fn get_ref(&self) -> &W {
        &self.inner
    }

    /// Whether all could be spelled. An error: an allocation failed.
    pub fn spelt(&self) -> Result<(), AllocError>
        ensures { is_err result ≡ lines_have_lack self.now }
    {
        match self.lack {
            Some(lack) => Err(lack),
            None => Ok(()),
        }
    }

    /// What ended a run that wrote to it: where an allocation failed here, that, and not the write.
    pub fn fault_of(&self, fault: Fault) -> Fault
        ensures { result ≡ fault_by (lines_have_lack self.now) fault }
    {
        fault_by(self.lack, fault)
    }

    /// Takes octets.
    fn take(&mut self, octets: &[u8]) -> Result<(), AllocError> {
        for octet in octets {
            if *octet == b'\n' {
                append_line_object(&mut self.objects, self.line.as_slice())?;
                self.line.clear();
            } else {
                self.line.extend_from_slice(&[*octet])?;
            }
        }
        Ok(())
    }
}

impl<W: Write> JsonLines<W> {
    /// Writes the objects that are not written yet.
    fn send(&mut self) -> io::Result<()> {
        let taken = write_out(&mut self.inner, self.objects.as_slice());
        if taken < self.objects.len() {
            return Err(io::Error::from(ErrorKind::WriteZero));
        }
        self.objects.truncate(0);
        Ok(())
    }
}

impl<W: Write> Write for JsonLines<W> {
    fn write(&mut self, buf: &[u8]) -> io::Result<usize> {
        if let Err(lack) = self.take(buf) {
            self.lack = Some(lack);
            return Err(io::Error::from(ErrorKind::OutOfMemory));
        }
        if self.objects.len() >= AT_ONCE {
            self.send()?;
        }
        Ok(buf.len())
    }

    fn flush(&mut self) -> io::Result<()> {
        self.send()?;
        self.inner.flush()
    }
}
