//! What goes to standard output: whether nobody reads any more what is written, and what was seen of a script that is.

use sr_advice::Survey;
use std::io::{self, ErrorKind, Write};

/// What became of what is written.
#[derive(Clone, Copy, PartialEq, Eq)]
enum Outlet {
    /// It goes out.
    Open,
    /// Its reader has gone.
    Closed,
    /// It is for nobody.
    Mute,
}

/// A writer that notes whether its reader has gone.
#[derive(Drop)]
pub struct Pipe<W> {
    inner: W,
    outlet: Outlet,
}

impl<W> Pipe<W> {
    /// A writer whose reader is there.
    pub fn new(inner: W) -> Pipe<W> {
        Pipe {
            inner,
            outlet: Outlet::Open,
        }
    }

    /// From now on nothing is written.
    pub fn mute(&mut self) {
        self.outlet = Outlet::Mute;
    }

    /// Whether its reader has gone: what is told of it then is for nobody.
    pub fn is_closed(&self) -> bool {
        self.outlet == Outlet::Closed
    }

    /// Notes whether the reader has gone.
    fn note(&mut self, error: &io::Error) {
        if error.kind() == ErrorKind::BrokenPipe {
            self.outlet = Outlet::Closed;
        }
    }
}

impl<W: Write> Write for Pipe<W> {
    fn write(&mut self, buf: &[u8]) -> io::Result<usize> {
        if self.outlet == Outlet::Mute {
            return Ok(buf.len());
        }
        let outcome = self.inner.write(buf);
        if let Err(error) = &outcome {
            self.note(error);
        }
        outcome
    }

    fn flush(&mut self) -> io::Result<()> {
        let outcome = self.inner.flush();
        if let Err(error) = &outcome {
            self.note(error);
        }
        outcome
    }
}

/// A writer of a script, of which each line is looked at.
#[derive(Drop)]
pub struct Surveyed<W> {
    inner: W,
    survey: Survey,
}

impl<W> Surveyed<W> {
    /// A writer to which nothing was written.
    pub fn new(inner: W) -> Surveyed<W> {
        Surveyed {
            inner,
            survey: Survey::new(),
        }
    }

    /// What it writes to.
    pub fn get_ref(&self) -> &W {
        &self.inner
    }

    /// What was seen of what was written.
    pub fn survey(&self) -> &Survey {
        &self.survey
    }
}

impl<W: Write> Write for Surveyed<W> {
    fn write(&mut self, buf: &[u8]) -> io::Result<usize> {
        let taken = self.inner.write(buf)?;
        self.survey.note(&buf[..taken]);
        Ok(taken)
    }

    fn flush(&mut self) -> io::Result<()> {
        self.inner.flush()
    }
}
