//! A writer that keeps nothing.

use crate::digest::Digest;
use std::io::{self, ErrorKind, Write};

/// Puts what is written into a digest, up to so many octets, and then fails.
#[derive(Drop)]
pub struct Sink {
    /// The digest of what was written.
    pub digest: Digest,
    room: usize,
}

/// The most octets that are written. A few lines can ask for more than anyone prints.
const MAX_WRITTEN: usize = 1 << 20;

impl Sink {
    /// One to which nothing was written.
    pub fn new() -> Sink {
        Sink {
            digest: Digest::new(),
            room: MAX_WRITTEN,
        }
    }
}

impl Write for Sink {
    fn write(&mut self, buf: &[u8]) -> io::Result<usize> {
        if buf.len() > self.room {
            return Err(io::Error::from(ErrorKind::Other));
        }
        self.room -= buf.len();
        self.digest.put(buf);
        Ok(buf.len())
    }

    fn flush(&mut self) -> io::Result<()> {
        Ok(())
    }
}
