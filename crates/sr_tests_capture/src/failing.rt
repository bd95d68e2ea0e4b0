//! Readers and a writer that fail.

use std::io::{self, BufRead, ErrorKind, Read, Write};

/// Gives some octets, and then fails.
#[derive(Drop)]
pub struct Broken<'a> {
    pub octets: &'a [u8],
}

impl Read for Broken<'_> {
    fn read(&mut self, buf: &mut [u8]) -> io::Result<usize> {
        if self.octets.is_empty() {
            return Err(io::Error::from(ErrorKind::Other));
        }
        self.octets.read(buf)
    }
}

/// How many octets a reader in memory has at hand.
const AT_HAND: usize = 65536;

/// Has so many octets at hand, and fails when it was asked for more too often.
#[derive(Drop)]
pub struct Impatient<'a> {
    pub octets: &'a [u8],
    pub calls: usize,
}

impl Impatient<'_> {
    /// Counts a call. False where there was one too many.
    fn is_patient(&mut self) -> bool {
        let is_patient = self.calls > 0;
        self.calls = self.calls.saturating_sub(1);
        is_patient
    }
}

impl Read for Impatient<'_> {
    fn read(&mut self, buf: &mut [u8]) -> io::Result<usize> {
        if !self.is_patient() {
            return Err(io::Error::from(ErrorKind::Other));
        }
        self.octets.read(buf)
    }
}

impl BufRead for Impatient<'_> {
    fn fill_buf(&mut self) -> io::Result<&[u8]> {
        if !self.is_patient() {
            return Err(io::Error::from(ErrorKind::Other));
        }
        let room = self.octets.len().min(AT_HAND);
        Ok(&self.octets[..room])
    }

    fn consume(&mut self, amount: usize) {
        let taken = self.octets.len().min(amount);
        self.octets = &self.octets[taken..];
    }
}

/// Takes so many octets, and then fails.
#[derive(Drop)]
pub struct Narrow {
    pub room: usize,
}

impl Write for Narrow {
    fn write(&mut self, buf: &[u8]) -> io::Result<usize> {
        if buf.len() > self.room {
            return Err(io::Error::from(ErrorKind::Other));
        }
        self.room -= buf.len();
        Ok(buf.len())
    }

    fn flush(&mut self) -> io::Result<()> {
        Ok(())
    }
}
