//! How far large files were read, on a terminal.

use std::io::{self, Read};

/// A file whose progress is told has more octets than this.
const LARGE: u64 = 10_000_000;

/// Whether progress is told.
#[derive(Clone, Copy, PartialEq, Eq)]
pub enum Progress {
    /// Standard error is a terminal.
    Told,
    /// It is none.
    Silent,
}

/// A file that tells how much of it was read, in hundredths, where it is large.
#[derive(Drop)]
pub(crate) struct Metered<'a, F, R> {
    rt: &'a R,
    file: F,
    letter: &'static str,
    /// A hundredth of its octets. None: nothing is told.
    part: Option<u64>,
    taken: u64,
    told: u64,
}

impl<'a, F, R> Metered<'a, F, R> {
    /// A file of so many octets, of which none was read.
    pub(crate) fn new(
        rt: &'a R,
        file: F,
        letter: &'static str,
        len: u64,
        progress: Progress,
    ) -> Metered<'a, F, R> {
        let part = if progress == Progress::Told && len > LARGE {
            Some(len / 100)
        } else {
            None
        };
        Metered {
            rt,
            file,
            letter,
            part,
            taken: 0,
            told: 0,
        }
    }
}

impl<F: Read, R: Eprint> Read for Metered<'_, F, R> {
    fn read(&mut self, buf: &mut [u8]) -> io::Result<usize> {
        let count = self.file.read(buf)?;
        self.taken = self.taken.saturating_add(count as u64);
        let Some(hundredths) = self.part.and_then(|part| self.taken.checked_div(part)) else {
            return Ok(count);
        };
        if hundredths > self.told {
            self.told = hundredths;
            let letter = self.letter;
            let end = if hundredths < 100 { "" } else { "\n" };
            let _ = eprint!(self.rt; "\r{letter} {hundredths} %{end}");
        }
        Ok(count)
    }
}
