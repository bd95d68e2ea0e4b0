//! The files of a capture, read one after another as one file.

ghost use Rattle.std.specs.Prelude.{◌≤◌, IfOk, length};

use crate::bounds::{Bounds, HEAD_LEN, Kind, compression_of, kind_of};
use std::alloc::{AllocError, Global};
use std::io::{self, Read};

/// A file, and what was read ahead of it.
#[derive(Drop)]
pub(crate) struct Part<F> {
    file: F,
    head: [u8; HEAD_LEN],
    len: usize,
    given: usize,
}

impl<F: Read> Part<F> {
    /// A file of which nothing was read.
    pub(crate) fn new(file: F) -> Part<F> {
        Part {
            file,
            head: [0; HEAD_LEN],
            len: 0,
            given: 0,
        }
    }

    /// Reads the front of a file ahead.
    ///
    /// # Errors
    /// Where it can't be read.
    pub(crate) fn look(&mut self) -> io::Result<()> {
        for _ in 0..HEAD_LEN {
            let Some(space) = self.head.get_mut(self.len..) else {
                return Ok(());
            };
            let count = self.file.read(space)?;
            if count == 0 {
                return Ok(());
            }
            self.len = self.len.saturating_add(count);
        }
        Ok(())
    }

    /// What was read ahead.
    pub(crate) fn head(&self) -> &[u8] {
        self.head.get(..self.len).unwrap_or(&[])
    }

    /// What was read ahead, and zeros behind it.
    pub(crate) fn front(&self) -> [u8; HEAD_LEN] {
        self.head
    }

    /// Reads on.
    fn read_on(&mut self, buf: &mut [u8]) -> io::Result<usize>
        ensures { IfOk result (λ count. count ≤ length buf.new) }
    {
        let mut ahead = self.head.get(self.given..self.len).unwrap_or(&[]);
        if ahead.is_empty() {
            return self.file.read(buf);
        }
        let count = ahead.read(buf)?;
        self.given = self.given.saturating_add(count);
        Ok(count)
    }
}

/// Why a file that begins so does not go on where one that begins otherwise ended. None: it does.
pub(crate) fn flaw_of(first: &[u8], head: &[u8]) -> Option<&'static str> {
    let kind = kind_of(first);
    if kind == Kind::Other {
        // What is wrong with the first file is told where it is read.
        None
    } else if let Some(flaw) = compression_of(head) {
        Some(flaw)
    } else if head.len() < HEAD_LEN {
        Some("the file ends within its header")
    } else if kind_of(head) != kind {
        Some("it is no capture of the kind of the file before it")
    } else if kind != Kind::Pcapng && head != first {
        Some("its header is another than that of the file before it")
    } else {
        None
    }
}

/// The files of a capture. Behind the end of one the next is read, but where it ends within a packet: there the capture ends.
#[derive(Drop)]
pub(crate) struct Joined<F> {
    parts: Vec<Part<F>>,
    place: usize,
    // How many more octets are read.
    most: u64,
    bounds: Bounds,
}

impl<F: Read + Drop> Joined<F> {
    /// No files, of which so many octets are read.
    pub(crate) fn new(alloc: Global, most: u64) -> Joined<F> {
        Joined {
            parts: Vec::new(alloc),
            place: 0,
            most,
            bounds: Bounds::new(Kind::Other),
        }
    }

    /// Adds a file behind those that there are.
    ///
    /// # Errors
    /// Where the memory for it is refused.
    pub(crate) fn push(&mut self, part: Part<F>) -> Result<(), AllocError> {
        if self.parts.is_empty() {
            self.bounds = Bounds::new(kind_of(part.head()));
        }
        match self.parts.push(part) {
            Ok(()) => Ok(()),
            Err(_) => Err(AllocError),
        }
    }

    /// What was read ahead of the first file. None: there is none.
    pub(crate) fn first_head(&self) -> Option<&[u8]> {
        Some(self.parts.first()?.head())
    }

    /// Whether there is a file behind the one at hand.
    fn has_next(&self) -> bool {
        self.place.saturating_add(1) < self.parts.len()
    }

    /// Goes on with the next file, where the one at hand has ended with a packet. False where it has not, or was the last.
    fn turn(&mut self) -> bool {
        let again = kind_of(self.first_head().unwrap_or(&[])).again_len();
        let next = self.place.saturating_add(1);
        let Some(part) = self.parts.get_mut(next) else {
            return false;
        };
        if !self.bounds.is_at_end() {
            return false;
        }
        part.given = again;
        self.place = next;
        true
    }
}

impl<F: Read + Drop> Read for Joined<F> {
    fn read(&mut self, buf: &mut [u8]) -> io::Result<usize> {
        let room = usize::try_from(self.most)
            .unwrap_or(usize::MAX)
            .min(buf.len());
        if room == 0 {
            return Ok(0);
        }
        for _ in 0..self.parts.len() {
            let Some(part) = self.parts.get_mut(self.place) else {
                return Ok(0);
            };
            let count = part.read_on(&mut buf[..room])?;
            if count > 0 {
                self.most = self.most.saturating_sub(count as u64);
                if self.has_next() {
                    self.bounds.note(&buf[..count]);
                }
                return Ok(count);
            }
            if !self.turn() {
                return Ok(0);
            }
        }
        Ok(0)
    }
}
