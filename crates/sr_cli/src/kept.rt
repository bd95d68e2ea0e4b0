//! A reader that keeps the end of what it read, so that the line which ended a script can be explained.

use std::alloc::{AllocError, Global};
use std::io::{self, ErrorKind, Read, Seek, SeekFrom};

/// So many octets are kept: a line, its LF, and one more.
pub const MAX_KEPT: usize = 8002;

/// What a reader gives.
#[derive(Clone, Copy)]
enum Source {
    /// What comes in.
    Inner,
    /// What it was given, from this place on, and then no more.
    Own(usize),
}

/// A reader that keeps the end of what it gave before its last read, and of what it gave then. Behind a buffer, which has all
/// of the last read, a line can so be found again that was taken.
#[derive(Drop)]
pub struct Kept<R> {
    inner: R,
    source: Source,
    before: Vec<u8>,
    last: Vec<u8>,
    last_len: usize,
    own: Vec<u8>,
}

/// The last of these octets, as many as are kept.
fn end_of(octets: &[u8]) -> &[u8] {
    &octets[octets.len().saturating_sub(MAX_KEPT)..]
}

/// Appends octets, and lets older ones go that are more than are kept.
fn append_kept(list: &mut Vec<u8>, octets: &[u8]) {
    let end = end_of(octets);
    let over = list
        .len()
        .saturating_add(end.len())
        .saturating_sub(MAX_KEPT);
    let gone = over.min(list.len());
    list.copy_within(gone.., 0);
    list.truncate(list.len() - gone);
    if list.extend_from_slice(end).is_err() {
        // Without them no line is explained.
        list.clear();
    }
}

impl<R: Drop> Kept<R> {
    /// A reader that keeps the end of what this one gives.
    ///
    /// # Errors
    /// Where the memory for it is refused.
    pub fn new(alloc: Global, inner: R) -> Result<Kept<R>, AllocError> {
        let mut before = Vec::new(alloc);
        before.reserve(MAX_KEPT)?;
        let mut last = Vec::new(alloc);
        last.reserve(MAX_KEPT)?;
        Ok(Kept {
            inner,
            source: Source::Inner,
            before,
            last,
            last_len: 0,
            own: Vec::new(alloc),
        })
    }

    /// Has it give these octets, and then no more.
    ///
    /// # Errors
    /// Where the memory for them is refused.
    pub fn give(&mut self, own: &[u8]) -> Result<(), AllocError> {
        self.own.clear();
        self.source = Source::Own(0);
        self.own.extend_from_slice(own)
    }

    /// The end of what it gave before its last read.
    pub fn before(&self) -> &[u8] {
        self.before.as_slice()
    }

    /// How many octets its last read gave.
    pub fn last_len(&self) -> usize {
        self.last_len
    }

    /// Keeps the end of what a read gave.
    fn keep(&mut self, octets: &[u8]) {
        append_kept(&mut self.before, self.last.as_slice());
        self.last.clear();
        append_kept(&mut self.last, octets);
        self.last_len = octets.len();
    }
}

impl<R: Read + Drop> Read for Kept<R> {
    fn read(&mut self, buf: &mut [u8]) -> io::Result<usize> {
        match self.source {
            Source::Inner => {
                let count = self.inner.read(buf)?;
                self.keep(&buf[..count]);
                Ok(count)
            }
            Source::Own(place) => {
                let mut rest = self.own.get(place..).unwrap_or(&[]);
                let count = rest.read(buf)?;
                self.source = Source::Own(place.saturating_add(count));
                Ok(count)
            }
        }
    }
}

/// What was read can be given back by a buffer alone, which goes back within what it has.
impl<R: Drop> Seek for Kept<R> {
    fn seek(&mut self, _to: SeekFrom) -> io::Result<u64> {
        Err(io::Error::from(ErrorKind::Unsupported))
    }
}
