//! Readers and writers that fail.

use std::io::{self, ErrorKind, Read, Write};

/// Gives some octets, and then fails.
#[derive(Drop)]
pub struct Broken<'a> {
    pub octets: &'a [u8],
    pub kind: ErrorKind,
}

impl Read for Broken<'_> {
    fn read(&mut self, buf: &mut [u8]) -> io::Result<usize> {
        if self.octets.is_empty() {
            return Err(io::Error::from(self.kind));
        }
        self.octets.read(buf)
    }
}

/// Gives its octets one by one.
#[derive(Drop)]
pub struct Sparse<'a> {
    pub octets: &'a [u8],
}

impl Read for Sparse<'_> {
    fn read(&mut self, buf: &mut [u8]) -> io::Result<usize> {
        let room = buf.len().min(1);
        self.octets.read(&mut buf[..room])
    }
}

/// Takes so many octets, and then fails.
#[derive(Drop)]
pub struct Narrow {
    pub room: usize,
}

impl Write for Narrow {
    fn write(&mut self, buf: &[u8]) -> io::Result<usize> {
        let count = self.room.min(buf.len());
        if count == 0 {
            return Err(io::Error::from(ErrorKind::Other));
        }
        self.room -= count;
        Ok(count)
    }

    fn flush(&mut self) -> io::Result<()> {
        Ok(())
    }
}

/// Takes all octets, and fails when it is to pass them on.
#[derive(Drop)]
pub struct Unflushed;

impl Write for Unflushed {
    fn write(&mut self, buf: &[u8]) -> io::Result<usize> {
        Ok(buf.len())
    }

    fn flush(&mut self) -> io::Result<()> {
        Err(io::Error::from(ErrorKind::Other))
    }
}

/// Is interrupted at every other call, and takes a few octets at those between.
#[derive(Drop)]
pub struct Interrupted {
    pub is_next: bool,
}

impl Interrupted {
    fn is_now(&mut self) -> bool {
        self.is_next = !self.is_next;
        !self.is_next
    }
}

impl Write for Interrupted {
    fn write(&mut self, buf: &[u8]) -> io::Result<usize> {
        if self.is_now() {
            return Err(io::Error::from(ErrorKind::Interrupted));
        }
        Ok(buf.len().min(7))
    }

    fn flush(&mut self) -> io::Result<()> {
        Ok(())
    }
}

/// Takes no octet, and does not say why.
#[derive(Drop)]
pub struct Stuck;

impl Write for Stuck {
    fn write(&mut self, _buf: &[u8]) -> io::Result<usize> {
        Ok(0)
    }

    fn flush(&mut self) -> io::Result<()> {
        Ok(())
    }
}

/// The most calls that are kept.
const MAX_CALLS: usize = 16;

/// Takes all octets, and keeps which calls came: `w` for a write, `f` for one to pass on.
#[derive(Drop)]
pub struct Recorder {
    pub calls: [u8; MAX_CALLS],
    pub count: usize,
}

impl Recorder {
    fn keep(&mut self, call: u8) {
        if self.count < MAX_CALLS {
            self.calls[self.count] = call;
            self.count += 1;
        }
    }

    /// A recorder of no calls yet.
    pub fn new() -> Recorder {
        Recorder {
            calls: [0; MAX_CALLS],
            count: 0,
        }
    }

    /// Whether these calls came, and no others.
    pub fn kept(&self, calls: &[u8]) -> bool {
        self.count <= MAX_CALLS && &self.calls[..self.count] == calls
    }
}

impl Write for Recorder {
    fn write(&mut self, buf: &[u8]) -> io::Result<usize> {
        self.keep(b'w');
        Ok(buf.len())
    }

    fn flush(&mut self) -> io::Result<()> {
        self.keep(b'f');
        Ok(())
    }
}
