//! A number for what came.

/// A number of all that was put into it, in this order (FNV-1a).
#[derive(Clone, Copy)]
pub struct Digest {
    number: u64,
}

/// What the number begins with.
const BEGIN: u64 = 0xcbf2_9ce4_8422_2325;

/// What it is multiplied with for each octet.
const FACTOR: u64 = 0x0100_0000_01b3;

impl Digest {
    /// That of nothing.
    pub fn new() -> Digest {
        Digest { number: BEGIN }
    }

    /// Puts an octet in.
    pub fn put_octet(&mut self, octet: u8) {
        self.number = (self.number ^ u64::from(octet)).wrapping_mul(FACTOR);
    }

    /// Puts octets in.
    pub fn put(&mut self, octets: &[u8]) {
        for octet in octets {
            self.put_octet(*octet);
        }
    }

    /// Puts a number in.
    pub fn put_number(&mut self, number: u64) {
        let octets = number.to_be_bytes();
        self.put(octets.as_slice());
    }

    /// The number. It is never 0.
    pub fn number(self) -> u64 {
        self.number | 1
    }
}
