//! The digest of a file.

use sha2::{Digest, Sha256};
use std::io::{self, Read};

/// How many octets are read at a time.
const BLOCK: usize = 4096;

/// The SHA-256 digest of all octets of a reader.
///
/// # Errors
/// The reader fails.
pub fn digest_of<R: Read>(reader: &mut R) -> io::Result<[u8; 32]> {
    let mut hasher = Sha256::new();
    let mut block = [0; BLOCK];
    for _ in 0..u64::MAX {
        let count = reader.read(&mut block)?;
        if count == 0 {
            break;
        }
        if let Some(octets) = block.get(..count) {
            hasher.update(octets);
        }
    }
    Ok(hasher.finalize())
}
