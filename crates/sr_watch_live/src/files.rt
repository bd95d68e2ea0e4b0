//! The file of metrics, which is put in place whole.

use std::rt::Files;
use std::{fs, io};

/// Writes a file beside the one that is meant, and puts it in its place.
pub(crate) fn put<R: AllocGlobal + Files>(rt: &R, path: &str, octets: &[u8]) -> io::Result<()> {
    let beside = format!(in rt.alloc(); "{path}.new")?;
    fs::write(rt, beside.as_str(), octets)?;
    fs::rename(rt, beside.as_str(), path)
}
