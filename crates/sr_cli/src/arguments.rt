//! The words of the command line, and what is told of one that is not UTF-8.

use std::fmt;
use std::io::ErrorKind;
use std::rt::Env;

/// The most octets of a word that are looked at.
const MAX_SHOWN: usize = 4096;

/// Octets as they are shown: what is no printable ASCII, and a backslash, as `\xHH`.
#[derive(Clone, Copy, Debug)]
struct Escaped<'a>(&'a [u8]);

impl fmt::Display for Escaped<'_> {
    fn fmt<W: fmt::Write>(&self, f: &mut fmt::Formatter<W>) -> fmt::Result {
        for octet in self.0 {
            let octet = *octet;
            if (0x20..0x7f).contains(&octet) && octet != b'\\' {
                f.write_char(char::from(octet))?;
            } else {
                write!(f, "\\x{octet:02x}")?;
            }
        }
        Ok(())
    }
}

/// The octets of a word of the command line that is not UTF-8, left in a buffer: how many there are. None: there is no such word among those
/// that are no longer than the buffer.
fn unread_word<R: Env>(rt: &R, buffer: &mut [u8]) -> Option<usize> {
    for number in 1..u16::MAX {
        let len = rt.arg(usize::from(number), buffer).ok()?;
        if str::from_utf8(buffer.get(..len)?).is_err() {
            return Some(len);
        }
    }
    None
}

/// Says why the words of the command line can't be read: which of them is not UTF-8.
pub fn tell_unread<R: Eprint + Env>(rt: &R, kind: ErrorKind) {
    if kind != ErrorKind::InvalidData {
        let _ = eprintln!(rt; "fault memory");
        return;
    }
    let _ = eprintln!(rt; "fault word");
    let mut buffer = [0; MAX_SHOWN];
    let len = unread_word(rt, &mut buffer).unwrap_or(0);
    let word = Escaped(buffer.get(..len).unwrap_or(&[]));
    let _ = eprintln!(rt; "`{word}` is not UTF-8: give the file a name that is, or a link");
}
