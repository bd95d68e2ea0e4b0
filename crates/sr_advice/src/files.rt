//! What is told of a file that can't be read.

ghost use Rattle.std.specs.Prelude.{◌≡◌};
ghost use Rattle.sr_capture_script.specs.Texts.{letter_of};

use sr_capture::{CaptureFault, Reason};
use sr_capture_script::Inlet;
use sr_pcapng::Wanted;
use std::fmt;
use std::io::ErrorKind;

/// The letter of an inlet.
pub fn letter_of(inlet: Inlet) -> &'static str
    ensures { result.now ≡ letter_of inlet }
{
    match inlet {
        Inlet::A => "A",
        Inlet::B => "B",
        Inlet::C => "C",
    }
}

/// The word for the fault of a file.
fn word_of(reason: Reason) -> &'static str {
    match reason {
        Reason::Read => "read",
        Reason::NoMemory => "memory",
        _ => "format",
    }
}

/// The common name of a link type.
fn link_name(link: u16) -> &'static str {
    match link {
        0 => "BSD loopback",
        9 => "PPP",
        12 | 14 | 101 => "raw IP",
        105 => "Wi-Fi",
        113 => "Linux cooked",
        127 => "Wi-Fi with radiotap",
        228 => "raw IPv4",
        229 => "raw IPv6",
        276 => "Linux cooked, version 2",
        _ => "another one",
    }
}

/// The fault of the file of an inlet. It is shown by the letter of the inlet, a word, and the octet where it is.
#[derive(Clone, Copy, Debug)]
pub struct FileFault {
    /// The inlet.
    pub inlet: Inlet,
    /// The fault.
    pub fault: CaptureFault,
}

impl fmt::Display for FileFault {
    fn fmt<W: fmt::Write>(&self, f: &mut fmt::Formatter<W>) -> fmt::Result {
        let letter = letter_of(self.inlet);
        let word = word_of(self.fault.reason);
        let at = self.fault.at;
        write!(f, "fault {letter} {word} {at}")
    }
}

/// Why a file is none that is read. A link type is shown with its common name.
#[derive(Clone, Copy, Debug)]
pub struct FileReason(pub Reason);

impl fmt::Display for FileReason {
    fn fmt<W: fmt::Write>(&self, f: &mut fmt::Formatter<W>) -> fmt::Result {
        let reason = self.0;
        match reason {
            Reason::Link(link) => {
                let name = link_name(link);
                write!(f, "{reason}: {name}")
            }
            _ => write!(f, "{reason}"),
        }
    }
}

/// A file that can't be opened. Where its name seemed to end with the number of an interface, it may be a part of it.
#[derive(Clone, Copy, Debug)]
pub struct Unopened<'a> {
    /// The name of the file.
    pub path: &'a str,
    /// Which of its interfaces was wanted.
    pub wanted: Wanted,
    /// Why it can't be opened.
    pub kind: ErrorKind,
}

/// A pcap file of which an interface is wanted that it does not have.
#[derive(Clone, Copy, Debug)]
pub struct NoInterface<'a> {
    /// The name of the file.
    pub path: &'a str,
    /// The number of the interface.
    pub number: u32,
}

impl fmt::Display for NoInterface<'_> {
    fn fmt<W: fmt::Write>(&self, f: &mut fmt::Formatter<W>) -> fmt::Result {
        let NoInterface { path, number } = *self;
        write!(
            f,
            "{path}: a pcap file has one interface, number 0, and no interface {number} (a file whose name ends so is named {path}:{number}:0)"
        )
    }
}

/// Why a file can't be opened.
fn reason_of(kind: ErrorKind) -> &'static str {
    match kind {
        ErrorKind::NotFound => "no such file",
        ErrorKind::PermissionDenied => "no permission to read it",
        _ => "it can't be opened",
    }
}

impl fmt::Display for Unopened<'_> {
    fn fmt<W: fmt::Write>(&self, f: &mut fmt::Formatter<W>) -> fmt::Result {
        let path = self.path;
        let reason = reason_of(self.kind);
        match self.wanted {
            Wanted::Only => write!(f, "{path}: {reason}"),
            Wanted::Number(number) => {
                write!(
                    f,
                    "{path}: {reason} (interface {number} of it; a file whose name ends so is named {path}:{number}:0)"
                )
            }
        }
    }
}
