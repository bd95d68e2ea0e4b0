//! The files of captures: opened as one, and what is wrong with one of them.

use crate::bounds::{HEAD_LEN, Kind, compression_of, kind_of};
use crate::ended::Ended;
use crate::joined::{Joined, Part, flaw_of};
use crate::owned::beside;
use crate::progress::{Metered, Progress};
use sr_advice::{FileFault, FileReason, NoInterface, Unopened, letter_of};
use sr_capture::{CaptureFault, Reason};
use sr_capture_script::{Captures, Inlet, Options};
use sr_options::Paths;
use sr_page::digest_of;
use sr_pcapng::Wanted;
use std::fmt;
use std::fs::File;
use std::io::{self, BufRead, BufReader, Read};
use std::rt::Files;

/// The files of a capture, read ahead as one, which tell how far they were read. It is a type of its own, so that proofs about captures
/// don't go through all that it is made of.
#[derive(Drop)]
pub struct Opened<'a, R: Files> {
    reader: BufReader<Metered<'a, Joined<R::File>, R>>,
}

impl<R: Eprint + Files> Opened<'_, R> {
    /// Reads more where nothing is at hand. It is out of line, so that octets at hand cost one question.
    #[inline(never)]
    fn refill(&mut self) -> io::Result<()> {
        self.reader.fill_buf()?;
        Ok(())
    }
}

impl<R: Eprint + Files> Read for Opened<'_, R> {
    fn read(&mut self, buf: &mut [u8]) -> io::Result<usize> {
        self.reader.read(buf)
    }
}

impl<R: Eprint + Files> BufRead for Opened<'_, R> {
    fn fill_buf(&mut self) -> io::Result<&[u8]> {
        if self.reader.buffer().is_empty() {
            self.refill()?;
        }
        Ok(self.reader.buffer())
    }

    fn consume(&mut self, amount: usize) {
        self.reader.consume(amount);
    }
}

/// Opens a file. The error is the word for the fault, which standard error tells.
fn open_path<R: Eprint + Files>(
    rt: &R,
    letter: &'static str,
    path: &str,
    wanted: Wanted,
) -> Result<Part<R::File>, &'static str> {
    match File::open(rt, path) {
        Ok(file) => Ok(Part::new(file)),
        Err(error) => {
            let unopened = Unopened {
                path,
                wanted,
                kind: error.kind(),
            };
            let _ = eprintln!(rt; "fault {letter} open 0\n{unopened}");
            Err("open")
        }
    }
}

/// Reads the front of one of several files, which has to go on where that before it ends. The error is the word for the fault, which
/// standard error tells.
fn look_at<R: Eprint + Files>(
    rt: &R,
    letter: &'static str,
    path: &str,
    joined: &Joined<R::File>,
    part: &mut Part<R::File>,
) -> Result<(), &'static str> {
    if part.look().is_err() {
        let _ = eprintln!(rt; "fault {letter} read 0\n{path}: the file can not be read");
        return Err("read");
    }
    let Some(first) = joined.first_head() else {
        return Ok(());
    };
    match flaw_of(first, part.head()) {
        None => Ok(()),
        Some(flaw) => {
            let _ = eprintln!(rt; "fault {letter} format 0\n{path}: {flaw}");
            Err("format")
        }
    }
}

/// Whether a file is a pcap file, which has one interface, as its front is read ahead. Where it can't be read that is told later.
fn is_pcap<F: Read>(part: &mut Part<F>) -> bool {
    match part.look() {
        Ok(()) => matches!(kind_of(part.head()), Kind::LittlePcap | Kind::BigPcap),
        Err(_) => false,
    }
}

/// Refuses the number of an interface that a pcap file does not have. The error is the word for the fault, which standard error tells.
fn check_interface<R: Eprint, F: Read>(
    rt: &R,
    letter: &'static str,
    path: &str,
    wanted: Wanted,
    part: &mut Part<F>,
) -> Result<(), &'static str> {
    let Wanted::Number(number) = wanted else {
        return Ok(());
    };
    if number == 0 || !is_pcap(part) {
        return Ok(());
    }
    let unknown = NoInterface { path, number };
    let _ = eprintln!(rt; "fault {letter} format 0\n{unknown}");
    Err("format")
}

/// Says that an allocation failed for a capture. The answer is the word for it.
fn tell_no_memory<R: Eprint>(rt: &R, letter: &str) -> &'static str {
    let _ = eprintln!(rt; "fault {letter} memory 0");
    "memory"
}

/// Opens the files of a capture, one behind the other. The error is the word for the fault, which standard error tells.
fn open_all<R: AllocGlobal + Eprint + Files>(
    rt: &R,
    letter: &'static str,
    paths: Paths<'_>,
    wanted: Wanted,
) -> Result<Joined<R::File>, &'static str> {
    let mut joined = Joined::new(rt.alloc(), paths.most);
    for place in 0..paths.count {
        let Some(path) = paths.path(place) else {
            break;
        };
        let mut part = open_path(rt, letter, path, wanted)?;
        check_interface(rt, letter, path, wanted, &mut part)?;
        if paths.count > 1 {
            look_at(rt, letter, path, &joined, &mut part)?;
        }
        if joined.push(part).is_err() {
            return Err(tell_no_memory(rt, letter));
        }
    }
    Ok(joined)
}

/// How many octets a file has. None: that can't be told.
pub fn size_of<R: Files>(rt: &R, path: &str) -> Option<u64> {
    match std::fs::metadata(rt, path) {
        Ok(metadata) => Some(metadata.len()),
        Err(_) => None,
    }
}

/// The SHA-256 digest of a file. None: it can't be read.
pub fn digest_at<R: Files>(rt: &R, path: &str) -> Option<[u8; 32]> {
    let Ok(mut file) = File::open(rt, path) else {
        return None;
    };
    match digest_of(&mut file) {
        Ok(digest) => Some(digest),
        Err(_) => None,
    }
}

/// How many octets a file has, as far as can be told.
fn len_of<R: Files>(rt: &R, path: &str) -> u64 {
    std::fs::metadata(rt, path).map_or(0, |metadata| metadata.len())
}

/// How many octets the files of a capture have.
fn total_of<R: Files>(rt: &R, paths: Paths<'_>) -> u64 {
    let mut total: u64 = 0;
    for place in 0..paths.count {
        if let Some(path) = paths.path(place) {
            total = total.saturating_add(len_of(rt, path));
        }
    }
    total.min(paths.most)
}

/// Opens the files of an inlet, if there are some. The error is the word for the fault, which standard error tells.
pub fn open_file<'a, R: AllocGlobal + Eprint + Files>(
    rt: &'a R,
    inlet: Inlet,
    paths: Option<Paths<'_>>,
    wanted: Wanted,
    progress: Progress,
) -> Result<Option<Opened<'a, R>>, &'static str> {
    let Some(paths) = paths else {
        return Ok(None);
    };
    let letter = letter_of(inlet);
    let joined = open_all(rt, letter, paths, wanted)?;
    let metered = Metered::new(rt, joined, letter, total_of(rt, paths), progress);
    match BufReader::new(rt.alloc(), metered) {
        Ok(reader) => Ok(Some(Opened { reader })),
        Err(_) => Err(tell_no_memory(rt, letter)),
    }
}

/// Opens the captures of A and B, each where it has files. Standard error is told where one of the files can't be opened.
pub fn open_captures<'a, R: AllocGlobal + Eprint + Files>(
    rt: &'a R,
    a: Option<Paths<'_>>,
    b: Option<Paths<'_>>,
    options: &Options,
    progress: Progress,
) -> Result<Captures<Opened<'a, R>>, Ended> {
    let interfaces = options.interfaces;
    let Ok(a) = open_file(rt, Inlet::A, a, interfaces.a, progress) else {
        return Err(Ended::Unopened);
    };
    let b = open_file(rt, Inlet::B, b, interfaces.b, progress);
    let Ok((b, a)) = beside(b, a) else {
        return Err(Ended::Unopened);
    };
    match Captures::open(rt.alloc(), a, b, None, options) {
        Ok(captures) => Ok(captures),
        Err(fault) => Err(Ended::By(fault)),
    }
}

/// The front of a file, as far as it can be read, and zeros behind it.
fn front_of<R: Files>(rt: &R, path: &str) -> [u8; HEAD_LEN] {
    if let Ok(file) = File::open(rt, path) {
        let mut part = Part::new(file);
        if part.look().is_ok() {
            return part.front();
        }
    }
    [0; HEAD_LEN]
}

/// How many octets stand before the packets of the files behind a first one.
fn again_len_behind<R: Files>(rt: &R, first: &str) -> u64 {
    let front = front_of(rt, first);
    kind_of(front.as_slice()).again_len() as u64
}

/// How many octets a file has behind those that are skipped. None: that can't be told.
fn len_behind<R: Files>(rt: &R, path: &str, skipped: u64) -> Option<u64> {
    let metadata = std::fs::metadata(rt, path).ok()?;
    if metadata.is_file() {
        Some(metadata.len().saturating_sub(skipped))
    } else {
        None
    }
}

/// The files of the captures, by their inlets.
#[derive(Clone, Copy)]
pub struct Sides<'a> {
    /// Those of inlet A.
    pub a: Option<Paths<'a>>,
    /// Those of inlet B.
    pub b: Option<Paths<'a>>,
    /// Those of inlet C.
    pub c: Option<Paths<'a>>,
}

impl<'a> Sides<'a> {
    /// Those of an inlet.
    pub fn at(&self, inlet: Inlet) -> Option<Paths<'a>> {
        match inlet {
            Inlet::A => self.a,
            Inlet::B => self.b,
            Inlet::C => self.c,
        }
    }
}

/// Where an octet of a capture is: the file of it, and the octet there.
#[derive(Clone, Copy)]
struct Spot<'a> {
    path: &'a str,
    at: u64,
}

/// Where an octet of a capture of several files is. None: it is in one of which can't be told how long it is.
fn spot_of<'a, R: Files>(rt: &R, paths: Paths<'a>, at: u64) -> Option<Spot<'a>> {
    let again = again_len_behind(rt, paths.path(0)?);
    let mut left = at;
    for place in 0..paths.count {
        let path = paths.path(place)?;
        let skipped = if place == 0 { 0 } else { again };
        let len = len_behind(rt, path, skipped)?;
        if left < len || place.saturating_add(1) == paths.count {
            return Some(Spot {
                path,
                at: left.saturating_add(skipped),
            });
        }
        left -= len;
    }
    None
}

/// What a file has to be done to, where it is no capture since a tool compressed it.
fn compression_in<R: Files>(
    rt: &R,
    path: Option<&str>,
    fault: CaptureFault,
) -> Option<&'static str> {
    if fault.reason != Reason::Unknown || fault.at > 0 {
        return None;
    }
    let front = front_of(rt, path?);
    compression_of(front.as_slice())
}

/// The fault of a capture as it is told: at an octet of one of its files, which has a name where there are several.
fn told_of<'a, R: Files>(
    rt: &R,
    paths: Option<Paths<'a>>,
    fault: CaptureFault,
) -> (CaptureFault, Option<&'a str>) {
    let Some(paths) = paths else {
        return (fault, None);
    };
    if paths.count < 2 {
        return (fault, None);
    }
    match spot_of(rt, paths, fault.at) {
        Some(spot) => (
            CaptureFault {
                at: spot.at,
                ..fault
            },
            Some(spot.path),
        ),
        None => (fault, None),
    }
}

/// The fault of the files of an inlet, as it is shown: at an octet of one of them.
pub fn shown_of<R: Files>(
    rt: &R,
    paths: Option<Paths<'_>>,
    inlet: Inlet,
    fault: CaptureFault,
) -> FileFault {
    let (fault, _) = told_of(rt, paths, fault);
    FileFault { inlet, fault }
}

/// What is wrong with a capture, or what its file has to be done to, behind the name of that file where there are several.
#[derive(Clone, Copy)]
struct Explained<'a> {
    name: Option<&'a str>,
    compression: Option<&'static str>,
    reason: Reason,
}

impl fmt::Display for Explained<'_> {
    fn fmt<W: fmt::Write>(&self, f: &mut fmt::Formatter<W>) -> fmt::Result {
        if let Some(path) = self.name {
            write!(f, "{path}: ")?;
        }
        let reason = FileReason(self.reason);
        match self.compression {
            Some(compression) => f.write_str(compression),
            None => write!(f, "{reason}"),
        }
    }
}

/// Says what is wrong with the files of an inlet: a line with the inlet, the word and the octet, and one that explains it.
pub fn tell_file<R: Eprint + Files>(
    rt: &R,
    paths: Option<Paths<'_>>,
    inlet: Inlet,
    fault: CaptureFault,
) {
    let (fault, name) = told_of(rt, paths, fault);
    let path = name.or(paths.and_then(|paths| paths.path(0)));
    let told = FileFault { inlet, fault };
    let explained = Explained {
        name,
        compression: compression_in(rt, path, fault),
        reason: fault.reason,
    };
    let _ = eprintln!(rt; "{told}\n{explained}");
}
