//! The runtime that subcommands run on: what is told on its standard error is spelled as the command line says, as text or as objects.

use sr_json_lines::{ToldFault, fault_object, hint_object};
use sr_options::LineFormat;
use std::alloc::{AllocError, Allocator};
use std::fmt::Display;
use std::fs::{Metadata, OpenOptions};
use std::io::{self, Lines};
use std::random::RandomSource;
use std::rt::Files;
use std::sync::Wait;
use std::thread::Threads;
use std::time::{Clock, Duration};

/// What is told where an allocation fails as an object is made.
const UNSPELLED: &str =
    "{\"line\":\"fault\",\"capture\":null,\"number\":null,\"fault\":\"memory\",\"at\":null,\"hint\":null}\n";

/// A runtime whose standard error is spelled so. All else is that of the runtime within: of its files all that has no default.
#[derive(Clone, Copy)]
pub struct Host<'a, R> {
    rt: &'a R,
    format: LineFormat,
}

impl<'a, R> Host<'a, R> {
    /// This runtime, whose standard error is spelled so.
    pub fn new(rt: &'a R, format: LineFormat) -> Host<'a, R> {
        Host { rt, format }
    }
}

/// The fault of which these words are told behind `fault`: the letter of a capture, a word and an octet, or the number of a line and a
/// word, or a word alone.
fn fault_of<'a>(words: &'a str, hint: Option<&'a str>) -> ToldFault<'a> {
    let fault = ToldFault {
        capture: None,
        number: None,
        word: words,
        at: None,
        hint,
    };
    let Some((first, rest)) = words.split_once(' ') else {
        return fault;
    };
    if let Some((word, at)) = rest.split_once(' ') {
        return ToldFault {
            capture: Some(first),
            word,
            at: at.parse::<u64>().ok(),
            ..fault
        };
    }
    match first.parse::<u64>() {
        Ok(number) => ToldFault {
            number: Some(number),
            word: rest,
            ..fault
        },
        Err(_) => fault,
    }
}

impl<R: AllocGlobal + Eprint> Host<'_, R> {
    /// Tells an object, or that an allocation failed as it was made.
    fn tell_object(&self, object: Result<Vec<u8>, AllocError>) -> io::Result<()> {
        match object {
            Ok(octets) => {
                let line = str::from_utf8(octets.as_slice()).unwrap_or(UNSPELLED);
                eprint!(self.rt; "{line}")
            }
            Err(AllocError) => eprint!(self.rt; "{UNSPELLED}"),
        }
    }

    /// Tells a hint without a fault as an object.
    fn tell_hint(&self, hint: &str) -> io::Result<()> {
        self.tell_object(hint_object(self.rt.alloc(), hint))
    }

    /// Tells a fault as an object, or a hint without one. What stands behind the first line of a fault is its hint.
    fn tell_message(&self, text: &str) -> io::Result<()> {
        let Some(fault) = text.strip_prefix("fault ") else {
            return self.tell_hint(text);
        };
        let fault = match fault.split_once('\n') {
            Some((words, hint)) => fault_of(words, Some(hint)),
            None => fault_of(fault, None),
        };
        self.tell_object(fault_object(self.rt.alloc(), &fault))
    }

    /// Tells each line as a hint, but one that is an object, which is told as it is.
    fn tell_lines(&self, text: &str) -> io::Result<()> {
        for line in text.lines() {
            if line.starts_with('{') {
                eprintln!(self.rt; "{line}")?;
            } else {
                self.tell_hint(line)?;
            }
        }
        Ok(())
    }
}

impl<R: AllocGlobal + Eprint> Eprint for Host<'_, R> {
    /// Tells whole lines, none of which is a fault.
    fn eprint<D: Display + Drop>(&self, value: D) -> io::Result<()> {
        match self.format {
            LineFormat::Text => self.rt.eprint(value),
            LineFormat::Json => {
                let alloc = self.rt.alloc();
                match format!(in alloc; "{value}") {
                    Ok(text) => self.tell_lines(text.as_str()),
                    Err(_) => eprint!(self.rt; "{UNSPELLED}"),
                }
            }
        }
    }

    /// Tells a fault with its hint, or a hint without a fault.
    fn eprintln<D: Display + Drop>(&self, value: D) -> io::Result<()> {
        match self.format {
            LineFormat::Text => self.rt.eprintln(value),
            LineFormat::Json => {
                let alloc = self.rt.alloc();
                match format!(in alloc; "{value}") {
                    Ok(text) => self.tell_message(text.as_str()),
                    Err(_) => eprint!(self.rt; "{UNSPELLED}"),
                }
            }
        }
    }
}

impl<R: Wait> Wait for Host<'_, R> {}

impl<R: Threads> Threads for Host<'_, R> {}

impl<R: Alloc> Alloc for Host<'_, R> {
    type A = R::A;

    fn alloc(&self) -> R::A {
        self.rt.alloc()
    }
}

impl<R: Print> Print for Host<'_, R> {
    fn print<D: Display + Drop>(&self, value: D) -> io::Result<()> {
        self.rt.print(value)
    }

    fn println<D: Display + Drop>(&self, value: D) -> io::Result<()> {
        self.rt.println(value)
    }

    fn write_all(&self, bytes: &[u8]) -> io::Result<()> {
        self.rt.write_all(bytes)
    }

    fn write_some(&self, bytes: &[u8]) -> io::Result<usize> {
        self.rt.write_some(bytes)
    }
}

impl<R: Input> Input for Host<'_, R> {
    type Reader = R::Reader;

    fn read_line<A: Allocator + Clone>(&self, buf: &mut String<A>) -> io::Result<usize> {
        self.rt.read_line(buf)
    }

    fn lines<A: Allocator>(&self, alloc: A) -> Lines<R::Reader, A> {
        self.rt.lines(alloc)
    }

    fn reader(&self) -> R::Reader {
        self.rt.reader()
    }
}

impl<R: Clock> Clock for Host<'_, R> {
    fn monotonic(&self) -> io::Result<Duration> {
        self.rt.monotonic()
    }

    fn since_1970(&self) -> io::Result<Duration> {
        self.rt.since_1970()
    }

    fn sleep(&self, duration: Duration) {
        self.rt.sleep(duration)
    }
}

impl<R: RandomSource> RandomSource for Host<'_, R> {
    fn fill_bytes(&self, buf: &mut [u8]) -> io::Result<()> {
        self.rt.fill_bytes(buf)
    }
}

impl<R: Files> Files for Host<'_, R> {
    type File = R::File;

    type Dir = R::Dir;

    fn open_file(&self, how: &OpenOptions, path: &str) -> io::Result<R::File> {
        self.rt.open_file(how, path)
    }

    fn open_dir(&self, path: &str) -> io::Result<R::Dir> {
        self.rt.open_dir(path)
    }

    fn metadata(&self, path: &str) -> io::Result<Metadata> {
        self.rt.metadata(path)
    }

    fn symlink_metadata(&self, path: &str) -> io::Result<Metadata> {
        self.rt.symlink_metadata(path)
    }

    fn copy(&self, from: &str, to: &str) -> io::Result<u64> {
        self.rt.copy(from, to)
    }

    fn rename(&self, from: &str, to: &str) -> io::Result<()> {
        self.rt.rename(from, to)
    }

    fn remove_file(&self, path: &str) -> io::Result<()> {
        self.rt.remove_file(path)
    }

    fn create_dir(&self, path: &str) -> io::Result<()> {
        self.rt.create_dir(path)
    }

    fn remove_dir(&self, path: &str) -> io::Result<()> {
        self.rt.remove_dir(path)
    }

    fn remove_dir_all<B: Allocator>(&self, alloc: B, path: &str) -> io::Result<()> {
        self.rt.remove_dir_all(alloc, path)
    }
}
