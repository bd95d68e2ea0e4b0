//! The files of a capture: those that one option names, in the order in which it names them.

use crate::fault::OptionFault;
use sr_pcapng::Wanted;

/// The files of a capture, at least one. They are read one after another as one capture.
#[derive(Clone, Copy, Debug)]
pub struct Paths<'a> {
    // The words of the command line, which name them.
    words: &'a [String],
    // The option that does, with its hyphens.
    option: &'a str,
    // How many of its files are passed over.
    first: usize,
    /// How many there are.
    pub count: usize,
    /// How many octets of them are read, as of one file.
    pub most: u64,
}

/// A file, and which of its interfaces is wanted.
#[derive(Clone, Copy)]
struct Named<'a> {
    path: &'a str,
    wanted: Wanted,
}

/// The file and the interface that a word names: a colon and digits at its end are an interface's number.
fn file_named(word: &str) -> Named<'_> {
    let whole = Named {
        path: word,
        wanted: Wanted::Only,
    };
    let Some((path, digits)) = word.rsplit_once(':') else {
        return whole;
    };
    if !digits.bytes().all(|octet| octet.is_ascii_digit()) {
        return whole;
    }
    match digits.parse::<u32>() {
        Ok(number) => Named {
            path,
            wanted: Wanted::Number(number),
        },
        Err(_) => whole,
    }
}

/// The value of an option whose word stands at this place: behind an equals sign, or the word behind it. The parser let the words through,
/// so that no other option has a value that is spelled like this one.
fn value_at<'a>(words: &'a [String], place: usize, option: &str) -> Option<&'a str> {
    let word = words.get(place)?.as_str();
    if word == option {
        return Some(words.get(place.saturating_add(1))?.as_str());
    }
    word.strip_prefix(option)?.strip_prefix("=")
}

/// The value that this option has where it stands for the time of this number, from 0 on.
fn value_of<'a>(words: &'a [String], option: &str, number: usize) -> Option<&'a str> {
    let mut left = number;
    for place in 0..words.len() {
        if let Some(value) = value_at(words, place, option) {
            if left == 0 {
                return Some(value);
            }
            left -= 1;
        }
    }
    None
}

impl<'a> Paths<'a> {
    /// The files that an option names so many times.
    pub(crate) fn new(words: &'a [String], option: &'a str, count: usize) -> Paths<'a> {
        Paths {
            words,
            option,
            first: 0,
            count,
            most: u64::MAX,
        }
    }

    /// The file at a place, from 0 on. None: there are no more.
    fn named(&self, place: usize) -> Option<Named<'a>> {
        if place >= self.count {
            return None;
        }
        let word = value_of(self.words, self.option, self.first.saturating_add(place))?;
        Some(file_named(word))
    }

    /// The path of the file at a place, from 0 on. None: there are no more.
    pub fn path(&self, place: usize) -> Option<&'a str> {
        Some(self.named(place)?.path)
    }

    /// The file at a place alone, whole.
    pub fn alone(&self, place: usize) -> Paths<'a> {
        Paths {
            first: self.first.saturating_add(place),
            count: 1,
            most: u64::MAX,
            ..*self
        }
    }

    /// These files, of which so many octets are read.
    pub fn up_to(&self, most: u64) -> Paths<'a> {
        Paths { most, ..*self }
    }

    /// Which interface of the files is wanted: one and the same.
    ///
    /// # Errors
    /// `Interfaces` where it is not the same of all.
    pub(crate) fn wanted(&self) -> Result<Wanted, OptionFault> {
        let mut wanted = Wanted::Only;
        for place in 0..self.count {
            let Some(named) = self.named(place) else {
                break;
            };
            if place > 0 && named.wanted != wanted {
                return Err(OptionFault::Interfaces);
            }
            wanted = named.wanted;
        }
        Ok(wanted)
    }
}
