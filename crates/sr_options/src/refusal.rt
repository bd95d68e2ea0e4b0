//! Why the command line is refused, and what is told of it.

ghost use Rattle.std.specs.Prelude.{◌↔◌, IsTrue};
ghost use Rattle.sr_options.specs.Refusals.{AsksVersion};

use crate::fault::OptionFault;
use clap::Error;
use clap::error::ErrorKind;
use std::alloc::AllocError;
use std::fmt;

/// Why the command line is refused.
#[derive(Drop)]
pub enum Refused {
    /// The parser's error; a call for help or for the version, and a failed allocation, come this way too.
    Parser(Error),
    /// The address is none.
    Mac,
    /// The value of an option, or options that stand together.
    Option(OptionFault),
}

impl Refused {
    /// Whether the version was asked for.
    pub fn is_version(&self) -> bool
        ensures { IsTrue result ↔ AsksVersion self.now }
    {
        match self {
            Refused::Parser(error) => error.kind() == ErrorKind::DisplayVersion,
            _ => false,
        }
    }
}

impl fmt::Display for Refused {
    fn fmt<W: fmt::Write>(&self, f: &mut fmt::Formatter<W>) -> fmt::Result {
        match self {
            Refused::Parser(error) => write!(f, "{error}"),
            Refused::Mac => f.write_str(
                "fault mac\n--mac takes 12 hexadecimal digits, as 020000000002, 02:00:00:00:00:02 or 02-00-00-00-00-02\n",
            ),
            Refused::Option(fault) => {
                let word = fault.word();
                let wanted = fault.wanted();
                write!(f, "fault {word}\n{wanted}\n")
            }
        }
    }
}

impl From<AllocError> for Refused {
    fn from(error: AllocError) -> Refused {
        Refused::Parser(Error::from(error))
    }
}
